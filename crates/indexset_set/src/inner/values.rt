//! Calls by spots that write the values of pairs.
ghost use Rattle.std.specs.Prelude.{◌≡◌, Some, slice_get};
ghost use Rattle.std.specs.Option.{option_map};
ghost use Rattle.std.specs.Borrow.{sem};
ghost use Rattle.indexset_core.specs.Pairs.{entry_of};
ghost use Rattle.indexset_set.specs.SetLends.{lends_pair, lends_value};
ghost use Rattle.indexset_spine.specs.NodeList.{items, IsItemSpot, position_of};

use crate::BTreeSet;
use indexset_core::pair::Pair;
use indexset_spine::spot::Spot;

/// Returns a mutable reference to the value at a spot.
pub fn value_in<K: Ord, V>(set: &mut BTreeSet<Pair<K, V>>, spot: Spot) -> &mut V
    requires { IsItemSpot set.old.nodes spot }
    ensures* writes_back { sem 𝓛 (lends_value K.row V.row K.Ord set.entry
        (position_of set.old.nodes spot) result) }
    ensures value { option_map (λ p. p.value)
        (slice_get (items set.old) (position_of set.old.nodes spot)) ≡ Some result.now }
{
    let pair = set.spine.item_mut(spot);
    &mut pair.value
}

/// Returns the key at a spot with a mutable reference to its value.
pub fn pair_in_mut<K: Ord, V>(set: &mut BTreeSet<Pair<K, V>>, spot: Spot) -> (&K, &mut V)
    requires { IsItemSpot set.old.nodes spot }
    ensures* writes_back { sem 𝓛 (lends_pair K.row V.row K.Ord set.entry
        (position_of set.old.nodes spot) result) }
    ensures value { option_map entry_of (slice_get (items set.old) (position_of set.old.nodes spot))
        ≡ Some (result.0.now, result.1.now) }
{
    let pair = set.spine.item_mut(spot);
    (&pair.key, &mut pair.value)
}
