//! A stock of named things, and a replica of it: a logged map whose keys are texts.
ghost use Rattle.std.specs.Prelude.{◌≡◌, ◌⊎◌, length, Some, IfErr, OnOk};
ghost use Rattle.std.specs.Ordering.{nat_cmp};
ghost use Rattle.std.specs.Cmp.Lexicographic.{slice_cmp};
ghost use Rattle.indexset.specs.Words.{by_key, concat, key_removal_events, pair, put};
ghost use Rattle.indexset.specs.Words.{put_events, refusal_for, value_of, without_key};

use crate::copies::apply_all;
use indexset::base::Text;
use indexset::base::pair::Pair;
use indexset::base::refusal::Refusal;
use indexset::concurrent::map::BTreeMap;
use indexset::replica::Replica;

/// The count of a name.
pub type Count = Pair<Text, u64>;

/// A stock by name. A clone of a `Text` is identical to it, so a replica has the same nodes.
pub type Stock = BTreeMap<Text, u64>;

/// Sets the count of a name, in a stock and in a replica that has the same nodes.
///
/// Both then have the same nodes, and the replica has the count.
///
/// # Errors
///
/// Nothing is changed, or the stock has the count and the replica is behind.
pub fn set_count(
    stock: &mut Stock,
    copy: &mut Replica<Count>,
    name: Text,
    count: u64,
) -> Result<(), Refusal>
    requires { copy.old.nodes ≡ stock.old.nodes }
    ensures unchanged { OnOk result (copy.new.nodes ≡ stock.new.nodes) }
    ensures held { OnOk result (value_of (slice_cmp nat_cmp) (concat copy.new.nodes) name
        ≡ Some count) }
    ensures contents { OnOk result (concat stock.new.nodes
        ≡ put (by_key (slice_cmp nat_cmp)) (concat stock.old.nodes) (pair name count)) }
    ensures refused { IfErr result (λ refusal. ((stock.new ≡ stock.old) × (copy.new ≡ copy.old)
        × (refusal ≡ refusal_for stock.old.next (length (put_events (by_key (slice_cmp nat_cmp))
        stock.old.size stock.old.nodes (pair name count)))))
        ⊎ (concat stock.new.nodes ≡ put (by_key (slice_cmp nat_cmp))
        (concat stock.old.nodes) (pair name count))) }
{
    let (_, events) = stock.insert_cdc(name, count)?;
    apply_all(copy, events.as_slice())
}

/// Removes a name from a stock and from a replica that has the same nodes.
///
/// Both then have the same nodes.
///
/// # Errors
///
/// Nothing is changed, or the name is absent from the stock and the replica is behind.
pub fn forget(stock: &mut Stock, copy: &mut Replica<Count>, name: &str) -> Result<(), Refusal>
    requires { copy.old.nodes ≡ stock.old.nodes }
    ensures unchanged { OnOk result (copy.new.nodes ≡ stock.new.nodes) }
    ensures contents { OnOk result (concat stock.new.nodes
        ≡ without_key (slice_cmp nat_cmp) (concat stock.old.nodes) name.now) }
    ensures refused { IfErr result (λ refusal. ((stock.new ≡ stock.old) × (copy.new ≡ copy.old)
        × (refusal ≡ refusal_for stock.old.next (length (key_removal_events (slice_cmp nat_cmp)
        stock.old.size stock.old.nodes name.now))))
        ⊎ (concat stock.new.nodes ≡ without_key (slice_cmp nat_cmp)
        (concat stock.old.nodes) name.now)) }
{
    let (_, events) = stock.remove_cdc(name)?;
    apply_all(copy, events.as_slice())
}
