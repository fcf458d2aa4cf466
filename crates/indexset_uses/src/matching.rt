//! An order book: bids and asks, each a set of prices.
ghost use Rattle.std.specs.Prelude.{◌≡◌, ◌-◌, ◌≤◌, ◌<◌, ◌^◌, [], length, min, slice_get};
ghost use Rattle.std.specs.Prelude.{drop, sum, take, Some, IfSome, OnSome, IfNone};
ghost use Rattle.std.specs.List.{All};
ghost use Rattle.indexset.specs.Words.{items};

use indexset::BTreeSet;

/// Removes the highest bid and the lowest ask and returns them, if the bid is at least the ask.
pub fn take_match(bids: &mut BTreeSet<u64>, asks: &mut BTreeSet<u64>) -> Option<(u64, u64)>
    // Result.
    ensures bid { IfSome result (λ pair. slice_get (items bids.old) (length (items bids.old) - 1)
        ≡ Some pair.0) }
    ensures ask { IfSome result (λ pair. slice_get (items asks.old) 0 ≡ Some pair.1) }
    ensures crossed { IfSome result (λ pair. pair.1 ≤ pair.0) }
    ensures uncrossed { IfNone result
        (All (λ bid. All (λ ask. bid < ask) (items asks.old)) (items bids.old)) }

    // Contents.
    ensures bids { OnSome result (items bids.new
        ≡ take (length (items bids.old) - 1) (items bids.old)) }
    ensures asks { OnSome result (items asks.new ≡ drop 1 (items asks.old)) }
    ensures unchanged { IfNone result ((items bids.new ≡ items bids.old)
        × (items asks.new ≡ items asks.old)) }
{
    let bid = *bids.last()?;
    let ask = *asks.first()?;
    if bid < ask {
        return None;
    }
    bids.pop_last();
    asks.pop_first();
    Some((bid, ask))
}

/// Removes all prices in ascending order, and returns their sum, which saturates.
pub fn clear(asks: &mut BTreeSet<u64>) -> u64
    ensures sum { result ≡ min (sum (items asks.old)) (2 ^ 64 - 1) }
    ensures empty { items asks.new ≡ [] }
{
    let mut sum = 0u64;
    while let Some(price) = asks.pop_first() {
        sum = sum.saturating_add(price);
    }
    sum
}
