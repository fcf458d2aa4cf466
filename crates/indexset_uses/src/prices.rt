//! Prices: a map from items to prices.
ghost use Rattle.std.specs.Prelude.{◌≡◌, ◌+◌, ◌-◌, ◌^◌, Some, None, IfErr};
ghost use Rattle.std.specs.Prelude.{IfOk, OnErr, length, min, unwrap_or};
ghost use Rattle.std.specs.Ordering.{nat_cmp};
ghost use Rattle.std.specs.declared.ops.Bound.TheVariants.{Excluded, Unbounded};
ghost use Rattle.indexset.specs.declared.base.refusal.Refusal.TheVariants.{Memory};
ghost use Rattle.indexset.specs.Words.{pairs_within, value_of, with_entry, without_entry, written};

use indexset::BTreeMap;
use indexset::base::refusal::Refused;
use std::ops::Bound;

/// Sets the price of an item, and returns the price that a look-up finds, which is that price.
pub fn set_price(
    prices: &mut BTreeMap<u64, u64>,
    item: u64,
    price: u64,
) -> Result<Option<u64>, Refused<(u64, u64)>>
    ensures now { IfOk result (λ now. now ≡ Some price) }
    ensures contents { IfOk result (λ _. prices.new ≡ with_entry nat_cmp prices.old item price) }
    ensures unchanged { OnErr result (prices.new ≡ prices.old) }
    ensures given_back { IfErr result (λ refused.
        (refused.value ≡ (item, price)) × (refused.cause ≡ Memory)) }
{
    prices.insert(item, price)?;
    Ok(prices.get(&item).copied())
}

/// Returns the price of an item, if it has one.
pub fn price_of(prices: &BTreeMap<u64, u64>, item: u64) -> Option<u64>
    ensures { result ≡ value_of nat_cmp prices.now.pairs item }
{
    prices.get(&item).copied()
}

/// Returns the price of an item, after inserting the usual price if it has none.
pub fn price_or(
    prices: &mut BTreeMap<u64, u64>,
    item: u64,
    usual: u64,
) -> Result<u64, Refused<(u64, u64)>>
    // Result.
    ensures price { IfOk result (λ price. price
        ≡ unwrap_or (value_of nat_cmp prices.old.pairs item) usual) }

    // Contents.
    ensures now { IfOk result (λ price. value_of nat_cmp prices.new.pairs item ≡ Some price) }
    ensures contents { IfOk result (λ price. prices.new
        ≡ with_entry nat_cmp prices.old item price) }

    // Failure.
    ensures unchanged { OnErr result (prices.new ≡ prices.old) }
    ensures given_back { IfErr result (λ refused.
        (refused.value ≡ (item, usual)) × (refused.cause ≡ Memory)) }
{
    let price = prices.entry(item).or_insert(usual)?;
    Ok(*price)
}

/// Increases each price by 10, up to `u64::MAX`.
pub fn raise(prices: &mut BTreeMap<u64, u64>)
    ensures { prices.new.pairs ≡ written (λ pair. min (pair.value + 10) (2 ^ 64 - 1))
        prices.old.pairs 0 (length prices.old.pairs) }
{
    let mut walk = prices.iter_mut();
    while walk.has_next() {
        let (_, price) = walk.next_pair();
        *price = price.saturating_add(10);
    }
}

/// Removes the price of an item, and returns what a look-up finds, which is `None`.
pub fn forget(prices: &mut BTreeMap<u64, u64>, item: u64) -> Option<u64>
    ensures none { result ≡ None }
    ensures contents { prices.new ≡ without_entry nat_cmp prices.old item }
{
    prices.remove(&item);
    prices.get(&item).copied()
}

/// Returns how many items less than this one have a price.
pub fn priced_below(prices: &BTreeMap<u64, u64>, item: u64) -> usize
    ensures { result ≡ length (pairs_within nat_cmp prices.now.pairs Unbounded (Excluded item)) }
{
    let below = (Bound::Unbounded, Bound::Excluded(&item));
    prices.range(below).len()
}
