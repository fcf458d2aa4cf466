//! A change log: the events that a replica of a tree needs.
ghost use Rattle.std.specs.Prelude.{◌≡◌, ◌+◌, ◌≤◌, length, true, Some, IfOk, IfErr, OnErr, OnOk};
ghost use Rattle.std.specs.Ordering.{nat_cmp};
ghost use Rattle.indexset.specs.Words.{IsNumberedFrom, by_key, checked_put_events};
ghost use Rattle.indexset.specs.Words.{concat, keep, pair, put, put_events, refusal_for};
ghost use Rattle.indexset.specs.Words.{removal_events, replay, value_of, without};

use indexset::base::pair::Pair;
use indexset::base::refusal::{Refusal, Refused};
use indexset::cdc::change::ChangeEvent;
use indexset::cdc::laws;
use indexset::concurrent::map::BTreeMap;
use indexset::concurrent::set::BTreeSet;

/// A logged set of numbers.
pub type Numbers = BTreeSet<u64, Vec<u64>>;

/// Inserts a number, and returns the events that a replica has to apply, at most three.
pub fn put(tree: &mut Numbers, value: u64) -> Result<Vec<ChangeEvent<u64>>, Refused<u64>>
    // Result.
    ensures numbered { IfOk result (λ events. IsNumberedFrom tree.old.next events.items) }
    ensures at_most_three_events { IfOk result (λ events. length events.items ≤ 3) }

    // Contents.
    ensures contents { IfOk result (λ _. concat tree.new.nodes
        ≡ put nat_cmp (concat tree.old.nodes) value) }
    ensures next { IfOk result (λ events. tree.new.next ≡ tree.old.next + length events.items) }

    // Failure.
    ensures given_back { IfErr result (λ refused. refused.value ≡ value) }
    ensures unchanged { OnErr result (tree.new ≡ tree.old) }
    ensures cause { IfErr result (λ refused. refused.cause ≡ refusal_for tree.old.next
        (length (put_events nat_cmp tree.old.size tree.old.nodes value))) }

    // Nodes.
    ensures replay { IfOk result (λ events. replay nat_cmp tree.old.nodes events.items
        ≡ Some tree.new.nodes) }
{
    laws::numbered_by_place::<u64>();
    let (_, events) = tree.put_cdc(value)?;
    Ok(events)
}

/// Inserts a number, and returns whether it is present, which is always `true`.
pub fn hold(tree: &mut Numbers, value: u64) -> Result<bool, Refused<u64>>
    // Result.
    ensures contains { IfOk result (λ there. there ≡ true) }

    // Contents.
    ensures contents { OnOk result (concat tree.new.nodes
        ≡ keep nat_cmp (concat tree.old.nodes) value) }

    // Failure.
    ensures given_back { IfErr result (λ refused. refused.value ≡ value) }
    ensures unchanged { OnErr result (tree.new ≡ tree.old) }
    ensures cause { IfErr result (λ refused. refused.cause ≡ refusal_for tree.old.next
        (length (checked_put_events nat_cmp tree.old.size tree.old.nodes value))) }
{
    tree.insert(value)?;
    Ok(tree.contains(&value))
}

/// Removes a number, and returns the events.
pub fn take(tree: &mut Numbers, value: u64) -> Result<Vec<ChangeEvent<u64>>, Refusal>
    // Result.
    ensures numbered { IfOk result (λ events. IsNumberedFrom tree.old.next events.items) }
    ensures at_most_three_events { IfOk result (λ events. length events.items ≤ 3) }

    // Contents.
    ensures contents { IfOk result (λ _. concat tree.new.nodes
        ≡ without nat_cmp (concat tree.old.nodes) value) }
    ensures next { IfOk result (λ events. tree.new.next ≡ tree.old.next + length events.items) }

    // Failure.
    ensures unchanged { OnErr result (tree.new ≡ tree.old) }
    ensures cause { IfErr result (λ refusal. refusal ≡ refusal_for tree.old.next
        (length (removal_events nat_cmp tree.old.size tree.old.nodes value))) }

    // Nodes.
    ensures replay { IfOk result (λ events. replay nat_cmp tree.old.nodes events.items
        ≡ Some tree.new.nodes) }
{
    laws::numbered_by_place::<u64>();
    let (_, events) = tree.remove_cdc(&value)?;
    Ok(events)
}

/// A logged map of prices by item.
pub type Quotes = BTreeMap<u64, u64, Vec<Pair<u64, u64>>>;

/// Sets the price of an item, and returns the price that a look-up finds, which is that price.
pub fn quote(quotes: &mut Quotes, item: u64, price: u64) -> Result<Option<u64>, Refused<(u64, u64)>>
    // Result.
    ensures reported_price { IfOk result (λ told. told ≡ Some price) }

    // Contents.
    ensures now { OnOk result (value_of nat_cmp (concat quotes.new.nodes) item ≡ Some price) }
    ensures contents { OnOk result (concat quotes.new.nodes
        ≡ put (by_key nat_cmp) (concat quotes.old.nodes) (pair item price)) }

    // Failure.
    ensures given_back { IfErr result (λ refused. refused.value ≡ (item, price)) }
    ensures unchanged { OnErr result (quotes.new ≡ quotes.old) }
    ensures cause { IfErr result (λ refused. refused.cause ≡ refusal_for quotes.old.next
        (length (put_events (by_key nat_cmp) quotes.old.size quotes.old.nodes (pair item price)))) }
{
    quotes.insert(item, price)?;
    Ok(quotes.get(&item).map(|pair| pair.value))
}
