//! Orders by customer: a multimap.
ghost use Rattle.std.specs.Prelude.{◌≡◌, ℕ, false, length, nat_eq, IfErr, OnOk, OnErr};
ghost use Rattle.std.specs.Ordering.{is_eq, nat_cmp};
ghost use Rattle.indexset.specs.Words.{by_number, equal_pair, inserted_pair};
ghost use Rattle.indexset.specs.Words.{insertion_refusal, concat, pair_removal_events};
ghost use Rattle.indexset.specs.Words.{pairs_of, put, refusal_for, without_first};

use indexset::base::multipair::MultiPair;
use indexset::base::refusal::{Refusal, Refused};
use indexset::concurrent::multimap::BTreeMultiMap;

/// Orders by customer.
pub type Orders = BTreeMultiMap<u64, u64, Vec<MultiPair<u64, u64>>>;

/// Inserts an order after the others of its customer.
pub fn file(orders: &mut Orders, customer: u64, order: u64) -> Result<(), Refused<(u64, u64)>>
    ensures filed { OnOk result (concat orders.new.nodes ≡ put (by_number nat_cmp)
        (concat orders.old.nodes) (inserted_pair nat_cmp nat_eq orders.old customer order)) }
    ensures given_back { IfErr result (λ refused. refused.value ≡ (customer, order)) }
    ensures unchanged { OnErr result (orders.new ≡ orders.old) }
    ensures cause { IfErr result (λ refused.
        refused.cause ≡ insertion_refusal nat_cmp nat_eq orders.old customer order) }
{
    orders.insert(customer, order)?;
    Ok(())
}

/// Removes an order of a customer, if it is present.
pub fn cancel(orders: &mut Orders, customer: u64, order: u64) -> Result<(), Refusal>
    ensures gone { OnOk result (pairs_of nat_cmp (concat orders.new.nodes) customer ≡ without_first
        (λ p. nat_eq p.value order) (pairs_of nat_cmp (concat orders.old.nodes) customer)) }
    ensures others { OnOk result ((other : ℕ) → is_eq (nat_cmp other customer) ≡ false →
        pairs_of nat_cmp (concat orders.new.nodes) other
        ≡ pairs_of nat_cmp (concat orders.old.nodes) other) }
    ensures unchanged { OnErr result (orders.new ≡ orders.old) }
    ensures cause { IfErr result (λ refusal. refusal ≡ refusal_for orders.old.next (length
        (pair_removal_events nat_cmp orders.old.size orders.old.nodes
        (equal_pair nat_cmp nat_eq (concat orders.old.nodes) customer order)))) }
{
    orders.remove(&customer, &order)?;
    Ok(())
}

/// Returns how many orders a customer has.
pub fn count(orders: &Orders, customer: u64) -> usize
    ensures { result ≡ length (pairs_of nat_cmp (concat orders.now.nodes) customer) }
{
    orders.get(&customer).len()
}
