//! The probes, the searches and the numbers of refusals.

ghost use Rattle.std.specs.Prelude.{IfOk};
ghost use Rattle.std.specs.Ordering.{nat_cmp};
ghost use Rattle.indexset_core.specs.Order.{IsAscending};

use indexset_core::key_range::bounds_are_ordered;
use indexset_core::node::NodeLike;
use indexset_core::probe::{ByItem, Counting, Probe};
use indexset_core::refusal::Refusal;
use indexset_core::search;
use std::alloc::Global;
use std::cmp::Ordering;
use std::ops::Bound;
use std::test::Fail;
use test_script::nodes::node_of;

#[test]
fn refusals_have_their_numbers(rt: HostRuntime) {
    let numbered = [
        (Refusal::Memory, 1),
        (Refusal::Numbers, 2),
        (Refusal::Empty, 3),
        (Refusal::TooLarge, 4),
        (Refusal::Unsorted, 5),
        (Refusal::Overlaps, 6),
        (Refusal::PairNumber, 7),
        (Refusal::Gap, 11),
        (Refusal::NoSuchNode, 12),
        (Refusal::IndexOutside, 13),
        (Refusal::ValueDiffers, 14),
        (Refusal::WouldBeEmpty, 15),
        (Refusal::OutOfOrder, 16),
        (Refusal::BadSplit, 17),
        (Refusal::NotNeighbours, 18),
    ];
    for (refusal, number) in numbered {
        assert!(rt; refusal.number() == number, "{refusal:?}");
    }
}

#[test]
fn a_probe_is_counted(rt: HostRuntime) {
    let mut probe = Counting::new(ByItem::new(&4));
    let none = probe.asked() == 0;
    let less = probe.place(&3) == Ordering::Less;
    let equal = probe.place(&4) == Ordering::Equal;
    let greater = probe.place(&5) == Ordering::Greater;
    assert!(rt; none && less && equal && greater && probe.asked() == 3);
}

// Returns whether the searches for the first item not less and for the first greater item are
// right.
fn finds_the_first() -> bool {
    let none = search::first_not_less(&[0_u64; 0], &mut ByItem::new(&4)) == 0;
    let greater = search::first_greater(&[4], &mut ByItem::new(&4)) == 1;
    let above = search::first_not_less(&[4], &mut ByItem::new(&5)) == 1;
    none && greater && above
}

#[test]
fn searches_a_slice(rt: HostRuntime) {
    assert!(rt; finds_the_first());
    for (item, place, found) in [(6, 1, true), (5, 1, false), (7, 2, false)] {
        let near = search::first_not_less_near(&[4, 6], &mut ByItem::new(&item));
        assert!(rt; near == (place, found), "of {item}");
    }
}

#[test]
fn bounds_in_order(rt: HostRuntime) {
    let rows = [
        (Bound::Included(&1), Bound::Included(&1), true),
        (Bound::Excluded(&1), Bound::Included(&1), true),
        (Bound::Excluded(&1), Bound::Excluded(&1), false),
        (Bound::Included(&2), Bound::Excluded(&1), false),
        (Bound::Unbounded, Bound::Excluded(&1), true),
    ];
    for (start, end, in_order) in rows {
        assert!(rt; bounds_are_ordered(start, end) == in_order);
    }
}

/// Returns a node of these numbers, inserted in order.
pub fn numbers(alloc: Global, values: &[u64]) -> Result<Vec<u64>, Refusal>
    ensures { IfOk result (λ node. IsAscending nat_cmp node.items) }
{
    node_of(alloc, values)
}

// Returns whether 4 is found among 2, 4 and 6, and the gaps of 5 and 7, and 6 takes one comparison.
fn finds_in_a_slice(evens: &[u64]) -> bool
    requires { IsAscending nat_cmp evens.now }
{
    let found = search::find(evens, &4) == Ok(1);
    let absent = search::find(evens, &5) == Err(2);
    let above = search::find(evens, &7) == Err(3);
    let mut probe = Counting::new(ByItem::new(&6));
    let equal = search::is_equal_at(evens, 2, &mut probe);
    let past = search::is_equal_at(evens, 3, &mut probe);
    found && absent && above && equal && !past && probe.asked() == 1
}

#[test]
fn an_index_in_a_slice(rt: HostRuntime) -> Result<(), Fail> {
    let node = numbers(rt.alloc(), &[2, 4, 6])?;
    assert!(rt; finds_in_a_slice(node.as_slice()));
    Ok(())
}

#[test]
fn counts_its_questions(rt: HostRuntime) -> Result<(), Fail> {
    let node = numbers(rt.alloc(), &[2, 4, 6, 8, 10, 12, 14])?;
    let mut probe = Counting::new(ByItem::new(&8));
    let not_less = NodeLike::first_not_less(&node, &mut probe);
    let asked = probe.asked();
    let greater = NodeLike::first_greater(&node, &mut probe);
    assert!(rt; not_less == 3 && asked <= 3 && greater == 4 && probe.asked() <= 6);
    Ok(())
}

#[test]
fn edits_at_a_place(rt: HostRuntime) -> Result<(), Fail> {
    let mut node: Vec<u64> = NodeLike::with_capacity(rt.alloc(), 2)?;
    node.reserve_one()?;
    node.insert_at(0, 7);
    let old = NodeLike::replace(&mut node, 0, 8);
    let none = NodeLike::replace(&mut node, 1, 9);
    let replaced = old == Some(7) && none.is_none() && node.as_slice() == [8].as_slice();
    let out = node.remove_at(0);
    assert!(rt; replaced && out == 8 && node.len() == 0);
    Ok(())
}
