//! Searches of a list that is divided into nodes.
ghost use Rattle.std.specs.Prelude.{◌≡◌, ◌≤◌, IfOk};
ghost use Rattle.std.specs.Ordering.{nat_cmp};
ghost use Rattle.indexset_core.specs.Order.{IsAscending};
ghost use Rattle.indexset_spine.specs.NodeList.{items};

use crate::probe::numbers;
use indexset_core::probe::{ByItem, Counting};
use indexset_spine::spine::Spine;
use indexset_spine::spot::Spot;
use std::alloc::Global;
use std::test::Fail;

/// Returns a spine of these values, appended in order.
fn spine_of(alloc: Global, size: usize, values: &[u64]) -> Result<Spine<u64>, Fail>
    requires { 2 ≤ size }
    ensures { IfOk result (λ spine. items spine ≡ values.now) }
{
    let mut spine = Spine::new(alloc, size)?;
    for value in values {
        let end = spine.spot_after(spine.len());
        spine.insert(end, *value).map_err(|refused| refused.cause)?;
    }
    Ok(spine)
}

/// Returns the numbers 2, 4, 6, 8 and 10 in nodes of two: [2] [4] [6] [8, 10].
fn evens(alloc: Global) -> Result<Spine<u64>, Fail>
    ensures { IfOk result (λ spine. IsAscending nat_cmp (items spine)) }
{
    let node = numbers(alloc, &[2, 4, 6, 8, 10])?;
    spine_of(alloc, 2, node.as_slice())
}

/// Returns where a search finds the value, and the number of comparisons.
fn questions(spine: &Spine<u64>, value: u64) -> (Spot, u64)
    requires { IsAscending nat_cmp (items spine.now) }
{
    let mut probe = Counting::new(ByItem::new(&value));
    let spot = spine.locate_by(&mut probe);
    (spot, probe.asked())
}

/// Returns the same for a search that compares with the last item first.
fn questions_from_the_end(spine: &Spine<u64>, value: u64) -> (Spot, u64)
    requires { IsAscending nat_cmp (items spine.now) }
{
    let mut probe = Counting::new(ByItem::new(&value));
    let spot = spine.locate_from_end_by(&mut probe);
    (spot, probe.asked())
}

// Returns whether the even numbers and those around them are found at these spots with at most six
// comparisons: 3 for one of four nodes, 2 for one of two places, and 1 for equality.
fn is_found_by_six(spine: &Spine<u64>) -> bool
    requires { IsAscending nat_cmp (items spine.now) }
{
    let table = [
        (1, (0, 0, false)),
        (2, (0, 0, true)),
        (6, (2, 0, true)),
        (7, (3, 0, false)),
        (10, (3, 1, true)),
        (11, (3, 2, false)),
    ];
    for (value, (node, offset, found)) in table {
        let (spot, asked) = questions(spine, value);
        let expected = Spot {
            node,
            offset,
            found,
        };
        if spot != expected || asked > 6 {
            return false;
        }
    }
    true
}

#[test]
fn a_spot_by_few_questions(rt: HostRuntime) -> Result<(), Fail> {
    let spine = evens(rt.alloc())?;
    assert!(rt; spine.node_count() == 4 && is_found_by_six(&spine));
    Ok(())
}

// Returns whether the place after the last item takes one comparison, and an item before it at most
// seven.
fn asks_for_the_last_first(spine: &Spine<u64>) -> bool
    requires { IsAscending nat_cmp (items spine.now) }
{
    let end = Spot {
        node: 3,
        offset: 2,
        found: false,
    };
    let six = Spot {
        node: 2,
        offset: 0,
        found: true,
    };
    let at_once = questions_from_the_end(spine, 11) == (end, 1);
    let (spot, asked) = questions_from_the_end(spine, 6);
    at_once && spot == six && asked <= 7
}

#[test]
fn the_last_item_is_asked_for_first(rt: HostRuntime) -> Result<(), Fail> {
    let spine = evens(rt.alloc())?;
    assert!(rt; asks_for_the_last_first(&spine));
    Ok(())
}
