//! Cursors: positions between the items of a collection, from which iteration needs no search.
ghost use Rattle.std.specs.Prelude.{◌≡◌, ◌+◌, ◌≤◌, length, min};
ghost use Rattle.std.specs.List.{All};
ghost use Rattle.indexset_core.specs.Nodes.{concat, node_lengths, vec_items};
ghost use Rattle.indexset_core.specs.Parted.{IsParted, less_count};
ghost use Rattle.indexset_core.specs.Places.{IsPlace, items_before};
ghost use Rattle.indexset_ffi.specs.Cursors.{cursor_position, items_from};

use indexset_core::item_iter::{ItemIter, OfVec};
use indexset_core::locate::{last_place, place_by};
use indexset_core::probe::Probe;

/// A position between items: a node, and how many of its items are before the position.
///
/// Any two numbers are a cursor. An offset past the end of its node is that end, and an index past
/// the last node is the end of all.
#[repr(C)]
#[derive(Clone, Copy)]
pub struct Cursor {
    /// The index of the node.
    pub node: usize,
    /// How many items of that node are before the cursor.
    pub offset: usize,
}

/// The cursor before all items.
pub const START: Cursor = Cursor { node: 0, offset: 0 };

/// Returns a cursor at the first item that the probe does not compare as `Less`, or at the end.
///
/// Two binary searches find it.
pub fn find<T, P: Probe<T> + Drop>(nodes: &[Vec<T>], mut probe: P) -> Cursor
    requires filled { 2 ≤ length nodes.now → All (λ n. 1 ≤ n) (node_lengths (vec_items nodes.now)) }
    requires parted { IsParted (P.answer probe) (concat (vec_items nodes.now)) }
    ensures { cursor_position (node_lengths (vec_items nodes.now)) result
        ≡ less_count (P.answer probe) (concat (vec_items nodes.now)) }
{
    let (node, offset) = place_by::<T, Vec<T>, OfVec, P>(nodes, &mut probe);
    Cursor { node, offset }
}

/// Returns a cursor at a position, or at the end if the position is past it.
///
/// It starts from the cursor `near`, which has `start` items before it, and visits the nodes
/// between.
pub fn near_to<T>(nodes: &[Vec<T>], near: Cursor, start: usize, position: usize) -> Cursor
    requires { cursor_position (node_lengths (vec_items nodes.now)) near ≡ start }
    ensures { cursor_position (node_lengths (vec_items nodes.now)) result
        ≡ min position (length (concat (vec_items nodes.now))) }
{
    if position < start {
        return moved(nodes, START, position);
    }
    moved(nodes, near, position - start)
}

/// Returns a cursor at the end.
pub fn end<T>(nodes: &[Vec<T>]) -> Cursor
    ensures { cursor_position (node_lengths (vec_items nodes.now)) result
        ≡ length (concat (vec_items nodes.now)) }
{
    Cursor {
        node: nodes.len(),
        offset: 0,
    }
}

/// Returns the cursor `count` items after another one, or at the end if there are fewer.
///
/// It visits the nodes between.
pub fn moved<T>(nodes: &[Vec<T>], from: Cursor, count: usize) -> Cursor
    ensures { cursor_position (node_lengths (vec_items nodes.now)) result
        ≡ min (cursor_position (node_lengths (vec_items nodes.now)) from + count)
        (length (concat (vec_items nodes.now))) }
{
    let mut at = from;
    let mut left = count;
    while at.node < nodes.len() {
        let len = nodes[at.node].len();
        let offset = at.offset.min(len);
        if left <= len - offset {
            at.offset = offset + left;
            return at;
        }
        left -= len - offset;
        at.node += 1;
        at.offset = 0;
    }
    at
}

/// Returns the items from a cursor on.
pub fn rest<'a, T>(nodes: &'a [Vec<T>], cursor: Cursor) -> ItemIter<'a, T, Vec<T>, OfVec>
    ensures { result ≡ items_from (node_lengths (vec_items nodes.now)) cursor
        (concat (vec_items nodes.now)) }
{
    let last = last_place::<T, Vec<T>, OfVec>(nodes);
    ItemIter::between(nodes, place(nodes, cursor), last)
}

// Returns the node and the offset of a cursor, within bounds.
fn place<T>(nodes: &[Vec<T>], cursor: Cursor) -> (usize, usize)
    ensures place { IsPlace (vec_items nodes.now) result }
    ensures before { items_before (vec_items nodes.now) result
        ≡ cursor_position (node_lengths (vec_items nodes.now)) cursor }
{
    if cursor.node < nodes.len() {
        let offset = cursor.offset.min(nodes[cursor.node].len());
        return (cursor.node, offset);
    }
    last_place::<T, Vec<T>, OfVec>(nodes)
}
