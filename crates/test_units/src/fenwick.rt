//! Worked examples of an index of the lengths 2, 2, 2, 4, and the number of cells that each call
//! reads.
ghost use Rattle.std.specs.Prelude.{◌≡◌, ◌<◌, ◌≤◌, ◌^◌, ◌∷◌, [], length, sum};
ghost use Rattle.indexset_core.specs.Nodes.{node_lengths, vec_items};
ghost use Rattle.indexset_index.specs.Fenwick.{cell_of};

use indexset_core::item_iter::OfVec;
use indexset_core::refusal::Refusal;
use indexset_index::fenwick::Fenwick;
use indexset_index::fenwick::cells::Cells;
use indexset_index::fenwick::sums::{find_in, prefix_in};
use std::alloc::Global;
use std::test::Fail;

/// Cells that count how often they are read.
#[derive(Drop)]
struct Watched<C> {
    cells: C,
    reads: u64,
}

impl<C: Cells> Cells for Watched<C> {
    ghost number = { λ s. C.number s.cells };

    ghost cell = { λ s. C.cell s.cells };

    ghost asked = { λ s. C.asked s.cells };

    fn count(&self) -> usize {
        self.cells.count()
    }

    fn read(&mut self, i: usize) -> usize {
        self.reads = self.reads.saturating_add(1);
        self.cells.read(i)
    }
}

/// Returns the sum of the first `k` lengths, and the number of cells that were read.
fn prefix(index: &Fenwick, k: usize) -> (usize, u64)
    requires { k ≤ length index.now.lengths }
{
    let mut cells = Watched {
        cells: index.cells(),
        reads: 0,
    };
    let sum = prefix_in(&mut cells, k);
    (sum, cells.reads)
}

/// Returns the node of a position and the offset in it, and the number of cells that were read.
fn find(index: &Fenwick, position: usize) -> (Option<(usize, usize)>, u64) {
    let mut cells = Watched {
        cells: index.cells(),
        reads: 0,
    };
    let found = find_in(&mut cells, position);
    (found, cells.reads)
}

/// Returns the value of a cell.
fn cell(index: &Fenwick, i: usize) -> usize
    requires one { 1 ≤ i }
    requires within { i ≤ length index.now.lengths }
    ensures { result ≡ cell_of index.now.lengths i }
{
    index.cells().read(i)
}

/// Returns the values of the first four cells.
fn four(index: &Fenwick) -> [usize; 4]
    requires { length index.now.lengths ≡ 4 }
{
    [
        cell(index, 1),
        cell(index, 2),
        cell(index, 3),
        cell(index, 4),
    ]
}

// Returns whether the cells have the sums of these lengths, also after each change to a length.
fn holds_sums(index: &mut Fenwick) -> bool
    requires { index.old.lengths ≡ 2 ∷ 2 ∷ 2 ∷ 4 ∷ [] }
{
    let made = index.cells().count() == 4 && four(index) == [2, 4, 2, 10];
    index.add(1, 1);
    let added = four(index) == [2, 5, 2, 11] && find(index, 4).0 == Some((1, 2));
    index.sub(3, 4);
    made && added && four(index) == [2, 5, 2, 7]
}

#[test]
fn cells_hold_sums(rt: HostRuntime) -> Result<(), Fail> {
    let mut index = Fenwick::from_lengths(rt.alloc(), &[2, 2, 2, 4])?;
    assert!(rt; holds_sums(&mut index));
    Ok(())
}

#[test]
fn sums_read_a_cell_for_each_one_bit(rt: HostRuntime) -> Result<(), Fail> {
    let index = Fenwick::from_lengths(rt.alloc(), &[2, 2, 2, 4])?;
    assert!(rt; prefix(&index, 3) == (6, 2) && prefix(&index, 4) == (10, 1));
    Ok(())
}

#[test]
fn searches_read_a_cell_for_each_digit(rt: HostRuntime) -> Result<(), Fail> {
    let index = Fenwick::from_lengths(rt.alloc(), &[2, 2, 2, 4])?;
    for (position, expected) in [
        (5, Some((2, 1))),
        (6, Some((3, 0))),
        (9, Some((3, 3))),
        (10, None),
    ] {
        let (found, reads) = find(&index, position);
        assert!(rt; found == expected && reads <= 3);
    }
    Ok(())
}

/// Returns the node of the first position in nodes of these lengths, and the offset in it.
fn find_first(alloc: Global, lengths: &[usize]) -> Result<Option<(usize, usize)>, Refusal>
    requires { sum lengths.now < 2 ^ 64 }
{
    let index = Fenwick::from_lengths(alloc, lengths)?;
    Ok(find(&index, 0).0)
}

#[test]
fn empty_nodes_hold_no_position(rt: HostRuntime) -> Result<(), Fail> {
    let found = find_first(rt.alloc(), &[0, 3])?;
    let none = find_first(rt.alloc(), &[0])?;
    assert!(rt; found == Some((1, 0)) && none.is_none());
    Ok(())
}

// Returns whether an empty index is filled with two lengths, and then with those of three nodes.
fn is_rebuilt(index: &mut Fenwick, nodes: &[Vec<u8>]) -> bool
    requires empty { index.old.lengths ≡ [] }
    requires room { 1 ≤ index.old.room }
    requires three { length nodes.now ≡ 3 }
    requires fits { sum (node_lengths (vec_items nodes.now)) < 2 ^ 64 }
{
    index.push(9);
    if index.reserve_one().is_err() {
        return false;
    }
    index.push(1);
    if index.reserve_one().is_err() {
        return false;
    }
    index.rebuild::<u8, Vec<u8>, OfVec>(nodes);
    let rebuilt = prefix(index, 3).0 == 6;
    index.truncate(2);
    let cut = index.len() == 2 && prefix(index, 2).0 == 3;
    index.rebuild_from::<u8, Vec<u8>, OfVec>(2, nodes);
    rebuilt && cut && find(index, 3).0 == Some((2, 0))
}

#[test]
fn an_index_grows_and_is_rebuilt(rt: HostRuntime) -> Result<(), Fail> {
    let alloc = rt.alloc();
    let nodes = vec![in alloc;
        vec![in alloc; 1u8, 2]?,
        vec![in alloc; 3]?,
        vec![in alloc; 4, 5, 6]?,
    ]?;
    let mut index = Fenwick::with_capacity(alloc, 1)?;
    assert!(rt; is_rebuilt(&mut index, nodes.as_slice()));
    Ok(())
}
