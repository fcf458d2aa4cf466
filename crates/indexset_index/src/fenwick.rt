//! A Fenwick tree of lengths: reads, searches and changes prefix sums in logarithmic time.
ghost use Rattle.std.specs.Prelude.{◌≡◌, ◌+◌, ◌-◌, ◌<◌, ◌≤◌, ◌^◌, ◌%◌, [], ◌∷◌, ◌++◌, length};
ghost use Rattle.std.specs.Prelude.{map, sum, take, slice_index, slice_set, IfOk, IfErr, OnOk};
ghost use Rattle.indexset_core.specs.Nodes.{node_lengths};

pub mod cells;
pub mod laws;
pub mod places;
mod shift;
pub mod sums;
mod table;

use indexset_core::item_iter::NodeItems;
use indexset_core::refusal::Refusal;
use std::alloc::Global;
use std::marker::Model;

/// An index of lengths, whose sum is at most `usize::MAX`.
#[derive(Drop)]
pub struct Fenwick {
    // Cell i, counted from 1, is the sum of the last `lowbit i` of the first i lengths.
    cells: Vec<usize>,
}

impl Model for Fenwick {
    ghost use Rattle.std.specs.Prelude.{vec_capacity};
    ghost use Rattle.indexset_index.specs.Fenwick.{Lengths, lengths_of, IsFenwick};

    ghost Value = { Lengths };

    ghost view = { λ f. record {
      lengths = lengths_of f.cells.items;
      room = vec_capacity f.cells;
    } };

    ghost invariant = { λ f. IsFenwick f.cells.items };
}

impl Fenwick {
    /// Creates an index of no lengths.
    ///
    /// It allocates nothing.
    pub fn new(alloc: Global) -> Self
        ensures { result.lengths ≡ [] }
    {
        Fenwick {
            cells: Vec::new(alloc),
        }
    }

    /// Creates an index of no lengths, with room for `capacity` of them.
    ///
    /// # Errors
    ///
    /// Fails with `Memory` only.
    pub fn with_capacity(alloc: Global, capacity: usize) -> Result<Self, Refusal>
        ensures empty { IfOk result (λ f. f.lengths ≡ []) }
        ensures room { IfOk result (λ f. capacity ≤ f.room) }
        ensures refusal { IfErr result (λ e. e ≡ Refusal.Memory) }
    {
        Ok(Fenwick {
            cells: Vec::with_capacity(alloc, capacity)?,
        })
    }

    /// Creates the index of these lengths.
    ///
    /// # Errors
    ///
    /// Fails with `Memory` only.
    pub fn from_lengths(alloc: Global, lengths: &[usize]) -> Result<Self, Refusal>
        requires { sum lengths.now < 2 ^ 64 }
        ensures ok { IfOk result (λ f. f.lengths ≡ lengths.now) }
        ensures refusal { IfErr result (λ e. e ≡ Refusal.Memory) }
    {
        let mut index = Fenwick::with_capacity(alloc, lengths.len())?;
        for length in lengths {
            index.push(*length);
        }
        Ok(index)
    }

    /// Returns the number of lengths, at most the capacity.
    pub fn len(&self) -> usize
        ensures value { result ≡ length self.now.lengths }
        ensures within { length self.now.lengths ≤ self.now.room }
        ensures fits { sum self.now.lengths < 2 ^ 64 }
    {
        self.cells.len()
    }

    /// Recalls for a proof that the lengths are within the capacity, and that their sum fits a
    /// `usize`.
    ///
    /// It has no effect.
    pub fn recall_bounds(&self)
        ensures within { length self.now.lengths ≤ self.now.room }
        ensures fits { sum self.now.lengths < 2 ^ 64 }
    {
        self.len();
    }

    /// Reserves capacity for one more length.
    ///
    /// # Errors
    ///
    /// Fails with `Memory` only. A failed call leaves the lengths as they were.
    pub fn reserve_one(&mut self) -> Result<(), Refusal>
        ensures room { OnOk result (length self.new.lengths < self.new.room) }
        ensures lengths { self.new.lengths ≡ self.old.lengths }
        ensures kept { self.old.room ≤ self.new.room }
        ensures refusal { IfErr result (λ e. e ≡ Refusal.Memory) }
    {
        self.reserve(1)
    }

    /// Reserves capacity for `more` further lengths.
    ///
    /// # Errors
    ///
    /// Fails with `Memory` only. A failed call leaves the lengths as they were.
    pub fn reserve(&mut self, more: usize) -> Result<(), Refusal>
        ensures room { OnOk result (length self.new.lengths + more ≤ self.new.room) }
        ensures lengths { self.new.lengths ≡ self.old.lengths }
        ensures kept { self.old.room ≤ self.new.room }
        ensures refusal { IfErr result (λ e. e ≡ Refusal.Memory) }
    {
        self.cells.reserve(more)?;
        Ok(())
    }

    /// Appends a length.
    ///
    /// There must be capacity for it. It allocates nothing.
    pub fn push(&mut self, last: usize)
        requires room { length self.old.lengths < self.old.room }
        requires fits { sum self.old.lengths + last < 2 ^ 64 }
        ensures lengths { self.new.lengths ≡ self.old.lengths ++ last ∷ [] }
        ensures room { self.new.room ≡ self.old.room }
    {
        let cell = table::last_cell(self.cells.as_slice(), self.cells.len() + 1, last);
        self.cells.push_reserved(cell);
    }

    /// Keeps the first `k` lengths, and removes the others.
    pub fn truncate(&mut self, k: usize)
        ensures lengths { self.new.lengths ≡ take k self.old.lengths }
        ensures room { self.new.room ≡ self.old.room }
    {
        self.cells.truncate(k);
    }

    /// Adds `n` to length `i`, counted from 0.
    pub fn add(&mut self, i: usize, n: usize)
        requires inside { i < length self.old.lengths }
        requires fits { sum self.old.lengths + n < 2 ^ 64 }
        ensures lengths { self.new.lengths
            ≡ slice_set self.old.lengths i (slice_index self.old.lengths i + n) }
        ensures room { self.new.room ≡ self.old.room }
    {
        table::raise(self.cells.as_mut_slice(), i, n);
    }

    /// Subtracts `n` from length `i`, counted from 0.
    pub fn sub(&mut self, i: usize, n: usize)
        requires inside { i < length self.old.lengths }
        requires enough { n ≤ slice_index self.old.lengths i }
        ensures lengths { self.new.lengths
            ≡ slice_set self.old.lengths i (slice_index self.old.lengths i - n) }
        ensures room { self.new.room ≡ self.old.room }
    {
        table::lower(self.cells.as_mut_slice(), i, n);
    }

    /// Replaces the lengths by those of these nodes.
    ///
    /// There must be capacity for them. It allocates nothing.
    pub fn rebuild<T, Node, R: NodeItems<T, Node>>(&mut self, nodes: &[Node])
        requires room { length nodes.now ≤ self.old.room }
        requires fits { sum (node_lengths (map R.list nodes.now)) < 2 ^ 64 }
        ensures lengths { self.new.lengths ≡ node_lengths (map R.list nodes.now) }
        ensures room { self.new.room ≡ self.old.room }
    {
        self.rebuild_from::<T, Node, R>(0, nodes);
    }

    /// Replaces the lengths from `k` on by those of these nodes.
    ///
    /// The first `k` lengths must be those of the nodes, and there must be capacity for all. It
    /// allocates nothing.
    pub fn rebuild_from<T, Node, R: NodeItems<T, Node>>(&mut self, k: usize, nodes: &[Node])
        requires same { take k self.old.lengths ≡ take k (node_lengths (map R.list nodes.now)) }
        requires within { k ≤ length nodes.now }
        requires room { length nodes.now ≤ self.old.room }
        requires fits { sum (node_lengths (map R.list nodes.now)) < 2 ^ 64 }
        ensures lengths { self.new.lengths ≡ node_lengths (map R.list nodes.now) }
        ensures room { self.new.room ≡ self.old.room }
    {
        self.truncate(k);
        while self.cells.len() < nodes.len() {
            self.push_next::<T, Node, R>(nodes);
        }
    }

    // Appends the lengths of the next four nodes, or of one if their index is no multiple of four
    // or fewer than four remain.
    fn push_next<T, Node, R: NodeItems<T, Node>>(&mut self, nodes: &[Node])
        requires same { self.old.lengths
            ≡ take (length self.old.lengths) (node_lengths (map R.list nodes.now)) }
        requires left { length self.old.lengths < length nodes.now }
        requires room { length nodes.now ≤ self.old.room }
        requires fits { sum (node_lengths (map R.list nodes.now)) < 2 ^ 64 }
        ensures lengths_of_nodes { self.new.lengths
            ≡ take (length self.new.lengths) (node_lengths (map R.list nodes.now)) }
        ensures more { length self.old.lengths < length self.new.lengths }
        ensures room { self.new.room ≡ self.old.room }
    {
        let i = self.cells.len();
        let first = length_at::<T, Node, R>(nodes, i);
        if i % 4 == 0 && nodes.len() - i >= 4 {
            let second = length_at::<T, Node, R>(nodes, i + 1);
            let third = length_at::<T, Node, R>(nodes, i + 2);
            let fourth = length_at::<T, Node, R>(nodes, i + 3);
            self.push_four(first, second, third, fourth);
        } else {
            self.push(first);
        }
    }

    // Appends four lengths to a multiple of four of them. There must be capacity. The first three
    // cells then sum none of the lengths before them: a rebuild takes 8.5 instructions a length,
    // and 18.6 if each length is appended by itself.
    fn push_four(&mut self, first: usize, second: usize, third: usize, fourth: usize)
        requires begin { length self.old.lengths % 4 ≡ 0 }
        requires room { length self.old.lengths + 4 ≤ self.old.room }
        requires fits { sum self.old.lengths + (first + second + third + fourth) < 2 ^ 64 }
        ensures lengths { self.new.lengths
            ≡ self.old.lengths ++ first ∷ second ∷ third ∷ fourth ∷ [] }
        ensures room { self.new.room ≡ self.old.room }
    {
        let two = first + second;
        let all = two + third + fourth;
        let cell = table::last_cell(self.cells.as_slice(), self.cells.len() + 4, all);
        self.cells.push_reserved(first);
        self.cells.push_reserved(two);
        self.cells.push_reserved(third);
        self.cells.push_reserved(cell);
    }
}

/// Returns the length of a node.
pub(crate) fn length_at<T, Node, R: NodeItems<T, Node>>(nodes: &[Node], i: usize) -> usize
    requires { i < length nodes.now }
    ensures { result ≡ slice_index (node_lengths (map R.list nodes.now)) i }
{
    R::items_of(&nodes[i]).len()
}
