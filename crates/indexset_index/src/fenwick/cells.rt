//! The cells of an index, which are read one at a time, with a count of the reads.
ghost use Rattle.std.specs.Prelude.{◌≡◌, ℕ, ◌+◌, ◌≤◌, length};
ghost use Rattle.indexset_index.specs.Fenwick.{cell_of, IsFenwickOf};

use super::Fenwick;
use indexset_core::steps::Steps;
use std::marker::Model;

/// Cells of an index, read one at a time.
pub trait Cells {
    /// The number of cells.
    ghost number: { Self → ℕ };

    /// The content of each cell, counted from 1: a fixed function of its index.
    ghost cell: { Self → ℕ → ℕ };

    /// The number of cells read so far.
    ghost asked: { Self → ℕ };

    /// Returns the number of cells.
    fn count(&self) -> usize
        ensures { result ≡ number self.now };

    /// Returns cell i, counted from 1.
    fn read(&mut self, i: usize) -> usize
        requires one { 1 ≤ i }
        requires within { i ≤ number self.old }
        ensures answer { result ≡ cell self.old i }
        ensures fixed { cell self.new ≡ cell self.old }
        ensures stays { number self.new ≡ number self.old }
        ensures counted { asked self.new ≡ asked self.old + 1 };
}

impl Fenwick {
    /// Returns the cells, of which none is read yet.
    pub fn cells(&self) -> IndexCells<'_>
        ensures value { result ≡ (self.now.lengths, 0) }
        ensures lawful { IsFenwickOf (cell_of result.0) (length result.0) result.0 }
    {
        self.recall_bounds();
        IndexCells {
            index: self,
            steps: Steps::new(),
        }
    }
}

/// The cells of an index, and the number of cells read so far.
#[derive(Drop)]
pub struct IndexCells<'a> {
    index: &'a Fenwick,
    steps: Steps,
}

impl<'a> Model for IndexCells<'a> {
    ghost use Rattle.std.specs.Prelude.{ℕ, List};

    ghost Value = { List ℕ × ℕ };

    ghost view = { λ s. (s.index.now.lengths, s.steps) };
}

impl<'a> Cells for IndexCells<'a> {
    ghost use Rattle.std.specs.Prelude.{length};
    ghost use Rattle.indexset_index.specs.Fenwick.{cell_of};

    ghost number = { λ s. length s.0 };

    ghost cell = { λ s i. cell_of s.0 i };

    ghost asked = { λ s. s.1 };

    fn count(&self) -> usize {
        let index = self.index;
        index.cells.len()
    }

    fn read(&mut self, i: usize) -> usize {
        self.steps.tick();
        let index = self.index;
        index.cells[i - 1]
    }
}
