//! Sums of the first lengths, and the search for a position.
ghost use Rattle.std.specs.Prelude.{◌≡◌, ◌+◌, ◌<◌, ◌≤◌, length, sum, slice_index, MatchOption};
ghost use Rattle.indexset_index.specs.Fenwick.{prefix_sum};

use super::Fenwick;
use super::sums::{find_in, prefix_in};

impl Fenwick {
    /// Returns the sum of the first `k` lengths.
    ///
    /// # Complexity
    ///
    /// Reads as many cells as `k` has one bits.
    pub fn prefix(&self, k: usize) -> usize
        requires { k ≤ length self.now.lengths }
        ensures { result ≡ prefix_sum self.now.lengths k }
    {
        prefix_in(&mut self.cells(), k)
    }

    /// Returns the node of a position, and the offset in it, or `None` past the end.
    ///
    /// # Complexity
    ///
    /// Reads at most as many cells as their number has binary digits.
    pub fn find(&self, position: usize) -> Option<(usize, usize)>
        ensures { MatchOption result (sum self.now.lengths ≤ position)
            (λ p. (p.0 < length self.now.lengths) × (p.1 < slice_index self.now.lengths p.0)
            × (prefix_sum self.now.lengths p.0 + p.1 ≡ position)) }
    {
        find_in(&mut self.cells(), position)
    }
}
