//! Iteration over nodes.

ghost use Rattle.std.specs.Prelude.{◌≡◌, [], ◌∷◌, MatchOption};
ghost use Rattle.indexset_follow.specs.Reads.{PairNodes};

use indexset_core::pair::Pair;

/// An iterator over nodes.
pub trait WalkNodes<'a, T> {
    /// The remaining nodes.
    ghost rest: { Self → PairNodes T };

    /// Returns the next node.
    fn next_node(&mut self) -> Option<&'a [Pair<T, T>]>
        ensures { MatchOption result (rest self.old ≡ [])
            (λ n. rest self.old ≡ n.now ∷ rest self.new) };
}
