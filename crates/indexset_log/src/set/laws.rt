//! Laws of the iterators over a logged set. Each function does nothing; its contract is the law.
ghost use Rattle.std.specs.Map.Iter.{deref};
ghost use Rattle.indexset_core.specs.DoubleEnded.{IsDoubleEnded};

use super::iter::Iter;
use super::nodes::Nodes;
use super::range::Range;
use indexset_core::node::NodeLike;

/// Iterators over a logged set, over a range of it or over its nodes, yield each item once.
///
/// They do so for every sequence of calls of `next` and `next_back`, and then return `None`.
pub fn iterators_yield_each_item_once<'a, T: Ord + Clone + Drop + 'a, Node: NodeLike<T> + 'a>()
    ensures items { IsDoubleEnded deref ⟦<Iter<'a, T, Node> as Iterator>⟧.next_gives
        ⟦<Iter<'a, T, Node> as DoubleEndedIterator>⟧.next_back_gives }
    ensures range { IsDoubleEnded deref ⟦<Range<'a, T, Node> as Iterator>⟧.next_gives
        ⟦<Range<'a, T, Node> as DoubleEndedIterator>⟧.next_back_gives }
    ensures nodes { IsDoubleEnded deref ⟦<Nodes<'a, Node> as Iterator>⟧.next_gives
        ⟦<Nodes<'a, Node> as DoubleEndedIterator>⟧.next_back_gives }
{}
