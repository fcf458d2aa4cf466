//! Laws of the iterators over a logged map. Each function does nothing; its contract is the law.
ghost use Rattle.indexset_core.specs.Pairs.{pair_deref};
ghost use Rattle.indexset_core.specs.DoubleEnded.{IsDoubleEnded};

use super::iter::Iter;
use indexset_core::node::NodeLike;
use indexset_core::pair::Pair;

/// Iterators over a logged map, or over a range of it, yield each pair once.
///
/// They do so for every sequence of calls of `next` and `next_back`, and then return `None`.
pub fn iterators_yield_each_pair_once<
    'a,
    K: Ord + Clone + Drop + 'a,
    V: Clone + Drop + 'a,
    Node: NodeLike<Pair<K, V>> + 'a,
>()
    ensures { IsDoubleEnded pair_deref ⟦<Iter<'a, K, V, Node> as Iterator>⟧.next_gives
        ⟦<Iter<'a, K, V, Node> as DoubleEndedIterator>⟧.next_back_gives }
{}
