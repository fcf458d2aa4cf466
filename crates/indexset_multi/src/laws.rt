//! Laws of the iterators over a multimap. Each function does nothing; its contract is the law.
ghost use Rattle.indexset_core.specs.Pairs.{pair_deref};
ghost use Rattle.indexset_core.specs.DoubleEnded.{IsDoubleEnded};
ghost use Rattle.indexset_multi.specs.Keys.{number_shown};

use crate::multimap::iter::Iter;
use crate::multimap::range::{Range, RawRange};
use indexset_core::multipair::MultiPair;
use indexset_core::node::NodeLike;

/// Iterators over a multimap, over a range of it or over a key's pairs, yield each pair once.
///
/// They do so for every sequence of calls of `next` and `next_back`, and then return `None`.
pub fn iterators_yield_each_pair_once<
    'a,
    K: Ord + Clone + Drop + 'a,
    V: Eq + Clone + Drop + 'a,
    Node: NodeLike<MultiPair<K, V>> + 'a,
>()
    ensures pairs { IsDoubleEnded pair_deref ⟦<Iter<'a, K, V, Node> as Iterator>⟧.next_gives
        ⟦<Iter<'a, K, V, Node> as DoubleEndedIterator>⟧.next_back_gives }
    ensures range { IsDoubleEnded pair_deref ⟦<Range<'a, K, V, Node> as Iterator>⟧.next_gives
        ⟦<Range<'a, K, V, Node> as DoubleEndedIterator>⟧.next_back_gives }
    ensures raw_range { IsDoubleEnded number_shown
        ⟦<RawRange<'a, K, V, Node> as Iterator>⟧.next_gives
        ⟦<RawRange<'a, K, V, Node> as DoubleEndedIterator>⟧.next_back_gives }
{}
