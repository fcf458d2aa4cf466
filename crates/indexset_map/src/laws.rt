//! Laws of the iterators over a map. Each function does nothing; its contract is the law.
ghost use Rattle.std.specs.Map.Iter.{deref};
ghost use Rattle.indexset_core.specs.Pairs.{pair_deref};
ghost use Rattle.indexset_core.specs.DoubleEnded.{IsDoubleEnded};

use crate::iter::{IterMap, Keys, Values};
use crate::owned::{IntoIterMap, IntoKeys, IntoValues};

/// Iterators over the pairs, keys or values of a map, or over a range, yield each item once.
///
/// They do so for every sequence of calls of `next` and `next_back`, and then return `None`.
pub fn shared_iterators_yield_each_item_once<'a, K: 'a, V: 'a>()
    ensures pairs { IsDoubleEnded pair_deref ⟦<IterMap<'a, K, V> as Iterator>⟧.next_gives
        ⟦<IterMap<'a, K, V> as DoubleEndedIterator>⟧.next_back_gives }
    ensures keys { IsDoubleEnded deref ⟦<Keys<'a, K, V> as Iterator>⟧.next_gives
        ⟦<Keys<'a, K, V> as DoubleEndedIterator>⟧.next_back_gives }
    ensures values { IsDoubleEnded deref ⟦<Values<'a, K, V> as Iterator>⟧.next_gives
        ⟦<Values<'a, K, V> as DoubleEndedIterator>⟧.next_back_gives }
{}

/// Owning iterators over the pairs, keys or values of a map yield each item once.
///
/// They do so for every sequence of calls of `next` and `next_back`, and then return `None`.
pub fn owning_iterators_yield_each_item_once<K: Drop, V: Drop>()
    ensures pairs { IsDoubleEnded (λ e. e) ⟦<IntoIterMap<K, V> as Iterator>⟧.next_gives
        ⟦<IntoIterMap<K, V> as DoubleEndedIterator>⟧.next_back_gives }
    ensures keys { IsDoubleEnded (λ k. k) ⟦<IntoKeys<K, V> as Iterator>⟧.next_gives
        ⟦<IntoKeys<K, V> as DoubleEndedIterator>⟧.next_back_gives }
    ensures values { IsDoubleEnded (λ v. v) ⟦<IntoValues<K, V> as Iterator>⟧.next_gives
        ⟦<IntoValues<K, V> as DoubleEndedIterator>⟧.next_back_gives }
{}
