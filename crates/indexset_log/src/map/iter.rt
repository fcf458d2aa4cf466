//! Double-ended iterators over a map.
ghost use Rattle.std.specs.Prelude.{◌≡◌, length, IfSome, Some};
ghost use Rattle.std.specs.Iterator.{UpTo, at_most};
ghost use Rattle.std.specs.Iterator.SizeHint.{IsWithinCount};
ghost use Rattle.std.specs.Map.Iter.{TakesFirst, TakesLast, ShowsInOrder, ShowsInReverse};
ghost use Rattle.indexset_core.specs.Nodes.{concat};
ghost use Rattle.indexset_core.specs.Pairs.{pair_deref};

use super::BTreeMap;
use crate::set::iter;
use indexset_core::node::NodeLike;
use indexset_core::pair::Pair;
use std::iter::FusedIterator;
use std::marker::Model;

/// A double-ended iterator over the pairs of a map.
#[derive(Drop)]
pub struct Iter<
    'a,
    K: Ord + Clone + Drop,
    V: Clone + Drop,
    Node: NodeLike<Pair<K, V>> = Vec<Pair<K, V>>,
> {
    pub(super) rest: iter::Iter<'a, Pair<K, V>, Node>,
}

impl<'a, K: Ord + Clone + Drop, V: Clone + Drop, Node: NodeLike<Pair<K, V>>> Model
    for Iter<'a, K, V, Node> {
    ghost use Rattle.std.specs.Prelude.{List};
    ghost use Rattle.indexset_core.specs.declared.pair.Pair.{Pair};

    ghost Value = { List (Pair K V) };

    ghost view = { λ a. a.rest };
}

impl<'a, K: Ord + Clone + Drop, V: Clone + Drop, Node: NodeLike<Pair<K, V>>> Iterator
    for Iter<'a, K, V, Node> {
    type Item = (&'a K, &'a V);

    ghost next_gives = { TakesFirst pair_deref };

    ghost remaining = { λ s. at_most (length s) };

    fn next(&mut self) -> Option<(&'a K, &'a V)> {
        let pair = self.rest.next()?;
        Some((&pair.key, &pair.value))
    }

    fn size_hint(&self) -> (usize, Option<usize>)
        ensures lower { IsWithinCount result.0 (at_most (length self.now)) }
        ensures upper { IfSome result.1 (UpTo (at_most (length self.now))) }
        ensures exact { result ≡ (length self.now, Some (length self.now)) }
    {
        self.rest.size_hint()
    }
}

impl<'a, K: Ord + Clone + Drop, V: Clone + Drop, Node: NodeLike<Pair<K, V>>> DoubleEndedIterator
    for Iter<'a, K, V, Node> {
    ghost next_back_gives = { TakesLast pair_deref };

    fn next_back(&mut self) -> Option<(&'a K, &'a V)> {
        let pair = self.rest.next_back()?;
        Some((&pair.key, &pair.value))
    }
}

impl<'a, K: Ord + Clone + Drop, V: Clone + Drop, Node: NodeLike<Pair<K, V>>> ExactSizeIterator
    for Iter<'a, K, V, Node> {
    fn len(&self) -> usize {
        self.rest.len()
    }
}

impl<'a, K: Ord + Clone + Drop, V: Clone + Drop, Node: NodeLike<Pair<K, V>>> FusedIterator
    for Iter<'a, K, V, Node> {}

impl<K: Ord + Clone + Drop, V: Clone + Drop, Node: NodeLike<Pair<K, V>>> BTreeMap<K, V, Node> {
    /// Returns a double-ended iterator over the pairs, in the order of their keys.
    ///
    /// ```
    /// let mut tree: map::BTreeMap<u64, u64, Vec<Pair<u64, u64>>> = map::BTreeMap::new(alloc);
    /// tree.insert(2, 20)?;
    /// tree.insert(1, 10)?;
    /// assert!(rt; tree.iter().eq([(&1, &10), (&2, &20)]));
    /// ```
    pub fn iter(&self) -> Iter<'_, K, V, Node>
        ensures rest { result ≡ concat self.now.nodes }
        ensures runs { ShowsInOrder (pair_deref {K = K} {V = V}) }
        ensures runs_back { ShowsInReverse (pair_deref {K = K} {V = V}) }
    {
        Iter {
            rest: self.set.iter(),
        }
    }
}

impl<'a, K: Ord + Clone + Drop, V: Clone + Drop, Node: NodeLike<Pair<K, V>>> IntoIterator
    for &'a BTreeMap<K, V, Node> {
    type Item = (&'a K, &'a V);

    type IntoIter = Iter<'a, K, V, Node>;

    ghost into_iter_gives = { λ m r. (r ≡ concat m.now.nodes)
        × ShowsInOrder (pair_deref {K = K} {V = V}) × ShowsInReverse (pair_deref {K = K} {V = V}) };

    fn into_iter(self) -> Iter<'a, K, V, Node> {
        self.iter()
    }
}
