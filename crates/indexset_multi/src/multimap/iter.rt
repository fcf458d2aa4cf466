//! Double-ended iterators over a multimap.
ghost use Rattle.std.specs.Prelude.{◌≡◌, length, IfSome, Some};
ghost use Rattle.std.specs.Iterator.{UpTo, at_most};
ghost use Rattle.std.specs.Iterator.SizeHint.{IsWithinCount};
ghost use Rattle.std.specs.Map.Iter.{TakesFirst, TakesLast, ShowsInOrder, ShowsInReverse};
ghost use Rattle.indexset_core.specs.Nodes.{concat};
ghost use Rattle.indexset_core.specs.Pairs.{pair_deref};
ghost use Rattle.indexset_multi.specs.Keys.{entries};

use super::BTreeMultiMap;
use indexset_core::multipair::MultiPair;
use indexset_core::node::NodeLike;
use indexset_log::set::iter;
use std::iter::FusedIterator;
use std::marker::Model;

/// A double-ended iterator over the pairs of a multimap.
#[derive(Drop)]
pub struct Iter<
    'a,
    K: Ord + Clone + Drop,
    V: Eq + Clone + Drop,
    Node: NodeLike<MultiPair<K, V>> = Vec<MultiPair<K, V>>,
> {
    rest: iter::Iter<'a, MultiPair<K, V>, Node>,
}

impl<'a, K: Ord + Clone + Drop, V: Eq + Clone + Drop, Node: NodeLike<MultiPair<K, V>>> Model
    for Iter<'a, K, V, Node> {
    ghost use Rattle.std.specs.Prelude.{List};
    ghost use Rattle.indexset_core.specs.declared.pair.Pair.{Pair};
    ghost use Rattle.indexset_multi.specs.Keys.{entries};

    ghost Value = { List (Pair K V) };

    ghost view = { λ a. entries a.rest };
}

impl<'a, K: Ord + Clone + Drop, V: Eq + Clone + Drop, Node: NodeLike<MultiPair<K, V>>> Iterator
    for Iter<'a, K, V, Node> {
    type Item = (&'a K, &'a V);

    ghost next_gives = { TakesFirst pair_deref };

    ghost remaining = { λ s. at_most (length s) };

    fn next(&mut self) -> Option<(&'a K, &'a V)> {
        let pair = self.rest.next()?;
        Some((&pair.key, &pair.value))
    }

    fn size_hint(&self) -> (usize, Option<usize>)
        ensures lower { IsWithinCount result.0 (at_most (length self.now)) }
        ensures upper { IfSome result.1 (UpTo (at_most (length self.now))) }
        ensures exact { result ≡ (length self.now, Some (length self.now)) }
    {
        self.rest.size_hint()
    }
}

impl<
    'a,
    K: Ord + Clone + Drop,
    V: Eq + Clone + Drop,
    Node: NodeLike<MultiPair<K, V>>,
> DoubleEndedIterator for Iter<'a, K, V, Node> {
    ghost next_back_gives = { TakesLast pair_deref };

    fn next_back(&mut self) -> Option<(&'a K, &'a V)> {
        let pair = self.rest.next_back()?;
        Some((&pair.key, &pair.value))
    }
}

impl<
    'a,
    K: Ord + Clone + Drop,
    V: Eq + Clone + Drop,
    Node: NodeLike<MultiPair<K, V>>,
> ExactSizeIterator for Iter<'a, K, V, Node> {
    fn len(&self) -> usize {
        self.rest.len()
    }
}

impl<'a, K: Ord + Clone + Drop, V: Eq + Clone + Drop, Node: NodeLike<MultiPair<K, V>>> FusedIterator
    for Iter<'a, K, V, Node> {}

impl<K: Ord + Clone + Drop, V: Eq + Clone + Drop, Node: NodeLike<MultiPair<K, V>>> BTreeMultiMap<
    K,
    V,
    Node,
> {
    /// Returns a double-ended iterator over the pairs, in order.
    ///
    /// A loop over a reference to the multimap uses the same iterator.
    ///
    /// ```
    /// let mut tags: multimap::BTreeMultiMap<u64, u64, Vec<MultiPair<u64, u64>>> =
    ///     multimap::BTreeMultiMap::new(alloc);
    /// tags.insert(1, 100)?;
    /// tags.insert(1, 101)?;
    /// let mut documents = 0u64;
    /// for (_, document) in &tags {
    ///     documents = documents.wrapping_add(*document);
    /// }
    /// assert!(rt; documents == 201 && tags.iter().len() == 2);
    /// ```
    pub fn iter(&self) -> Iter<'_, K, V, Node>
        ensures rest { result ≡ entries (concat self.now.nodes) }
        ensures runs { ShowsInOrder (pair_deref {K = K} {V = V}) }
        ensures runs_back { ShowsInReverse (pair_deref {K = K} {V = V}) }
    {
        Iter {
            rest: self.set.iter(),
        }
    }
}

impl<'a, K: Ord + Clone + Drop, V: Eq + Clone + Drop, Node: NodeLike<MultiPair<K, V>>> IntoIterator
    for &'a BTreeMultiMap<K, V, Node> {
    type Item = (&'a K, &'a V);

    type IntoIter = Iter<'a, K, V, Node>;

    ghost into_iter_gives = { λ m r. (r ≡ entries (concat m.now.nodes))
        × ShowsInOrder (pair_deref {K = K} {V = V}) × ShowsInReverse (pair_deref {K = K} {V = V}) };

    fn into_iter(self) -> Iter<'a, K, V, Node> {
        self.iter()
    }
}
