//! Owning double-ended iterators.
ghost use Rattle.std.specs.Prelude.{◌≡◌, length, map, IfSome, Some};
ghost use Rattle.std.specs.Iterator.{UpTo, at_most};
ghost use Rattle.std.specs.Iterator.SizeHint.{IsWithinCount};
ghost use Rattle.std.specs.Map.Iter.{TakesFirst, TakesLast, GivesInOrder, GivesInReverse};
ghost use Rattle.indexset_core.specs.Pairs.{entry_of, pair_keys, pair_values};

use super::BTreeMap;
use indexset_core::pair::Pair;
use indexset_set::IntoIter;
use std::iter::FusedIterator;
use std::marker::Model;

/// An owning double-ended iterator over the pairs of a map.
#[derive(Drop)]
pub struct IntoIterMap<K, V> {
    rest: IntoIter<Pair<K, V>>,
}

impl<K, V> Model for IntoIterMap<K, V> {
    ghost use Rattle.std.specs.Prelude.{List, map};
    ghost use Rattle.indexset_core.specs.Pairs.{entry_of};

    ghost Value = { List (K × V) };

    ghost view = { λ a. map entry_of a.rest };
}

impl<K: Drop, V: Drop> Iterator for IntoIterMap<K, V> {
    type Item = (K, V);

    ghost next_gives = { TakesFirst (λ e. e) };

    ghost remaining = { λ s. at_most (length s) };

    fn next(&mut self) -> Option<(K, V)> {
        let Pair { key, value } = self.rest.next()?;
        Some((key, value))
    }

    fn size_hint(&self) -> (usize, Option<usize>)
        ensures lower { IsWithinCount result.0 (at_most (length self.now)) }
        ensures upper { IfSome result.1 (UpTo (at_most (length self.now))) }
        ensures exact { result ≡ (length self.now, Some (length self.now)) }
    {
        self.rest.size_hint()
    }
}

impl<K: Drop, V: Drop> DoubleEndedIterator for IntoIterMap<K, V> {
    ghost next_back_gives = { TakesLast (λ e. e) };

    fn next_back(&mut self) -> Option<(K, V)> {
        let Pair { key, value } = self.rest.next_back()?;
        Some((key, value))
    }
}

impl<K: Drop, V: Drop> ExactSizeIterator for IntoIterMap<K, V> {
    fn len(&self) -> usize {
        self.rest.len()
    }
}

impl<K: Drop, V: Drop> FusedIterator for IntoIterMap<K, V> {}

/// An owning double-ended iterator over the keys of a map.
#[derive(Drop)]
pub struct IntoKeys<K, V> {
    rest: IntoIter<Pair<K, V>>,
}

impl<K, V> Model for IntoKeys<K, V> {
    ghost use Rattle.std.specs.Prelude.{List};
    ghost use Rattle.indexset_core.specs.Pairs.{pair_keys};

    ghost Value = { List K };

    ghost view = { λ a. pair_keys a.rest };
}

impl<K: Drop, V: Drop> Iterator for IntoKeys<K, V> {
    type Item = K;

    ghost next_gives = { TakesFirst (λ k. k) };

    ghost remaining = { λ s. at_most (length s) };

    fn next(&mut self) -> Option<K> {
        let Pair { key, value: _ } = self.rest.next()?;
        Some(key)
    }

    fn size_hint(&self) -> (usize, Option<usize>)
        ensures lower { IsWithinCount result.0 (at_most (length self.now)) }
        ensures upper { IfSome result.1 (UpTo (at_most (length self.now))) }
        ensures exact { result ≡ (length self.now, Some (length self.now)) }
    {
        self.rest.size_hint()
    }
}

impl<K: Drop, V: Drop> DoubleEndedIterator for IntoKeys<K, V> {
    ghost next_back_gives = { TakesLast (λ k. k) };

    fn next_back(&mut self) -> Option<K> {
        let Pair { key, value: _ } = self.rest.next_back()?;
        Some(key)
    }
}

impl<K: Drop, V: Drop> ExactSizeIterator for IntoKeys<K, V> {
    fn len(&self) -> usize {
        self.rest.len()
    }
}

impl<K: Drop, V: Drop> FusedIterator for IntoKeys<K, V> {}

/// An owning double-ended iterator over the values of a map, in the order of their keys.
#[derive(Drop)]
pub struct IntoValues<K, V> {
    rest: IntoIter<Pair<K, V>>,
}

impl<K, V> Model for IntoValues<K, V> {
    ghost use Rattle.std.specs.Prelude.{List};
    ghost use Rattle.indexset_core.specs.Pairs.{pair_values};

    ghost Value = { List V };

    ghost view = { λ a. pair_values a.rest };
}

impl<K: Drop, V: Drop> Iterator for IntoValues<K, V> {
    type Item = V;

    ghost next_gives = { TakesFirst (λ v. v) };

    ghost remaining = { λ s. at_most (length s) };

    fn next(&mut self) -> Option<V> {
        let Pair { key: _, value } = self.rest.next()?;
        Some(value)
    }

    fn size_hint(&self) -> (usize, Option<usize>)
        ensures lower { IsWithinCount result.0 (at_most (length self.now)) }
        ensures upper { IfSome result.1 (UpTo (at_most (length self.now))) }
        ensures exact { result ≡ (length self.now, Some (length self.now)) }
    {
        self.rest.size_hint()
    }
}

impl<K: Drop, V: Drop> DoubleEndedIterator for IntoValues<K, V> {
    ghost next_back_gives = { TakesLast (λ v. v) };

    fn next_back(&mut self) -> Option<V> {
        let Pair { key: _, value } = self.rest.next_back()?;
        Some(value)
    }
}

impl<K: Drop, V: Drop> ExactSizeIterator for IntoValues<K, V> {
    fn len(&self) -> usize {
        self.rest.len()
    }
}

impl<K: Drop, V: Drop> FusedIterator for IntoValues<K, V> {}

impl<K: Ord + Drop, V: Drop> BTreeMap<K, V> {
    /// Returns an owning iterator over the keys, in order.
    ///
    /// The values are dropped.
    ///
    /// ```
    /// let prices = BTreeMap::from_iter(alloc, [("pear", 120), ("fig", 45)])?;
    /// assert!(rt; prices.into_keys().eq(["fig", "pear"]));
    /// ```
    pub fn into_keys(self) -> IntoKeys<K, V>
        ensures rest { result ≡ pair_keys self.pairs }
        ensures runs { GivesInOrder K }
        ensures runs_back { GivesInReverse K }
    {
        let BTreeMap { set } = self;
        IntoKeys {
            rest: set.into_iter(),
        }
    }

    /// Returns an owning iterator over the values, in the order of their keys.
    ///
    /// The keys are dropped.
    ///
    /// ```
    /// let prices = BTreeMap::from_iter(alloc, [("pear", 120), ("fig", 45)])?;
    /// assert!(rt; prices.into_values().eq([45, 120]));
    /// ```
    pub fn into_values(self) -> IntoValues<K, V>
        ensures rest { result ≡ pair_values self.pairs }
        ensures runs { GivesInOrder V }
        ensures runs_back { GivesInReverse V }
    {
        let BTreeMap { set } = self;
        IntoValues {
            rest: set.into_iter(),
        }
    }
}

impl<K: Ord + Drop, V: Drop> IntoIterator for BTreeMap<K, V> {
    type Item = (K, V);

    type IntoIter = IntoIterMap<K, V>;

    ghost into_iter_gives = { λ m r. (r ≡ map entry_of m.pairs) × GivesInOrder (K × V)
        × GivesInReverse (K × V) };

    fn into_iter(self) -> IntoIterMap<K, V> {
        let BTreeMap { set } = self;
        IntoIterMap {
            rest: set.into_iter(),
        }
    }
}
