//! Set operations: the union, the intersection and the differences as iterators, and subset tests.
ghost use Rattle.std.specs.Prelude.{◌≡◌, ◌+◌, ◌≤◌, length, not};
ghost use Rattle.std.specs.List.{list_all};
ghost use Rattle.std.specs.Map.Iter.{ShowsInOrder, deref};
ghost use Rattle.indexset_spine.specs.NodeList.{items};
ghost use Rattle.indexset_core.specs.Order.{IsAscending, has_equal};
ghost use Rattle.indexset_set.specs.Merge.{merged};
ghost use Rattle.indexset_set.specs.SetAlgebra.{difference, intersection};
ghost use Rattle.indexset_set.specs.SetAlgebra.{symmetric_difference, union};

mod difference_walk;
mod intersection_walk;
mod merge;
mod operators;
mod symmetric_walk;
mod traits;
mod union_walk;

use super::BTreeSet;
pub use difference_walk::Difference;
pub use intersection_walk::Intersection;
use merge::Merge;
pub use symmetric_walk::SymmetricDifference;
pub use union_walk::Union;

impl<T: Ord> BTreeSet<T> {
    /// Returns an iterator over the union, in ascending order.
    ///
    /// It yields the elements of either set, and of two equal ones this set's.
    ///
    /// ```
    /// let one = BTreeSet::from_iter(alloc, [1, 2])?;
    /// let other = BTreeSet::from_iter(alloc, [2, 3])?;
    /// assert!(rt; one.union(&other).copied().eq([1, 2, 3]));
    /// ```
    pub fn union<'a>(&'a self, other: &'a BTreeSet<T>) -> Union<'a, T>
        ensures rest { result ≡ union T.cmp (items self.now) (items other.now) }
        ensures length_bound { length result ≤ length (items self.now) + length (items other.now) }
        ensures runs { ShowsInOrder (deref {X = T}) }
    {
        Union {
            merge: self.merge(other),
        }
    }

    /// Returns an iterator over the intersection, in ascending order.
    ///
    /// It yields the elements of this set that have an equal one in the other.
    ///
    /// ```
    /// let one = BTreeSet::from_iter(alloc, [1, 2])?;
    /// let other = BTreeSet::from_iter(alloc, [2, 3])?;
    /// assert!(rt; one.intersection(&other).copied().eq([2]));
    /// ```
    pub fn intersection<'a>(&'a self, other: &'a BTreeSet<T>) -> Intersection<'a, T>
        ensures rest { result ≡ intersection T.cmp (items self.now) (items other.now) }
        ensures length_bound { length result ≤ length (items self.now) }
        ensures runs { ShowsInOrder (deref {X = T}) }
    {
        Intersection {
            merge: self.merge(other),
        }
    }

    /// Returns an iterator over the difference, in ascending order.
    ///
    /// It yields the elements of this set that have no equal one in the other.
    ///
    /// ```
    /// let one = BTreeSet::from_iter(alloc, [1, 2])?;
    /// let other = BTreeSet::from_iter(alloc, [2, 3])?;
    /// assert!(rt; one.difference(&other).copied().eq([1]));
    /// ```
    pub fn difference<'a>(&'a self, other: &'a BTreeSet<T>) -> Difference<'a, T>
        ensures rest { result ≡ difference T.cmp (items self.now) (items other.now) }
        ensures length_bound { length result ≤ length (items self.now) }
        ensures runs { ShowsInOrder (deref {X = T}) }
    {
        Difference {
            merge: self.merge(other),
        }
    }

    /// Returns an iterator over the symmetric difference, in ascending order.
    ///
    /// It yields the elements of either set that have no equal one in the other.
    ///
    /// ```
    /// let one = BTreeSet::from_iter(alloc, [1, 2])?;
    /// let other = BTreeSet::from_iter(alloc, [2, 3])?;
    /// assert!(rt; one.symmetric_difference(&other).copied().eq([1, 3]));
    /// ```
    pub fn symmetric_difference<'a>(&'a self, other: &'a BTreeSet<T>) -> SymmetricDifference<'a, T>
        ensures rest { result ≡ symmetric_difference T.cmp (items self.now) (items other.now) }
        ensures length_bound { length result ≤ length (items self.now) + length (items other.now) }
        ensures runs { ShowsInOrder (deref {X = T}) }
    {
        SymmetricDifference {
            merge: self.merge(other),
        }
    }

    /// Returns whether the set is a subset of `other`: each element has an equal one there.
    ///
    /// ```
    /// let one = BTreeSet::from_iter(alloc, [1, 2])?;
    /// let other = BTreeSet::from_iter(alloc, [1])?;
    /// assert!(rt; other.is_subset(&one) && !one.is_subset(&other));
    /// ```
    pub fn is_subset(&self, other: &BTreeSet<T>) -> bool
        ensures { result ≡ list_all (has_equal T.cmp (items other.now)) (items self.now) }
    {
        self.difference(other).next().is_none()
    }

    /// Returns whether the set is a superset of `other`: each element there has an equal one here.
    ///
    /// ```
    /// let one = BTreeSet::from_iter(alloc, [1, 2])?;
    /// let other = BTreeSet::from_iter(alloc, [1])?;
    /// assert!(rt; one.is_superset(&other) && !other.is_superset(&one));
    /// ```
    pub fn is_superset(&self, other: &BTreeSet<T>) -> bool
        ensures { result ≡ list_all (has_equal T.cmp (items self.now)) (items other.now) }
    {
        other.is_subset(self)
    }

    /// Returns whether the sets have no elements in common.
    ///
    /// ```
    /// let one = BTreeSet::from_iter(alloc, [1, 2])?;
    /// let other = BTreeSet::from_iter(alloc, [2, 3])?;
    /// assert!(rt; !one.is_disjoint(&other));
    /// ```
    pub fn is_disjoint(&self, other: &BTreeSet<T>) -> bool
        ensures { result ≡ list_all (λ x. not (has_equal T.cmp (items other.now) x))
            (items self.now) }
    {
        self.intersection(other).next().is_none()
    }

    // Returns the elements of both sets, merged.
    fn merge<'a>(&'a self, other: &'a BTreeSet<T>) -> Merge<'a, T>
        ensures rest { result ≡ merged T.cmp (items self.now) (items other.now) }
        ensures left { IsAscending T.cmp (items self.now) }
        ensures right { IsAscending T.cmp (items other.now) }
        ensures runs { ShowsInOrder (deref {X = T}) }
    {
        Merge::new(self.spine.iter(), other.spine.iter())
    }
}
