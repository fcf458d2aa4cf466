//! Removal of ranges.
ghost use Rattle.std.specs.Prelude.{◌≡◌, ◌^◌, ◌<◌, ℕ, length, map};
ghost use Rattle.std.specs.Range.Bound.{bound_map};
ghost use Rattle.indexset_core.specs.KeyRange.{is_within};
ghost use Rattle.indexset_core.specs.Nodes.{concat};
ghost use Rattle.indexset_log.specs.RangeRemoval.{outside, without_range};

use super::BTreeSet;
use crate::nodes::recall_bounds;
use indexset_core::item_iter::OfVec;
use indexset_core::key_range::KeyRange;
use indexset_core::lookup_key::LookupKey;
use std::ops::Bound;

impl<T: Ord + Clone + Drop> BTreeSet<T, Vec<T>> {
    /// Removes the items within the range, and the nodes that this empties.
    ///
    /// It removes nothing if the start is past the end. It merges no nodes, emits no event,
    /// consumes no event number and allocates nothing.
    ///
    /// ```
    /// let mut tree: set::BTreeSet<u64, Vec<u64>> = set::BTreeSet::from_iter(alloc, [5, 10, 15])?;
    /// tree.remove_range(10..);
    /// assert!(rt; tree.iter().copied().eq([5]));
    /// ```
    pub fn remove_range<R: KeyRange<T> + Drop>(&mut self, range: R)
        ensures nodes { self.new.nodes ≡ without_range R.Key.order self.old.nodes (R.start range)
            (R.end range) }
        ensures contents { concat self.new.nodes ≡ outside R.Key.order (R.start range)
            (R.end range) (concat self.old.nodes) }
        ensures size { self.new.size ≡ self.old.size }
        ensures next { self.new.next ≡ self.old.next }
    {
        let bounds = (range.start_bound(), range.end_bound());
        self.len = remove_within(self.nodes.as_mut_slice(), bounds);
        self.nodes.retain(|node| !node.is_empty());
        recall_bounds(&self.index);
        self.index
            .rebuild::<T, Vec<T>, OfVec>(self.nodes.as_slice());
    }
}

// Removes the items within the bounds from each node, and returns how many remain.
fn remove_within<T: Ord + Drop, Q: LookupKey<T>>(
    nodes: &mut [Vec<T>],
    range: (Bound<&Q>, Bound<&Q>),
) -> usize
    requires { length (concat (map (λ v. v.items) nodes.old)) < 2 ^ 64 }
    ensures nodes { map (λ v. v.items) nodes.new ≡ map (outside Q.order
        (bound_map (λ v. v.now) range.entry.0) (bound_map (λ v. v.now) range.entry.1))
        (map (λ v. v.items) nodes.old) }
    ensures count { result ≡ length (concat (map (λ v. v.items) nodes.new)) }
{
    let mut left = 0;
    for node in nodes.iter_mut() {
        node.retain(|item| !is_within(item, range));
        left += node.len();
    }
    left
}

// Returns whether an item is within the bounds.
fn is_within<T: Ord, Q: LookupKey<T>>(item: &T, range: (Bound<&Q>, Bound<&Q>)) -> bool
    ensures { result ≡ is_within Q.order (bound_map (λ v. v.now) range.entry.0)
        (bound_map (λ v. v.now) range.entry.1) item.now }
{
    let is_from_start = match range.0 {
        Bound::Included(start) => start.cmp_item(item).is_ge(),
        Bound::Excluded(start) => start.cmp_item(item).is_gt(),
        Bound::Unbounded => true,
    };
    let is_up_to_end = match range.1 {
        Bound::Included(end) => end.cmp_item(item).is_le(),
        Bound::Excluded(end) => end.cmp_item(item).is_lt(),
        Bound::Unbounded => true,
    };
    is_from_start && is_up_to_end
}
