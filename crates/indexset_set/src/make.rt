//! The creation of sets.
ghost use Rattle.indexset_core.specs.Clones.{AreIdentical};
ghost use Rattle.std.specs.Prelude.{◌≡◌, ◌≤◌, false, IsTrue, List};
ghost use Rattle.std.specs.Prelude.{[], ◌∷◌, IfOk, IfErr, OnOk, fold};
ghost use Rattle.std.specs.declared.cmp.Ordering.TheVariants.{Equal};
ghost use Rattle.std.specs.List.{AllZip};
ghost use Rattle.std.specs.Iterator.{IsFiniteIterable};
ghost use Rattle.std.specs.Iterator.Runs.{WholeRun};
ghost use Rattle.indexset_spine.specs.NodeList.{node_list, items};
ghost use Rattle.indexset_core.specs.Order.{IsAscending, keep};
ghost use Rattle.indexset_set.specs.SetCopy.{IsSetCopy};
ghost use Rattle.indexset_set.specs.SetNodes.{nodes_kept_all};

use super::BTreeSet;
use super::inner::take_run;
use super::into_vec::IntoVec;
use indexset_core::constants::DEFAULT_INNER_SIZE;
use indexset_core::refusal::{Refusal, Refused};
use indexset_spine::spine::Spine;
use std::alloc::Global;

impl<T: Ord + Drop> BTreeSet<T> {
    /// Creates an empty set of the default node size.
    ///
    /// It has one empty node.
    ///
    /// # Examples
    ///
    /// ```
    /// let mut set = BTreeSet::new(alloc)?;
    /// assert!(rt; set.insert(7)? && set.contains(&7));
    /// ```
    ///
    /// # Errors
    ///
    /// Fails with `Memory` only.
    pub fn new(alloc: Global) -> Result<Self, Refusal>
        ensures empty { IfOk result (λ s. s.nodes ≡ [] ∷ []) }
        ensures size { IfOk result (λ s. s.size ≡ DEFAULT_INNER_SIZE) }
        ensures refusal { IfErr result (λ e. e ≡ Refusal.Memory) }
    {
        Self::with_maximum_node_size(alloc, DEFAULT_INNER_SIZE)
    }

    /// Creates an empty set, as `new` does.
    ///
    /// # Examples
    ///
    /// ```
    /// let set: BTreeSet<u64> = BTreeSet::default(alloc)?;
    /// assert!(rt; set.is_empty());
    /// ```
    ///
    /// # Errors
    ///
    /// Fails with `Memory` only.
    pub fn default(alloc: Global) -> Result<Self, Refusal>
        ensures empty { IfOk result (λ s. s.nodes ≡ [] ∷ []) }
        ensures size { IfOk result (λ s. s.size ≡ DEFAULT_INNER_SIZE) }
        ensures refusal { IfErr result (λ e. e ≡ Refusal.Memory) }
    {
        Self::new(alloc)
    }

    /// Creates an empty set whose nodes hold at most `size` elements each.
    ///
    /// # Examples
    ///
    /// ```
    /// let set: BTreeSet<u64> = BTreeSet::with_maximum_node_size(alloc, 64)?;
    /// assert!(rt; set.is_empty() && set.maximum_node_size() == 64);
    /// ```
    ///
    /// # Errors
    ///
    /// Fails with `Memory` only.
    pub fn with_maximum_node_size(alloc: Global, size: usize) -> Result<Self, Refusal>
        requires { 2 ≤ size }
        ensures empty { IfOk result (λ s. s.nodes ≡ [] ∷ []) }
        ensures size { IfOk result (λ s. s.size ≡ size) }
        ensures refusal { IfErr result (λ e. e ≡ Refusal.Memory) }
    {
        prove!(2 <= size);
        let spine = Spine::new(alloc, size)?;
        Ok(BTreeSet { spine })
    }

    /// Creates a set of the values of an iterator, of the default node size.
    ///
    /// Of equal values it keeps the first.
    ///
    /// # Examples
    ///
    /// ```
    /// let set = BTreeSet::from_iter(alloc, [30, 10, 20, 10])?;
    /// assert!(rt; set.iter().copied().eq([10, 20, 30]));
    /// ```
    ///
    /// # Errors
    ///
    /// Fails with `Memory` only. A failed call drops all values.
    pub fn from_iter<I: IntoIterator<Item = T>>(alloc: Global, iter: I) -> Result<Self, Refusal>
        requires { IsFiniteIterable I.into_iter_gives I.IntoIter.can_next I.IntoIter.remaining
            iter }
        ensures kept { IfOk result (λ s. (it : I.IntoIter) × I.into_iter_gives iter it
            × WholeRun I.IntoIter.next_gives it (λ run. items s ≡ fold (keep T.cmp) [] run.items)) }
        ensures nodes { IfOk result (λ s. (it : I.IntoIter) × I.into_iter_gives iter it
            × WholeRun I.IntoIter.next_gives it
            (λ run. s.nodes
            ≡ nodes_kept_all T.cmp (node_list ([] ∷ []) DEFAULT_INNER_SIZE) run.items)) }
        ensures size { IfOk result (λ s. s.size ≡ DEFAULT_INNER_SIZE) }
        ensures refusal { IfErr result (λ e. e ≡ Refusal.Memory) }
    {
        Self::kept_in(alloc, DEFAULT_INNER_SIZE, iter)
    }

    // Does the same as `from_iter`, with this node size.
    fn kept_in<I: IntoIterator<Item = T>>(
        alloc: Global,
        size: usize,
        iter: I,
    ) -> Result<Self, Refusal>
        requires two { 2 ≤ size }
        requires finite { IsFiniteIterable I.into_iter_gives I.IntoIter.can_next
            I.IntoIter.remaining iter }
        ensures kept { IfOk result (λ s. (it : I.IntoIter) × I.into_iter_gives iter it
            × WholeRun I.IntoIter.next_gives it (λ run. items s ≡ fold (keep T.cmp) [] run.items)) }
        ensures nodes { IfOk result (λ s. (it : I.IntoIter) × I.into_iter_gives iter it
            × WholeRun I.IntoIter.next_gives it
            (λ run. s.nodes ≡ nodes_kept_all T.cmp (node_list ([] ∷ []) size) run.items)) }
        ensures size { IfOk result (λ s. s.size ≡ size) }
        ensures refusal { IfErr result (λ e. e ≡ Refusal.Memory) }
    {
        let rest = iter.into_iter();
        let mut set = Self::with_maximum_node_size(alloc, size)?;
        let mut run = Vec::new(alloc);
        for value in rest {
            set.keep_behind(&mut run, value)?;
        }
        take_run(&mut set, &mut run)?;
        Ok(set)
    }

    /// Creates a set of the values, as `from_iter` does.
    ///
    /// # Examples
    ///
    /// ```
    /// let set = BTreeSet::from(alloc, [30, 10, 20])?;
    /// let same = BTreeSet::from(alloc, vec![in alloc; 10, 20, 30]?)?;
    /// assert!(rt; set.first() == Some(&10) && set == same);
    /// ```
    ///
    /// # Errors
    ///
    /// Fails with `Memory` only.
    ///
    /// # Complexity
    ///
    /// Values that ascend strictly move into nodes by blocks, after one comparison each.
    pub fn from<L: IntoVec<Item = T>>(alloc: Global, values: L) -> Result<Self, Refusal>
        ensures kept { IfOk result (λ s. items s ≡ fold (keep T.cmp) [] (L.values values)) }
        ensures nodes { IfOk result (λ s. s.nodes
            ≡ nodes_kept_all T.cmp (node_list ([] ∷ []) DEFAULT_INNER_SIZE) (L.values values)) }
        ensures size { IfOk result (λ s. s.size ≡ DEFAULT_INNER_SIZE) }
        ensures refusal { IfErr result (λ e. e ≡ Refusal.Memory) }
    {
        let values = values.into_vec(alloc)?;
        if is_sorted(values.as_slice()) {
            return Self::of_ascending(alloc, values);
        }
        Self::from_iter(alloc, values)
    }

    // Returns the set of strictly ascending values, by blocks and without a comparison.
    fn of_ascending(alloc: Global, values: Vec<T>) -> Result<Self, Refusal>
        requires order { IsAscending T.cmp values.items }
        ensures elements { IfOk result (λ s. items s ≡ values.items) }
        ensures nodes { IfOk result (λ s. s.nodes
            ≡ nodes_kept_all T.cmp (node_list ([] ∷ []) DEFAULT_INNER_SIZE) values.items) }
        ensures size { IfOk result (λ s. s.size ≡ DEFAULT_INNER_SIZE) }
        ensures refusal { IfErr result (λ e. e ≡ Refusal.Memory) }
    {
        let spine = Spine::of_items(alloc, DEFAULT_INNER_SIZE, values)?;
        Ok(BTreeSet { spine })
    }

    // Returns the set of the values, of this set's node size.
    pub(crate) fn made_like(&self, values: Vec<T>) -> Result<Self, Refusal>
        ensures kept { IfOk result (λ s. items s ≡ fold (keep T.cmp) [] values.items) }
        ensures nodes { IfOk result (λ s. s.nodes
            ≡ nodes_kept_all T.cmp (node_list ([] ∷ []) self.now.size) values.items) }
        ensures size { IfOk result (λ s. s.size ≡ self.now.size) }
        ensures refusal { IfErr result (λ e. e ≡ Refusal.Memory) }
    {
        Self::kept_in(*self.spine.allocator(), self.maximum_node_size(), values)
    }

    /// Creates a set of strictly ascending values, in the nodes that `from` makes of them.
    ///
    /// # Examples
    ///
    /// ```
    /// let set = BTreeSet::from_sorted(alloc, vec![in alloc; 10, 20, 30]?)?;
    /// let unsorted = BTreeSet::from_sorted(alloc, vec![in alloc; 10, 10]?);
    /// assert!(rt; set.len() == 3 && unsorted.is_err());
    /// ```
    ///
    /// # Errors
    ///
    /// - `Unsorted` if the values do not ascend strictly: the call returns them in the error.
    /// - `Memory` otherwise: the call drops the values, and the error holds an empty `Vec`.
    ///
    /// # Complexity
    ///
    /// Each value is compared with the next; there is no search.
    pub fn from_sorted(alloc: Global, values: Vec<T>) -> Result<Self, Refused<Vec<T>>>
        // Result.
        ensures elements { IfOk result (λ s. items s ≡ values.items) }

        // Failure.
        ensures ascending { OnOk result (IsAscending T.cmp values.items) }
        ensures unsorted { IfErr result (λ e. (IsAscending T.cmp values.items → ⊥)
            → (e.value ≡ values) × (e.cause ≡ Refusal.Unsorted)) }

        // Memory.
        ensures memory { IfErr result (λ e. IsAscending T.cmp values.items
            → (e.value.items ≡ []) × (e.cause ≡ Refusal.Memory)) }

        // Nodes.
        ensures nodes { IfOk result (λ s. s.nodes
            ≡ nodes_kept_all T.cmp (node_list ([] ∷ []) DEFAULT_INNER_SIZE) values.items) }
        ensures size { IfOk result (λ s. s.size ≡ DEFAULT_INNER_SIZE) }
    {
        if !is_sorted(values.as_slice()) {
            return Err(Refused {
                value: values,
                cause: Refusal::Unsorted,
            });
        }
        match Self::of_ascending(alloc, values) {
            Ok(set) => Ok(set),
            Err(cause) => Err(Refused {
                value: Vec::new(alloc),
                cause,
            }),
        }
    }

    /// Creates a set of values in any order, of equal ones the first.
    ///
    /// The nodes are those that `from` makes of the ascending elements.
    ///
    /// # Examples
    ///
    /// ```
    /// let set = BTreeSet::from_unsorted(alloc, vec![in alloc; 30, 10, 20, 10]?)?;
    /// assert!(rt; set.iter().copied().eq([10, 20, 30]));
    /// ```
    ///
    /// # Errors
    ///
    /// Fails with `Memory` only. A failed call drops the values.
    ///
    /// # Complexity
    ///
    /// A stable sort: faster than `from` if the values do not ascend.
    pub fn from_unsorted(alloc: Global, mut values: Vec<T>) -> Result<Self, Refusal>
        ensures kept { IfOk result (λ s. items s ≡ fold (keep T.cmp) [] values.items) }
        ensures nodes { IfOk result (λ s. s.nodes
            ≡ nodes_kept_all T.cmp (node_list ([] ∷ []) DEFAULT_INNER_SIZE) (items s)) }
        ensures size { IfOk result (λ s. s.size ≡ DEFAULT_INNER_SIZE) }
        ensures refusal { IfErr result (λ e. e ≡ Refusal.Memory) }
    {
        values.sort()?;
        values.dedup_by(|next, kept| (*next).cmp(kept).is_eq());
        Self::of_ascending(alloc, values)
    }

    /// Returns a set of clones of the elements.
    ///
    /// If the clones ascend, as clones that are equal to their sources do, they are in nodes of the
    /// same lengths. Else they are inserted one by one, as `from_iter` does.
    ///
    /// # Examples
    ///
    /// ```
    /// let set = BTreeSet::from_iter(alloc, [10, 20, 30])?;
    /// let copy = set.clone()?;
    /// assert!(rt; copy == set);
    /// ```
    ///
    /// # Errors
    ///
    /// Fails with `Memory` only. A failed call drops the clones.
    ///
    /// # Complexity
    ///
    /// One comparison an element if the clones ascend.
    pub fn clone(&self) -> Result<Self, Refusal>
    where
        T: Clone,
        // Result.
        ensures copy { IfOk result (λ s. IsSetCopy T.cmp T.is_clone self.now s) }
        ensures cloned { ((x y : T) → T.is_clone x y → T.cmp x y ≡ Equal)
            → IfOk result (λ s. AllZip (AllZip T.is_clone) self.now.nodes s.nodes) }
        ensures ok { AreIdentical T.is_clone → IfOk result (λ s. s ≡ self.now) }

        // Failure.
        ensures refusal { IfErr result (λ e. e ≡ Refusal.Memory) }

        // Nodes.
        ensures size { IfOk result (λ s. s.size ≡ self.now.size) }
    {
        let spine = self.spine.clone()?;
        if is_ascending(&spine) {
            return Ok(BTreeSet { spine });
        }
        Self::kept_in(*self.spine.allocator(), self.maximum_node_size(), spine)
    }
}

// Returns whether each value is below the next.
fn is_sorted<T: Ord>(values: &[T]) -> bool
    ensures ascending { IsTrue result → IsAscending T.cmp values.now }
    ensures other { result ≡ false → IsAscending T.cmp values.now → ⊥ }
{
    values.is_sorted_by(|value, next| value.cmp(next).is_lt())
}

// Returns whether each item is below the next. The loop has no early exit, since clones seldom
// descend.
fn is_ascending<T: Ord>(spine: &Spine<T>) -> bool
    ensures ascending { IsTrue result → IsAscending T.cmp (items spine.now) }
    ensures other { result ≡ false → IsAscending T.cmp (items spine.now) → ⊥ }
{
    let mut rest = spine.iter();
    let Some(mut last) = rest.next() else {
        return true;
    };
    let mut ascends = true;
    while let Some(item) = rest.next() {
        ascends &= last.cmp(item).is_lt();
        last = item;
    }
    ascends
}
