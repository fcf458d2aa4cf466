//! Construction of sets from items.
ghost use Rattle.std.specs.Prelude.{◌≡◌, ◌⊎◌, ◌<◌, ℕ, [], Err, IfOk, IfErr, fold, take};
ghost use Rattle.std.specs.Iterator.{IsFiniteIterable};
ghost use Rattle.std.specs.Iterator.Runs.{SomeRun, WholeRun};
ghost use Rattle.indexset_core.specs.Nodes.{concat};
ghost use Rattle.indexset_core.specs.Order.{keep};
ghost use Rattle.indexset_log.specs.Edits.{after_checked_put};
ghost use Rattle.indexset_log.specs.Tree.{fresh};

use super::BTreeSet;
use indexset_core::constants::DEFAULT_INNER_SIZE;
use indexset_core::refusal::Refusal;
use std::alloc::Global;

impl<T: Ord + Clone + Drop> BTreeSet<T, Vec<T>> {
    /// Returns the tree of an iterator's items, of the default node size.
    ///
    /// It inserts the items one by one: of equal items the first stays. The events are numbered
    /// from 0.
    ///
    /// # Examples
    ///
    /// ```
    /// let tree: set::BTreeSet<u64, Vec<u64>> = set::BTreeSet::from_iter(alloc, [15, 5, 5])?;
    /// assert!(rt; tree.iter().copied().eq([5, 15]));
    /// ```
    ///
    /// # Errors
    ///
    /// Fails with `Memory`, or with `Numbers` if the event numbers do not fit the counter. A failed
    /// call drops all items.
    pub fn from_iter<I: IntoIterator<Item = T>>(alloc: Global, iter: I) -> Result<Self, Refusal>
        requires { IsFiniteIterable I.into_iter_gives I.IntoIter.can_next
            I.IntoIter.remaining iter }
        ensures contents { IfOk result (λ s. (it : I.IntoIter) × I.into_iter_gives iter it
            × WholeRun I.IntoIter.next_gives it (λ run.
            concat s.nodes ≡ fold (keep T.cmp) [] run.items)) }
        ensures tree { IfOk result (λ s. (it : I.IntoIter) × I.into_iter_gives iter it
            × WholeRun I.IntoIter.next_gives it (λ run.
            s ≡ fold (after_checked_put T.cmp) (fresh DEFAULT_INNER_SIZE) run.items)) }
        ensures refusal { IfErr result (λ e. (e ≡ Refusal.Memory) ⊎ (e ≡ Refusal.Numbers)) }
        ensures numbers { result ≡ Err Refusal.Numbers → (it : I.IntoIter)
            × I.into_iter_gives iter it
            × SomeRun I.IntoIter.next_gives it (λ run. u64.MAX
            < (fold (after_checked_put T.cmp) (fresh DEFAULT_INNER_SIZE) run.items).next) }
    {
        let rest = iter.into_iter();
        let mut set = Self::new(alloc);
        for value in rest {
            set.insert(value)?;
        }
        Ok(set)
    }

    /// Returns the tree of the values, as `from_iter`.
    ///
    /// # Examples
    ///
    /// ```
    /// let tree: set::BTreeSet<u64, Vec<u64>> =
    ///     set::BTreeSet::from(alloc, vec![in alloc; 15, 5]?)?;
    /// assert!(rt; tree.iter().copied().eq([5, 15]));
    /// ```
    ///
    /// # Errors
    ///
    /// Fails with `Memory`, or with `Numbers` if the event numbers do not fit the counter. A failed
    /// call drops all values.
    pub fn from(alloc: Global, values: Vec<T>) -> Result<Self, Refusal>
        ensures contents { IfOk result (λ s. concat s.nodes ≡ fold (keep T.cmp) [] values.items) }
        ensures tree { IfOk result (λ s. s ≡ fold (after_checked_put T.cmp)
            (fresh DEFAULT_INNER_SIZE) values.items) }
        ensures refusal { IfErr result (λ e. (e ≡ Refusal.Memory) ⊎ (e ≡ Refusal.Numbers)) }
        ensures numbers { result ≡ Err Refusal.Numbers → (n : ℕ)
            × (u64.MAX < (fold (after_checked_put T.cmp) (fresh DEFAULT_INNER_SIZE)
            (take n values.items)).next) }
    {
        Self::from_iter(alloc, values)
    }
}
