//! Look-ups and removals by position.
ghost use Rattle.std.specs.Prelude.{◌≡◌, ◌-◌, ◌<◌, ◌↔◌, ◌++◌, [], true, false, Some, IsSome};
ghost use Rattle.std.specs.Prelude.{IfSome, MatchOption, length, take, drop, remove, slice_get};
ghost use Rattle.std.specs.Option.{option_copied, option_to_list};
ghost use Rattle.std.specs.List.{All};
ghost use Rattle.std.specs.Ordering.{is_gt, is_lt};
ghost use Rattle.indexset_core.specs.Order.{above, below, has_equal};
ghost use Rattle.indexset_spine.specs.NodeList.{items};
ghost use Rattle.indexset_set.specs.SetNodes.{IsWithoutAt};

use super::BTreeSet;
use std::ops::Index;

impl<T: Ord> BTreeSet<T> {
    /// Returns the element at a position, counted from 0, or `None` past the end.
    ///
    /// # Examples
    ///
    /// ```
    /// let board = BTreeSet::from_iter(alloc, [30, 10, 20])?;
    /// assert!(rt; board.get_index(1) == Some(&20) && board.get_index(3).is_none());
    /// ```
    ///
    /// # Complexity
    ///
    /// Logarithmic time.
    pub fn get_index(&self, i: usize) -> Option<&T>
        ensures { option_copied result ≡ slice_get (items self.now) i }
    {
        self.spine.get(i)
    }

    /// Returns the first element, the least, if any.
    ///
    /// ```
    /// let set = BTreeSet::from_iter(alloc, [30, 10, 20])?;
    /// assert!(rt; set.first() == Some(&10) && set.last() == Some(&30));
    /// ```
    pub fn first(&self) -> Option<&T>
        // Result.
        ensures element { option_copied result ≡ slice_get (items self.now) 0 }
        ensures variant { IsSome result ↔ (0 < length (items self.now)) }
        ensures least { IfSome result (λ least. below T.cmp (items self.now) least.now ≡ []) }
        ensures held { IfSome result (λ least. has_equal T.cmp (items self.now) least.now ≡ true) }
        ensures all_from { IfSome result (λ least. All (λ x. is_lt (T.cmp x least.now) ≡ false)
            (items self.now)) }
    {
        let spot = self.spine.first_spot()?;
        Some(self.spine.item(&spot))
    }

    /// Returns the last element, the greatest, if any.
    ///
    /// ```
    /// let set = BTreeSet::from_iter(alloc, [10, 20, 30])?;
    /// assert_eq!(rt; set.last(), Some(&30));
    /// ```
    pub fn last(&self) -> Option<&T>
        // Result.
        ensures element { option_copied result
            ≡ slice_get (items self.now) (length (items self.now) - 1) }
        ensures variant { IsSome result ↔ (0 < length (items self.now)) }
        ensures greatest { IfSome result (λ greatest. above T.cmp (items self.now) greatest.now
            ≡ []) }
        ensures held { IfSome result (λ greatest. has_equal T.cmp (items self.now) greatest.now
            ≡ true) }
        ensures all_up_to { IfSome result
            (λ greatest. All (λ x. is_gt (T.cmp x greatest.now) ≡ false) (items self.now)) }
    {
        let spot = self.spine.last_spot()?;
        Some(self.spine.item(&spot))
    }
}

impl<T: Ord + Drop> BTreeSet<T> {
    /// Removes the first element, the least, and returns it, if any.
    ///
    /// It allocates nothing.
    ///
    /// ```
    /// let mut queue = BTreeSet::from_iter(alloc, [30, 10, 20])?;
    /// assert!(rt; queue.pop_first() == Some(10) && queue.pop_first() == Some(20));
    /// ```
    pub fn pop_first(&mut self) -> Option<T>
        // Result.
        ensures value { result ≡ slice_get (items self.old) 0 }

        // Contents.
        ensures rest { items self.new ≡ drop 1 (items self.old) }
        ensures whole { items self.old ≡ option_to_list result ++ items self.new }

        // Nodes.
        ensures nodes { MatchOption result (self.new ≡ self.old)
            (λ _. IsWithoutAt self.old.nodes 0 self.new.nodes) }
        ensures size { self.new.size ≡ self.old.size }
    {
        let spot = self.spine.first_spot()?;
        Some(self.spine.remove(spot))
    }

    /// Removes the last element, the greatest, and returns it, if any.
    ///
    /// It allocates nothing.
    ///
    /// ```
    /// let mut board = BTreeSet::from_iter(alloc, [30, 10, 20])?;
    /// assert_eq!(rt; board.pop_last(), Some(30));
    /// ```
    pub fn pop_last(&mut self) -> Option<T>
        // Result.
        ensures value { result ≡ slice_get (items self.old) (length (items self.old) - 1) }

        // Contents.
        ensures rest { items self.new ≡ take (length (items self.old) - 1) (items self.old) }
        ensures whole { items self.old ≡ items self.new ++ option_to_list result }

        // Nodes.
        ensures nodes { MatchOption result (self.new ≡ self.old)
            (λ _. IsWithoutAt self.old.nodes (length (items self.old) - 1) self.new.nodes) }
        ensures size { self.new.size ≡ self.old.size }
    {
        let spot = self.spine.last_spot()?;
        Some(self.spine.remove(spot))
    }

    /// Removes the element at a position and returns it.
    ///
    /// It allocates nothing.
    ///
    /// ```
    /// let mut set = BTreeSet::from_iter(alloc, [10, 20, 30])?;
    /// assert!(rt; set.pop_index(1) == 20 && set.len() == 2);
    /// ```
    pub fn pop_index(&mut self, i: usize) -> T
        requires { i < length (items self.old) }
        ensures value { slice_get (items self.old) i ≡ Some result }
        ensures rest { items self.new ≡ remove (items self.old) i }
        ensures nodes { IsWithoutAt self.old.nodes i self.new.nodes }
        ensures size { self.new.size ≡ self.old.size }
    {
        let spot = self.spine.spot(i).unwrap();
        self.spine.remove(spot)
    }
}

impl<T: Ord> Index<usize> for BTreeSet<T> {
    type Output = T;

    ghost can_index = { λ s i. i < length (items s) };

    ghost index_gives = { λ s i x. slice_get (items s) i ≡ Some x };

    fn index(&self, index: usize) -> &T {
        self.spine.get(index).unwrap()
    }
}
