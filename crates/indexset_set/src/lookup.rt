//! Look-ups by value: the equal element, its position, and the next element.
ghost use Rattle.std.specs.Prelude.{◌≡◌, ◌+◌, ◌<◌, ◌≤◌, true, IfOk, IfErr, IfSome};
ghost use Rattle.std.specs.Prelude.{None, Some, find, length, position, slice_get};
ghost use Rattle.std.specs.declared.cmp.Ordering.TheVariants.{Less};
ghost use Rattle.std.specs.List.{AllWithin};
ghost use Rattle.std.specs.Option.{option_copied, option_map};
ghost use Rattle.std.specs.Ordering.{is_eq};
ghost use Rattle.indexset_spine.specs.NodeList.{items};
ghost use Rattle.indexset_core.specs.Digits.{digits};
ghost use Rattle.indexset_core.specs.Order.{IsAscending, has_equal, index_of, rank};
ghost use Rattle.indexset_core.specs.Order.{equal_element, lower_element};
ghost use Rattle.indexset_core.specs.Parted.{less_count};
ghost use Rattle.indexset_set.specs.SetProbes.{FindsInOrder};
ghost use Rattle.indexset_set.specs.SetRanges.{upper_element};
ghost use Rattle.indexset_set.specs.SetSpots.{IsSpotFor};

use super::BTreeSet;
use indexset_core::lookup_key::LookupKey;
use indexset_core::probe::{ByItem, Probe};
use indexset_spine::spine::Spine;
use indexset_spine::spot::Spot;
use std::ops::Bound;

// Returns the spot of the element equal to the value, or the insertion point of the value.
#[inline(always)]
pub(super) fn locate<T: Ord, Q: LookupKey<T> + Drop>(spine: &Spine<T>, value: Q) -> Spot
    requires { IsAscending T.cmp (items spine.now) }
    ensures { IsSpotFor Q.order spine.now.nodes value result }
{
    spine.locate_by(&mut ByItem::new(&value))
}

// Returns the same with the last element compared first, for values that come in order.
pub(super) fn locate_from_end<T: Ord>(spine: &Spine<T>, value: &T) -> Spot
    requires { IsAscending T.cmp (items spine.now) }
    ensures { IsSpotFor T.cmp spine.now.nodes value.now result }
{
    spine.locate_from_end_by(&mut ByItem::new(value))
}

// Returns the same with a node tried first, for values whose places are near each other.
pub(super) fn locate_near<T: Ord>(spine: &Spine<T>, near: usize, value: &T) -> Spot
    requires { IsAscending T.cmp (items spine.now) }
    ensures { IsSpotFor T.cmp spine.now.nodes value.now result }
{
    spine.locate_near_by(near, &mut ByItem::new(value))
}

impl<T: Ord> BTreeSet<T> {
    /// Returns the element equal to the value, if any.
    ///
    /// # Examples
    ///
    /// ```
    /// let set = BTreeSet::from_iter(alloc, [10, 20])?;
    /// assert!(rt; set.get(&20) == Some(&20) && set.get(&15).is_none());
    /// ```
    ///
    /// # Complexity
    ///
    /// Two binary searches.
    pub fn get<Q: LookupKey<T> + Drop>(&self, value: Q) -> Option<&T>
        ensures { option_copied result ≡ equal_element Q.order (items self.now) value }
    {
        let spot = locate(&self.spine, value);
        if !spot.found {
            return None;
        }
        Some(self.spine.item(&spot))
    }

    /// Returns whether an element equal to the value is present.
    ///
    /// # Examples
    ///
    /// ```
    /// let set = BTreeSet::from_iter(alloc, [10, 20])?;
    /// assert!(rt; set.contains(&20) && !set.contains(&15));
    /// ```
    ///
    /// # Complexity
    ///
    /// Two binary searches.
    pub fn contains<Q: LookupKey<T> + Drop>(&self, value: Q) -> bool
        ensures { result ≡ has_equal Q.order (items self.now) value }
    {
        locate(&self.spine, value).found
    }

    /// Returns how many elements are below the value.
    ///
    /// # Examples
    ///
    /// ```
    /// let board = BTreeSet::from_iter(alloc, [10, 20, 30])?;
    /// assert!(rt; board.rank(&30) == 2 && board.rank(&25) == 2);
    /// ```
    ///
    /// # Complexity
    ///
    /// Two binary searches and a sum over the index.
    pub fn rank<Q: LookupKey<T> + Drop>(&self, value: Q) -> usize
        ensures value { result ≡ rank Q.order (items self.now) value }
        ensures at_rank { has_equal Q.order (items self.now) value ≡ true
            → slice_get (items self.now) result ≡ equal_element Q.order (items self.now) value }
        ensures inside { has_equal Q.order (items self.now) value ≡ true
            → result < length (items self.now) }
        ensures before { AllWithin (λ x. Q.order x value ≡ Less) (items self.now) 0 result }
    {
        self.spine.position(&locate(&self.spine, value))
    }

    /// Returns the position of the element equal to the value, or `None`.
    ///
    /// # Examples
    ///
    /// ```
    /// let set = BTreeSet::from_iter(alloc, [10, 20, 30])?;
    /// assert!(rt; set.index_of(&20) == Some(1) && set.index_of(&25).is_none());
    /// ```
    ///
    /// # Complexity
    ///
    /// Two binary searches and a sum over the index.
    pub fn index_of<Q: LookupKey<T> + Drop>(&self, value: Q) -> Option<usize>
        ensures value { result ≡ index_of Q.order (items self.now) value }
        ensures at_index { IfSome result (λ i. slice_get (items self.now) i
            ≡ equal_element Q.order (items self.now) value) }
        ensures inside { IfSome result (λ i. i < length (items self.now)) }
    {
        let spot = locate(&self.spine, value);
        if spot.found {
            Some(self.spine.position(&spot))
        } else {
            None
        }
    }

    /// Returns the position of the element equal to the value and the element, or `None`.
    ///
    /// # Examples
    ///
    /// ```
    /// let set = BTreeSet::from_iter(alloc, [10, 20, 30])?;
    /// assert!(rt; set.get_full(&20) == Some((1, &20)) && set.get_full(&25).is_none());
    /// ```
    ///
    /// # Complexity
    ///
    /// Two binary searches and a sum over the index.
    pub fn get_full<Q: LookupKey<T> + Drop>(&self, value: Q) -> Option<(usize, &T)>
        ensures index { option_map (λ r. r.0) result ≡ index_of Q.order (items self.now) value }
        ensures element { option_map (λ r. r.1.now) result
            ≡ equal_element Q.order (items self.now) value }
    {
        let spot = locate(&self.spine, value);
        if spot.found {
            Some((self.spine.position(&spot), self.spine.item(&spot)))
        } else {
            None
        }
    }

    /// Returns the first element that is not below the value, if any.
    ///
    /// ```
    /// let set = BTreeSet::from_iter(alloc, [10, 20, 30])?;
    /// assert!(rt; set.lower_bound(&15) == Some(&20) && set.lower_bound(&31).is_none());
    /// ```
    pub fn lower_bound<Q: LookupKey<T> + Drop>(&self, value: Q) -> Option<&T>
        ensures { option_copied result ≡ lower_element Q.order (items self.now) value }
    {
        self.spine.item_from(&locate(&self.spine, value))
    }

    /// Returns the first element that is above the value, if any.
    ///
    /// # Examples
    ///
    /// ```
    /// let set = BTreeSet::from_iter(alloc, [10, 20, 30])?;
    /// assert!(rt; set.upper_bound(&20) == Some(&30) && set.upper_bound(&30).is_none());
    /// ```
    ///
    /// # Complexity
    ///
    /// Two binary searches.
    pub fn upper_bound<Q: LookupKey<T> + Drop>(&self, value: Q) -> Option<&T>
        ensures { option_copied result ≡ upper_element Q.order (items self.now) value }
    {
        let spot = self.spine.start_of(Bound::Excluded(ByItem::new(&value)));
        self.spine.item_from(&spot)
    }

    /// Returns the first element that compares Equal, if any.
    ///
    /// # Examples
    ///
    /// ```
    /// // An element of text, found by a &str without an allocation.
    /// let mut names = BTreeSet::new(alloc)?;
    /// names.insert(String::from_str(alloc, "pear")?)?;
    /// assert!(rt; names.get_by(&mut ByItem::new(&"pear")).is_some());
    /// ```
    ///
    /// # Complexity
    ///
    /// One comparison for each step of two binary searches.
    pub fn get_by<P: Probe<T>>(&self, probe: &mut P) -> Option<&T>
        requires { FindsInOrder (P.answer probe.old) (items self.now) }
        ensures value { option_copied result
            ≡ find (λ x. is_eq (P.answer probe.old x)) (items self.now) }
        ensures fixed { P.answer probe.new ≡ P.answer probe.old }
        ensures comparisons { P.asked probe.new ≤ P.asked probe.old
            + (digits (length self.now.nodes) + digits self.now.size + 1) }
    {
        let spot = self.spine.locate_by(probe);
        if spot.found {
            Some(self.spine.item(&spot))
        } else {
            None
        }
    }

    /// Returns the position of the first element that compares Equal, or how many compare Less.
    ///
    /// # Examples
    ///
    /// ```
    /// # use indexset::base::probe::ByItem;
    /// let set = BTreeSet::from_iter(alloc, [10, 20, 30])?;
    /// assert_eq!(rt; set.locate_by(&mut ByItem::new(&20)), Ok(1));
    /// assert_eq!(rt; set.locate_by(&mut ByItem::new(&25)), Err(2));
    /// ```
    ///
    /// # Complexity
    ///
    /// One comparison for each step of two binary searches.
    pub fn locate_by<P: Probe<T>>(&self, probe: &mut P) -> Result<usize, usize>
        requires { FindsInOrder (P.answer probe.old) (items self.now) }

        // Result.
        ensures found { IfOk result (λ i. position (λ x. is_eq (P.answer probe.old x))
            (items self.now) ≡ Some i) }
        ensures absent { IfErr result (λ _. position (λ x. is_eq (P.answer probe.old x))
            (items self.now) ≡ None) }
        ensures gap { IfErr result (λ i. i ≡ less_count (P.answer probe.old) (items self.now)) }

        // Contents.
        ensures ascending { IsAscending T.cmp (items self.now) }
        ensures fixed { P.answer probe.new ≡ P.answer probe.old }
        ensures comparisons { P.asked probe.new ≤ P.asked probe.old
            + (digits (length self.now.nodes) + digits self.now.size + 1) }
    {
        let spot = self.spine.locate_by(probe);
        let position = self.spine.position(&spot);
        if spot.found {
            Ok(position)
        } else {
            Err(position)
        }
    }
}
