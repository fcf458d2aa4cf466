//! A cursor, which points at an element of a set or past the end.
ghost use Rattle.std.specs.Prelude.{◌≡◌, ◌+◌, ◌-◌, ◌≤◌, ◌==◌, None};
ghost use Rattle.std.specs.Prelude.{length, min, slice_get, if◌then◌else◌};
ghost use Rattle.std.specs.List.{count_by};
ghost use Rattle.std.specs.Option.{option_copied};
ghost use Rattle.indexset_core.specs.KeyRange.{IfBounded, is_before, is_up_to_end};
ghost use Rattle.indexset_spine.specs.NodeList.{IsSpot, items, position_of};
ghost use Rattle.indexset_set.specs.SetCursor.{item_at, previous_state};
ghost use Rattle.indexset_set.specs.SetCursor.{next_state, cursor_state_at};
ghost use Rattle.indexset_set.specs.SetProbes.{FindsInOrder};

use super::BTreeSet;
use super::inner::{element, spot_near};
use indexset_core::probe::Probe;
use indexset_spine::spot::Spot;
use std::marker::Model;
use std::ops::Bound;

/// A cursor, which points at the position of an element of a set or past the end.
///
/// A cursor wraps around: after the last element comes the past-the-end position, and then the
/// first element. It reads the index once for each node.
///
/// ```
/// // The neighbours of the element at position 1.
/// let set = BTreeSet::from_iter(alloc, [10, 20, 30])?;
/// let cursor = set.cursor_at(1);
/// assert!(rt; cursor.peek_prev() == Some(&10) && cursor.peek_next() == Some(&30));
/// ```
#[derive(Drop)]
pub struct Cursor<'a, T: Ord> {
    set: &'a BTreeSet<T>,
    position: usize,
    // The node of the element that the cursor pointed at last, and how many elements are before
    // that node.
    node: usize,
    start: usize,
}

impl<'a, T: Ord> Model for Cursor<'a, T> {
    ghost use Rattle.std.specs.Prelude.{◌≡◌, ◌≤◌, length, sum, take};
    ghost use Rattle.indexset_core.specs.Nodes.{node_lengths};
    ghost use Rattle.indexset_spine.specs.NodeList.{items};
    ghost use Rattle.indexset_set.specs.SetCursor.{CursorState, cursor_state_code};

    ghost Value = { CursorState T };

    ghost view = { λ c. record { list = items c.set.now; position = c.position } };

    ghost invariant = { λ c. (c.position ≤ length (items c.set.now))
        × (c.start ≡ sum (take c.node (node_lengths c.set.now.nodes))) };
}

impl<T: Ord> BTreeSet<T> {
    /// Returns a cursor at a position, or past the end if there is no such element.
    ///
    /// ```
    /// let set = BTreeSet::from_iter(alloc, [10, 20, 30])?;
    /// assert!(rt; set.cursor_at(1).item() == Some(&20) && set.cursor_at(3).item().is_none());
    /// ```
    pub fn cursor_at(&self, i: usize) -> Cursor<'_, T>
        ensures { result ≡ cursor_state_at (items self.now) i }
    {
        let mut cursor = Cursor {
            set: self,
            position: 0,
            node: 0,
            start: 0,
        };
        cursor.move_index(i);
        cursor
    }

    /// Returns a cursor at the first element that is not before the start.
    ///
    /// The start is a bound given by a comparator. If there is no such element, the cursor is past
    /// the end.
    ///
    /// # Examples
    ///
    /// ```
    /// # use indexset::base::probe::ByItem;
    /// let set = BTreeSet::from_iter(alloc, [10, 20, 30])?;
    /// let cursor = set.cursor_from(Bound::Included(ByItem::new(&15)));
    /// assert_eq!(rt; cursor.item(), Some(&20));
    /// ```
    ///
    /// # Complexity
    ///
    /// Two binary searches.
    pub fn cursor_from<P: Probe<T> + Drop>(&self, start: Bound<P>) -> Cursor<'_, T>
        requires { IfBounded (λ p. FindsInOrder (P.answer p) (items self.now)) start }
        ensures { result ≡ cursor_state_at (items self.now)
            (count_by (is_before (λ x p. P.answer p x) start) (items self.now)) }
    {
        self.cursor_in(self.spine.start_of(start))
    }

    /// Returns a cursor at the first element after the end of a range.
    ///
    /// The end is a bound given by a comparator. If there is no such element, the cursor is past
    /// the end of the set.
    ///
    /// # Examples
    ///
    /// ```
    /// # use indexset::base::probe::ByItem;
    /// let set = BTreeSet::from_iter(alloc, [10, 20, 30])?;
    /// let cursor = set.cursor_past(Bound::Included(ByItem::new(&20)));
    /// assert_eq!(rt; cursor.item(), Some(&30));
    /// ```
    ///
    /// # Complexity
    ///
    /// Two binary searches.
    pub fn cursor_past<P: Probe<T> + Drop>(&self, end: Bound<P>) -> Cursor<'_, T>
        requires { IfBounded (λ p. FindsInOrder (P.answer p) (items self.now)) end }
        ensures { result ≡ cursor_state_at (items self.now)
            (count_by (is_up_to_end (λ x p. P.answer p x) end) (items self.now)) }
    {
        self.cursor_in(self.spine.end_of(end))
    }

    // Returns a cursor at a spot.
    fn cursor_in(&self, spot: Spot) -> Cursor<'_, T>
        requires { IsSpot self.now.nodes spot }
        ensures { result ≡ cursor_state_at (items self.now) (position_of self.now.nodes spot) }
    {
        let position = self.spine.position(&spot);
        Cursor {
            set: self,
            position,
            node: spot.node,
            start: position - spot.offset,
        }
    }
}

impl<'a, T: Ord> Cursor<'a, T> {
    /// Moves to the next element; from past the end, to the first.
    ///
    /// ```
    /// let set = BTreeSet::from_iter(alloc, [10, 20, 30])?;
    /// let mut cursor = set.cursor_at(1);
    /// cursor.move_next();
    /// assert_eq!(rt; cursor.item(), Some(&30));
    /// cursor.move_next();
    /// cursor.move_next();
    /// assert_eq!(rt; cursor.item(), Some(&10));
    /// ```
    pub fn move_next(&mut self)
        ensures { self.new ≡ next_state self.old }
    {
        self.stand_at(self.next_position());
    }

    /// Moves to the previous element; from the first, past the end.
    ///
    /// ```
    /// let set = BTreeSet::from_iter(alloc, [10, 20, 30])?;
    /// let mut cursor = set.cursor_at(1);
    /// cursor.move_prev();
    /// assert_eq!(rt; cursor.item(), Some(&10));
    /// ```
    pub fn move_prev(&mut self)
        ensures { self.new ≡ previous_state self.old }
    {
        let before = match self.position.checked_sub(1) {
            Some(before) => before,
            None => self.set.len(),
        };
        self.stand_at(before);
    }

    /// Moves to a position, or past the end if there is no such element.
    ///
    /// ```
    /// let set = BTreeSet::from_iter(alloc, [10, 20, 30])?;
    /// let mut cursor = set.cursor_at(0);
    /// cursor.move_index(2);
    /// assert_eq!(rt; cursor.item(), Some(&30));
    /// ```
    pub fn move_index(&mut self, i: usize)
        ensures { self.new ≡ cursor_state_at self.old.list i }
    {
        let at = i.min(self.set.len());
        self.stand_at(at);
    }

    /// Returns the element that the cursor points at, or `None` past the end.
    ///
    /// ```
    /// let set = BTreeSet::from_iter(alloc, [10, 20, 30])?;
    /// assert_eq!(rt; set.cursor_at(0).item(), Some(&10));
    /// ```
    pub fn item(&self) -> Option<&'a T>
        ensures { option_copied result ≡ item_at self.now }
    {
        self.element_at(self.position)
    }

    /// Returns the element to which `move_next` would move, if any.
    ///
    /// Past the end, it is the first element.
    ///
    /// ```
    /// let set = BTreeSet::from_iter(alloc, [10, 20, 30])?;
    /// assert!(rt; set.cursor_at(0).peek_next() == Some(&20));
    /// assert!(rt; set.cursor_at(2).peek_next().is_none());
    /// ```
    pub fn peek_next(&self) -> Option<&'a T>
        ensures { option_copied result ≡ item_at (next_state self.now) }
    {
        self.element_at(self.next_position())
    }

    /// Returns the previous element, or `None` at the first.
    ///
    /// ```
    /// let set = BTreeSet::from_iter(alloc, [10, 20, 30])?;
    /// assert!(rt; set.cursor_at(1).peek_prev() == Some(&10));
    /// assert!(rt; set.cursor_at(0).peek_prev().is_none());
    /// ```
    pub fn peek_prev(&self) -> Option<&'a T>
        ensures { option_copied result ≡ (if self.now.position
            == 0 then None else slice_get self.now.list (self.now.position - 1)) }
    {
        let before = self.position.checked_sub(1)?;
        self.element_at(before)
    }

    /// Returns the element at another position, if any.
    ///
    /// The cursor does not move.
    ///
    /// ```
    /// let set = BTreeSet::from_iter(alloc, [10, 20, 30])?;
    /// assert_eq!(rt; set.cursor_at(0).peek_index(2), Some(&30));
    /// ```
    pub fn peek_index(&self, i: usize) -> Option<&'a T>
        ensures { option_copied result ≡ slice_get self.now.list i }
    {
        self.element_at(i)
    }

    // Points at a position, or past the end.
    fn stand_at(&mut self, i: usize)
        requires { i ≤ length self.old.list }
        ensures { self.new ≡ record { list = self.old.list; position = i } }
    {
        if i < self.set.len() {
            let spot = spot_near(self.set, self.node, self.start, i);
            self.node = spot.node;
            self.start = i - spot.offset;
        }
        self.position = i;
    }

    // Returns the element at a position, if any.
    fn element_at(&self, i: usize) -> Option<&'a T>
        ensures { option_copied result ≡ slice_get self.now.list i }
    {
        if i >= self.set.len() {
            return None;
        }
        let spot = spot_near(self.set, self.node, self.start, i);
        Some(element(self.set, &spot))
    }

    // Returns the next position; past the end, the first.
    fn next_position(&self) -> usize
        ensures value { result ≡ (next_state self.now).position }
        ensures inside { result ≤ length self.now.list }
    {
        if self.position == self.set.len() {
            0
        } else {
            self.position + 1
        }
    }
}
