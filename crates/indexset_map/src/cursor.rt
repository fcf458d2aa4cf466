//! A cursor, which points at a pair of a map or past the end.
ghost use Rattle.std.specs.Prelude.{◌≡◌, ◌-◌, ◌==◌, None, not, slice_get, if◌then◌else◌};
ghost use Rattle.std.specs.List.{position_or_len};
ghost use Rattle.std.specs.Option.{option_copied, option_map};
ghost use Rattle.indexset_core.specs.KeyRange.{is_from_start, is_up_to_end};
ghost use Rattle.indexset_core.specs.Pairs.{entry_of};
ghost use Rattle.indexset_set.specs.SetCursor.{item_at, previous_state};
ghost use Rattle.indexset_set.specs.SetCursor.{next_state, cursor_state_at};

use super::BTreeMap;
use indexset_core::lookup_key::LookupKey;
use indexset_core::pair::Pair;
use indexset_core::probe::ByKey;
use indexset_set::{Cursor, inner};
use std::marker::Model;
use std::ops::Bound;

/// A cursor over a map, at a pair or at the past-the-end position.
///
/// A cursor wraps around: the past-the-end position follows the last pair and precedes the first.
///
/// ```
/// let map = BTreeMap::from_iter(alloc, [(1, 'a'), (3, 'b')])?;
/// let cursor = map.lower_bound(Bound::Included(&2));
/// assert!(rt; cursor.key() == Some(&3) && cursor.peek_prev() == Some((&1, &'a')));
/// ```
#[derive(Drop)]
pub struct CursorMap<'a, K: Ord, V> {
    cursor: Cursor<'a, Pair<K, V>>,
}

impl<'a, K: Ord, V> Model for CursorMap<'a, K, V> {
    ghost use Rattle.indexset_core.specs.declared.pair.Pair.{Pair};
    ghost use Rattle.indexset_set.specs.SetCursor.{CursorState};
    ghost use Rattle.indexset_map.specs.Contents.{pairs_code};

    ghost Value = { CursorState (Pair K V) };

    ghost view = { λ c. c.cursor };
}

impl<K: Ord, V> BTreeMap<K, V> {
    /// Returns a cursor at the first pair whose key is within the lower bound.
    ///
    /// The cursor is at the past-the-end position if no key is.
    ///
    /// ```
    /// let map = BTreeMap::from_iter(alloc, [(10, 'a'), (20, 'b')])?;
    /// let cursor = map.lower_bound(Bound::Included(&15));
    /// assert_eq!(rt; cursor.key_value(), Some((&20, &'b')));
    /// ```
    pub fn lower_bound<Q: LookupKey<K> + Drop>(&self, bound: Bound<Q>) -> CursorMap<'_, K, V>
        ensures pairs { result.list ≡ self.now.pairs }
        ensures position { result.position
            ≡ position_or_len (λ p. is_from_start Q.order bound p.key) self.now.pairs }
    {
        inner::recall_order(&self.set);
        let start = bound.as_ref().map(ByKey::new);
        CursorMap {
            cursor: self.set.cursor_from(start),
        }
    }

    /// Returns a cursor at the first pair whose key is past the upper bound.
    ///
    /// That key is above an included key, and at or above an excluded one. The cursor is at the
    /// past-the-end position if no key is past the bound.
    ///
    /// ```
    /// let map = BTreeMap::from_iter(alloc, [(10, 'a'), (20, 'b')])?;
    /// let cursor = map.upper_bound(Bound::Included(&10));
    /// assert_eq!(rt; cursor.key_value(), Some((&20, &'b')));
    /// ```
    pub fn upper_bound<Q: LookupKey<K> + Drop>(&self, bound: Bound<Q>) -> CursorMap<'_, K, V>
        ensures pairs { result.list ≡ self.now.pairs }
        ensures position { result.position
            ≡ position_or_len (λ p. not (is_up_to_end Q.order bound p.key)) self.now.pairs }
    {
        inner::recall_order(&self.set);
        let end = bound.as_ref().map(ByKey::new);
        CursorMap {
            cursor: self.set.cursor_past(end),
        }
    }
}

impl<'a, K: Ord, V> CursorMap<'a, K, V> {
    /// Moves to the next pair; from the past-the-end position, to the first.
    ///
    /// ```
    /// let map = BTreeMap::from_iter(alloc, [(1, 'a'), (3, 'b')])?;
    /// let mut cursor = map.lower_bound(Bound::Included(&0));
    /// cursor.move_next();
    /// assert_eq!(rt; cursor.key(), Some(&3));
    /// ```
    pub fn move_next(&mut self)
        ensures { self.new ≡ next_state self.old }
    {
        self.cursor.move_next();
    }

    /// Moves to the previous pair; from the first pair, to the past-the-end position.
    ///
    /// ```
    /// let map = BTreeMap::from_iter(alloc, [(1, 'a'), (3, 'b')])?;
    /// let mut cursor = map.lower_bound(Bound::Included(&0));
    /// cursor.move_prev();
    /// assert!(rt; cursor.key().is_none());
    /// ```
    pub fn move_prev(&mut self)
        ensures { self.new ≡ previous_state self.old }
    {
        self.cursor.move_prev();
    }

    /// Moves to the pair at a position, or to the past-the-end position if there is none.
    ///
    /// ```
    /// let map = BTreeMap::from_iter(alloc, [(1, 'a'), (3, 'b')])?;
    /// let mut cursor = map.lower_bound(Bound::Included(&0));
    /// cursor.move_index(1);
    /// assert_eq!(rt; cursor.key(), Some(&3));
    /// ```
    pub fn move_index(&mut self, i: usize)
        ensures { self.new ≡ cursor_state_at self.old.list i }
    {
        self.cursor.move_index(i);
    }

    /// Returns the key of the pair at the cursor, or `None` at the past-the-end position.
    ///
    /// ```
    /// let map = BTreeMap::from_iter(alloc, [(1, 'a'), (3, 'b')])?;
    /// let cursor = map.lower_bound(Bound::Included(&3));
    /// assert_eq!(rt; cursor.key(), Some(&3));
    /// ```
    pub fn key(&self) -> Option<&'a K>
        ensures { option_copied result ≡ option_map (λ p. p.key) (item_at self.now) }
    {
        Some(&self.cursor.item()?.key)
    }

    /// Returns the value of the pair at the cursor, or `None` at the past-the-end position.
    ///
    /// ```
    /// let map = BTreeMap::from_iter(alloc, [(1, 'a'), (3, 'b')])?;
    /// let cursor = map.lower_bound(Bound::Included(&3));
    /// assert_eq!(rt; cursor.value(), Some(&'b'));
    /// ```
    pub fn value(&self) -> Option<&'a V>
        ensures { option_copied result ≡ option_map (λ p. p.value) (item_at self.now) }
    {
        Some(&self.cursor.item()?.value)
    }

    /// Returns the pair at the cursor, or `None` at the past-the-end position.
    ///
    /// ```
    /// let map = BTreeMap::from_iter(alloc, [(1, 'a'), (3, 'b')])?;
    /// let cursor = map.lower_bound(Bound::Included(&3));
    /// assert_eq!(rt; cursor.key_value(), Some((&3, &'b')));
    /// ```
    pub fn key_value(&self) -> Option<(&'a K, &'a V)>
        ensures { option_map (λ p. (p.0.now, p.1.now)) result
            ≡ option_map entry_of (item_at self.now) }
    {
        let pair = self.cursor.item()?;
        Some((&pair.key, &pair.value))
    }

    /// Returns the pair that `move_next` would move to, if any.
    ///
    /// At the past-the-end position that is the first pair.
    ///
    /// ```
    /// let map = BTreeMap::from_iter(alloc, [(1, 'a'), (3, 'b')])?;
    /// let cursor = map.lower_bound(Bound::Included(&3));
    /// assert!(rt; cursor.peek_next().is_none());
    /// ```
    pub fn peek_next(&self) -> Option<(&'a K, &'a V)>
        ensures { option_map (λ p. (p.0.now, p.1.now)) result
            ≡ option_map entry_of (item_at (next_state self.now)) }
    {
        let pair = self.cursor.peek_next()?;
        Some((&pair.key, &pair.value))
    }

    /// Returns the previous pair, or `None` at the first position.
    ///
    /// ```
    /// let map = BTreeMap::from_iter(alloc, [(1, 'a'), (3, 'b')])?;
    /// let cursor = map.lower_bound(Bound::Included(&3));
    /// assert_eq!(rt; cursor.peek_prev(), Some((&1, &'a')));
    /// ```
    pub fn peek_prev(&self) -> Option<(&'a K, &'a V)>
        ensures { option_map (λ p. (p.0.now, p.1.now)) result
            ≡ (if self.now.position == 0 then None else option_map entry_of
            (slice_get self.now.list (self.now.position - 1))) }
    {
        let pair = self.cursor.peek_prev()?;
        Some((&pair.key, &pair.value))
    }

    /// Returns the pair at a position, if any, without moving the cursor.
    ///
    /// ```
    /// let map = BTreeMap::from_iter(alloc, [(1, 'a'), (3, 'b')])?;
    /// let cursor = map.lower_bound(Bound::Included(&3));
    /// assert_eq!(rt; cursor.peek_index(0), Some((&1, &'a')));
    /// ```
    pub fn peek_index(&self, i: usize) -> Option<(&'a K, &'a V)>
        ensures { option_map (λ p. (p.0.now, p.1.now)) result
            ≡ option_map entry_of (slice_get self.now.list i) }
    {
        let pair = self.cursor.peek_index(i)?;
        Some((&pair.key, &pair.value))
    }
}
