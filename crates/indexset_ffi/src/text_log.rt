//! A logged map from byte strings that keeps the events of its last change.
//!
//! The events are kept beside the map, because C cannot own their byte strings: it reads one event
//! at a time into its own bytes.
ghost use Rattle.std.specs.Prelude.{◌≡◌, ◌≢◌, ◌≤◌, Some, None, IfOk, OnOk, IfErr};
ghost use Rattle.std.specs.Prelude.{OnErr, IsOk, drop, length, min, slice_get};
ghost use Rattle.std.specs.Cmp.Lexicographic.{slice_cmp};
ghost use Rattle.std.specs.Option.{option_copied, option_map};
ghost use Rattle.std.specs.Ordering.{nat_cmp};
ghost use Rattle.indexset_core.specs.Nodes.{concat, node_lengths, vec_items};
ghost use Rattle.indexset_core.specs.Pairs.{by_key, entry_of, key_rank, pair, value_of};
ghost use Rattle.indexset_log.specs.Changed.{Changed, key_removal, put_change, refusal_of};
ghost use Rattle.indexset_ffi.specs.Cursors.{cursor_position};
ghost use Rattle.indexset_ffi.specs.Elements.{key_count_up_to};
ghost use Rattle.indexset_ffi.specs.TextLogs.{after, untold};

use crate::cursor::{self, Cursor};
use indexset_core::pair::Pair;
use indexset_core::probe::ByKey;
use indexset_core::refusal::Refusal;
use indexset_core::text::Text;
use indexset_events::change::ChangeEvent;
use indexset_log::map::BTreeMap;
use indexset_log::map::range::Range;
use std::alloc::Global;
use std::marker::Model;
use std::ops::Bound;

/// An event of such a map.
pub type TextChange = ChangeEvent<Pair<Text, u64>>;

/// An iterator over some of its pairs.
pub type TextLogRange<'a> = Range<'a, Text, u64>;

/// A logged map from byte strings to numbers, with the events of its last change.
#[derive(Drop)]
pub struct TextLog {
    tree: BTreeMap<Text, u64>,
    told: Vec<TextChange>,
}

impl Model for TextLog {
    ghost use Rattle.indexset_ffi.specs.TextLogs.{ToldTree};

    ghost Value = { ToldTree };

    ghost view = { λ log. record { tree = log.tree; told = log.told.items } };
}

impl TextLog {
    /// Returns an empty map with at most `size` pairs in a node, whose first event has the number
    /// `next`.
    pub fn starting_at(alloc: Global, size: usize, next: u64) -> TextLog
        requires { 2 ≤ size }
        ensures { result ≡ untold size next }
    {
        TextLog {
            tree: BTreeMap::starting_at(alloc, size, next),
            told: Vec::new(alloc),
        }
    }

    /// Returns the number of pairs.
    pub fn len(&self) -> usize
        ensures { result ≡ length (concat self.now.tree.nodes) }
    {
        self.tree.len()
    }

    /// Returns the number of nodes.
    pub fn node_count(&self) -> usize
        ensures { result ≡ length self.now.tree.nodes }
    {
        self.tree.node_count()
    }

    /// Returns the number of the next event.
    pub fn next(&self) -> u64
        ensures { result ≡ self.now.tree.next }
    {
        self.tree.events_issued()
    }

    /// Returns the value of a key, or `None` if it is absent.
    pub fn get(&self, key: &[u8]) -> Option<u64>
        ensures { result ≡ value_of (slice_cmp nat_cmp) (concat self.now.tree.nodes) key.now }
    {
        Some(self.tree.get(key)?.value)
    }

    /// Returns how many keys are less than this one.
    pub fn rank(&self, key: &[u8]) -> usize
        ensures { result ≡ key_rank (slice_cmp nat_cmp) (concat self.now.tree.nodes) key.now }
    {
        self.tree.rank(key)
    }

    /// Returns how many keys are at most this one.
    pub fn count_up_to(&self, key: &[u8]) -> usize
        ensures { result
            ≡ key_count_up_to (slice_cmp nat_cmp) (concat self.now.tree.nodes) key.now }
    {
        self.tree.range(..=key).len()
    }

    /// Returns the pair at a position, counted from 0, or `None` past the end.
    pub fn get_index(&self, i: usize) -> Option<(&Text, &u64)>
        ensures { option_map (λ p. (p.0.now, p.1.now)) result
            ≡ option_map entry_of (slice_get (concat self.now.tree.nodes) i) }
    {
        self.tree.get_index(i)
    }

    /// Returns the pairs from a position on, in order.
    pub fn range_from(&self, from: usize) -> TextLogRange<'_>
        ensures { result ≡ drop from (concat self.now.tree.nodes) }
    {
        self.tree
            .range_idx((Bound::Included(from), Bound::Unbounded))
    }

    /// Returns the nodes, in order.
    pub fn nodes(&self) -> &[Vec<Pair<Text, u64>>]
        ensures { vec_items result.now ≡ self.now.tree.nodes }
    {
        self.tree.iter_nodes().as_slice()
    }

    /// Returns a cursor at the first pair whose key is at least `from`, or at the end.
    pub fn cursor_from(&self, from: &[u8]) -> Cursor
        ensures { cursor_position (node_lengths self.now.tree.nodes) result
            ≡ key_rank (slice_cmp nat_cmp) (concat self.now.tree.nodes) from.now }
    {
        // For the proof: the keys ascend, and no node is empty.
        self.tree.node_count();
        cursor::find(self.nodes(), ByKey::new(&from))
    }

    /// Returns a cursor at a position, or at the end if the position is past it.
    pub fn cursor_at(&self, position: usize) -> Cursor
        ensures { cursor_position (node_lengths self.now.tree.nodes) result
            ≡ min position (length (concat self.now.tree.nodes)) }
    {
        match self.get_index(position) {
            Some((key, _)) => {
                let near = self.cursor_from(key.as_bytes());
                cursor::near_to(self.nodes(), near, self.rank(key.as_bytes()), position)
            }
            None => cursor::end(self.nodes()),
        }
    }

    /// Inserts a pair, or replaces that of an equal key, and returns the old value.
    ///
    /// The bytes of the key are copied.
    ///
    /// # Errors
    ///
    /// `Memory`, or `Numbers` if too few event numbers remain. A failed call changes nothing, and
    /// the map keeps the events that it had.
    pub fn insert(&mut self, alloc: Global, key: &[u8], value: u64) -> Result<Option<u64>, Refusal>
        // Result.
        ensures before { IfOk result (λ r. r
            ≡ value_of (slice_cmp nat_cmp) (concat self.old.tree.nodes) key.now) }

        // Contents.
        ensures ok { OnOk result (self.new ≡ after self.old.tree
            (put_change (by_key (slice_cmp nat_cmp)) self.old.tree (pair key.now value))) }
        ensures changed { OnOk result (Changed (by_key (slice_cmp nat_cmp)) self.old.tree
            self.new.tree
            (put_change (by_key (slice_cmp nat_cmp)) self.old.tree (pair key.now value))) }

        // Failure.
        ensures refusal { IfErr result (λ e. e ≢ Refusal.Memory → e ≡ refusal_of self.old.tree
            (put_change (by_key (slice_cmp nat_cmp)) self.old.tree (pair key.now value))) }
        ensures unchanged { OnErr result (self.new ≡ self.old) }
    {
        let Ok(copied) = Text::copied_bytes(alloc, key) else {
            return Err(Refusal::Memory);
        };
        match self.tree.insert_cdc(copied, value) {
            Ok((before, told)) => {
                self.told = told;
                Ok(before)
            }
            Err(refused) => Err(refused.cause),
        }
    }

    /// Removes a key, and returns its value, or `None` if it is absent.
    ///
    /// If the key is absent nothing is changed, and the map keeps the events that it had.
    ///
    /// # Errors
    ///
    /// `Memory`, or `Numbers` if too few event numbers remain. A failed call changes nothing, and
    /// the map keeps the events that it had.
    pub fn remove(&mut self, key: &[u8]) -> Result<Option<u64>, Refusal>
        // Result.
        ensures found { IfOk result (λ r. r
            ≡ value_of (slice_cmp nat_cmp) (concat self.old.tree.nodes) key.now) }

        // Contents.
        ensures absent { IfOk result (λ r. r ≡ None → self.new ≡ self.old) }
        ensures ok { IfOk result (λ r. r ≢ None → self.new ≡ after self.old.tree
            (key_removal (slice_cmp nat_cmp) self.old.tree key.now)) }
        ensures changed { IfOk result (λ r. r ≢ None → Changed (by_key (slice_cmp nat_cmp))
            self.old.tree self.new.tree
            (key_removal (slice_cmp nat_cmp) self.old.tree key.now)) }

        // Failure.
        ensures refusal { IfErr result (λ e. e ≡ refusal_of self.old.tree
            (key_removal (slice_cmp nat_cmp) self.old.tree key.now)) }
        ensures unchanged { OnErr result (self.new ≡ self.old) }

        // Memory.
        ensures no_event { value_of (slice_cmp nat_cmp) (concat self.old.tree.nodes) key.now ≡ None
            → IsOk result }
    {
        let (found, told) = self.tree.remove_cdc(key)?;
        let Some((_, value)) = found else {
            return Ok(None);
        };
        self.told = told;
        Ok(Some(value))
    }

    /// Returns the number of events of the last call that had any.
    pub fn told(&self) -> usize
        ensures { result ≡ length self.now.told }
    {
        self.told.len()
    }

    /// Returns one of these events, counted from 0, or `None` if there are fewer.
    pub fn change(&self, i: usize) -> Option<&TextChange>
        ensures { option_copied result ≡ slice_get self.now.told i }
    {
        self.told.get(i)
    }
}
