//! Reads of a multimap.

use super::MultiMaps;
use crate::item::{Item, Value, may_range, read_range};
use crate::node::{Maker, tell_node};
use crate::pair::tell_end;
use crate::text::{tell_room, tell_text};
use indexset_core::multipair::MultiPair;
use indexset_core::node::NodeLike;
use std::str::SplitWhitespace;
use test_script::script::{Stop, tell};

impl<K: Item, V: Value, N: NodeLike<MultiPair<K, V>>, M: Maker<MultiPair<K, V>, N>> MultiMaps<
    K,
    V,
    N,
    M,
> {
    /// Makes the reads, and the calls of the replica.
    pub(super) fn look(
        &mut self,
        name: &str,
        words: &mut SplitWhitespace<'_>,
        answer: &mut String,
    ) -> Result<(), Stop> {
        match name {
            "nodes" => self.tell_nodes(answer),
            "is_followed" => {
                let is_followed = self.copy.is_followed(self.map.iter_nodes())?;
                tell(answer, is_followed)
            }
            "contains_key" | "size_of" => self.look_for(name, words, answer),
            "len" => tell(answer, self.map.len()),
            "is_empty" => tell(answer, self.map.is_empty()),
            "node_count" => tell(answer, self.map.node_count()),
            "events_issued" => tell(answer, self.map.events_issued()),
            "first" => tell_end(answer, self.map.first_key_value()),
            "last" => tell_end(answer, self.map.last_key_value()),
            "text" => tell_text(self.source.alloc, answer, &self.map),
            "has_room_for" => tell_room(self.map.capacity(), words, answer),
            "items" | "items_back" => self.tell_items(name, answer),
            "get" | "raw_get" | "raw_get_back" => self.tell_values(name, words, answer),
            "range" | "range_back" => self.tell_range(name, words, answer),
            "rank"
            | "ranks"
            | "count_of"
            | "index_of"
            | "get_index"
            | "range_idx"
            | "range_idx_back" => { self.look_at(name, words, answer) }
            _ => self.copy.call(&self.source, name, words, answer),
        }
    }

    fn look_for(
        &self,
        name: &str,
        words: &mut SplitWhitespace<'_>,
        answer: &mut String,
    ) -> Result<(), Stop> {
        let key = K::read_item(&self.source, words)?;
        if name == "contains_key" {
            tell(answer, self.map.contains_key(&key))
        } else {
            tell(answer, self.map.get(&key).len())
        }
    }

    fn tell_items(&self, name: &str, answer: &mut String) -> Result<(), Stop> {
        if name == "items" {
            for (key, value) in &self.map {
                write!(answer, " {key}:{value}")?;
            }
        } else {
            for (key, value) in self.map.iter().rev() {
                write!(answer, " {key}:{value}")?;
            }
        }
        Ok(())
    }

    /// Writes the pairs of a key, for `raw_get` with their numbers.
    fn tell_values(
        &self,
        name: &str,
        words: &mut SplitWhitespace<'_>,
        answer: &mut String,
    ) -> Result<(), Stop> {
        let key = K::read_item(&self.source, words)?;
        if name == "get" {
            for (key, value) in self.map.get(&key) {
                write!(answer, " {key}:{value}")?;
            }
        } else if name == "raw_get" {
            for (key, number, value) in self.map.raw_get(&key) {
                write!(answer, " {key}:{value} #{number}")?;
            }
        } else {
            for (key, number, value) in self.map.raw_get(&key).rev() {
                write!(answer, " {key}:{value} #{number}")?;
            }
        }
        Ok(())
    }

    fn tell_range(
        &self,
        name: &str,
        words: &mut SplitWhitespace<'_>,
        answer: &mut String,
    ) -> Result<(), Stop> {
        let (start, end) = read_range::<K>(&self.source, words)?;
        if !may_range(&self.source, start.as_ref(), end.as_ref()) {
            return Err(Stop::NoCall);
        }
        let range = self.map.range((start.as_ref(), end.as_ref()));
        if name == "range" {
            for (key, value) in range {
                write!(answer, " {key}:{value}")?;
            }
        } else {
            for (key, value) in range.rev() {
                write!(answer, " {key}:{value}")?;
            }
        }
        Ok(())
    }

    /// Writes the nodes.
    pub(super) fn tell_nodes(&self, answer: &mut String) -> Result<(), Stop> {
        for node in self.map.iter_nodes() {
            tell_node(answer, node.iter().as_slice())?;
        }
        Ok(())
    }
}
