//! Reads of a map.

use super::{Maps, tell_nodes};
use crate::plain::walks::{
    follow, tell_pair, walk_all, walk_keys, walk_owned, walk_owned_keys, walk_owned_values,
    walk_values,
};
use indexset_core::key_range::bounds_are_ordered;
use std::hash::{BuildHasher, BuildHasherDefault, FoldHasher};
use std::str::SplitWhitespace;
use test_script::script::{Stop, read, read_bound, tell, tell_option};
use test_script::word::{Word, bound};

impl<K: Word, V: Word> Maps<K, V> {
    pub(super) fn look_up(
        &mut self,
        name: &str,
        words: &mut SplitWhitespace<'_>,
        answer: &mut String,
    ) -> Result<(), Stop> {
        match name {
            "len" => tell(answer, self.map.len()),
            "is_empty" => tell(answer, self.map.is_empty()),
            "node_count" => tell(answer, self.map.node_count()),
            "maximum_node_size" => tell(answer, self.map.maximum_node_size()),
            "first_key_value" => tell_pair(answer, self.map.first_key_value()),
            "last_key_value" => tell_pair(answer, self.map.last_key_value()),
            "get_index" => tell_pair(answer, self.map.get_index(read(words)?)),
            "get" | "get_key_value" | "contains_key" | "rank" | "index_of" | "index" => {
                self.look_for(name, words, answer)
            }
            _ => self.view(name, words, answer),
        }
    }

    // Looks the key of each word up.
    fn look_for(
        &self,
        name: &str,
        words: &mut SplitWhitespace<'_>,
        answer: &mut String,
    ) -> Result<(), Stop> {
        for word in words {
            let key = K::of(self.alloc, word)?;
            match name {
                "get" => tell_option(answer, self.map.get(&key))?,
                "get_key_value" => tell_pair(answer, self.map.get_key_value(&key))?,
                "contains_key" => tell(answer, self.map.contains_key(&key))?,
                "rank" => tell(answer, self.map.rank(&key))?,
                "index_of" => tell_option(answer, self.map.index_of(&key))?,
                _ if self.map.contains_key(&key) => tell(answer, &self.map[&key])?,
                _ => return Err(Stop::NoCall),
            }
        }
        Ok(())
    }

    fn view(
        &mut self,
        name: &str,
        words: &mut SplitWhitespace<'_>,
        answer: &mut String,
    ) -> Result<(), Stop> {
        match name {
            "nodes" => tell_nodes(&self.map, answer),
            "keys" => walk_keys(&self.map, words, answer),
            "values" => walk_values(&self.map, words, answer),
            "into_keys" => walk_owned_keys(self.map.clone()?, words, answer),
            "into_values" => walk_owned_values(self.map.clone()?, words, answer),
            "iter" => walk_all(&self.map, words, answer),
            "into_iter" => walk_owned(self.map.clone()?, words, answer),
            "lower_bound" | "upper_bound" => self.cursor(name, words, answer),
            "range" | "range_rev" => self.range(name, words, answer),
            "range_idx" => self.range_idx(words, answer),
            "eq" | "lt" | "cmp" | "partial_cmp" | "hash" => self.compare(name, answer),
            _ => self.list(name, answer),
        }
    }

    fn cursor(
        &self,
        name: &str,
        words: &mut SplitWhitespace<'_>,
        answer: &mut String,
    ) -> Result<(), Stop> {
        let bound = bound::<K>(self.alloc, words)?;
        if name == "lower_bound" {
            return follow(self.map.lower_bound(bound.as_ref()), words, answer);
        }
        follow(self.map.upper_bound(bound.as_ref()), words, answer)
    }

    // Compares the first map with the second.
    fn compare(&self, name: &str, answer: &mut String) -> Result<(), Stop> {
        let hashes = BuildHasherDefault::<FoldHasher>::new();
        match name {
            "eq" => tell(answer, self.map == self.other),
            "lt" => tell(answer, self.map < self.other),
            "hash" => {
                let same = hashes.hash_one(&self.map) == hashes.hash_one(&self.other);
                tell(answer, same)
            }
            "cmp" => {
                write!(answer, " {:?}", self.map.cmp(&self.other))?;
                Ok(())
            }
            _ => {
                write!(answer, " {:?}", self.map.partial_cmp(&self.other))?;
                Ok(())
            }
        }
    }

    fn range(
        &self,
        name: &str,
        words: &mut SplitWhitespace<'_>,
        answer: &mut String,
    ) -> Result<(), Stop> {
        let start = bound::<K>(self.alloc, words)?;
        let end = bound::<K>(self.alloc, words)?;
        if !bounds_are_ordered(start.as_ref(), end.as_ref()) {
            return Err(Stop::NoCall);
        }
        let mut range = self.map.range((start.as_ref(), end.as_ref()));
        for _ in 0..range.len() {
            let pair = if name == "range" {
                range.next()
            } else {
                range.next_back()
            };
            tell_pair(answer, pair)?;
        }
        Ok(())
    }

    fn range_idx(&self, words: &mut SplitWhitespace<'_>, answer: &mut String) -> Result<(), Stop> {
        let range = (read_bound(words)?, read_bound(words)?);
        for (key, value) in self.map.range_idx(range) {
            write!(answer, " {key}:{value}")?;
        }
        Ok(())
    }

    fn list(&self, name: &str, answer: &mut String) -> Result<(), Stop> {
        match name {
            "pairs" => {
                for (key, value) in self.map.iter() {
                    write!(answer, " {key}:{value}")?;
                }
            }
            "ref_pairs" => {
                for (key, value) in &self.map {
                    write!(answer, " {key}:{value}")?;
                }
            }
            "into_pairs" => {
                for (key, value) in self.map.clone()?.into_iter() {
                    write!(answer, " {key}:{value}")?;
                }
            }
            "all_keys" => {
                for key in self.map.keys() {
                    tell(answer, key)?;
                }
            }
            "all_values" => {
                for value in self.map.values() {
                    tell(answer, value)?;
                }
            }
            _ => return Err(Stop::NoCall),
        }
        Ok(())
    }
}
