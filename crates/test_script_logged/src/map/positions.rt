//! Positions in a logged map.

use super::Maps;
use crate::item::{Item, Value, read_bound};
use crate::node::Maker;
use crate::pair::tell_end;
use crate::trees::{pair_of, pairs_before, pairs_up_to};
use indexset_core::node::NodeLike;
use indexset_core::pair::Pair;
use std::str::SplitWhitespace;
use test_script::script::{self, Stop, read, tell, tell_option};

impl<K: Item, V: Value, N: NodeLike<Pair<K, V>>, M: Maker<Pair<K, V>, N>> Maps<K, V, N, M> {
    /// Makes the calls by position, and those that return the stored key.
    pub(super) fn look_at(
        &self,
        name: &str,
        words: &mut SplitWhitespace<'_>,
        answer: &mut String,
    ) -> Result<(), Stop> {
        match name {
            "get_index" => tell_end(answer, self.map.get_index(read(words)?)),
            "range_idx" | "range_idx_back" => self.page(name, words, answer),
            "count_before" | "count_up_to" => self.count(name, words, answer),
            "ranks" => self.ranks(answer),
            _ => self.rank(name, words, answer),
        }
    }

    fn rank(
        &self,
        name: &str,
        words: &mut SplitWhitespace<'_>,
        answer: &mut String,
    ) -> Result<(), Stop> {
        let key = K::read_item(&self.source, words)?;
        match name {
            "rank" => tell(answer, self.map.rank(&key)),
            "index_of" => tell_option(answer, self.map.index_of(&key)),
            "get_key_value" => tell_end(answer, self.map.get_key_value(&key)),
            "get_key_value_by" => tell_end(answer, pair_of(&self.map, &key)),
            _ => Err(Stop::NoCall),
        }
    }

    /// Writes the rank of each key.
    fn ranks(&self, answer: &mut String) -> Result<(), Stop> {
        for (key, _) in &self.map {
            tell(answer, self.map.rank(key))?;
        }
        Ok(())
    }

    fn count(
        &self,
        name: &str,
        words: &mut SplitWhitespace<'_>,
        answer: &mut String,
    ) -> Result<(), Stop> {
        let bound = read_bound::<K>(&self.source, words)?;
        if name == "count_before" {
            tell(answer, pairs_before(&self.map, bound.as_ref()))
        } else {
            tell(answer, pairs_up_to(&self.map, bound.as_ref()))
        }
    }

    fn page(
        &self,
        name: &str,
        words: &mut SplitWhitespace<'_>,
        answer: &mut String,
    ) -> Result<(), Stop> {
        let range = (script::read_bound(words)?, script::read_bound(words)?);
        let page = self.map.range_idx(range);
        if name == "range_idx" {
            for (key, value) in page {
                write!(answer, " {key}:{value}")?;
            }
        } else {
            for (key, value) in page.rev() {
                write!(answer, " {key}:{value}")?;
            }
        }
        Ok(())
    }
}
