//! Positions in a multimap.

use super::MultiMaps;
use crate::command::tell_pair;
use crate::item::{Item, Value, read_pair};
use crate::node::Maker;
use crate::pair::tell_end;
use indexset_core::multipair::MultiPair;
use indexset_core::node::NodeLike;
use std::str::SplitWhitespace;
use test_script::script::{Stop, read, read_bound, tell, tell_option};

impl<K: Item, V: Value, N: NodeLike<MultiPair<K, V>>, M: Maker<MultiPair<K, V>, N>> MultiMaps<
    K,
    V,
    N,
    M,
> {
    /// Makes the calls by position.
    pub(super) fn look_at(
        &self,
        name: &str,
        words: &mut SplitWhitespace<'_>,
        answer: &mut String,
    ) -> Result<(), Stop> {
        match name {
            "get_index" => tell_end(answer, self.map.get_index(read(words)?)),
            "range_idx" | "range_idx_back" => self.page(name, words, answer),
            "ranks" => self.ranks(answer),
            "index_of" => {
                let (key, value) = read_pair(&self.source, words)?;
                tell_option(answer, self.map.index_of(&key, &value))
            }
            "rank" => tell(answer, self.map.rank(&K::read_item(&self.source, words)?)),
            _ => tell(answer, self.map.count(&K::read_item(&self.source, words)?)),
        }
    }

    /// Writes the rank of the key of each pair.
    fn ranks(&self, answer: &mut String) -> Result<(), Stop> {
        for (key, _) in &self.map {
            tell(answer, self.map.rank(key))?;
        }
        Ok(())
    }

    fn page(
        &self,
        name: &str,
        words: &mut SplitWhitespace<'_>,
        answer: &mut String,
    ) -> Result<(), Stop> {
        let page = self.map.range_idx((read_bound(words)?, read_bound(words)?));
        if name == "range_idx" {
            for (key, value) in page {
                write!(answer, " {key}:{value}")?;
            }
        } else {
            for (key, value) in page.rev() {
                write!(answer, " {key}:{value}")?;
            }
        }
        Ok(())
    }

    /// Removes the pair at a position.
    pub(super) fn pop_index(
        &mut self,
        name: &str,
        words: &mut SplitWhitespace<'_>,
        answer: &mut String,
    ) -> Result<(), Stop> {
        let i = read(words)?;
        if name == "pop_index" {
            return tell_pair(answer, self.map.pop_index(i)?);
        }
        let (popped, events) = self.map.pop_index_cdc(i)?;
        tell_pair(answer, popped)?;
        self.copy.tell_events(answer, events)
    }
}
