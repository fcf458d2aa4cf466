//! Positions in a logged set.

use super::Sets;
use super::reads::{tell_backwards, tell_forwards};
use crate::item::{Item, read_bound};
use crate::node::Maker;
use crate::text::tell_position;
use crate::trees::{items_before, items_up_to, position_of};
use indexset_core::node::NodeLike;
use std::str::SplitWhitespace;
use test_script::script::{self, Stop, read, tell, tell_option};

impl<T: Item, N: NodeLike<T>, M: Maker<T, N>> Sets<T, N, M> {
    /// Makes the calls by position.
    pub(super) fn look_at(
        &self,
        name: &str,
        words: &mut SplitWhitespace<'_>,
        answer: &mut String,
    ) -> Result<(), Stop> {
        match name {
            "get_index" => tell_option(answer, self.set.get_index(read(words)?)),
            "range_idx" | "range_idx_back" => self.page(name, words, answer),
            "count_before" | "count_up_to" => self.count(name, words, answer),
            "ranks" => self.ranks(answer),
            _ => self.rank(name, words, answer),
        }
    }

    fn rank(
        &self,
        name: &str,
        words: &mut SplitWhitespace<'_>,
        answer: &mut String,
    ) -> Result<(), Stop> {
        let item = T::read_item(&self.source, words)?;
        match name {
            "rank" => tell(answer, self.set.rank(&item)),
            "index_of" => tell_option(answer, self.set.index_of(&item)),
            "position_by" => tell_position(answer, position_of(&self.set, &item)),
            _ => Err(Stop::NoCall),
        }
    }

    /// Writes the rank of each item.
    fn ranks(&self, answer: &mut String) -> Result<(), Stop> {
        for item in &self.set {
            tell(answer, self.set.rank(item))?;
        }
        Ok(())
    }

    fn count(
        &self,
        name: &str,
        words: &mut SplitWhitespace<'_>,
        answer: &mut String,
    ) -> Result<(), Stop> {
        let bound = read_bound::<T>(&self.source, words)?;
        if name == "count_before" {
            tell(answer, items_before(&self.set, bound.as_ref()))
        } else {
            tell(answer, items_up_to(&self.set, bound.as_ref()))
        }
    }

    fn page(
        &self,
        name: &str,
        words: &mut SplitWhitespace<'_>,
        answer: &mut String,
    ) -> Result<(), Stop> {
        let range = (script::read_bound(words)?, script::read_bound(words)?);
        if name == "range_idx" {
            tell_forwards(answer, self.set.range_idx(range))
        } else {
            tell_backwards(answer, self.set.range_idx(range))
        }
    }
}
