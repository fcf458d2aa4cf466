//! Reads of a logged set.

use super::Sets;
use crate::item::{Item, may_range, read_range};
use crate::node::{Maker, tell_node};
use crate::text::{tell_room, tell_text};
use crate::trees::{place_of, start_of};
use indexset_core::node::NodeLike;
use indexset_log::set::iter::Iter;
use indexset_log::set::range::Range;
use std::ops::Bound;
use std::str::SplitWhitespace;
use test_script::script::{Stop, tell, tell_option};

impl<T: Item, N: NodeLike<T>, M: Maker<T, N>> Sets<T, N, M> {
    /// Makes the reads, and the calls of the replica.
    pub(super) fn look(
        &mut self,
        name: &str,
        words: &mut SplitWhitespace<'_>,
        answer: &mut String,
    ) -> Result<(), Stop> {
        match name {
            "first" => tell_option(answer, self.set.first()),
            "last" => tell_option(answer, self.set.last()),
            "len" => tell(answer, self.set.len()),
            "is_empty" => tell(answer, self.set.is_empty()),
            "node_count" => tell(answer, self.set.node_count()),
            "maximum_node_size" => tell(answer, self.set.maximum_node_size()),
            "events_issued" => tell(answer, self.set.events_issued()),
            "has_few_nodes" => tell(answer, self.has_few_nodes()),
            "has_room_for" => tell_room(self.set.capacity(), words, answer),
            "text" => tell_text(self.source.alloc, answer, &self.set),
            _ => self.show_items(name, words, answer),
        }
    }

    fn show_items(
        &mut self,
        name: &str,
        words: &mut SplitWhitespace<'_>,
        answer: &mut String,
    ) -> Result<(), Stop> {
        match name {
            "get" | "contains" | "place_of" | "below" => self.look_for(name, words, answer),
            "nodes" => self.tell_nodes(answer),
            "is_followed" => {
                let is_followed = self.copy.is_followed(self.set.iter_nodes())?;
                tell(answer, is_followed)
            }
            "items" => self.tell_items(answer),
            "items_back" => self.tell_back(answer),
            "walk" => self.walk(words, answer),
            "walk_nodes" => self.walk_nodes(words, answer),
            "range" | "range_back" | "range_hint" => self.range(name, words, answer),
            "rank"
            | "ranks"
            | "index_of"
            | "position_by"
            | "get_index"
            | "range_idx"
            | "range_idx_back"
            | "count_before"
            | "count_up_to" => self.look_at(name, words, answer),
            _ => self.copy.call(&self.source, name, words, answer),
        }
    }

    /// Returns whether the number of nodes is within the bound.
    fn has_few_nodes(&self) -> bool {
        let neighbours = self.set.node_count().saturating_sub(1);
        let half = self.set.maximum_node_size() / 2;
        neighbours.saturating_mul(half.saturating_add(1)) <= self.set.len().saturating_mul(2)
    }

    fn look_for(
        &self,
        name: &str,
        words: &mut SplitWhitespace<'_>,
        answer: &mut String,
    ) -> Result<(), Stop> {
        let item = T::read_item(&self.source, words)?;
        match name {
            "get" => tell_option(answer, self.set.get(&item)),
            "contains" => tell(answer, self.set.contains(&item)),
            "place_of" => self.tell_place(&item, answer),
            _ => self.tell_below(&item, answer),
        }
    }

    fn tell_place(&self, item: &T, answer: &mut String) -> Result<(), Stop> {
        let told = match place_of(&self.set, item) {
            Ok((node, offset)) => write!(answer, " {node} {offset}"),
            Err((node, offset)) => write!(answer, " absent {node} {offset}"),
        };
        Ok(told?)
    }

    /// Writes the nodes.
    pub(super) fn tell_nodes(&self, answer: &mut String) -> Result<(), Stop> {
        for node in self.set.iter_nodes() {
            tell_node(answer, node.iter().as_slice())?;
        }
        Ok(())
    }

    fn tell_items(&self, answer: &mut String) -> Result<(), Stop> {
        for item in &self.set {
            tell(answer, item)?;
        }
        Ok(())
    }

    fn tell_back(&self, answer: &mut String) -> Result<(), Stop> {
        for item in self.set.iter().rev() {
            tell(answer, item)?;
        }
        Ok(())
    }

    /// Writes the items that are less than an item.
    fn tell_below(&self, item: &T, answer: &mut String) -> Result<(), Stop> {
        let end = start_of(&self.set, item);
        tell_forwards(answer, self.set.range_between((0, 0), end))
    }

    fn range(
        &self,
        name: &str,
        words: &mut SplitWhitespace<'_>,
        answer: &mut String,
    ) -> Result<(), Stop> {
        let (start, end) = read_range::<T>(&self.source, words)?;
        self.tell_range(name, (start.as_ref(), end.as_ref()), answer)
    }

    /// Writes the items of a range, or their number as the iterator reports it.
    fn tell_range(
        &self,
        name: &str,
        range: (Bound<&T>, Bound<&T>),
        answer: &mut String,
    ) -> Result<(), Stop> {
        if !may_range(&self.source, range.0, range.1) {
            return Err(Stop::NoCall);
        }
        match name {
            "range" => tell_forwards(answer, self.set.range(range)),
            "range_back" => tell_backwards(answer, Range::new(&self.set, range)),
            _ => Ok(write!(answer, " {:?}", self.set.range(range).size_hint())?),
        }
    }

    /// Writes what an iterator yields for each of the remaining words.
    fn walk(&self, words: &mut SplitWhitespace<'_>, answer: &mut String) -> Result<(), Stop> {
        let mut items = Iter::new(&self.set);
        for word in words {
            match word {
                "next" => tell_option(answer, items.next())?,
                "next_back" => tell_option(answer, items.next_back())?,
                _ => return Err(Stop::Word),
            }
        }
        Ok(())
    }

    /// Writes what an iterator over the nodes yields for each of the remaining words.
    fn walk_nodes(&self, words: &mut SplitWhitespace<'_>, answer: &mut String) -> Result<(), Stop> {
        let mut nodes = self.set.iter_nodes();
        for word in words {
            let node = match word {
                "next" => nodes.next(),
                "next_back" => nodes.next_back(),
                _ => return Err(Stop::Word),
            };
            match node {
                Some(node) => tell_node(answer, node.iter().as_slice())?,
                None => tell(answer, "none")?,
            }
        }
        Ok(())
    }
}

/// Writes the items of a range in ascending order.
pub(super) fn tell_forwards<T: Item, N: NodeLike<T>>(
    answer: &mut String,
    items: Range<'_, T, N>,
) -> Result<(), Stop> {
    for item in items {
        tell(answer, item)?;
    }
    Ok(())
}

/// Writes the items of a range in descending order.
pub(super) fn tell_backwards<T: Item, N: NodeLike<T>>(
    answer: &mut String,
    items: Range<'_, T, N>,
) -> Result<(), Stop> {
    for item in items.rev() {
        tell(answer, item)?;
    }
    Ok(())
}
