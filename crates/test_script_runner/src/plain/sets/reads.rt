//! Reads of a set.

use super::{Sets, tell_nodes};
use indexset_core::key_range::bounds_are_ordered;
use indexset_core::probe::{ByItem, Counting};
use indexset_set::{BTreeSet, Iter};
use std::hash::{BuildHasher, BuildHasherDefault, FoldHasher};
use std::str::SplitWhitespace;
use test_script::script::{Stop, read, read_bound, tell, tell_option};
use test_script::walk;
use test_script::word::{Word, bound, item};

// Writes each item of an iterator. It is a macro, because an iterator of any type has no contract
// for `next`.
macro_rules! tell_each {
    ($items:expr, $answer:expr) => {{
        for item in $items {
            tell($answer, item)?;
        }
        Ok(())
    }};
}

fn walk_all<T: Word>(
    items: Iter<'_, T>,
    words: &mut SplitWhitespace<'_>,
    answer: &mut String,
) -> Result<(), Stop> {
    walk!(items, words, answer, tell_option)
}

fn walk_owned<T: Word>(
    set: BTreeSet<T>,
    words: &mut SplitWhitespace<'_>,
    answer: &mut String,
) -> Result<(), Stop> {
    walk!(set.into_iter(), words, answer, tell_option)
}

impl<T: Word> Sets<T> {
    pub(super) fn look_up(
        &mut self,
        name: &str,
        words: &mut SplitWhitespace<'_>,
        answer: &mut String,
    ) -> Result<(), Stop> {
        match name {
            "len" => tell(answer, self.set.len()),
            "is_empty" => tell(answer, self.set.is_empty()),
            "node_count" => tell(answer, self.set.node_count()),
            "maximum_node_size" => tell(answer, self.set.maximum_node_size()),
            "first" => tell_option(answer, self.set.first()),
            "last" => tell_option(answer, self.set.last()),
            "get_index" => self.get_index(words, answer),
            "index" | "pop_index" => self.at(name, words, answer),
            "get" | "contains" | "rank" | "index_of" | "lower_bound" | "upper_bound" => {
                self.look_for(name, words, answer)
            }
            "locate_by" => self.locate(words, answer),
            _ => self.view(name, words, answer),
        }
    }

    // Looks the element of each word up.
    fn look_for(
        &self,
        name: &str,
        words: &mut SplitWhitespace<'_>,
        answer: &mut String,
    ) -> Result<(), Stop> {
        for word in words {
            let item = T::of(self.alloc, word)?;
            match name {
                "get" => tell_option(answer, self.set.get(&item))?,
                "contains" => tell(answer, self.set.contains(&item))?,
                "rank" => tell(answer, self.set.rank(&item))?,
                "index_of" => tell_option(answer, self.set.index_of(&item))?,
                "lower_bound" => tell_option(answer, self.set.lower_bound(&item))?,
                _ => tell_option(answer, self.set.upper_bound(&item))?,
            }
        }
        Ok(())
    }

    fn get_index(&self, words: &mut SplitWhitespace<'_>, answer: &mut String) -> Result<(), Stop> {
        for word in words {
            let i = word.parse().map_err(|_| Stop::Word)?;
            tell_option(answer, self.set.get_index(i))?;
        }
        Ok(())
    }

    // Writes the element at a position that exists.
    fn at(
        &mut self,
        name: &str,
        words: &mut SplitWhitespace<'_>,
        answer: &mut String,
    ) -> Result<(), Stop> {
        let i = read(words)?;
        if self.set.len() <= i {
            return Err(Stop::NoCall);
        }
        if name == "index" {
            return tell(answer, &self.set[i]);
        }
        tell(answer, self.set.pop_index(i))
    }

    // Writes the result of a search for each word: its position, or `gap` and the position to
    // insert it at. The number before the words is the maximum number of comparisons.
    fn locate(&self, words: &mut SplitWhitespace<'_>, answer: &mut String) -> Result<(), Stop> {
        let most = read(words)?;
        for word in words {
            self.locate_one(&T::of(self.alloc, word)?, most, answer)?;
        }
        Ok(())
    }

    fn locate_one(&self, item: &T, most: u64, answer: &mut String) -> Result<(), Stop> {
        // For the proof: the elements ascend.
        let _len = self.set.len();
        let mut probe = Counting::new(ByItem::new(item));
        match self.set.locate_by(&mut probe) {
            Ok(i) => write!(answer, " {i}")?,
            Err(gap) => write!(answer, " gap {gap}")?,
        }
        if most < probe.asked() {
            write!(answer, " by {} questions", probe.asked())?;
        }
        Ok(())
    }

    fn view(
        &mut self,
        name: &str,
        words: &mut SplitWhitespace<'_>,
        answer: &mut String,
    ) -> Result<(), Stop> {
        match name {
            "nodes" => tell_nodes(&self.set, answer),
            "iter" => walk_all(self.set.iter(), words, answer),
            "into_iter" => walk_owned(self.set.clone()?, words, answer),
            "cursor_at" => self.cursor(words, answer),
            "range" | "range_rev" => self.range(name, words, answer),
            "range_idx" => self.range_idx(words, answer),
            "is_subset" => tell(answer, self.set.is_subset(&self.other)),
            "is_superset" => tell(answer, self.set.is_superset(&self.other)),
            "is_disjoint" => tell(answer, self.set.is_disjoint(&self.other)),
            "eq" | "le" | "lt" | "cmp" | "hash" => self.compare(name, answer),
            "debug" => {
                write!(answer, " {:?}", self.set.iter())?;
                Ok(())
            }
            _ => self.list(name, answer),
        }
    }

    // Compares the first set with the second.
    fn compare(&self, name: &str, answer: &mut String) -> Result<(), Stop> {
        let hashes = BuildHasherDefault::<FoldHasher>::new();
        match name {
            "eq" => tell(answer, self.set == self.other),
            "le" => tell(answer, self.set <= self.other),
            "lt" => tell(answer, self.set < self.other),
            "cmp" => {
                write!(answer, " {:?}", self.set.cmp(&self.other))?;
                Ok(())
            }
            _ => {
                let same = hashes.hash_one(&self.set) == hashes.hash_one(&self.other);
                tell(answer, same)
            }
        }
    }

    // Makes the calls of a cursor, one for each word.
    fn cursor(&self, words: &mut SplitWhitespace<'_>, answer: &mut String) -> Result<(), Stop> {
        let mut cursor = self.set.cursor_at(read(words)?);
        for word in words {
            match word.split_once('=').unwrap_or((word, "")) {
                ("item", _) => tell_option(answer, cursor.item())?,
                ("peek_next", _) => tell_option(answer, cursor.peek_next())?,
                ("peek_prev", _) => tell_option(answer, cursor.peek_prev())?,
                ("move_next", _) => cursor.move_next(),
                ("move_prev", _) => cursor.move_prev(),
                ("peek_index", i) => {
                    let i = i.parse::<usize>().map_err(|_| Stop::Word)?;
                    tell_option(answer, cursor.peek_index(i))?;
                }
                ("move_index", i) => {
                    cursor.move_index(i.parse::<usize>().map_err(|_| Stop::Word)?);
                }
                _ => return Err(Stop::Word),
            }
        }
        Ok(())
    }

    fn range(
        &self,
        name: &str,
        words: &mut SplitWhitespace<'_>,
        answer: &mut String,
    ) -> Result<(), Stop> {
        let start = bound::<T>(self.alloc, words)?;
        let end = bound::<T>(self.alloc, words)?;
        if !bounds_are_ordered(start.as_ref(), end.as_ref()) {
            return Err(Stop::NoCall);
        }
        let mut range = self.set.range((start.as_ref(), end.as_ref()));
        for _ in 0..range.len() {
            let item = if name == "range" {
                range.next()
            } else {
                range.next_back()
            };
            tell_option(answer, item)?;
        }
        Ok(())
    }

    fn range_idx(&self, words: &mut SplitWhitespace<'_>, answer: &mut String) -> Result<(), Stop> {
        let range = (read_bound(words)?, read_bound(words)?);
        for item in self.set.range_idx(range) {
            tell(answer, item)?;
        }
        Ok(())
    }

    fn list(&self, name: &str, answer: &mut String) -> Result<(), Stop> {
        match name {
            "items" => tell_each!(self.set.iter(), answer),
            "ref_items" => tell_each!(&self.set, answer),
            "items_rev" => tell_each!(self.set.iter().rev(), answer),
            "into_items" => tell_each!(self.set.clone()?, answer),
            "into_items_rev" => tell_each!(self.set.clone()?.into_iter().rev(), answer),
            _ => self.combine(name, answer),
        }
    }

    // Combines the first set with the second.
    fn combine(&self, name: &str, answer: &mut String) -> Result<(), Stop> {
        match name {
            "union" => tell_each!(self.set.union(&self.other), answer),
            "difference" => tell_each!(self.set.difference(&self.other), answer),
            "intersection" => tell_each!(self.set.intersection(&self.other), answer),
            "symmetric_difference" => {
                tell_each!(self.set.symmetric_difference(&self.other), answer)
            }
            _ => Err(Stop::NoCall),
        }
    }
}
