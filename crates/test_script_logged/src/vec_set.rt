//! Scripts of the logged set whose nodes are vectors.

use crate::brief::Metering;
use crate::item::{Item, read_items, read_range};
use crate::meter::Meter;
use crate::node::Whole;
use crate::set::Sets;
use indexset_log::set::BTreeSet;
use std::alloc::Global;
use std::str::SplitWhitespace;
use test_script::player::Swept;
use test_script::script::{Stop, Subject, read};

/// A logged set whose nodes are vectors, with the calls that only such sets have.
#[derive(Drop)]
pub struct VecSets<T: Item> {
    pub sets: Sets<T, Vec<T>, Whole>,
}

impl<T: Item> VecSets<T> {
    fn make_of_items(&mut self, name: &str, words: &mut SplitWhitespace<'_>) -> Result<(), Stop> {
        let alloc = self.sets.source.alloc;
        let items = read_items(&self.sets.source, words)?;
        let set = if name == "from" {
            BTreeSet::from(alloc, items)?
        } else {
            BTreeSet::from_iter(alloc, items)?
        };
        self.sets.replace(set);
        Ok(())
    }

    /// Replaces the set by one of the replica's nodes, whose next event has the number that the
    /// replica awaits.
    fn make_of_copy(&mut self, words: &mut SplitWhitespace<'_>) -> Result<(), Stop> {
        let size = read(words)?;
        if size < 2 {
            return Err(Stop::NoCall);
        }
        let (nodes, next) = self.sets.copy.take(self.sets.source.alloc);
        match BTreeSet::from_nodes(nodes, size, next) {
            Ok(set) => {
                self.sets.set = set;
                Ok(())
            }
            Err(refused) => {
                self.sets.copy.begin(refused.value, next)?;
                Err(Stop::Refused(refused.cause))
            }
        }
    }

    fn remove_range(&mut self, words: &mut SplitWhitespace<'_>) -> Result<(), Stop> {
        let (start, end) = read_range::<T>(&self.sets.source, words)?;
        self.sets.set.remove_range((start.as_ref(), end.as_ref()));
        Ok(())
    }
}

impl<T: Item> Subject for VecSets<T> {
    fn call(
        &mut self,
        name: &str,
        words: &mut SplitWhitespace<'_>,
        answer: &mut String,
    ) -> Result<(), Stop> {
        match name {
            "from" | "from_iter" => self.make_of_items(name, words),
            "from_copy" => self.make_of_copy(words),
            "remove_range" => self.remove_range(words),
            _ => self.sets.call(name, words, answer),
        }
    }
}

impl<T: Item> Swept for VecSets<T> {
    fn make(alloc: Global, size: usize) -> Result<Self, Stop> {
        let sets = Sets::make(alloc, size)?;
        Ok(VecSets { sets })
    }

    fn show(&self, text: &mut String) -> Result<(), Stop> {
        self.sets.show(text)
    }

    fn part(
        &mut self,
        name: &str,
        words: &mut SplitWhitespace<'_>,
        number: usize,
    ) -> Result<bool, Stop> {
        self.sets.part(name, words, number)
    }
}

impl<T: Item> Metering for VecSets<T> {
    fn meter(&self) -> &Meter {
        self.sets.meter()
    }
}
