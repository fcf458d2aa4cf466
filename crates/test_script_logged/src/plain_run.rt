//! Scripts of lists of commands to the plain set and the plain map.

use crate::brief::Metering;
use crate::item::{Item, Source};
use crate::meter::Meter;
use crate::partial::Partial;
use crate::run::{read_command, read_commands, skip_words, tell_replies, words_left};
use indexset_bench::map_run::{MapCommand, run_map};
use indexset_bench::set_run::{SetCommand, run_set};
use indexset_core::refusal::Refusal;
use indexset_map::BTreeMap;
use indexset_set::BTreeSet;
use std::alloc::Global;
use std::str::SplitWhitespace;
use test_script::player::Swept;
use test_script::script::{Stop, Subject};

/// A set that executes lists of commands.
#[derive(Drop)]
pub struct SetRuns<T: Item> {
    source: Source,
    set: BTreeSet<T>,
    partial: Partial,
}

impl<T: Item> SetRuns<T> {
    fn run_more(&mut self, commands: Vec<SetCommand<T>>) -> Result<Option<Refusal>, Stop> {
        let run = run_set(self.source.alloc, &mut self.set, commands);
        let partial = &mut self.partial;
        partial.count = partial.count.saturating_add(run.replies.len());
        tell_replies(&mut partial.answer, run.replies)?;
        Ok(run.refused)
    }

    fn tell_items(&self, answer: &mut String) -> Result<(), Stop> {
        for item in &self.set {
            write!(answer, " {item}")?;
        }
        Ok(())
    }
}

impl<T: Item> Subject for SetRuns<T> {
    fn call(
        &mut self,
        name: &str,
        words: &mut SplitWhitespace<'_>,
        answer: &mut String,
    ) -> Result<(), Stop> {
        if name == "items" {
            return self.tell_items(answer);
        }
        let text = words_left(&self.source, words)?;
        self.partial.begin(name, text.as_str())?;
        let mut words = text.split_whitespace();
        skip_words(&mut words, self.partial.count);
        let commands = read_commands(&self.source, &mut words)?;
        let refused = self.run_more(commands)?;
        self.partial.tell_end(refused, answer)
    }
}

impl<T: Item> Swept for SetRuns<T> {
    fn make(alloc: Global, size: usize) -> Result<Self, Stop> {
        if size < 2 {
            return Err(Stop::NoCall);
        }
        Ok(SetRuns {
            source: Source::new(alloc)?,
            set: BTreeSet::with_maximum_node_size(alloc, size)?,
            partial: Partial::new(alloc),
        })
    }

    fn show(&self, text: &mut String) -> Result<(), Stop> {
        self.tell_items(text)?;
        self.partial.show(text)
    }

    fn part(
        &mut self,
        _name: &str,
        words: &mut SplitWhitespace<'_>,
        number: usize,
    ) -> Result<bool, Stop> {
        let commands = read_command(&self.source, words, number)?;
        let is_one = !commands.is_empty();
        match self.run_more(commands)? {
            None => Ok(is_one),
            Some(cause) => Err(Stop::Refused(cause)),
        }
    }
}

impl<T: Item> Metering for SetRuns<T> {
    fn meter(&self) -> &Meter {
        &self.source.meter
    }
}

/// A map that executes lists of commands.
#[derive(Drop)]
pub struct MapRuns<K: Item> {
    source: Source,
    map: BTreeMap<K, char>,
    partial: Partial,
}

impl<K: Item> MapRuns<K> {
    fn run_more(&mut self, commands: Vec<MapCommand<K, char>>) -> Result<Option<Refusal>, Stop> {
        let run = run_map(self.source.alloc, &mut self.map, commands);
        let partial = &mut self.partial;
        partial.count = partial.count.saturating_add(run.replies.len());
        tell_replies(&mut partial.answer, run.replies)?;
        Ok(run.refused)
    }

    fn tell_pairs(&self, answer: &mut String) -> Result<(), Stop> {
        for (key, value) in &self.map {
            write!(answer, " {key}:{value}")?;
        }
        Ok(())
    }
}

impl<K: Item> Subject for MapRuns<K> {
    fn call(
        &mut self,
        name: &str,
        words: &mut SplitWhitespace<'_>,
        answer: &mut String,
    ) -> Result<(), Stop> {
        if name == "items" {
            return self.tell_pairs(answer);
        }
        let text = words_left(&self.source, words)?;
        self.partial.begin(name, text.as_str())?;
        let mut words = text.split_whitespace();
        skip_words(&mut words, self.partial.count);
        let commands = read_commands(&self.source, &mut words)?;
        let refused = self.run_more(commands)?;
        self.partial.tell_end(refused, answer)
    }
}

impl<K: Item> Swept for MapRuns<K> {
    fn make(alloc: Global, size: usize) -> Result<Self, Stop> {
        if size < 2 {
            return Err(Stop::NoCall);
        }
        Ok(MapRuns {
            source: Source::new(alloc)?,
            map: BTreeMap::with_maximum_node_size(alloc, size)?,
            partial: Partial::new(alloc),
        })
    }

    fn show(&self, text: &mut String) -> Result<(), Stop> {
        self.tell_pairs(text)?;
        self.partial.show(text)
    }

    fn part(
        &mut self,
        _name: &str,
        words: &mut SplitWhitespace<'_>,
        number: usize,
    ) -> Result<bool, Stop> {
        let commands = read_command(&self.source, words, number)?;
        let is_one = !commands.is_empty();
        match self.run_more(commands)? {
            None => Ok(is_one),
            Some(cause) => Err(Stop::Refused(cause)),
        }
    }
}

impl<K: Item> Metering for MapRuns<K> {
    fn meter(&self) -> &Meter {
        &self.source.meter
    }
}
