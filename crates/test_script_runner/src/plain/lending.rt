//! A map of numbers whose values are written through entries and iterators.

use crate::plain::maps::tell_nodes;
use crate::plain::{entries, lent};
use indexset_map::BTreeMap;
use std::alloc::Global;
use std::str::SplitWhitespace;
use test_script::player::Swept;
use test_script::script::{Stop, Subject, read, tell};

#[derive(Drop)]
pub struct Lending {
    alloc: Global,
    size: usize,
    map: BTreeMap<u64, u64>,
}

// Returns an empty map.
fn empty(alloc: Global, size: usize) -> Result<BTreeMap<u64, u64>, Stop> {
    if size < 2 {
        return Err(Stop::NoCall);
    }
    Ok(BTreeMap::with_maximum_node_size(alloc, size)?)
}

impl Swept for Lending {
    fn make(alloc: Global, size: usize) -> Result<Self, Stop> {
        let map = empty(alloc, size)?;
        Ok(Lending { alloc, size, map })
    }

    fn show(&self, text: &mut String) -> Result<(), Stop> {
        tell_nodes(&self.map, text)
    }

    fn part(
        &mut self,
        _name: &str,
        _words: &mut SplitWhitespace<'_>,
        _number: usize,
    ) -> Result<bool, Stop> {
        Ok(false)
    }
}

impl Subject for Lending {
    fn call(
        &mut self,
        name: &str,
        words: &mut SplitWhitespace<'_>,
        answer: &mut String,
    ) -> Result<(), Stop> {
        match name {
            "map" => self.fill(words),
            "fill" => self.fill_by_entries(read(words)?),
            "len" => tell(answer, self.map.len()),
            "node_count" => tell(answer, self.map.node_count()),
            "nodes" => tell_nodes(&self.map, answer),
            "iter_mut" => lent::walk_all(&mut self.map, words, answer),
            "values_mut" => lent::walk_values(&mut self.map, words, answer),
            "range_mut" => lent::walk_range(&mut self.map, words, answer),
            "range_mut_idx" => lent::tell_positions(&mut self.map, words, answer),
            _ => self.enter(name, words, answer),
        }
    }
}

impl Lending {
    // Makes a map of the pairs of the words, inserted in order.
    fn fill(&mut self, words: &mut SplitWhitespace<'_>) -> Result<(), Stop> {
        let mut map = empty(self.alloc, self.size)?;
        for word in words {
            let (key, value) = word.split_once(':').ok_or(Stop::Word)?;
            let key = key.parse::<u64>().map_err(|_| Stop::Word)?;
            let value = value.parse::<u64>().map_err(|_| Stop::Word)?;
            map.insert(key, value)?;
        }
        self.map = map;
        Ok(())
    }

    // Makes a map of `count` numbers, each inserted with its entry.
    fn fill_by_entries(&mut self, count: u64) -> Result<(), Stop> {
        let mut map = empty(self.alloc, self.size)?;
        for key in 0..count {
            map.entry(key).or_insert(key)?;
        }
        self.map = map;
        Ok(())
    }

    fn enter(
        &mut self,
        name: &str,
        words: &mut SplitWhitespace<'_>,
        answer: &mut String,
    ) -> Result<(), Stop> {
        let map = &mut self.map;
        match name {
            "or_insert" | "or_insert_with" | "or_insert_with_key" => {
                entries::or_put(map, name, words, answer)
            }
            "or_default" => entries::or_default(map, words, answer),
            "and_modify" => entries::modify(map, words, answer),
            "entry" => entries::show(map, words, answer),
            "entry_key" => entries::show_key(map, words, answer),
            "entry_into_key" => entries::give_back(map, words, answer),
            "entry_insert" => entries::insert(map, words, answer),
            "entry_get_mut" | "entry_into_mut" => entries::overwrite(map, name, words, answer),
            "entry_remove" | "entry_remove_entry" => entries::remove(map, name, words, answer),
            _ => Err(Stop::NoCall),
        }
    }
}
