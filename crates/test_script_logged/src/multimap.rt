//! Scripts of the multimap.

mod positions;
mod reads;

use crate::brief::Metering;
use crate::command::tell_pair;
use crate::copy::Copy;
use crate::item::{Item, Source, Value, item_of, read_pair};
use crate::meter::Meter;
use crate::node::{
    Maker, given_back, node_back, node_text, nodes_back, nodes_text, read_node, read_nodes,
};
use crate::pair::shown_pair;
use crate::partial::Partial;
use crate::run::{run, run_part, words_left};
use indexset_core::constants::DEFAULT_INNER_SIZE;
use indexset_core::multipair::MultiPair;
use indexset_core::node::NodeLike;
use indexset_core::refusal::{Refusal, Refused};
use indexset_multi::multimap::BTreeMultiMap;
use std::alloc::Global;
use std::marker::PhantomData;
use std::str::SplitWhitespace;
use test_script::player::Swept;
use test_script::script::{Stop, Subject, read, tell, tell_option};

/// A multimap, and a replica that follows it.
#[derive(Drop)]
pub struct MultiMaps<
    K: Item,
    V: Value,
    N: NodeLike<MultiPair<K, V>>,
    M: Maker<MultiPair<K, V>, N>,
> {
    source: Source,
    map: BTreeMultiMap<K, V, N>,
    copy: Copy<MultiPair<K, V>>,
    partial: Partial,
    maker: PhantomData<M>,
}

impl<K: Item, V: Value, N: NodeLike<MultiPair<K, V>>, M: Maker<MultiPair<K, V>, N>> MultiMaps<
    K,
    V,
    N,
    M,
> {
    fn replace(&mut self, map: BTreeMultiMap<K, V, N>) {
        self.map = map;
        self.copy = Copy::new(self.source.alloc);
    }

    /// Replaces the map by an empty map with a node size and the number of its next event.
    fn start(&mut self, name: &str, words: &mut SplitWhitespace<'_>) -> Result<(), Stop> {
        let size = read(words)?;
        let next = if name == "map" { 0 } else { read(words)? };
        if size < 2 || N::limit() < size {
            return Err(Stop::NoCall);
        }
        self.replace(BTreeMultiMap::starting_at(self.source.alloc, size, next));
        Ok(())
    }

    /// Replaces the map by one with a node size and the keys of the remaining words, each with the
    /// value.
    fn fill(&mut self, words: &mut SplitWhitespace<'_>) -> Result<(), Stop> {
        let size = read(words)?;
        if size < 2 || N::limit() < size {
            return Err(Stop::NoCall);
        }
        let value = words.next().ok_or(Stop::Word)?;
        let mut map = BTreeMultiMap::with_maximum_node_size(self.source.alloc, size);
        for word in words {
            map.insert(item_of(&self.source, word)?, V::of(value)?)?;
        }
        self.replace(map);
        Ok(())
    }

    /// Replaces the map by an empty map of the default node size.
    fn start_anew(&mut self, name: &str) -> Result<(), Stop> {
        if N::limit() < DEFAULT_INNER_SIZE {
            return Err(Stop::NoCall);
        }
        if name == "new" {
            self.replace(BTreeMultiMap::new(self.source.alloc));
        } else {
            self.replace(BTreeMultiMap::default(self.source.alloc));
        }
        Ok(())
    }

    /// Replaces the map by one that is made of nodes.
    fn make_of_nodes(
        &mut self,
        words: &mut SplitWhitespace<'_>,
        answer: &mut String,
    ) -> Result<(), Stop> {
        let alloc = self.source.alloc;
        let (size, next) = (read(words)?, read(words)?);
        if size < 2 || N::limit() < size {
            return Err(Stop::NoCall);
        }
        let nodes = read_nodes::<MultiPair<K, V>, N, M>(&self.source, words)?;
        let given = nodes_text::<MultiPair<K, V>, N>(alloc, nodes.as_slice())?;
        let made = BTreeMultiMap::from_nodes(nodes, size, next);
        let map = nodes_back::<BTreeMultiMap<K, V, N>, MultiPair<K, V>, N>(
            alloc,
            answer,
            given.as_str(),
            made,
        )?;
        self.replace(map);
        Ok(())
    }

    fn attach(&mut self, words: &mut SplitWhitespace<'_>, answer: &mut String) -> Result<(), Stop> {
        let alloc = self.source.alloc;
        let node = read_node::<MultiPair<K, V>, N, M>(&self.source, words)?;
        let given = node_text::<MultiPair<K, V>, N>(alloc, &node)?;
        let attached = self.map.attach_multi_node(node);
        node_back::<MultiPair<K, V>, N>(alloc, answer, given.as_str(), attached)
    }

    fn edit(
        &mut self,
        name: &str,
        words: &mut SplitWhitespace<'_>,
        answer: &mut String,
    ) -> Result<(), Stop> {
        match name {
            "new" | "default" => self.start_anew(name),
            "map" | "starting_at" => self.start(name, words),
            "fill" => self.fill(words),
            "from_nodes" => self.make_of_nodes(words, answer),
            "attach" => self.attach(words, answer),
            "insert" | "insert_cdc" => self.put(name, words, answer),
            "push" | "push_cdc" => self.push(name, words, answer),
            "pop_index" | "pop_index_cdc" => self.pop_index(name, words, answer),
            "remove" | "remove_cdc" => self.remove(name, words, answer),
            "remove_some" | "pop_first" | "pop_last" => self.take(name, words, answer),
            "remove_some_cdc" | "pop_first_cdc" | "pop_last_cdc" => {
                self.take_cdc(name, words, answer)
            }
            "remove_all" | "remove_all_cdc" => self.remove_all(name, words, answer),
            "run" => self.run(words, answer),
            _ => self.look(name, words, answer),
        }
    }

    fn put(
        &mut self,
        name: &str,
        words: &mut SplitWhitespace<'_>,
        answer: &mut String,
    ) -> Result<(), Stop> {
        let alloc = self.source.alloc;
        let (key, value) = read_pair(&self.source, words)?;
        let given = format!(in alloc; "{key}:{value}")?;
        let given = given.as_str();
        if name == "insert" {
            let put = shown_pair(self.map.insert(key, value));
            let old = given_back(alloc, answer, given, put)?;
            return tell_option(answer, old);
        }
        let put = shown_pair(self.map.insert_cdc(key, value));
        let told = given_back(alloc, answer, given, put)?;
        self.copy.tell_cdc(answer, told)
    }

    /// Adds a pair as the last of its key.
    fn push(
        &mut self,
        name: &str,
        words: &mut SplitWhitespace<'_>,
        answer: &mut String,
    ) -> Result<(), Stop> {
        let alloc = self.source.alloc;
        let (key, value) = read_pair(&self.source, words)?;
        let given = format!(in alloc; "{key}:{value}")?;
        let given = given.as_str();
        if name == "push" {
            return given_back(alloc, answer, given, shown_pair(self.map.push(key, value)));
        }
        let pushed = shown_pair(self.map.push_cdc(key, value));
        let events = given_back(alloc, answer, given, pushed)?;
        self.copy.tell_cdc(answer, (Some("some"), events))
    }

    fn remove(
        &mut self,
        name: &str,
        words: &mut SplitWhitespace<'_>,
        answer: &mut String,
    ) -> Result<(), Stop> {
        let (key, value) = read_pair(&self.source, words)?;
        if name == "remove" {
            return tell_pair(answer, self.map.remove(&key, &value)?);
        }
        let (removed, events) = self.map.remove_cdc(&key, &value)?;
        tell_pair(answer, removed)?;
        self.copy.tell_events(answer, events)
    }

    fn take(
        &mut self,
        name: &str,
        words: &mut SplitWhitespace<'_>,
        answer: &mut String,
    ) -> Result<(), Stop> {
        let taken = match name {
            "remove_some" => self.map.remove_some(&K::read_item(&self.source, words)?)?,
            "pop_first" => self.map.pop_first()?,
            _ => self.map.pop_last()?,
        };
        tell_pair(answer, taken)
    }

    fn take_cdc(
        &mut self,
        name: &str,
        words: &mut SplitWhitespace<'_>,
        answer: &mut String,
    ) -> Result<(), Stop> {
        let (taken, events) = match name {
            "remove_some_cdc" => {
                let key = K::read_item(&self.source, words)?;
                self.map.remove_some_cdc(&key)?
            }
            "pop_first_cdc" => self.map.pop_first_cdc()?,
            _ => self.map.pop_last_cdc()?,
        };
        tell_pair(answer, taken)?;
        self.copy.tell_events(answer, events)
    }

    /// Removes all pairs of a key, and writes how many there were, with those that the same call
    /// removed before it failed.
    fn remove_all(
        &mut self,
        name: &str,
        words: &mut SplitWhitespace<'_>,
        answer: &mut String,
    ) -> Result<(), Stop> {
        let text = words_left(&self.source, words)?;
        self.partial.begin(name, text.as_str())?;
        let key = K::read_item(&self.source, &mut text.split_whitespace())?;
        let len = self.map.len();
        let removed = if name == "remove_all" {
            self.map.remove_all(&key)
        } else {
            self.remove_all_cdc(&key)?
        };
        let gone = len.saturating_sub(self.map.len());
        self.partial.count = self.partial.count.saturating_add(gone);
        if removed? != gone {
            return Err(Stop::Otherwise);
        }
        tell(answer, self.partial.count)?;
        self.partial.end(answer)
    }

    /// Removes all pairs of a key, and stores the events.
    fn remove_all_cdc(&mut self, key: &K) -> Result<Result<usize, Refusal>, Stop> {
        let (events, removed) = match self.map.remove_all_cdc(key) {
            Ok((count, events)) => (events, Ok(count)),
            Err(Refused { value, cause }) => (value, Err(cause)),
        };
        self.copy.tell_events(&mut self.partial.events, events)?;
        Ok(removed)
    }

    /// Removes the first pair of the key whose pairs are removed. Returns whether there was one.
    fn remove_all_part(
        &mut self,
        name: &str,
        words: &mut SplitWhitespace<'_>,
    ) -> Result<bool, Stop> {
        let key = K::read_item(&self.source, words)?;
        let (removed, events) = self.map.remove_some_cdc(&key)?;
        if removed.is_none() {
            return Ok(false);
        }
        self.partial.count = self.partial.count.saturating_add(1);
        if name == "remove_all_cdc" {
            self.copy.tell_events(&mut self.partial.events, events)?;
        }
        Ok(true)
    }

    fn run(&mut self, words: &mut SplitWhitespace<'_>, answer: &mut String) -> Result<(), Stop> {
        let MultiMaps {
            source,
            map,
            copy,
            partial,
            ..
        } = self;
        run(source, map, copy, partial, words, answer)
    }
}

impl<K: Item, V: Value, N: NodeLike<MultiPair<K, V>>, M: Maker<MultiPair<K, V>, N>> Subject
    for MultiMaps<K, V, N, M> {
    fn call(
        &mut self,
        name: &str,
        words: &mut SplitWhitespace<'_>,
        answer: &mut String,
    ) -> Result<(), Stop> {
        self.edit(name, words, answer)
    }
}

impl<K: Item, V: Value, N: NodeLike<MultiPair<K, V>>, M: Maker<MultiPair<K, V>, N>> Swept
    for MultiMaps<K, V, N, M> {
    fn make(alloc: Global, size: usize) -> Result<Self, Stop> {
        if size < 2 || N::limit() < size {
            return Err(Stop::NoCall);
        }
        Ok(MultiMaps {
            source: Source::new(alloc)?,
            map: BTreeMultiMap::with_maximum_node_size(alloc, size),
            copy: Copy::new(alloc),
            partial: Partial::new(alloc),
            maker: PhantomData,
        })
    }

    fn show(&self, text: &mut String) -> Result<(), Stop> {
        let (len, next) = (self.map.len(), self.map.events_issued());
        write!(text, "{len} at {next}:")?;
        self.tell_nodes(text)?;
        self.copy.show(text)?;
        self.partial.show(text)
    }

    fn part(
        &mut self,
        name: &str,
        words: &mut SplitWhitespace<'_>,
        number: usize,
    ) -> Result<bool, Stop> {
        if name == "remove_all" || name == "remove_all_cdc" {
            return self.remove_all_part(name, words);
        }
        let MultiMaps {
            source,
            map,
            copy,
            partial,
            ..
        } = self;
        match name {
            "run" => run_part(source, map, copy, partial, words, number),
            _ => copy.part(source, name, words),
        }
    }
}

impl<K: Item, V: Value, N: NodeLike<MultiPair<K, V>>, M: Maker<MultiPair<K, V>, N>> Metering
    for MultiMaps<K, V, N, M> {
    fn meter(&self) -> &Meter {
        &self.source.meter
    }
}
