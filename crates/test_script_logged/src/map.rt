//! Scripts of the logged map.

mod positions;

use crate::brief::Metering;
use crate::command::tell_pair;
use crate::copy::Copy;
use crate::item::{Item, Source, Value, item_of, may_range, read_pair, read_range};
use crate::meter::Meter;
use crate::node::{
    Maker, given_back, node_back, node_text, nodes_back, nodes_text, read_node, read_nodes,
    tell_node,
};
use crate::pair::{shown_pair, tell_end};
use crate::partial::Partial;
use crate::run::{run, run_part};
use crate::text::{tell_room, tell_text};
use indexset_core::constants::DEFAULT_INNER_SIZE;
use indexset_core::node::NodeLike;
use indexset_core::pair::Pair;
use indexset_log::map::BTreeMap;
use std::alloc::Global;
use std::marker::PhantomData;
use std::str::SplitWhitespace;
use test_script::player::Swept;
use test_script::script::{Stop, Subject, read, tell, tell_option};

/// A logged map, and a replica that follows it.
#[derive(Drop)]
pub struct Maps<K: Item, V: Value, N: NodeLike<Pair<K, V>>, M: Maker<Pair<K, V>, N>> {
    source: Source,
    map: BTreeMap<K, V, N>,
    copy: Copy<Pair<K, V>>,
    partial: Partial,
    maker: PhantomData<M>,
}

impl<K: Item, V: Value, N: NodeLike<Pair<K, V>>, M: Maker<Pair<K, V>, N>> Maps<K, V, N, M> {
    fn replace(&mut self, map: BTreeMap<K, V, N>) {
        self.map = map;
        self.copy = Copy::new(self.source.alloc);
    }

    /// Replaces the map by an empty map with a node size and the number of its next event.
    fn start(&mut self, name: &str, words: &mut SplitWhitespace<'_>) -> Result<(), Stop> {
        let size = read(words)?;
        let next = if name == "map" { 0 } else { read(words)? };
        if size < 2 || N::limit() < size {
            return Err(Stop::NoCall);
        }
        self.replace(BTreeMap::starting_at(self.source.alloc, size, next));
        Ok(())
    }

    /// Replaces the map by one with a node size and the keys of the remaining words, each with the
    /// value.
    fn fill(&mut self, words: &mut SplitWhitespace<'_>) -> Result<(), Stop> {
        let size = read(words)?;
        if size < 2 || N::limit() < size {
            return Err(Stop::NoCall);
        }
        let value = words.next().ok_or(Stop::Word)?;
        let mut map = BTreeMap::with_maximum_node_size(self.source.alloc, size);
        for word in words {
            map.insert(item_of(&self.source, word)?, V::of(value)?)?;
        }
        self.replace(map);
        Ok(())
    }

    /// Replaces the map by an empty map of the default node size.
    fn start_anew(&mut self, name: &str) -> Result<(), Stop> {
        if N::limit() < DEFAULT_INNER_SIZE {
            return Err(Stop::NoCall);
        }
        if name == "new" {
            self.replace(BTreeMap::new(self.source.alloc));
        } else {
            self.replace(BTreeMap::default(self.source.alloc));
        }
        Ok(())
    }

    /// Replaces the map by one that is made of nodes.
    fn make_of_nodes(
        &mut self,
        words: &mut SplitWhitespace<'_>,
        answer: &mut String,
    ) -> Result<(), Stop> {
        let alloc = self.source.alloc;
        let (size, next) = (read(words)?, read(words)?);
        if size < 2 || N::limit() < size {
            return Err(Stop::NoCall);
        }
        let nodes = read_nodes::<Pair<K, V>, N, M>(&self.source, words)?;
        let given = nodes_text::<Pair<K, V>, N>(alloc, nodes.as_slice())?;
        let made = BTreeMap::from_nodes(nodes, size, next);
        let map = nodes_back::<BTreeMap<K, V, N>, Pair<K, V>, N>(
            alloc,
            answer,
            given.as_str(),
            made,
        )?;
        self.replace(map);
        Ok(())
    }

    fn attach(&mut self, words: &mut SplitWhitespace<'_>, answer: &mut String) -> Result<(), Stop> {
        let alloc = self.source.alloc;
        let node = read_node::<Pair<K, V>, N, M>(&self.source, words)?;
        let given = node_text::<Pair<K, V>, N>(alloc, &node)?;
        let attached = self.map.attach_node(node);
        node_back::<Pair<K, V>, N>(alloc, answer, given.as_str(), attached)
    }

    fn edit(
        &mut self,
        name: &str,
        words: &mut SplitWhitespace<'_>,
        answer: &mut String,
    ) -> Result<(), Stop> {
        match name {
            "new" | "default" => self.start_anew(name),
            "map" | "starting_at" => self.start(name, words),
            "fill" => self.fill(words),
            "from_nodes" => self.make_of_nodes(words, answer),
            "attach_node" => self.attach(words, answer),
            "insert" | "insert_cdc" => self.put(name, words, answer),
            "checked_insert" | "checked_insert_cdc" => self.put_checked(name, words, answer),
            "remove" | "pop_first" | "pop_last" => self.remove(name, words, answer),
            "remove_cdc" | "pop_first_cdc" | "pop_last_cdc" => {
                self.remove_cdc(name, words, answer)
            }
            "run" => self.run(words, answer),
            _ => self.look(name, words, answer),
        }
    }

    fn put(
        &mut self,
        name: &str,
        words: &mut SplitWhitespace<'_>,
        answer: &mut String,
    ) -> Result<(), Stop> {
        let alloc = self.source.alloc;
        let (key, value) = read_pair(&self.source, words)?;
        let given = format!(in alloc; "{key}:{value}")?;
        let given = given.as_str();
        if name == "insert" {
            let put = shown_pair(self.map.insert(key, value));
            let old = given_back(alloc, answer, given, put)?;
            return tell_option(answer, old);
        }
        let put = shown_pair(self.map.insert_cdc(key, value));
        let told = given_back(alloc, answer, given, put)?;
        self.copy.tell_cdc(answer, told)
    }

    fn put_checked(
        &mut self,
        name: &str,
        words: &mut SplitWhitespace<'_>,
        answer: &mut String,
    ) -> Result<(), Stop> {
        let alloc = self.source.alloc;
        let (key, value) = read_pair(&self.source, words)?;
        let given = format!(in alloc; "{key}:{value}")?;
        let given = given.as_str();
        if name == "checked_insert" {
            let put = shown_pair(self.map.checked_insert(key, value));
            let put = given_back(alloc, answer, given, put)?;
            return tell_option(answer, put.map(|_| "some"));
        }
        let put = shown_pair(self.map.checked_insert_cdc(key, value));
        let told = given_back(alloc, answer, given, put)?;
        self.copy.tell_checked(answer, told)
    }

    fn remove(
        &mut self,
        name: &str,
        words: &mut SplitWhitespace<'_>,
        answer: &mut String,
    ) -> Result<(), Stop> {
        let removed = match name {
            "remove" => self.map.remove(&K::read_item(&self.source, words)?)?,
            "pop_first" => self.map.pop_first()?,
            _ => self.map.pop_last()?,
        };
        tell_pair(answer, removed)
    }

    fn remove_cdc(
        &mut self,
        name: &str,
        words: &mut SplitWhitespace<'_>,
        answer: &mut String,
    ) -> Result<(), Stop> {
        let (removed, events) = match name {
            "remove_cdc" => self.map.remove_cdc(&K::read_item(&self.source, words)?)?,
            "pop_first_cdc" => self.map.pop_first_cdc()?,
            _ => self.map.pop_last_cdc()?,
        };
        tell_pair(answer, removed)?;
        self.copy.tell_events(answer, events)
    }

    fn run(&mut self, words: &mut SplitWhitespace<'_>, answer: &mut String) -> Result<(), Stop> {
        let Maps {
            source,
            map,
            copy,
            partial,
            ..
        } = self;
        run(source, map, copy, partial, words, answer)
    }

    fn look(
        &mut self,
        name: &str,
        words: &mut SplitWhitespace<'_>,
        answer: &mut String,
    ) -> Result<(), Stop> {
        match name {
            "nodes" => self.tell_nodes(answer),
            "is_followed" => {
                let is_followed = self.copy.is_followed(self.map.iter_nodes())?;
                tell(answer, is_followed)
            }
            "get" | "contains_key" => self.look_for(name, words, answer),
            "len" => tell(answer, self.map.len()),
            "is_empty" => tell(answer, self.map.is_empty()),
            "node_count" => tell(answer, self.map.node_count()),
            "events_issued" => tell(answer, self.map.events_issued()),
            "first" => tell_end(answer, self.map.first_key_value()),
            "last" => tell_end(answer, self.map.last_key_value()),
            "text" => tell_text(self.source.alloc, answer, &self.map),
            "has_room_for" => tell_room(self.map.capacity(), words, answer),
            "items" | "items_back" => self.tell_items(name, answer),
            "range" | "range_back" => self.tell_range(name, words, answer),
            "rank"
            | "ranks"
            | "index_of"
            | "get_key_value"
            | "get_key_value_by"
            | "get_index"
            | "range_idx"
            | "range_idx_back"
            | "count_before"
            | "count_up_to" => { self.look_at(name, words, answer) }
            _ => self.copy.call(&self.source, name, words, answer),
        }
    }

    fn look_for(
        &self,
        name: &str,
        words: &mut SplitWhitespace<'_>,
        answer: &mut String,
    ) -> Result<(), Stop> {
        let key = K::read_item(&self.source, words)?;
        if name == "get" {
            tell_option(answer, self.map.get(&key))
        } else {
            tell(answer, self.map.contains_key(&key))
        }
    }

    fn tell_items(&self, name: &str, answer: &mut String) -> Result<(), Stop> {
        if name == "items" {
            for (key, value) in &self.map {
                write!(answer, " {key}:{value}")?;
            }
        } else {
            for (key, value) in self.map.iter().rev() {
                write!(answer, " {key}:{value}")?;
            }
        }
        Ok(())
    }

    fn tell_range(
        &self,
        name: &str,
        words: &mut SplitWhitespace<'_>,
        answer: &mut String,
    ) -> Result<(), Stop> {
        let (start, end) = read_range::<K>(&self.source, words)?;
        if !may_range(&self.source, start.as_ref(), end.as_ref()) {
            return Err(Stop::NoCall);
        }
        let range = self.map.range((start.as_ref(), end.as_ref()));
        if name == "range" {
            for (key, value) in range {
                write!(answer, " {key}:{value}")?;
            }
        } else {
            for (key, value) in range.rev() {
                write!(answer, " {key}:{value}")?;
            }
        }
        Ok(())
    }

    fn tell_nodes(&self, answer: &mut String) -> Result<(), Stop> {
        for node in self.map.iter_nodes() {
            tell_node(answer, node.iter().as_slice())?;
        }
        Ok(())
    }
}

impl<K: Item, V: Value, N: NodeLike<Pair<K, V>>, M: Maker<Pair<K, V>, N>> Subject
    for Maps<K, V, N, M> {
    fn call(
        &mut self,
        name: &str,
        words: &mut SplitWhitespace<'_>,
        answer: &mut String,
    ) -> Result<(), Stop> {
        self.edit(name, words, answer)
    }
}

impl<K: Item, V: Value, N: NodeLike<Pair<K, V>>, M: Maker<Pair<K, V>, N>> Swept
    for Maps<K, V, N, M> {
    fn make(alloc: Global, size: usize) -> Result<Self, Stop> {
        if size < 2 || N::limit() < size {
            return Err(Stop::NoCall);
        }
        Ok(Maps {
            source: Source::new(alloc)?,
            map: BTreeMap::with_maximum_node_size(alloc, size),
            copy: Copy::new(alloc),
            partial: Partial::new(alloc),
            maker: PhantomData,
        })
    }

    fn show(&self, text: &mut String) -> Result<(), Stop> {
        let (len, next) = (self.map.len(), self.map.events_issued());
        write!(text, "{len} at {next}:")?;
        self.tell_nodes(text)?;
        self.copy.show(text)?;
        self.partial.show(text)
    }

    fn part(
        &mut self,
        name: &str,
        words: &mut SplitWhitespace<'_>,
        number: usize,
    ) -> Result<bool, Stop> {
        let Maps {
            source,
            map,
            copy,
            partial,
            ..
        } = self;
        match name {
            "run" => run_part(source, map, copy, partial, words, number),
            _ => copy.part(source, name, words),
        }
    }
}

impl<K: Item, V: Value, N: NodeLike<Pair<K, V>>, M: Maker<Pair<K, V>, N>> Metering
    for Maps<K, V, N, M> {
    fn meter(&self) -> &Meter {
        &self.source.meter
    }
}
