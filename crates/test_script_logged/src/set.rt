//! Scripts of the logged set.

mod positions;
mod reads;

use crate::brief::Metering;
use crate::copy::Copy;
use crate::item::{Item, Source, read_items};
use crate::meter::Meter;
use crate::node::{
    Maker, given_back, node_back, node_text, nodes_back, nodes_text, read_node, read_nodes,
};
use crate::partial::Partial;
use crate::run::{run, run_part};
use crate::trees::place_of;
use indexset_core::constants::DEFAULT_INNER_SIZE;
use indexset_core::node::NodeLike;
use indexset_log::set::BTreeSet;
use std::alloc::Global;
use std::marker::PhantomData;
use std::str::SplitWhitespace;
use test_script::player::Swept;
use test_script::script::{Stop, Subject, read, tell, tell_option};

/// A logged set, and a replica that follows it.
#[derive(Drop)]
pub struct Sets<T: Item, N: NodeLike<T>, M: Maker<T, N>> {
    pub source: Source,
    size: usize,
    pub set: BTreeSet<T, N>,
    pub copy: Copy<T>,
    partial: Partial,
    maker: PhantomData<M>,
}

impl<T: Item, N: NodeLike<T>, M: Maker<T, N>> Sets<T, N, M> {
    /// Replaces the set.
    pub fn replace(&mut self, set: BTreeSet<T, N>) {
        self.set = set;
        self.copy = Copy::new(self.source.alloc);
    }

    /// Replaces the set by an empty set with the number of its next event.
    fn start(&mut self, words: &mut SplitWhitespace<'_>) -> Result<(), Stop> {
        let (size, next) = (read(words)?, read(words)?);
        if size < 2 || N::limit() < size {
            return Err(Stop::NoCall);
        }
        self.replace(BTreeSet::starting_at(self.source.alloc, size, next));
        Ok(())
    }

    /// Replaces the set by one with a node size and the items of the remaining words. Without words
    /// the set is empty, with the node size of the script.
    fn fill(&mut self, words: &mut SplitWhitespace<'_>) -> Result<(), Stop> {
        let size = match words.next() {
            Some(word) => word.parse().map_err(|_| Stop::Word)?,
            None => self.size,
        };
        if size < 2 || N::limit() < size {
            return Err(Stop::NoCall);
        }
        let items = read_items(&self.source, words)?;
        let mut set = BTreeSet::with_maximum_node_size(self.source.alloc, size);
        for item in items {
            set.insert(item)?;
        }
        self.replace(set);
        Ok(())
    }

    /// Replaces the set by an empty set of the default node size.
    fn start_anew(&mut self, name: &str) -> Result<(), Stop> {
        if N::limit() < DEFAULT_INNER_SIZE {
            return Err(Stop::NoCall);
        }
        if name == "new" {
            self.replace(BTreeSet::new(self.source.alloc));
        } else {
            self.replace(BTreeSet::default(self.source.alloc));
        }
        Ok(())
    }

    /// Replaces the set by one that is made of nodes.
    fn make_of_nodes(
        &mut self,
        words: &mut SplitWhitespace<'_>,
        answer: &mut String,
    ) -> Result<(), Stop> {
        let alloc = self.source.alloc;
        let (size, next) = (read(words)?, read(words)?);
        if size < 2 || N::limit() < size {
            return Err(Stop::NoCall);
        }
        let nodes = read_nodes::<T, N, M>(&self.source, words)?;
        let given = nodes_text::<T, N>(alloc, nodes.as_slice())?;
        let made = BTreeSet::from_nodes(nodes, size, next);
        let set = nodes_back::<BTreeSet<T, N>, T, N>(alloc, answer, given.as_str(), made)?;
        self.replace(set);
        Ok(())
    }

    fn attach(&mut self, words: &mut SplitWhitespace<'_>, answer: &mut String) -> Result<(), Stop> {
        let alloc = self.source.alloc;
        let node = read_node::<T, N, M>(&self.source, words)?;
        let given = node_text::<T, N>(alloc, &node)?;
        let attached = self.set.attach_node(node);
        node_back::<T, N>(alloc, answer, given.as_str(), attached)
    }

    fn edit(
        &mut self,
        name: &str,
        words: &mut SplitWhitespace<'_>,
        answer: &mut String,
    ) -> Result<(), Stop> {
        match name {
            "new" | "default" => self.start_anew(name),
            "set" => self.fill(words),
            "starting_at" => self.start(words),
            "from_nodes" => self.make_of_nodes(words, answer),
            "attach_node" => self.attach(words, answer),
            "insert" | "put" | "put_cdc" | "put_cdc_checked" => self.put(name, words, answer),
            "remove" | "remove_cdc" => self.remove(name, words, answer),
            "remove_at" | "remove_at_cdc" => self.remove_at(name, words, answer),
            "pop_first" | "pop_last" | "pop_first_cdc" | "pop_last_cdc" => self.pop(name, answer),
            "run" => self.run(words, answer),
            _ => self.look(name, words, answer),
        }
    }

    fn put(
        &mut self,
        name: &str,
        words: &mut SplitWhitespace<'_>,
        answer: &mut String,
    ) -> Result<(), Stop> {
        let alloc = self.source.alloc;
        let item = T::read_item(&self.source, words)?;
        let given = format!(in alloc; "{item}")?;
        let given = given.as_str();
        match name {
            "insert" => {
                let is_new = given_back(alloc, answer, given, self.set.insert(item))?;
                tell(answer, is_new)
            }
            "put" => {
                let old = given_back(alloc, answer, given, self.set.put(item))?;
                tell_option(answer, old)
            }
            "put_cdc" => {
                let put = given_back(alloc, answer, given, self.set.put_cdc(item))?;
                self.copy.tell_cdc(answer, put)
            }
            _ => {
                let put = given_back(alloc, answer, given, self.set.put_cdc_checked(item))?;
                self.copy.tell_checked(answer, put)
            }
        }
    }

    fn remove(
        &mut self,
        name: &str,
        words: &mut SplitWhitespace<'_>,
        answer: &mut String,
    ) -> Result<(), Stop> {
        let item = T::read_item(&self.source, words)?;
        if name == "remove" {
            return tell_option(answer, self.set.remove(&item)?);
        }
        let removed = self.set.remove_cdc(&item)?;
        self.copy.tell_cdc(answer, removed)
    }

    /// Removes a present item by its place.
    fn remove_at(
        &mut self,
        name: &str,
        words: &mut SplitWhitespace<'_>,
        answer: &mut String,
    ) -> Result<(), Stop> {
        let item = T::read_item(&self.source, words)?;
        let Ok((node, offset)) = place_of(&self.set, &item) else {
            return Err(Stop::NoCall);
        };
        if name == "remove_at" {
            return tell(answer, self.set.remove_at(node, offset)?);
        }
        let (item, events) = self.set.remove_at_cdc(node, offset)?;
        self.copy.tell_cdc(answer, (Some(item), events))
    }

    fn pop(&mut self, name: &str, answer: &mut String) -> Result<(), Stop> {
        match name {
            "pop_first" => tell_option(answer, self.set.pop_first()?),
            "pop_last" => tell_option(answer, self.set.pop_last()?),
            "pop_first_cdc" => {
                let popped = self.set.pop_first_cdc()?;
                self.copy.tell_cdc(answer, popped)
            }
            _ => {
                let popped = self.set.pop_last_cdc()?;
                self.copy.tell_cdc(answer, popped)
            }
        }
    }

    fn run(&mut self, words: &mut SplitWhitespace<'_>, answer: &mut String) -> Result<(), Stop> {
        let Sets {
            source,
            set,
            copy,
            partial,
            ..
        } = self;
        run(source, set, copy, partial, words, answer)
    }
}

impl<T: Item, N: NodeLike<T>, M: Maker<T, N>> Subject for Sets<T, N, M> {
    fn call(
        &mut self,
        name: &str,
        words: &mut SplitWhitespace<'_>,
        answer: &mut String,
    ) -> Result<(), Stop> {
        self.edit(name, words, answer)
    }
}

impl<T: Item, N: NodeLike<T>, M: Maker<T, N>> Swept for Sets<T, N, M> {
    fn make(alloc: Global, size: usize) -> Result<Self, Stop> {
        if size < 2 || N::limit() < size {
            return Err(Stop::NoCall);
        }
        Ok(Sets {
            source: Source::new(alloc)?,
            size,
            set: BTreeSet::with_maximum_node_size(alloc, size),
            copy: Copy::new(alloc),
            partial: Partial::new(alloc),
            maker: PhantomData,
        })
    }

    fn show(&self, text: &mut String) -> Result<(), Stop> {
        let (size, next) = (self.set.maximum_node_size(), self.set.events_issued());
        write!(text, "{} of {size} at {next}:", self.set.len())?;
        self.tell_nodes(text)?;
        self.copy.show(text)?;
        self.partial.show(text)
    }

    fn part(
        &mut self,
        name: &str,
        words: &mut SplitWhitespace<'_>,
        number: usize,
    ) -> Result<bool, Stop> {
        let Sets {
            source,
            set,
            copy,
            partial,
            ..
        } = self;
        match name {
            "run" => run_part(source, set, copy, partial, words, number),
            _ => copy.part(source, name, words),
        }
    }
}

impl<T: Item, N: NodeLike<T>, M: Maker<T, N>> Metering for Sets<T, N, M> {
    fn meter(&self) -> &Meter {
        &self.source.meter
    }
}
