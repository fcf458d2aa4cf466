//! Events that calls return, and a replica that follows them.

use crate::event::tell_events;
use crate::item::{Item, Source};
use crate::node::{Whole, read_nodes, tell_nodes};
use crate::order::{deliver, deliver_part};
use crate::partial::Partial;
use crate::seek::seek;
use indexset_core::node::NodeLike;
use indexset_events::change::ChangeEvent;
use indexset_log::set::nodes::Nodes;
use indexset_replica::Replica;
use std::alloc::Global;
use std::fmt::Display;
use std::mem;
use std::str::SplitWhitespace;
use test_script::script::{Stop, read, tell, tell_option};

/// Returns whether these are the same items.
fn are_same<T: Item>(items: &[T], others: &[T]) -> bool {
    items.len() == others.len()
        && items
            .iter()
            .zip(others)
            .all(|(item, other)| item.is_same(other))
}

/// A replica, its events, and how many of them it has applied.
#[derive(Drop)]
pub struct Copy<T: Item> {
    replica: Replica<T>,
    told: Vec<ChangeEvent<T>>,
    followed: usize,
    partial: Partial,
}

impl<T: Item> Copy<T> {
    /// Returns an empty replica, without events.
    pub fn new(alloc: Global) -> Self {
        Copy {
            replica: Replica::new(alloc, 0),
            told: Vec::new(alloc),
            followed: 0,
            partial: Partial::new(alloc),
        }
    }

    /// Writes the events of a call, each after a comma, and stores them for the replica.
    pub fn tell_events(
        &mut self,
        answer: &mut String,
        mut events: Vec<ChangeEvent<T>>,
    ) -> Result<(), Stop> {
        tell_events(answer, events.as_slice())?;
        self.told.append(&mut events)?;
        Ok(())
    }

    /// Writes the answer of a call, or `none`, and its events.
    pub fn tell_cdc<D: Display + Drop>(
        &mut self,
        answer: &mut String,
        (value, events): (Option<D>, Vec<ChangeEvent<T>>),
    ) -> Result<(), Stop> {
        tell_option(answer, value)?;
        self.tell_events(answer, events)
    }

    /// Writes the answer of a call that does nothing if the item is present.
    pub fn tell_checked(
        &mut self,
        answer: &mut String,
        events: Option<Vec<ChangeEvent<T>>>,
    ) -> Result<(), Stop> {
        match events {
            Some(events) => self.tell_cdc(answer, (Some("some"), events)),
            None => tell(answer, "none"),
        }
    }

    /// Applies the next stored event. Returns whether there was one.
    fn follow_next(&mut self) -> Result<bool, Stop> {
        let Some(event) = self.told.get(self.followed) else {
            return Ok(false);
        };
        self.replica.apply(event)?;
        self.followed = self.followed.saturating_add(1);
        Ok(true)
    }

    /// Applies the stored events.
    fn follow_all(&mut self) -> Result<(), Stop> {
        for _ in self.followed..self.told.len() {
            self.follow_next()?;
        }
        Ok(())
    }

    /// Applies the stored events, and writes the nodes.
    fn follow(&mut self, answer: &mut String) -> Result<(), Stop> {
        self.follow_all()?;
        tell_nodes(answer, self.replica.nodes())
    }

    /// Applies the stored events. Returns whether the replica then has these nodes.
    pub fn is_followed<N: NodeLike<T>>(&mut self, nodes: Nodes<'_, N>) -> Result<bool, Stop> {
        self.follow_all()?;
        let copies = self.replica.nodes();
        let is_same = nodes.len() == copies.len()
            && nodes.zip(copies).all(|(node, copy)| are_same(
                node.iter().as_slice(),
                copy.as_slice(),
            ));
        Ok(is_same)
    }

    /// Makes the replica one of the nodes of the words.
    fn start(&mut self, source: &Source, words: &mut SplitWhitespace<'_>) -> Result<(), Stop> {
        let next = read(words)?;
        let nodes = read_nodes::<T, Vec<T>, Whole>(source, words)?;
        self.begin(nodes, next)
    }

    /// Makes the replica one of these nodes, such as those that were moved out of it.
    pub fn begin(&mut self, nodes: Vec<Vec<T>>, next: u64) -> Result<(), Stop> {
        self.replica = Replica::from_nodes(nodes, next)?;
        Ok(())
    }

    /// Moves the nodes out of the replica, and returns them with the awaited number.
    pub fn take(&mut self, alloc: Global) -> (Vec<Vec<T>>, u64) {
        let next = self.replica.next();
        let replica = mem::replace(&mut self.replica, Replica::new(alloc, 0));
        (replica.into_nodes(), next)
    }

    /// Makes a call that reads the replica.
    fn look(
        &self,
        source: &Source,
        name: &str,
        words: &mut SplitWhitespace<'_>,
        answer: &mut String,
    ) -> Result<(), Stop> {
        match name.strip_prefix("copy_") {
            Some(name) => seek(&self.replica, source, name, words, answer),
            None => Err(Stop::NoCall),
        }
    }

    /// Makes a call of the replica.
    pub fn call(
        &mut self,
        source: &Source,
        name: &str,
        words: &mut SplitWhitespace<'_>,
        answer: &mut String,
    ) -> Result<(), Stop> {
        match name {
            "replica" => self.start(source, words),
            "follow" => self.follow(answer),
            "copy" => tell_nodes(answer, self.replica.nodes()),
            "next" => tell(answer, self.replica.next()),
            "events" => tell(answer, self.told.len()),
            "deliver" => {
                let Copy {
                    replica,
                    told,
                    partial,
                    ..
                } = self;
                deliver(source.alloc, replica, told.as_slice(), partial, words)
            }
            _ => self.look(source, name, words, answer),
        }
    }

    /// Does a part of a call of the replica.
    pub fn part(
        &mut self,
        source: &Source,
        name: &str,
        words: &mut SplitWhitespace<'_>,
    ) -> Result<bool, Stop> {
        match name {
            "follow" | "is_followed" => self.follow_next(),
            "deliver" => {
                let Copy {
                    replica,
                    told,
                    partial,
                    ..
                } = self;
                deliver_part(source.alloc, replica, told.as_slice(), partial, words)
            }
            _ => Ok(false),
        }
    }

    /// Writes the state.
    pub fn show(&self, text: &mut String) -> Result<(), Stop> {
        tell_nodes(text, self.replica.nodes())?;
        let Copy { told, followed, .. } = self;
        write!(
            text,
            " next {} of {} at {followed}",
            self.replica.next(),
            told.len()
        )?;
        self.partial.show(text)
    }
}
