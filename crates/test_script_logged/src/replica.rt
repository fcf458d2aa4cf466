//! Scripts of the replica.

use crate::brief::Metering;
use crate::event::read_event;
use crate::item::{Item, Source};
use crate::meter::Meter;
use crate::node::{
    Whole, node_back, node_text, nodes_back, nodes_text, read_node, read_nodes, tell_nodes,
};
use crate::order::{deliver, deliver_part};
use crate::partial::Partial;
use crate::seek::{Keyed, seek, seek_by};
use crate::text::tell_text;
use indexset_events::change::ChangeEvent;
use indexset_replica::Replica;
use std::alloc::Global;
use std::marker::PhantomData;
use std::str::SplitWhitespace;
use test_script::player::Swept;
use test_script::script::{Stop, Subject, read, tell, tell_option};

/// A replica that is read by items and by keys, and events that may be delivered to it in any
/// order.
#[derive(Drop)]
pub struct Replicas<T: Item, Q: Keyed<T>> {
    source: Source,
    replica: Replica<T>,
    events: Vec<ChangeEvent<T>>,
    partial: Partial,
    key: PhantomData<Q>,
}

impl<T: Item, Q: Keyed<T>> Replicas<T, Q> {
    fn attach(&mut self, words: &mut SplitWhitespace<'_>, answer: &mut String) -> Result<(), Stop> {
        let alloc = self.source.alloc;
        let node = read_node::<T, Vec<T>, Whole>(&self.source, words)?;
        let given = node_text::<T, Vec<T>>(alloc, &node)?;
        let attached = self.replica.attach(node);
        node_back::<T, Vec<T>>(alloc, answer, given.as_str(), attached)
    }

    fn make_of_nodes(
        &mut self,
        words: &mut SplitWhitespace<'_>,
        answer: &mut String,
    ) -> Result<(), Stop> {
        let alloc = self.source.alloc;
        let next = read(words)?;
        let nodes = read_nodes::<T, Vec<T>, Whole>(&self.source, words)?;
        let given = nodes_text::<T, Vec<T>>(alloc, nodes.as_slice())?;
        let made = Replica::from_nodes(nodes, next);
        self.replica = nodes_back::<Replica<T>, T, Vec<T>>(alloc, answer, given.as_str(), made)?;
        Ok(())
    }

    fn start(&mut self, words: &mut SplitWhitespace<'_>) -> Result<(), Stop> {
        self.replica = Replica::new(self.source.alloc, read(words)?);
        Ok(())
    }

    fn apply(&mut self, words: &mut SplitWhitespace<'_>) -> Result<(), Stop> {
        let event = read_event(&self.source, words)?;
        Ok(self.replica.apply(&event)?)
    }

    fn offer(&mut self, words: &mut SplitWhitespace<'_>, answer: &mut String) -> Result<(), Stop> {
        let event = read_event(&self.source, words)?;
        let delivery = self.replica.offer(&event)?;
        Ok(write!(answer, " {delivery:?}")?)
    }

    /// Stores an event to be delivered.
    fn keep(&mut self, words: &mut SplitWhitespace<'_>) -> Result<(), Stop> {
        self.events.push(read_event(&self.source, words)?)?;
        Ok(())
    }

    fn follow(&mut self, words: &mut SplitWhitespace<'_>) -> Result<(), Stop> {
        let Replicas {
            source,
            replica,
            events,
            partial,
            ..
        } = self;
        deliver(source.alloc, replica, events.as_slice(), partial, words)
    }

    fn look(
        &self,
        name: &str,
        words: &mut SplitWhitespace<'_>,
        answer: &mut String,
    ) -> Result<(), Stop> {
        match name {
            "nodes" => tell_nodes(answer, self.replica.nodes()),
            "text" => tell_text(self.source.alloc, answer, &self.replica),
            "next" => tell(answer, self.replica.next()),
            "len" => tell(answer, self.replica.len()),
            "is_empty" => tell(answer, self.replica.is_empty()),
            "first" => tell_option(answer, self.replica.first()),
            "last" => tell_option(answer, self.replica.last()),
            "items" => self.tell_items(answer),
            "walk" => self.walk(words, answer),
            "by_key" => {
                let name = words.next().ok_or(Stop::Word)?;
                seek_by::<T, Q>(&self.replica, &self.source, name, words, answer)
            }
            _ => seek(&self.replica, &self.source, name, words, answer),
        }
    }

    fn tell_items(&self, answer: &mut String) -> Result<(), Stop> {
        for item in &self.replica {
            tell(answer, item)?;
        }
        Ok(())
    }

    fn walk(&self, words: &mut SplitWhitespace<'_>, answer: &mut String) -> Result<(), Stop> {
        let mut items = self.replica.iter();
        for word in words {
            match word {
                "next" => tell_option(answer, items.next())?,
                "next_back" => tell_option(answer, items.next_back())?,
                _ => return Err(Stop::Word),
            }
        }
        Ok(())
    }
}

impl<T: Item, Q: Keyed<T>> Subject for Replicas<T, Q> {
    fn call(
        &mut self,
        name: &str,
        words: &mut SplitWhitespace<'_>,
        answer: &mut String,
    ) -> Result<(), Stop> {
        match name {
            "new" => self.start(words),
            "from_nodes" => self.make_of_nodes(words, answer),
            "attach" => self.attach(words, answer),
            "apply" => self.apply(words),
            "offer" => self.offer(words, answer),
            "event" => self.keep(words),
            "follow" => self.follow(words),
            _ => self.look(name, words, answer),
        }
    }
}

impl<T: Item, Q: Keyed<T>> Swept for Replicas<T, Q> {
    fn make(alloc: Global, _size: usize) -> Result<Self, Stop> {
        Ok(Replicas {
            source: Source::new(alloc)?,
            replica: Replica::new(alloc, 0),
            events: Vec::new(alloc),
            partial: Partial::new(alloc),
            key: PhantomData,
        })
    }

    fn show(&self, text: &mut String) -> Result<(), Stop> {
        write!(text, "at {}:", self.replica.next())?;
        tell_nodes(text, self.replica.nodes())?;
        self.partial.show(text)
    }

    fn part(
        &mut self,
        name: &str,
        words: &mut SplitWhitespace<'_>,
        _number: usize,
    ) -> Result<bool, Stop> {
        let Replicas {
            source,
            replica,
            events,
            partial,
            ..
        } = self;
        match name {
            "follow" => deliver_part(source.alloc, replica, events.as_slice(), partial, words),
            _ => Ok(false),
        }
    }
}

impl<T: Item, Q: Keyed<T>> Metering for Replicas<T, Q> {
    fn meter(&self) -> &Meter {
        &self.source.meter
    }
}
