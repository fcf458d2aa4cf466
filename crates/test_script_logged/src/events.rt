//! Scripts of events.

use crate::event::read_event;
use crate::item::{Item, Source};
use indexset_events::change::ChangeEvent;
use std::alloc::Global;
use std::str::SplitWhitespace;
use test_script::player::Swept;
use test_script::script::{Stop, Subject, read, tell};

/// Events that are compared with one another.
#[derive(Drop)]
pub struct Events<T: Item> {
    source: Source,
    events: Vec<ChangeEvent<T>>,
}

impl<T: Item> Events<T> {
    fn keep(&mut self, words: &mut SplitWhitespace<'_>) -> Result<(), Stop> {
        let event = read_event(&self.source, words)?;
        Ok(self.events.push(event)?)
    }

    /// Writes whether each event equals the one at a place. `!=` must have the opposite result.
    fn compare(&self, words: &mut SplitWhitespace<'_>, answer: &mut String) -> Result<(), Stop> {
        let place: usize = read(words)?;
        let one = self.events.get(place).ok_or(Stop::NoCall)?;
        for event in &self.events {
            let is_equal = event == one;
            if (event != one) == is_equal {
                return Err(Stop::Otherwise);
            }
            tell(answer, is_equal)?;
        }
        Ok(())
    }
}

impl<T: Item> Subject for Events<T> {
    fn call(
        &mut self,
        name: &str,
        words: &mut SplitWhitespace<'_>,
        answer: &mut String,
    ) -> Result<(), Stop> {
        match name {
            "text" => tell(answer, read_event::<T>(&self.source, words)?),
            "event" => self.keep(words),
            "equals" => self.compare(words, answer),
            _ => Err(Stop::NoCall),
        }
    }
}

impl<T: Item> Swept for Events<T> {
    fn make(alloc: Global, _size: usize) -> Result<Self, Stop> {
        Ok(Events {
            source: Source::new(alloc)?,
            events: Vec::new(alloc),
        })
    }

    fn show(&self, text: &mut String) -> Result<(), Stop> {
        tell(text, self.events.len())
    }

    fn part(
        &mut self,
        _name: &str,
        _words: &mut SplitWhitespace<'_>,
        _number: usize,
    ) -> Result<bool, Stop> {
        Ok(false)
    }
}
