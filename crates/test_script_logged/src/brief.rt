//! Calls of the player, for any tree and for a replica.
//!
//! Before a call, `quietly` omits its events from the answer, `numbers` writes only their numbers,
//! and `count` how many there are. `snapshot` makes a replica of the tree's nodes, and `go_on 4` a
//! tree of node size 4. `within 17` before a call writes the number of its comparisons if it is
//! more than 17. `clones 2` limits the clones of items to two more.

use crate::meter::Meter;
use std::alloc::Global;
use std::str::SplitWhitespace;
use test_script::player::Swept;
use test_script::script::{Stop, Subject, read, tell};

/// A subject whose items share a meter.
pub trait Metering: Swept {
    /// The meter.
    fn meter(&self) -> &Meter;
}

/// A subject, with the calls of the player.
#[derive(Drop)]
pub struct Brief<S: Metering> {
    alloc: Global,
    subject: S,
}

impl<S: Metering> Brief<S> {
    /// Returns the answer of a call without words.
    fn answer_of(&mut self, name: &str) -> Result<String, Stop> {
        let mut answer = String::new(self.alloc);
        self.subject
            .call(name, &mut "".split_whitespace(), &mut answer)?;
        Ok(answer)
    }

    /// Makes a call, and writes its answer without the events.
    fn call_briefly(
        &mut self,
        events: &str,
        words: &mut SplitWhitespace<'_>,
        answer: &mut String,
    ) -> Result<(), Stop> {
        let name = words.next().ok_or(Stop::Word)?;
        let mut whole = String::new(self.alloc);
        self.subject.call(name, words, &mut whole)?;
        let mut parts = whole.split(", ");
        answer.push_str(parts.next().unwrap_or(""))?;
        let mut count = 0usize;
        for event in parts {
            count = count.saturating_add(1);
            if events == "numbers" {
                tell(answer, event.split_whitespace().next().unwrap_or(""))?;
            }
        }
        if events == "count" {
            tell(answer, count)?;
        }
        Ok(())
    }

    /// Makes a call with a size, if there is one, the number of the next event, and the current
    /// nodes.
    fn pass_on(&mut self, name: &str, size: &str, answer: &mut String) -> Result<(), Stop> {
        let next = self.answer_of("events_issued")?;
        let nodes = self.answer_of("nodes")?;
        let text = format!(in self.alloc; "{size} {next} {nodes}")?;
        self.subject
            .call(name, &mut text.split_whitespace(), answer)
    }

    /// Makes a call, and writes the number of its comparisons if it is too large.
    fn call_within(
        &mut self,
        words: &mut SplitWhitespace<'_>,
        answer: &mut String,
    ) -> Result<(), Stop> {
        let most: u64 = read(words)?;
        let name = words.next().ok_or(Stop::Word)?;
        self.subject.meter().asked.set(0);
        self.subject.call(name, words, answer)?;
        let asked = self.subject.meter().asked.get();
        if most < asked {
            write!(answer, " asked {asked}")?;
        }
        Ok(())
    }
}

impl<S: Metering> Subject for Brief<S> {
    fn call(
        &mut self,
        name: &str,
        words: &mut SplitWhitespace<'_>,
        answer: &mut String,
    ) -> Result<(), Stop> {
        match name {
            "quietly" | "numbers" | "count" => self.call_briefly(name, words, answer),
            "snapshot" => self.pass_on("replica", "", answer),
            "go_on" => {
                let size = words.next().ok_or(Stop::Word)?;
                self.pass_on("from_nodes", size, answer)
            }
            "within" => self.call_within(words, answer),
            "clones" => {
                let left = read(words)?;
                self.subject.meter().clones.set(left);
                Ok(())
            }
            _ => self.subject.call(name, words, answer),
        }
    }
}

impl<S: Metering> Swept for Brief<S> {
    fn make(alloc: Global, size: usize) -> Result<Self, Stop> {
        let subject = S::make(alloc, size)?;
        Ok(Brief { alloc, subject })
    }

    fn show(&self, text: &mut String) -> Result<(), Stop> {
        self.subject.show(text)
    }

    fn part(
        &mut self,
        name: &str,
        words: &mut SplitWhitespace<'_>,
        number: usize,
    ) -> Result<bool, Stop> {
        match name {
            "quietly" | "numbers" | "count" => {
                let name = words.next().ok_or(Stop::Word)?;
                self.subject.part(name, words, number)
            }
            _ => self.subject.part(name, words, number),
        }
    }
}
