//! The progress of a refused call that completed a part of its work.

use indexset_core::refusal::Refusal;
use std::alloc::Global;
use test_script::script::Stop;

/// The progress of a call with these words before it was refused, and its answer so far. The same
/// call, made again, continues from there.
#[derive(Drop)]
pub struct Partial {
    call: String,
    pub count: usize,
    pub answer: String,
    pub events: String,
}

impl Partial {
    /// Returns no progress.
    pub fn new(alloc: Global) -> Partial {
        Partial {
            call: String::new(alloc),
            count: 0,
            answer: String::new(alloc),
            events: String::new(alloc),
        }
    }

    /// Continues the call if it is the refused one, and otherwise resets the progress.
    pub fn begin(&mut self, name: &str, words: &str) -> Result<(), Stop> {
        let call = format!(in *self.call.allocator(); "{name} {words}")?;
        if call.as_str() != self.call.as_str() {
            self.call = call;
            self.count = 0;
            self.answer.clear();
            self.events.clear();
        }
        Ok(())
    }

    /// Writes the answer so far.
    pub fn tell(&self, answer: &mut String) -> Result<(), Stop> {
        answer.push_str(self.answer.as_str())?;
        Ok(answer.push_str(self.events.as_str())?)
    }

    /// Writes the answer, and resets the progress.
    pub fn end(&mut self, answer: &mut String) -> Result<(), Stop> {
        self.tell(answer)?;
        self.call.clear();
        self.count = 0;
        self.answer.clear();
        self.events.clear();
        Ok(())
    }

    /// Writes the answer. Resets the progress, unless an allocation of the call failed.
    pub fn tell_end(&mut self, refused: Option<Refusal>, answer: &mut String) -> Result<(), Stop> {
        match refused {
            None => self.end(answer),
            Some(Refusal::Memory) => {
                self.tell(answer)?;
                Err(Stop::Refused(Refusal::Memory))
            }
            Some(cause) => {
                self.end(answer)?;
                Err(Stop::Refused(cause))
            }
        }
    }

    /// Writes the state.
    pub fn show(&self, text: &mut String) -> Result<(), Stop> {
        let Partial {
            count,
            answer,
            events,
            ..
        } = self;
        Ok(write!(text, " done {count}:{answer}{events}")?)
    }
}
