//! The texts of a statement: its call, its expected answer, and the states that a failed call may
//! leave.

use crate::player::Swept;
use crate::script::{Stop, Subject, spell};
use indexset_core::refusal::Refusal;
use std::alloc::{AllocError, Global};
use std::str::SplitWhitespace;

/// The words of a statement, and its answer.
#[derive(Drop)]
pub struct Texts {
    pub call: String,
    pub expected: String,
    pub answer: String,
    // The states that the next call may leave if it fails, one in each line.
    states: String,
}

// The words, with the numbers of each range.
fn spell_all(text: &mut String, words: &str) -> Result<(), AllocError> {
    text.clear();
    if !words.contains('.') {
        return text.push_str(words);
    }
    for word in words.split_whitespace() {
        spell(text, word)?;
    }
    Ok(())
}

impl Texts {
    /// Returns the texts of no statement.
    pub fn new(alloc: Global) -> Texts {
        Texts {
            call: String::new(alloc),
            expected: String::new(alloc),
            answer: String::new(alloc),
            states: String::new(alloc),
        }
    }

    /// Sets the words of a statement.
    pub fn read(&mut self, statement: &str) -> Result<(), AllocError> {
        let (call, expected) = statement.split_once("->").unwrap_or((statement, ""));
        spell_all(&mut self.call, call)?;
        spell_all(&mut self.expected, expected)
    }

    /// Adds a state that the next call may leave if it fails, if the statement names one.
    ///
    /// Returns whether it does.
    pub fn take_state(&mut self) -> Result<bool, AllocError> {
        let Some(state) = self.call.trim().strip_prefix("leaves ") else {
            return Ok(false);
        };
        writeln!(self.states, "{state}")?;
        self.answer.clear();
        Ok(true)
    }

    /// Removes the states, after their call is made.
    pub fn forget_states(&mut self) {
        self.states.clear();
    }

    /// Returns whether the states that the call may leave are named.
    pub fn has_states(&self) -> bool {
        !self.states.is_empty()
    }

    /// Returns whether a state is one of the named states.
    pub fn is_named(&self, state: &str) -> bool {
        for named in self.states.lines() {
            if named.split_whitespace().eq(state.split_whitespace()) {
                return true;
            }
        }
        false
    }

    /// Makes the call, and stores its answer. Returns whether an allocation of the call failed.
    pub fn perform<S: Subject>(&mut self, subject: &mut S) -> Result<bool, Stop> {
        self.answer.clear();
        let mut words = self.call.split_whitespace();
        let mut name = words.next().unwrap_or("");
        if name == "bare" {
            name = words.next().unwrap_or("");
        }
        match subject.call(name, &mut words, &mut self.answer) {
            Ok(()) if words.next().is_none() => Ok(false),
            Ok(()) => Err(Stop::Word),
            Err(Stop::Refused(cause)) => {
                write!(self.answer, " refused {cause:?}")?;
                Ok(cause == Refusal::Memory)
            }
            Err(stop) => Err(stop),
        }
    }

    /// Returns whether the call had the expected answer.
    pub fn is_expected(&self) -> bool {
        if self.answer.as_str() == self.expected.as_str() {
            return true;
        }
        let answer = self.answer.split_whitespace();
        answer.eq(self.expected.split_whitespace())
    }

    /// Does the part of the call that has this number.
    pub fn part<S: Swept>(&self, subject: &mut S, number: usize) -> Result<bool, Stop> {
        let mut words = self.call.split_whitespace();
        let name = words.next().unwrap_or("");
        subject.part(name, &mut words, number)
    }
}
