//! Plays scripts on the subjects that they name, and checks calls whose allocation fails.
//!
//! The first statement of a script is `make SUBJECT SIZES..`. The others are played once for each
//! node size, on a new subject. A statement is a call, its words, and after `->` the words of its
//! answer; a call without an answer has no `->`. `;` separates the statements of a line. A line
//! that begins with `each 0..4:` is played for each number from 0 to 3, and with `each 4..0:` for
//! each from 3 down to 0; `@` in its statements is the number. A word `0..4` or `4..0` is these
//! numbers. A line that begins with `#` is a title. A statement that begins with `bare` is a call
//! that must not allocate.
//!
//! In a sweep one allocation fails. If a call of the library fails, the script is played again up
//! to that call on a new subject, and both subjects must be in the same state. For a call that may
//! complete a prefix of its work, the parts of that prefix are done on the new subject first. Then
//! the call is made again, and the script continues with the same answers. If statements `leaves
//! STATE` precede the call, it must leave one of these states.

use crate::script::{Stop, Subject, range};
use crate::texts::Texts;
use indexset_core::refusal::Refusal;
use std::alloc::{AllocError, Global};
use std::fmt::Display;
use std::str::SplitWhitespace;

/// A subject that is made for each node size, and whose state can be written.
pub trait Swept: Subject + Drop {
    /// Returns an empty subject with at most `size` items in a node.
    fn make(alloc: Global, size: usize) -> Result<Self, Stop>;

    /// Writes the whole state.
    fn show(&self, text: &mut String) -> Result<(), Stop>;

    /// Does one part, by its number, of a call that may complete a prefix of its work.
    ///
    /// Returns whether there is such a part.
    fn part(
        &mut self,
        name: &str,
        words: &mut SplitWhitespace<'_>,
        number: usize,
    ) -> Result<bool, Stop>;
}

/// The reason why a script was not played to its end.
#[derive(Drop)]
pub enum Fault {
    /// An allocation of the player failed.
    Memory,
    /// A statement had another answer, or a failed call left another state. The text describes it.
    Otherwise(String),
}

impl From<AllocError> for Fault {
    fn from(_: AllocError) -> Fault {
        Fault::Memory
    }
}

/// A script: its subject, its node sizes, and its statements, each after its line number.
#[derive(Drop)]
pub struct Script {
    alloc: Global,
    is_swept: bool,
    subject: String,
    sizes: Vec<usize>,
    statements: String,
}

// Writes the statements of a line, each after the line number, with a number for each `@`.
fn fill<D: Display>(
    statements: &mut String,
    number: usize,
    line: &str,
    each: &D,
) -> Result<(), AllocError> {
    for statement in line.split(';') {
        if !statement.trim().is_empty() {
            write!(statements, "{number} ")?;
            write_filled(statements, statement, each)?;
        }
    }
    Ok(())
}

fn write_filled<D: Display>(
    statements: &mut String,
    statement: &str,
    each: &D,
) -> Result<(), AllocError> {
    let mut pieces = statement.split('@');
    if let Some(first) = pieces.next() {
        statements.push_str(first)?;
    }
    for piece in pieces {
        write!(statements, "{each}{piece}")?;
    }
    statements.push_str("\n")
}

// Writes the statements of a line, for each number of its range.
fn expand(statements: &mut String, number: usize, line: &str) -> Result<(), Stop> {
    let each = line
        .strip_prefix("each ")
        .and_then(|rest| rest.split_once(':'));
    let Some((numbers, rest)) = each else {
        return Ok(fill(statements, number, line, &'@')?);
    };
    let (from, to) = range(numbers).ok_or(Stop::Word)?;
    for each in (from..to).chain((to..from).rev()) {
        fill(statements, number, rest, &each)?;
    }
    Ok(())
}

// Returns the state of a subject.
fn shown<S: Swept>(alloc: Global, subject: &S) -> Result<String, Stop> {
    let mut text = String::new(alloc);
    subject.show(&mut text)?;
    Ok(text)
}

// Returns a new subject. If the allocation fails, it is tried a second time.
fn made<S: Swept>(alloc: Global, size: usize) -> Result<(S, bool), Stop> {
    match S::make(alloc, size) {
        Ok(subject) => Ok((subject, false)),
        Err(Stop::Refused(Refusal::Memory)) => Ok((S::make(alloc, size)?, true)),
        Err(stop) => Err(stop),
    }
}

// Returns the fault of a line that cannot be read.
fn unread(alloc: Global, number: usize, stop: Stop) -> Fault {
    if let Stop::Memory = stop {
        return Fault::Memory;
    }
    let text = format!(in alloc; "line {number} can't be read");
    text.map_or(Fault::Memory, Fault::Otherwise)
}

impl Script {
    /// Reads a script.
    pub fn read(alloc: Global, text: &str, is_swept: bool) -> Result<Script, Fault> {
        let mut script = Script {
            alloc,
            is_swept,
            subject: String::new(alloc),
            sizes: Vec::new(alloc),
            statements: String::new(alloc),
        };
        for (place, line) in text.lines().enumerate() {
            let number = place.saturating_add(1);
            if let Err(stop) = script.take_line(number, line) {
                return Err(unread(alloc, number, stop));
            }
        }
        if script.sizes.is_empty() {
            return Err(unread(alloc, 1, Stop::Word));
        }
        Ok(script)
    }

    // Adds a line: the subject and the node sizes, or statements.
    fn take_line(&mut self, number: usize, line: &str) -> Result<(), Stop> {
        if line.starts_with('#') {
            return Ok(());
        }
        match line.strip_prefix("make ") {
            Some(words) => self.name(words),
            None => expand(&mut self.statements, number, line),
        }
    }

    // Sets the subject and the node sizes.
    fn name(&mut self, words: &str) -> Result<(), Stop> {
        let mut words = words.split_whitespace();
        self.subject.push_str(words.next().unwrap_or(""))?;
        for word in words {
            let size = word.parse().map_err(|_| Stop::Word)?;
            self.sizes.push(size)?;
        }
        Ok(())
    }

    /// Returns the name of the subject.
    pub fn subject(&self) -> &str {
        self.subject.as_str()
    }

    /// Plays the script once for each node size. Returns whether an allocation of a call failed.
    pub fn play<S: Swept>(&self) -> Result<bool, Fault> {
        let mut is_refused = false;
        for size in &self.sizes {
            if self.play_at::<S>(*size)? {
                is_refused = true;
            }
        }
        Ok(is_refused)
    }

    // Plays the script on a subject of a node size.
    fn play_at<S: Swept>(&self, size: usize) -> Result<bool, Fault> {
        let (mut subject, mut is_refused) = match made::<S>(self.alloc, size) {
            Ok(made) => made,
            Err(stop) => return Err(self.fault(size, "", stop)),
        };
        let mut texts = Texts::new(self.alloc);
        for (count, line) in self.statements.lines().enumerate() {
            if self.play_line(&mut subject, &mut texts, size, count, line)? {
                is_refused = true;
            }
        }
        Ok(is_refused)
    }

    // Plays a statement after its line number. Returns whether an allocation of its call failed.
    fn play_line<S: Swept>(
        &self,
        subject: &mut S,
        texts: &mut Texts,
        size: usize,
        count: usize,
        line: &str,
    ) -> Result<bool, Fault> {
        let is_refused = match self.play_call(subject, texts, size, count, line) {
            Ok(is_refused) => is_refused,
            Err(stop) => return Err(self.fault(size, line, stop)),
        };
        if texts.is_expected() {
            Ok(is_refused)
        } else {
            Err(self.differs(size, line, texts))
        }
    }

    // Makes the call of a statement. If an allocation fails, checks the state that it left, and
    // makes the call again.
    fn play_call<S: Swept>(
        &self,
        subject: &mut S,
        texts: &mut Texts,
        size: usize,
        count: usize,
        line: &str,
    ) -> Result<bool, Stop> {
        let (_, statement) = line.split_once(' ').unwrap_or(("", line));
        texts.read(statement)?;
        if texts.take_state()? {
            return Ok(false);
        }
        let is_refused = texts.perform(subject)? && self.may_refuse(texts);
        if is_refused {
            if !self.is_left(subject, texts, size, count)? {
                return Err(Stop::Otherwise);
            }
            texts.perform(subject)?;
        }
        texts.forget_states();
        Ok(is_refused)
    }

    // Returns whether an allocation of the call of a statement may fail.
    fn may_refuse(&self, texts: &Texts) -> bool {
        self.is_swept && !texts.call.trim().starts_with("bare ") && !texts.is_expected()
    }

    // Returns whether a failed call left one of the named states. If none is named, it must have
    // changed nothing, or completed a prefix of its work.
    fn is_left<S: Swept>(
        &self,
        subject: &S,
        texts: &Texts,
        size: usize,
        count: usize,
    ) -> Result<bool, Stop> {
        let left = shown(self.alloc, subject)?;
        if texts.has_states() {
            return Ok(texts.is_named(left.as_str()));
        }
        let mut fresh: S = self.replay(size, count)?;
        for number in 0..usize::MAX {
            let is_same = shown(self.alloc, &fresh)?.as_str() == left.as_str();
            let is_more = texts.part(&mut fresh, number)?;
            if is_same {
                return Ok(is_more || number == 0);
            }
            if !is_more {
                return Ok(false);
            }
        }
        Ok(false)
    }

    // Returns a subject after the first `count` statements.
    fn replay<S: Swept>(&self, size: usize, count: usize) -> Result<S, Stop> {
        let mut subject = S::make(self.alloc, size)?;
        let mut texts = Texts::new(self.alloc);
        for line in self.statements.lines().take(count) {
            let (_, statement) = line.split_once(' ').unwrap_or(("", line));
            texts.read(statement)?;
            if !texts.take_state()? {
                texts.perform(&mut subject)?;
            }
        }
        Ok(subject)
    }

    // Returns the fault of a statement that could not be played.
    fn fault(&self, size: usize, line: &str, stop: Stop) -> Fault {
        if let Stop::Memory = stop {
            return Fault::Memory;
        }
        let (number, statement) = line.split_once(' ').unwrap_or(("0", line));
        let text = format!(in self.alloc;
            "line {number}, nodes of {size}: {}\nstopped: {stop:?}",
            statement.trim()
        );
        text.map_or(Fault::Memory, Fault::Otherwise)
    }

    // Returns the fault of a statement that had another answer.
    fn differs(&self, size: usize, line: &str, texts: &Texts) -> Fault {
        let (number, statement) = line.split_once(' ').unwrap_or(("0", line));
        let text = format!(in self.alloc;
            "line {number}, nodes of {size}: {}\nexpected:{}\nanswered:{}",
            statement.trim(),
            texts.expected,
            texts.answer
        );
        text.map_or(Fault::Memory, Fault::Otherwise)
    }
}
