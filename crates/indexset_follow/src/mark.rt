//! The first and the last line of a snapshot, and the `done` line.

ghost use Rattle.std.specs.Prelude.{◌≡◌, Some};
ghost use Rattle.indexset_follow.specs.Mark.{end_of, mark_line, mark_of, start_of, word_mark};

use crate::numbers::{Tail, read_two};
use indexset_wire::number::read_number;
use indexset_wire::parts::cut;
use std::fmt;

/// The first or the last line of a snapshot, or a `done` line.
#[derive(Clone, Copy, Debug, PartialEq, Eq)]
pub enum Mark {
    /// A snapshot starts: the number of its next event, and the greatest command number, or 0.
    Start(u64, u64),
    /// A snapshot ends: the number of its nodes, and its sum, which is optional.
    End(u64, Option<u64>),
    /// The greatest command number, and the number of the event after those of the commands.
    Done(u64, u64),
}

impl fmt::Display for Mark {
    ghost output = { λ mark. Some (mark_line mark) };

    fn fmt<W: fmt::Write>(&self, f: &mut fmt::Formatter<W>) -> fmt::Result {
        match self {
            Mark::Start(next, done) => {
                let tail = Tail(*done);
                write!(f, "start {next}{tail}")
            }
            Mark::End(count, None) => write!(f, "end {count}"),
            Mark::End(count, Some(sum)) => write!(f, "end {count} {sum}"),
            Mark::Done(done, next) => write!(f, "done {done} {next}"),
        }
    }
}

/// Returns the mark of a line, or `None` if it is not one.
pub fn read_mark(line: &[u8]) -> Option<Mark>
    ensures { result ≡ mark_of line.now }
{
    let (word, rest) = cut(line, b' ')?;
    read_word_mark(word, rest)
}

/// Returns the mark of a word and the text after it.
fn read_word_mark(word: &[u8], rest: &[u8]) -> Option<Mark>
    ensures { result ≡ word_mark word.now rest.now }
{
    if word == b"start".as_slice() {
        read_start(rest)
    } else if word == b"end".as_slice() {
        read_end(rest)
    } else if word == b"done".as_slice() {
        read_two(rest).map(|told| Mark::Done(told.0, told.1))
    } else {
        None
    }
}

/// Returns the start of a snapshot from one number, or from two of which the second is not 0.
fn read_start(text: &[u8]) -> Option<Mark>
    ensures { result ≡ start_of text.now }
{
    if let Some(next) = read_number(text) {
        return Some(Mark::Start(next, 0));
    }
    let (next, done) = read_two(text)?;
    if done == 0 {
        None
    } else {
        Some(Mark::Start(next, done))
    }
}

/// Returns the end of a snapshot from the number of its nodes, or from that and its sum.
fn read_end(text: &[u8]) -> Option<Mark>
    ensures { result ≡ end_of text.now }
{
    if let Some(count) = read_number(text) {
        return Some(Mark::End(count, None));
    }
    let (count, sum) = read_two(text)?;
    Some(Mark::End(count, Some(sum)))
}
