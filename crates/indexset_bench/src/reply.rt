//! The replies, and their texts.

ghost use Rattle.std.specs.Prelude.{Some};
ghost use Rattle.indexset_bench.specs.Reply.{reply_text};

use crate::key::Key;
use std::fmt;

/// The reply to a line.
#[derive(Clone, Copy, Debug, PartialEq, Eq, Drop)]
pub enum Reply<T> {
    New,
    Old,
    OldValue(T),
    Gone,
    GoneValue(T),
    Yes,
    No,
    Count(usize),
    Item(T),
    Nothing,
    Empty,
    Bad,
}

impl<T: Key> fmt::Display for Reply<T> {
    ghost output = { λ r. Some (reply_text T.texts r) };

    fn fmt<W: fmt::Write>(&self, f: &mut fmt::Formatter<W>) -> fmt::Result {
        match self {
            Reply::New => f.write_str("new"),
            Reply::Old => f.write_str("old"),
            Reply::OldValue(value) => write!(f, "old {value}"),
            Reply::Gone => f.write_str("gone"),
            Reply::GoneValue(value) => write!(f, "gone {value}"),
            Reply::Yes => f.write_str("yes"),
            Reply::No => f.write_str("no"),
            Reply::Count(n) => fmt::Display::fmt(n, f),
            Reply::Item(n) => fmt::Display::fmt(n, f),
            Reply::Nothing => f.write_str("none"),
            Reply::Empty => f.write_str("empty"),
            Reply::Bad => f.write_str("bad"),
        }
    }
}
