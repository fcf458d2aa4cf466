//! The replies, and their texts.

ghost use Rattle.std.specs.Prelude.{Some};
ghost use Rattle.indexset_follow.specs.Reply.{reply_text};

use crate::numbers::Tail;
use crate::reason::Reason;
use std::fmt;

/// A reply of one line.
#[derive(Clone, Copy, Debug, PartialEq, Eq)]
pub enum Reply {
    /// The event was applied. The number is that of the awaited event.
    Next(u64),
    /// The event was applied before. The number is that of the awaited event.
    Had(u64),
    /// Events are missing, from this number on.
    Gap(u64),
    /// The event is held. Events are missing from the first number on; the second is the least that
    /// is held.
    Missing(u64, u64),
    /// The event or the line of a snapshot does not fit. The number is that of the awaited event.
    Unfit(u64, Reason),
    /// The line of a snapshot was accepted.
    Held,
    /// The awaited number, the number of nodes, the sum, and the greatest command number.
    Sum(u64, u64, u64, u64),
    /// A count.
    Count(usize),
    /// No pair.
    Nothing,
    /// The line is not one of the grammar.
    Bad,
}

impl Reply {
    ghost use Rattle.std.specs.Prelude.{◌≡◌};
    ghost use Rattle.indexset_follow.specs.Reply.{is_urgent};

    /// Returns whether events are missing, or a line does not fit.
    pub fn is_urgent(self) -> bool
        ensures { result ≡ is_urgent self }
    {
        matches!(
            self,
            Reply::Gap(_) | Reply::Missing(_, _) | Reply::Unfit(_, _)
        )
    }
}

impl fmt::Display for Reply {
    ghost output = { λ r. Some (reply_text r) };

    fn fmt<W: fmt::Write>(&self, f: &mut fmt::Formatter<W>) -> fmt::Result {
        match self {
            Reply::Next(number) => write!(f, "next {number}"),
            Reply::Had(number) => write!(f, "had {number}"),
            Reply::Gap(number) => write!(f, "gap {number}"),
            Reply::Missing(number, first) => write!(f, "gap {number} {first}"),
            Reply::Unfit(number, reason) => write!(f, "unfit {number} {reason}"),
            Reply::Held => f.write_str("held"),
            Reply::Sum(next, count, sum, done) => {
                let tail = Tail(*done);
                write!(f, "sum {next} {count} {sum}{tail}")
            }
            Reply::Count(count) => fmt::Display::fmt(count, f),
            Reply::Nothing => f.write_str("none"),
            Reply::Bad => f.write_str("bad"),
        }
    }
}
