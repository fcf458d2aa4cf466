//! The reasons why a line does not fit.

ghost use Rattle.std.specs.Prelude.{◌≡◌};
ghost use Rattle.indexset_follow.specs.Reason.{word_of};

use indexset_core::refusal::Refusal;
use std::fmt;

/// The reason why an event or a line of a snapshot does not fit.
#[derive(Clone, Copy, Debug, PartialEq, Eq)]
pub enum Reason {
    /// The event or the node does not apply.
    Refused(Refusal),
    /// No snapshot has begun.
    NotBegun,
    /// The number of nodes differs from that of the snapshot.
    Count,
    /// The sum differs from that of the snapshot.
    Sum,
}

impl Reason {
    /// Returns the word for this reason.
    pub fn word(self) -> &'static str
        ensures { result.now ≡ word_of self }
    {
        match self {
            Reason::Refused(refusal) => refusal_word(refusal),
            Reason::NotBegun => "start",
            Reason::Count => "count",
            Reason::Sum => "sum",
        }
    }
}

impl fmt::Display for Reason {
    ghost use Rattle.std.specs.Prelude.{Some};

    ghost output = { λ reason. Some (word_of reason) };

    fn fmt<W: fmt::Write>(&self, f: &mut fmt::Formatter<W>) -> fmt::Result {
        f.write_str(self.word())
    }
}

/// Returns the word for a refusal.
fn refusal_word(refusal: Refusal) -> &'static str
    ensures { result.now ≡ word_of (Reason.Refused refusal) }
{
    match refusal {
        Refusal::Numbers => "number",
        Refusal::NoSuchNode => "node",
        Refusal::IndexOutside => "place",
        Refusal::ValueDiffers => "item",
        Refusal::WouldBeEmpty | Refusal::Empty => "empty",
        Refusal::OutOfOrder | Refusal::Unsorted => "order",
        Refusal::BadSplit => "split",
        Refusal::NotNeighbours => "neighbours",
        Refusal::Overlaps => "overlap",
        Refusal::TooLarge => "size",
        Refusal::Memory | Refusal::PairNumber | Refusal::Gap => "other",
    }
}
