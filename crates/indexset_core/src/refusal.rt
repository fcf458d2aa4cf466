//! The errors of calls.
ghost use Rattle.std.specs.Prelude.{◌≡◌};

use std::alloc::AllocError;
use std::error::Error;
use std::fmt;

/// The error of a call.
///
/// If several reasons apply, the contract of the call says which one it returns.
///
/// ```
/// let mut copy: Replica<u64> = Replica::new(alloc, 0);
/// let late = ChangeEvent::CreateNode { event_id: Id::from(1), max_value: 5 };
/// assert_eq!(rt; copy.apply(&late), Err(Refusal::Gap));
/// ```
#[derive(Clone, Copy, Debug, PartialEq, Eq)]
pub enum Refusal {
    /// An allocation or an element's clone failed, or the length would pass `usize::MAX`.
    Memory,
    /// Too few event numbers remain, or no pair number remains.
    Numbers,
    /// The node that was attached has no item.
    Empty,
    /// The node that was attached holds more items than the maximum node size.
    TooLarge,
    /// The node that was attached is not strictly ascending.
    Unsorted,
    /// The node that was attached is not wholly before, after or between two nodes.
    Overlaps,
    /// The node that was attached holds a pair whose number is `u64::MAX`.
    PairNumber,
    /// The event's number is not the next.
    Gap,
    /// No node's last item equals the one that the event names.
    NoSuchNode,
    /// The event's index is outside its node.
    IndexOutside,
    /// The item at the event's index does not equal the event's value.
    ValueDiffers,
    /// The event would remove the only item of a node.
    WouldBeEmpty,
    /// The nodes would not ascend as a whole after the event.
    OutOfOrder,
    /// The event would split a node at its start, or at or past its end.
    BadSplit,
    /// The second node that the event names does not follow the first directly.
    NotNeighbours,
}

impl Refusal {
    ghost use Rattle.indexset_core.specs.Refusal.{number_of};

    /// Returns the number of this error, from 1 to 18; 8 to 10 are unused.
    ///
    /// ```
    /// assert!(rt; Refusal::Memory.number() == 1 && Refusal::NotNeighbours.number() == 18);
    /// ```
    pub fn number(self) -> u8
        ensures { result ≡ number_of self }
    {
        match self {
            Refusal::Memory => 1,
            Refusal::Numbers => 2,
            Refusal::Empty => 3,
            Refusal::TooLarge => 4,
            Refusal::Unsorted => 5,
            Refusal::Overlaps => 6,
            Refusal::PairNumber => 7,
            Refusal::Gap => 11,
            Refusal::NoSuchNode => 12,
            Refusal::IndexOutside => 13,
            Refusal::ValueDiffers => 14,
            Refusal::WouldBeEmpty => 15,
            Refusal::OutOfOrder => 16,
            Refusal::BadSplit => 17,
            Refusal::NotNeighbours => 18,
        }
    }
}

impl fmt::Display for Refusal {
    ghost use Rattle.std.specs.Prelude.{Some};
    ghost use Rattle.indexset_core.specs.Refusal.{message_of};

    ghost output = { λ refusal. Some (message_of refusal) };

    fn fmt<W: fmt::Write>(&self, f: &mut fmt::Formatter<W>) -> fmt::Result {
        f.write_str(match self {
            Refusal::Memory => "memory was refused",
            Refusal::Numbers => "too few numbers are left",
            Refusal::Empty => "the node has no item",
            Refusal::TooLarge => "the node has too many items",
            Refusal::Unsorted => "the node is not ascending",
            Refusal::Overlaps => "the node overlaps another",
            Refusal::PairNumber => "a pair in the node has the greatest number",
            Refusal::Gap => "the event's number is not the next",
            Refusal::NoSuchNode => "no node has the event's last item",
            Refusal::IndexOutside => "the event's index is outside its node",
            Refusal::ValueDiffers => "another item stands at the event's index",
            Refusal::WouldBeEmpty => "the event would empty a node",
            Refusal::OutOfOrder => "the event would break the order",
            Refusal::BadSplit => "the event would cut off an empty part",
            Refusal::NotNeighbours => "the event's nodes are not neighbours",
        })
    }
}

impl Error for Refusal {}

/// The error of a failed call, with the value that the call was given.
///
/// Its `Display` writes the error only.
///
/// ```
/// // No event number remains, so the call returns the value.
/// let mut tree: set::BTreeSet<u64, Vec<u64>> = set::BTreeSet::starting_at(alloc, 256, u64::MAX);
/// if let Err(refused) = tree.insert(5) {
///     assert!(rt; refused.value == 5 && refused.cause == Refusal::Numbers);
/// }
/// assert!(rt; tree.is_empty());
/// ```
#[derive(Drop)]
pub struct Refused<X> {
    /// The value that the failed call returns.
    pub value: X,
    /// The error.
    pub cause: Refusal,
}

impl<X> fmt::Debug for Refused<X> {
    fn fmt<W: fmt::Write>(&self, f: &mut fmt::Formatter<W>) -> fmt::Result {
        f.debug_struct("Refused")
            .field("cause", &self.cause)
            .finish_non_exhaustive()
    }
}

impl<X> fmt::Display for Refused<X> {
    ghost use Rattle.std.specs.Prelude.{Some};
    ghost use Rattle.indexset_core.specs.Refusal.{message_of};

    ghost output = { λ refused. Some (message_of refused.cause) };

    fn fmt<W: fmt::Write>(&self, f: &mut fmt::Formatter<W>) -> fmt::Result {
        fmt::Display::fmt(&self.cause, f)
    }
}

impl<X: Drop> Error for Refused<X> {}

impl From<AllocError> for Refusal {
    ghost use Rattle.std.specs.Prelude.{◌≡◌};
    ghost use Rattle.indexset_core.specs.declared.refusal.Refusal.TheVariants.{Memory};

    ghost from_gives = { λ _ refusal. refusal ≡ Memory };

    fn from(_error: AllocError) -> Refusal {
        Refusal::Memory
    }
}

impl<X: Drop> From<Refused<X>> for Refusal {
    ghost use Rattle.std.specs.Prelude.{◌≡◌};

    ghost from_gives = { λ refused refusal. refusal ≡ refused.cause };

    fn from(refused: Refused<X>) -> Refusal {
        refused.cause
    }
}
