//! The texts of events and of their numbers.

use super::{ChangeEvent, Id};
use std::fmt;

/// Formats the number as a `u64`.
impl fmt::Display for Id {
    ghost use Rattle.std.specs.Prelude.{Some};
    ghost use Rattle.std.specs.Fmt.{decimal};

    ghost output = { λ id. Some (decimal id.0) };

    fn fmt<W: fmt::Write>(&self, f: &mut fmt::Formatter<W>) -> fmt::Result {
        fmt::Display::fmt(&self.0, f)
    }
}

/// Formats the event as one line without its end, as in `7 insert 9 5 2`.
///
/// The line has the number, the change, the last item of the node, and then the item and its index.
impl<T: fmt::Display> fmt::Display for ChangeEvent<T> {
    ghost use Rattle.indexset_events.specs.Text.{event_shown};

    ghost output = { event_shown T.output };

    fn fmt<W: fmt::Write>(&self, f: &mut fmt::Formatter<W>) -> fmt::Result {
        let id = self.id();
        match self {
            ChangeEvent::InsertAt {
                max_value: max,
                value,
                index,
                ..
            } => write!(f, "{id} insert {max} {value} {index}"),
            ChangeEvent::RemoveAt {
                max_value: max,
                value,
                index,
                ..
            } => write!(f, "{id} remove {max} {value} {index}"),
            ChangeEvent::CreateNode { max_value: max, .. } => write!(f, "{id} create {max}"),
            ChangeEvent::RemoveNode { max_value: max, .. } => write!(f, "{id} drop {max}"),
            ChangeEvent::SplitNode {
                max_value: max,
                split_index,
                ..
            } => write!(f, "{id} split {max} {split_index}"),
            ChangeEvent::MergeNodes {
                max_value: max,
                next_max_value: next,
                ..
            } => write!(f, "{id} merge {max} {next}"),
        }
    }
}
