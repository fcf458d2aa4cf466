//! Parses the lines of events.

ghost use Rattle.std.specs.Prelude.{◌≡◌, IfErr, IfOk};
ghost use Rattle.indexset_follow.specs.EventLine.{event_of};

use indexset_bench::key::Key;
use indexset_core::pair::Pair;
use indexset_events::change::ChangeEvent;
use indexset_lines::RunFault;
use std::alloc::Global;

/// An event whose items are pairs.
pub type Event<T> = ChangeEvent<Pair<T, T>>;

/// Returns the event of a line, or `None` if it is not one.
pub fn read_event<T: Key>(alloc: Global, line: &[u8]) -> Result<Option<Event<T>>, RunFault>
    ensures event { IfOk result (λ event. event ≡ event_of T.texts line.now) }
    ensures fault { IfErr result (λ fault. fault ≡ RunFault.Memory) }
{
    indexset_wire::event::read_event(alloc, line).map_err(|_| RunFault::Memory)
}
