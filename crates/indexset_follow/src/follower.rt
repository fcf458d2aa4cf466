//! The state of a follower.

use crate::early::Early;
use crate::write::Nodes;
use indexset_bench::key::Key;

/// The state of a follower.
#[derive(Drop)]
pub struct Follower<T: Key> {
    /// The nodes, and the number of the awaited event.
    pub held: Nodes<T>,
    /// The greatest command number whose events are applied, 0 if there is none.
    pub done: u64,
    /// The snapshot that has begun and not ended.
    pub coming: Option<Nodes<T>>,
    /// The greatest command number of this snapshot.
    pub coming_done: u64,
    /// How far ahead of the awaited event an event is held.
    pub window: u64,
    /// The early events.
    pub early: Early<T>,
}
