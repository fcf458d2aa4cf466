//! The state of a leader.

use indexset_bench::key::Key;
use indexset_bench::pairs::Pairs;

/// The state of a leader.
#[derive(Drop)]
pub struct Leader<T: Key> {
    /// The map, and the number of the next event.
    pub pairs: Pairs<T>,
    /// The greatest command number, 0 if no command had one.
    pub done: u64,
}
