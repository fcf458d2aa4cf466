//! The settings of a map.

ghost use Rattle.std.specs.Prelude.{◌≡◌, ◌≤◌};

use indexset_follow::others::Voice;

/// The settings of a map, and its initial role.
#[derive(Clone, Copy, Debug)]
pub struct Manner {
    /// Which replies it writes.
    pub voice: Voice,
    /// The maximum number of pairs in a node of a leader.
    pub size: usize,
    /// The greatest distance from the awaited event at which a follower holds an event.
    pub window: u64,
    /// Whether the initial role is that of a leader.
    pub leads: bool,
    ghost two: { 2 ≤ size },
}

impl Manner {
    /// Returns the maximum number of pairs in a node of a leader.
    pub fn node_size(&self) -> usize
        ensures value { result ≡ self.now.size }
        ensures two { 2 ≤ result }
    {
        self.size
    }
}
