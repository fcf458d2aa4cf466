//! The two roles of a map.

use crate::follower::Follower;
use crate::leader::Leader;
use indexset_bench::key::Key;

/// A map in one of two roles.
#[derive(Drop)]
pub enum Role<T: Key> {
    /// The map is changed by the events of another map.
    Following(Follower<T>),
    /// The map is changed by commands, and emits events.
    Leading(Leader<T>),
}
