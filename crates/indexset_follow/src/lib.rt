//! A program over lines that has a map as a leader or as a follower.
//!
//! [`serve`] writes the answer to each line of a reader. A line is an event as `indexset_bench`
//! writes it, a line of a snapshot, a read, or a command to a leader. `numbers`, `event`, `node`,
//! `mark`, `echo` and [`reads`] parse lines. `answer` and `snapshot` change a `follower`, whose
//! early events are in `early`. `leading` changes a `leader`. `step_down` makes a leader a
//! follower. `sum` and `write` write snapshots. `store` has both roles. `specs/Store.antt` defines
//! the output. [`laws`] and [`takeover`] have theorems on the definitions.
#![tactic(auto)]

pub mod answer;
mod early;
pub mod echo;
pub mod event;
pub mod follower;
pub mod laws;
pub mod leader;
mod leading;
pub mod mark;
mod node;
mod numbers;
pub mod others;
pub mod reads;
mod reason;
mod reply;
pub mod role;
mod serving;
pub mod snapshot;
mod step_down;
pub mod store;
mod sum;
pub mod takeover;
pub mod write;

pub use serving::serve;
