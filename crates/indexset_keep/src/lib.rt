//! A leader or follower that recovers from a crash.
//!
//! It keeps what each line changes in a journal before it writes the answer. The journal has the
//! lines that a follower reads: those of a snapshot, and after it events and `done` lines.
#![tactic(auto)]

mod answer;
mod batch;
mod fault;
pub mod followed;
pub mod kept;
pub mod laws;
pub mod manner;
mod restore;
mod role;
pub mod run;
mod seal;
mod text;

pub use fault::KeepFault;
