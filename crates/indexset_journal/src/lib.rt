//! Lines that survive a crash, as the rows of the only table of a SQLite file.
//!
//! A [`Journal`] appends lines, or replaces all of them, in one transaction each. It works over
//! any `Store` of the toolchain's SQLite crates. [`laws`] has theorems on crashes.
#![tactic(auto)]

mod error;
mod journal;
pub mod laws;
mod read;
mod row;
mod write;

pub use error::JournalError;
pub use journal::Journal;
