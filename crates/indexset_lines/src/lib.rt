//! Reads lines, has each answered, and reports faults.
//!
//! [`line`] reads lines. [`run`] has each answered by a type that implements [`Answers`].
//! [`RunFault`] is the error of a run.
#![tactic(auto)]

mod fault;
pub mod line;
pub mod output;
pub mod run;

pub use fault::RunFault;
pub use run::Answers;
