//! Lists of commands to the collections, and a program that answers lines.
//!
//! [`set_run::run_set`], [`map_run::run_map`] and [`logged_run::run_logged`] execute a list of
//! commands and return the replies. `run_logged` also returns the events. [`logged::Logged`] is the
//! trait of the logged trees. [`run`] writes the reply to each line of a reader: `command` and
//! `pair_command` parse lines, `perform` and `pairs` execute commands, `write` writes replies.
//! `specs/Text.antt` defines the output. [`laws`] has theorems on the definitions.
#![tactic(auto)]

pub mod command;
pub mod command_run;
pub mod key;
pub mod laws;
pub mod logged;
pub mod logged_run;
pub mod map_run;
pub mod pair_command;
pub mod pair_text;
pub mod pairs;
mod perform;
mod program;
mod reply;
pub mod set_run;
pub mod write;

pub use indexset_lines::RunFault;
pub use indexset_replica::Replica;
pub use program::run;
