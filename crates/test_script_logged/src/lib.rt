//! The subjects of the logged family: logged sets, maps and multimaps, each with a replica,
//! replicas, lists of commands, and the program. See [`test_script::player`].
#![tactic(auto)]

mod brief;
mod command;
mod copy;
mod event;
mod events;
mod item;
mod map;
mod meter;
mod multimap;
mod node;
mod order;
mod pair;
mod partial;
mod plain_command;
mod plain_run;
pub mod program;
mod replica;
mod run;
mod seek;
mod set;
pub mod source;
mod subjects;
mod text;
mod trees;
mod vec_set;

pub use subjects::play;
