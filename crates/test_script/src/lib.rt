//! The player of scripts, whose lines are calls with their answers ([`script`]), and the items of
//! tests: with a tag, with counted comparisons, with an allocation, with clones that fail, and with
//! wrong answers. `test_script_logged` has what only the logged family needs.
#![tactic(auto)]

pub mod counted;
pub mod mirrored;
pub mod misled;
pub mod nodes;
pub mod owned;
pub mod player;
pub mod scarce;
pub mod script;
pub mod sized;
pub mod tagged;
mod texts;
pub mod word;
