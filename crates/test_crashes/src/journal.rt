//! Tests of the journal over files in memory: that calls succeed if nothing fails, which no
//! contract states, and the contracts on disks that fail.

mod crashes;
mod damage;
mod refusals;
mod support;
