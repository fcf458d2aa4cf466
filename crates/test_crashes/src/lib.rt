//! Tests of crashes, over two files in memory whose calls fail, or whose bytes are lost or changed:
//! of the journal, and of a map that is kept.
#![tactic(auto)]

#[cfg(test)]
mod files;
#[cfg(test)]
mod journal;
#[cfg(test)]
mod kept;
