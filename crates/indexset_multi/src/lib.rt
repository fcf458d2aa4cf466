//! A logged map whose keys may repeat.
//!
//! [`multimap::BTreeMultiMap`] is a list of numbered pairs, ascending by key and then by number,
//! stored as a logged set. A new pair gets the next number, so the pairs of a key are in insertion
//! order; a pair that replaces one with an equal value keeps its number. Insertion is in
//! `multimap::put`, removal in `multimap::remove`, the first and the last pair in `ends`, iterators
//! in `iter` and `range`. Its events are those of the set's puts and removals.
#![tactic(auto)]

pub mod laws;
pub mod multimap;
