//! Tests that no script can express: numbers of comparisons and of cells, wrong implementations of
//! traits, texts, clones that fail, paths, and runs of the program over long texts, to writers that
//! fail and at a terminal. Expected values are from the documents of the library. The worked
//! examples are scripts (`tests/scripts`).
#![tactic(auto)]

#[cfg(test)]
mod by_text;
pub mod callers;
#[cfg(test)]
mod events;
#[cfg(test)]
mod extract;
#[cfg(test)]
mod fenwick;
#[cfg(test)]
mod long_runs;
#[cfg(test)]
mod map;
#[cfg(test)]
mod multimap;
#[cfg(test)]
mod names;
#[cfg(test)]
mod paths;
#[cfg(test)]
mod probe;
#[cfg(test)]
mod program;
#[cfg(test)]
mod range_forms;
#[cfg(test)]
mod refusal;
#[cfg(test)]
mod set;
#[cfg(test)]
mod sought;
#[cfg(test)]
mod spine;
#[cfg(test)]
mod terminal;
