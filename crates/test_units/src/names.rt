//! The paths of each function, method, associated function and trait implementation that the
//! library has of the Rust crate, and of each that it adds. A missing one does not compile. Calls
//! that take a closure are called.

mod base;
mod events;
mod logged;
mod map;
mod multimap;
mod own;
mod set;

use std::hash::Hash;
use std::iter::FusedIterator;
use std::ops::Index;

// A double-ended and fused iterator.
fn goes_both_ways<I: DoubleEndedIterator + FusedIterator>() {}

// A fused iterator.
fn goes_forward<I: Iterator + FusedIterator>() {}

// A collection for a `for` loop.
fn is_iterated<C: IntoIterator>() {}

// A type with clones, comparisons, an order and hashes.
fn is_ordered<T: Clone + Ord + Hash>() {}

fn has_default<T: Default>() {}

fn is_made_from<A, B: From<A>>() {}

fn is_indexed<I, C: Index<I>>() {}
