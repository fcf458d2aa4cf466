//! Indexes of node lengths, which find a position by few reads, and count these.
//!
//! [`fenwick::Fenwick`] stores the lengths of a list of nodes. [`fenwick::sums`] sums the first of
//! them, and finds the one that has a position, over any reader of cells
//! ([`fenwick::cells::Cells`]). [`blocks::Blocks`] stores the sums of blocks of
//! [`constants::NODES_PER_BLOCK`] lengths, which change at less cost when nodes are inserted or
//! removed, and reads the rest from the nodes.
#![tactic(auto)]

pub mod blocks;
pub mod constants;
pub mod fenwick;
