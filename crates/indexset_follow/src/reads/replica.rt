//! Reads of a follower.

use super::Reads;
use super::nodes::WalkNodes;
use super::row::{Walk, write_row};
use crate::sum::sum;
use crate::write::{Nodes, write_body, write_nodes};
use indexset_bench::key::Key;
use indexset_core::pair::Pair;
use indexset_lines::RunFault;
use indexset_replica::iter::Iter;
use std::alloc::Global;
use std::io::Write;
use std::ops::Bound;
use std::slice;

impl<T: Key> Reads<T> for Nodes<T> {
    ghost nodes = { λ r. r.nodes };

    ghost next = { λ r. r.next };

    fn entry(&self, key: &T) -> Option<(&T, &T)> {
        let pair = self.get(key)?;
        Some((&pair.key, &pair.value))
    }

    fn count(&self) -> usize {
        self.len()
    }

    fn entry_at(&self, position: usize) -> Option<(&T, &T)> {
        let pair = self.get_index(position)?;
        Some((&pair.key, &pair.value))
    }

    fn rank_of(&self, key: &T) -> usize {
        self.rank(key)
    }

    fn next_number(&self) -> u64 {
        self.next()
    }

    fn node_total(&self) -> usize {
        self.nodes().len()
    }

    fn sum_of_nodes(&self, alloc: Global, done: u64) -> Result<u64, RunFault> {
        sum(alloc, self.next(), done, self.nodes().iter())
    }

    fn write_snapshot_body<W: Write>(&self, writer: &mut W, done: u64) -> Result<(), RunFault> {
        write_body(writer, self.next(), done, self.nodes().iter())
    }

    fn write_keys<W: Write>(&self, writer: &mut W, low: &T, high: &T) -> Result<(), RunFault> {
        write_row(
            writer,
            self.range((Bound::Included(low), Bound::Included(high))),
        )
    }

    fn write_positions<W: Write>(
        &self,
        writer: &mut W,
        from: usize,
        to: usize,
    ) -> Result<(), RunFault> {
        write_row(
            writer,
            self.range_idx((Bound::Included(from), Bound::Excluded(to))),
        )
    }

    fn write_all<W: Write>(&self, writer: &mut W) -> Result<(), RunFault> {
        write_nodes(writer, self.next(), self.nodes().iter())
    }
}

impl<'a, T: Key + 'a> Walk<'a, T> for Iter<'a, Pair<T, T>> {
    ghost rest = { λ pairs. pairs };

    fn next_entry(&mut self) -> Option<(&'a T, &'a T)> {
        let pair = self.next()?;
        Some((&pair.key, &pair.value))
    }
}

impl<'a, T: Key + 'a> WalkNodes<'a, T> for slice::Iter<'a, Vec<Pair<T, T>>> {
    ghost use Rattle.std.specs.Slice.Iter.{iter_rest};
    ghost use Rattle.indexset_core.specs.Nodes.{vec_items};

    ghost rest = { λ nodes. vec_items (iter_rest nodes) };

    fn next_node(&mut self) -> Option<&'a [Pair<T, T>]> {
        let node = self.next()?;
        Some(node.as_slice())
    }
}
