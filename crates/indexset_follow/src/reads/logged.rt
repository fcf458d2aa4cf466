//! Reads of a leader.

use super::Reads;
use super::nodes::WalkNodes;
use super::row::{Walk, write_row};
use crate::sum::sum;
use crate::write::{write_body, write_nodes};
use indexset_bench::key::Key;
use indexset_bench::pairs::Pairs;
use indexset_core::pair::Pair;
use indexset_lines::RunFault;
use indexset_log::map::iter::Iter;
use indexset_log::set::nodes::Nodes;
use std::alloc::Global;
use std::io::Write;
use std::ops::Bound;

impl<T: Key> Reads<T> for Pairs<T> {
    ghost nodes = { λ t. t.nodes };

    ghost next = { λ t. t.next };

    fn entry(&self, key: &T) -> Option<(&T, &T)> {
        self.get_key_value(key)
    }

    fn count(&self) -> usize {
        self.len()
    }

    fn entry_at(&self, position: usize) -> Option<(&T, &T)> {
        self.get_index(position)
    }

    fn rank_of(&self, key: &T) -> usize {
        self.rank(key)
    }

    fn next_number(&self) -> u64 {
        self.events_issued()
    }

    fn node_total(&self) -> usize {
        self.node_count()
    }

    fn sum_of_nodes(&self, alloc: Global, done: u64) -> Result<u64, RunFault> {
        sum(alloc, self.events_issued(), done, self.iter_nodes())
    }

    fn write_snapshot_body<W: Write>(&self, writer: &mut W, done: u64) -> Result<(), RunFault> {
        write_body(writer, self.events_issued(), done, self.iter_nodes())
    }

    fn write_keys<W: Write>(&self, writer: &mut W, low: &T, high: &T) -> Result<(), RunFault> {
        write_row(
            writer,
            self.range((Bound::Included(low), Bound::Included(high))),
        )
    }

    fn write_positions<W: Write>(
        &self,
        writer: &mut W,
        from: usize,
        to: usize,
    ) -> Result<(), RunFault> {
        write_row(
            writer,
            self.range_idx((Bound::Included(from), Bound::Excluded(to))),
        )
    }

    fn write_all<W: Write>(&self, writer: &mut W) -> Result<(), RunFault> {
        write_nodes(writer, self.events_issued(), self.iter_nodes())
    }
}

impl<'a, T: Key + 'a> Walk<'a, T> for Iter<'a, T, T, Vec<Pair<T, T>>> {
    ghost rest = { λ pairs. pairs };

    fn next_entry(&mut self) -> Option<(&'a T, &'a T)> {
        self.next()
    }
}

impl<'a, T: Key + 'a> WalkNodes<'a, T> for Nodes<'a, Vec<Pair<T, T>>> {
    ghost use Rattle.indexset_core.specs.Nodes.{vec_items};

    ghost rest = { λ nodes. vec_items nodes };

    fn next_node(&mut self) -> Option<&'a [Pair<T, T>]> {
        let node = self.next()?;
        Some(node.as_slice())
    }
}
