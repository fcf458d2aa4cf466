//! Reads of a map in either role.
//!
//! [`Reads`] is the trait of a map that can be read. [`replica`] and [`logged`] implement it, and
//! [`answer_query`] answers each read. [`query`] parses reads, [`row`] writes pairs in a line, and
//! [`nodes`] iterates over the nodes of a snapshot.

ghost use Rattle.std.specs.Prelude.{◌≡◌, ◌≢◌, ℕ, true, Err, OnOk, IfOk, IfErr, length, slice_get};
ghost use Rattle.std.specs.Io.KnownBytes.{Appends, Keeps};
ghost use Rattle.std.specs.List.{between};
ghost use Rattle.std.specs.Option.{option_map};
ghost use Rattle.std.specs.Ordering.{is_le};
ghost use Rattle.indexset_core.specs.Nodes.{concat};
ghost use Rattle.indexset_core.specs.Pairs.{entry_of, key_rank, pair_of};
ghost use Rattle.indexset_follow.specs.Copy.{body_text, copy, snapshot_text, sum_of, unsummed_text};
ghost use Rattle.indexset_follow.specs.Reads.{PairNodes, entry_text, head_reply, keys_from};
ghost use Rattle.indexset_follow.specs.Reads.{nodes_text, page, query_text, read_reply, row_text};
ghost use Rattle.indexset_follow.specs.Reply.{others_text, reply_ended};

mod logged;
pub mod nodes;
pub mod query;
mod replica;
mod row;

use crate::mark::Mark;
use crate::others::Others;
use crate::reply::Reply;
use crate::write::{write_mark, write_reply};
use indexset_bench::key::Key;
use indexset_bench::pair_text::EntryText;
use indexset_lines::RunFault;
use query::{Query, read_query};
use std::alloc::Global;
use std::cmp::Ordering;
use std::io::Write;

/// A map that can be read: its nodes, and the number of the next event.
pub trait Reads<T: Key> {
    ghost nodes: { Self → PairNodes T };

    ghost next: { Self → ℕ };

    /// Returns the key and the value of an entry.
    fn entry(&self, key: &T) -> Option<(&T, &T)>
        ensures { option_map (λ e. (e.0.now, e.1.now)) result
            ≡ option_map entry_of (pair_of T.cmp (concat (nodes self.now)) key.now) };

    /// Returns the number of pairs.
    fn count(&self) -> usize
        ensures { result ≡ length (concat (nodes self.now)) };

    /// Returns the key and the value at a position, counted from 0.
    fn entry_at(&self, position: usize) -> Option<(&T, &T)>
        ensures { option_map (λ e. (e.0.now, e.1.now)) result
            ≡ option_map entry_of (slice_get (concat (nodes self.now)) position) };

    /// Returns how many keys are less than this one.
    fn rank_of(&self, key: &T) -> usize
        ensures { result ≡ key_rank T.cmp (concat (nodes self.now)) key.now };

    /// Returns the number of the next event.
    fn next_number(&self) -> u64
        ensures { result ≡ next self.now };

    /// Returns the number of nodes.
    fn node_total(&self) -> usize
        ensures { result ≡ length (nodes self.now) };

    /// Returns the sum of the nodes, the next number and the greatest command number.
    fn sum_of_nodes(&self, alloc: Global, done: u64) -> Result<u64, RunFault>
        ensures sum { IfOk result (λ sum. sum
            ≡ sum_of T.texts (copy (nodes self.now) (next self.now)) done) }
        ensures fault { IfErr result (λ fault. fault ≡ RunFault.Memory) };

    /// Writes the lines of a snapshot before its last, where `done` is the greatest command number.
    fn write_snapshot_body<W: Write>(&self, writer: &mut W, done: u64) -> Result<(), RunFault>
        ensures told { OnOk result (Appends (W.contents writer.old) (W.contents writer.new)
            (body_text T.texts (copy (nodes self.now) (next self.now)) done)) }
        ensures fault { IfErr result (λ fault. fault ≡ RunFault.Write) };

    /// Writes the pairs from one key to another, both included, in one line.
    fn write_keys<W: Write>(&self, writer: &mut W, low: &T, high: &T) -> Result<(), RunFault>
        requires { is_le (T.cmp low.now high.now) ≡ true }
        ensures told { OnOk result (Appends (W.contents writer.old) (W.contents writer.new)
            (row_text T.texts (keys_from T.cmp (concat (nodes self.now)) low.now high.now))) }
        ensures fault { IfErr result (λ fault. fault ≡ RunFault.Write) };

    /// Writes the pairs from one position on, before another, in one line.
    fn write_positions<W: Write>(
        &self,
        writer: &mut W,
        from: usize,
        to: usize,
    ) -> Result<(), RunFault>
        ensures told { OnOk result (Appends (W.contents writer.old) (W.contents writer.new)
            (row_text T.texts (between from to (concat (nodes self.now))))) }
        ensures fault { IfErr result (λ fault. fault ≡ RunFault.Write) };

    /// Writes the nodes, one in each line, and then the next number.
    fn write_all<W: Write>(&self, writer: &mut W) -> Result<(), RunFault>
        ensures told { OnOk result (Appends (W.contents writer.old) (W.contents writer.new)
            (nodes_text T.texts (nodes self.now) (next self.now))) }
        ensures fault { IfErr result (λ fault. fault ≡ RunFault.Write) };
}

/// Writes the answer to a line that is a read, or not one of the grammar.
///
/// # Errors
///
/// `Memory`: nothing is written. `Write`.
pub fn answer_read<T: Key, R: Reads<T>, W: Write>(
    alloc: Global,
    others: Others,
    writer: &mut W,
    map: &R,
    done: u64,
    line: &[u8],
) -> Result<(), RunFault>
    ensures told { OnOk result (Appends (W.contents writer.old) (W.contents writer.new)
        (read_reply T.cmp T.texts others (R.nodes map.now) (R.next map.now) done line.now)) }
    ensures memory_refused { result ≡ Err RunFault.Memory
        → Keeps (W.contents writer.old) (W.contents writer.new) }
    ensures no_read { result ≢ Err RunFault.Read }
    ensures no_numbers { result ≢ Err RunFault.Numbers }
{
    match read_query(alloc, line)? {
        Some(query) => answer_query(alloc, writer, map, done, &query),
        None => answer_other(others, writer),
    }
}

/// Writes the reply to a line that is not one of the grammar.
pub fn answer_other<W: Write>(others: Others, writer: &mut W) -> Result<(), RunFault>
    ensures told { OnOk result (Appends (W.contents writer.old) (W.contents writer.new)
        (others_text others)) }
    ensures fault { IfErr result (λ fault. fault ≡ RunFault.Write) }
{
    match others {
        Others::Tell => write_reply(writer, Reply::Bad),
        Others::Pass => Ok(()),
    }
}

/// Writes the answer to a read.
///
/// # Errors
///
/// `Memory`: nothing is written. `Write`.
pub fn answer_query<T: Key, R: Reads<T>, W: Write>(
    alloc: Global,
    writer: &mut W,
    map: &R,
    done: u64,
    query: &Query<T>,
) -> Result<(), RunFault>
    ensures told { OnOk result (Appends (W.contents writer.old) (W.contents writer.new)
        (query_text T.cmp T.texts (R.nodes map.now) (R.next map.now) done query.now)) }
    ensures memory_refused { result ≡ Err RunFault.Memory
        → Keeps (W.contents writer.old) (W.contents writer.new) }
    ensures no_read { result ≢ Err RunFault.Read }
    ensures no_numbers { result ≢ Err RunFault.Numbers }
{
    match query {
        Query::Get(key) => write_entry(writer, map.entry(key)),
        Query::Len => write_reply(writer, Reply::Count(map.count())),
        Query::First => write_entry(writer, map.entry_at(0)),
        Query::Last => write_entry(writer, map.entry_at(map.count().saturating_sub(1))),
        Query::Range(low, high) => write_range(writer, map, low, high),
        Query::Rank(key) => write_reply(writer, Reply::Count(map.rank_of(key))),
        Query::At(position) => write_entry(writer, map.entry_at(*position as usize)),
        Query::Page(position, count) => write_page(
            writer,
            map,
            *position as usize,
            *count as usize,
        ),
        Query::Nodes => map.write_all(writer),
        Query::Next | Query::Compact => write_reply(writer, Reply::Next(map.next_number())),
        Query::Head(end) => write_reply(writer, reply_to_head(map.next_number(), *end)),
        Query::Snapshot => write_snapshot(alloc, writer, map, done),
        Query::Sum => write_sum(alloc, writer, map, done),
    }
}

/// Returns the reply to `head`: whether events before the number `end` are missing.
pub fn reply_to_head(next: u64, end: u64) -> Reply
    ensures { result ≡ head_reply next end }
{
    if next < end {
        Reply::Gap(next)
    } else {
        Reply::Next(next)
    }
}

/// Writes a key and its value, or `none`.
fn write_entry<T: Key, W: Write>(writer: &mut W, entry: Option<(&T, &T)>) -> Result<(), RunFault>
    ensures told { OnOk result (Appends (W.contents writer.old) (W.contents writer.new)
        (entry_text T.texts (option_map (λ e. (e.0.now, e.1.now)) entry.entry))) }
    ensures fault { IfErr result (λ fault. fault ≡ RunFault.Write) }
{
    match entry {
        Some((key, value)) => {
            let shown = EntryText(key, value);
            writer.writeln(shown).map_err(|_| RunFault::Write)
        }
        None => write_reply(writer, Reply::Nothing),
    }
}

/// Writes the pairs from one key to another, both included, in one line.
fn write_range<T: Key, R: Reads<T>, W: Write>(
    writer: &mut W,
    map: &R,
    low: &T,
    high: &T,
) -> Result<(), RunFault>
    ensures told { OnOk result (Appends (W.contents writer.old) (W.contents writer.new)
        (row_text T.texts (keys_from T.cmp (concat (R.nodes map.now)) low.now high.now))) }
    ensures fault { IfErr result (λ fault. fault ≡ RunFault.Write) }
{
    match low.cmp(high) {
        Ordering::Greater => write_reply(writer, Reply::Nothing),
        _ => map.write_keys(writer, low, high),
    }
}

/// Writes at most `count` pairs from a position on in one line.
fn write_page<T: Key, R: Reads<T>, W: Write>(
    writer: &mut W,
    map: &R,
    position: usize,
    count: usize,
) -> Result<(), RunFault>
    ensures told { OnOk result (Appends (W.contents writer.old) (W.contents writer.new)
        (row_text T.texts (page (concat (R.nodes map.now)) position count))) }
    ensures fault { IfErr result (λ fault. fault ≡ RunFault.Write) }
{
    let end = position.saturating_add(count).min(map.count());
    map.write_positions(writer, position, end)
}

/// Writes the next number, the number of nodes, the sum, and the greatest command number.
fn write_sum<T: Key, R: Reads<T>, W: Write>(
    alloc: Global,
    writer: &mut W,
    map: &R,
    done: u64,
) -> Result<(), RunFault>
    ensures told { OnOk result (Appends (W.contents writer.old) (W.contents writer.new)
        (query_text T.cmp T.texts (R.nodes map.now) (R.next map.now) done Query.Sum)) }
    ensures memory_refused { result ≡ Err RunFault.Memory
        → Keeps (W.contents writer.old) (W.contents writer.new) }
    ensures no_read { result ≢ Err RunFault.Read }
    ensures no_numbers { result ≢ Err RunFault.Numbers }
{
    let sum = map.sum_of_nodes(alloc, done)?;
    write_reply(
        writer,
        Reply::Sum(map.next_number(), map.node_total() as u64, sum, done),
    )
}

/// Writes the lines of a snapshot.
fn write_snapshot<T: Key, R: Reads<T>, W: Write>(
    alloc: Global,
    writer: &mut W,
    map: &R,
    done: u64,
) -> Result<(), RunFault>
    ensures told { OnOk result (Appends (W.contents writer.old) (W.contents writer.new)
        (snapshot_text T.texts (copy (R.nodes map.now) (R.next map.now)) done)) }
    ensures memory_refused { result ≡ Err RunFault.Memory
        → Keeps (W.contents writer.old) (W.contents writer.new) }
    ensures no_read { result ≢ Err RunFault.Read }
    ensures no_numbers { result ≢ Err RunFault.Numbers }
{
    let sum = map.sum_of_nodes(alloc, done)?;
    map.write_snapshot_body(writer, done)?;
    write_mark(writer, Mark::End(map.node_total() as u64, Some(sum)))
}

/// Writes the lines of a snapshot, without a sum in the last.
pub fn write_unsummed<T: Key, R: Reads<T>, W: Write>(
    writer: &mut W,
    map: &R,
    done: u64,
) -> Result<(), RunFault>
    ensures told { OnOk result (Appends (W.contents writer.old) (W.contents writer.new)
        (unsummed_text T.texts (copy (R.nodes map.now) (R.next map.now)) done)) }
    ensures fault { IfErr result (λ fault. fault ≡ RunFault.Write) }
{
    map.write_snapshot_body(writer, done)?;
    write_mark(writer, Mark::End(map.node_total() as u64, None))
}
