//! Parses reads.

ghost use Rattle.std.specs.Prelude.{◌≡◌, IfErr, IfOk};
ghost use Rattle.indexset_follow.specs.Query.{keyed_query, numbered_query, query_of, word_query};

use crate::numbers::read_two;
use indexset_bench::key::{Key, read_item, read_two_keys};
use indexset_lines::RunFault;
use indexset_wire::number::read_number;
use indexset_wire::parts::cut;
use std::alloc::Global;

/// A read of a map. Positions are counted from 0, in the order of the keys.
#[derive(Clone, Copy, Debug, PartialEq, Eq, Drop)]
pub enum Query<T> {
    /// The pair of this key.
    Get(T),
    /// The number of pairs.
    Len,
    /// The pair of the least key.
    First,
    /// The pair of the greatest key.
    Last,
    /// The pairs from one key to another, both included.
    Range(T, T),
    /// How many keys are less than this one.
    Rank(T),
    /// The pair at this position.
    At(u64),
    /// The pairs from a position on, at most this many.
    Page(u64, u64),
    /// The nodes and the next number.
    Nodes,
    /// The next number.
    Next,
    /// Whether events before this number are missing.
    Head(u64),
    /// A snapshot.
    Snapshot,
    /// The next number, the number of nodes, the sum, and the greatest command number.
    Sum,
    /// The next number, after a snapshot has replaced the lines of a journal.
    Compact,
}

/// Returns the read of a line, or `None` if it is not one.
pub fn read_query<T: Key>(alloc: Global, line: &[u8]) -> Result<Option<Query<T>>, RunFault>
    ensures query { IfOk result (λ query. query ≡ query_of T.texts line.now) }
    ensures fault { IfErr result (λ fault. fault ≡ RunFault.Memory) }
{
    match cut(line, b' ') {
        Some((word, rest)) => read_keyed(alloc, word, rest),
        None => Ok(read_word(line)),
    }
}

/// Returns the read of one word.
fn read_word<T>(word: &[u8]) -> Option<Query<T>>
    ensures { result ≡ word_query word.now }
{
    if word == b"len".as_slice() {
        Some(Query::Len)
    } else if word == b"first".as_slice() {
        Some(Query::First)
    } else if word == b"last".as_slice() {
        Some(Query::Last)
    } else if word == b"nodes".as_slice() {
        Some(Query::Nodes)
    } else if word == b"next".as_slice() {
        Some(Query::Next)
    } else if word == b"snapshot".as_slice() {
        Some(Query::Snapshot)
    } else if word == b"sum".as_slice() {
        Some(Query::Sum)
    } else if word == b"compact".as_slice() {
        Some(Query::Compact)
    } else {
        None
    }
}

/// Returns the read of a word and one key or two.
fn read_keyed<T: Key>(alloc: Global, word: &[u8], rest: &[u8]) -> Result<Option<Query<T>>, RunFault>
    ensures query { IfOk result (λ query. query ≡ keyed_query T.texts word.now rest.now) }
    ensures fault { IfErr result (λ fault. fault ≡ RunFault.Memory) }
{
    if word == b"get".as_slice() {
        Ok(read_item(alloc, rest)?.map(Query::Get))
    } else if word == b"rank".as_slice() {
        Ok(read_item(alloc, rest)?.map(Query::Rank))
    } else if word == b"range".as_slice() {
        let keys = read_two_keys(alloc, rest)?;
        Ok(keys.map(|keys| Query::Range(keys.0, keys.1)))
    } else {
        Ok(read_numbered(word, rest))
    }
}

/// Returns the read of a word and one number or two.
fn read_numbered<T>(word: &[u8], rest: &[u8]) -> Option<Query<T>>
    ensures { result ≡ numbered_query word.now rest.now }
{
    if word == b"at".as_slice() {
        Some(Query::At(read_number(rest)?))
    } else if word == b"head".as_slice() {
        Some(Query::Head(read_number(rest)?))
    } else if word == b"page".as_slice() {
        let (position, count) = read_two(rest)?;
        Some(Query::Page(position, count))
    } else {
        None
    }
}
