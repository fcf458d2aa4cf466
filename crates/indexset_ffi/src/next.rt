//! Writes the items after a cursor to slices of C.
ghost use Rattle.std.specs.Prelude.{◌≡◌, ◌+◌, ℕ, length, map, min, take};
ghost use Rattle.indexset_core.specs.Nodes.{concat, node_lengths, vec_items};
ghost use Rattle.indexset_core.specs.Pairs.{pair_keys, pair_values};
ghost use Rattle.indexset_ffi.specs.Cursors.{cursor_position, items_from};
ghost use Rattle.indexset_ffi.specs.Elements.{written};
ghost use Rattle.indexset_ffi.specs.Text.{key_lengths, written_over};

use crate::cursor::{Cursor, moved, rest};
use crate::text_calls::write_behind;
use indexset_core::item_iter::{ItemIter, OfVec};
use indexset_core::multipair::MultiPair;
use indexset_core::pair::Pair;
use indexset_core::text::Text;

/// A type that has a key and a value, both numbers.
pub trait Numbers {
    /// The key.
    ghost key_of: { Self → ℕ };

    /// The value.
    ghost value_of: { Self → ℕ };

    /// Returns the key.
    fn key(&self) -> u64
        ensures { result ≡ key_of self.now };

    /// Returns the value.
    fn value(&self) -> u64
        ensures { result ≡ value_of self.now };
}

impl Numbers for Pair<u64, u64> {
    ghost key_of = { λ p. p.key };

    ghost value_of = { λ p. p.value };

    fn key(&self) -> u64 {
        self.key
    }

    fn value(&self) -> u64 {
        self.value
    }
}

impl Numbers for MultiPair<u64, u64> {
    ghost key_of = { λ p. p.key };

    ghost value_of = { λ p. p.value };

    fn key(&self) -> u64 {
        self.key
    }

    fn value(&self) -> u64 {
        self.value
    }
}

/// Writes as many elements from a cursor on as fit, and moves the cursor past them.
///
/// Returns how many it wrote.
pub fn next_elements(nodes: &[Vec<u64>], cursor: &mut Cursor, out: &mut [u64]) -> usize
    ensures count { result ≡ min (length (items_from (node_lengths (vec_items nodes.now)) cursor.old
        (concat (vec_items nodes.now)))) (length out.old) }
    ensures written { out.new ≡ written result (items_from (node_lengths (vec_items nodes.now))
        cursor.old (concat (vec_items nodes.now))) out.old }
    ensures moved { cursor_position (node_lengths (vec_items nodes.now)) cursor.new
        ≡ cursor_position (node_lengths (vec_items nodes.now)) cursor.old + result }
{
    let count = write_elements(rest(nodes, *cursor), out);
    *cursor = moved(nodes, *cursor, count);
    count
}

/// Writes as many pairs from a cursor on as fit in both slices, and moves the cursor past them.
///
/// Returns how many it wrote.
pub fn next_pairs<P: Numbers>(
    nodes: &[Vec<P>],
    cursor: &mut Cursor,
    keys: &mut [u64],
    values: &mut [u64],
) -> usize
    ensures count { result ≡ min (length (items_from (node_lengths (vec_items nodes.now)) cursor.old
        (concat (vec_items nodes.now)))) (min (length keys.old) (length values.old)) }
    ensures keys { keys.new ≡ written result (map P.key_of (items_from
        (node_lengths (vec_items nodes.now)) cursor.old (concat (vec_items nodes.now)))) keys.old }
    ensures values { values.new ≡ written result (map P.value_of (items_from
        (node_lengths (vec_items nodes.now)) cursor.old (concat (vec_items nodes.now))))
        values.old }
    ensures moved { cursor_position (node_lengths (vec_items nodes.now)) cursor.new
        ≡ cursor_position (node_lengths (vec_items nodes.now)) cursor.old + result }
{
    let count = write_numbers(rest(nodes, *cursor), keys, values);
    *cursor = moved(nodes, *cursor, count);
    count
}

/// Writes as many pairs from a cursor on as fit, and moves the cursor past them.
///
/// A pair is the length of its key and its value. The bytes of these keys are written one after
/// another, as many as fit. Returns how many pairs it wrote.
pub fn next_texts(
    nodes: &[Vec<Pair<Text, u64>>],
    cursor: &mut Cursor,
    bytes: &mut [u8],
    lengths: &mut [usize],
    values: &mut [u64],
) -> usize
    // Result.
    ensures count { result ≡ min (length (items_from (node_lengths (vec_items nodes.now)) cursor.old
        (concat (vec_items nodes.now)))) (min (length lengths.old) (length values.old)) }
    ensures bytes { bytes.new ≡ written_over (concat (take result (pair_keys (items_from
        (node_lengths (vec_items nodes.now)) cursor.old (concat (vec_items nodes.now))))))
        bytes.old }
    ensures lengths { lengths.new ≡ written result (key_lengths (items_from
        (node_lengths (vec_items nodes.now)) cursor.old (concat (vec_items nodes.now))))
        lengths.old }
    ensures values { values.new ≡ written result (pair_values (items_from
        (node_lengths (vec_items nodes.now)) cursor.old (concat (vec_items nodes.now))))
        values.old }

    // Contents.
    ensures moved { cursor_position (node_lengths (vec_items nodes.now)) cursor.new
        ≡ cursor_position (node_lengths (vec_items nodes.now)) cursor.old + result }
{
    let count = write_texts(rest(nodes, *cursor), bytes, lengths, values);
    *cursor = moved(nodes, *cursor, count);
    count
}

// Writes as many items of an iterator as fit, node by node, and returns how many it wrote.
fn write_elements(mut walk: ItemIter<'_, u64, Vec<u64>, OfVec>, out: &mut [u64]) -> usize
    ensures count { result ≡ min (length walk.entry) (length out.old) }
    ensures written { out.new ≡ written result walk.entry out.old }
{
    let mut count = 0;
    while count < out.len() {
        let run = walk.next_chunk();
        if run.is_empty() {
            break;
        }
        count += write_elements_of(run, &mut out[count..]);
    }
    count
}

// Writes as many items as fit, and returns how many it wrote.
fn write_elements_of(run: &[u64], out: &mut [u64]) -> usize
    ensures count { result ≡ min (length run.now) (length out.old) }
    ensures written { out.new ≡ written result run.now out.old }
{
    let count = run.len().min(out.len());
    out[..count].copy_from_slice(&run[..count]);
    count
}

// Writes as many keys and values of an iterator as fit in both slices, node by node, and returns
// how many it wrote.
fn write_numbers<P: Numbers>(
    mut walk: ItemIter<'_, P, Vec<P>, OfVec>,
    keys: &mut [u64],
    values: &mut [u64],
) -> usize
    ensures count { result ≡ min (length walk.entry) (min (length keys.old) (length values.old)) }
    ensures keys { keys.new ≡ written result (map P.key_of walk.entry) keys.old }
    ensures values { values.new ≡ written result (map P.value_of walk.entry) values.old }
{
    let room = keys.len().min(values.len());
    let mut count = 0;
    while count < room {
        let run = walk.next_chunk();
        if run.is_empty() {
            break;
        }
        count += write_numbers_of(run, &mut keys[count..], &mut values[count..]);
    }
    count
}

// Writes the keys and the values of as many items as fit in both slices, and returns how many it
// wrote.
fn write_numbers_of<P: Numbers>(run: &[P], keys: &mut [u64], values: &mut [u64]) -> usize
    ensures count { result ≡ min (length run.now) (min (length keys.old) (length values.old)) }
    ensures keys { keys.new ≡ written result (map P.key_of run.now) keys.old }
    ensures values { values.new ≡ written result (map P.value_of run.now) values.old }
{
    let count = run.len().min(keys.len()).min(values.len());
    for i in 0..count {
        keys[i] = run[i].key();
        values[i] = run[i].value();
    }
    count
}

// Writes as many key lengths and values of an iterator as fit in both slices, and as many bytes of
// these keys as fit. Returns how many pairs it wrote.
fn write_texts(
    mut walk: ItemIter<'_, Pair<Text, u64>, Vec<Pair<Text, u64>>, OfVec>,
    bytes: &mut [u8],
    lengths: &mut [usize],
    values: &mut [u64],
) -> usize
    ensures count { result ≡ min (length walk.entry)
        (min (length lengths.old) (length values.old)) }
    ensures bytes { bytes.new ≡ written_over (concat (take result (pair_keys walk.entry)))
        bytes.old }
    ensures lengths { lengths.new ≡ written result (key_lengths walk.entry) lengths.old }
    ensures values { values.new ≡ written result (pair_values walk.entry) values.old }
{
    let room = lengths.len().min(values.len());
    let mut used = 0;
    let mut count = 0;
    while count < room {
        let Some(pair) = walk.next() else {
            break;
        };
        let stored = pair.key.as_bytes();
        used = write_behind(stored, bytes, used);
        lengths[count] = stored.len();
        values[count] = pair.value;
        count += 1;
    }
    count
}
