//! Bodies of the calls of a multimap.
ghost use Rattle.std.specs.Prelude.{◌≡◌, is_some, length, min, nat_eq, ◌∷◌, ◌++◌};
ghost use Rattle.std.specs.Prelude.{[], ℕ, false, IfErr, OnErr, OnOk, None};
ghost use Rattle.std.specs.List.{count_by, list_any};
ghost use Rattle.std.specs.Ordering.{nat_cmp, is_eq, is_lt};
ghost use Rattle.indexset_core.specs.Nodes.{concat, node_lengths, vec_items};
ghost use Rattle.indexset_core.specs.Pairs.{pair_values, pair_keys};
ghost use Rattle.indexset_multi.specs.Keys.{equal_pair, pairs_of};
ghost use Rattle.indexset_ffi.specs.Cursors.{cursor_position};
ghost use Rattle.indexset_ffi.specs.Elements.{key_values, written};
ghost use Rattle.indexset_core.specs.MultiPairs.{by_number, numbered_pair};
ghost use Rattle.indexset_core.specs.Order.{put};
ghost use Rattle.indexset_multi.specs.Tree.{after_insertion, insertion_refusal};

use crate::cursor::{self, Cursor};
use crate::multi_slot::{MultiMap, MultiRange};
use indexset_core::multipair::MultiPair;
use indexset_core::probe::ByKey;
use indexset_core::refusal::Refusal;

/// Returns whether an iterator yields a value.
pub fn has_value(mut walk: MultiRange<'_>, value: u64) -> bool
    ensures { result ≡ list_any (λ p. nat_eq p.value value) walk.entry }
{
    while let Some((_, found)) = walk.next() {
        if *found == value {
            return true;
        }
    }
    false
}

/// Returns whether a key has this value.
pub fn has_pair(multi: &MultiMap, key: u64, value: u64) -> bool
    ensures { result ≡ is_some (equal_pair nat_cmp nat_eq (concat multi.now.nodes) key value) }
{
    has_value(multi.get(&key), value)
}

/// Adds a value that the key does not have.
pub fn insert_new(multi: &mut MultiMap, key: u64, value: u64) -> Result<(), Refusal>
    requires { equal_pair nat_cmp nat_eq (concat multi.old.nodes) key value ≡ None }

    // Contents.
    ensures ok { OnOk result (concat multi.new.nodes
        ≡ put (by_number nat_cmp) (concat multi.old.nodes)
        (numbered_pair key value multi.old.pair_next)) }
    ensures last { OnOk result (key_values (concat multi.new.nodes) key
        ≡ key_values (concat multi.old.nodes) key ++ value ∷ []) }
    ensures others { OnOk result ((other : ℕ) → is_eq (nat_cmp other key) ≡ false
        → pairs_of nat_cmp (concat multi.new.nodes) other
        ≡ pairs_of nat_cmp (concat multi.old.nodes) other) }

    // Failure.
    ensures refusal { IfErr result (λ e. e ≡ insertion_refusal nat_cmp nat_eq multi.old key value) }
    ensures unchanged { OnErr result (multi.new ≡ multi.old) }

    // Nodes.
    ensures tree { OnOk result (multi.new ≡ after_insertion nat_cmp nat_eq multi.old key value) }
{
    match multi.insert(key, value) {
        Ok(_) => Ok(()),
        Err(refused) => Err(refused.cause),
    }
}

/// Writes as many values of an iterator as fit, and returns how many it wrote.
pub fn write_values(mut walk: MultiRange<'_>, out: &mut [u64]) -> usize
    ensures count { result ≡ min (length walk.entry) (length out.old) }
    ensures written { out.new ≡ written result (pair_values walk.entry) out.old }
{
    let mut count = 0;
    while count < out.len() {
        let Some((_, value)) = walk.next() else {
            break;
        };
        out[count] = *value;
        count += 1;
    }
    count
}

/// Writes as many pairs of an iterator as fit in both slices, and returns how many it wrote.
pub fn write_entries(mut walk: MultiRange<'_>, keys: &mut [u64], values: &mut [u64]) -> usize
    ensures count { result ≡ min (length walk.entry) (min (length keys.old) (length values.old)) }
    ensures keys { keys.new ≡ written result (pair_keys walk.entry) keys.old }
    ensures values { values.new ≡ written result (pair_values walk.entry) values.old }
{
    let room = keys.len().min(values.len());
    let mut count = 0;
    while count < room {
        let Some((key, value)) = walk.next() else {
            break;
        };
        keys[count] = *key;
        values[count] = *value;
        count += 1;
    }
    count
}

/// Returns the nodes, in order.
pub fn nodes(multi: &MultiMap) -> &[Vec<MultiPair<u64, u64>>]
    ensures { vec_items result.now ≡ multi.now.nodes }
{
    multi.iter_nodes().as_slice()
}

/// Returns a cursor at the first pair whose key is at least `from`, or at the end.
pub fn cursor_from(multi: &MultiMap, from: u64) -> Cursor
    ensures { cursor_position (node_lengths multi.now.nodes) result
        ≡ count_by (λ p. is_lt (nat_cmp p.key from)) (concat multi.now.nodes) }
{
    // For the proof: the pairs ascend, and no node is empty.
    multi.node_count();
    cursor::find(nodes(multi), ByKey::new(&from))
}

/// Returns a cursor at a position, or at the end if the position is past it.
pub fn cursor_at(multi: &MultiMap, position: usize) -> Cursor
    ensures { cursor_position (node_lengths multi.now.nodes) result
        ≡ min position (length (concat multi.now.nodes)) }
{
    match multi.get_index(position) {
        Some((key, _)) => {
            let near = cursor_from(multi, *key);
            cursor::near_to(nodes(multi), near, multi.rank(key), position)
        }
        None => cursor::end(nodes(multi)),
    }
}
