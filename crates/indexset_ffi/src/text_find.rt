//! Look-ups in a map from byte strings.
ghost use Rattle.std.specs.Prelude.{◌≡◌, length, min};
ghost use Rattle.std.specs.Cmp.Lexicographic.{slice_cmp};
ghost use Rattle.std.specs.Ordering.{nat_cmp};
ghost use Rattle.indexset_core.specs.Pairs.{key_rank, value_of};
ghost use Rattle.indexset_ffi.specs.Cursors.{cursor_position};
ghost use Rattle.indexset_ffi.specs.Elements.{key_count_up_to};

use crate::cursor::{self, Cursor};
use crate::text_slot::TextMap;
use indexset_core::probe::ByKey;

/// Returns how many keys are less than this one.
pub fn rank_of(map: &TextMap, key: &[u8]) -> usize
    ensures { result ≡ key_rank (slice_cmp nat_cmp) map.now.pairs key.now }
{
    map.rank(key)
}

/// Returns how many keys are at most this one.
pub fn count_to(map: &TextMap, key: &[u8]) -> usize
    ensures { result ≡ key_count_up_to (slice_cmp nat_cmp) map.now.pairs key.now }
{
    map.range(..=key).len()
}

/// Returns the value of a key, or `None` if it is absent.
pub fn get(map: &TextMap, key: &[u8]) -> Option<u64>
    ensures { result ≡ value_of (slice_cmp nat_cmp) map.now.pairs key.now }
{
    map.get(key).copied()
}

/// Returns a cursor at the first pair whose key is at least `from`, or at the end.
pub fn cursor_from(map: &TextMap, from: &[u8]) -> Cursor
    ensures { cursor_position map.now.lengths result
        ≡ key_rank (slice_cmp nat_cmp) map.now.pairs from.now }
{
    // For the proof: the keys ascend, and no node of several is empty.
    map.node_count();
    cursor::find(map.nodes(), ByKey::new(&from))
}

/// Returns a cursor at a position, or at the end if the position is past it.
pub fn cursor_at(map: &TextMap, position: usize) -> Cursor
    ensures { cursor_position map.now.lengths result ≡ min position (length map.now.pairs) }
{
    match map.get_index(position) {
        Some((key, _)) => {
            let near = cursor_from(map, key.as_bytes());
            cursor::near_to(map.nodes(), near, map.rank(key), position)
        }
        None => cursor::end(map.nodes()),
    }
}
