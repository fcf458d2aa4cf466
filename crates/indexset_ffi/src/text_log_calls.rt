//! Writes keys and values of a logged map from byte strings to slices of C.
ghost use Rattle.std.specs.Prelude.{◌≡◌, length, min, take};
ghost use Rattle.indexset_core.specs.Nodes.{concat};
ghost use Rattle.indexset_core.specs.Pairs.{pair_keys, pair_values};
ghost use Rattle.indexset_ffi.specs.Elements.{written};
ghost use Rattle.indexset_ffi.specs.Text.{key_lengths, written_over};

use crate::text_calls::write_behind;
use crate::text_log::TextLogRange;

/// Writes as many values of an iterator as fit, and returns how many it wrote.
pub fn write_values(mut walk: TextLogRange<'_>, values: &mut [u64]) -> usize
    ensures count { result ≡ min (length walk.entry) (length values.old) }
    ensures values { values.new ≡ written result (pair_values walk.entry) values.old }
{
    let room = values.len();
    let mut count = 0;
    while count < room {
        let Some((_key, value)) = walk.next() else {
            break;
        };
        values[count] = *value;
        count += 1;
    }
    count
}

/// Writes as many key lengths of an iterator as fit, and as many bytes of these keys as fit.
///
/// Returns how many lengths it wrote.
pub fn write_keys(mut walk: TextLogRange<'_>, bytes: &mut [u8], lengths: &mut [usize]) -> usize
    ensures count { result ≡ min (length walk.entry) (length lengths.old) }
    ensures lengths { lengths.new ≡ written result (key_lengths walk.entry) lengths.old }
    ensures bytes { bytes.new ≡ written_over (concat (take result (pair_keys walk.entry)))
        bytes.old }
{
    let room = lengths.len();
    let mut used = 0;
    let mut count = 0;
    while count < room {
        let Some((key, _value)) = walk.next() else {
            break;
        };
        let stored = key.as_bytes();
        used = write_behind(stored, bytes, used);
        lengths[count] = stored.len();
        count += 1;
    }
    count
}
