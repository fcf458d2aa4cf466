//! Callers that write through mutable references into a map, with contracts on the whole map.
ghost use Rattle.std.specs.Prelude.{◌≡◌, ◌≤◌, map, Some, None, OnOk, OnErr, is_some, if◌then◌else◌};
ghost use Rattle.std.specs.List.{fold};
ghost use Rattle.std.specs.Ordering.{nat_cmp};
ghost use Rattle.std.specs.declared.ops.Bound.TheVariants.{Included, Excluded};
ghost use Rattle.indexset_core.specs.Pairs.{value_of};
ghost use Rattle.indexset_map.specs.Contents.{with_pairs, with_value, with_written, without_entry};
ghost use Rattle.test_units.specs.Callers.{counted, more, raised, raised_within};

use indexset_core::refusal::Refused;
use indexset_map::{BTreeMap, Entry};
use std::ops::Bound;

/// Replaces the value of a present key by 7.
pub fn write_seven(m: &mut BTreeMap<u8, u32>, key: u8)
    ensures { m.new ≡ (if is_some (value_of nat_cmp m.old.pairs key) then with_value nat_cmp m.old
        key 7 else m.old) }
{
    if let Some(value) = m.get_mut(&key) {
        *value = 7;
    }
}

/// Counts a word.
pub fn count_word(counts: &mut BTreeMap<u8, u32>, word: u8) -> Result<(), Refused<(u8, u32)>>
    ensures ok { OnOk result (counts.new.pairs ≡ counted counts.old.pairs word) }
    ensures unchanged { OnErr result (counts.new ≡ counts.old) }
{
    let entry = counts.entry(word).and_modify(
        |n: &mut u32|
            ensures { n.new ≡ more 1 n.old }
        {
            *n = n.saturating_add(1);
        },
    );
    match entry.or_insert(1) {
        Ok(_) => Ok(()),
        Err(refused) => Err(refused),
    }
}

/// Counts each word in order.
pub fn count_words(counts: &mut BTreeMap<u8, u32>, words: &[u8]) -> Result<(), Refused<(u8, u32)>>
    ensures { OnOk result (counts.new.pairs ≡ fold counted counts.old.pairs words.now) }
{
    for i in 0..words.len() {
        count_word(counts, words[i])?;
    }
    Ok(())
}

/// Removes a key.
pub fn take(m: &mut BTreeMap<u8, u32>, key: u8) -> Option<u32>
    ensures rest { m.new ≡ without_entry nat_cmp m.old key }
    ensures value { result ≡ value_of nat_cmp m.old.pairs key }
{
    match m.entry(key) {
        Entry::Occupied(entry) => Some(entry.remove()),
        Entry::Vacant(_) => None,
    }
}

/// Replaces the first value by 0.
pub fn first_to_zero(m: &mut BTreeMap<u8, u32>)
    ensures { m.new ≡ with_written m.old 0 0 }
{
    if let Some(mut entry) = m.first_entry() {
        *entry.get_mut() = 0;
    }
}

/// Adds ten to each value.
pub fn add_ten(m: &mut BTreeMap<u8, u32>)
    ensures { m.new ≡ with_pairs m.old (map (raised 10) m.old.pairs) }
{
    let mut walk = m.iter_mut();
    while walk.has_next() {
        let (_, value) = walk.next_pair();
        *value = value.saturating_add(10);
    }
}

/// Adds ten to each value, with an iterator over the values.
pub fn add_ten_to_values(m: &mut BTreeMap<u8, u32>)
    ensures { m.new ≡ with_pairs m.old (map (raised 10) m.old.pairs) }
{
    let mut values = m.values_mut();
    while let Some(value) = values.next() {
        *value = value.saturating_add(10);
    }
}

/// Adds a hundred to the values of the keys from `from` on that are less than `below`.
pub fn add_hundred(m: &mut BTreeMap<u8, u32>, from: u8, below: u8)
    requires { from ≤ below }
    ensures { m.new ≡ with_pairs m.old (map (raised_within (Included from) (Excluded below) 100)
        m.old.pairs) }
{
    let mut walk = m.range_mut((Bound::Included(&from), Bound::Excluded(&below)));
    while walk.has_next() {
        let (_, value) = walk.next_pair();
        *value = value.saturating_add(100);
    }
}
