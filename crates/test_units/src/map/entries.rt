//! Entries: counts of words, and the first and last entry.
use super::five;
use indexset_map::BTreeMap;
use std::test::Fail;

// Returns whether a word is counted.
fn is_counted(counts: &mut BTreeMap<&'static str, u64>, word: &'static str) -> bool {
    let entry = counts.entry(word).and_modify(|n: &mut u64| {
        *n = n.saturating_add(1);
    });
    entry.or_insert(1).is_ok()
}

// Returns whether each word is present with its count.
fn counts_words(counts: &mut BTreeMap<&'static str, u64>) -> bool {
    for word in ["a", "b", "a", "c", "a", "b"] {
        if !is_counted(counts, word) {
            return false;
        }
    }
    let words = counts.keys().copied().eq(["a", "b", "c"]);
    words && counts.values().copied().eq([3, 2, 1])
}

#[test]
fn words_are_counted(rt: HostRuntime) -> Result<(), Fail> {
    for size in [2, 1024] {
        let mut counts = BTreeMap::with_maximum_node_size(rt.alloc(), size)?;
        assert!(rt; counts_words(&mut counts));
    }
    Ok(())
}

#[test]
fn the_entries_at_both_ends(rt: HostRuntime) -> Result<(), Fail> {
    for size in [2, 1024] {
        let mut map = five(rt.alloc(), size)?;
        let first = map.first_entry().ok_or("there are five")?;
        let first_out = first.remove_entry() == (1, "a");
        let mut last = map.last_entry().ok_or("there are four")?;
        let replaced = last.insert("z") == "e";
        let written = map.last_key_value() == Some((&41, &"z")) && map.len() == 4;
        map.clear();
        let no_first = map.first_entry().is_none();
        let no_last = map.last_entry().is_none();
        assert!(rt; first_out && replaced && written && no_first && no_last);
    }
    Ok(())
}
