//! Entries of a map of numbers. A word after a call that returns a mutable reference replaces the
//! value.

use indexset_core::refusal::Refused;
use indexset_map::{BTreeMap, Entry};
use std::str::SplitWhitespace;
use test_script::script::{Stop, read, tell};

// Writes the value that a call refers to as its answer, and replaces it by the next word, if any. A
// refused call returns the pair in the error.
fn tell_lent(
    given: (u64, u64),
    lent: Result<&mut u64, Refused<(u64, u64)>>,
    words: &mut SplitWhitespace<'_>,
    answer: &mut String,
) -> Result<(), Stop> {
    match lent {
        Ok(value) => {
            tell(answer, *value)?;
            if let Some(word) = words.next() {
                *value = word.parse().map_err(|_| Stop::Word)?;
            }
            Ok(())
        }
        Err(Refused { value, cause }) if value == given => Err(Stop::Refused(cause)),
        Err(_) => Err(Stop::Otherwise),
    }
}

/// Inserts a pair if its key is absent.
pub fn or_put(
    map: &mut BTreeMap<u64, u64>,
    name: &str,
    words: &mut SplitWhitespace<'_>,
    answer: &mut String,
) -> Result<(), Stop> {
    let key = read(words)?;
    let value = read(words)?;
    let pair = (key, value);
    match name {
        "or_insert" => tell_lent(pair, map.entry(key).or_insert(value), words, answer),
        "or_insert_with" => {
            let lent = map.entry(key).or_insert_with(|| value);
            tell_lent(pair, lent, words, answer)
        }
        _ => {
            let lent = map.entry(key).or_insert_with_key(|key: &u64| *key);
            tell_lent((key, key), lent, words, answer)
        }
    }
}

/// Inserts a key with the default value if it is absent.
pub fn or_default(
    map: &mut BTreeMap<u64, u64>,
    words: &mut SplitWhitespace<'_>,
    answer: &mut String,
) -> Result<(), Stop> {
    let key = read(words)?;
    tell_lent((key, 0), map.entry(key).or_default(), words, answer)
}

/// Adds a number to the value of a key, or inserts the pair.
pub fn modify(
    map: &mut BTreeMap<u64, u64>,
    words: &mut SplitWhitespace<'_>,
    answer: &mut String,
) -> Result<(), Stop> {
    let more: u64 = read(words)?;
    let key = read(words)?;
    let value = read(words)?;
    let entry = map.entry(key).and_modify(|held: &mut u64| {
        *held = held.saturating_add(more);
    });
    tell_lent((key, value), entry.or_insert(value), words, answer)
}

/// Writes the key of an entry, and its value, if it has one.
pub fn show(
    map: &mut BTreeMap<u64, u64>,
    words: &mut SplitWhitespace<'_>,
    answer: &mut String,
) -> Result<(), Stop> {
    match map.entry(read(words)?) {
        Entry::Occupied(entry) => {
            let key = *entry.key();
            let value = *entry.get();
            Ok(write!(answer, " occupied {key} {value}")?)
        }
        Entry::Vacant(entry) => {
            let key = *entry.key();
            Ok(write!(answer, " vacant {key}")?)
        }
    }
}

/// Writes the key of an entry of either kind.
pub fn show_key(
    map: &mut BTreeMap<u64, u64>,
    words: &mut SplitWhitespace<'_>,
    answer: &mut String,
) -> Result<(), Stop> {
    let key = *map.entry(read(words)?).key();
    tell(answer, key)
}

/// Writes the key that a vacant entry returns.
pub fn give_back(
    map: &mut BTreeMap<u64, u64>,
    words: &mut SplitWhitespace<'_>,
    answer: &mut String,
) -> Result<(), Stop> {
    match map.entry(read(words)?) {
        Entry::Occupied(_) => Err(Stop::NoCall),
        Entry::Vacant(entry) => tell(answer, entry.into_key()),
    }
}

/// Inserts a value with an entry, and writes the old value, or the inserted one.
pub fn insert(
    map: &mut BTreeMap<u64, u64>,
    words: &mut SplitWhitespace<'_>,
    answer: &mut String,
) -> Result<(), Stop> {
    let key = read(words)?;
    let value = read(words)?;
    match map.entry(key) {
        Entry::Occupied(mut entry) => tell(answer, entry.insert(value)),
        Entry::Vacant(entry) => tell_lent((key, value), entry.insert(value), words, answer),
    }
}

/// Replaces the value of an occupied entry, through a reference that ends with the entry or
/// outlives it.
pub fn overwrite(
    map: &mut BTreeMap<u64, u64>,
    name: &str,
    words: &mut SplitWhitespace<'_>,
    answer: &mut String,
) -> Result<(), Stop> {
    let key = read(words)?;
    let new = read(words)?;
    let Entry::Occupied(mut entry) = map.entry(key) else {
        return Err(Stop::NoCall);
    };
    tell(answer, *entry.get())?;
    if name == "entry_get_mut" {
        *entry.get_mut() = new;
    } else {
        let value = entry.into_mut();
        *value = new;
    }
    Ok(())
}

/// Removes the value or the pair of an occupied entry.
pub fn remove(
    map: &mut BTreeMap<u64, u64>,
    name: &str,
    words: &mut SplitWhitespace<'_>,
    answer: &mut String,
) -> Result<(), Stop> {
    let Entry::Occupied(entry) = map.entry(read(words)?) else {
        return Err(Stop::NoCall);
    };
    if name == "entry_remove" {
        return tell(answer, entry.remove());
    }
    let (key, value) = entry.remove_entry();
    Ok(write!(answer, " {key}:{value}")?)
}
