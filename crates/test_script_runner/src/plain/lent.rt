//! Values that are written through mutable references. `next=7` replaces the next value by 7.

use crate::plain::maps::pair;
use indexset_core::key_range::bounds_are_ordered;
use indexset_map::BTreeMap;
use std::alloc::Global;
use std::str::SplitWhitespace;
use test_script::script::{Stop, read_bound, tell};
use test_script::word::{Word, item};

/// Writes the value as the answer, and replaces it by the next word.
pub fn overwrite<V: Word>(
    alloc: Global,
    lent: Option<&mut V>,
    words: &mut SplitWhitespace<'_>,
    answer: &mut String,
) -> Result<(), Stop> {
    let value = item(alloc, words)?;
    match lent {
        Some(held) => {
            tell(answer, &*held)?;
            *held = value;
            Ok(())
        }
        None => tell(answer, "none"),
    }
}

/// Retains the keys of the words, replaces their values, and writes the pairs that the closure is
/// called with.
pub fn retain<K: Word, V: Word>(
    alloc: Global,
    map: &mut BTreeMap<K, V>,
    words: &mut SplitWhitespace<'_>,
    answer: &mut String,
) -> Result<(), Stop> {
    let mut kept: BTreeMap<K, V> = BTreeMap::new(alloc)?;
    for word in words {
        let (key, value) = pair(alloc, word)?;
        kept.insert(key, value)?;
    }
    let mut told = Ok(());
    map.retain(|key: &K, value: &mut V| -> bool {
        if told.is_ok() {
            told = write!(answer, " {key}:{value}");
        }
        match kept.remove(key) {
            Some(new) => {
                *value = new;
                true
            }
            None => false,
        }
    });
    Ok(told?)
}

// Returns the name of a word, and the value to write, if it has one.
fn parts(word: &str) -> Result<(&str, Option<u64>), Stop> {
    match word.split_once('=') {
        Some((name, value)) => Ok((name, Some(value.parse().map_err(|_| Stop::Word)?))),
        None => Ok((word, None)),
    }
}

// Writes the pair as the answer, and replaces its value.
fn put_pair(answer: &mut String, key: u64, value: &mut u64, new: Option<u64>) -> Result<(), Stop> {
    write!(answer, " {key}:{}", *value)?;
    if let Some(new) = new {
        *value = new;
    }
    Ok(())
}

// Writes the value as the answer, and replaces it.
fn put_value(answer: &mut String, value: Option<&mut u64>, new: Option<u64>) -> Result<(), Stop> {
    let Some(value) = value else {
        return tell(answer, "none");
    };
    tell(answer, *value)?;
    if let Some(new) = new {
        *value = new;
    }
    Ok(())
}

// Calls a mutable iterator over pairs once for each word.
macro_rules! walk_pairs {
    ($walk:expr, $words:expr, $answer:expr) => {{
        let mut walk = $walk;
        for word in $words {
            let (name, new) = parts(word)?;
            match name {
                "next" => match walk.next() {
                    Some((key, value)) => put_pair($answer, *key, value, new)?,
                    None => tell($answer, "none")?,
                },
                "next_back" => match walk.next_back() {
                    Some((key, value)) => put_pair($answer, *key, value, new)?,
                    None => tell($answer, "none")?,
                },
                "len" => tell($answer, walk.len())?,
                "has_next" => tell($answer, walk.has_next())?,
                _ => {
                    if name != "next_pair" || !walk.has_next() {
                        return Err(Stop::Word);
                    }
                    let (key, value) = walk.next_pair();
                    put_pair($answer, *key, value, new)?;
                }
            }
        }
        Ok(())
    }};
}

/// Iterates over all pairs mutably.
pub fn walk_all(
    map: &mut BTreeMap<u64, u64>,
    words: &mut SplitWhitespace<'_>,
    answer: &mut String,
) -> Result<(), Stop> {
    walk_pairs!(map.iter_mut(), words, answer)
}

/// Iterates over the pairs between two keys mutably.
pub fn walk_range(
    map: &mut BTreeMap<u64, u64>,
    words: &mut SplitWhitespace<'_>,
    answer: &mut String,
) -> Result<(), Stop> {
    let start = read_bound::<u64>(words)?;
    let end = read_bound::<u64>(words)?;
    if !bounds_are_ordered(start.as_ref(), end.as_ref()) {
        return Err(Stop::NoCall);
    }
    walk_pairs!(map.range_mut((start.as_ref(), end.as_ref())), words, answer)
}

/// Iterates over the values.
pub fn walk_values(
    map: &mut BTreeMap<u64, u64>,
    words: &mut SplitWhitespace<'_>,
    answer: &mut String,
) -> Result<(), Stop> {
    let mut walk = map.values_mut();
    for word in words {
        let (name, new) = parts(word)?;
        match name {
            "next" => put_value(answer, walk.next(), new)?,
            "next_back" => put_value(answer, walk.next_back(), new)?,
            "len" => tell(answer, walk.len())?,
            _ => return Err(Stop::Word),
        }
    }
    Ok(())
}

/// Writes the pairs of a mutable iterator over positions.
pub fn tell_positions(
    map: &mut BTreeMap<u64, u64>,
    words: &mut SplitWhitespace<'_>,
    answer: &mut String,
) -> Result<(), Stop> {
    let range = (read_bound(words)?, read_bound(words)?);
    let mut walk = map.range_mut_idx(range);
    for _ in 0..walk.len() {
        if let Some((key, value)) = walk.next() {
            write!(answer, " {key}:{}", *value)?;
        }
    }
    Ok(())
}
