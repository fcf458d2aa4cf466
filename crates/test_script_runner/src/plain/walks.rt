//! Output of pairs, cursors and iterators of a map.

use indexset_map::{BTreeMap, CursorMap};
use std::fmt::Display;
use std::str::SplitWhitespace;
use test_script::script::{Stop, tell_option};
use test_script::walk;
use test_script::word::Word;

/// Writes a pair, or `none`.
pub fn tell_pair<K: Display + Drop, V: Display + Drop>(
    answer: &mut String,
    pair: Option<(K, V)>,
) -> Result<(), Stop> {
    match pair {
        Some((key, value)) => write!(answer, " {key}:{value}")?,
        None => write!(answer, " none")?,
    }
    Ok(())
}

/// Makes the calls of a cursor, one for each word.
pub fn follow<K: Word, V: Word>(
    mut cursor: CursorMap<'_, K, V>,
    words: &mut SplitWhitespace<'_>,
    answer: &mut String,
) -> Result<(), Stop> {
    for word in words {
        match word.split_once('=').unwrap_or((word, "")) {
            ("key", _) => tell_option(answer, cursor.key())?,
            ("value", _) => tell_option(answer, cursor.value())?,
            ("key_value", _) => tell_pair(answer, cursor.key_value())?,
            ("peek_next", _) => tell_pair(answer, cursor.peek_next())?,
            ("peek_prev", _) => tell_pair(answer, cursor.peek_prev())?,
            ("move_next", _) => cursor.move_next(),
            ("move_prev", _) => cursor.move_prev(),
            ("peek_index", i) => {
                let i = i.parse::<usize>().map_err(|_| Stop::Word)?;
                tell_pair(answer, cursor.peek_index(i))?;
            }
            ("move_index", i) => {
                cursor.move_index(i.parse::<usize>().map_err(|_| Stop::Word)?);
            }
            _ => return Err(Stop::Word),
        }
    }
    Ok(())
}

/// Iterates over the keys.
pub fn walk_keys<K: Word, V: Word>(
    map: &BTreeMap<K, V>,
    words: &mut SplitWhitespace<'_>,
    answer: &mut String,
) -> Result<(), Stop> {
    walk!(map.keys(), words, answer, tell_option)
}

/// Iterates over the values.
pub fn walk_values<K: Word, V: Word>(
    map: &BTreeMap<K, V>,
    words: &mut SplitWhitespace<'_>,
    answer: &mut String,
) -> Result<(), Stop> {
    walk!(map.values(), words, answer, tell_option)
}

/// Iterates over the keys of a map by value.
pub fn walk_owned_keys<K: Word, V: Word>(
    map: BTreeMap<K, V>,
    words: &mut SplitWhitespace<'_>,
    answer: &mut String,
) -> Result<(), Stop> {
    walk!(map.into_keys(), words, answer, tell_option)
}

/// Iterates over the values of a map by value.
pub fn walk_owned_values<K: Word, V: Word>(
    map: BTreeMap<K, V>,
    words: &mut SplitWhitespace<'_>,
    answer: &mut String,
) -> Result<(), Stop> {
    walk!(map.into_values(), words, answer, tell_option)
}

/// Iterates over the pairs.
pub fn walk_all<K: Word, V: Word>(
    map: &BTreeMap<K, V>,
    words: &mut SplitWhitespace<'_>,
    answer: &mut String,
) -> Result<(), Stop> {
    walk!(map.iter(), words, answer, tell_pair)
}

/// Iterates over the pairs of a map by value.
pub fn walk_owned<K: Word, V: Word>(
    map: BTreeMap<K, V>,
    words: &mut SplitWhitespace<'_>,
    answer: &mut String,
) -> Result<(), Stop> {
    walk!(map.into_iter(), words, answer, tell_pair)
}
