//! Output as one word.

use std::alloc::Global;
use std::fmt::Display;
use std::str::SplitWhitespace;
use test_script::script::{Stop, read, tell};

/// Writes a text as one word, with an underscore for each space.
pub fn tell_text<D: Display>(alloc: Global, answer: &mut String, shown: &D) -> Result<(), Stop> {
    let text = format!(in alloc; "{shown}")?;
    for (place, word) in text.split(' ').enumerate() {
        answer.push_str(if place == 0 { " " } else { "_" })?;
        answer.push_str(word)?;
    }
    Ok(())
}

/// Writes whether there is capacity for the number of items that the next word is.
pub fn tell_room(
    capacity: usize,
    words: &mut SplitWhitespace<'_>,
    answer: &mut String,
) -> Result<(), Stop> {
    let count: usize = read(words)?;
    tell(answer, count <= capacity)
}

/// Writes the position of a search, after `gap` if it found nothing.
pub fn tell_position(answer: &mut String, position: Result<usize, usize>) -> Result<(), Stop> {
    match position {
        Ok(position) => Ok(write!(answer, " {position}")?),
        Err(position) => Ok(write!(answer, " gap {position}")?),
    }
}
