//! Items that are words of a script.
ghost use Rattle.std.specs.Prelude.{IsTrue};
ghost use Rattle.indexset_core.specs.Order.{IsAscending};

use crate::owned::Owned;
use crate::script::Stop;
use crate::tagged::Tagged;
use std::alloc::Global;
use std::fmt::{Debug, Display};
use std::hash::Hash;
use std::ops::Bound;
use std::str::SplitWhitespace;

/// An item that has a word.
pub trait Word: Ord + Hash + Clone + Debug + Display + Drop {
    /// Reads an item.
    fn of(alloc: Global, word: &str) -> Result<Self, Stop>;

    /// Returns the item of a number, if there is one.
    fn numbered(alloc: Global, number: u64) -> Result<Self, Stop>;
}

impl Word for u64 {
    fn of(_alloc: Global, word: &str) -> Result<u64, Stop> {
        word.parse().map_err(|_| Stop::Word)
    }

    fn numbered(_alloc: Global, number: u64) -> Result<u64, Stop> {
        Ok(number)
    }
}

impl Word for char {
    fn of(_alloc: Global, word: &str) -> Result<char, Stop> {
        word.parse().map_err(|_| Stop::Word)
    }

    fn numbered(_alloc: Global, _number: u64) -> Result<char, Stop> {
        Err(Stop::NoCall)
    }
}

impl Word for Tagged {
    fn of(_alloc: Global, word: &str) -> Result<Tagged, Stop> {
        let (key, tag) = word.split_once(':').ok_or(Stop::Word)?;
        let key = key.parse().map_err(|_| Stop::Word)?;
        let tag = tag.parse().map_err(|_| Stop::Word)?;
        Ok(Tagged { key, tag })
    }

    fn numbered(_alloc: Global, key: u64) -> Result<Tagged, Stop> {
        Ok(Tagged { key, tag: 'a' })
    }
}

impl Word for String {
    fn of(alloc: Global, word: &str) -> Result<String, Stop> {
        let mut text = String::new(alloc);
        text.push_str(word)?;
        Ok(text)
    }

    fn numbered(_alloc: Global, _number: u64) -> Result<String, Stop> {
        Err(Stop::NoCall)
    }
}

impl Word for Owned {
    fn of(alloc: Global, word: &str) -> Result<Owned, Stop> {
        let number = word.parse().map_err(|_| Stop::Word)?;
        Ok(Owned::new(alloc, number)?)
    }

    fn numbered(alloc: Global, number: u64) -> Result<Owned, Stop> {
        Ok(Owned::new(alloc, number)?)
    }
}

/// Reads the item of the next word.
pub fn item<T: Word>(alloc: Global, words: &mut SplitWhitespace<'_>) -> Result<T, Stop> {
    T::of(alloc, words.next().ok_or(Stop::Word)?)
}

/// Reads the items of the remaining words.
pub fn items<T: Word>(alloc: Global, words: &mut SplitWhitespace<'_>) -> Result<Vec<T>, Stop> {
    let mut items = Vec::new(alloc);
    for word in words {
        items.push(T::of(alloc, word)?)?;
    }
    Ok(items)
}

/// Reads a bound, as `read_bound` does.
pub fn bound<T: Word>(alloc: Global, words: &mut SplitWhitespace<'_>) -> Result<Bound<T>, Stop> {
    let word = words.next().ok_or(Stop::Word)?;
    if word == ".." {
        return Ok(Bound::Unbounded);
    }
    if let Some(text) = word.strip_prefix('[').or(word.strip_suffix(']')) {
        return Ok(Bound::Included(T::of(alloc, text)?));
    }
    let text = word.strip_prefix('(').or(word.strip_suffix(')'));
    Ok(Bound::Excluded(T::of(alloc, text.ok_or(Stop::Word)?)?))
}

/// Returns whether each item is less than the next.
pub fn is_sorted<T: Ord>(items: &[T]) -> bool
    ensures { IsTrue result → IsAscending T.cmp items.now }
{
    items.is_sorted_by(|item, next| item.cmp(next).is_lt())
}
