//! Items as words of a script. A pair is `1:a`, and a numbered pair `1:a #0`.
ghost use Rattle.std.specs.Prelude.{◌≡◌};
ghost use Rattle.std.specs.Range.Bound.{bound_map};
ghost use Rattle.indexset_core.specs.KeyRange.{are_ordered};

use crate::meter::{Meter, Metered};
use indexset_core::key_range::bounds_are_ordered;
use indexset_core::multipair::MultiPair;
use indexset_core::pair::Pair;
use std::alloc::Global;
use std::cell::Cell;
use std::fmt::Display;
use std::ops::Bound;
use std::rc::Rc;
use std::str::SplitWhitespace;
use test_script::owned::Owned;
use test_script::script::{Stop, read};
use test_script::tagged::Tagged;

/// The allocator and the meter of items.
#[derive(Drop)]
pub struct Source {
    pub alloc: Global,
    pub meter: Rc<Meter>,
}

impl Source {
    /// Returns a source whose items can be cloned without limit.
    pub fn new(alloc: Global) -> Result<Source, Stop> {
        let meter = Meter {
            asked: Cell::new(0),
            clones: Cell::new(u64::MAX),
        };
        let meter = Rc::new(alloc, meter)?;
        Ok(Source { alloc, meter })
    }
}

/// An item of a script.
pub trait Item: Ord + Clone + Display + Drop {
    /// Reads the words of an item.
    fn read_item(source: &Source, words: &mut SplitWhitespace<'_>) -> Result<Self, Stop>;

    /// Returns whether both have the same text. Equal items may have different texts.
    fn is_same(&self, other: &Self) -> bool;
}

/// A value of a script.
pub trait Value: Eq + Clone + Display + Drop {
    /// Returns the value of a word.
    fn of(word: &str) -> Result<Self, Stop>;
}

impl Value for char {
    fn of(word: &str) -> Result<char, Stop> {
        word.parse().map_err(|_| Stop::Word)
    }
}

impl Value for u64 {
    fn of(word: &str) -> Result<u64, Stop> {
        word.parse().map_err(|_| Stop::Word)
    }
}

/// Returns the item of a text.
pub fn item_of<T: Item>(source: &Source, text: &str) -> Result<T, Stop> {
    T::read_item(source, &mut text.split_whitespace())
}

/// Reads a key and a value, separated by a colon.
pub fn read_pair<K: Item, V: Value>(
    source: &Source,
    words: &mut SplitWhitespace<'_>,
) -> Result<(K, V), Stop> {
    let word = words.next().ok_or(Stop::Word)?;
    let (key, value) = word.split_once(':').ok_or(Stop::Word)?;
    Ok((item_of(source, key)?, V::of(value)?))
}

impl Item for u64 {
    fn read_item(_source: &Source, words: &mut SplitWhitespace<'_>) -> Result<u64, Stop> {
        read(words)
    }

    fn is_same(&self, other: &Self) -> bool {
        self == other
    }
}

impl Item for Owned {
    fn read_item(source: &Source, words: &mut SplitWhitespace<'_>) -> Result<Owned, Stop> {
        Ok(Owned::new(source.alloc, read(words)?)?)
    }

    fn is_same(&self, other: &Self) -> bool {
        self == other
    }
}

impl Item for Metered {
    fn read_item(source: &Source, words: &mut SplitWhitespace<'_>) -> Result<Metered, Stop> {
        Ok(Metered::new(read(words)?, &source.meter)?)
    }

    fn is_same(&self, other: &Self) -> bool {
        self == other
    }
}

impl Item for Tagged {
    fn read_item(source: &Source, words: &mut SplitWhitespace<'_>) -> Result<Tagged, Stop> {
        let (key, tag) = read_pair(source, words)?;
        Ok(Tagged { key, tag })
    }

    fn is_same(&self, other: &Self) -> bool {
        self.key == other.key && self.tag == other.tag
    }
}

impl Item for String {
    fn read_item(source: &Source, words: &mut SplitWhitespace<'_>) -> Result<String, Stop> {
        let word = words.next().ok_or(Stop::Word)?;
        Ok(String::from_str(source.alloc, word)?)
    }

    fn is_same(&self, other: &Self) -> bool {
        self == other
    }
}

impl<K: Item, V: Value> Item for Pair<K, V> {
    fn read_item(source: &Source, words: &mut SplitWhitespace<'_>) -> Result<Pair<K, V>, Stop> {
        let (key, value) = read_pair(source, words)?;
        Ok(Pair { key, value })
    }

    fn is_same(&self, other: &Self) -> bool {
        self.key.is_same(&other.key) && self.value == other.value
    }
}

impl<K: Item, V: Value> Item for MultiPair<K, V> {
    fn read_item(source: &Source, words: &mut SplitWhitespace<'_>) -> Result<Self, Stop> {
        let (key, value) = read_pair(source, words)?;
        let word = words.next().ok_or(Stop::Word)?;
        let number = word.strip_prefix('#').ok_or(Stop::Word)?;
        let number = number.parse().map_err(|_| Stop::Word)?;
        Ok(MultiPair::new(key, value, number))
    }

    fn is_same(&self, other: &Self) -> bool {
        self.key.is_same(&other.key)
            && self.value == other.value
            && self.discriminator == other.discriminator
    }
}

/// Reads an item from each remaining word.
pub fn read_items<T: Item>(
    source: &Source,
    words: &mut SplitWhitespace<'_>,
) -> Result<Vec<T>, Stop> {
    let mut items = Vec::new(source.alloc);
    for word in words {
        items.push(item_of(source, word)?)?;
    }
    Ok(items)
}

/// Returns whether the bounds of a range are in order. The meter does not count the comparison.
pub fn may_range<T: Item>(source: &Source, start: Bound<&T>, end: Bound<&T>) -> bool
    ensures { result ≡ are_ordered T.cmp (bound_map (λ x. x.now) start.entry)
        (bound_map (λ x. x.now) end.entry) }
{
    let asked = source.meter.asked.get();
    let is_ordered = bounds_are_ordered(start, end);
    source.meter.asked.set(asked);
    is_ordered
}

/// Reads a bound: `[3` or `3]` includes 3, `(3` or `3)` excludes it, and `..` is no bound.
pub fn read_bound<T: Item>(
    source: &Source,
    words: &mut SplitWhitespace<'_>,
) -> Result<Bound<T>, Stop> {
    let word = words.next().ok_or(Stop::Word)?;
    if word == ".." {
        return Ok(Bound::Unbounded);
    }
    if let Some(text) = word.strip_prefix('[').or(word.strip_suffix(']')) {
        return Ok(Bound::Included(item_of(source, text)?));
    }
    let text = word.strip_prefix('(').or(word.strip_suffix(')'));
    Ok(Bound::Excluded(item_of(source, text.ok_or(Stop::Word)?)?))
}

/// Reads the two bounds of a range.
pub fn read_range<T: Item>(
    source: &Source,
    words: &mut SplitWhitespace<'_>,
) -> Result<(Bound<T>, Bound<T>), Stop> {
    let start = read_bound(source, words)?;
    Ok((start, read_bound(source, words)?))
}
