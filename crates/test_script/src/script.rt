//! The words of calls and of answers, which subjects of scripts read and write.

use indexset_core::refusal::{Refusal, Refused};
use std::alloc::{AllocError, AllocFailed, Global};
use std::fmt::Display;
use std::ops::Bound;
use std::str::{FromStr, SplitWhitespace};

/// The reason why a call could not be made.
#[derive(Debug, Drop)]
pub enum Stop {
    /// The library refused the call.
    Refused(Refusal),
    /// An allocation of the player failed, for the words or the answer.
    Memory,
    /// The library refused the call, and returned something other than its argument.
    Otherwise,
    /// A word is missing, or the call does not take it.
    Word,
    /// No call has this name, or its precondition does not hold.
    NoCall,
}

impl From<Refusal> for Stop {
    fn from(cause: Refusal) -> Stop {
        Stop::Refused(cause)
    }
}

impl From<AllocError> for Stop {
    fn from(_: AllocError) -> Stop {
        Stop::Memory
    }
}

impl<X: Drop> From<AllocFailed<X>> for Stop {
    fn from(_: AllocFailed<X>) -> Stop {
        Stop::Memory
    }
}

impl<X: Drop> From<Refused<X>> for Stop {
    fn from(refused: Refused<X>) -> Stop {
        Stop::Refused(refused.cause)
    }
}

/// A subject of scripts.
pub trait Subject {
    /// Makes a call, and writes its answer.
    fn call(
        &mut self,
        name: &str,
        words: &mut SplitWhitespace<'_>,
        answer: &mut String,
    ) -> Result<(), Stop>;
}

/// Reads the next word.
pub fn read<X: FromStr>(words: &mut SplitWhitespace<'_>) -> Result<X, Stop>
where
    X::Err: Drop,
{
    let word = words.next().ok_or(Stop::Word)?;
    word.parse().map_err(|_| Stop::Word)
}

/// Writes a word.
pub fn tell<D: Display + Drop>(answer: &mut String, value: D) -> Result<(), Stop> {
    write!(answer, " {value}")?;
    Ok(())
}

/// Writes a value, or `none`.
pub fn tell_option<D: Display + Drop>(answer: &mut String, value: Option<D>) -> Result<(), Stop> {
    match value {
        Some(value) => tell(answer, value),
        None => tell(answer, "none"),
    }
}

/// Reads a bound: `[3` or `3]` includes 3, `(3` or `3)` excludes it, and `..` is no bound.
pub fn read_bound<X: FromStr>(words: &mut SplitWhitespace<'_>) -> Result<Bound<X>, Stop>
where
    X::Err: Drop,
{
    let word = words.next().ok_or(Stop::Word)?;
    if word == ".." {
        return Ok(Bound::Unbounded);
    }
    if let Some(text) = word.strip_prefix('[').or(word.strip_suffix(']')) {
        return text.parse().map(Bound::Included).map_err(|_| Stop::Word);
    }
    let text = word.strip_prefix('(').or(word.strip_suffix(')'));
    let value = text.ok_or(Stop::Word)?.parse();
    value.map(Bound::Excluded).map_err(|_| Stop::Word)
}

/// Writes what an iterator yields for each of the remaining words.
///
/// It is a macro, because an iterator of any type has no contract for `next`.
#[macro_export]
macro_rules! walk {
    ($items:expr, $words:expr, $answer:expr, $tell:path) => {{
        let mut items = $items;
        for word in $words {
            match word {
                "next" => $tell($answer, items.next())?,
                "next_back" => $tell($answer, items.next_back())?,
                "len" => $crate::script::tell($answer, items.len())?,
                "size_hint" => write!($answer, " {:?}", items.size_hint())?,
                _ => return Err($crate::script::Stop::Word),
            }
        }
        Ok(())
    }};
}

/// Returns whether the text of a value is this word.
pub fn is_spelt<D: Display>(alloc: Global, value: &D, word: &str) -> Result<bool, Stop> {
    let text = format!(in alloc; "{value}")?;
    Ok(text.as_str() == word)
}

/// Returns the result of a call, or its refusal, which must return the value of a word.
pub fn given<X: Drop, T: Display + Drop>(
    alloc: Global,
    word: &str,
    made: Result<X, Refused<T>>,
) -> Result<X, Stop> {
    match made {
        Ok(made) => Ok(made),
        Err(Refused { value, cause }) => {
            if is_spelt(alloc, &value, word)? {
                Err(Stop::Refused(cause))
            } else {
                Err(Stop::Otherwise)
            }
        }
    }
}

/// Returns the refusal of a call that has no cause.
pub fn refused<X>(made: Result<X, AllocError>) -> Result<X, Stop> {
    made.map_err(|_| Stop::Refused(Refusal::Memory))
}

/// Returns the texts before and after the dots of a range.
pub fn range(word: &str) -> Option<(u64, u64)> {
    let (from, to) = word.split_once("..")?;
    Some((from.parse().ok()?, to.parse().ok()?))
}

/// Writes a word, or each number of a range.
pub fn spell(text: &mut String, word: &str) -> Result<(), AllocError> {
    let Some((from, to)) = range(word) else {
        return write!(text, " {word}");
    };
    for each in (from..to).chain((to..from).rev()) {
        write!(text, " {each}")?;
    }
    Ok(())
}
