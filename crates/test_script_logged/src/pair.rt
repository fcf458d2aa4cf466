//! Pairs as words of a script.

use indexset_core::pair::Pair;
use indexset_core::refusal::Refused;
use std::fmt::Display;
use test_script::script::{Stop, tell};

/// Returns the pair of a refused call as one value.
pub fn shown_pair<X, K, V>(made: Result<X, Refused<(K, V)>>) -> Result<X, Refused<Pair<K, V>>> {
    match made {
        Ok(value) => Ok(value),
        Err(Refused { value, cause }) => {
            let (key, value) = value;
            let value = Pair { key, value };
            Err(Refused { value, cause })
        }
    }
}

/// Writes the first or last pair, or `none`.
pub fn tell_end<K: Display, V: Display>(
    answer: &mut String,
    end: Option<(&K, &V)>,
) -> Result<(), Stop> {
    match end {
        Some((key, value)) => Ok(write!(answer, " {key}:{value}")?),
        None => tell(answer, "none"),
    }
}
