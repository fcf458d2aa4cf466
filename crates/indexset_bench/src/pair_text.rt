//! The texts of pairs.

ghost use Rattle.std.specs.Prelude.{Some};
ghost use Rattle.indexset_bench.specs.PairText.{pair_text};
ghost use Rattle.indexset_core.specs.Pairs.{pair};

use crate::key::Key;
use indexset_core::pair::Pair;
use std::fmt;

/// Displays a pair as it is written in a line.
#[derive(Clone, Copy)]
pub struct PairText<'a, T>(pub &'a Pair<T, T>);

impl<T: Key> fmt::Display for PairText<'_, T> {
    ghost output = { λ t. Some (pair_text T.texts t.0.now) };

    fn fmt<W: fmt::Write>(&self, f: &mut fmt::Formatter<W>) -> fmt::Result {
        let Pair { key, value } = self.0;
        write!(f, "{key}:{value}")
    }
}

/// Displays a key and its value as a pair is written.
#[derive(Clone, Copy)]
pub struct EntryText<'a, T>(pub &'a T, pub &'a T);

impl<T: Key> fmt::Display for EntryText<'_, T> {
    ghost output = { λ t. Some (pair_text T.texts (pair t.0.now t.1.now)) };

    fn fmt<W: fmt::Write>(&self, f: &mut fmt::Formatter<W>) -> fmt::Result {
        let EntryText(key, value) = self;
        write!(f, "{key}:{value}")
    }
}
