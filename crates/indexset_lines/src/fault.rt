//! Faults that end a run.

use indexset_core::refusal::{Refusal, Refused};
use std::error::Error;
use std::fmt;

/// A fault that ends a run.
#[derive(Clone, Copy, Debug, PartialEq, Eq)]
pub enum RunFault {
    /// Memory ran out.
    Memory,
    /// Event numbers ran out.
    Numbers,
    /// The reader failed.
    Read,
    /// The writer failed.
    Write,
}

impl RunFault {
    ghost use Rattle.std.specs.Prelude.{◌≡◌};
    ghost use Rattle.indexset_lines.specs.Fault.{status_of, word_of};

    /// Returns the exit status of this fault.
    pub fn status(self) -> u8
        ensures { result ≡ status_of self }
    {
        match self {
            RunFault::Memory => 1,
            RunFault::Numbers => 2,
            RunFault::Read => 3,
            RunFault::Write => 4,
        }
    }

    /// Returns the word for this fault.
    pub fn word(self) -> &'static str
        ensures { result.now ≡ word_of self }
    {
        match self {
            RunFault::Memory => "memory",
            RunFault::Numbers => "numbers",
            RunFault::Read => "read",
            RunFault::Write => "write",
        }
    }
}

impl fmt::Display for RunFault {
    ghost use Rattle.std.specs.Prelude.{Some};
    ghost use Rattle.indexset_lines.specs.Fault.{word_of};

    ghost output = { λ fault. Some (word_of fault) };

    fn fmt<W: fmt::Write>(&self, f: &mut fmt::Formatter<W>) -> fmt::Result {
        f.write_str(self.word())
    }
}

impl Error for RunFault {}

impl From<Refusal> for RunFault {
    ghost use Rattle.std.specs.Prelude.{◌≡◌};
    ghost use Rattle.indexset_lines.specs.Fault.{fault_of};

    ghost from_gives = { λ refusal fault. fault ≡ fault_of refusal };

    fn from(refusal: Refusal) -> RunFault {
        match refusal {
            Refusal::Numbers => RunFault::Numbers,
            _ => RunFault::Memory,
        }
    }
}

impl<X: Drop> From<Refused<X>> for RunFault {
    ghost use Rattle.std.specs.Prelude.{◌≡◌};
    ghost use Rattle.indexset_lines.specs.Fault.{fault_of};

    ghost from_gives = { λ refused fault. fault ≡ fault_of refused.cause };

    fn from(refused: Refused<X>) -> RunFault {
        RunFault::from(refused.cause)
    }
}
