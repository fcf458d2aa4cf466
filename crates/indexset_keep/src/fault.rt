//! Faults that end a run.

use indexset_journal::JournalError;
use indexset_lines::RunFault;
use std::error::Error;
use std::fmt;

/// A fault that ends a run.
#[derive(Clone, Copy, Debug, PartialEq, Eq)]
pub enum KeepFault {
    /// Memory or event numbers ran out, or the reader or the writer failed.
    Run(RunFault),
    /// The lines could not be kept.
    Journal(JournalError),
    /// A node of the kept lines is larger than the node size of the leader.
    NodeSize,
}

impl KeepFault {
    ghost use Rattle.std.specs.Prelude.{◌≡◌};
    ghost use Rattle.indexset_keep.specs.Fault.{status_of};

    /// Returns the exit status of this fault.
    ///
    /// It is that of the run's fault, 8 if another process has the file open, 6 for any other error
    /// of the journal, and 7 for `NodeSize`.
    pub fn status(self) -> u8
        ensures { result ≡ status_of self }
    {
        match self {
            KeepFault::Run(fault) => fault.status(),
            KeepFault::Journal(JournalError::InUse) => 8,
            KeepFault::Journal(_) => 6,
            KeepFault::NodeSize => 7,
        }
    }
}

impl fmt::Display for KeepFault {
    fn fmt<W: fmt::Write>(&self, f: &mut fmt::Formatter<W>) -> fmt::Result {
        match self {
            KeepFault::Run(fault) => write!(f, "{fault}"),
            KeepFault::Journal(error) => write!(f, "{error}"),
            KeepFault::NodeSize => f.write_str("a kept node is larger than the node size"),
        }
    }
}

impl Error for KeepFault {}

impl From<RunFault> for KeepFault {
    ghost use Rattle.std.specs.Prelude.{◌≡◌};
    ghost use Rattle.indexset_keep.specs.declared.fault.KeepFault.TheVariants.{Run};

    ghost from_gives = { λ fault made. made ≡ Run fault };

    fn from(fault: RunFault) -> KeepFault {
        KeepFault::Run(fault)
    }
}

impl From<JournalError> for KeepFault {
    ghost use Rattle.std.specs.Prelude.{◌≡◌};
    ghost use Rattle.indexset_keep.specs.declared.fault.KeepFault.TheVariants.{Journal};

    ghost from_gives = { λ error made. made ≡ Journal error };

    fn from(error: JournalError) -> KeepFault {
        KeepFault::Journal(error)
    }
}
