//! The results of calls that can fail.
ghost use Rattle.std.specs.Prelude.{◌≡◌, ◌≢◌, ◌↔◌};
ghost use Rattle.indexset_ffi.specs.Replicas.{status_of};

use indexset_core::refusal::Refusal;

/// There was nothing to do.
pub const NO: u32 = 0;

/// It was done.
pub const YES: u32 = 1;

/// Memory ran out. Nothing was changed.
pub const MEMORY: u32 = 2;

/// The handle is empty. Nothing was changed.
pub const NONE: u32 = 3;

/// The handle has a collection. Nothing was changed.
pub const HELD: u32 = 4;

/// Too few numbers remain. Nothing was changed.
pub const NUMBERS: u32 = 5;

/// An argument does not fit. Nothing was changed.
pub const UNFIT: u32 = 6;

/// Returns the status of a refusal.
pub fn of_refusal(cause: Refusal) -> u32
    ensures memory { result ≡ MEMORY ↔ (cause ≡ Refusal.Memory) }
    ensures numbers { result ≡ NUMBERS ↔ (cause ≡ Refusal.Numbers) }
    ensures others { cause ≢ Refusal.Memory → cause ≢ Refusal.Numbers → result ≡ UNFIT }
{
    match cause {
        Refusal::Memory => MEMORY,
        Refusal::Numbers => NUMBERS,
        _ => UNFIT,
    }
}

/// Returns the status of an event that a replica refused.
///
/// It is `MEMORY`, `NUMBERS`, `UNFIT`, or a number of its own from 11 on.
pub fn status_of(cause: Refusal) -> u32
    ensures { result ≡ status_of cause }
{
    match cause {
        Refusal::Memory => MEMORY,
        Refusal::Numbers => NUMBERS,
        Refusal::Empty
        | Refusal::TooLarge
        | Refusal::Unsorted
        | Refusal::Overlaps
        | Refusal::PairNumber => UNFIT,
        other => u32::from(other.number()),
    }
}
