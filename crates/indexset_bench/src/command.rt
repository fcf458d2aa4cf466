//! The commands to the set, and the meaning of a line.

ghost use Rattle.std.specs.Prelude.{◌≡◌};
ghost use Rattle.indexset_bench.specs.Command.{meaning};

use indexset_wire::number::read_number;

/// A command to the set.
#[derive(Clone, Copy, Debug, PartialEq, Eq)]
pub enum Command {
    /// Inserts the number.
    Add(u64),
    /// Removes the number.
    Del(u64),
    /// Returns whether the number is present.
    Has(u64),
    /// Returns how many numbers are less than this one.
    Rank(u64),
    /// Returns the number at this position.
    At(u64),
    /// Returns how many numbers there are.
    Len,
}

/// Returns the command that the line spells, or `None` if it spells none.
pub fn parse(line: &[u8]) -> Option<Command>
    ensures { result ≡ meaning line.now }
{
    if let Some(digits) = line.strip_prefix(b"add ") {
        return read_number(digits).map(Command::Add);
    }
    if let Some(digits) = line.strip_prefix(b"del ") {
        return read_number(digits).map(Command::Del);
    }
    if let Some(digits) = line.strip_prefix(b"has ") {
        return read_number(digits).map(Command::Has);
    }
    if let Some(digits) = line.strip_prefix(b"rank ") {
        return read_number(digits).map(Command::Rank);
    }
    if let Some(digits) = line.strip_prefix(b"at ") {
        return read_number(digits).map(Command::At);
    }
    if line == b"len".as_slice() {
        Some(Command::Len)
    } else {
        None
    }
}
