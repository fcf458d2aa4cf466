//! Parses two numbers, and writes an optional last number.

ghost use Rattle.std.specs.Prelude.{◌≡◌, Some};
ghost use Rattle.indexset_follow.specs.Numbers.{tail_text, two_numbers};

use indexset_wire::number::read_number;
use indexset_wire::parts::cut;
use std::fmt;

/// Returns the two numbers of a text that separates them with a space.
pub fn read_two(text: &[u8]) -> Option<(u64, u64)>
    ensures { result ≡ two_numbers text.now }
{
    let (first, second) = cut(text, b' ')?;
    let first = read_number(first)?;
    let second = read_number(second)?;
    Some((first, second))
}

/// A last number of a line, which is omitted if it is 0.
#[derive(Clone, Copy, Debug, PartialEq, Eq)]
pub struct Tail(pub u64);

impl fmt::Display for Tail {
    ghost output = { λ tail. Some (tail_text tail.0) };

    fn fmt<W: fmt::Write>(&self, f: &mut fmt::Formatter<W>) -> fmt::Result {
        let number = self.0;
        if number == 0 {
            Ok(())
        } else {
            write!(f, " {number}")
        }
    }
}
