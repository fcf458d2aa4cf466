//! Numbers in plain decimal.
ghost use Rattle.std.specs.Prelude.{◌≡◌, ◌≢◌, ℕ, ◌^◌, ◌<◌, ◌≤◌, ℤ, None, Some, is_some};
ghost use Rattle.std.specs.Prelude.{IfSome, MatchOption, OnOk};
ghost use Rattle.std.specs.Fmt.{decimal};
ghost use Rattle.std.specs.Io.KnownBytes.{Appends};
ghost use Rattle.std.specs.Str.Parse.{AllDigits, digits_value};
ghost use Rattle.indexset_wire.specs.Numbers.{number_below, number_of, signed_below};

use crate::digits::fill_decimal;
use std::io::{self, Write};

/// Writes a number.
///
/// # Errors
///
/// Those of the writer.
pub fn write_number<W: Write>(writer: &mut W, number: u64) -> io::Result<()>
    ensures { OnOk result (Appends (W.contents writer.old) (W.contents writer.new)
        (decimal number)) }
{
    let mut buffer = [0; 20];
    let start = fill_decimal(number, &mut buffer);
    writer.write_all(&buffer[start..])
}

/// Returns the number with this plain decimal text, if any.
pub fn read_number(text: &[u8]) -> Option<u64>
    ensures { result ≡ number_of text.now }
{
    number(text)
}

/// Returns the number below the bound with this plain decimal text, if any.
pub(crate) fn read_below(text: &[u8], bound: u64) -> Option<u64>
    ensures number { result ≡ number_below bound text.now }
    ensures below { IfSome result (λ number. number < bound) }
{
    let number = read_number(text)?;
    if number < bound { Some(number) } else { None }
}

// Returns the number with this plain decimal text, if any.
fn number(text: &[u8]) -> Option<u64>
    ensures { MatchOption result
        ((n : ℕ) → n < 2 ^ 64 → text.now ≢ decimal n)
        (λ n. (text.now ≡ decimal n) × (n < 2 ^ 64)) }
{
    if text.is_empty() {
        return None;
    }
    if text[0] == b'0' && text.len() > 1 {
        return None;
    }
    digits(text)
}

// Returns the number that decimal digits write, if it fits a u64.
fn digits(text: &[u8]) -> Option<u64>
    ensures { MatchOption result
        (AllDigits 10 text.now → 2 ^ 64 ≤ digits_value 10 text.now)
        (λ n. AllDigits 10 text.now × (n ≡ digits_value 10 text.now) × (n < 2 ^ 64)) }
{
    let mut value: u64 = 0;
    for at in 0..text.len() {
        let byte = text[at];
        if byte < b'0' || b'9' < byte {
            return None;
        }
        let shifted = value.checked_mul(10)?;
        value = shifted.checked_add((byte - b'0') as u64)?;
    }
    Some(value)
}

/// Returns the text if it is the plain decimal of a signed number from -half to below half.
pub(crate) fn signed_text(text: &[u8], half: u64) -> Option<&str>
    requires { half ≤ 2 ^ 63 }
    ensures { MatchOption result (signed_below half text.now ≡ None) (λ s. (s.now ≡ text.now)
        × ((z : ℤ) × (signed_below half text.now ≡ Some z))) }
{
    if !is_signed(text, half) {
        return None;
    }
    match std::str::from_utf8(text) {
        Ok(plain) => Some(plain),
        Err(_) => None,
    }
}

// Returns whether the text is the plain decimal of such a number.
#[tactic(auto, unfolding(crate::specs::Numbers::signed_below))]
fn is_signed(text: &[u8], half: u64) -> bool
    ensures { result ≡ is_some (signed_below half text.now) }
{
    if text.is_empty() || text[0] != b'-' {
        return match read_number(text) {
            Some(number) => number < half,
            None => false,
        };
    }
    match read_number(&text[1..]) {
        Some(number) => 0 < number && number <= half,
        None => false,
    }
}
