//! The decimal digits of a number.

ghost use Rattle.std.specs.Prelude.{◌≡◌, ◌<◌, drop};
ghost use Rattle.std.specs.Fmt.{decimal};

/// Writes the decimal digits of a number to the end of the buffer.
///
/// Returns the index of the first digit.
pub(crate) fn fill_decimal(number: u64, buffer: &mut [u8; 20]) -> usize
    ensures within { result < 20 }
    ensures digits { drop result buffer.new ≡ decimal number }
{
    let mut start = 19;
    let mut rest = number;
    while rest >= 10 {
        buffer[start] = b'0' + (rest % 10) as u8;
        rest /= 10;
        start -= 1;
    }
    buffer[start] = b'0' + rest as u8;
    start
}
