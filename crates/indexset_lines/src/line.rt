//! Reads the lines of a reader.

ghost use Rattle.std.specs.Prelude.{◌⊎◌, ◌≡◌, ◌≢◌, ◌==◌, ◌+◌, ◌<◌, ◌≤◌, length};
ghost use Rattle.std.specs.Prelude.{vec_len, vec_capacity, false, Ok, Err};
ghost use Rattle.std.specs.Prelude.{IfOk, IfErr, IfSome, OnErr, OnSome, IsTrue};
ghost use Rattle.std.specs.List.{position, position_or_len};
ghost use Rattle.std.specs.Io.KnownBytes.{IsAtEnd, Keeps};
ghost use Rattle.indexset_lines.specs.Lines.{HasNoEnd};
ghost use Rattle.indexset_lines.specs.Reading.{Reads, Stops, TakesPiece};

use crate::fault::RunFault;
use crate::output::flush;
use std::io::{BufRead, ErrorKind, Write};

/// The result of reading a line.
#[derive(Clone, Copy, Debug, PartialEq, Eq)]
pub enum Part {
    /// A line with its end. If the buffer is used up, the next read may block.
    Whole { is_used_up: bool },
    /// The last line, which has no end.
    Last,
    /// The reader is at its end.
    End,
}

/// Reads the next line, without its end, into `line`.
///
/// If the line is not complete in the reader's buffer, the writer is flushed before each read.
///
/// # Errors
///
/// `Memory`, `Read` or `Write`. Less than a line was consumed.
pub fn next_line<R: BufRead, W: Write>(
    reader: &mut R,
    writer: &mut W,
    line: &mut Vec<u8>,
) -> Result<Part, RunFault>
    ensures ok { IfOk result (Reads (R.remaining reader.old) (R.remaining reader.new)
        line.new.items) }
    ensures err { OnErr result (Stops (R.remaining reader.old) (R.remaining reader.new)
        line.new.items) }
    ensures unwritten { Keeps (W.contents writer.old) (W.contents writer.new) }
    ensures numbers_fit { result ≢ Err RunFault.Numbers }
{
    line.clear();
    for _ in 0..u64::MAX {
        if let Some(part) = take_piece(reader, line)? {
            return Ok(part);
        }
        flush(writer)?;
    }
    Err(RunFault::Read)
}

/// Appends the buffered bytes of the line. Returns `None` if more of the line may follow.
fn take_piece<R: BufRead>(reader: &mut R, line: &mut Vec<u8>) -> Result<Option<Part>, RunFault>
    requires { HasNoEnd line.old.items }

    // Result.
    ensures ok { IfOk result (TakesPiece (R.remaining reader.old) (R.remaining reader.new)
        line.old.items line.new.items) }

    // Failure.
    ensures unread { OnErr result (Keeps (R.remaining reader.old) (R.remaining reader.new)) }
    ensures unchanged { OnErr result (line.new.items ≡ line.old.items) }
    ensures fault { IfErr result (λ fault. (fault ≡ RunFault.Memory) ⊎ (fault ≡ RunFault.Read)) }

    // Memory.
    // `Memory` implies that the line had no space for all that remained in the reader.
    ensures no_room { result ≡ Err RunFault.Memory → IfSome (R.remaining reader.old)
        (λ left. vec_capacity line.old < vec_len line.old + length left) }
{
    let shown = match reader.fill_buf() {
        Ok(shown) => shown,
        Err(e) => {
            return if e.kind() == ErrorKind::Interrupted {
                Ok(None)
            } else {
                Err(RunFault::Read)
            };
        }
    };
    if shown.is_empty() {
        return Ok(Some(if line.is_empty() {
            Part::End
        } else {
            Part::Last
        }));
    }
    let len = line_len(shown);
    let is_whole = len < shown.len();
    if line.extend_from_slice(&shown[..len]).is_err() {
        return Err(RunFault::Memory);
    }
    if is_whole {
        let is_used_up = len + 1 == shown.len();
        reader.consume(len + 1);
        Ok(Some(Part::Whole { is_used_up }))
    } else {
        reader.consume(len);
        Ok(None)
    }
}

/// Returns how many bytes are before the first line end.
///
/// Skips blocks of 32 bytes that have none: `contains` compiles to vector instructions, and
/// `position` does not.
fn line_len(bytes: &[u8]) -> usize
    ensures { result ≡ position_or_len (λ b. b == 10) bytes.now }
{
    let mut skipped = 0;
    while bytes.len() - skipped >= 32 && !bytes[skipped..skipped + 32].contains(&b'\n') {
        skipped += 32;
    }
    skipped + line_len_bytewise(&bytes[skipped..])
}

/// Returns how many bytes are before the first line end, testing each byte.
fn line_len_bytewise(bytes: &[u8]) -> usize
    ensures value { result ≡ position_or_len (λ b. b == 10) bytes.now }
    ensures within { result ≤ length bytes.now }
{
    first_line_end(bytes).unwrap_or(bytes.len())
}

/// Returns the index of the first line end.
fn first_line_end(bytes: &[u8]) -> Option<usize>
    ensures { result ≡ position (λ b. b == 10) bytes.now }
{
    bytes.iter().position(|b| *b == b'\n')
}

/// Returns whether the reader is at its end.
///
/// # Errors
///
/// `Read`.
pub fn is_at_end<R: BufRead>(reader: &mut R) -> Result<bool, RunFault>
    ensures unread { Keeps (R.remaining reader.old) (R.remaining reader.new) }
    ensures end { IfOk result (λ end. IsTrue end
        → OnSome (R.remaining reader.old) (IsAtEnd (R.remaining reader.new))) }
    ensures more { result ≡ Ok false
        → IfSome (R.remaining reader.old) (λ left. 0 < length left) }
    ensures err { IfErr result (λ fault. fault ≡ RunFault.Read) }
{
    match reader.fill_buf() {
        Ok(bytes) => Ok(bytes.is_empty()),
        Err(_) => Err(RunFault::Read),
    }
}
