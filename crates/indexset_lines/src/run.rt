//! A run: each line of a reader is answered to a writer.

ghost use Rattle.std.specs.Prelude.{◌≡◌, ◌≢◌, ℕ, List, Err, OnOk};
ghost use Rattle.std.specs.Io.KnownBytes.{Appends, Keeps};
ghost use Rattle.indexset_lines.specs.Lines.{HasNoEnd, IsLinePart};
ghost use Rattle.indexset_lines.specs.Run.{AnswersAll, AnswersWholeLines, LacksNumbers, text_of};

use crate::fault::RunFault;
use crate::line::{Part, is_at_end, next_line};
use crate::output::flush;
use std::io::{BufRead, Write};

/// A type that answers lines.
pub trait Answers {
    /// The state that a line reads and changes.
    ghost State: { Type 0 };

    ghost state: { Self → Self.State };

    /// The reply to a line.
    ghost reply: { Self → Self.State → List ℕ → List ℕ };

    /// The reply to a last line that has no line end.
    ghost cut_reply: { Self → Self.State → List ℕ → List ℕ };

    /// The state after a line.
    ghost after: { Self.State → List ℕ → Self.State };

    /// Whether too few event numbers remain.
    ghost lacks_numbers: { Self.State → Type 0 };

    /// Writes the reply to a line.
    ///
    /// # Errors
    ///
    /// `Memory` or `Numbers`: nothing is written. `Write`.
    fn answer<W: Write>(&mut self, writer: &mut W, line: &[u8]) -> Result<(), RunFault>
        // Result.
        ensures told { OnOk result (Appends (W.contents writer.old) (W.contents writer.new)
            (reply self.old (state self.old) line.now)) }

        // Contents.
        ensures held { OnOk result (state self.new ≡ after (state self.old) line.now) }
        ensures alike { OnOk result (reply self.new ≡ reply self.old) }
        ensures cut_alike { OnOk result (cut_reply self.new ≡ cut_reply self.old) }

        // Failure.
        ensures memory_refused { result ≡ Err RunFault.Memory
            → Keeps (W.contents writer.old) (W.contents writer.new) }
        ensures numbers_refused { result ≡ Err RunFault.Numbers
            → Keeps (W.contents writer.old) (W.contents writer.new) }
        ensures no_numbers { result ≡ Err RunFault.Numbers
            → lacks_numbers (after (state self.old) line.now) }
        ensures no_read { result ≢ Err RunFault.Read };

    /// Writes the reply to a last line that has no line end.
    ///
    /// # Errors
    ///
    /// `Memory` or `Numbers`: nothing is written. `Write`.
    fn answer_cut<W: Write>(&mut self, writer: &mut W, line: &[u8]) -> Result<(), RunFault>
        // Result.
        ensures told { OnOk result (Appends (W.contents writer.old) (W.contents writer.new)
            (cut_reply self.old (state self.old) line.now)) }

        // Failure.
        ensures memory_refused { result ≡ Err RunFault.Memory
            → Keeps (W.contents writer.old) (W.contents writer.new) }
        ensures numbers_refused { result ≡ Err RunFault.Numbers
            → Keeps (W.contents writer.old) (W.contents writer.new) }
        ensures no_numbers { result ≡ Err RunFault.Numbers
            → lacks_numbers (after (state self.old) line.now) }
        ensures no_read { result ≢ Err RunFault.Read };
}

/// Writes the reply to each line of the reader, with `line` as the buffer for a line.
///
/// The writer is flushed when the reader's buffer is empty, so a reply is written before the run
/// waits for the next line. The caller flushes the writer at the end.
///
/// # Errors
///
/// The first fault, which ends the run. A run that reads more than 2^64 - 1 lines fails with
/// `Read`. After `Write` it is not specified what was written.
pub fn answer_lines<A: Answers, R: BufRead, W: Write>(
    answers: &mut A,
    reader: &mut R,
    writer: &mut W,
    line: &mut Vec<u8>,
) -> Result<(), RunFault>
    // The bytes that the reader returned, to its end, have their replies.
    ensures given_answered { OnOk result (AnswersAll
        (text_of (A.reply answers.old) A.after (A.cut_reply answers.old) (A.state answers.old))
        (R.remaining reader.old) (R.remaining reader.new)
        (W.contents writer.old) (W.contents writer.new)) }

    // The whole lines that the reader returned before it failed have their replies.
    ensures read_failed { result ≡ Err RunFault.Read → AnswersWholeLines
        (A.reply answers.old) A.after (A.state answers.old) HasNoEnd
        (R.remaining reader.old) (R.remaining reader.new)
        (W.contents writer.old) (W.contents writer.new) }

    // The lines before the failed line have their replies; that line was read in part or whole.
    ensures memory_refused { result ≡ Err RunFault.Memory → AnswersWholeLines
        (A.reply answers.old) A.after (A.state answers.old) IsLinePart
        (R.remaining reader.old) (R.remaining reader.new)
        (W.contents writer.old) (W.contents writer.new) }

    // The same, and the events of the failed line need more numbers than remain.
    ensures numbers_refused { result ≡ Err RunFault.Numbers → LacksNumbers
        (A.reply answers.old) A.after (A.state answers.old) A.lacks_numbers
        (R.remaining reader.old) (R.remaining reader.new)
        (W.contents writer.old) (W.contents writer.new) }
{
    for _ in 0..u64::MAX {
        match next_line(reader, writer, line)? {
            Part::Whole { is_used_up } => {
                answers.answer(writer, line)?;
                if is_used_up {
                    flush(writer)?;
                }
            }
            Part::Last => return answers.answer_cut(writer, line),
            Part::End => return Ok(()),
        }
    }
    // The limit of lines is reached.
    if is_at_end(reader)? {
        Ok(())
    } else {
        Err(RunFault::Read)
    }
}
