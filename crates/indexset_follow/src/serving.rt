//! A run of a map in either role, over a reader and a writer.

ghost use Rattle.std.specs.Prelude.{◌≡◌, ◌≤◌, [], Some, Err, OnOk, IfSome, OnSome};
ghost use Rattle.std.specs.Io.KnownBytes.{Appends};
ghost use Rattle.indexset_lines.specs.Lines.{HasNoEnd, IsLinePart};
ghost use Rattle.indexset_follow.specs.StoreRun.{AnswersAll, AnswersWholeLines};
ghost use Rattle.indexset_follow.specs.StoreRun.{LacksNumbers, store_text};

use crate::others::Voice;
use crate::store::Store;
use indexset_bench::key::Key;
use indexset_lines::RunFault;
use indexset_lines::output::flush;
use indexset_lines::run::answer_lines;
use std::alloc::Global;
use std::io::{BufRead, Write};

/// Writes the answer to each line of the reader, over a map that starts empty, in either role.
///
/// As a leader the map has at most `size` pairs in a node. As a follower it holds events that are
/// at most `window` ahead of the awaited one. The number of the next event is 0. A last line
/// without a line end changes nothing. The writer is flushed when the reader's buffer is empty, so
/// an answer is written before the run waits for the next line.
///
/// # Errors
///
/// The first fault, which ends the run. A run that reads more than 2^64 - 1 lines fails with
/// `Read`. After `Write` it is not specified what was written.
pub fn serve<T: Key, R: BufRead, W: Write>(
    alloc: Global,
    voice: Voice,
    size: usize,
    window: u64,
    leads: bool,
    reader: &mut R,
    writer: &mut W,
) -> Result<(), RunFault>
    requires { 2 ≤ size }

    // If the bytes of the reader are known, all were read, and their answers were written.
    ensures all_read { OnOk result (OnSome (R.remaining reader.old)
        (R.remaining reader.new ≡ Some [])) }
    ensures all_answered { OnOk result (IfSome (R.remaining reader.old) (λ input.
        Appends (W.contents writer.old) (W.contents writer.new)
        (store_text T.cmp T.texts voice size window leads input))) }

    // For any reader, the bytes that it returned have their answers.
    ensures given_answered { OnOk result (AnswersAll T.cmp T.texts voice size window leads
        (R.remaining reader.old) (R.remaining reader.new)
        (W.contents writer.old) (W.contents writer.new)) }

    // The whole lines that the reader returned before it failed have their answers.
    ensures read_failed { result ≡ Err RunFault.Read
        → AnswersWholeLines T.cmp T.texts voice size window leads HasNoEnd
        (R.remaining reader.old) (R.remaining reader.new)
        (W.contents writer.old) (W.contents writer.new) }

    // The lines before the failed line have their answers; that line was read in part or whole.
    ensures memory_refused { result ≡ Err RunFault.Memory
        → AnswersWholeLines T.cmp T.texts voice size window leads IsLinePart
        (R.remaining reader.old) (R.remaining reader.new)
        (W.contents writer.old) (W.contents writer.new) }

    // The same, and the events of the failed line need more numbers than remain.
    ensures numbers_refused { result ≡ Err RunFault.Numbers
        → LacksNumbers T.cmp T.texts voice size window leads (R.remaining reader.old) (R.remaining
        reader.new) (W.contents writer.old) (W.contents writer.new) }
{
    let answered = answer_all::<T, R, W>(alloc, voice, size, window, leads, reader, writer);
    let flushed = flush(writer);
    answered.and(flushed)
}

/// Writes the answer to each line, without flushing the writer at the end.
fn answer_all<T: Key, R: BufRead, W: Write>(
    alloc: Global,
    voice: Voice,
    size: usize,
    window: u64,
    leads: bool,
    reader: &mut R,
    writer: &mut W,
) -> Result<(), RunFault>
    requires { 2 ≤ size }
    ensures given_answered { OnOk result (AnswersAll T.cmp T.texts voice size window leads
        (R.remaining reader.old) (R.remaining reader.new)
        (W.contents writer.old) (W.contents writer.new)) }
    ensures read_failed { result ≡ Err RunFault.Read
        → AnswersWholeLines T.cmp T.texts voice size window leads HasNoEnd
        (R.remaining reader.old) (R.remaining reader.new)
        (W.contents writer.old) (W.contents writer.new) }
    ensures memory_refused { result ≡ Err RunFault.Memory
        → AnswersWholeLines T.cmp T.texts voice size window leads IsLinePart
        (R.remaining reader.old) (R.remaining reader.new)
        (W.contents writer.old) (W.contents writer.new) }
    ensures numbers_refused { result ≡ Err RunFault.Numbers
        → LacksNumbers T.cmp T.texts voice size window leads (R.remaining reader.old) (R.remaining
        reader.new) (W.contents writer.old) (W.contents writer.new) }
{
    let mut line = Vec::new(alloc);
    let mut store = Store::<T>::new(alloc, voice, size, window, leads);
    answer_lines(&mut store, reader, writer, &mut line)
}
