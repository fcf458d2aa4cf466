//! Answers the lines of a reader, and keeps what they change.

ghost use Rattle.std.specs.Prelude.{◌≡◌, ◌≢◌, ◌<◌, length, Err, IfErr, IfOk, Ok, OnOk, OnSome};
ghost use Rattle.std.specs.Io.KnownBytes.{Appends, IsAtEnd, Keeps};
ghost use Rattle.indexset_lines.specs.Lines.{HasNoEnd};
ghost use Rattle.indexset_follow.specs.Store.{held_cut, input_reply};
ghost use Rattle.indexset_keep.specs.Keep.{AnswersAll, AnswersSome, AnswersWhole, rest_behind};
ghost use Rattle.indexset_keep.specs.Map.{map_held};
ghost use Rattle.indexset_keep.specs.Roles.{IsSoundMap, settled};

use crate::batch::Batch;
use crate::fault::KeepFault;
use crate::kept::Kept;
use indexset_bench::key::Key;
use indexset_follow::store::{Store as Map, without_return};
use indexset_lines::RunFault;
use indexset_lines::line::{Part, next_line};
use indexset_lines::output::flush;
use indexset_lines::run::Answers;
use sqlite_trees::store::Store;
use std::io::{BufRead, BufReader, Read, Write};

/// A reader that can report whether a whole line is buffered.
pub trait HasLine {
    /// Returns whether the next line needs no read.
    fn has_line(&self) -> bool;
}

impl<R: Read> HasLine for BufReader<R> {
    fn has_line(&self) -> bool {
        self.buffer().contains(&b'\n')
    }
}

/// How the lines of a reader end.
#[derive(Clone, Copy, Debug, PartialEq, Eq)]
pub enum End {
    /// With a line end.
    Whole,
    /// With a last line that has no line end.
    Cut,
}

/// Returns whether a line asks to replace the kept lines by a snapshot.
fn asks_to_compact(line: &[u8]) -> bool {
    line == b"compact".as_slice()
}

/// Answers each line of the reader, and keeps what it changes before its answer is written.
///
/// Before a read that may block, and when 4,096 lines are pending, the pending lines are kept with
/// one commit and the answers are written. A commit has at most 4,096 lines and the further ones of
/// the last command. A last line without a line end changes nothing, and is answered if it is a
/// read.
///
/// # Errors
///
/// The first fault, which ends the run. The answers since the last commit are not written.
pub fn answer<T: Key, S: Store, R: BufRead + HasLine, W: Write>(
    kept: &mut Kept<S>,
    map: &mut Map<T>,
    reader: &mut R,
    writer: &mut W,
) -> Result<(), KeepFault>
    requires { IsSoundMap T.cmp T.texts (map_held map.old) }

    // All was read and answered, and replaying what is kept gives the state.
    ensures all { OnOk result (AnswersAll T.cmp T.texts (input_reply T.cmp T.texts map.old.voice)
        (held_cut T.cmp T.texts map.old.voice) (map_held map.old) S.view S.recovers kept.old.journal
        kept.new.journal (R.remaining reader.old) (R.remaining reader.new) (W.contents writer.old)
        (W.contents writer.new) (settled map.old.role)) }

    // After a crash, replaying what is kept gives the state after the lines whose answers were
    // written, or after further ones. After `Write` it is not specified what was written.
    ensures some { IfErr result (λ fault. AnswersSome T.cmp T.texts (input_reply T.cmp T.texts
        map.old.voice) (held_cut T.cmp T.texts map.old.voice) (map_held map.old) S.view S.recovers
        kept.old.journal kept.new.journal (R.remaining reader.old) (R.remaining reader.new)
        (W.contents writer.old) (W.contents writer.new) (settled map.old.role) (fault
        ≢ KeepFault.Run RunFault.Write)) }
{
    let mut line = Vec::new(map.alloc);
    let end = answer_whole(kept, map, reader, writer, &mut line)?;
    if let End::Cut = end {
        answer_cut(map, writer, line.as_slice())?;
    }
    Ok(())
}

/// Writes the answer to a last line without a line end, and flushes the writer.
fn answer_cut<T: Key, W: Write>(
    map: &mut Map<T>,
    writer: &mut W,
    line: &[u8],
) -> Result<(), RunFault>
    ensures told { OnOk result (Appends (W.contents writer.old) (W.contents writer.new)
        (held_cut T.cmp T.texts map.old.voice (map_held map.old) line.now)) }
    ensures memory_refused { result ≡ Err RunFault.Memory
        → Keeps (W.contents writer.old) (W.contents writer.new) }
    ensures numbers_refused { result ≡ Err RunFault.Numbers
        → Keeps (W.contents writer.old) (W.contents writer.new) }
    ensures no_read { result ≢ Err RunFault.Read }
{
    map.answer_cut(writer, line)?;
    flush(writer)
}

/// Answers each line that has a line end, and leaves a last line without one in `line`.
fn answer_whole<T: Key, S: Store, R: BufRead + HasLine, W: Write>(
    kept: &mut Kept<S>,
    map: &mut Map<T>,
    reader: &mut R,
    writer: &mut W,
    line: &mut Vec<u8>,
) -> Result<End, KeepFault>
    requires { IsSoundMap T.cmp T.texts (map_held map.old) }
    ensures whole { IfOk result (λ end. AnswersWhole T.cmp T.texts (input_reply T.cmp T.texts
        map.old.voice) (held_cut T.cmp T.texts map.old.voice) (map_held map.old) S.view S.recovers
        kept.old.journal kept.new.journal (R.remaining reader.old) (R.remaining reader.new)
        (W.contents writer.old) (W.contents writer.new) (settled map.old.role) (rest_behind end
        line.new.items) (map_held map.new)) }
    ensures cut_alike { OnOk result (held_cut T.cmp T.texts map.new.voice
        ≡ held_cut T.cmp T.texts map.old.voice) }
    ensures end { IfOk result (λ end. OnSome (R.remaining reader.old)
        (IsAtEnd (R.remaining reader.new))) }
    ensures rest { IfOk result (λ end. HasNoEnd (rest_behind end line.new.items)) }
    ensures cut { result ≡ Ok End.Cut → 0 < length line.new.items }
    ensures some { IfErr result (λ fault. AnswersSome T.cmp T.texts (input_reply T.cmp T.texts
        map.old.voice) (held_cut T.cmp T.texts map.old.voice) (map_held map.old) S.view S.recovers
        kept.old.journal kept.new.journal (R.remaining reader.old) (R.remaining reader.new)
        (W.contents writer.old) (W.contents writer.new) (settled map.old.role) (fault
        ≢ KeepFault.Run RunFault.Write)) }
{
    let mut batch = Batch::new(map.alloc);
    for _ in 0..u64::MAX {
        match next_line(reader, writer, line)? {
            Part::Whole { is_used_up: _ } => {
                batch.answer(map, line.as_slice())?;
                let is_asked = asks_to_compact(without_return(line.as_slice()));
                if is_asked || batch.is_full() || !reader.has_line() {
                    batch.put(kept, map, is_asked, writer)?;
                }
            }
            Part::Last => {
                batch.put(kept, map, false, writer)?;
                return Ok(End::Cut);
            }
            Part::End => {
                batch.put(kept, map, false, writer)?;
                return Ok(End::Whole);
            }
        }
    }
    Err(KeepFault::Run(RunFault::Read))
}
