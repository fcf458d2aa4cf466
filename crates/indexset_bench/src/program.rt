//! A run over a reader and a writer.

ghost use Rattle.std.specs.Prelude.{◌≡◌, ◌≢◌, ◌⊎◌, ◌<◌, [], Some, Err, OnOk, IfErr, IfSome, OnSome};
ghost use Rattle.std.below.core.specs.declared.int.u64.TheConstants.{MAX};
ghost use Rattle.std.specs.Io.KnownBytes.{Appends, Keeps};
ghost use Rattle.indexset_spine.specs.NodeList.{items};
ghost use Rattle.indexset_lines.specs.Lines.{HasNoEnd, IsLinePart};
ghost use Rattle.indexset_bench.specs.Reply.{AddsNew, contents_after, reply_to};
ghost use Rattle.indexset_bench.specs.Pairs.{reply_ended};
ghost use Rattle.indexset_bench.specs.Run.{AnswersAll, AnswersWholeLines, LacksNumbers};
ghost use Rattle.indexset_bench.specs.Text.{Changes, reply_line, stores, stores_after, text_of};
ghost use Rattle.indexset_wire.specs.Texts.{number_texts};

use crate::command::{Command, parse};
use crate::pair_command::parse_pairs;
use crate::pairs::{Pairs, answer_pairs};
use crate::perform::perform;
use crate::reply::Reply;
use crate::write::write_line;
use indexset_lines::RunFault;
use indexset_lines::output::flush;
use indexset_lines::run::{Answers, answer_lines};
use indexset_set::BTreeSet;
use std::alloc::Global;
use std::io::{BufRead, Write};

/// Writes the reply to each line of the reader, over a set and a map that start empty.
///
/// The writer is flushed when the reader's buffer is empty, so a reply is written before the run
/// waits for the next line.
///
/// # Errors
///
/// The first fault, which ends the run. A run that reads more than 2^64 - 1 lines fails with
/// `Read`. After `Write` it is not specified what was written.
pub fn run<R: BufRead, W: Write>(
    alloc: Global,
    reader: &mut R,
    writer: &mut W,
) -> Result<(), RunFault>
    // Result.
    // If the bytes of the reader are known, all were read, and their replies were written.
    ensures all_read { OnOk result (OnSome (R.remaining reader.old)
        (R.remaining reader.new ≡ Some [])) }
    ensures all_answered { OnOk result (IfSome (R.remaining reader.old) (λ input.
        Appends (W.contents writer.old) (W.contents writer.new) (text_of input))) }
    // For any reader, the bytes that it returned have their replies.
    ensures given_answered { OnOk result (AnswersAll
        (R.remaining reader.old) (R.remaining reader.new)
        (W.contents writer.old) (W.contents writer.new)) }

    // Failure.
    // The whole lines that the reader returned before it failed have their replies.
    ensures read_failed { result ≡ Err RunFault.Read → AnswersWholeLines HasNoEnd
        (R.remaining reader.old) (R.remaining reader.new)
        (W.contents writer.old) (W.contents writer.new) }
    // The lines before the failed line have their replies; a part of that line or all of it was
    // read.
    ensures memory_refused { result ≡ Err RunFault.Memory → AnswersWholeLines IsLinePart
        (R.remaining reader.old) (R.remaining reader.new)
        (W.contents writer.old) (W.contents writer.new) }
    // The same, and the events of the failed line need more numbers than remain.
    ensures numbers_refused { result ≡ Err RunFault.Numbers → LacksNumbers
        (R.remaining reader.old) (R.remaining reader.new)
        (W.contents writer.old) (W.contents writer.new) }
{
    let answered = answer_all(alloc, reader, writer);
    let flushed = flush(writer);
    answered.and(flushed)
}

/// The state of a run: the numbers of the set, and the map.
#[derive(Drop)]
struct Holding {
    set: BTreeSet<u64>,
    pairs: Pairs<u64>,
    alloc: Global,
}

impl Answers for Holding {
    ghost use Rattle.indexset_spine.specs.NodeList.{items};
    ghost use Rattle.indexset_bench.specs.Run.{numbers_used_up};
    ghost use Rattle.indexset_bench.specs.Text.{Stores, reply_line, stores, stores_after};

    ghost State = { Stores };

    ghost state = { λ held. stores (items held.set) held.pairs };

    ghost reply = { λ _. reply_line };

    ghost cut_reply = { λ _. reply_line };

    ghost after = { stores_after };

    ghost lacks_numbers = { numbers_used_up };

    fn answer<W: Write>(&mut self, writer: &mut W, line: &[u8]) -> Result<(), RunFault> {
        answer_line(self.alloc, writer, &mut self.set, &mut self.pairs, line)
    }

    fn answer_cut<W: Write>(&mut self, writer: &mut W, line: &[u8]) -> Result<(), RunFault> {
        self.answer(writer, line)
    }
}

/// Writes the reply to each line, without flushing the writer at the end.
fn answer_all<R: BufRead, W: Write>(
    alloc: Global,
    reader: &mut R,
    writer: &mut W,
) -> Result<(), RunFault>
    ensures given_answered { OnOk result (AnswersAll
        (R.remaining reader.old) (R.remaining reader.new)
        (W.contents writer.old) (W.contents writer.new)) }
    ensures read_failed { result ≡ Err RunFault.Read → AnswersWholeLines HasNoEnd
        (R.remaining reader.old) (R.remaining reader.new)
        (W.contents writer.old) (W.contents writer.new) }
    ensures memory_refused { result ≡ Err RunFault.Memory → AnswersWholeLines IsLinePart
        (R.remaining reader.old) (R.remaining reader.new)
        (W.contents writer.old) (W.contents writer.new) }
    ensures numbers_refused { result ≡ Err RunFault.Numbers → LacksNumbers
        (R.remaining reader.old) (R.remaining reader.new)
        (W.contents writer.old) (W.contents writer.new) }
{
    let set = BTreeSet::new(alloc)?;
    let pairs = Pairs::<u64>::with_maximum_node_size(alloc, 4);
    let mut line = Vec::new(alloc);
    answer_lines(
        &mut Holding { set, pairs, alloc },
        reader,
        writer,
        &mut line,
    )
}

/// Writes the reply to one line. On `Memory` or `Numbers` nothing is written.
fn answer_line<W: Write>(
    alloc: Global,
    writer: &mut W,
    set: &mut BTreeSet<u64>,
    pairs: &mut Pairs<u64>,
    line: &[u8],
) -> Result<(), RunFault>
    // Result.
    ensures told { OnOk result (Appends (W.contents writer.old) (W.contents writer.new)
        (reply_line (stores (items set.old) pairs.old) line.now)) }

    // Contents.
    ensures held { OnOk result (stores (items set.new) pairs.new
        ≡ stores_after (stores (items set.old) pairs.old) line.now) }

    // Failure.
    ensures memory_refused { result ≡ Err RunFault.Memory
        → Keeps (W.contents writer.old) (W.contents writer.new) }
    ensures numbers_refused { result ≡ Err RunFault.Numbers
        → Keeps (W.contents writer.old) (W.contents writer.new) }
    ensures no_numbers { result ≡ Err RunFault.Numbers
        → MAX < (stores_after (stores (items set.old) pairs.old) line.now).pairs.next }
    ensures no_read { result ≢ Err RunFault.Read }

    // Memory.
    ensures only_changes { result ≡ Err RunFault.Memory
        → Changes (stores (items set.old) pairs.old) line.now }
{
    if let Some(command) = parse(line) {
        return answer_numbers(writer, set, command);
    }
    match parse_pairs::<u64>(alloc, line)? {
        Some(command) => answer_pairs(writer, None, pairs, command),
        None => write_line(writer, Reply::<u64>::Bad),
    }
}

/// Writes the reply to a command to the set. On `Memory` nothing is written.
fn answer_numbers<W: Write>(
    writer: &mut W,
    set: &mut BTreeSet<u64>,
    command: Command,
) -> Result<(), RunFault>
    // Result.
    ensures told { OnOk result (Appends (W.contents writer.old) (W.contents writer.new)
        (reply_ended number_texts (reply_to (items set.old) (Some command)))) }

    // Contents.
    ensures set { OnOk result (items set.new ≡ contents_after (items set.old) (Some command)) }

    // Failure.
    ensures untold { result ≡ Err RunFault.Memory
        → Keeps (W.contents writer.old) (W.contents writer.new) }
    ensures fault { IfErr result (λ fault. (fault ≡ RunFault.Memory) ⊎ (fault ≡ RunFault.Write)) }

    // Memory.
    ensures only_new { result ≡ Err RunFault.Memory → AddsNew (items set.old) (Some command) }
{
    let reply = perform(set, command)?;
    write_line(writer, reply)
}
