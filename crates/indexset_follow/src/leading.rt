//! The effect of a line on a leader, and the answer to it.

ghost use Rattle.std.specs.Prelude.{◌≡◌, ◌≢◌, Err, IfErr, OnOk};
ghost use Rattle.std.specs.Io.KnownBytes.{Appends, Keeps};
ghost use Rattle.indexset_bench.specs.Pairs.{pairs_after};
ghost use Rattle.indexset_follow.specs.Echo.{done_by};
ghost use Rattle.indexset_follow.specs.Leading.{command_text, done_text, lacks};
ghost use Rattle.indexset_follow.specs.Leading.{leader_of, leader_after, leading_reply};

use crate::echo::{Command, read_command};
use crate::leader::Leader;
use crate::mark::Mark;
use crate::others::Others;
use crate::reads::query::read_query;
use crate::reads::{answer_other, answer_query};
use crate::reply::Reply;
use crate::write::{write_mark, write_reply};
use indexset_bench::key::Key;
use indexset_bench::pairs::answer_pairs;
use indexset_lines::RunFault;
use std::alloc::Global;
use std::io::Write;

/// Writes the answer to one line: to a read, or to a command.
///
/// # Errors
///
/// `Memory` or `Numbers`: nothing is written. `Write`.
pub fn answer_leading<T: Key, W: Write>(
    alloc: Global,
    others: Others,
    writer: &mut W,
    leader: &mut Leader<T>,
    line: &[u8],
) -> Result<(), RunFault>
    ensures held { OnOk result (leader.new ≡ leader_after T.cmp T.texts leader.old line.now) }
    ensures told { OnOk result (Appends (W.contents writer.old) (W.contents writer.new)
        (leading_reply T.cmp T.texts others leader.old line.now)) }
    ensures memory_refused { result ≡ Err RunFault.Memory
        → Keeps (W.contents writer.old) (W.contents writer.new) }
    ensures numbers_refused { result ≡ Err RunFault.Numbers
        → Keeps (W.contents writer.old) (W.contents writer.new) }
    ensures no_numbers { result ≡ Err RunFault.Numbers
        → lacks (leader_after T.cmp T.texts leader.old line.now).pairs }
    ensures no_read { result ≢ Err RunFault.Read }
{
    if let Some(query) = read_query(alloc, line)? {
        return answer_query(alloc, writer, &leader.pairs, leader.done, &query);
    }
    match read_command(alloc, line)? {
        Some(command) => answer_command(writer, leader, command),
        None => answer_other(others, writer),
    }
}

/// Executes a command, and writes the reply, the events, the `done` line and the next number.
///
/// On `Memory` or `Numbers` nothing is changed or written.
fn answer_command<T: Key, W: Write>(
    writer: &mut W,
    leader: &mut Leader<T>,
    command: Command<T>,
) -> Result<(), RunFault>
    ensures held { OnOk result (leader.new
        ≡ leader_of (pairs_after T.cmp leader.old.pairs command.change)
        (done_by leader.old.done command)) }
    ensures told { OnOk result (Appends (W.contents writer.old) (W.contents writer.new)
        (command_text T.cmp T.texts leader.old command)) }
    ensures memory_refused { result ≡ Err RunFault.Memory
        → Keeps (W.contents writer.old) (W.contents writer.new) }
    ensures numbers_refused { result ≡ Err RunFault.Numbers
        → Keeps (W.contents writer.old) (W.contents writer.new) }
    ensures no_numbers { result ≡ Err RunFault.Numbers
        → lacks (pairs_after T.cmp leader.old.pairs command.change) }
    ensures no_read { result ≢ Err RunFault.Read }
{
    let done = command.done(leader.done);
    let Command { echo, change } = command;
    answer_pairs(writer, echo, &mut leader.pairs, change)?;
    leader.done = done;
    let next = leader.pairs.events_issued();
    write_done(writer, echo, done, next)?;
    write_reply(writer, Reply::Next(next))
}

/// Writes the `done` line, if the command has a number.
fn write_done<W: Write>(
    writer: &mut W,
    echo: Option<u64>,
    done: u64,
    next: u64,
) -> Result<(), RunFault>
    ensures told { OnOk result (Appends (W.contents writer.old) (W.contents writer.new)
        (done_text echo done next)) }
    ensures fault { IfErr result (λ fault. fault ≡ RunFault.Write) }
{
    match echo {
        Some(_) => write_mark(writer, Mark::Done(done, next)),
        None => Ok(()),
    }
}
