//! Commands to the map: what each changes, its reply and its events.

ghost use Rattle.std.specs.Prelude.{◌≡◌, ◌≢◌, ◌+◌, ◌++◌, ◌<◌, [], length, Err, OnOk};
ghost use Rattle.std.specs.Option.{option_map_or};
ghost use Rattle.std.specs.Io.KnownBytes.{Appends, Keeps};
ghost use Rattle.indexset_bench.specs.Pairs.{echo_text, pair_events, pair_reply, pairs_after};
ghost use Rattle.std.below.core.specs.declared.int.u64.TheConstants.{MAX};

use crate::key::Key;
use crate::pair_command::PairCommand;
use crate::reply::Reply;
use crate::write::{write_change, write_echo, write_line, write_nodes};
use indexset_core::pair::Pair;
use indexset_lines::RunFault;
use indexset_log::map::BTreeMap;
use std::io::Write;

/// A map of keys to values of the same type that returns its changes as events.
pub type Pairs<T> = BTreeMap<T, T, Vec<Pair<T, T>>>;

/// Executes a command to the map, and writes its reply after the command number, if it has one.
///
/// # Errors
///
/// `Memory`, or `Numbers` if too few event numbers remain: nothing is written. `Write`.
pub fn answer_pairs<T: Key, W: Write>(
    writer: &mut W,
    echo: Option<u64>,
    pairs: &mut Pairs<T>,
    command: PairCommand<T>,
) -> Result<(), RunFault>
    // Result.
    ensures told { OnOk result (Appends (W.contents writer.old) (W.contents writer.new)
        (echo_text echo ++ pair_reply T.cmp T.texts pairs.old command)) }

    // Contents.
    ensures pairs { OnOk result (pairs.new ≡ pairs_after T.cmp pairs.old command) }

    // Failure.
    ensures memory_refused { result ≡ Err RunFault.Memory
        → Keeps (W.contents writer.old) (W.contents writer.new) }
    ensures numbers_refused { result ≡ Err RunFault.Numbers
        → Keeps (W.contents writer.old) (W.contents writer.new) }
    ensures no_numbers { result ≡ Err RunFault.Numbers
        → MAX < pairs.old.next + length (pair_events T.cmp pairs.old command) }
    ensures no_read { result ≢ Err RunFault.Read }

    // Memory.
    ensures only_changes { result ≡ Err RunFault.Memory → pair_events T.cmp pairs.old command ≢ [] }
{
    match command {
        PairCommand::Put(key, value) => {
            let (old, events) = pairs.insert_cdc(key, value)?;
            write_change(writer, echo, reply_to_put(old), &events)
        }
        PairCommand::Cut(key) => {
            let (out, events) = pairs.remove_cdc(&key)?;
            write_change(writer, echo, reply_to_cut(out), &events)
        }
        PairCommand::Nodes => {
            write_echo(writer, echo)?;
            if pairs.node_count() == 0 {
                write_line(writer, Reply::<T>::Empty)
            } else {
                write_nodes(writer, pairs)
            }
        }
    }
}

/// Returns the reply to a put.
fn reply_to_put<T: Drop>(old: Option<T>) -> Reply<T>
    ensures { result ≡ option_map_or Reply.OldValue old Reply.New }
{
    match old {
        Some(value) => Reply::OldValue(value),
        None => Reply::New,
    }
}

/// Returns the reply to a cut.
fn reply_to_cut<T: Drop>(out: Option<(T, T)>) -> Reply<T>
    ensures { result ≡ option_map_or (λ entry. Reply.GoneValue entry.1) out Reply.Nothing }
{
    match out {
        Some((_, value)) => Reply::GoneValue(value),
        None => Reply::Nothing,
    }
}
