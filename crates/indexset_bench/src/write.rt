//! Output: lines of replies, of events and of nodes.

ghost use Rattle.std.specs.Prelude.{◌≡◌, ◌++◌, OnOk, IfErr};
ghost use Rattle.std.specs.Fmt.{decimal};
ghost use Rattle.std.specs.Io.KnownBytes.{Appends};
ghost use Rattle.indexset_bench.specs.Pairs.{echo_text, reply_ended};
ghost use Rattle.indexset_bench.specs.PairText.{ended, event_text, lines_for, node_text};

use crate::key::Key;
use crate::pair_text::PairText;
use crate::pairs::Pairs;
use crate::reply::Reply;
use indexset_core::pair::Pair;
use indexset_events::change::ChangeEvent;
use indexset_lines::RunFault;
use std::io::Write;

/// Writes bytes.
pub fn write_bytes<W: Write>(writer: &mut W, bytes: &[u8]) -> Result<(), RunFault>
    ensures told { OnOk result (Appends (W.contents writer.old) (W.contents writer.new) bytes.now) }
    ensures fault { IfErr result (λ fault. fault ≡ RunFault.Write) }
{
    writer.write_all(bytes).map_err(|_| RunFault::Write)
}

/// Writes a number.
pub fn write_number<W: Write>(writer: &mut W, number: u64) -> Result<(), RunFault>
    ensures told { OnOk result (Appends (W.contents writer.old) (W.contents writer.new)
        (decimal number)) }
    ensures fault { IfErr result (λ fault. fault ≡ RunFault.Write) }
{
    indexset_wire::number::write_number(writer, number).map_err(|_| RunFault::Write)
}

/// Writes a reply as a line.
pub fn write_line<T: Key, W: Write>(writer: &mut W, reply: Reply<T>) -> Result<(), RunFault>
    ensures told { OnOk result (Appends (W.contents writer.old) (W.contents writer.new)
        (reply_ended T.texts reply)) }
    ensures fault { IfErr result (λ fault. fault ≡ RunFault.Write) }
{
    match reply {
        Reply::New => write_bytes(writer, b"new\n".as_slice()),
        reply => writer.writeln(reply).map_err(|_| RunFault::Write),
    }
}

/// Writes the number of a command, if it has one, as `#17` and a space.
pub fn write_echo<W: Write>(writer: &mut W, echo: Option<u64>) -> Result<(), RunFault>
    ensures told { OnOk result (Appends (W.contents writer.old) (W.contents writer.new)
        (echo_text echo)) }
    ensures fault { IfErr result (λ fault. fault ≡ RunFault.Write) }
{
    match echo {
        Some(number) => write!(writer, "#{number} ").map_err(|_| RunFault::Write),
        None => Ok(()),
    }
}

/// Writes the command number and the reply, and each event as a line.
pub(crate) fn write_change<T: Key, W: Write>(
    writer: &mut W,
    echo: Option<u64>,
    reply: Reply<T>,
    events: &[ChangeEvent<Pair<T, T>>],
) -> Result<(), RunFault>
    ensures told { OnOk result (Appends (W.contents writer.old) (W.contents writer.new) (echo_text
        echo ++ (reply_ended T.texts reply ++ lines_for (event_text T.texts) events.now))) }
    ensures fault { IfErr result (λ fault. fault ≡ RunFault.Write) }
{
    write_echo(writer, echo)?;
    write_line(writer, reply)?;
    write_events(writer, events)
}

/// Writes an event as a line.
fn write_event<T: Key, W: Write>(
    writer: &mut W,
    event: &ChangeEvent<Pair<T, T>>,
) -> Result<(), RunFault>
    ensures told { OnOk result (Appends (W.contents writer.old) (W.contents writer.new)
        (ended (event_text T.texts event.now))) }
    ensures fault { IfErr result (λ fault. fault ≡ RunFault.Write) }
{
    indexset_wire::event::write_event(writer, event).map_err(|_| RunFault::Write)?;
    write_bytes(writer, b"\n".as_slice())
}

/// Writes each event as a line.
pub fn write_events<T: Key, W: Write>(
    writer: &mut W,
    events: &[ChangeEvent<Pair<T, T>>],
) -> Result<(), RunFault>
    ensures told { OnOk result (Appends (W.contents writer.old) (W.contents writer.new)
        (lines_for (event_text T.texts) events.now)) }
    ensures fault { IfErr result (λ fault. fault ≡ RunFault.Write) }
{
    for event in events {
        write_event(writer, event)?;
    }
    Ok(())
}

/// Writes each node as a line.
pub fn write_nodes<T: Key, W: Write>(writer: &mut W, pairs: &Pairs<T>) -> Result<(), RunFault>
    ensures told { OnOk result (Appends (W.contents writer.old) (W.contents writer.new)
        (lines_for (node_text T.texts) pairs.now.nodes)) }
    ensures fault { IfErr result (λ fault. fault ≡ RunFault.Write) }
{
    for node in pairs.iter_nodes() {
        write_node(writer, node)?;
    }
    Ok(())
}

/// Writes a node as a line: its pairs, separated by spaces.
pub fn write_node<T: Key, W: Write>(writer: &mut W, node: &[Pair<T, T>]) -> Result<(), RunFault>
    ensures told { OnOk result (Appends (W.contents writer.old) (W.contents writer.new)
        (ended (node_text T.texts node.now))) }
    ensures fault { IfErr result (λ fault. fault ≡ RunFault.Write) }
{
    let mut lead = "";
    for pair in node {
        let shown = PairText(pair);
        write!(writer, "{lead}{shown}").map_err(|_| RunFault::Write)?;
        lead = " ";
    }
    writeln!(writer).map_err(|_| RunFault::Write)
}
