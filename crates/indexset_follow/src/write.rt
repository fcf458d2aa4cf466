//! Output: lines of replies, of nodes and of snapshots.

ghost use Rattle.std.specs.Prelude.{◌≡◌, OnOk, IfErr};
ghost use Rattle.std.specs.Io.KnownBytes.{Appends};
ghost use Rattle.indexset_bench.specs.PairText.{ended};
ghost use Rattle.indexset_follow.specs.Copy.{body_text, copy};
ghost use Rattle.indexset_follow.specs.Mark.{mark_line};
ghost use Rattle.indexset_follow.specs.NodeLine.{node_line};
ghost use Rattle.indexset_follow.specs.Reads.{nodes_text};
ghost use Rattle.indexset_follow.specs.Reply.{reply_ended, voiced};

use crate::mark::Mark;
use crate::others::Voice;
use crate::reads::nodes::WalkNodes;
use crate::reply::Reply;
use indexset_bench::Replica;
use indexset_bench::key::Key;
use indexset_bench::write::{write_bytes, write_node, write_number};
use indexset_core::pair::Pair;
use indexset_lines::RunFault;
use std::io::Write;

/// The nodes of a follower.
pub type Nodes<T> = Replica<Pair<T, T>>;

/// Writes a reply as a line.
pub fn write_reply<W: Write>(writer: &mut W, reply: Reply) -> Result<(), RunFault>
    ensures told { OnOk result (Appends (W.contents writer.old) (W.contents writer.new)
        (reply_ended reply)) }
    ensures fault { IfErr result (λ fault. fault ≡ RunFault.Write) }
{
    match reply {
        Reply::Next(number) => {
            write_bytes(writer, b"next ".as_slice())?;
            write_number(writer, number)?;
            write_bytes(writer, b"\n".as_slice())
        }
        reply => writer.writeln(reply).map_err(|_| RunFault::Write),
    }
}

/// Writes a follower's reply to an event or a line of a snapshot.
///
/// A quiet follower writes only urgent replies.
pub fn write_voiced<W: Write>(writer: &mut W, voice: Voice, reply: Reply) -> Result<(), RunFault>
    ensures told { OnOk result (Appends (W.contents writer.old) (W.contents writer.new)
        (voiced voice reply)) }
    ensures fault { IfErr result (λ fault. fault ≡ RunFault.Write) }
{
    if voice.is_quiet && !reply.is_urgent() {
        Ok(())
    } else {
        write_reply(writer, reply)
    }
}

/// Writes the nodes, one in each line, and then the next number.
pub fn write_nodes<'a, T: Key + 'a, N: WalkNodes<'a, T> + Drop, W: Write>(
    writer: &mut W,
    next: u64,
    nodes: N,
) -> Result<(), RunFault>
    ensures told { OnOk result (Appends (W.contents writer.old) (W.contents writer.new)
        (nodes_text T.texts (N.rest nodes) next)) }
    ensures fault { IfErr result (λ fault. fault ≡ RunFault.Write) }
{
    let mut walk = nodes;
    while let Some(node) = walk.next_node() {
        write_node(writer, node)?;
    }
    write_reply(writer, Reply::Next(next))
}

/// Writes the first or the last line of a snapshot, or a `done` line.
pub fn write_mark<W: Write>(writer: &mut W, mark: Mark) -> Result<(), RunFault>
    ensures told { OnOk result (Appends (W.contents writer.old) (W.contents writer.new)
        (ended (mark_line mark))) }
    ensures fault { IfErr result (λ fault. fault ≡ RunFault.Write) }
{
    writer.writeln(mark).map_err(|_| RunFault::Write)
}

/// Writes the line of a node.
pub fn write_node_line<T: Key, W: Write>(
    writer: &mut W,
    node: &[Pair<T, T>],
) -> Result<(), RunFault>
    ensures told { OnOk result (Appends (W.contents writer.old) (W.contents writer.new)
        (ended (node_line T.texts node.now))) }
    ensures fault { IfErr result (λ fault. fault ≡ RunFault.Write) }
{
    write!(writer, "node ").map_err(|_| RunFault::Write)?;
    write_node(writer, node)
}

/// Writes the lines of a snapshot before its last.
pub fn write_body<'a, T: Key + 'a, N: WalkNodes<'a, T> + Drop, W: Write>(
    writer: &mut W,
    next: u64,
    done: u64,
    nodes: N,
) -> Result<(), RunFault>
    ensures told { OnOk result (Appends (W.contents writer.old) (W.contents writer.new)
        (body_text T.texts (copy (N.rest nodes) next) done)) }
    ensures fault { IfErr result (λ fault. fault ≡ RunFault.Write) }
{
    let mut walk = nodes;
    write_mark(writer, Mark::Start(next, done))?;
    while let Some(node) = walk.next_node() {
        write_node_line(writer, node)?;
    }
    Ok(())
}
