//! The effect of a line on a follower, and the reply to it.

ghost use Rattle.std.specs.Prelude.{◌≡◌, ◌≢◌, IfOk, OnOk, IfErr, OnErr, Err};
ghost use Rattle.std.specs.Io.KnownBytes.{Appends, Keeps};
ghost use Rattle.indexset_follow.specs.Early.{caught_up, taken};
ghost use Rattle.indexset_follow.specs.Follow.{after_event, after_line, ahead_taken};
ghost use Rattle.indexset_follow.specs.Follow.{event_reply, reply_line, with_taken};

use crate::early::Early;
use crate::event::{Event, read_event};
use crate::follower::Follower;
use crate::mark::read_mark;
use crate::node::read_node;
use crate::others::Voice;
use crate::reads::answer_read;
use crate::reason::Reason;
use crate::reply::Reply;
use crate::snapshot::{take_mark, take_node};
use crate::write::{Nodes, write_voiced};
use indexset_bench::key::Key;
use indexset_core::refusal::Refusal;
use indexset_lines::RunFault;
use indexset_replica::Delivery;
use std::alloc::Global;
use std::io::Write;

/// Writes the reply to one line.
///
/// # Errors
///
/// `Memory`: nothing is written. `Write`.
pub fn answer_line<T: Key, W: Write>(
    alloc: Global,
    voice: Voice,
    writer: &mut W,
    follower: &mut Follower<T>,
    line: &[u8],
) -> Result<(), RunFault>
    ensures held { OnOk result (follower.new ≡ after_line T.cmp T.texts follower.old line.now) }
    ensures told { OnOk result (Appends (W.contents writer.old) (W.contents writer.new)
        (reply_line T.cmp T.texts voice follower.old line.now)) }
    ensures memory_refused { result ≡ Err RunFault.Memory
        → Keeps (W.contents writer.old) (W.contents writer.new) }
    ensures no_read { result ≢ Err RunFault.Read }
    ensures no_numbers { result ≢ Err RunFault.Numbers }
{
    if let Some(event) = read_event(alloc, line)? {
        let reply = take_event(alloc, follower, event)?;
        return write_voiced(writer, voice, reply);
    }
    if let Some(node) = read_node(alloc, line)? {
        let reply = take_node(follower, node)?;
        return write_voiced(writer, voice, reply);
    }
    match read_mark(line) {
        Some(mark) => {
            let reply = take_mark(alloc, follower, mark)?;
            write_voiced(writer, voice, reply)
        }
        None => answer_read(
            alloc,
            voice.follower_others(),
            writer,
            &follower.held,
            follower.done,
            line,
        ),
    }
}

/// Applies the awaited event and the early events after it, or holds an event that is ahead.
///
/// Returns the reply to the event.
fn take_event<T: Key>(
    alloc: Global,
    follower: &mut Follower<T>,
    event: Event<T>,
) -> Result<Reply, RunFault>
    ensures held { OnOk result (follower.new ≡ after_event T.cmp follower.old event) }
    ensures reply { IfOk result (λ reply. reply ≡ event_reply T.cmp follower.old event) }
    ensures fault { IfErr result (λ fault. fault ≡ RunFault.Memory) }
{
    let next = follower.held.next();
    match follower.held.offer(&event) {
        Ok(Delivery::Applied) => catch_up(&mut follower.held, &mut follower.early),
        Ok(Delivery::Duplicate) => Ok(Reply::Had(next)),
        Ok(Delivery::Gap) => take_ahead(alloc, follower, event),
        Err(refusal) => reply_unless_memory(refusal, next),
    }
}

/// Applies early events while the first is the awaited one, and returns the reply.
///
/// An event that does not apply is dropped, and ends this.
fn catch_up<T: Key>(nodes: &mut Nodes<T>, early: &mut Early<T>) -> Result<Reply, RunFault>
    ensures taken { IfOk result (λ reply. caught_up T.cmp nodes.old early.old
        ≡ taken nodes.new early.new reply) }
    ensures fault { IfErr result (λ fault. fault ≡ RunFault.Memory) }
{
    while let Some(event) = early.pop(nodes.next()) {
        if let Err(refusal) = nodes.apply(&event) {
            return reply_unless_memory(refusal, nodes.next());
        }
    }
    Ok(Reply::Next(nodes.next()))
}

/// Holds an event that is ahead of the awaited one by at most the window, and returns the reply.
///
/// A failed call changes nothing.
fn take_ahead<T: Key>(
    alloc: Global,
    follower: &mut Follower<T>,
    event: Event<T>,
) -> Result<Reply, RunFault>
    ensures held { OnOk result
        (follower.new ≡ with_taken follower.old (ahead_taken follower.old event)) }
    ensures reply { IfOk result (λ reply. reply ≡ (ahead_taken follower.old event).reply) }
    ensures fault { IfErr result (λ fault. fault ≡ RunFault.Memory) }
    ensures unchanged { OnErr result (follower.new ≡ follower.old) }
{
    let next = follower.held.next();
    let number = event.id().inner();
    if number > next.saturating_add(follower.window) {
        return Ok(Reply::Gap(next));
    }
    follower.early.insert(alloc, event)?;
    Ok(Reply::Missing(next, follower.early.first_number(number)))
}

/// Returns the reply to an event or a node that does not apply.
///
/// # Errors
///
/// `Memory`, if that is the refusal.
pub fn reply_unless_memory(refusal: Refusal, next: u64) -> Result<Reply, RunFault>
    ensures unfit { OnOk result (refusal ≢ Refusal.Memory) }
    ensures reply { IfOk result (λ reply. reply ≡ Reply.Unfit next (Reason.Refused refusal)) }
    ensures fault { IfErr result (λ fault. fault ≡ RunFault.Memory) }
{
    match refusal {
        Refusal::Memory => Err(RunFault::Memory),
        _ => Ok(Reply::Unfit(next, Reason::Refused(refusal))),
    }
}
