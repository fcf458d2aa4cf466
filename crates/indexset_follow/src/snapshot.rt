//! The effect of snapshot lines and `done` lines on a follower, and the replies to them.

ghost use Rattle.std.specs.Prelude.{◌≡◌, OnOk, OnErr, IfOk, IfErr};
ghost use Rattle.indexset_follow.specs.Follow.{after_mark, after_node, end_reason};
ghost use Rattle.indexset_follow.specs.Follow.{mark_reply, node_reply};

use crate::answer::reply_unless_memory;
use crate::early::Early;
use crate::follower::Follower;
use crate::mark::Mark;
use crate::node::Node;
use crate::reads::{Reads, reply_to_head};
use crate::reason::Reason;
use crate::reply::Reply;
use crate::write::Nodes;
use indexset_bench::key::Key;
use indexset_lines::RunFault;
use std::alloc::Global;
use std::mem;

/// Inserts a node into the snapshot that has begun, and returns the reply.
pub fn take_node<T: Key>(follower: &mut Follower<T>, node: Node<T>) -> Result<Reply, RunFault>
    ensures held { OnOk result (follower.new ≡ after_node T.cmp follower.old node.items) }
    ensures reply { IfOk result (λ reply. reply ≡ node_reply T.cmp follower.old node.items) }
    ensures fault { IfErr result (λ fault. fault ≡ RunFault.Memory) }
{
    let next = follower.held.next();
    match &mut follower.coming {
        Some(coming) => match coming.attach(node) {
            Ok(()) => Ok(Reply::Held),
            Err(refused) => reply_unless_memory(refused.cause, next),
        },
        None => Ok(Reply::Unfit(next, Reason::NotBegun)),
    }
}

/// Starts or ends a snapshot, or accepts a `done` line, and returns the reply.
pub fn take_mark<T: Key>(
    alloc: Global,
    follower: &mut Follower<T>,
    mark: Mark,
) -> Result<Reply, RunFault>
    ensures held { OnOk result (follower.new ≡ after_mark T.texts follower.old mark) }
    ensures reply { IfOk result (λ reply. reply ≡ mark_reply T.texts follower.old mark) }
    ensures fault { IfErr result (λ fault. fault ≡ RunFault.Memory) }
    ensures unchanged { OnErr result (follower.new ≡ follower.old) }
{
    match mark {
        Mark::Start(next, done) => {
            follower.coming = Some(Nodes::new(alloc, next));
            follower.coming_done = done;
            Ok(Reply::Held)
        }
        Mark::End(count, sum) => take_end(alloc, follower, count, sum),
        Mark::Done(done, end) => Ok(take_done(follower, done, end)),
    }
}

/// Sets the greatest command number if the events before `end` are applied, and returns the reply.
fn take_done<T: Key>(follower: &mut Follower<T>, done: u64, end: u64) -> Reply
    ensures held { follower.new ≡ after_mark T.texts follower.old (Mark.Done done end) }
    ensures reply { result ≡ mark_reply T.texts follower.old (Mark.Done done end) }
{
    let next = follower.held.next();
    if next >= end {
        follower.done = follower.done.max(done);
    }
    reply_to_head(next, end)
}

/// Replaces the whole state by the snapshot if it is complete, and returns the reply.
fn take_end<T: Key>(
    alloc: Global,
    follower: &mut Follower<T>,
    count: u64,
    sum: Option<u64>,
) -> Result<Reply, RunFault>
    ensures held { OnOk result
        (follower.new ≡ after_mark T.texts follower.old (Mark.End count sum)) }
    ensures reply { IfOk result (λ reply. reply
        ≡ mark_reply T.texts follower.old (Mark.End count sum)) }
    ensures fault { IfErr result (λ fault. fault ≡ RunFault.Memory) }
    ensures unchanged { OnErr result (follower.new ≡ follower.old) }
{
    let next = follower.held.next();
    let Some(coming) = &follower.coming else {
        return Ok(Reply::Unfit(next, Reason::NotBegun));
    };
    if let Some(reason) = wrong_end(alloc, coming, follower.coming_done, count, sum)? {
        follower.coming = None;
        follower.coming_done = 0;
        return Ok(Reply::Unfit(next, reason));
    }
    let next = coming.next();
    if let Some(came) = follower.coming.take() {
        follower.held = came;
        follower.done = mem::replace(&mut follower.coming_done, 0);
        follower.early = Early::new();
    }
    Ok(Reply::Next(next))
}

/// Returns the reason why the last line of a snapshot does not fit it, if any.
pub fn wrong_end<T: Key>(
    alloc: Global,
    coming: &Nodes<T>,
    done: u64,
    nodes: u64,
    sum_told: Option<u64>,
) -> Result<Option<Reason>, RunFault>
    ensures reason { IfOk result (λ reason. reason
        ≡ end_reason T.texts nodes sum_told coming.now done) }
    ensures fault { IfErr result (λ fault. fault ≡ RunFault.Memory) }
{
    if coming.node_total() as u64 != nodes {
        return Ok(Some(Reason::Count));
    }
    let Some(told) = sum_told else {
        return Ok(None);
    };
    let came = coming.sum_of_nodes(alloc, done)?;
    if came != told {
        return Ok(Some(Reason::Sum));
    }
    Ok(None)
}
