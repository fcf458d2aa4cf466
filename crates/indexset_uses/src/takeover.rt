//! A replica of a set of numbers that takes over after the set is lost.
ghost use Rattle.std.specs.Prelude.{◌≡◌, ◌<◌, ◌≤◌, [], length, take, unwrap_or, Some, IfErr, IfOk};
ghost use Rattle.std.specs.List.{All};
ghost use Rattle.std.specs.Ordering.{nat_cmp};
ghost use Rattle.indexset.specs.Words.{IsPrefix, IsDelivered, IsEventLog};
ghost use Rattle.indexset.specs.Words.{nodes_refusal, replay, vec_items};

use crate::change_log::Numbers;
use indexset::base::refusal::Refusal;
use indexset::cdc::change::ChangeEvent;
use indexset::cdc::laws::steps_lead_to_nodes;
use indexset::replica::Replica;
use indexset::replica::laws::delivery::offers_only_advance;

/// Returns a replica that starts from a snapshot and then follows events of the set, in any order.
///
/// The snapshot is nodes that the set had, and the number of its next event. The replica has the
/// nodes after the longest prefix of all events that the snapshot and the events in `order`
/// contain.
pub fn resume(
    nodes: Vec<Vec<u64>>,
    next: u64,
    events: &[ChangeEvent<u64>],
    order: &[usize],
) -> Result<Replica<u64>, Refusal>
    requires feed { IsEventLog nat_cmp 0 [] events.now }
    requires within { next ≤ length events.now }
    requires snapshot { replay nat_cmp [] (take next events.now) ≡ Some (vec_items nodes.items) }
    requires inside { All (λ p. p < length events.now) order.now }
    ensures delivered { IfOk result (λ copy.
        IsDelivered nat_cmp 0 [] events.now next order.now copy) }
    ensures beginning { IfOk result (λ copy. IsPrefix nat_cmp 0 [] events.now copy) }
    ensures onwards { IfOk result (λ copy. next ≤ copy.next) }
    ensures memory { IfErr result (λ refusal. refusal ≡ Refusal.Memory) }
{
    steps_lead_to_nodes::<u64>();
    offers_only_advance::<u64>();
    let mut copy = Replica::from_nodes(nodes, next)?;
    copy.follow(events, order)?;
    Ok(copy)
}

/// Returns a set that continues from a replica.
///
/// It has the nodes of the replica, and its next event has the number that the replica expects.
///
/// # Errors
///
/// A node has more than `size` numbers, or memory runs out.
pub fn promote(copy: Replica<u64>, size: usize) -> Result<Numbers, Refusal>
    requires { 2 ≤ size }
    ensures tree { IfOk result (λ tree. tree
        ≡ record { nodes = copy.nodes; size = size; next = copy.next }) }
    ensures cause { IfErr result (λ refusal. refusal
        ≡ unwrap_or (nodes_refusal nat_cmp size copy.nodes) Refusal.Memory) }
{
    let next = copy.next();
    Ok(Numbers::from_nodes(copy.into_nodes(), size, next)?)
}
