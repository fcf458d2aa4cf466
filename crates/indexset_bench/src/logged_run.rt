//! Lists of commands to a logged tree, their replies and their events.
ghost use Rattle.std.specs.Prelude.{◌≡◌, ◌≢◌, ◌+◌, ◌-◌, ◌*◌, ◌/◌, ◌≤◌, ◌<◌, ◌++◌, ◌∷◌};
ghost use Rattle.std.specs.Prelude.{[], true, Some, OnOk, IfErr, OnErr, IfSome, OnSome};
ghost use Rattle.std.specs.Prelude.{IfNone, IsSomeAnd, length, take, slice_get};
ghost use Rattle.std.specs.List.{AllZip, AppendsClones, fold, scan};
ghost use Rattle.indexset_bench.specs.Told.{events_in_turn};
ghost use Rattle.indexset_core.specs.Nodes.{concat};
ghost use Rattle.indexset_events.specs.Clones.{IsEventClone};
ghost use Rattle.indexset_events.specs.Merging.{IsDense};
ghost use Rattle.indexset_events.specs.Replay.{replay, numbered_from, IsNumberedFrom};
ghost use Rattle.indexset_replica.specs.Copies.{AreClonesEqual, LeadsToCopies};

use crate::logged::Logged;
use indexset_core::refusal::Refusal;
use indexset_events::change::ChangeEvent;
use std::alloc::Global;

/// The replies to a list of commands, and the events.
#[derive(Drop)]
pub struct LogRun<L: Logged> {
    /// The replies in order, up to the first command that failed.
    pub replies: Vec<L::Reply>,
    /// The events of these commands, in order.
    pub events: Vec<ChangeEvent<L::Item>>,
    /// The error of the command that failed, if one did.
    pub refused: Option<Refusal>,
}

/// Executes the commands in order, and stops at the first that fails.
///
/// Returns the replies and the events of the commands before that one; the tree is in the state
/// that they left. Space for a reply and for three events is reserved before each command.
pub fn run_logged<L: Logged>(alloc: Global, tree: &mut L, commands: Vec<L::Command>) -> LogRun<L>
    // Result.
    // The events are those of the definition, with clones of its items, numbered without a gap.
    ensures clones { AllZip (IsEventClone L.cloned)
        (numbered_from (L.next tree.old) (events_in_turn L.left L.events tree.old
        (take (length result.replies.items) commands.items))) result.events.items }
    ensures numbered { IsNumberedFrom (L.next tree.old) result.events.items }
    ensures events { L.clones → result.events.items
        ≡ numbered_from (L.next tree.old) (events_in_turn L.left L.events tree.old
        (take (length result.replies.items) commands.items)) }
    ensures at_most_three_events { length result.events.items ≤ 3 * length result.replies.items }
    // The replies are those to the first commands, one each.
    ensures replies { result.replies.items ≡ scan L.after L.reply (L.state tree.old)
        (take (length result.replies.items) commands.items) }
    ensures all { IfNone result.refused
        (length result.replies.items ≡ length commands.items) }

    // Contents.
    ensures next { L.next tree.new ≡ L.next tree.old + length result.events.items }
    ensures state { L.state tree.new ≡ fold L.after (L.state tree.old)
        (take (length result.replies.items) commands.items) }

    // Failure.
    ensures fewer { OnSome result.refused
        (length result.replies.items < length commands.items) }
    ensures refused { IfSome result.refused (λ e. e ≢ Refusal.Memory → (e ≡ Refusal.Numbers)
        × IsSomeAnd (slice_get commands.items (length result.replies.items))
        (λ command. L.lacks_numbers tree.new command ≡ true)) }

    // Nodes.
    ensures table { replay L.Item.Ord.cmp (L.nodes tree.old)
        (numbered_from (L.next tree.old) (events_in_turn L.left L.events tree.old
        (take (length result.replies.items) commands.items))) ≡ Some (L.nodes tree.new) }
    // If clones are identical to their sources, replaying the events on the nodes before the run
    // gives the nodes after it.
    ensures replay { L.clones → replay L.Item.Ord.cmp (L.nodes tree.old) result.events.items
        ≡ Some (L.nodes tree.new) }
    // If clones equal their sources, replaying them gives copies of the nodes after the run.
    ensures replay_of_clones { AreClonesEqual L.Item.Ord.cmp L.cloned
        → LeadsToCopies L.Item.Ord.cmp L.cloned (L.nodes tree.old) result.events.items
        (L.nodes tree.new) }
    ensures tree { tree.new ≡ fold L.left tree.old
        (take (length result.replies.items) commands.items) }
    ensures size { L.size tree.new ≡ L.size tree.old }
    // The number of nodes stays O(n / node size): if each two neighbours held more than half the
    // node size together, they still do, also after a failure.
    ensures dense { IsDense (L.size tree.old / 2) (L.nodes tree.old)
        → IsDense (L.size tree.new / 2) (L.nodes tree.new) }
    ensures few_nodes { IsDense (L.size tree.old / 2) (L.nodes tree.old)
        → (length (L.nodes tree.new) - 1) * (L.size tree.new / 2 + 1)
        ≤ 2 * length (concat (L.nodes tree.new)) }
    ensures few_from_empty { L.nodes tree.old ≡ []
        → (length (L.nodes tree.new) - 1) * (L.size tree.new / 2 + 1)
        ≤ 2 * length (concat (L.nodes tree.new)) }
{
    let mut replies = Vec::new(alloc);
    let mut events = Vec::new(alloc);
    for command in commands {
        if let Err(refusal) = answer(tree, &mut replies, &mut events, command) {
            return LogRun {
                replies,
                events,
                refused: Some(refusal),
            };
        }
    }
    LogRun {
        replies,
        events,
        refused: None,
    }
}

/// Executes a command, and appends its reply and its events. A failed command changes nothing.
fn answer<L: Logged>(
    tree: &mut L,
    replies: &mut Vec<L::Reply>,
    events: &mut Vec<ChangeEvent<L::Item>>,
    command: L::Command,
) -> Result<(), Refusal>
    // Result.
    ensures told { OnOk result (replies.new.items
        ≡ replies.old.items ++ L.reply (L.state tree.old) command ∷ []) }
    ensures clones { OnOk result (AppendsClones (IsEventClone L.cloned) events.old.items
        events.new.items (numbered_from (L.next tree.old) (L.events tree.old command))) }
    ensures events { L.clones → OnOk result
        (events.new.items ≡ events.old.items
        ++ numbered_from (L.next tree.old) (L.events tree.old command)) }
    ensures at_most_three_events { OnOk result
        (length events.new.items ≤ length events.old.items + 3) }

    // Contents.
    ensures state { OnOk result (L.state tree.new ≡ L.after (L.state tree.old) command) }
    ensures next { OnOk result (L.next tree.new
        ≡ L.next tree.old + length (L.events tree.old command)) }

    // Failure.
    ensures refusal { IfErr result (λ e. e ≢ Refusal.Memory
        → (e ≡ Refusal.Numbers) × (L.lacks_numbers tree.old command ≡ true)) }
    ensures untold { OnErr result (replies.new.items ≡ replies.old.items) }
    ensures no_event { OnErr result (events.new.items ≡ events.old.items) }
    ensures unchanged { OnErr result (tree.new ≡ tree.old) }

    // Nodes.
    ensures tree { OnOk result (tree.new ≡ L.left tree.old command) }
    ensures table { OnOk result (replay L.Item.Ord.cmp (L.nodes tree.old)
        (numbered_from (L.next tree.old) (L.events tree.old command)) ≡ Some (L.nodes tree.new)) }
    ensures size { L.size tree.new ≡ L.size tree.old }
    ensures dense { IsDense (L.size tree.old / 2) (L.nodes tree.old)
        → IsDense (L.size tree.new / 2) (L.nodes tree.new) }
{
    replies.reserve(1)?;
    events.reserve(3)?;
    let (reply, mut made) = tree.act(command)?;
    replies.push_reserved(reply);
    let _ = events.append(&mut made);
    Ok(())
}
