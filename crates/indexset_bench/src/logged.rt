//! The trait of the logged trees, for lists of commands.
ghost use Rattle.std.specs.Prelude.{◌≡◌, ◌+◌, ◌/◌, ◌≤◌, ℕ, List, Bool, false, Some};
ghost use Rattle.std.specs.Prelude.{IfOk, OnOk, IfErr, OnErr, if◌then◌else◌, length};
ghost use Rattle.std.specs.List.{AllZip};
ghost use Rattle.indexset_events.specs.Clones.{IsEventClone};
ghost use Rattle.indexset_events.specs.Merging.{IsDense};
ghost use Rattle.indexset_events.specs.Replay.{replay, numbered_from};
ghost use Rattle.indexset_events.specs.declared.change.ChangeEventUnassigned.{
  ChangeEventUnassigned,
};

pub mod map;
pub mod multimap;
pub mod set;

use indexset_core::refusal::Refusal;
use indexset_events::change::ChangeEvent;

/// A tree that returns its changes as events.
pub trait Logged {
    /// The type of the items.
    type Item: Ord + Drop;
    /// The type of the commands.
    type Command: Drop;
    /// The type of the replies.
    type Reply: Drop;

    /// What replies depend on: the contents without the division into nodes.
    ghost State: { Type 0 };

    /// The nodes.
    ghost nodes: { Self → List (List Self.Item) };

    /// The maximum number of items in a node.
    ghost size: { Self → ℕ };

    /// The number of the next event.
    ghost next: { Self → ℕ };

    ghost state: { Self → Self.State };

    /// The reply to a command.
    ghost reply: { Self.State → Self.Command → Self.Reply };

    ghost after: { Self.State → Self.Command → Self.State };

    /// The events of a command, without numbers.
    ghost events: { Self → Self.Command → List (ChangeEventUnassigned Self.Item) };

    /// The tree after a command.
    ghost left: { Self → Self.Command → Self };

    /// Whether too few numbers remain for a command.
    ghost lacks_numbers: { Self → Self.Command → Bool };

    /// Clones of the items and of the arguments are identical to their sources.
    ghost clones: { Type 0 };

    /// Whether the second item is a clone of the first.
    ghost cloned: { Self.Item → Self.Item → Type 0 };

    /// Executes a command, and returns the reply and the events.
    ///
    /// # Errors
    ///
    /// `Memory`, or `Numbers` if too few numbers remain. A failed command changes nothing.
    fn act(
        &mut self,
        command: Self::Command,
    ) -> Result<(Self::Reply, Vec<ChangeEvent<Self::Item>>), Refusal>
        // Result.
        ensures reply { IfOk result (λ r. r.0 ≡ reply (state self.old) command) }
        ensures clones { IfOk result (λ r. AllZip (IsEventClone cloned)
            (numbered_from (next self.old) (events self.old command)) r.1.items) }
        ensures events { clones → IfOk result
            (λ r. r.1.items ≡ numbered_from (next self.old) (events self.old command)) }
        ensures at_most_three_events { IfOk result (λ r. length r.1.items ≤ 3) }

        // Contents.
        ensures state { OnOk result (state self.new ≡ after (state self.old) command) }
        ensures next { OnOk result (next self.new
            ≡ next self.old + length (events self.old command)) }

        // Failure.
        ensures fits { OnOk result (lacks_numbers self.old command ≡ false) }
        ensures refusal { IfErr result (λ e. e
            ≡ (if lacks_numbers self.old command then Refusal.Numbers else Refusal.Memory)) }
        ensures unchanged { OnErr result (self.new ≡ self.old) }

        // Nodes.
        ensures replay { clones → IfOk result
            (λ r. replay Self.Item.Ord.cmp (nodes self.old) r.1.items ≡ Some (nodes self.new)) }
        ensures table { OnOk result (replay Self.Item.Ord.cmp (nodes self.old)
            (numbered_from (next self.old) (events self.old command)) ≡ Some (nodes self.new)) }
        ensures tree { OnOk result (self.new ≡ left self.old command) }
        ensures size { size self.new ≡ size self.old }
        ensures dense { IsDense (size self.old / 2) (nodes self.old)
            → IsDense (size self.new / 2) (nodes self.new) };
}
