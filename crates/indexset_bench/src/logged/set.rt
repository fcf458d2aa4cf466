//! Commands to a logged set.

use super::Logged;
use indexset_core::node::NodeLike;
use indexset_core::refusal::Refusal;
use indexset_events::change::ChangeEvent;
use indexset_log::set::BTreeSet;

/// A command to a logged set. The reply to each is `Old` or `Added`.
#[derive(Debug, Drop)]
pub enum LoggedSetCommand<T> {
    /// Inserts the value, or replaces the equal item. `Old`: that item.
    Put(T),
    /// Inserts the value unless an equal item is present. `Added`: whether it was inserted.
    PutChecked(T),
    /// Removes the item equal to the value. `Old`: that item.
    Remove(T),
}

/// The reply to a command.
#[derive(Debug, PartialEq, Drop)]
pub enum LoggedSetReply<T> {
    /// The old item, if there was one.
    Old(Option<T>),
    /// Whether the value was inserted.
    Added(bool),
}

impl<T: Ord + Clone + Drop, Node: NodeLike<T>> Logged for BTreeSet<T, Node> {
    ghost use Rattle.indexset_core.specs.Clones.{AreIdentical};
    ghost use Rattle.std.specs.Prelude.{◌≡◌, ◌+◌, List, length, nat_lt};
    ghost use Rattle.std.below.core.specs.declared.int.u64.TheConstants.{MAX};
    ghost use Rattle.indexset_core.specs.Nodes.{concat};
    ghost use Rattle.indexset_bench.specs.LoggedSet.{logged_set_reply, logged_set_after};
    ghost use Rattle.indexset_bench.specs.LoggedSet.{logged_set_events, logged_set_left};

    type Item = T;

    type Command = LoggedSetCommand<T>;

    type Reply = LoggedSetReply<T>;

    ghost State = { List T };

    ghost nodes = { λ t. t.nodes };

    ghost size = { λ t. t.size };

    ghost next = { λ t. t.next };

    ghost state = { λ t. concat t.nodes };

    ghost reply = { logged_set_reply T.cmp };

    ghost after = { logged_set_after T.cmp };

    ghost events = { logged_set_events T.cmp };

    ghost left = { logged_set_left T.cmp };

    ghost lacks_numbers = { λ t command. nat_lt MAX
        (t.next + length (logged_set_events T.cmp t command)) };

    ghost clones = { AreIdentical T.is_clone };

    ghost cloned = { T.is_clone };

    fn act(
        &mut self,
        command: LoggedSetCommand<T>,
    ) -> Result<(LoggedSetReply<T>, Vec<ChangeEvent<T>>), Refusal> {
        match command {
            LoggedSetCommand::Put(value) => {
                let (old, events) = self.put_cdc(value)?;
                Ok((LoggedSetReply::Old(old), events))
            }
            LoggedSetCommand::PutChecked(value) => match self.put_cdc_checked(value)? {
                Some(events) => Ok((LoggedSetReply::Added(true), events)),
                None => Ok((LoggedSetReply::Added(false), Vec::new(*self.allocator()))),
            },
            LoggedSetCommand::Remove(value) => {
                let (old, events) = self.remove_cdc(&value)?;
                Ok((LoggedSetReply::Old(old), events))
            }
        }
    }
}
