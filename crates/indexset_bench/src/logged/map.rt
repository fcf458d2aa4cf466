//! Commands to a logged map.

use super::Logged;
use indexset_core::node::NodeLike;
use indexset_core::pair::Pair;
use indexset_core::refusal::Refusal;
use indexset_events::change::ChangeEvent;
use indexset_log::map::BTreeMap;

/// A command to a logged map. The reply to each is `OldValue`, `Added` or `Out`.
#[derive(Debug, Drop)]
pub enum LoggedMapCommand<K, V> {
    /// Inserts the pair, or replaces the pair of an equal key. `OldValue`: the old value.
    Insert(K, V),
    /// Inserts the pair unless the key is present. `Added`: whether it was inserted.
    CheckedInsert(K, V),
    /// Removes the pair of the key. `Out`: that pair.
    Remove(K),
}

/// The reply to a command.
#[derive(Debug, PartialEq, Drop)]
pub enum LoggedMapReply<K, V> {
    /// The old value, if there was one.
    OldValue(Option<V>),
    /// Whether the pair was inserted.
    Added(bool),
    /// The removed key and value, if the key was present.
    Out(Option<(K, V)>),
}

impl<K: Ord + Clone + Drop, V: Clone + Drop, Node: NodeLike<Pair<K, V>>> Logged
    for BTreeMap<K, V, Node> {
    ghost use Rattle.indexset_core.specs.Clones.{AreIdentical};
    ghost use Rattle.std.specs.Prelude.{◌≡◌, ◌+◌, List, length, nat_lt};
    ghost use Rattle.std.below.core.specs.declared.int.u64.TheConstants.{MAX};
    ghost use Rattle.indexset_core.specs.Nodes.{concat};
    ghost use Rattle.indexset_core.specs.declared.pair.Pair.{Pair};
    ghost use Rattle.indexset_bench.specs.LoggedMap.{logged_map_reply, logged_map_after};
    ghost use Rattle.indexset_bench.specs.LoggedMap.{logged_map_events, logged_map_left};

    type Item = Pair<K, V>;

    type Command = LoggedMapCommand<K, V>;

    type Reply = LoggedMapReply<K, V>;

    ghost State = { List (Pair K V) };

    ghost nodes = { λ t. t.nodes };

    ghost size = { λ t. t.size };

    ghost next = { λ t. t.next };

    ghost state = { λ t. concat t.nodes };

    ghost reply = { logged_map_reply K.cmp };

    ghost after = { logged_map_after K.cmp };

    ghost events = { logged_map_events K.cmp };

    ghost left = { logged_map_left K.cmp };

    ghost lacks_numbers = { λ t command. nat_lt MAX
        (t.next + length (logged_map_events K.cmp t command)) };

    ghost clones = { AreIdentical K.is_clone × AreIdentical V.is_clone };

    ghost cloned = { λ p q. K.is_clone p.key q.key × V.is_clone p.value q.value };

    fn act(
        &mut self,
        command: LoggedMapCommand<K, V>,
    ) -> Result<(LoggedMapReply<K, V>, Vec<ChangeEvent<Pair<K, V>>>), Refusal> {
        match command {
            LoggedMapCommand::Insert(key, value) => {
                let (old, events) = self.insert_cdc(key, value)?;
                Ok((LoggedMapReply::OldValue(old), events))
            }
            LoggedMapCommand::CheckedInsert(key, value) => {
                match self.checked_insert_cdc(key, value)? {
                    Some(events) => Ok((LoggedMapReply::Added(true), events)),
                    None => Ok((LoggedMapReply::Added(false), Vec::new(*self.allocator()))),
                }
            }
            LoggedMapCommand::Remove(key) => {
                let (out, events) = self.remove_cdc(&key)?;
                Ok((LoggedMapReply::Out(out), events))
            }
        }
    }
}
