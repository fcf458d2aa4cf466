//! Commands to a multimap.

use super::Logged;
use indexset_core::multipair::MultiPair;
use indexset_core::node::NodeLike;
use indexset_core::refusal::Refusal;
use indexset_events::change::ChangeEvent;
use indexset_multi::multimap::BTreeMultiMap;

/// A command to a multimap. The reply to each is `OldValue` or `Out`.
#[derive(Debug, Drop)]
pub enum LoggedMultiCommand<K, V> {
    /// Inserts the pair, or replaces the first pair of its key that has an equal value. `OldValue`:
    /// the old value.
    Insert(K, V),
    /// Removes the first pair of the key. `Out`: that pair.
    RemoveSome(K),
    /// Removes the first pair of the key that has an equal value. `Out`: that pair.
    Remove(K, V),
}

/// The reply to a command.
#[derive(Debug, PartialEq, Drop)]
pub enum LoggedMultiReply<K, V> {
    /// The old value, if there was one.
    OldValue(Option<V>),
    /// The removed key and value, if there was such a pair.
    Out(Option<(K, V)>),
}

impl<K: Ord + Clone + Drop, V: Eq + Clone + Drop, Node: NodeLike<MultiPair<K, V>>> Logged
    for BTreeMultiMap<K, V, Node> {
    ghost use Rattle.indexset_core.specs.Clones.{AreIdentical};
    ghost use Rattle.std.specs.Prelude.{◌≡◌, ◌+◌, ◌||◌, List, length, nat_lt};
    ghost use Rattle.std.below.core.specs.declared.int.u64.TheConstants.{MAX};
    ghost use Rattle.indexset_core.specs.Nodes.{concat};
    ghost use Rattle.indexset_core.specs.declared.multipair.MultiPair.{MultiPair};
    ghost use Rattle.indexset_bench.specs.LoggedMulti.{MultiState, logged_multi_reply};
    ghost use Rattle.indexset_bench.specs.LoggedMulti.{logged_multi_after, logged_multi_events};
    ghost use Rattle.indexset_bench.specs.LoggedMulti.{logged_multi_left, lacks_pair_number};

    type Item = MultiPair<K, V>;

    type Command = LoggedMultiCommand<K, V>;

    type Reply = LoggedMultiReply<K, V>;

    ghost State = { MultiState K V };

    ghost nodes = { λ m. m.nodes };

    ghost size = { λ m. m.size };

    ghost next = { λ m. m.next };

    ghost state = { λ m. record { pairs = concat m.nodes; pair_next = m.pair_next } };

    ghost reply = { logged_multi_reply K.cmp V.eq };

    ghost after = { logged_multi_after K.cmp V.eq };

    ghost events = { logged_multi_events K.cmp V.eq };

    ghost left = { logged_multi_left K.cmp V.eq };

    ghost lacks_numbers = { λ m command. lacks_pair_number K.cmp V.eq m command || nat_lt MAX
        (m.next + length (logged_multi_events K.cmp V.eq m command)) };

    ghost clones = { AreIdentical K.is_clone × AreIdentical V.is_clone };

    ghost cloned = { λ p q. K.is_clone p.key q.key
        × (V.is_clone p.value q.value × (q.discriminator ≡ p.discriminator)) };

    fn act(
        &mut self,
        command: LoggedMultiCommand<K, V>,
    ) -> Result<(LoggedMultiReply<K, V>, Vec<ChangeEvent<MultiPair<K, V>>>), Refusal> {
        match command {
            LoggedMultiCommand::Insert(key, value) => {
                let (old, events) = self.insert_cdc(key, value)?;
                Ok((LoggedMultiReply::OldValue(old), events))
            }
            LoggedMultiCommand::RemoveSome(key) => {
                let (out, events) = self.remove_some_cdc(&key)?;
                Ok((LoggedMultiReply::Out(out), events))
            }
            LoggedMultiCommand::Remove(key, value) => {
                let (out, events) = self.remove_cdc(&key, &value)?;
                Ok((LoggedMultiReply::Out(out), events))
            }
        }
    }
}
