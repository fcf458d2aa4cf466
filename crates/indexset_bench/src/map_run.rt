//! Lists of commands to a map, and their replies.

ghost use Rattle.indexset_core.specs.Clones.{AreIdentical};
ghost use Rattle.std.specs.Prelude.{◌≡◌, ◌<◌, ◌++◌, [], ◌∷◌, IfOk, OnOk, IfErr};
ghost use Rattle.std.specs.Prelude.{OnErr, IfSome, OnSome, IfNone, length, take};
ghost use Rattle.indexset_bench.specs.Replies.{AppendsReply, AreReplies};
ghost use Rattle.indexset_bench.specs.MapRun.{IsMapReply, map_reply, map_after};
ghost use Rattle.indexset_bench.specs.MapRun.{map_replies, map_after_all};

use crate::command_run::Run;
use indexset_core::refusal::Refusal;
use indexset_map::BTreeMap;
use std::alloc::Global;

/// A command to a map. The reply to each is a `Value`, an `Entry`, a `Flag`, a `Count` or `Done`.
#[derive(Debug, Drop)]
pub enum MapCommand<K, V> {
    /// Sets the value of the key. `Value`: the old value.
    Insert(K, V),
    /// Returns the value of the key. `Value`: that value.
    Get(K),
    /// Removes the pair of the key. `Value`: the value of the pair.
    Remove(K),
    /// Returns the pair at the position. `Entry`: that pair.
    GetIndex(usize),
    /// Removes the pair of the key. `Entry`: that pair.
    RemoveEntry(K),
    /// Removes the pair of the least key. `Entry`: that pair.
    PopFirst,
    /// Removes the pair of the greatest key. `Entry`: that pair.
    PopLast,
    /// Returns whether the key is present. `Flag`.
    ContainsKey(K),
    /// Returns how many keys are less than the key. `Count`.
    Rank(K),
    /// Returns the number of pairs. `Count`.
    Len,
    /// Removes all pairs. `Done`.
    Clear,
}

/// The reply to a command.
#[derive(Debug, PartialEq, Drop)]
pub enum MapReply<K, V> {
    /// The value, if any; a clone of it if it stays in the map.
    Value(Option<V>),
    /// The key and the value, if any; clones if they stay in the map.
    Entry(Option<(K, V)>),
    /// The answer to the question.
    Flag(bool),
    /// The count.
    Count(usize),
    /// The command was executed.
    Done,
}

/// Executes the commands in order, and stops at the first that fails.
///
/// Returns the replies to the commands before that one; the map is in the state that they left.
/// Space for a reply is reserved before each command. Keys and values that stay in the map are
/// cloned into the replies.
pub fn run_map<K: Ord + Clone + Drop, V: Clone + Drop>(
    alloc: Global,
    map: &mut BTreeMap<K, V>,
    commands: Vec<MapCommand<K, V>>,
) -> Run<MapReply<K, V>>
    // Result.
    // The replies are those to the first commands, one each.
    ensures cloned { AreReplies (map_after K.cmp) (IsMapReply K.cmp K.is_clone V.is_clone)
        map.old.pairs
        (take (length result.replies.items) commands.items) result.replies.items }
    ensures replies { AreIdentical K.is_clone → AreIdentical V.is_clone
        → result.replies.items ≡ map_replies K.cmp map.old.pairs
        (take (length result.replies.items) commands.items) }
    ensures all { IfNone result.refused
        (length result.replies.items ≡ length commands.items) }

    // Contents.
    ensures contents { map.new.pairs ≡ map_after_all K.cmp map.old.pairs
        (take (length result.replies.items) commands.items) }

    // Failure.
    ensures fewer { OnSome result.refused
        (length result.replies.items < length commands.items) }
    ensures refused { IfSome result.refused (λ e. e ≡ Refusal.Memory) }

    // Nodes.
    ensures size { map.new.size ≡ map.old.size }
{
    let mut replies = Vec::new(alloc);
    for command in commands {
        if let Err(refusal) = answer(map, &mut replies, command) {
            return Run {
                replies,
                refused: Some(refusal),
            };
        }
    }
    Run {
        replies,
        refused: None,
    }
}

/// Executes a command, and appends its reply. A failed command changes nothing.
fn answer<K: Ord + Clone + Drop, V: Clone + Drop>(
    map: &mut BTreeMap<K, V>,
    replies: &mut Vec<MapReply<K, V>>,
    command: MapCommand<K, V>,
) -> Result<(), Refusal>
    // Result.
    ensures cloned { OnOk result (AppendsReply
        (IsMapReply K.cmp K.is_clone V.is_clone map.old.pairs command) replies.old.items
        replies.new.items) }
    ensures told { AreIdentical K.is_clone → AreIdentical V.is_clone
        → OnOk result (replies.new.items
        ≡ replies.old.items ++ map_reply K.cmp map.old.pairs command ∷ []) }

    // Contents.
    ensures ok { OnOk result (map.new.pairs ≡ map_after K.cmp map.old.pairs command) }

    // Failure.
    ensures refusal { IfErr result (λ e. e ≡ Refusal.Memory) }
    ensures untold { OnErr result (replies.new.items ≡ replies.old.items) }
    ensures unchanged { OnErr result (map.new.pairs ≡ map.old.pairs) }

    // Nodes.
    ensures size { map.new.size ≡ map.old.size }
{
    replies.reserve(1)?;
    let reply = act(map, command)?;
    replies.push_reserved(reply);
    Ok(())
}

/// Executes a command, and returns its reply. A failed command changes nothing.
fn act<K: Ord + Clone + Drop, V: Clone + Drop>(
    map: &mut BTreeMap<K, V>,
    command: MapCommand<K, V>,
) -> Result<MapReply<K, V>, Refusal>
    // Result.
    ensures cloned { IfOk result (λ reply. IsMapReply K.cmp K.is_clone V.is_clone map.old.pairs
        command reply) }
    ensures reply { AreIdentical K.is_clone → AreIdentical V.is_clone
        → IfOk result (λ reply. reply ≡ map_reply K.cmp map.old.pairs command) }

    // Contents.
    ensures ok { OnOk result (map.new.pairs ≡ map_after K.cmp map.old.pairs command) }

    // Failure.
    ensures refusal { IfErr result (λ e. e ≡ Refusal.Memory) }
    ensures unchanged { OnErr result (map.new.pairs ≡ map.old.pairs) }

    // Nodes.
    ensures size { map.new.size ≡ map.old.size }
{
    let reply = match command {
        MapCommand::Insert(key, value) => match map.insert(key, value) {
            Ok(old) => MapReply::Value(old),
            Err(refused) => return Err(refused.cause),
        },
        MapCommand::Get(key) => MapReply::Value(map.get(&key).cloned()?),
        MapCommand::Remove(key) => MapReply::Value(map.remove(&key)),
        MapCommand::GetIndex(i) => match map.get_index(i) {
            Some((key, value)) => MapReply::Entry(Some((key.clone()?, value.clone()?))),
            None => MapReply::Entry(None),
        },
        MapCommand::RemoveEntry(key) => MapReply::Entry(map.remove_entry(&key)),
        MapCommand::PopFirst => MapReply::Entry(map.pop_first()),
        MapCommand::PopLast => MapReply::Entry(map.pop_last()),
        MapCommand::ContainsKey(key) => MapReply::Flag(map.contains_key(&key)),
        MapCommand::Rank(key) => MapReply::Count(map.rank(&key)),
        MapCommand::Len => MapReply::Count(map.len()),
        MapCommand::Clear => {
            map.clear();
            MapReply::Done
        }
    };
    Ok(reply)
}
