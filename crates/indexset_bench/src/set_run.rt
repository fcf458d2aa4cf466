//! Lists of commands to a set, and their replies.

ghost use Rattle.indexset_core.specs.Clones.{AreIdentical};
ghost use Rattle.std.specs.Prelude.{◌≡◌, ◌<◌, ◌++◌, [], ◌∷◌, IfOk, OnOk, IfErr};
ghost use Rattle.std.specs.Prelude.{OnErr, IfSome, OnSome, IfNone, length, take};
ghost use Rattle.indexset_spine.specs.NodeList.{items};
ghost use Rattle.indexset_bench.specs.Replies.{AppendsReply, AreReplies};
ghost use Rattle.indexset_bench.specs.SetRun.{IsSetReply, set_reply, set_after};
ghost use Rattle.indexset_bench.specs.SetRun.{set_replies, set_after_all};

use crate::command_run::Run;
use indexset_core::refusal::Refusal;
use indexset_set::BTreeSet;
use std::alloc::Global;

/// A command to a set. The reply to each is a `Flag`, an `Item`, a `Count` or `Done`.
#[derive(Debug, Drop)]
pub enum SetCommand<T> {
    /// Inserts the value unless an equal element is present. `Flag`: whether it was inserted.
    Insert(T),
    /// Removes the element equal to the value. `Flag`: whether it was present.
    Remove(T),
    /// Returns whether an element equal to the value is present. `Flag`.
    Contains(T),
    /// Replaces the element equal to the value, or inserts the value. `Item`: the old element.
    Replace(T),
    /// Removes the element equal to the value. `Item`: that element.
    Take(T),
    /// Returns the element equal to the value. `Item`: that element.
    Get(T),
    /// Returns the first element that is not less than the value. `Item`: that element.
    LowerBound(T),
    /// Returns the element at the position. `Item`: that element.
    GetIndex(usize),
    /// Returns the least element. `Item`: that element.
    First,
    /// Returns the greatest element. `Item`: that element.
    Last,
    /// Removes the least element. `Item`: that element.
    PopFirst,
    /// Removes the greatest element. `Item`: that element.
    PopLast,
    /// Returns how many elements are less than the value. `Count`.
    Rank(T),
    /// Returns the number of elements. `Count`.
    Len,
    /// Removes all elements. `Done`.
    Clear,
}

/// The reply to a command.
#[derive(Debug, PartialEq, Drop)]
pub enum SetReply<T> {
    /// The answer to the question.
    Flag(bool),
    /// The element, if any; a clone of it if it stays in the set.
    Item(Option<T>),
    /// The count.
    Count(usize),
    /// The command was executed.
    Done,
}

/// Executes the commands in order, and stops at the first that fails.
///
/// Returns the replies to the commands before that one; the set is in the state that they left.
/// Space for a reply is reserved before each command. Elements that stay in the set are cloned into
/// the replies.
pub fn run_set<T: Ord + Clone + Drop>(
    alloc: Global,
    set: &mut BTreeSet<T>,
    commands: Vec<SetCommand<T>>,
) -> Run<SetReply<T>>
    // Result.
    // The replies are those to the first commands, one each.
    ensures cloned { AreReplies (set_after T.cmp) (IsSetReply T.cmp T.is_clone) (items set.old)
        (take (length result.replies.items) commands.items) result.replies.items }
    ensures replies { AreIdentical T.is_clone
        → result.replies.items ≡ set_replies T.cmp (items set.old)
        (take (length result.replies.items) commands.items) }
    ensures all { IfNone result.refused
        (length result.replies.items ≡ length commands.items) }

    // Contents.
    ensures contents { items set.new ≡ set_after_all T.cmp (items set.old)
        (take (length result.replies.items) commands.items) }

    // Failure.
    ensures fewer { OnSome result.refused
        (length result.replies.items < length commands.items) }
    ensures refused { IfSome result.refused (λ e. e ≡ Refusal.Memory) }

    // Nodes.
    ensures size { set.new.size ≡ set.old.size }
{
    let mut replies = Vec::new(alloc);
    for command in commands {
        if let Err(refusal) = answer(set, &mut replies, command) {
            return Run {
                replies,
                refused: Some(refusal),
            };
        }
    }
    Run {
        replies,
        refused: None,
    }
}

/// Executes a command, and appends its reply. A failed command changes nothing.
fn answer<T: Ord + Clone + Drop>(
    set: &mut BTreeSet<T>,
    replies: &mut Vec<SetReply<T>>,
    command: SetCommand<T>,
) -> Result<(), Refusal>
    // Result.
    ensures cloned { OnOk result (AppendsReply (IsSetReply T.cmp T.is_clone (items set.old) command)
        replies.old.items replies.new.items) }
    ensures told { AreIdentical T.is_clone → OnOk result (replies.new.items
        ≡ replies.old.items ++ set_reply T.cmp (items set.old) command ∷ []) }

    // Contents.
    ensures ok { OnOk result (items set.new ≡ set_after T.cmp (items set.old) command) }

    // Failure.
    ensures refusal { IfErr result (λ e. e ≡ Refusal.Memory) }
    ensures untold { OnErr result (replies.new.items ≡ replies.old.items) }
    ensures unchanged { OnErr result (items set.new ≡ items set.old) }

    // Nodes.
    ensures size { set.new.size ≡ set.old.size }
{
    replies.reserve(1)?;
    let reply = act(set, command)?;
    replies.push_reserved(reply);
    Ok(())
}

/// Executes a command, and returns its reply. A failed command changes nothing.
fn act<T: Ord + Clone + Drop>(
    set: &mut BTreeSet<T>,
    command: SetCommand<T>,
) -> Result<SetReply<T>, Refusal>
    // Result.
    ensures cloned { IfOk result (λ reply. IsSetReply T.cmp T.is_clone (items set.old) command
        reply) }
    ensures reply { AreIdentical T.is_clone
        → IfOk result (λ reply. reply ≡ set_reply T.cmp (items set.old) command) }

    // Contents.
    ensures ok { OnOk result (items set.new ≡ set_after T.cmp (items set.old) command) }

    // Failure.
    ensures refusal { IfErr result (λ e. e ≡ Refusal.Memory) }
    ensures unchanged { OnErr result (items set.new ≡ items set.old) }

    // Nodes.
    ensures size { set.new.size ≡ set.old.size }
{
    let reply = match command {
        SetCommand::Insert(v) => match set.insert(v) {
            Ok(added) => SetReply::Flag(added),
            Err(refused) => return Err(refused.cause),
        },
        SetCommand::Remove(v) => SetReply::Flag(set.remove(&v)),
        SetCommand::Contains(v) => SetReply::Flag(set.contains(&v)),
        SetCommand::Replace(v) => match set.replace(v) {
            Ok(old) => SetReply::Item(old),
            Err(refused) => return Err(refused.cause),
        },
        SetCommand::Take(v) => SetReply::Item(set.take(&v)),
        SetCommand::Get(v) => SetReply::Item(set.get(&v).cloned()?),
        SetCommand::LowerBound(v) => SetReply::Item(set.lower_bound(&v).cloned()?),
        SetCommand::GetIndex(i) => SetReply::Item(set.get_index(i).cloned()?),
        SetCommand::First => SetReply::Item(set.first().cloned()?),
        SetCommand::Last => SetReply::Item(set.last().cloned()?),
        SetCommand::PopFirst => SetReply::Item(set.pop_first()),
        SetCommand::PopLast => SetReply::Item(set.pop_last()),
        SetCommand::Rank(v) => SetReply::Count(set.rank(&v)),
        SetCommand::Len => SetReply::Count(set.len()),
        SetCommand::Clear => {
            set.clear();
            SetReply::Done
        }
    };
    Ok(reply)
}
