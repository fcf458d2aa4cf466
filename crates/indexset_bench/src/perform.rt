//! Commands to the set: what each changes, and its reply.
ghost use Rattle.std.specs.Prelude.{◌≡◌, Some, IfOk, OnOk, IfErr, OnErr};
ghost use Rattle.indexset_spine.specs.NodeList.{items};
ghost use Rattle.indexset_bench.specs.Reply.{AddsNew, reply_to, contents_after};

use crate::command::Command;
use crate::reply::Reply;
use indexset_core::refusal::Refusal;
use indexset_set::BTreeSet;

/// Executes a command, and returns its reply.
///
/// # Errors
///
/// `Memory`. A failed call changes nothing.
pub fn perform(set: &mut BTreeSet<u64>, command: Command) -> Result<Reply<u64>, Refusal>
    // Result.
    ensures reply { IfOk result (λ reply. reply ≡ reply_to (items set.old) (Some command)) }

    // Contents.
    ensures ok { OnOk result (items set.new ≡ contents_after (items set.old) (Some command)) }

    // Failure.
    ensures refusal { IfErr result (λ e. e ≡ Refusal.Memory) }
    ensures unchanged { OnErr result (items set.new ≡ items set.old) }

    // Memory.
    ensures only_new { OnErr result (AddsNew (items set.old) (Some command)) }
{
    let reply = match command {
        Command::Add(n) => match set.insert(n) {
            Ok(true) => Reply::New,
            Ok(false) => Reply::Old,
            Err(refused) => return Err(refused.cause),
        },
        Command::Del(n) => {
            if set.remove(&n) {
                Reply::Gone
            } else {
                Reply::Nothing
            }
        }
        Command::Has(n) => {
            if set.contains(&n) {
                Reply::Yes
            } else {
                Reply::No
            }
        }
        Command::Rank(n) => Reply::Count(set.rank(&n)),
        Command::At(position) => match set.get_index(position as usize) {
            Some(n) => Reply::Item(*n),
            None => Reply::Nothing,
        },
        Command::Len => Reply::Count(set.len()),
    };
    Ok(reply)
}
