//! Lists of commands to a map by name.
ghost use Rattle.std.specs.Prelude.{◌≡◌, ◌≢◌, ◌+◌, ◌*◌, ◌<◌, ◌≤◌, length, take};
ghost use Rattle.std.specs.Prelude.{Some, IfNone, IfSome, OnSome, string_bytes};
ghost use Rattle.std.specs.List.{fold, scan};
ghost use Rattle.std.specs.Ordering.{nat_cmp};
ghost use Rattle.std.specs.String.{string_cmp};
ghost use Rattle.std.specs.Cmp.Lexicographic.{slice_cmp};
ghost use Rattle.indexset.specs.Words.{by_key, concat, replay, IsNumberedFrom, LeadsToCopies};
ghost use Rattle.indexset_core.specs.declared.refusal.Refusal.TheVariants.{Memory, Numbers};
ghost use Rattle.indexset_bench.specs.LoggedMap.{logged_map_after, logged_map_reply};

use crate::stock::Stock;
use crate::strings::Counts;
use indexset::base::Text;
use indexset::replica::laws::clones;
use indexset_bench::logged::map::LoggedMapCommand;
use indexset_bench::logged_run::{LogRun, run_logged};
use std::alloc::Global;

/// Executes commands on a stock, and stops at the first that fails.
///
/// Replaying the events on the nodes before the run gives those after it. The stock is as the
/// commands with a reply left it.
pub fn run_stock(
    alloc: Global,
    stock: &mut Stock,
    commands: Vec<LoggedMapCommand<Text, u64>>,
) -> LogRun<Stock>
    // Result.
    ensures numbered { IsNumberedFrom stock.old.next result.events.items }
    ensures replies { result.replies.items ≡ scan (logged_map_after (slice_cmp nat_cmp))
        (logged_map_reply (slice_cmp nat_cmp)) (concat stock.old.nodes)
        (take (length result.replies.items) commands.items) }
    ensures all { IfNone result.refused (length result.replies.items ≡ length commands.items) }

    // Contents.
    ensures next { stock.new.next ≡ stock.old.next + length result.events.items }
    ensures contents { concat stock.new.nodes
        ≡ fold (logged_map_after (slice_cmp nat_cmp)) (concat stock.old.nodes)
        (take (length result.replies.items) commands.items) }

    // Failure.
    ensures fewer { OnSome result.refused
        (length result.replies.items < length commands.items) }
    ensures refused { IfSome result.refused (λ cause. cause ≢ Memory → cause ≡ Numbers) }

    // Nodes.
    ensures replay { replay (by_key (slice_cmp nat_cmp)) stock.old.nodes result.events.items
        ≡ Some stock.new.nodes }
{
    run_logged(alloc, stock, commands)
}

/// Executes commands on a map by `String`, and stops at the first that fails.
///
/// The map is as the commands with a reply left it, and the events are numbered without a gap.
/// Replaying them on the nodes before the run gives copies of those after it: the same texts and
/// counts at the same places.
pub fn run_counts(
    alloc: Global,
    counts: &mut Counts,
    commands: Vec<LoggedMapCommand<String, u64>>,
) -> LogRun<Counts>
    // Result.
    ensures all { IfNone result.refused (length result.replies.items ≡ length commands.items) }
    ensures replies { result.replies.items ≡ scan (logged_map_after string_cmp)
        (logged_map_reply string_cmp) (concat counts.old.nodes)
        (take (length result.replies.items) commands.items) }
    ensures numbered { IsNumberedFrom counts.old.next result.events.items }
    ensures at_most_three_events { length result.events.items ≤ 3 * length result.replies.items }

    // Contents.
    ensures contents { concat counts.new.nodes
        ≡ fold (logged_map_after string_cmp) (concat counts.old.nodes)
        (take (length result.replies.items) commands.items) }
    ensures next { counts.new.next ≡ counts.old.next + length result.events.items }

    // Failure.
    ensures fewer { OnSome result.refused
        (length result.replies.items < length commands.items) }
    ensures refused { IfSome result.refused (λ cause. cause ≢ Memory → cause ≡ Numbers) }

    // Nodes.
    ensures copies { LeadsToCopies (by_key string_cmp)
        (λ p q. (string_bytes q.key ≡ string_bytes p.key) × (q.value ≡ p.value)) counts.old.nodes
        result.events.items counts.new.nodes }
{
    clones::texts();
    run_logged(alloc, counts, commands)
}
