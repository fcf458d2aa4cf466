//! A leaderboard: scores and their ranks.
ghost use Rattle.std.specs.Prelude.{◌≡◌, ◌+◌, ◌++◌, ◌-◌, ◌<◌, ◌≤◌, true, [], length};
ghost use Rattle.std.specs.Prelude.{slice_get, IfErr, IfOk, OnOk, OnErr, IfSome};
ghost use Rattle.std.specs.List.{All};
ghost use Rattle.std.specs.Option.{option_copied};
ghost use Rattle.std.specs.Ordering.{nat_cmp};
ghost use Rattle.indexset.specs.Words.{above, items, keep, rank};

use indexset::BTreeSet;
use indexset::base::refusal::Refusal;

/// Inserts a score, and returns whether it is on the board, which is always `true`.
pub fn enter(board: &mut BTreeSet<u64>, score: u64) -> Result<bool, Refusal>
    ensures contains { IfOk result (λ on_board. on_board ≡ true) }
    ensures contents { OnOk result (items board.new ≡ keep nat_cmp (items board.old) score) }
    ensures unchanged { OnErr result (board.new ≡ board.old) }
    ensures memory { IfErr result (λ refusal. refusal ≡ Refusal.Memory) }
{
    board.insert(score)?;
    Ok(board.contains(&score))
}

/// Returns the greatest score.
pub fn best(board: &BTreeSet<u64>) -> Option<u64>
    ensures last { result ≡ slice_get (items board.now) (length (items board.now) - 1) }
    ensures greatest { IfSome result (λ best. above nat_cmp (items board.now) best ≡ []) }
{
    board.last().copied()
}

/// Returns how many scores are at least this one.
pub fn scores_from(board: &BTreeSet<u64>, score: u64) -> usize
    ensures { result + rank nat_cmp (items board.now) score ≡ length (items board.now) }
{
    board.len() - board.rank(&score)
}

/// Removes the scores that are at least this one, and returns them.
pub fn take_from(board: &mut BTreeSet<u64>, score: u64) -> Result<BTreeSet<u64>, Refusal>
    // Result.
    ensures taken { IfOk result (λ taken. All (λ x. score ≤ x) (items taken)) }

    // Contents.
    ensures left { OnOk result (All (λ x. x < score) (items board.new)) }
    ensures all { IfOk result (λ taken. items board.old ≡ items board.new ++ items taken) }

    // Failure.
    ensures unchanged { OnErr result (board.new ≡ board.old) }

    // Memory.
    ensures memory { IfErr result (λ refusal. refusal ≡ Refusal.Memory) }
{
    board.split_off(&score)
}
