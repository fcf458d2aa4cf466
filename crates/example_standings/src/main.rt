//! A leaderboard of names. A line `NAME SCORE` sets the score of a name, and a line `? NAME` asks
//! for its rank. At the end all are printed, best first. Equal scores share a rank: 1, 2, 2, 4.
#![tactic(auto)]

ghost use Rattle.std.specs.Prelude.{◌≡◌, ◌+◌, nat_lt, count_by};
ghost use Rattle.indexset.specs.Words.{items};

use anyhow::Result;
use indexset::base::Text;
use indexset::{BTreeMap, BTreeSet};
use std::cmp::Reverse;

/// The score of each name.
type Scores = BTreeMap<Text, u64>;

/// The scores with their names, best first.
type Board = BTreeSet<(Reverse<u64>, Text)>;

fn main(rt: HostRuntime) -> Result<()> {
    let mut scores = BTreeMap::new(rt.alloc())?;
    let mut board = BTreeSet::new(rt.alloc())?;
    play(&rt, &mut scores, &mut board)
}

fn play(rt: &HostRuntime, scores: &mut Scores, board: &mut Board) -> Result<()> {
    for line in rt.lines(rt.alloc()) {
        answer(rt, scores, board, line?.as_str())?;
    }
    for (Reverse(score), name) in board.iter() {
        println!(rt; "{} {name} {score}", rank(board, *score))?;
    }
    Ok(())
}

fn answer(rt: &HostRuntime, scores: &mut Scores, board: &mut Board, line: &str) -> Result<()> {
    let mut words = line.split_whitespace();
    match (words.next(), words.next(), words.next()) {
        (Some("?"), Some(name), None) => match scores.get(name) {
            Some(score) => println!(rt; "{name} is number {}", rank(board, *score))?,
            None => println!(rt; "{name} has no score")?,
        },
        (Some(name), Some(score), None) => match score.parse() {
            Ok(score) => enter(rt, scores, board, name, score)?,
            Err(_) => println!(rt; "not a score: {score}")?,
        },
        _ => println!(rt; "not understood: {line}")?,
    }
    Ok(())
}

fn enter(
    rt: &HostRuntime,
    scores: &mut Scores,
    board: &mut Board,
    name: &str,
    score: u64,
) -> Result<()> {
    let key = Text::copied(rt.alloc(), name)?;
    board.insert((Reverse(score), key.clone()?))?;
    if let Some(old) = scores.insert(key, score)? {
        if old != score {
            board.remove((&Reverse(old), name));
        }
    }
    Ok(())
}

/// Returns the rank of a score: one more than the number of better scores.
fn rank(board: &Board, score: u64) -> u128
    ensures { result ≡ count_by (λ entry. nat_lt score entry.0.0) (items board.now) + 1 }
{
    board.rank((&Reverse(score), "")) as u128 + 1
}
