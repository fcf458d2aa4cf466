//! A leaderboard: a player's rank, a page of it, and a replica that follows the scores.
#![tactic(auto)]

use anyhow::Result;
use indexset::BTreeSet;
use indexset::base::pair::Pair;
use indexset::concurrent::map::BTreeMap;
use indexset::replica::Replica;
use std::cmp::Reverse;

type Name = &'static str;

fn main(rt: HostRuntime) -> Result<()> {
    let mut board = BTreeSet::new(rt.alloc())?; // the best score first
    let mut scores = BTreeMap::new(rt.alloc());
    let mut replica = Replica::new(rt.alloc(), 0);
    play(rt, &mut board, &mut scores, &mut replica)
}

fn play(
    rt: HostRuntime,
    board: &mut BTreeSet<(Reverse<u64>, Name)>,
    scores: &mut BTreeMap<Name, u64, Vec<Pair<Name, u64>>>,
    replica: &mut Replica<Pair<Name, u64>>,
) -> Result<()> {
    for (name, score) in [("Mia", 310), ("Ben", 250), ("Zoe", 470), ("Mia", 420)] {
        let (old, events) = scores.insert_cdc(name, score)?;
        if let Some(old) = old {
            board.remove(&(Reverse(old), name));
        }
        board.insert((Reverse(score), name))?;
        for event in &events {
            println!(rt; "{event}")?;
            replica.apply(event)?; // here, or in another process that reads the line
        }
    }
    println!(rt; "better than Ben: {}", board.rank(&(Reverse(250), "Ben")))?;
    for (Reverse(score), name) in board.range_idx(1..3) {
        println!(rt; "{name} has {score}")?;
    }
    println!(rt; "the replica: {replica}")?;
    Ok(())
}
