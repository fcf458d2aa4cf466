//! Counts the words of its input, which white space separates. Prints each word with its count, in
//! the order of the words, and then the three most frequent words, equally frequent ones in order.
#![tactic(auto)]

ghost use Rattle.std.specs.Prelude.{◌≡◌, ◌+◌, ◌-◌, ◌^◌, min, unwrap_or, OnOk};
ghost use Rattle.std.specs.Cmp.Lexicographic.{slice_cmp};
ghost use Rattle.std.specs.Ordering.{nat_cmp};
ghost use Rattle.indexset.specs.Words.{put_value, value_of};

use anyhow::Result;
use indexset::base::Text;
use indexset::{BTreeMap, BTreeSet};
use std::cmp::Reverse;

/// The count of each word.
type Counts = BTreeMap<Text, u64>;

/// The words, most frequent first.
type Frequent = BTreeSet<(Reverse<u64>, Text)>;

fn main(rt: HostRuntime) -> Result<()> {
    let mut counts = BTreeMap::new(rt.alloc())?;
    let mut frequent = BTreeSet::new(rt.alloc())?;
    read(&rt, &mut counts)?;
    show(&rt, &counts, &mut frequent)
}

fn read(rt: &HostRuntime, counts: &mut Counts) -> Result<()> {
    for line in rt.lines(rt.alloc()) {
        for word in line?.as_str().split_whitespace() {
            count(rt, counts, word)?;
        }
    }
    Ok(())
}

/// Increments the count of a word, up to `u64::MAX`. Only a new word allocates.
fn count(rt: &HostRuntime, counts: &mut Counts, word: &str) -> Result<()>
    ensures { OnOk result (counts.new.pairs
        ≡ put_value (slice_cmp nat_cmp) counts.old.pairs word.now
        (min (unwrap_or (value_of (slice_cmp nat_cmp) counts.old.pairs word.now) 0 + 1)
        (2 ^ 64 - 1))) }
{
    if let Some(times) = counts.get_mut(word) {
        *times = times.saturating_add(1);
        return Ok(());
    }
    counts.insert(Text::copied(rt.alloc(), word)?, 1)?;
    Ok(())
}

fn show(rt: &HostRuntime, counts: &Counts, frequent: &mut Frequent) -> Result<()> {
    for (word, times) in counts.iter() {
        println!(rt; "{word} {times}")?;
        frequent.insert((Reverse(*times), word.clone()?))?;
    }
    println!(rt; "most frequent:")?;
    for (Reverse(times), word) in frequent.range_idx(..3) {
        println!(rt; "{word} {times}")?;
    }
    Ok(())
}
