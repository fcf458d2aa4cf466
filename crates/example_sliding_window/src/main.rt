//! A sliding window of a minute. A line `SECOND NAME` records that a name was seen, and prints how
//! many were seen in the last minute. At the end those in the window are printed. A line that is
//! refused is printed with the reason.
#![tactic(auto)]

ghost use Rattle.std.specs.Prelude.{◌≡◌, nat_lt, filter, not, OnOk};
ghost use Rattle.indexset.specs.Words.{items};

use anyhow::{Context, Result, ensure};
use indexset::BTreeSet;
use indexset::base::Text;

/// When each name was seen, oldest first.
type Window = BTreeSet<(u64, Text)>;

fn main(rt: HostRuntime) -> Result<()> {
    let mut window = BTreeSet::new(rt.alloc())?;
    watch(&rt, &mut window)
}

fn watch(rt: &HostRuntime, window: &mut Window) -> Result<()> {
    for line in rt.lines(rt.alloc()) {
        let line = line?;
        if let Err(why) = obey(rt, window, line.as_str()) {
            println!(rt; "{line}: {why}")?;
        }
    }
    for (second, name) in window.iter() {
        println!(rt; "{name} at {second}")?;
    }
    Ok(())
}

fn obey(rt: &HostRuntime, window: &mut Window, line: &str) -> Result<()> {
    let (second, name) = line.split_once(' ').context("no name")?;
    let second = second.parse()?;
    if let Some((newest, _)) = window.last() {
        ensure!(*newest <= second, "too late");
    }
    see(rt, window, second, name)
}

fn see(rt: &HostRuntime, window: &mut Window, second: u64, name: &str) -> Result<()> {
    window.insert((second, Text::copied(rt.alloc(), name)?))?;
    expire(window, second.saturating_sub(59))?;
    println!(rt; "{name} at {second}: {} in a minute", window.len())?;
    Ok(())
}

/// Removes the names that were seen before a second, and no others.
fn expire(window: &mut Window, start: u64) -> Result<()>
    ensures { OnOk result (items window.new
        ≡ filter (λ seen. not (nat_lt seen.0 start)) (items window.old)) }
{
    let kept = window.split_off((&start, ""))?;
    *window = kept;
    Ok(())
}
