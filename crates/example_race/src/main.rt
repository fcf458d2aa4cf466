//! A race, entered in one place and read in another. `NAME SECONDS` enters a result, `get NUMBER`
//! sends the replica an event, in any order, twice or never, `? SECONDS` asks how many were faster.
#![tactic(auto)]

ghost use Rattle.std.specs.Prelude.{◌≡◌, ◌==◌, ◌+◌, [], if◌then◌else◌, OnOk, Some, length, min};
ghost use Rattle.std.specs.Ordering.{nat_cmp};
ghost use Rattle.indexset.specs.Words.{by_number, replay, IsAdded, IsPrefix, IsNumberedFrom};

use anyhow::Result;
use indexset::base::Text;
use indexset::base::multipair::MultiPair;
use indexset::cdc::change::ChangeEvent;
use indexset::cdc::laws;
use indexset::concurrent::multimap::BTreeMultiMap;
use indexset::replica::Replica;

/// A time and a name.
type Entry = MultiPair<u64, Text>;

/// The results, all their events, and a replica that has applied a prefix of the events.
#[derive(Drop)]
struct Race {
    results: BTreeMultiMap<u64, Text>,
    events: Vec<ChangeEvent<Entry>>,
    copy: Replica<Entry>,
    ghost numbered: { IsNumberedFrom 0 events.items × (results.next ≡ length events.items) },
    ghost replayed: { replay (by_number nat_cmp) [] events.items ≡ Some results.nodes },
    ghost copied: { IsPrefix (by_number nat_cmp) 0 [] events.items copy },
}

fn main(rt: HostRuntime) -> Result<()> {
    Race {
        results: BTreeMultiMap::with_maximum_node_size(rt.alloc(), 4),
        events: Vec::new(rt.alloc()),
        copy: Replica::new(rt.alloc(), 0),
    }
    .run(&rt)
}

impl Race {
    fn run(&mut self, rt: &HostRuntime) -> Result<()> {
        for line in rt.lines(rt.alloc()) {
            let line = line?;
            match line.as_str().split_once(' ') {
                Some(("?", time)) => println!(rt; "{}", self.copy.rank(&time.parse::<u64>()?))?,
                Some(("get", number)) => self.send(number.parse()?)?,
                Some((name, time)) => self.enter(rt, name, time.parse()?)?,
                None => println!(rt; "not understood: {line}")?,
            }
        }
        for MultiPair { key, value, .. } in self.copy.iter() {
            println!(rt; "{key} {value}")?;
        }
        Ok(())
    }

    fn enter(&mut self, rt: &HostRuntime, name: &str, time: u64) -> Result<()>
        ensures { OnOk result (IsAdded nat_cmp self.old.results self.new.results time name.now) }
    {
        self.events.reserve(3)?; // With space for its events, none is lost.
        let name = Text::copied(rt.alloc(), name)?;
        let mut told = self.results.push_cdc(time, name)?;
        laws::replay_in_parts::<Entry>();
        laws::numbered_by_place::<Entry>();
        laws::numbered_in_parts::<Entry>();
        let _appended = self.events.append(&mut told);
        Ok(())
    }

    /// Applies an event to the replica if it is the next one.
    fn send(&mut self, number: usize) -> Result<()>
        ensures { OnOk result (self.new.copy.next ≡ (if number == self.old.copy.next
            then min (number + 1) (length self.old.events.items) else self.old.copy.next)) }
    {
        if number < self.events.len() {
            self.copy.follow(self.events.as_slice(), &[number])?;
        }
        Ok(())
    }
}
