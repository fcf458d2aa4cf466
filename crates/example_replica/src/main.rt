//! A map and a replica that follows it. A line `NAME VALUE` sets the value of a name, and a line
//! `NAME` removes the name. The events of the map are printed, and applied to the replica, as
//! another process that reads them would do. At the end the replica is printed.
#![tactic(auto)]

ghost use Rattle.std.specs.Prelude.{◌≡◌, Some, IfOk, OnOk};
ghost use Rattle.std.specs.Cmp.Lexicographic.{slice_cmp};
ghost use Rattle.std.specs.Ordering.{nat_cmp};
ghost use Rattle.indexset.specs.Words.{by_key, replay};

use anyhow::{Result, bail};
use indexset::base::Text;
use indexset::base::pair::Pair;
use indexset::cdc::change::ChangeEvent;
use indexset::cdc::laws::replay_in_parts;
use indexset::concurrent::map::BTreeMap;
use indexset::replica::Replica;

/// A name and its value.
type Named = Pair<Text, u64>;

/// The value of each name, in nodes of at most four names.
type UniqueKey = BTreeMap<Text, u64>;

fn main(rt: HostRuntime) -> Result<()> {
    let mut names = UniqueKey::with_maximum_node_size(rt.alloc(), 4);
    let mut copy = Replica::new(rt.alloc(), 0);
    keep(&rt, &mut names, &mut copy)
}

fn keep(rt: &HostRuntime, names: &mut UniqueKey, copy: &mut Replica<Named>) -> Result<()>
    requires { copy.old.nodes ≡ names.old.nodes }
{
    for line in rt.lines(rt.alloc()) {
        obey(rt, names, copy, line?.as_str())?;
    }
    for Pair { key, value } in copy.iter() {
        println!(rt; "{key} {value}")?;
    }
    Ok(())
}

/// Executes a line. The replica then has the nodes of the map.
fn obey(
    rt: &HostRuntime,
    names: &mut UniqueKey,
    copy: &mut Replica<Named>,
    line: &str,
) -> Result<()>
    requires { copy.old.nodes ≡ names.old.nodes }
    ensures { OnOk result (copy.new.nodes ≡ names.new.nodes) }
{
    let events = change(rt, names, line)?;
    follow(rt, copy, events.as_slice())
}

// Changes the map, and returns the events of the change.
fn change(rt: &HostRuntime, names: &mut UniqueKey, line: &str) -> Result<Vec<ChangeEvent<Named>>>
    ensures { IfOk result
        (λ events. replay (by_key (slice_cmp nat_cmp)) names.old.nodes events.items
        ≡ Some names.new.nodes) }
{
    let mut words = line.split_whitespace();
    match (words.next(), words.next()) {
        (Some(name), None) => Ok(names.remove_cdc(name)?.1),
        (Some(name), Some(value)) => {
            let name = Text::copied(rt.alloc(), name)?;
            Ok(names.insert_cdc(name, value.parse()?)?.1)
        }
        _ => bail!("an empty line"),
    }
}

// Prints events, and applies them in order.
fn follow(rt: &HostRuntime, copy: &mut Replica<Named>, events: &[ChangeEvent<Named>]) -> Result<()>
    ensures { OnOk result (replay (by_key (slice_cmp nat_cmp)) copy.old.nodes events.now
        ≡ Some copy.new.nodes) }
{
    replay_in_parts::<Named>();
    for event in events {
        println!(rt; "{event}")?;
        copy.apply(event)?;
    }
    Ok(())
}
