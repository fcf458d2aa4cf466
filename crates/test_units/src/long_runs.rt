//! Lists of a thousand commands.

use indexset_bench::logged::set::LoggedSetCommand;
use indexset_bench::logged_run::run_logged;
use indexset_bench::map_run::{MapCommand, run_map};
use indexset_bench::set_run::{SetCommand, run_set};
use indexset_log::set;
use indexset_map::BTreeMap;
use indexset_set::BTreeSet;
use std::test::Fail;

#[test]
fn a_thousand_commands_to_a_set(rt: HostRuntime) -> Result<(), Fail> {
    let mut set = BTreeSet::with_maximum_node_size(rt.alloc(), 2)?;
    let mut commands = Vec::new(rt.alloc());
    for key in 0..1000u64 {
        commands.push(SetCommand::Insert(key))?;
    }
    let run = run_set(rt.alloc(), &mut set, commands);
    assert!(rt; run.refused.is_none() && run.replies.len() == 1000 && set.len() == 1000);
    Ok(())
}

#[test]
fn a_thousand_commands_to_a_map(rt: HostRuntime) -> Result<(), Fail> {
    let mut map = BTreeMap::with_maximum_node_size(rt.alloc(), 2)?;
    let mut commands = Vec::new(rt.alloc());
    for key in 0..1000u64 {
        commands.push(MapCommand::Insert(key, 'a'))?;
    }
    let run = run_map(rt.alloc(), &mut map, commands);
    assert!(rt; run.refused.is_none() && run.replies.len() == 1000 && map.len() == 1000);
    Ok(())
}

#[test]
fn a_thousand_commands_to_a_logged_set(rt: HostRuntime) -> Result<(), Fail> {
    let mut set: set::BTreeSet<u64, Vec<u64>> = set::BTreeSet::with_maximum_node_size(
        rt.alloc(),
        2,
    );
    let mut commands = Vec::new(rt.alloc());
    for key in 0..1000u64 {
        commands.push(LoggedSetCommand::Put(key))?;
    }
    let run = run_logged(rt.alloc(), &mut set, commands);
    assert!(rt; run.refused.is_none() && run.replies.len() == 1000 && set.len() == 1000);
    Ok(())
}
