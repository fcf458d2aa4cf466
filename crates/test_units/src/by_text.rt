//! Worked examples of look-ups by borrowed text, in a logged map and in a replica of its pairs.
use indexset_core::pair::Pair;
use indexset_core::probe::{ByKey, Counting};
use indexset_core::text::Text;
use indexset_log::map::BTreeMap;
use indexset_replica::Replica;
use std::alloc::{AllocError, Global};
use std::test::Fail;

type Named = Pair<Text, u64>;

// Names to look up, and their values.
const ROWS: [(&str, Option<u64>); 7] = [
    ("", None),
    ("apples", Some(5)),
    ("pear", None),
    ("pears", Some(3)),
    ("pearse", None),
    ("plums", Some(7)),
    ("quinces", None),
];

fn named(alloc: Global, name: &str, value: u64) -> Result<Named, AllocError> {
    let key = Text::copied(alloc, name)?;
    Ok(Pair { key, value })
}

// Returns the value of a name in a map, and the number of comparisons of the look-up.
fn value_in(map: &BTreeMap<Text, u64>, name: &str) -> (Option<u64>, u64) {
    // For the proof: the names ascend.
    let _nodes = map.node_count();
    let mut probe = Counting::new(ByKey::new(&name));
    let value = map.get_by(&mut probe).map(|pair| pair.value);
    (value, probe.asked())
}

// Returns the same in a replica.
fn value_of(replica: &Replica<Named>, name: &str) -> (Option<u64>, u64) {
    // For the proof: the names ascend.
    let _nodes = replica.nodes();
    let mut probe = Counting::new(ByKey::new(&name));
    let value = replica.get_by(&mut probe).map(|pair| pair.value);
    (value, probe.asked())
}

#[test]
fn names_in_a_logged_map(rt: HostRuntime) -> Result<(), Fail> {
    let mut map = BTreeMap::with_maximum_node_size(rt.alloc(), 2);
    for (name, value) in [("plums", 7), ("apples", 5), ("pears", 3)] {
        map.insert(Text::copied(rt.alloc(), name)?, value)?;
    }
    assert_eq!(rt; map.node_count(), 2);
    for (name, value) in ROWS {
        let (found, asked) = value_in(&map, name);
        // Two nodes, two names in each, and the test for equality: 2 + 2 + 1.
        assert!(rt; found == value && asked <= 5, "of {name}: {asked}");
    }
    Ok(())
}

#[test]
fn names_in_a_replica(rt: HostRuntime) -> Result<(), Fail> {
    let alloc = rt.alloc();
    let mut replica = Replica::new(alloc, 0);
    replica.attach(vec![in alloc; named(alloc, "plums", 7)?]?)?;
    replica.attach(vec![in alloc; named(alloc, "apples", 5)?, named(alloc, "pears", 3)?]?)?;
    for (name, value) in ROWS {
        let (found, asked) = value_of(&replica, name);
        // Two nodes, two names in each, and the test for equality: 2 + 2 + 1.
        assert!(rt; found == value && asked <= 5, "of {name}: {asked}");
    }
    Ok(())
}
