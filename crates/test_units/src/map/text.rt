//! Look-ups by borrowed text.
use super::put;
use indexset_core::probe::{ByKey, Counting};
use indexset_core::text::Text;
use indexset_map::BTreeMap;
use std::test::Fail;

// Returns the value of a name, and the number of comparisons of the look-up.
fn value_of(map: &BTreeMap<Text, u64>, name: &str) -> (Option<u64>, u64) {
    // For the proof: the names ascend.
    let _len = map.len();
    let mut probe = Counting::new(ByKey::new(&name));
    let value = map.get_by(&mut probe).copied();
    (value, probe.asked())
}

// Returns whether the stored name and the value of a name are these.
fn has_pair(map: &BTreeMap<Text, u64>, name: &str, value: Option<u64>) -> bool {
    // For the proof: the names ascend.
    let _len = map.len();
    match map.get_key_value_by(&mut ByKey::new(&name)) {
        Some((key, held)) => key.as_bytes() == name.as_bytes() && Some(*held) == value,
        None => value.is_none(),
    }
}

#[test]
fn by_borrowed_text(rt: HostRuntime) -> Result<(), Fail> {
    let mut map = BTreeMap::with_maximum_node_size(rt.alloc(), 4)?;
    for (name, value) in [("plums", 7), ("apples", 5), ("pears", 3)] {
        put(&mut map, Text::copied(rt.alloc(), name)?, value)?;
    }
    for (name, value) in [
        ("", None),
        ("apples", Some(5)),
        ("pear", None),
        ("pears", Some(3)),
        ("pearse", None),
        ("plums", Some(7)),
        ("quinces", None),
    ] {
        let (found, asked) = value_of(&map, name);
        // One node, four names in it, and the test for equality: 1 + 3 + 1.
        let few = asked <= 5;
        assert!(rt;
            found == value && has_pair(&map, name, value) && few,
            "of {name}: {asked}"
        );
    }
    Ok(())
}
