//! Values without an order, and comparisons of pairs.
use indexset_core::pair::Pair;
use indexset_map::BTreeMap;
use std::cmp::Ordering;
use std::hash::{BuildHasher, BuildHasherDefault, FoldHasher};
use std::test::Fail;

#[test]
fn values_without_an_order(rt: HostRuntime) -> Result<(), Fail> {
    let one = BTreeMap::from(rt.alloc(), vec![in rt.alloc(); (1u64, f64::NAN)]?)?;
    let other = BTreeMap::from(rt.alloc(), vec![in rt.alloc(); (1u64, 1.0f64)]?)?;
    assert!(rt; one.partial_cmp(&other).is_none() && one != other);
    Ok(())
}

#[test]
fn pairs_by_key_alone(rt: HostRuntime) -> Result<(), Fail> {
    let pair = Pair {
        key: 1u64,
        value: 'a',
    };
    let same = Pair { key: 1, value: 'b' };
    let above = Pair { key: 2, value: 'a' };
    let by_key = pair == same && pair < above && pair.cmp(&same) == Ordering::Equal;
    let copy = pair.clone()?;
    let hashes = BuildHasherDefault::<FoldHasher>::new();
    let hashed = hashes.hash_one(&pair) == hashes.hash_one(&same);
    assert!(rt; by_key && copy.value == 'a' && hashed);
    Ok(())
}
