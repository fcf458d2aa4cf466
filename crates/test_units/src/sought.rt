//! Arguments of a look-up instead of an item or a key, for each kind of item.

use indexset_core::lookup_key::LookupKey;
use indexset_core::multipair::MultiPair;
use indexset_core::pair::Pair;
use indexset_core::text::Text;
use indexset_log::{map, set};
use indexset_map::BTreeMap;
use indexset_multi::multimap::BTreeMultiMap;
use indexset_replica::Replica;
use indexset_set::BTreeSet;
use std::alloc::Global;
use std::cmp::Reverse;
use std::ops::Bound;
use std::test::Fail;

fn names(alloc: Global) -> Result<BTreeSet<String>, Fail> {
    let mut names = BTreeSet::new(alloc)?;
    for name in ["fig", "elder", "pear"] {
        names.insert(String::from_str(alloc, name)?)?;
    }
    Ok(names)
}

#[test]
fn a_set_of_texts_takes_a_borrowed_one(rt: HostRuntime) -> Result<(), Fail> {
    let mut names = names(rt.alloc())?;
    assert!(rt; names.contains("fig") && !names.contains("plum"));
    assert!(rt; names.rank("fig") == 1 && names.index_of("pear") == Some(2));
    assert!(rt; names.range("e".."g").len() == 2);
    assert!(rt;
        names
            .range((Bound::Excluded("elder"), Bound::Unbounded))
            .len()
            == 2
    );
    assert!(rt; names.remove("fig") && names.take("fig").is_none() && names.len() == 2);
    let late = names.split_off("f")?;
    assert!(rt; late.contains("pear") && late.len() == 1);
    Ok(())
}

#[test]
fn a_map_of_texts_takes_a_borrowed_one(rt: HostRuntime) -> Result<(), Fail> {
    let mut counts: BTreeMap<String, u64> = BTreeMap::new(rt.alloc())?;
    for word in ["fig", "elder", "pear"] {
        counts.insert(String::from_str(rt.alloc(), word)?, 1)?;
    }
    if let Some(count) = counts.get_mut("fig") {
        *count = count.wrapping_add(1);
    }
    assert!(rt; counts.get("fig") == Some(&2) && counts.contains_key("pear"));
    assert!(rt; counts.rank("fig") == 1 && counts.range("e".."g").len() == 2);
    assert!(rt; counts.remove("fig") == Some(2) && counts.get("fig").is_none());
    Ok(())
}

#[test]
fn a_text_is_found_by_a_borrowed_one(rt: HostRuntime) -> Result<(), Fail> {
    let fig = Text::copied(rt.alloc(), "fig")?;
    let mut prices = BTreeMap::new(rt.alloc())?;
    prices.insert(fig.clone()?, 45)?;
    assert!(rt; prices.get("fig") == Some(&45) && prices.get(&fig) == Some(&45));
    assert!(rt; prices.get(b"fig".as_slice()) == Some(&45) && prices.get("fi").is_none());
    Ok(())
}

#[test]
fn a_vec_is_found_by_a_slice(rt: HostRuntime) -> Result<(), Fail> {
    let mut paths = BTreeSet::new(rt.alloc())?;
    paths.insert([1, 2].to_vec(rt.alloc())?)?;
    assert!(rt; paths.contains([1, 2].as_slice()) && !paths.contains([1].as_slice()));
    Ok(())
}

#[test]
fn a_pair_of_texts_is_found_by_two_borrowed_ones(rt: HostRuntime) -> Result<(), Fail> {
    let mut towns = BTreeSet::new(rt.alloc())?;
    for (land, town) in [("fr", "lyon"), ("de", "ulm"), ("fr", "nice")] {
        let land = String::from_str(rt.alloc(), land)?;
        towns.insert((land, Text::copied(rt.alloc(), town)?))?;
    }
    assert!(rt; towns.contains(("fr", "nice")) && !towns.contains(("de", "nice")));
    assert!(rt; towns.rank(("fr", "lyon")) == 1 && towns.index_of(("fr", "nice")) == Some(2));
    assert!(rt; towns.range(("e", "")..).len() == 2 && towns.remove(("de", "ulm")));
    assert!(rt; towns.len() == 2);
    Ok(())
}

#[test]
fn a_pair_is_found_by_its_key(rt: HostRuntime) -> Result<(), Fail> {
    let pairs = BTreeSet::from_iter(rt.alloc(), [Pair { key: 5, value: 50 }])?;
    assert!(rt; pairs.contains(&5) && !pairs.contains(6));
    let node = vec![in rt.alloc(); MultiPair::new(1, 'a', 0), MultiPair::new(1, 'b', 1)]?;
    let copy = Replica::from_nodes(vec![in rt.alloc(); node]?, 2)?;
    assert!(rt; copy.count(&1) == 2 && copy.rank(2) == 2 && copy.range(..=1).count() == 2);
    Ok(())
}

#[test]
fn a_pair_is_found_by_borrowed_parts(rt: HostRuntime) -> Result<(), Fail> {
    let alloc = rt.alloc();
    let mut board = BTreeSet::new(alloc)?;
    board.insert((Reverse(250), String::from_str(alloc, "ben")?))?;
    board.insert((Reverse(470), String::from_str(alloc, "zoe")?))?;
    assert!(rt; board.rank((&Reverse(250), "ben")) == 1 && !board.contains((&Reverse(250), "al")));
    assert!(rt; board.remove((&Reverse(470), "zoe")) && board.len() == 1);
    let ben = Text::copied(alloc, "ben")?;
    let mut scores = BTreeSet::new(alloc)?;
    scores.insert((ben.clone()?, 250_u64))?;
    assert!(rt; scores.contains(("ben", &250)) && scores.contains((&ben, &250)));
    Ok(())
}

#[test]
fn a_position_comes_with_what_is_there(rt: HostRuntime) -> Result<(), Fail> {
    let names = names(rt.alloc())?;
    assert!(rt;
        names
            .get_full("pear")
            .is_some_and(|(i, name)| i == 2 && name.as_str() == "pear")
    );
    assert!(rt; names.get_full("plum").is_none());
    let prices = BTreeMap::from_iter(rt.alloc(), [(7, 120), (3, 80)])?;
    assert!(rt; prices.get_full(&7) == Some((1, &7, &120)) && prices.get_full(5).is_none());
    Ok(())
}

#[test]
fn logged_trees_lose_what_is_sought(rt: HostRuntime) -> Result<(), Fail> {
    let alloc = rt.alloc();
    let mut names: set::BTreeSet<String, Vec<String>> = set::BTreeSet::new(alloc);
    names.insert(String::from_str(alloc, "fig")?)?;
    assert!(rt; names.contains("fig") && names.remove("plum")?.is_none());
    assert!(rt; names.remove_cdc("fig")?.1.len() == 1 && names.is_empty());
    let mut prices: map::BTreeMap<String, u64, Vec<Pair<String, u64>>> = map::BTreeMap::new(alloc);
    prices.insert(String::from_str(alloc, "fig")?, 45)?;
    prices.insert(String::from_str(alloc, "pear")?, 120)?;
    assert!(rt; prices.rank("pear") == 1 && prices.remove("plum")?.is_none());
    assert!(rt; prices.remove("fig")?.is_some_and(|(_, price)| price == 45));
    assert!(rt; prices.remove_cdc("pear")?.1.len() == 1 && prices.is_empty());
    Ok(())
}

#[test]
fn a_multimap_loses_what_is_sought(rt: HostRuntime) -> Result<(), Fail> {
    let alloc = rt.alloc();
    let mut tags: BTreeMultiMap<String, u64, Vec<MultiPair<String, u64>>> = BTreeMultiMap::new(
        alloc,
    );
    for document in [1, 2, 3, 4] {
        tags.insert(String::from_str(alloc, "fig")?, document)?;
    }
    assert!(rt;
        tags.remove_some("fig")?
            .is_some_and(|(_, document)| document == 1)
    );
    assert!(rt; tags.remove("fig", &3)?.is_some() && tags.remove("pear", &3)?.is_none());
    assert!(rt; tags.remove_all("fig")? == 2 && !tags.contains_key("fig"));
    Ok(())
}

#[test]
fn a_value_is_placed_beside_items(rt: HostRuntime) {
    assert!(rt; 5_u64.cmp_item(&3_u64).is_lt() && (&5_u64).cmp_item(&7_u64).is_gt());
}
