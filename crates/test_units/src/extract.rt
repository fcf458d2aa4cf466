//! The items that `extract_if` yields and retains, and the elements that it calls the closure with.

use indexset_map::BTreeMap;
use indexset_set::BTreeSet;
use std::alloc::Global;
use std::test::Fail;

// Returns the numbers from 1 to 7, in nodes of 2.
fn numbers(alloc: Global) -> Result<BTreeSet<u64>, Fail> {
    let mut set = BTreeSet::with_maximum_node_size(alloc, 2)?;
    for number in 1..=7 {
        set.insert(number)?;
    }
    Ok(set)
}

// Returns the numbers from 1 to 4, each with its tenfold as value, in nodes of 2.
fn tens(alloc: Global) -> Result<BTreeMap<u64, u64>, Fail> {
    let mut map = BTreeMap::with_maximum_node_size(alloc, 2)?;
    for (key, value) in [(1, 10), (2, 20), (3, 30), (4, 40)] {
        map.insert(key, value)?;
    }
    Ok(map)
}

#[test]
fn the_elements_of_a_range_leave(rt: HostRuntime) -> Result<(), Fail> {
    let mut set = numbers(rt.alloc())?;
    assert!(rt; set.extract_if(2..6, |number| number % 2 == 0).eq([2, 4]));
    assert!(rt; set.iter().copied().eq([1, 3, 5, 6, 7]));
    Ok(())
}

#[test]
fn each_element_of_the_range_is_asked_about_once_and_in_order(rt: HostRuntime) -> Result<(), Fail> {
    let mut set = numbers(rt.alloc())?;
    let mut asked = 0u64;
    let gone = set
        .extract_if(2..6, |number| {
            asked = asked.wrapping_mul(10).wrapping_add(*number);
            number % 2 == 0
        })
        .count();
    assert!(rt; gone == 2 && asked == 2345);
    Ok(())
}

#[test]
fn what_was_not_returned_stays(rt: HostRuntime) -> Result<(), Fail> {
    let mut set = numbers(rt.alloc())?;
    assert!(rt; set.extract_if(3.., |_| true).next() == Some(3));
    assert!(rt; set.iter().copied().eq([1, 2, 4, 5, 6, 7]));
    assert!(rt; set.extract_if(.., |number| *number > 7).next().is_none());
    assert!(rt; set.len() == 6 && set.rank(&7) == 5 && set.get_index(2) == Some(&4));
    Ok(())
}

#[test]
fn a_set_that_all_left_is_empty(rt: HostRuntime) -> Result<(), Fail> {
    let mut set = numbers(rt.alloc())?;
    assert!(rt; set.extract_if(.., |_| true).count() == 7);
    assert!(rt; set.is_empty() && set.node_count() == 1);
    set.insert(9)?;
    assert!(rt; set.first() == Some(&9) && set.len() == 1);
    Ok(())
}

#[test]
fn an_iterator_that_ended_stays_at_the_end(rt: HostRuntime) -> Result<(), Fail> {
    let mut set = numbers(rt.alloc())?;
    let mut sixes = set.extract_if(.., |number| *number == 6);
    assert!(rt; sixes.size_hint() == (0, Some(7)));
    assert!(rt; sixes.next() == Some(6) && sixes.size_hint() == (0, Some(1)));
    assert!(rt; sixes.next().is_none() && sixes.next().is_none());
    Ok(())
}

// Returns whether `extract_if` retains what `retain` does. The bits of the mask are the removed
// elements.
fn leaves_what_retain_leaves(alloc: Global, mask: u64) -> Result<bool, Fail> {
    let mut set = numbers(alloc)?;
    let mut other = numbers(alloc)?;
    let gone = set
        .extract_if(.., |number| mask & (1 << (number % 8)) != 0)
        .count();
    other.retain(|number| mask & (1 << (number % 8)) == 0);
    Ok(set == other && gone.wrapping_add(set.len()) == 7 && set.node_count() == other.node_count())
}

#[test]
fn each_choice_leaves_what_retain_leaves(rt: HostRuntime) -> Result<(), Fail> {
    for mask in 0..256 {
        assert!(rt; leaves_what_retain_leaves(rt.alloc(), mask)?);
    }
    Ok(())
}

#[test]
fn the_pairs_of_a_range_leave_with_what_the_closure_wrote(rt: HostRuntime) -> Result<(), Fail> {
    let mut map = tens(rt.alloc())?;
    let even = map.extract_if(2.., |key, value| {
        *value = value.wrapping_add(1);
        key % 2 == 0
    });
    assert!(rt; even.eq([(2, 21), (4, 41)]));
    assert!(rt; map.len() == 2 && map.get(&1) == Some(&10) && map.get(&3) == Some(&31));
    Ok(())
}

#[test]
fn a_range_of_texts(rt: HostRuntime) -> Result<(), Fail> {
    let mut counts = BTreeMap::new(rt.alloc())?;
    for word in ["fig", "elder", "pear", "date"] {
        counts.insert(String::from_str(rt.alloc(), word)?, 1)?;
    }
    assert!(rt; counts.extract_if("e".."g", |_, _| true).count() == 2);
    assert!(rt; counts.len() == 2 && counts.contains_key("date") && counts.contains_key("pear"));
    Ok(())
}
