//! The standard library's traits of a set: `derive`, `collect` and `extend`.

use indexset_set::BTreeSet;
use std::alloc::{AllocError, Global};
use std::fmt::Debug;
use std::test::Fail;
use test_script::misled::Misled;
use test_script::sized::set_of;

/// Scores of a game.
#[derive(Clone, Debug, PartialEq, Eq, Hash, Drop)]
struct Board {
    scores: BTreeSet<u64>,
}

// Returns whether the debug text is this one.
fn has_text<T: Debug>(alloc: Global, value: &T, expected: &str) -> bool {
    matches!(format!(in alloc; "{value:?}"), Ok(text) if text.as_str() == expected)
}

// Returns whether a clone is equal.
fn has_equal_clone(board: &Board) -> bool {
    matches!(board.clone(), Ok(copy) if copy == *board)
}

#[test]
fn a_struct_with_a_set_derives(rt: HostRuntime) -> Result<(), Fail> {
    let scores = BTreeSet::from(rt.alloc(), vec![in rt.alloc(); 3, 1, 2]?)?;
    let board = Board { scores };
    let is_shown = has_text(rt.alloc(), &board, "Board { scores: {1, 2, 3} }");
    assert!(rt; is_shown && has_equal_clone(&board));
    Ok(())
}

// Returns whether an iterator that is cloned after its first element shows the rest.
fn shows_the_rest(alloc: Global, set: &BTreeSet<u64>) -> bool {
    let mut walk = set.iter();
    walk.next();
    matches!(walk.clone(), Ok(copy) if has_text(alloc, &copy, "[1, 2]"))
}

// Returns whether the iterators over 0 to 2 and 1 to 3, each after its first element, show the
// others.
fn shows_what_remains(alloc: Global, left: &BTreeSet<u64>, right: &BTreeSet<u64>) -> bool {
    let (mut either, mut both) = (left.union(right), left.intersection(right));
    let (mut left_alone, mut alone) = (left.difference(right), left.symmetric_difference(right));
    let shows_whole = has_text(alloc, &left_alone, "[0]") && has_text(alloc, &alone, "[0, 3]");
    let firsts = (either.next(), both.next(), left_alone.next(), alone.next());
    let shows_rest = has_text(alloc, &either, "[1, 2, 3]") && has_text(alloc, &both, "[2]");
    let shows_others = has_text(alloc, &left_alone, "[]") && has_text(alloc, &alone, "[3]");
    let takes = firsts == (Some(&0), Some(&1), Some(&0), Some(&0));
    let stays = either.eq([1, 2, 3].iter()) && both.eq([2].iter()) && alone.eq([3].iter());
    shows_whole && shows_rest && shows_others && takes && stays
}

// Returns whether iterators over two sets show the remaining elements, and an iterator by value how
// many remain.
fn shows_another(alloc: Global, left: &BTreeSet<u64>) -> bool {
    let right: Result<BTreeSet<u64>, AllocError> = (1..4u64).collect(alloc);
    let Ok(right) = right else {
        return false;
    };
    let is_shown = shows_what_remains(alloc, left, &right);
    is_shown && has_text(alloc, &right.into_iter(), "IntoIter { left: 3, .. }")
}

#[test]
fn walks_have_texts(rt: HostRuntime) -> Result<(), Fail> {
    let left: BTreeSet<u64> = (0..3u64).collect(rt.alloc())?;
    assert!(rt; shows_the_rest(rt.alloc(), &left) && shows_another(rt.alloc(), &left));
    Ok(())
}

// Returns whether the set has these elements.
fn has_elements(set: &BTreeSet<u64>, elements: &[u64]) -> bool {
    set.iter().eq(elements)
}

// Returns whether a set is made of three elements, with a size hint of at least `claim`.
fn makes(alloc: Global, claim: usize) -> bool {
    let made = BTreeSet::from_iter(alloc, Misled { first: 3, claim });
    matches!(made, Ok(set) if has_elements(&set, &[1, 2, 3]))
}

// Returns whether they are collected.
fn collects(alloc: Global, claim: usize) -> bool {
    let collected: Result<BTreeSet<u64>, AllocError> = Misled { first: 3, claim }.collect(alloc);
    matches!(collected, Ok(set) if has_elements(&set, &[1, 2, 3]))
}

// Returns whether they extend a set of 5.
fn extends(alloc: Global, claim: usize) -> bool {
    let Ok(mut set) = set_of(alloc, 2, &[5u64]) else {
        return false;
    };
    let is_extended = set.extend(Misled { first: 3, claim }).is_ok();
    is_extended && has_elements(&set, &[1, 2, 3, 5])
}

#[test]
fn lengths_that_are_told_wrong(rt: HostRuntime) {
    for claim in [0, 1, 1_000_000] {
        let is_made = makes(rt.alloc(), claim) && collects(rt.alloc(), claim);
        assert!(rt; is_made && extends(rt.alloc(), claim));
    }
}
