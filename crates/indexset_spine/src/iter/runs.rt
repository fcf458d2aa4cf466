//! The comparison of two iterators by runs, which are the items of one node.
ghost use Rattle.std.specs.Prelude.{◌≡◌, ◌<◌, ◌++◌, length};
ghost use Rattle.std.specs.Cmp.Lexicographic.{pointwise};

use super::Iter;

// The number of items that are compared before a difference ends the comparison.
const BLOCK: usize = 64;

/// Returns whether two iterators yield equally many items, each equal to its counterpart.
///
/// Items are compared by blocks that are in one node of each.
pub fn have_equal_items<'a, T: PartialEq>(mut left: Iter<'a, T>, mut right: Iter<'a, T>) -> bool
    ensures { result ≡ pointwise T.eq left.entry right.entry }
{
    let (mut run, mut other): (&[T], &[T]) = (&[], &[]);
    loop {
        run = or_next_run(run, &mut left);
        other = or_next_run(other, &mut right);
        let common = run.len().min(other.len()).min(BLOCK);
        if common == 0 {
            return run.len() == other.len();
        }
        let (front, rest) = run.split_at(common);
        let (other_front, other_rest) = other.split_at(common);
        if !are_equal(front, other_front) {
            return false;
        }
        run = rest;
        other = other_rest;
    }
}

// Returns the run, or the next run of the iterator if it is empty.
fn or_next_run<'a, T>(run: &'a [T], walk: &mut Iter<'a, T>) -> &'a [T]
    ensures taken { result.now ++ walk.new ≡ run.now ++ walk.old }
    ensures some { 0 < length (run.now ++ walk.old) → 0 < length result.now }
{
    if run.is_empty() {
        walk.next_chunk()
    } else {
        run
    }
}

// Returns whether each item of a block equals its counterpart. The loop has no early exit, so that
// it compiles to vector code if the items are numbers.
fn are_equal<T: PartialEq>(left: &[T], right: &[T]) -> bool
    requires { length left.now ≡ length right.now }
    ensures { result ≡ pointwise T.eq left.now right.now }
{
    let mut same = true;
    for i in 0..left.len() {
        same &= left[i] == right[i];
    }
    same
}
