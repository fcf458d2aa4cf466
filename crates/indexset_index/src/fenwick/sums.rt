//! Sums of the first lengths, and the search for a position.
ghost use Rattle.std.specs.Prelude.{◌≡◌, ℕ, ◌+◌, ◌<◌, ◌≤◌, ◌/◌, ◌^◌, List, length};
ghost use Rattle.std.specs.Prelude.{sum, slice_index, count_ones, MatchOption};
ghost use Rattle.indexset_core.specs.Digits.{digits};
ghost use Rattle.indexset_index.specs.Fenwick.{IsFenwickOf, prefix_sum};

use super::cells::Cells;

/// Returns the sum of the first `k` lengths.
///
/// # Complexity
///
/// Reads as many cells as `k` has one bits.
pub fn prefix_in<C: Cells>(cells: &mut C, k: usize) -> usize
    ghost lengths: { List ℕ }
    requires cells { IsFenwickOf (C.cell cells.old) (C.number cells.old) lengths }
    requires within { k ≤ length lengths }
    ensures value { result ≡ prefix_sum lengths k }
    ensures fixed { C.cell cells.new ≡ C.cell cells.old }
    ensures stays { C.number cells.new ≡ C.number cells.old }
    ensures counted { C.asked cells.new ≡ C.asked cells.old + count_ones k }
{
    let mut total = 0;
    let mut i = k;
    while i > 0 {
        total += cells.read(i);
        i &= i - 1;
    }
    total
}

/// Returns the node of a position, and the offset in it, or `None` past the end.
///
/// # Complexity
///
/// Reads at most as many cells as their number has binary digits.
pub fn find_in<C: Cells>(cells: &mut C, position: usize) -> Option<(usize, usize)>
    ghost lengths: { List ℕ }
    requires cells { IsFenwickOf (C.cell cells.old) (C.number cells.old) lengths }
    ensures found { MatchOption result (sum lengths ≤ position)
        (λ p. (p.0 < length lengths) × (p.1 < slice_index lengths p.0)
        × (prefix_sum lengths p.0 + p.1 ≡ position)) }
    ensures fixed { C.cell cells.new ≡ C.cell cells.old }
    ensures stays { C.number cells.new ≡ C.number cells.old }
    ensures comparisons { C.asked cells.new ≤ C.asked cells.old + digits (C.number cells.old) }
{
    let count = cells.count();
    let mut step = highest_one(count);
    let mut node = 0;
    let mut before = 0;
    while step > 0 {
        if step <= count - node {
            // Comparing and keeping the sum compiles to conditional moves; keeping the remainder
            // would become a branch.
            let sum = before + cells.read(node + step);
            if sum <= position {
                node += step;
                before = sum;
            }
        }
        step /= 2;
    }
    if node < count {
        Some((node, position - before))
    } else {
        None
    }
}

// Returns the greatest power of two that is at most a number, or 0 for 0.
fn highest_one(n: usize) -> usize
    ensures { result ≡ 2 ^ digits n / 2 }
{
    match digits_of(n) {
        0 => 0,
        digits => 1 << (digits - 1),
    }
}

// Returns how many binary digits a number has.
fn digits_of(n: usize) -> u32
    ensures value { result ≡ digits n }
    ensures most { n < 2 ^ result }
    ensures width { result ≤ 64 }
{
    usize::BITS - n.leading_zeros()
}
