//! Laws on the definitions that the contracts of this crate use. Each function does nothing; its
//! contract is the law, for all values.
ghost use Rattle.std.specs.Prelude.{◌≡◌, ◌+◌, ◌-◌, ◌*◌, ◌^◌, ◌<◌, ◌≤◌, ℕ, List, length, count_ones};
ghost use Rattle.indexset_index.specs.Fenwick.{lowbit, prefix_sum, cell_of};
ghost use Rattle.indexset_index.specs.Fenwick.{cell_in, lengths_of, IsFenwickOf};

/// `lowbit` is the value of the lowest one bit.
///
/// 0 has none, and a number of any bits, a one and l zeros has 2 ^ l.
pub fn lowbit_is_the_lowest_one()
    ensures none { lowbit 0 ≡ 0 }
    ensures value { (m l : ℕ) → lowbit ((2 * m + 1) * 2 ^ l) ≡ 2 ^ l }
    ensures ones { (n : ℕ) → 0 < n → count_ones n ≡ count_ones (n - lowbit n) + 1 }
{}

/// Cell i continues the sum of the first i - lowbit i lengths to that of the first i.
pub fn cells_add_up()
    ensures { (lengths : List ℕ) (i : ℕ) → prefix_sum lengths (i - lowbit i) + cell_of lengths i
        ≡ prefix_sum lengths i }
{}

/// The cells determine the lengths.
pub fn cells_determine_lengths()
    ensures { (cells lengths : List ℕ) → IsFenwickOf (cell_in cells) (length cells) lengths
        → lengths_of cells ≡ lengths }
{}
