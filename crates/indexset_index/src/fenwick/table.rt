//! Updates of the cells of an index.
ghost use Rattle.std.specs.Prelude.{◌≡◌, ◌+◌, ◌-◌, ◌<◌, ◌≤◌, ◌^◌};
ghost use Rattle.std.specs.Prelude.{length, sum, slice_index, slice_set};
ghost use Rattle.indexset_index.specs.Fenwick.{lowbit, prefix_sum, lengths_of, IsFenwick};

/// Returns cell `end`: the sum of the last of the lengths, and of further ones, `more`.
pub(super) fn last_cell(cells: &[usize], end: usize, more: usize) -> usize
    requires cells { IsFenwick cells.now }
    requires past { length cells.now < end }
    requires begins { end - lowbit end ≤ length cells.now }
    requires fits { sum (lengths_of cells.now) + more < 2 ^ 64 }
    ensures { result + prefix_sum (lengths_of cells.now) (end - lowbit end)
        ≡ sum (lengths_of cells.now) + more }
{
    let start = end & (end - 1);
    let mut total = more;
    let mut j = cells.len();
    while j > start {
        total += cells[j - 1];
        j &= j - 1;
    }
    total
}

/// Adds `n` to length `i`.
pub(super) fn raise(cells: &mut [usize], i: usize, n: usize)
    requires cells { IsFenwick cells.old }
    requires inside { i < length cells.old }
    requires fits { sum (lengths_of cells.old) + n < 2 ^ 64 }
    ensures cells { IsFenwick cells.new }
    ensures lengths { lengths_of cells.new
        ≡ slice_set (lengths_of cells.old) i (slice_index (lengths_of cells.old) i + n) }
{
    let mut j = i + 1;
    while j <= cells.len() {
        cells[j - 1] += n;
        j += lowest_one(j);
    }
}

/// Subtracts `n` from length `i`.
pub(super) fn lower(cells: &mut [usize], i: usize, n: usize)
    requires cells { IsFenwick cells.old }
    requires inside { i < length cells.old }
    requires enough { n ≤ slice_index (lengths_of cells.old) i }
    ensures cells { IsFenwick cells.new }
    ensures lengths { lengths_of cells.new
        ≡ slice_set (lengths_of cells.old) i (slice_index (lengths_of cells.old) i - n) }
{
    let mut j = i + 1;
    while j <= cells.len() {
        cells[j - 1] -= n;
        j += lowest_one(j);
    }
}

// Returns the value of the lowest one bit.
fn lowest_one(i: usize) -> usize
    requires { 1 ≤ i }
    ensures value { result ≡ lowbit i }
    ensures within { result ≤ i }
{
    i - (i & (i - 1))
}
