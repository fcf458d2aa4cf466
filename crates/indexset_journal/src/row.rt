//! A line as a row.
ghost use Rattle.std.specs.Prelude.{◌≡◌, ◌<◌, ◌^◌, Some, None, List, ℕ, OnOk, IfSome, [], ◌∷◌};
ghost use Rattle.indexset_journal.specs.Kept.{row_of, IsLine};

use sqlite_value::row::Row;
use sqlite_value::value::ValueRef;
use std::alloc::AllocError;

/// The table of lines is the first tree.
pub(crate) const TABLE: u32 = 0;

/// Sets `row` to the row of a line.
pub(crate) fn set_line(row: &mut Row, number: u64, line: &[u8]) -> Result<(), AllocError>
    requires { number < 2 ^ 63 }
    ensures { OnOk result (row.new ≡ row_of number line.now) }
{
    row.clear();
    row.push(ValueRef::Int(number as i64))?;
    row.push(ValueRef::Null)?;
    row.push(ValueRef::Text(line))
}

/// Returns the number of a line, or `None` if the row is not a line.
pub(crate) fn number_of(row: &Row) -> Option<u64>
    ensures line { IfSome result (λ number. number < 2 ^ 63 × ((line : List ℕ)
        × (row.now ≡ row_of number line))) }
    ensures none { result ≡ None → ¬ IsLine row.now }
{
    let ValueRef::Int(number) = row.get(0) else {
        return None;
    };
    let ValueRef::Null = row.get(1) else {
        return None;
    };
    let ValueRef::Text(_) = row.get(2) else {
        return None;
    };
    if number < 0 || row.len() != 3 {
        return None;
    }
    Some(number as u64)
}
