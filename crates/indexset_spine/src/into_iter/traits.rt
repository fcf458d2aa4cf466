//! The `Debug` of an owning iterator.

use super::IntoIter;
use std::fmt;

/// Writes how many items remain: `vec::IntoIter` has no `as_slice`.
impl<T> fmt::Debug for IntoIter<T> {
    fn fmt<W: fmt::Write>(&self, f: &mut fmt::Formatter<W>) -> fmt::Result {
        f.debug_struct("IntoIter")
            .field("left", &self.left)
            .finish_non_exhaustive()
    }
}
