//! The sources of `from`.
ghost use Rattle.std.specs.Prelude.{◌≡◌, List, IfOk};

use std::alloc::{AllocError, Global};

/// A source of values for `from`: a `Vec` or an array.
///
/// ```
/// let from_array = BTreeSet::from(alloc, [20, 10])?;
/// let from_vec = BTreeSet::from(alloc, vec![in alloc; 10, 20]?)?;
/// assert!(rt; from_array == from_vec);
/// ```
pub trait IntoVec {
    type Item;

    /// The values, in order.
    ghost values: { Self → List Self.Item };

    /// Returns the values as a `Vec`.
    ///
    /// Only an array needs an allocation.
    ///
    /// # Errors
    ///
    /// Fails with `AllocError` if the allocation fails.
    fn into_vec(self, alloc: Global) -> Result<Vec<Self::Item>, AllocError>
        ensures { IfOk result (λ all. all.items ≡ values self) };
}

impl<T> IntoVec for Vec<T> {
    type Item = T;

    ghost values = { λ all. all.items };

    fn into_vec(self, _alloc: Global) -> Result<Vec<T>, AllocError> {
        Ok(self)
    }
}

impl<T: Drop, const N: usize> IntoVec for [T; N] {
    type Item = T;

    ghost values = { λ all. all };

    fn into_vec(self, alloc: Global) -> Result<Vec<T>, AllocError> {
        Ok(Vec::from_array(alloc, self)?)
    }
}
