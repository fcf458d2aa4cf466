//! The operators `|`, `&`, `-` and `^`, which clone the elements into a new set.
ghost use Rattle.std.specs.Prelude.{◌≡◌, List, map, IfOk, MatchResult};
ghost use Rattle.std.specs.Borrow.{Bor};
ghost use Rattle.std.specs.Iterator.{Drains, IsFinite};
ghost use Rattle.std.specs.List.{AllZip};
ghost use Rattle.indexset_core.specs.declared.refusal.Refusal.TheVariants.{Memory};
ghost use Rattle.indexset_set.specs.SetAlgebra.{difference, intersection};
ghost use Rattle.indexset_set.specs.SetAlgebra.{symmetric_difference, union};
ghost use Rattle.indexset_set.specs.SetCopy.{IsSetOf};
ghost use Rattle.indexset_spine.specs.NodeList.{items};

use crate::BTreeSet;
use indexset_core::refusal::Refusal;
use std::alloc::{AllocError, Global};
use std::ops::{BitAnd, BitOr, BitXor, Sub};

/// Returns the set of clones of the union, of the first set's node size.
///
/// # Errors
///
/// Fails with `Memory` only.
impl<'a, 'b, T: Ord + Clone + Drop> BitOr<&'b BTreeSet<T>> for &'a BTreeSet<T> {
    type Output = Result<BTreeSet<T>, Refusal>;

    ghost bitor_gives = { λ a b r. MatchResult r (IsSetOf T.cmp T.is_clone
        (union T.cmp (items a.now) (items b.now)) a.now.size) (λ e. e ≡ Memory) };

    fn bitor(self, other: &'b BTreeSet<T>) -> Result<BTreeSet<T>, Refusal> {
        let clones = clones_of(*self.spine.allocator(), self.union(other))?;
        self.made_like(clones)
    }
}

/// Returns the set of clones of the intersection, of the first set's node size.
///
/// # Errors
///
/// Fails with `Memory` only.
impl<'a, 'b, T: Ord + Clone + Drop> BitAnd<&'b BTreeSet<T>> for &'a BTreeSet<T> {
    type Output = Result<BTreeSet<T>, Refusal>;

    ghost bitand_gives = { λ a b r. MatchResult r (IsSetOf T.cmp T.is_clone
        (intersection T.cmp (items a.now) (items b.now)) a.now.size) (λ e. e ≡ Memory) };

    fn bitand(self, other: &'b BTreeSet<T>) -> Result<BTreeSet<T>, Refusal> {
        let clones = clones_of(*self.spine.allocator(), self.intersection(other))?;
        self.made_like(clones)
    }
}

/// Returns the set of clones of the difference, of the first set's node size.
///
/// # Errors
///
/// Fails with `Memory` only.
impl<'a, 'b, T: Ord + Clone + Drop> Sub<&'b BTreeSet<T>> for &'a BTreeSet<T> {
    type Output = Result<BTreeSet<T>, Refusal>;

    ghost sub_gives = { λ a b r. MatchResult r (IsSetOf T.cmp T.is_clone
        (difference T.cmp (items a.now) (items b.now)) a.now.size) (λ e. e ≡ Memory) };

    fn sub(self, other: &'b BTreeSet<T>) -> Result<BTreeSet<T>, Refusal> {
        let clones = clones_of(*self.spine.allocator(), self.difference(other))?;
        self.made_like(clones)
    }
}

/// Returns the set of clones of the symmetric difference, of the first set's node size.
///
/// # Errors
///
/// Fails with `Memory` only.
impl<'a, 'b, T: Ord + Clone + Drop> BitXor<&'b BTreeSet<T>> for &'a BTreeSet<T> {
    type Output = Result<BTreeSet<T>, Refusal>;

    ghost bitxor_gives = { λ a b r. MatchResult r (IsSetOf T.cmp T.is_clone
        (symmetric_difference T.cmp (items a.now) (items b.now)) a.now.size) (λ e. e ≡ Memory) };

    fn bitxor(self, other: &'b BTreeSet<T>) -> Result<BTreeSet<T>, Refusal> {
        let clones = clones_of(*self.spine.allocator(), self.symmetric_difference(other))?;
        self.made_like(clones)
    }
}

// Returns clones of the elements that an iterator yields, in order.
fn clones_of<'a, T: Clone + Drop + 'a, I: Iterator<Item = &'a T>>(
    alloc: Global,
    elements: I,
) -> Result<Vec<T>, AllocError>
    requires can { I.can_next elements }
    requires finite { IsFinite (I.remaining elements) }
    ensures { IfOk result (λ clones. (given : List (Bor T)) × Drains I.next_gives elements given
        × AllZip T.is_clone (map (λ x. x.now) given) clones.items) }
{
    let mut clones = Vec::new(alloc);
    for element in elements {
        clones.push(element.clone()?)?;
    }
    Ok(clones)
}
