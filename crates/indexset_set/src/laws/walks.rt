//! Laws of iterators, ranges, splits and set operations, for every ascending list and every lawful
//! order, and so for the results of a set's calls. Each function does nothing; its contract is the
//! law.
ghost use Rattle.std.specs.Prelude.{◌≡◌, ℕ, ◌+◌, ◌-◌, ◌⊎◌, ◌&&◌, ◌||◌, Bool, not, List, []};
ghost use Rattle.std.specs.Prelude.{◌++◌, Option, None, length, map, filter, true, false};
ghost use Rattle.std.specs.declared.cmp.Ordering.{Ordering};
ghost use Rattle.std.specs.declared.ops.Bound.{Bound};
ghost use Rattle.std.specs.Cmp.{IsTotalOrder};
ghost use Rattle.std.specs.List.{All, Contains, enumerate_from};
ghost use Rattle.std.specs.Map.Iter.{TakesFirst, TakesLast, deref};
ghost use Rattle.std.specs.Ordering.{is_lt};
ghost use Rattle.indexset_core.specs.KeyRange.{in_positions, is_at_position};
ghost use Rattle.indexset_core.specs.Order.{IsAscending, below, has_equal};
ghost use Rattle.indexset_set.specs.SetAlgebra.{difference, intersection};
ghost use Rattle.indexset_set.specs.SetAlgebra.{symmetric_difference, union};
ghost use Rattle.indexset_set.specs.SetRanges.{not_below};
ghost use Rattle.indexset_core.specs.DoubleEnded.{IsDoubleEnded, Calls, back_items, front_items};

use crate::iter::{IntoIter, Iter};

/// For any calls of `next` and `next_back`, an iterator yields each item once.
///
/// The items that it yields at the front, those that remain and those that it yields at the back
/// are its list. `shows` gives the value of an item: the target of a reference, the pair of the
/// targets of two, or the item itself.
pub fn a_walk_gives_each_item_once<A, X>()
    ensures { (shows : A → X) (ends : List Bool) (s t : List X) (rs : List (Option A))
        → Calls shows ends s rs t
        → s ≡ front_items shows ends rs ++ (t ++ back_items shows ends rs) }
{}

/// Each call leaves one item less, until none remains.
pub fn a_walk_ends<A, X>()
    ensures { (shows : A → X) (ends : List Bool) (s t : List X) (rs : List (Option A))
        → Calls shows ends s rs t → length t ≡ length s - length ends }
{}

/// With no item remaining, `next` and `next_back` return `None`: the iterator is fused.
pub fn a_walk_stays_at_its_end<A, X>()
    ensures first { (shows : A → X) (r : Option A) (t : List X) → TakesFirst shows [] r t
        → (r ≡ None) × (t ≡ []) }
    ensures last { (shows : A → X) (r : Option A) (t : List X) → TakesLast shows [] r t
        → (r ≡ None) × (t ≡ []) }
{}

/// An iterator over a set or a range of one yields each element once, and then `None`.
///
/// This holds for any calls of `next` and `next_back`.
pub fn shared_iterators_yield_each_element_once<'a, T: 'a>()
    ensures { IsDoubleEnded deref ⟦<Iter<'a, T> as Iterator>⟧.next_gives
        ⟦<Iter<'a, T> as DoubleEndedIterator>⟧.next_back_gives }
{}

/// An iterator that owns the elements yields each element once, and then `None`.
///
/// This holds for any calls of `next` and `next_back`.
pub fn owning_iterators_yield_each_element_once<T: Drop>()
    ensures { IsDoubleEnded (λ x. x) ⟦<IntoIter<T> as Iterator>⟧.next_gives
        ⟦<IntoIter<T> as DoubleEndedIterator>⟧.next_back_gives }
{}

/// The part between two positions has the elements at the positions that satisfy both bounds.
pub fn positions_satisfy_both_bounds<T>()
    ensures { (l : List T) (start end : Bound ℕ)
        → in_positions l start end ≡ map (λ p. p.1)
        (filter (λ p. is_at_position start end p.0) (enumerate_from 0 l)) }
{}

/// A split at a value loses no element.
///
/// The elements below the value are on one side, and the others on the other.
pub fn a_cut_parts_the_list<T>()
    ensures parts { (cmp : T → T → Ordering) (l : List T) → IsTotalOrder cmp → IsAscending cmp l
        → (v : T) → below cmp l v ++ not_below cmp l v ≡ l }
    ensures below { (cmp : T → T → Ordering) (l : List T) (v : T)
        → All (λ x. is_lt (cmp x v) ≡ true) (below cmp l v) }
    ensures others { (cmp : T → T → Ordering) (l : List T) (v : T)
        → All (λ x. is_lt (cmp x v) ≡ false) (not_below cmp l v) }
{}

/// A union ascends, and has exactly the elements of either list, up to equality.
///
/// Of equal elements it has the first list's.
pub fn a_union_has_the_elements_of_either<T>()
    ensures ascending { (cmp : T → T → Ordering) (l r : List T) → IsTotalOrder cmp
        → IsAscending cmp l → IsAscending cmp (union cmp l r) }
    ensures members { (cmp : T → T → Ordering) (l r : List T) → IsTotalOrder cmp → IsAscending cmp l
        → (x : T) → has_equal cmp (union cmp l r) x ≡ (has_equal cmp l x || has_equal cmp r x) }
    ensures from_either { (cmp : T → T → Ordering) (l r : List T) → IsTotalOrder cmp
        → IsAscending cmp l → (x : T) → Contains (union cmp l r) x
        → Contains l x ⊎ (Contains r x × (has_equal cmp l x ≡ false)) }
{}

/// An intersection ascends, and has exactly the elements of both lists, up to equality.
pub fn an_intersection_has_what_both_have<T>()
    ensures ascending { (cmp : T → T → Ordering) (l r : List T) → IsAscending cmp l
        → IsAscending cmp (intersection cmp l r) }
    ensures members { (cmp : T → T → Ordering) (l r : List T) → IsTotalOrder cmp → (x : T)
        → has_equal cmp (intersection cmp l r) x ≡ (has_equal cmp l x && has_equal cmp r x) }
{}

/// A difference ascends, and has exactly the elements of only the first list, up to equality.
pub fn a_difference_has_what_the_first_has_alone<T>()
    ensures ascending { (cmp : T → T → Ordering) (l r : List T) → IsAscending cmp l
        → IsAscending cmp (difference cmp l r) }
    ensures members { (cmp : T → T → Ordering) (l r : List T) → IsTotalOrder cmp → (x : T)
        → has_equal cmp (difference cmp l r) x ≡ (has_equal cmp l x && not (has_equal cmp r x)) }
{}

/// A symmetric difference ascends, and has exactly the elements of only one list, up to equality.
pub fn a_symmetric_difference_has_what_either_has_alone<T>()
    ensures ascending { (cmp : T → T → Ordering) (l r : List T) → IsTotalOrder cmp
        → IsAscending cmp l → IsAscending cmp (symmetric_difference cmp l r) }
    ensures members { (cmp : T → T → Ordering) (l r : List T) → IsTotalOrder cmp → IsAscending cmp l
        → (x : T) → has_equal cmp (symmetric_difference cmp l r) x
        ≡ ((has_equal cmp l x && not (has_equal cmp r x)) ||
        (has_equal cmp r x && not (has_equal cmp l x))) }
{}

/// The lengths of union and intersection add up to those of the lists.
pub fn lengths_of_union_and_intersection<T>()
    ensures { (cmp : T → T → Ordering) (l r : List T) → IsTotalOrder cmp → IsAscending cmp l
        → IsAscending cmp r → length (union cmp l r) + length (intersection cmp l r)
        ≡ length l + length r }
{}
