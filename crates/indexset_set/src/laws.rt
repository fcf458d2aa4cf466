//! Laws that relate ranks to positions, for every ascending list and every lawful order, and so for
//! the results of a set's calls. Each function does nothing; its contract is the law.
ghost use Rattle.std.specs.Prelude.{◌≡◌, ℕ, List, Some, true, slice_get};
ghost use Rattle.std.specs.declared.cmp.Ordering.{Ordering};
ghost use Rattle.std.specs.Cmp.{IsTotalOrder};
ghost use Rattle.indexset_core.specs.Order.{IsAscending, has_equal, rank, equal_element};

pub mod walks;

/// The rank of the element at a position is that position.
pub fn rank_of_the_element_at_a_position<T>()
    ensures { (cmp : T → T → Ordering) (l : List T) → IsTotalOrder cmp → IsAscending cmp l →
        (i : ℕ) (x : T) → slice_get l i ≡ Some x → rank cmp l x ≡ i }
{}

/// The element at the rank of a member is that member.
pub fn element_at_the_rank_of_a_member<T>()
    ensures { (cmp : T → T → Ordering) (l : List T) → IsTotalOrder cmp → IsAscending cmp l →
        (v : T) → has_equal cmp l v ≡ true → slice_get l (rank cmp l v) ≡ equal_element cmp l v }
{}
