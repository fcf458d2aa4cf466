//! Types whose clones equal their sources by the order, which the law [`super::replay_of_clones`]
//! and the calls that cite it require.

ghost use Rattle.indexset_core.specs.Clones.{AreIdentical};
ghost use Rattle.std.specs.Prelude.{◌≡◌};
ghost use Rattle.indexset_core.specs.MultiPairs.{by_number};
ghost use Rattle.indexset_core.specs.Pairs.{by_key};
ghost use Rattle.indexset_core.specs.declared.multipair.MultiPair.{MultiPair};
ghost use Rattle.indexset_core.specs.declared.pair.Pair.{Pair};
ghost use Rattle.indexset_replica.specs.Copies.{AreClonesEqual};

/// Clones of `String` and `&str` equal their sources.
pub fn texts()
    ensures string { AreClonesEqual ⟦<String as Ord>⟧.cmp ⟦<String as Clone>⟧.is_clone }
    ensures str { AreClonesEqual ⟦<&'static str as Ord>⟧.cmp ⟦<&'static str as Clone>⟧.is_clone }
{}

/// Clones of `u64`, `i64`, `char` and `bool` equal their sources.
pub fn numbers()
    ensures u64 { AreClonesEqual ⟦<u64 as Ord>⟧.cmp ⟦<u64 as Clone>⟧.is_clone }
    ensures i64 { AreClonesEqual ⟦<i64 as Ord>⟧.cmp ⟦<i64 as Clone>⟧.is_clone }
    ensures char { AreClonesEqual ⟦<char as Ord>⟧.cmp ⟦<char as Clone>⟧.is_clone }
    ensures bool { AreClonesEqual ⟦<bool as Ord>⟧.cmp ⟦<bool as Clone>⟧.is_clone }
{}

/// Clones that are identical to their sources equal them, as those of all numbers and of `Text`.
pub fn identical<T: Ord + Clone>()
    ensures { AreIdentical T.is_clone → AreClonesEqual T.cmp T.is_clone }
{}

/// Clones of lists, options and boxes equal their sources if those of their items do.
pub fn holders<T: Ord + Clone>()
    ensures vec { AreClonesEqual T.cmp T.is_clone
        → AreClonesEqual ⟦<Vec<T> as Ord>⟧.cmp ⟦<Vec<T> as Clone>⟧.is_clone }
    ensures option { AreClonesEqual T.cmp T.is_clone
        → AreClonesEqual ⟦<Option<T> as Ord>⟧.cmp ⟦<Option<T> as Clone>⟧.is_clone }
    ensures boxed { AreClonesEqual T.cmp T.is_clone
        → AreClonesEqual ⟦<Box<T> as Ord>⟧.cmp ⟦<Box<T> as Clone>⟧.is_clone }
{}

/// Clones of tuples equal their sources if those of their components do.
pub fn tuples<A: Ord + Clone, B: Ord + Clone, C: Ord + Clone>()
    ensures two { AreClonesEqual A.cmp A.is_clone → AreClonesEqual B.cmp B.is_clone
        → AreClonesEqual ⟦<(A, B) as Ord>⟧.cmp ⟦<(A, B) as Clone>⟧.is_clone }
    ensures three { AreClonesEqual A.cmp A.is_clone → AreClonesEqual B.cmp B.is_clone
        → AreClonesEqual C.cmp C.is_clone
        → AreClonesEqual ⟦<(A, B, C) as Ord>⟧.cmp ⟦<(A, B, C) as Clone>⟧.is_clone }
{}

/// Clones of pairs equal their sources if those of their keys do, for any clones of the values.
pub fn pairs<K: Ord + Clone, V: Clone>()
    ensures pair { AreClonesEqual K.cmp K.is_clone
        → AreClonesEqual {T = Pair K V} (by_key K.cmp)
        (λ p q. K.is_clone p.key q.key × V.is_clone p.value q.value) }
    ensures numbered { AreClonesEqual K.cmp K.is_clone
        → AreClonesEqual {T = MultiPair K V} (by_number K.cmp)
        (λ p q. K.is_clone p.key q.key × (V.is_clone p.value q.value
        × (q.discriminator ≡ p.discriminator))) }
{}
