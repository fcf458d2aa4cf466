//! The ranks and positions that a replica returns.

ghost use Rattle.std.specs.Prelude.{◌≡◌, ◌-◌, ℕ, List, Some, take};
ghost use Rattle.indexset_core.specs.Nodes.{concat};
ghost use Rattle.indexset_events.specs.Replay.{replay};
ghost use Rattle.indexset_events.specs.declared.change.ChangeEvent.{ChangeEvent};
ghost use Rattle.indexset_replica.specs.Copies.{AreCopies};
ghost use Rattle.indexset_replica.specs.Delivery.{CopiesAll, CopiesPrefix};
ghost use Rattle.indexset_core.specs.Order.{index_of, rank};
ghost use Rattle.indexset_replica.specs.Replica.{ReplicaState};

use indexset_core::lookup_key::LookupKey;

/// A key has the same rank and the same position in copies of nodes as in their sources.
pub fn positions_of_copies<T: Ord + Clone, Q: LookupKey<T>>()
    ensures rank { (ns ms : List (List T)) (k : Q) → AreCopies T.cmp T.is_clone ns ms
        → rank Q.order (concat ms) k ≡ rank Q.order (concat ns) k }
    ensures index { (ns ms : List (List T)) (k : Q) → AreCopies T.cmp T.is_clone ns ms
        → index_of Q.order (concat ms) k ≡ index_of Q.order (concat ns) k }
{}

/// A key has the same rank and position in a replica as in the nodes after a prefix of the events.
///
/// The replica has copies of these nodes. [`super::delivery`] states which prefix that is, however
/// the events arrive.
pub fn positions_in_a_prefix<T: Ord + Clone, Q: LookupKey<T>>()
    ensures rank { (s : ℕ) (ns : List (List T)) (es : List (ChangeEvent T)) (q : ReplicaState T)
        → CopiesPrefix T.cmp T.is_clone s ns es q
        → (held : List (List T)) × (replay T.cmp ns (take (q.next - s) es) ≡ Some held)
        × ((k : Q) → rank Q.order (concat q.nodes) k
        ≡ rank Q.order (concat held) k) }
    ensures index { (s : ℕ) (ns : List (List T)) (es : List (ChangeEvent T)) (q : ReplicaState T)
        → CopiesPrefix T.cmp T.is_clone s ns es q
        → (held : List (List T)) × (replay T.cmp ns (take (q.next - s) es) ≡ Some held)
        × ((k : Q) → index_of Q.order (concat q.nodes) k
        ≡ index_of Q.order (concat held) k) }
{}

/// A key has the same rank and position in a replica of all events as in the primary's nodes.
///
/// The primary's nodes are those after all events, and the replica has copies of them.
pub fn positions_where_all_arrived<T: Ord + Clone, Q: LookupKey<T>>()
    ensures rank { (s : ℕ) (ns after : List (List T)) (es : List (ChangeEvent T))
        (q : ReplicaState T) (k : Q) → CopiesAll T.cmp T.is_clone s ns es q
        → replay T.cmp ns es ≡ Some after
        → rank Q.order (concat q.nodes) k ≡ rank Q.order (concat after) k }
    ensures index { (s : ℕ) (ns after : List (List T)) (es : List (ChangeEvent T))
        (q : ReplicaState T) (k : Q) → CopiesAll T.cmp T.is_clone s ns es q
        → replay T.cmp ns es ≡ Some after
        → index_of Q.order (concat q.nodes) k ≡ index_of Q.order (concat after) k }
{}
