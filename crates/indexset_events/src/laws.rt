//! Laws of the definitions that the contracts of this crate cite. Each function does nothing; its
//! contract is the law, which holds for all values, and so for the calls that cite the same
//! definitions.
ghost use Rattle.std.specs.Prelude.{◌≡◌, ℕ, ◌+◌, ◌-◌, ◌*◌, ◌/◌, ◌<◌, ◌≤◌, true, false};
ghost use Rattle.std.specs.Prelude.{List, [], ◌∷◌, ◌++◌, length, map, Some, None};
ghost use Rattle.std.specs.List.{All, list_any};
ghost use Rattle.std.specs.Option.{option_and_then};
ghost use Rattle.std.specs.Ordering.{nat_cmp};
ghost use Rattle.indexset_core.specs.declared.pair.Pair.{Pair};
ghost use Rattle.indexset_core.specs.Nodes.{concat, node_at, node_lengths, IsLawful, IsNodeList};
ghost use Rattle.indexset_events.specs.Edits.{with_put, with_removed};
ghost use Rattle.indexset_events.specs.Ends.{removal_events_at};
ghost use Rattle.indexset_events.specs.Merging.{IsDense, merge_after};
ghost use Rattle.indexset_events.specs.Keys.{key_removal_events};
ghost use Rattle.indexset_events.specs.Nodes.{are_nodes};
ghost use Rattle.indexset_events.specs.Replay.{step, step_plain, replay, numbered_from};
ghost use Rattle.indexset_events.specs.Replay.{unassigned, IsNumberedFrom};
ghost use Rattle.indexset_events.specs.Table.{checked_put_events, put_events};
ghost use Rattle.indexset_events.specs.Table.{removal_events, place_removal_count};
ghost use Rattle.indexset_events.specs.WithoutMerges.{is_merge, replay_without_merges};
ghost use Rattle.indexset_events.specs.declared.change.ChangeEvent.{ChangeEvent};
ghost use Rattle.indexset_events.specs.declared.change.ChangeEventUnassigned.{
  ChangeEventUnassigned,
};
ghost use Rattle.indexset_events.specs.declared.change.ChangeEventUnassigned.TheVariants.{
  InsertAt,
  RemoveAt,
  CreateNode,
  RemoveNode,
  SplitNode,
  MergeNodes,
};

/// The replay of a concatenation is the replay of its parts in order.
pub fn replay_in_parts<T: Ord>()
    ensures { (ns : List (List T)) (first rest : List (ChangeEvent T))
        → replay T.cmp ns (first ++ rest) ≡ option_and_then (λ middle. replay T.cmp middle rest)
        (replay T.cmp ns first) }
{}

/// `replay_without_merges`, which applies no merge, equals `replay` on events without `MergeNodes`.
pub fn earlier_events_replayed<T: Ord>()
    ensures { (ns : List (List T)) (events : List (ChangeEvent T))
        → list_any is_merge events ≡ false → replay_without_merges T.cmp ns events
        ≡ replay T.cmp ns events }
{}

/// Events numbered from s, followed by events numbered from the next number, are numbered from s.
pub fn numbered_in_parts<T>()
    ensures { (s : ℕ) (first rest : List (ChangeEvent T)) → IsNumberedFrom s first
        → IsNumberedFrom (s + length first) rest → IsNumberedFrom s (first ++ rest) }
{}

/// `numbered_from s` gives the event at index i the number s + i, and changes nothing else.
pub fn numbered_by_place<T>()
    ensures numbers { (s : ℕ) (events : List (ChangeEventUnassigned T))
        → IsNumberedFrom s (numbered_from s events) }
    ensures unassigned { (s : ℕ) (events : List (ChangeEventUnassigned T))
        → map unassigned (numbered_from s events) ≡ events }
    ensures count { (s : ℕ) (events : List (ChangeEventUnassigned T))
        → length (numbered_from s events) ≡ length events }
{}

/// `are_nodes` tests whether nodes are a node list, and each step gives a node list.
///
/// In a node list no node is empty, and the items ascend, within and across nodes.
pub fn steps_lead_to_nodes<T: Ord>()
    ensures passed { (ns : List (List T)) → are_nodes T.cmp ns ≡ true → IsNodeList T.cmp ns }
    ensures passes { (ns : List (List T)) → IsNodeList T.cmp ns → are_nodes T.cmp ns ≡ true }
    ensures step { (ns after : List (List T)) (event : ChangeEvent T)
        → step T.cmp ns event ≡ Some after → IsNodeList T.cmp after }
{}

/// Examples of the event table, with numbers as items.
#[tactic(auto, unfolding(crate::specs::Nodes::are_nodes, crate::specs::Replay::step_plain, crate::specs::Table::put_events, crate::specs::Table::target_events, crate::specs::Table::node_events, crate::specs::Table::replace_events, crate::specs::Table::removal_by))]
pub fn events_at_numbers()
    // Result.
    ensures first { put_events nat_cmp 4 [] 7 ≡ CreateNode 7 ∷ [] }
    ensures halved_then_inserted { put_events nat_cmp 2 ((5 ∷ 6 ∷ []) ∷ []) 7
        ≡ SplitNode 6 1 ∷ InsertAt 6 7 1 ∷ [] }
    ensures halved_then_only { put_events nat_cmp 2 ((5 ∷ 6 ∷ []) ∷ []) 5
        ≡ SplitNode 6 1 ∷ RemoveNode 5 ∷ CreateNode 5 ∷ [] }
    ensures halved_then_last { put_events nat_cmp 4 ((0 ∷ 1 ∷ 2 ∷ 3 ∷ []) ∷ []) 1
        ≡ SplitNode 3 2 ∷ RemoveAt 1 1 1 ∷ InsertAt 0 1 1 ∷ [] }
    ensures inner { put_events nat_cmp 4 ((0 ∷ 1 ∷ 2 ∷ []) ∷ []) 1
        ≡ RemoveAt 2 1 1 ∷ InsertAt 2 1 1 ∷ [] }
    ensures removed { removal_events nat_cmp 4 ((0 ∷ 1 ∷ []) ∷ (2 ∷ 3 ∷ []) ∷ []) 3
        ≡ RemoveAt 3 3 1 ∷ [] }
    ensures removed_only { removal_events nat_cmp 4 ((7 ∷ []) ∷ []) 7 ≡ RemoveNode 7 ∷ [] }
    ensures absent { removal_events nat_cmp 4 ((7 ∷ []) ∷ []) 9 ≡ [] }

    // Nodes.
    ensures split { step_plain nat_cmp ((5 ∷ 6 ∷ []) ∷ []) (SplitNode 6 1)
        ≡ Some ((5 ∷ []) ∷ (6 ∷ []) ∷ []) }
    ensures replaced { step_plain nat_cmp ((0 ∷ 1 ∷ []) ∷ (2 ∷ 3 ∷ []) ∷ []) (RemoveAt 1 1 1)
        ≡ Some ((0 ∷ []) ∷ (2 ∷ 3 ∷ []) ∷ []) }
    ensures out_of_order { step_plain nat_cmp ((0 ∷ 1 ∷ []) ∷ []) (InsertAt 1 9 0) ≡ None }
    ensures no_such_node { step_plain nat_cmp ((0 ∷ 1 ∷ []) ∷ []) (RemoveAt 5 1 1) ≡ None }
{}

/// Examples of removals with a merge, and of merges, with numbers as items.
#[tactic(auto, unfolding(crate::specs::Nodes::are_nodes, crate::specs::Replay::step_plain, crate::specs::Table::removal_by))]
pub fn merges_at_numbers()
    // Result.
    ensures both_too_large { removal_events nat_cmp 4 ((0 ∷ 1 ∷ []) ∷ (2 ∷ 3 ∷ []) ∷
        (4 ∷ 5 ∷ []) ∷ []) 3 ≡ RemoveAt 3 3 1 ∷ [] }
    ensures with_the_next { removal_events nat_cmp 4 ((0 ∷ 1 ∷ []) ∷ (2 ∷ []) ∷ (4 ∷ 5 ∷ []) ∷ []) 1
        ≡ RemoveAt 1 1 1 ∷ MergeNodes 0 2 ∷ [] }
    ensures with_the_one_before { removal_events nat_cmp 4
        ((2 ∷ 3 ∷ []) ∷ (4 ∷ []) ∷ (6 ∷ 7 ∷ []) ∷ []) 7 ≡ RemoveAt 7 7 1 ∷ MergeNodes 4 6 ∷ [] }
    ensures next_first { removal_events nat_cmp 4 ((1 ∷ []) ∷ (2 ∷ 3 ∷ []) ∷ (4 ∷ []) ∷ []) 2
        ≡ RemoveAt 3 2 0 ∷ MergeNodes 3 4 ∷ [] }
    ensures emptied_joins_nothing { removal_events nat_cmp 4 ((0 ∷ []) ∷ (2 ∷ []) ∷ (4 ∷ []) ∷ []) 2
        ≡ RemoveNode 2 ∷ [] }
    ensures never_of_size_three { removal_events nat_cmp 3 ((0 ∷ 1 ∷ []) ∷ (2 ∷ []) ∷ []) 1
        ≡ RemoveAt 1 1 1 ∷ [] }

    // Nodes.
    ensures next_made_one { with_removed {T = ℕ} 4 ((0 ∷ 1 ∷ []) ∷ (2 ∷ []) ∷ (4 ∷ 5 ∷ []) ∷ []) 0 1
        ≡ (0 ∷ 2 ∷ []) ∷ (4 ∷ 5 ∷ []) ∷ [] }
    ensures one_before_made_one { with_removed {T = ℕ} 4 ((2 ∷ 3 ∷ []) ∷ (4 ∷ []) ∷
        (6 ∷ 7 ∷ []) ∷ []) 2 1 ≡ (2 ∷ 3 ∷ []) ∷ (4 ∷ 6 ∷ []) ∷ [] }
    ensures merged { step_plain nat_cmp ((0 ∷ 1 ∷ []) ∷ (2 ∷ []) ∷ (5 ∷ []) ∷ []) (MergeNodes 1 2)
        ≡ Some ((0 ∷ 1 ∷ 2 ∷ []) ∷ (5 ∷ []) ∷ []) }
    ensures no_second_node { step_plain nat_cmp ((0 ∷ 1 ∷ []) ∷ (2 ∷ []) ∷ (5 ∷ []) ∷ [])
        (MergeNodes 1 4) ≡ None }
    ensures not_neighbours { step_plain nat_cmp ((0 ∷ 1 ∷ []) ∷ (2 ∷ []) ∷ (5 ∷ []) ∷ [])
        (MergeNodes 1 5) ≡ None }
    ensures not_backwards { step_plain nat_cmp ((0 ∷ 1 ∷ []) ∷ (2 ∷ []) ∷ (5 ∷ []) ∷ [])
        (MergeNodes 2 1) ≡ None }
{}

/// The number of items bounds the number of nodes, if neighbours hold more than h items together.
pub fn node_bound_if_dense<T>()
    ensures { (h : ℕ) (ns : List (List T)) → IsDense h ns
        → (length ns - 1) * (h + 1) ≤ 2 * length (concat ns) }
{}

/// Puts and removals keep neighbours that hold more than half the node size together.
pub fn dense_kept<T: Ord>()
    ensures put { (size : ℕ) (ns : List (List T)) (v : T) → 2 ≤ size → IsLawful T.cmp size ns
        → IsDense (size / 2) ns → IsDense (size / 2) (with_put T.cmp size ns v) }
    ensures removal { (size : ℕ) (ns : List (List T)) (k i : ℕ) → 2 ≤ size → IsLawful T.cmp size ns
        → k < length ns → i < length (node_at ns k) → IsDense (size / 2) ns
        → IsDense (size / 2) (with_removed size ns k i) }
{}

/// Nodes are never merged if the node size is below 4.
pub fn small_sizes_merge_nothing<T>()
    ensures { (size : ℕ) (ns : List (List T)) (k i : ℕ) → size < 4
        → All (λ n. 1 ≤ n) (node_lengths ns) → i < length (node_at ns k)
        → merge_after size ns k i ≡ None }
{}

/// A put or a removal emits at most three events.
pub fn three_events<T: Ord>()
    // Result.
    ensures put { (size : ℕ) (ns : List (List T)) (v : T)
        → length (put_events T.cmp size ns v) ≤ 3 }
    ensures checked_put { (size : ℕ) (ns : List (List T)) (v : T) →
        length (checked_put_events T.cmp size ns v) ≤ 3 }
    ensures removal { (size : ℕ) (ns : List (List T)) (v : T) →
        length (removal_events T.cmp size ns v) ≤ 3 }
    ensures removal_at { (size : ℕ) (ns : List (List T)) (i : ℕ) →
        length (removal_events_at T.cmp size ns i) ≤ 3 }
    ensures taking { (size : ℕ) (ns : List (List T)) (k i : ℕ)
        → place_removal_count size ns k i ≤ 3 }
{}

/// A removal by key emits at most three events.
pub fn three_events_by_key<K: Ord, V>()
    ensures { (size : ℕ) (ns : List (List (Pair K V))) (k : K) →
        length (key_removal_events K.cmp size ns k) ≤ 3 }
{}
