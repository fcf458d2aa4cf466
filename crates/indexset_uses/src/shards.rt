//! Shards: a map that is divided by key, where each part has the commands of its keys. Each
//! function is a theorem that a router, a leader or a reader of such a map uses.
ghost use Rattle.std.specs.Prelude.{◌≡◌, ◌+◌, ◌<◌, ℕ, List, [], ◌∷◌, ◌++◌, get_or};
ghost use Rattle.std.specs.Prelude.{length, map, slice_get, slice_set, take};
ghost use Rattle.std.specs.Cmp.{IsTotalOrder};
ghost use Rattle.std.specs.List.{zip};
ghost use Rattle.indexset.specs.Words.{concat, put, rank, without, IsAscending};
ghost use Rattle.indexset_uses.specs.Shards.{after_commands, not_above, parts, subject, IsOwner};
ghost use Rattle.indexset_uses.specs.declared.shards.Command.{Command};

/// A command to a map of items.
pub enum Command<T> {
    /// Inserts the item, or replaces its equal.
    Put(T),
    /// Removes the item that equals this one.
    Cut(T),
}

/// The concatenation of the shards of an ascending list is that list.
pub fn shards_are_one_list<T: Ord>()
    ensures { (borders l : List T) → IsTotalOrder T.cmp → IsAscending T.cmp l
        → concat (parts T.cmp (λ x. x) borders l) ≡ l }
{}

/// A rank is the number of items in the shards before the owner plus the rank in the owner.
///
/// The item at a position is found in a shard at that position less the number of items in the
/// shards before it.
pub fn ranks_and_positions_add_up<T: Ord>()
    ensures rank { (shards : List (List T)) (k : ℕ) (v : T) → IsOwner T.cmp shards k v
        → rank T.cmp (concat shards) v
        ≡ length (concat (take k shards)) + rank T.cmp (get_or shards k []) v }
    ensures position { (shards : List (List T)) (k i : ℕ) → k < length shards
        → i < length (get_or shards k [])
        → slice_get (concat shards) (length (concat (take k shards)) + i)
        ≡ slice_get (get_or shards k []) i }
{}

/// A command at the owner of its item changes the whole list as the command does.
pub fn owner_changes_the_list<T: Ord>()
    ensures put { (shards : List (List T)) (k : ℕ) (v : T) → IsOwner T.cmp shards k v
        → concat (slice_set shards k (put T.cmp (get_or shards k []) v))
        ≡ put T.cmp (concat shards) v }
    ensures cut { (shards : List (List T)) (k : ℕ) (v : T) → IsOwner T.cmp shards k v
        → concat (slice_set shards k (without T.cmp (get_or shards k []) v))
        ≡ without T.cmp (concat shards) v }
{}

/// Splitting a shard in two, or merging two shards into one, does not change the whole list.
pub fn split_and_merge_leave_the_list<T>()
    ensures { (below above : List (List T)) (first second : List T)
        → concat (below ++ first ∷ second ∷ above) ≡ concat (below ++ (first ++ second) ∷ above) }
{}

/// Shards that execute commands are the shards of one map that executes them.
///
/// After the first t commands, each executed at its shard in order, the shards are those of one map
/// after these commands, for each t. So their concatenation is that map.
pub fn cut_is_one_map<T: Ord>()
    ensures shards { (borders l : List T) (commands : List (Command T)) (t : ℕ)
        → IsTotalOrder T.cmp → IsAscending T.cmp l
        → map (λ p. after_commands T.cmp p.0 p.1)
        (zip (parts T.cmp (λ x. x) borders l) (parts T.cmp subject borders (take t commands)))
        ≡ parts T.cmp (λ x. x) borders (after_commands T.cmp l (take t commands)) }
    ensures map { (borders l : List T) (commands : List (Command T)) (t : ℕ)
        → IsTotalOrder T.cmp → IsAscending T.cmp l
        → concat (map (λ p. after_commands T.cmp p.0 p.1)
        (zip (parts T.cmp (λ x. x) borders l) (parts T.cmp subject borders (take t commands))))
        ≡ after_commands T.cmp l (take t commands) }
{}

/// The owner of an item is the shard whose index is the number of borders that are at most the
/// item.
pub fn route_finds_the_owner<T: Ord>()
    ensures { (borders l : List T) (v : T) → IsTotalOrder T.cmp → IsAscending T.cmp borders
        → IsOwner T.cmp (parts T.cmp (λ x. x) borders l) (not_above T.cmp borders v) v }
{}

/// Executing the other commands on a snapshot after the first commands gives the list after all.
pub fn snapshot_goes_on<T: Ord>()
    ensures { (l : List T) (first rest : List (Command T))
        → after_commands T.cmp (after_commands T.cmp l first) rest
        ≡ after_commands T.cmp l (first ++ rest) }
{}
