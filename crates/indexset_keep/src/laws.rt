//! Theorems on kept lines.

ghost use Rattle.std.specs.Prelude.{◌≡◌, ◌<◌, ◌≤◌, ◌^◌, ◌++◌, Bool, ℕ, List, length, true};
ghost use Rattle.std.specs.List.{All};
ghost use Rattle.indexset_follow.specs.Copy.{copy};
ghost use Rattle.indexset_follow.specs.Drawn.{HoldsFirst, IsDrawn, IsFeedOfPairs};
ghost use Rattle.indexset_follow.specs.Follow.{holding, start_state, state_after};
ghost use Rattle.indexset_follow.specs.Leading.{events_led, leader_of, tree_of};
ghost use Rattle.indexset_follow.specs.Store.{Held, after_input, can_lead, input_reply};
ghost use Rattle.indexset_follow.specs.declared.leader.Leader.{Leader};
ghost use Rattle.indexset_follow.specs.declared.others.Voice.{Voice};
ghost use Rattle.indexset_follow.specs.declared.role.Role.{Role};
ghost use Rattle.indexset_follow.specs.declared.role.Role.TheVariants as role;
ghost use Rattle.indexset_keep.specs.Leads.{IsSound};
ghost use Rattle.indexset_keep.specs.Roles.{IsSoundMap, IsSoundRole, LeadsTo, copy_held};
ghost use Rattle.indexset_keep.specs.Roles.{done_held, role_of, settled, snapshot_of};
ghost use Rattle.indexset_keep.specs.Told.{kept_by};

use indexset_bench::key::Key;

/// What is kept of a line takes the kept lines from the state before it to the state after it.
///
/// If replaying some lines gives the state of a map, in either role, replaying these lines and
/// those that are kept of a line that the map reads gives the state after that line.
pub fn kept_lines_lead_on<T: Key>()
    ensures { (v : Voice) (h : Held T) (line : List ℕ) (kept : List (List ℕ))
        → IsSoundMap T.cmp T.texts h → (copy_held (after_input T.cmp T.texts h line).role).next < 2
        ^ 64 → LeadsTo T.cmp T.texts kept (settled h.role) → LeadsTo T.cmp T.texts (kept
        ++ kept_by T.cmp T.texts (input_reply T.cmp T.texts v) h line) (settled (after_input T.cmp
        T.texts h line).role) }
{}

/// Replaying the lines of a snapshot of a map gives the state of the map.
///
/// So they may replace any lines that give this state.
pub fn snapshots_lead_there<T: Key>()
    ensures { (r : Role T) → IsSoundRole T.cmp T.texts r → length (copy_held r).nodes < 2 ^ 64
        → LeadsTo T.cmp T.texts (snapshot_of T.texts r) (settled r) }
{}

/// A map that starts from any lines, and reads any lines, stays sound.
pub fn maps_are_sound<T: Key>()
    ensures first { (size window : ℕ) (leads : Bool) (lines : List (List ℕ)) → 2 ≤ size
        → size < 2 ^ 64 → (leads ≡ true → can_lead T.cmp size (state_after T.cmp T.texts
        (start_state 0) lines).held ≡ true) → IsSoundRole T.cmp T.texts (role_of size window leads
        (state_after T.cmp T.texts (start_state 0) lines)) }
    ensures stays { (v : Voice) (h : Held T) (line : List ℕ) → IsSoundMap T.cmp T.texts h
        → (copy_held (after_input T.cmp T.texts h line).role).next < 2 ^ 64
        → IsSoundMap T.cmp T.texts (after_input T.cmp T.texts h line) }
{}

/// A map that starts from lines has the state that replaying them gives.
///
/// In either role it has the nodes, the next number and the greatest command number; a leader with
/// the same node size is the same leader.
pub fn a_restart_goes_on<T: Key>()
    ensures nodes { (size window : ℕ) (leads : Bool) (lines : List (List ℕ)) (r : Role T)
        → LeadsTo T.cmp T.texts lines (settled r)
        → copy_held (role_of size window leads (state_after T.cmp T.texts (start_state 0) lines))
        ≡ copy_held r }
    ensures done { (size window : ℕ) (leads : Bool) (lines : List (List ℕ)) (r : Role T)
        → LeadsTo T.cmp T.texts lines (settled r)
        → done_held (role_of size window leads (state_after T.cmp T.texts (start_state 0) lines))
        ≡ done_held r }
    ensures leader { (window : ℕ) (lines : List (List ℕ)) (l : Leader T)
        → LeadsTo T.cmp T.texts lines (settled (role.Leading l))
        → role_of l.pairs.size window true (state_after T.cmp T.texts (start_state 0) lines)
        ≡ role.Leading l }
{}

/// The events that a leader emitted before a crash are a prefix of those after recovery.
///
/// Let a leader answer some lines, and execute further ones before or after a crash. The events of
/// the answered lines are a prefix of the events of all lines. They are numbered from the leader's
/// next number without a gap, and replaying them on its nodes gives the nodes after all lines. So a
/// follower that starts with these nodes and reads lines of these events, with losses, repeats and
/// in any order, has the nodes after the first k events, for some k.
pub fn published_events_are_a_beginning<T: Key>()
    ensures first { (l : Leader T) (answered more : List (List ℕ))
        → events_led T.cmp T.texts l.pairs (answered ++ more)
        ≡ events_led T.cmp T.texts l.pairs answered
        ++ events_led T.cmp T.texts (tree_of T.cmp T.texts l.pairs answered) more }
    ensures feed { (l : Leader T) (lines : List (List ℕ)) → IsSound T.cmp T.texts l
        → (tree_of T.cmp T.texts l.pairs lines).next < 2 ^ 64
        → IsFeedOfPairs T.cmp l.pairs.next l.pairs.nodes (events_led T.cmp T.texts l.pairs lines) }
    ensures found { (l : Leader T) (lines : List (List ℕ)) → IsSound T.cmp T.texts l → (d : ℕ)
        → HoldsFirst T.cmp l.pairs.next l.pairs.nodes (events_led T.cmp T.texts l.pairs lines)
        (length (events_led T.cmp T.texts l.pairs lines))
        (settled (role.Leading (leader_of (tree_of T.cmp T.texts l.pairs lines) d))) }
    ensures follower { (l : Leader T) (lines : List (List ℕ)) → IsSound T.cmp T.texts l
        → (tree_of T.cmp T.texts l.pairs lines).next < 2 ^ 64 → (w d : ℕ)
        (delivered : List (List ℕ))
        → All (IsDrawn T.texts (events_led T.cmp T.texts l.pairs lines)) delivered → (k : ℕ)
        × HoldsFirst T.cmp l.pairs.next l.pairs.nodes (events_led T.cmp T.texts l.pairs lines) k
        (state_after T.cmp T.texts (holding w (copy l.pairs.nodes l.pairs.next) d) delivered) }
{}
