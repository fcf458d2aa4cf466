//! Theorems on a follower that takes over, on reads in both roles, and on an incomplete last line.

ghost use Rattle.std.specs.Prelude.{◌≡◌, ◌<◌, ◌≤◌, ◌^◌, ◌++◌, ◌∷◌, ◌||◌, Bool, ℕ};
ghost use Rattle.std.specs.Prelude.{List, [], codes, false, length, map, None, Some};
ghost use Rattle.std.specs.Io.BufRead.{ends_with_byte};
ghost use Rattle.std.specs.List.{All};
ghost use Rattle.std.specs.Ordering.{nat_cmp};
ghost use Rattle.indexset_lines.specs.Lines.{HasNoEnd, IsWhole, lines_of};
ghost use Rattle.indexset_core.specs.Pairs.{by_key};
ghost use Rattle.indexset_events.specs.Attach.{nodes_refusal};
ghost use Rattle.indexset_events.specs.Replay.{IsNumberedFrom, replay};
ghost use Rattle.indexset_log.specs.Tree.{fresh};
ghost use Rattle.indexset_follow.specs.Copy.{copy};
ghost use Rattle.indexset_follow.specs.Drawn.{HoldsFirst};
ghost use Rattle.indexset_follow.specs.Follow.{State, start_state, state_after};
ghost use Rattle.indexset_follow.specs.Known.{KnowsDone, TellsDone};
ghost use Rattle.indexset_follow.specs.Leading.{done_of, events_led, leader_of, tree_of};
ghost use Rattle.indexset_follow.specs.Query.{QueryFits, query_line, query_of};
ghost use Rattle.indexset_follow.specs.Reads.{query_text};
ghost use Rattle.indexset_follow.specs.Reply.{reply_ended};
ghost use Rattle.indexset_follow.specs.Store.{Held, after_held, after_input, first_held, held};
ghost use Rattle.indexset_follow.specs.Store.{held_after, held_cut, held_replies, held_reply};
ghost use Rattle.indexset_follow.specs.Store.{input_reply, is_follow, starts, without_return};
ghost use Rattle.indexset_follow.specs.StoreRun.{store_after, store_text};
ghost use Rattle.indexset_follow.specs.declared.leader.Leader.{Leader};
ghost use Rattle.indexset_follow.specs.declared.others.Others.{Others};
ghost use Rattle.indexset_follow.specs.declared.others.Voice.{Voice};
ghost use Rattle.indexset_follow.specs.declared.reads.query.Query.{Query};
ghost use Rattle.indexset_follow.specs.declared.reply.Reply.TheVariants as reply;
ghost use Rattle.indexset_follow.specs.declared.role.Role.{Role};
ghost use Rattle.indexset_follow.specs.declared.role.Role.TheVariants as role;

use indexset_bench::key::Key;

/// A follower that receives `lead` is the leader that has its state.
///
/// It has the same nodes, the same next number and the same greatest command number, also while a
/// snapshot is incomplete. So it answers all further lines as that leader does, and emits the same
/// events.
pub fn follower_takes_over<T: Key>()
    ensures held { (l : Leader T) (w : ℕ) (s : State T)
        → s.held ≡ copy l.pairs.nodes l.pairs.next → s.done ≡ l.done
        → nodes_refusal (by_key T.cmp) l.pairs.size l.pairs.nodes ≡ None
        → after_held T.cmp T.texts (held l.pairs.size w (role.Following s)) (codes "lead")
        ≡ held l.pairs.size w (role.Leading l) }
    ensures answers { (v : Voice) (l : Leader T) (w : ℕ) (s : State T) (lines : List (List ℕ))
        → s.held ≡ copy l.pairs.nodes l.pairs.next → s.done ≡ l.done
        → nodes_refusal (by_key T.cmp) l.pairs.size l.pairs.nodes ≡ None
        → held_replies T.cmp T.texts v (held l.pairs.size w (role.Following s)) (codes "lead" ∷
        lines) ≡ reply_ended (reply.Next l.pairs.next)
        ++ held_replies T.cmp T.texts v (held l.pairs.size w (role.Leading l)) lines }
{}

/// Replaying the events of a leader gives its nodes.
///
/// The events are numbered from 0 without a gap, for any lines that it reads. Replaying them from
/// no nodes gives the nodes after these lines, and the next number is the number of events. The map
/// stays a leader until it receives `follow`, or the start of a snapshot while it has no nodes.
pub fn led_events_lead_to_the_nodes<T: Key>()
    ensures numbered { (size : ℕ) (lines : List (List ℕ)) → 2 ≤ size → size < 2 ^ 64
        → IsNumberedFrom 0 (events_led T.cmp T.texts (fresh size) lines) }
    ensures replayed { (size : ℕ) (lines : List (List ℕ)) → 2 ≤ size → size < 2 ^ 64
        → replay (by_key T.cmp) [] (events_led T.cmp T.texts (fresh size) lines)
        ≡ Some (tree_of T.cmp T.texts (fresh size) lines).nodes }
    ensures count { (size : ℕ) (lines : List (List ℕ)) → 2 ≤ size → size < 2 ^ 64
        → (tree_of T.cmp T.texts (fresh size) lines).next
        ≡ length (events_led T.cmp T.texts (fresh size) lines) }
    ensures role { (size w : ℕ) (l : Leader T) (lines : List (List ℕ))
        → All (λ line. (starts line || is_follow line) ≡ false) lines
        → held_after T.cmp T.texts (held size w (role.Leading l)) lines
        ≡ held size w (role.Leading (leader_of (tree_of T.cmp T.texts l.pairs lines) (done_of
        T.texts l.done lines))) }
{}

/// A follower that applied all events of a leader becomes the same leader.
///
/// Let a leader start without nodes and read some lines. Let a follower have the nodes after all
/// its events, and its greatest command number. A follower that then receives `lead` answers all
/// further lines as the leader would, and emits the same events.
pub fn follower_goes_on_as_the_leader<T: Key>()
    ensures held { (size w : ℕ) (lines : List (List ℕ)) (s : State T) → 2 ≤ size → size < 2 ^ 64
        → HoldsFirst T.cmp 0 [] (events_led T.cmp T.texts (fresh size) lines) (length (events_led
        T.cmp T.texts (fresh size) lines)) s → s.done ≡ done_of T.texts 0 lines
        → after_held T.cmp T.texts (held size w (role.Following s)) (codes "lead")
        ≡ held size w (role.Leading (leader_of (tree_of T.cmp T.texts (fresh size) lines) (done_of
        T.texts 0 lines))) }
    ensures answers { (v : Voice) (size w : ℕ) (lines more : List (List ℕ)) (s : State T) → 2 ≤ size
        → size < 2 ^ 64 → HoldsFirst T.cmp 0 [] (events_led T.cmp T.texts (fresh size) lines)
        (length (events_led T.cmp T.texts (fresh size) lines)) s → s.done ≡ done_of T.texts 0 lines
        → held_replies T.cmp T.texts v (held size w (role.Following s)) (codes "lead" ∷ more)
        ≡ reply_ended (reply.Next s.held.next)
        ++ held_replies T.cmp T.texts v (held size w (role.Leading (leader_of (tree_of T.cmp T.texts
        (fresh size) lines) (done_of T.texts 0 lines)))) more }
{}

/// A follower's greatest command number is one whose events it has applied.
///
/// Let a leader start without nodes and read some lines. Let a follower read any lines, with
/// losses, repeats and in any order, of which no line ends a snapshot and each `done` line is the
/// leader's. The follower's greatest command number is that of the leader after the first k of its
/// lines, for some k, and the follower has applied the events of these lines. So it is not greater
/// than the leader's.
pub fn followers_know_what_was_done<T: Key>()
    ensures known { (size : ℕ) (lines delivered : List (List ℕ)) (s : State T)
        → All (TellsDone T.cmp T.texts size lines) delivered → KnowsDone T.cmp T.texts size lines s
        → KnowsDone T.cmp T.texts size lines (state_after T.cmp T.texts s delivered) }
    ensures none { (size w : ℕ) (lines : List (List ℕ))
        → KnowsDone T.cmp T.texts size lines (start_state w) }
    ensures less { (size : ℕ) (lines : List (List ℕ)) (s : State T)
        → KnowsDone T.cmp T.texts size lines s → s.done ≤ done_of T.texts 0 lines }
{}

/// The answer to a read is the same in both roles, and a read changes nothing.
///
/// It depends only on the nodes, the next number and the greatest command number.
pub fn reads_agree<T: Key>()
    ensures follows { (v : Voice) (size w : ℕ) (s : State T) (q : Query T) → QueryFits T.texts q
        → held_reply T.cmp T.texts v (held size w (role.Following s)) (query_line T.texts q)
        ≡ query_text T.cmp T.texts s.held.nodes s.held.next s.done q }
    ensures leads { (v : Voice) (size w : ℕ) (l : Leader T) (q : Query T) → QueryFits T.texts q
        → held_reply T.cmp T.texts v (held size w (role.Leading l)) (query_line T.texts q)
        ≡ query_text T.cmp T.texts l.pairs.nodes l.pairs.next l.done q }
    ensures still { (size w : ℕ) (r : Role T) (q : Query T) → QueryFits T.texts q
        → after_held T.cmp T.texts (held size w r) (query_line T.texts q) ≡ held size w r }
{}

/// A byte 13 before a line end belongs to the line end. Any other line is unchanged.
pub fn returns_belong_to_line_ends<T: Key>()
    ensures held { (h : Held T) (line : List ℕ)
        → after_input T.cmp T.texts h (line ++ 13 ∷ []) ≡ after_held T.cmp T.texts h line }
    ensures told { (v : Voice) (h : Held T) (line : List ℕ)
        → input_reply T.cmp T.texts v h (line ++ 13 ∷ []) ≡ held_reply T.cmp T.texts v h line }
    ensures others { (line : List ℕ) → ends_with_byte 13 line ≡ false
        → without_return line ≡ line }
{}

/// A last line without a line end changes nothing, in either role.
///
/// The state after whole lines and such a line is that after the whole lines. The answer to it
/// follows those to the whole lines. There is none if it is not a read and other lines are passed
/// over.
pub fn cut_lines_change_nothing<T: Key>()
    ensures held { (size w : ℕ) (leads : Bool) (whole rest : List ℕ) → IsWhole whole → HasNoEnd rest
        → store_after T.cmp T.texts size w leads (whole ++ rest)
        ≡ store_after T.cmp T.texts size w leads whole }
    ensures all_held { (size w : ℕ) (leads : Bool) (whole : List ℕ) → IsWhole whole
        → store_after T.cmp T.texts size w leads whole
        ≡ held_after T.cmp T.texts (first_held size w leads) (map without_return (lines_of whole)) }
    ensures told { (v : Voice) (size w : ℕ) (leads : Bool) (whole rest : List ℕ) → IsWhole whole
        → HasNoEnd rest → 0 < length rest → store_text T.cmp T.texts v size w leads (whole ++ rest)
        ≡ store_text T.cmp T.texts v size w leads whole
        ++ held_cut T.cmp T.texts v (store_after T.cmp T.texts size w leads whole) rest }
    ensures silent { (v : Voice) (h : Held T) (rest : List ℕ) → v.others ≡ Others.Pass
        → query_of T.texts rest ≡ None → held_cut T.cmp T.texts v h rest ≡ [] }
{}
