//! Theorems on the definitions of lines and replies.

ghost use Rattle.std.specs.Prelude.{◌≡◌, ◌≢◌, ◌⊎◌, ◌↔◌, ◌<◌, ◌≤◌, ◌^◌, ◌++◌, ℕ};
ghost use Rattle.std.specs.Prelude.{List, [], codes, length, map, drop, slice_get};
ghost use Rattle.std.specs.Prelude.{take, None, Option, Some, IsSomeAnd};
ghost use Rattle.std.specs.Fmt.{decimal};
ghost use Rattle.std.specs.List.{All};
ghost use Rattle.std.specs.Ordering.{nat_cmp};
ghost use Rattle.indexset_lines.specs.Lines.{lines_of};
ghost use Rattle.indexset_bench.specs.PairText.{event_text};
ghost use Rattle.indexset_bench.specs.Pairs.{PairTree, change_reply};
ghost use Rattle.indexset_bench.specs.Reply.{reply_text};
ghost use Rattle.indexset_bench.specs.declared.pair_command.PairCommand.{PairCommand};
ghost use Rattle.indexset_wire.specs.Texts.{number_texts};
ghost use Rattle.indexset_bench.specs.Text.{no_stores, stores_of};
ghost use Rattle.indexset_bench.specs.declared.reply.Reply.{Reply};
ghost use Rattle.indexset_core.specs.Nodes.{IsNodeList};
ghost use Rattle.indexset_core.specs.Pairs.{by_key};
ghost use Rattle.indexset_core.specs.declared.pair.Pair.{Pair};
ghost use Rattle.indexset_follow.specs.Drawn.{AreWithin, HoldsAhead, HoldsFirst};
ghost use Rattle.indexset_follow.specs.Drawn.{IsDrawn, IsFeedOfPairs, IsFirstMissing};
ghost use Rattle.indexset_follow.specs.Early.{copy_after};
ghost use Rattle.indexset_follow.specs.EventLine.{Event, EventFits, event_of};
ghost use Rattle.indexset_follow.specs.Copy.{Copy, copy, snapshot_text, sum_of, unsummed_text};
ghost use Rattle.indexset_follow.specs.Follow.{HoldsNear, State, after_event};
ghost use Rattle.indexset_follow.specs.Follow.{after_mark, event_reply, holding};
ghost use Rattle.indexset_follow.specs.Follow.{start_state, state_after, with_coming};
ghost use Rattle.indexset_follow.specs.Mark.{LacksEnd, MarkFits, mark_line, mark_of};
ghost use Rattle.indexset_follow.specs.NodeLine.{NodeFits, node_line, node_of};
ghost use Rattle.indexset_follow.specs.Passed.{IsPassedOver, ReplyFits};
ghost use Rattle.indexset_follow.specs.Query.{QueryFits, query_line, query_of};
ghost use Rattle.indexset_follow.specs.Told.{IsAmong, event_lines, events_of_lines, output_lines};
ghost use Rattle.indexset_follow.specs.declared.mark.Mark.{Mark};
ghost use Rattle.indexset_follow.specs.declared.reads.query.Query.{Query};
ghost use Rattle.indexset_follow.specs.declared.reply.Reply.TheVariants as reply;
ghost use Rattle.indexset_events.specs.Replay.{event_number, replay, IsNumberedFrom};
ghost use Rattle.indexset_replica.specs.Delivery.{IsSubsequence};
ghost use Rattle.indexset_replica.specs.Replica.{apply_refusal};

use indexset_bench::key::Key;

/// A line is an event if and only if it is the text of that event.
pub fn event_meaning_is_spelling<T: Key>()
    ensures spelled { (line : List ℕ) (e : Event T) → EventFits T.texts e
        → (event_of T.texts line ≡ Some e) ↔ (line ≡ event_text T.texts e) }
    ensures fits { (line : List ℕ) (e : Event T) → event_of T.texts line ≡ Some e
        → EventFits T.texts e }
{}

/// A line is a node, which has at least one pair, if and only if it is the text of that node.
pub fn node_meaning_is_spelling<T: Key>()
    ensures spelled { (line : List ℕ) (n : List (Pair T T)) → NodeFits T.texts n
        → (node_of T.texts line ≡ Some n) ↔ (line ≡ node_line T.texts n) }
    ensures fits { (line : List ℕ) (n : List (Pair T T)) → node_of T.texts line ≡ Some n
        → NodeFits T.texts n }
{}

/// A line is a read if and only if it is the text of that read.
pub fn query_meaning_is_spelling<T: Key>()
    ensures spelled { (line : List ℕ) (q : Query T) → QueryFits T.texts q
        → (query_of T.texts line ≡ Some q) ↔ (line ≡ query_line T.texts q) }
    ensures fits { (line : List ℕ) (q : Query T) → query_of T.texts line ≡ Some q
        → QueryFits T.texts q }
{}

/// A line is a mark if and only if it is the text of that mark.
///
/// Marks are the first and the last line of a snapshot, and the `done` line.
pub fn mark_meaning_is_spelling()
    ensures spelled { (line : List ℕ) (m : Mark) → MarkFits m
        → (mark_of line ≡ Some m) ↔ (line ≡ mark_line m) }
    ensures fits { (line : List ℕ) (m : Mark) → mark_of line ≡ Some m → MarkFits m }
{}

/// However events are lost, repeated or reordered, a follower has the nodes after a prefix of them.
///
/// Let the events be numbered without a gap, and let each apply to the nodes after those before it.
/// Let a follower have the nodes after the first j events, and some of those after the awaited one
/// as early events. After any lines that are texts of these events it has the nodes after the first
/// k events, for some k, and some of those after the awaited one as early events. If the texts of
/// the events from j on are among the lines in their order, k is the number of all events.
pub fn deliveries_lead_to_a_beginning<T: Key>()
    ensures beginning { (s j : ℕ) (ns : List (List (Pair T T))) (es : List (Event T)) (r : State T)
        (lines : List (List ℕ)) → IsFeedOfPairs T.cmp s ns es → All (EventFits T.texts) es
        → HoldsFirst T.cmp s ns es j r → HoldsAhead s es r → All (IsDrawn T.texts es) lines
        → (k : ℕ) × HoldsFirst T.cmp s ns es k (state_after T.cmp T.texts r lines)
        × HoldsAhead s es (state_after T.cmp T.texts r lines) }
    ensures whole { (s j : ℕ) (ns : List (List (Pair T T))) (es : List (Event T)) (r : State T)
        (lines : List (List ℕ)) → IsFeedOfPairs T.cmp s ns es → All (EventFits T.texts) es
        → HoldsFirst T.cmp s ns es j r → HoldsAhead s es r → All (IsDrawn T.texts es) lines
        → IsSubsequence (map (event_text T.texts) (drop j es)) lines
        → HoldsFirst T.cmp s ns es (length es) (state_after T.cmp T.texts r lines) }
    ensures none { (s w d : ℕ) (ns : List (List (Pair T T))) (es : List (Event T))
        → HoldsFirst T.cmp s ns es 0 (holding w (copy ns s) d)
        × HoldsAhead s es (holding w (copy ns s) d) }
{}

/// If each event comes within the window, no event that comes is lost.
///
/// Let a follower have the nodes after the first j events, and no early events. Let each event be
/// ahead of the awaited one by at most the window when its line comes. After the lines, in any
/// order, it has the nodes after the first k events, where k is the first from j on that never
/// came.
pub fn nothing_within_the_window_is_lost<T: Key>()
    ensures first { (s j : ℕ) (ns : List (List (Pair T T))) (es : List (Event T)) (r : State T)
        (lines : List (List ℕ)) → IsFeedOfPairs T.cmp s ns es → All (EventFits T.texts) es
        → HoldsFirst T.cmp s ns es j r → r.early ≡ [] → All (IsDrawn T.texts es) lines
        → AreWithin T.cmp T.texts r lines → (k : ℕ)
        × HoldsFirst T.cmp s ns es k (state_after T.cmp T.texts r lines)
        × IsFirstMissing T.texts es j lines k }
    ensures all { (s j : ℕ) (ns : List (List (Pair T T))) (es : List (Event T)) (r : State T) (lines
        : List (List ℕ)) → IsFeedOfPairs T.cmp s ns es → All (EventFits T.texts) es
        → HoldsFirst T.cmp s ns es j r → r.early ≡ [] → All (IsDrawn T.texts es) lines
        → AreWithin T.cmp T.texts r lines → ((p : ℕ) (e : Event T) → j ≤ p → slice_get es p ≡ Some e
        → IsAmong lines (event_text T.texts e))
        → HoldsFirst T.cmp s ns es (length es) (state_after T.cmp T.texts r lines) }
{}

/// Early events are ahead of the awaited one by at most the window.
///
/// So they are at most as many as the window, after any lines.
pub fn early_events_are_few<T: Key>()
    ensures near { (r : State T) (lines : List (List ℕ)) → HoldsNear r
        → HoldsNear (state_after T.cmp T.texts r lines) }
    ensures few { (r : State T) → HoldsNear r → length r.early ≤ r.window }
    ensures none { (w d : ℕ) (c : Copy T) → HoldsNear (holding w c d) }
{}

/// A follower without a window holds no early event.
///
/// The awaited event is applied or refused. Any other event changes nothing. The reply to one that
/// is ahead is `Gap` with the awaited number.
pub fn without_a_window_only_the_awaited_event_is_taken<T: Key>()
    ensures early { (r : State T) (e : Event T) → r.window ≡ 0 → r.early ≡ []
        → (after_event T.cmp r e).early ≡ [] }
    ensures held { (r : State T) (e : Event T) → r.window ≡ 0 → r.early ≡ []
        → (after_event T.cmp r e).held ≡ copy_after T.cmp r.held e }
    ensures next { (r : State T) (e : Event T) → r.window ≡ 0 → r.early ≡ []
        → event_number e ≡ r.held.next
        → apply_refusal (by_key T.cmp) r.held.nodes r.held.next e ≡ None
        → event_reply T.cmp r e ≡ reply.Next (after_event T.cmp r e).held.next }
    ensures gap { (r : State T) (e : Event T) → r.window ≡ 0 → r.held.next < event_number e
        → event_reply T.cmp r e ≡ reply.Gap r.held.next }
{}

/// A follower that reads a snapshot has the state of its source.
///
/// These are the nodes, the awaited number and the greatest command number. If the source has the
/// nodes after the first k events, so has the follower.
pub fn snapshot_gives_the_follower<T: Key>()
    ensures summed { (giver : Copy T) (d : ℕ) (taker : State T)
        → IsNodeList (by_key T.cmp) giver.nodes
        → giver.next < 2 ^ 64 → d < 2 ^ 64 → length giver.nodes < 2 ^ 64
        → All (NodeFits T.texts) giver.nodes → state_after T.cmp T.texts taker (lines_of
        (snapshot_text T.texts giver d)) ≡ holding taker.window giver d }
    ensures unsummed { (giver : Copy T) (d : ℕ) (taker : State T)
        → IsNodeList (by_key T.cmp) giver.nodes
        → giver.next < 2 ^ 64 → d < 2 ^ 64 → length giver.nodes < 2 ^ 64
        → All (NodeFits T.texts) giver.nodes → state_after T.cmp T.texts taker (lines_of
        (unsummed_text T.texts giver d)) ≡ holding taker.window giver d }
{}

/// An incomplete snapshot changes nothing.
///
/// Before its last line, lines that are not events change neither the nodes nor the awaited number.
/// A last line with another number of nodes, or with another sum, drops the snapshot.
pub fn snapshots_are_held_whole<T: Key>()
    ensures before { (s : State T) (lines : List (List ℕ)) → All (LacksEnd T.texts) lines
        → (state_after T.cmp T.texts s lines).held ≡ s.held }
    ensures wrong { (s : State T) (came : Copy T) (count : ℕ) (sum : Option ℕ)
        → s.coming ≡ Some came → (length came.nodes ≢ count)
        ⊎ IsSomeAnd sum (λ told. sum_of T.texts came s.coming_done ≢ told)
        → after_mark T.texts s (Mark.End count sum) ≡ with_coming s None 0 }
{}

/// A follower that passes over other lines accepts none of the other program's replies.
///
/// It writes nothing for a reply of the first program, for a leader's reply to a command or for the
/// last line of a leader's answer, and no such line changes it.
pub fn replies_are_passed_over<T: Key>()
    ensures first { (reply : Reply ℕ) → ReplyFits number_texts reply
        → IsPassedOver nat_cmp number_texts (reply_text number_texts reply) }
    ensures told { (t : PairTree T) (c : PairCommand T)
        → IsPassedOver T.cmp T.texts (reply_text T.texts (change_reply T.cmp t c)) }
    ensures next { (n : ℕ) → IsPassedOver T.cmp T.texts (codes "next " ++ decimal n) }
{}

/// Replaying the events of the first program gives its nodes.
///
/// The events are numbered from 0 without a gap, for any lines that it reads. Replaying them from
/// no nodes gives the nodes after these lines, and the next number is the number of events. While
/// it has at most 64 bits, so have the numbers in the events. The events of the first n lines are a
/// prefix of all.
pub fn told_events_lead_to_the_nodes()
    ensures numbered { (lines : List (List ℕ)) → IsNumberedFrom 0 (events_of_lines lines) }
    ensures replayed { (lines : List (List ℕ))
        → replay (by_key nat_cmp) [] (events_of_lines lines)
        ≡ Some (stores_of no_stores lines).pairs.nodes }
    ensures count { (lines : List (List ℕ))
        → (stores_of no_stores lines).pairs.next ≡ length (events_of_lines lines) }
    ensures fits { (lines : List (List ℕ)) → (stores_of no_stores lines).pairs.next < 2 ^ 64
        → All (EventFits number_texts) (events_of_lines lines) }
    ensures first { (lines : List (List ℕ)) (n : ℕ)
        → take (length (events_of_lines (take n lines))) (events_of_lines lines)
        ≡ events_of_lines (take n lines) }
{}

/// The lines of the first program's output that are events are the texts of its events, in order.
///
/// It reads fewer than 2^64 lines, and emits fewer than 2^64 events.
pub fn output_tells_the_events()
    ensures { (lines : List (List ℕ)) → length lines < 2 ^ 64
        → (stores_of no_stores lines).pairs.next < 2 ^ 64
        → event_lines (output_lines lines) ≡ map (event_text number_texts) (events_of_lines lines) }
{}

/// A follower of the first program has its nodes after a prefix of its events.
///
/// The first program reads fewer than 2^64 lines, and emits fewer than 2^64 events. A follower that
/// starts empty reads any lines that the first program wrote, with losses, repeats and in any
/// order. It then has the nodes after the first k events, for some k; no other line changes it. If
/// it awaits the number that the first program would use next after its first n lines, it has the
/// nodes of the first program after them. If all lines that are events came, in order or each
/// within the window, it has the nodes of the first program, and awaits its next number. So it does
/// if it read the whole output in order.
pub fn programs_agree()
    ensures beginning { (w : ℕ) (lines delivered : List (List ℕ)) → length lines < 2 ^ 64
        → (stores_of no_stores lines).pairs.next < 2 ^ 64
        → All (IsAmong (output_lines lines)) delivered → (k : ℕ)
        × HoldsFirst nat_cmp 0 [] (events_of_lines lines) k (state_after nat_cmp number_texts
        (start_state w) delivered) }
    ensures same { (w : ℕ) (lines delivered : List (List ℕ)) → length lines < 2 ^ 64
        → (stores_of no_stores lines).pairs.next < 2 ^ 64
        → All (IsAmong (output_lines lines)) delivered
        → (n : ℕ) → (state_after nat_cmp number_texts (start_state w) delivered).held.next
        ≡ (stores_of no_stores (take n lines)).pairs.next
        → (state_after nat_cmp number_texts (start_state w) delivered).held.nodes
        ≡ (stores_of no_stores (take n lines)).pairs.nodes }
    ensures whole { (w : ℕ) (lines delivered : List (List ℕ)) → length lines < 2 ^ 64
        → (stores_of no_stores lines).pairs.next < 2 ^ 64
        → All (IsAmong (output_lines lines)) delivered
        → IsSubsequence (event_lines (output_lines lines)) (event_lines delivered)
        → (state_after nat_cmp number_texts (start_state w) delivered).held
        ≡ copy (stores_of no_stores lines).pairs.nodes (stores_of no_stores lines).pairs.next }
    ensures within { (w : ℕ) (lines delivered : List (List ℕ)) → length lines < 2 ^ 64
        → (stores_of no_stores lines).pairs.next < 2 ^ 64
        → All (IsAmong (output_lines lines)) delivered
        → AreWithin nat_cmp number_texts (start_state w) delivered
        → All (IsAmong delivered) (event_lines (output_lines lines))
        → (state_after nat_cmp number_texts (start_state w) delivered).held
        ≡ copy (stores_of no_stores lines).pairs.nodes (stores_of no_stores lines).pairs.next }
    ensures piped { (w : ℕ) (lines : List (List ℕ)) → length lines < 2 ^ 64
        → (stores_of no_stores lines).pairs.next < 2 ^ 64
        → (state_after nat_cmp number_texts (start_state w) (output_lines lines)).held
        ≡ copy (stores_of no_stores lines).pairs.nodes (stores_of no_stores lines).pairs.next }
{}
