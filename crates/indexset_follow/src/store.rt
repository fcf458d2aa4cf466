//! A map in either role.

ghost use Rattle.std.specs.Prelude.{◌≡◌, ◌≢◌, ◌≤◌, if◌then◌else◌, Err};
ghost use Rattle.std.specs.Prelude.{IfOk, IfErr, None, OnOk, Some};
ghost use Rattle.std.specs.Io.KnownBytes.{Appends, Keeps};
ghost use Rattle.indexset_follow.specs.Follow.{holding};
ghost use Rattle.indexset_follow.specs.Store.{after_follow, after_in_role, after_lead, begun};
ghost use Rattle.indexset_follow.specs.Store.{can_lead, cut_in_role, first_held, follow_reply};
ghost use Rattle.indexset_follow.specs.Store.{held, lead_reply, promoted, reply_in_role};
ghost use Rattle.indexset_follow.specs.Store.{role_lacks, starts, without_return};

use crate::answer::answer_line;
use crate::early::Early;
use crate::follower::Follower;
use crate::leader::Leader;
use crate::leading::answer_leading;
use crate::mark::{Mark, read_mark};
use crate::others::Voice;
use crate::reads::answer_read;
use crate::reason::Reason;
use crate::reply::Reply;
use crate::role::Role;
use crate::step_down::follower_of;
use crate::write::{Nodes, write_reply};
use indexset_bench::key::Key;
use indexset_bench::pairs::Pairs;
use indexset_core::refusal::Refusal;
use indexset_events::nodes::test_nodes;
use indexset_lines::RunFault;
use indexset_lines::run::Answers;
use std::alloc::Global;
use std::io::Write;
use std::mem;

/// A map in one of two roles, with the settings of a run.
#[derive(Drop)]
pub struct Store<T: Key> {
    /// The allocator.
    pub alloc: Global,
    /// Which replies it writes.
    pub voice: Voice,
    /// The maximum number of pairs in a node of a leader.
    pub size: usize,
    /// The window of a follower.
    pub window: u64,
    /// The map in its role.
    pub role: Role<T>,
    ghost two: { 2 ≤ size },
}

impl<T: Key> Store<T> {
    /// Returns an empty map in one of the roles, with 0 as the number of the next event.
    pub fn new(alloc: Global, voice: Voice, size: usize, window: u64, leads: bool) -> Store<T>
        requires { 2 ≤ size }
        ensures voice { result.voice ≡ voice }
        ensures held { held result.size result.window result.role ≡ first_held size window leads }
    {
        let role = if leads {
            let pairs = Pairs::with_maximum_node_size(alloc, size);
            Role::Leading(Leader { pairs, done: 0 })
        } else {
            Role::Following(holding(window, Nodes::new(alloc, 0), 0))
        };
        Store::in_role(alloc, voice, size, window, role)
    }

    /// Returns a map in this role.
    pub fn in_role(alloc: Global, voice: Voice, size: usize, window: u64, role: Role<T>) -> Store<T>
        requires { 2 ≤ size }
        ensures voice { result.voice ≡ voice }
        ensures held { held result.size result.window result.role ≡ held size window role }
    {
        Store {
            alloc,
            voice,
            size,
            window,
            role,
        }
    }

    /// Makes a follower a leader of the same nodes and the same next number, and writes the reply.
    ///
    /// Early events and an incomplete snapshot are dropped. The map stays a follower if a node is
    /// larger than `size`.
    fn lead<W: Write>(&mut self, writer: &mut W) -> Result<(), RunFault>
        ensures role { OnOk result (self.new.role ≡ after_lead T.cmp self.old.size self.old.role) }
        ensures size { self.new.size ≡ self.old.size }
        ensures window { self.new.window ≡ self.old.window }
        ensures voice { self.new.voice ≡ self.old.voice }
        ensures told { OnOk result (Appends (W.contents writer.old) (W.contents writer.new)
            (lead_reply T.cmp self.old.size self.old.role)) }
        ensures memory_refused { result ≡ Err RunFault.Memory
            → Keeps (W.contents writer.old) (W.contents writer.new) }
        ensures no_numbers { result ≢ Err RunFault.Numbers }
        ensures no_read { result ≢ Err RunFault.Read }
    {
        match &mut self.role {
            Role::Following(follower) => {
                let (next, done) = (follower.held.next(), follower.done);
                match promote(self.alloc, &mut follower.held, self.size)? {
                    Some(pairs) => {
                        self.role = Role::Leading(Leader { pairs, done });
                        write_reply(writer, Reply::Next(next))
                    }
                    None => {
                        let reason = Reason::Refused(Refusal::TooLarge);
                        write_reply(writer, Reply::Unfit(next, reason))
                    }
                }
            }
            Role::Leading(leader) => {
                write_reply(writer, Reply::Next(leader.pairs.events_issued()))
            }
        }
    }

    /// Makes a leader a follower of its own nodes that awaits its next event, and writes the reply.
    fn follow<W: Write>(&mut self, writer: &mut W) -> Result<(), RunFault>
        ensures role { OnOk result (self.new.role ≡ after_follow self.old.window self.old.role) }
        ensures size { self.new.size ≡ self.old.size }
        ensures window { self.new.window ≡ self.old.window }
        ensures voice { self.new.voice ≡ self.old.voice }
        ensures told { OnOk result (Appends (W.contents writer.old) (W.contents writer.new)
            (follow_reply self.old.role)) }
        ensures memory_refused { result ≡ Err RunFault.Memory
            → Keeps (W.contents writer.old) (W.contents writer.new) }
        ensures no_numbers { result ≢ Err RunFault.Numbers }
        ensures no_read { result ≢ Err RunFault.Read }
    {
        match &self.role {
            Role::Following(follower) => write_reply(writer, Reply::Next(follower.held.next())),
            Role::Leading(leader) => {
                let done = leader.done;
                let nodes = follower_of(self.alloc, &leader.pairs)?;
                let next = nodes.next();
                self.role = Role::Following(holding(self.window, nodes, done));
                write_reply(writer, Reply::Next(next))
            }
        }
    }

    /// Makes a leader without nodes a follower if the line starts a snapshot.
    fn begin(&mut self, line: &[u8])
        ensures role { self.new.role ≡ begun self.old.window self.old.role line.now }
        ensures size { self.new.size ≡ self.old.size }
        ensures window { self.new.window ≡ self.old.window }
        ensures voice { self.new.voice ≡ self.old.voice }
    {
        if let Role::Leading(leader) = &self.role {
            if starts(line) && leader.pairs.node_count() == 0 {
                let nodes = Nodes::new(self.alloc, leader.pairs.events_issued());
                self.role = Role::Following(holding(self.window, nodes, leader.done));
            }
        }
    }

    /// Writes the answer to a line in the current role.
    fn answer_in_role<W: Write>(&mut self, writer: &mut W, line: &[u8]) -> Result<(), RunFault>
        ensures role { OnOk result (self.new.role
            ≡ after_in_role T.cmp T.texts self.old.role line.now) }
        ensures size { self.new.size ≡ self.old.size }
        ensures window { self.new.window ≡ self.old.window }
        ensures voice { self.new.voice ≡ self.old.voice }
        ensures told { OnOk result (Appends (W.contents writer.old) (W.contents writer.new)
            (reply_in_role T.cmp T.texts self.old.voice self.old.role line.now)) }
        ensures memory_refused { result ≡ Err RunFault.Memory
            → Keeps (W.contents writer.old) (W.contents writer.new) }
        ensures numbers_refused { result ≡ Err RunFault.Numbers
            → Keeps (W.contents writer.old) (W.contents writer.new) }
        ensures no_numbers { result ≡ Err RunFault.Numbers
            → role_lacks (after_in_role T.cmp T.texts self.old.role line.now) }
        ensures no_read { result ≢ Err RunFault.Read }
    {
        match &mut self.role {
            Role::Following(follower) => {
                answer_line(self.alloc, self.voice, writer, follower, line)
            }
            Role::Leading(leader) => answer_leading(
                self.alloc,
                self.voice.others,
                writer,
                leader,
                line,
            ),
        }
    }

    /// Writes the answer to a last line without a line end, if it is a read.
    ///
    /// Any other line may be incomplete, and is answered as one that is not of the grammar.
    fn answer_rest<W: Write>(&self, writer: &mut W, line: &[u8]) -> Result<(), RunFault>
        ensures told { OnOk result (Appends (W.contents writer.old) (W.contents writer.new)
            (cut_in_role T.cmp T.texts self.now.voice self.now.role line.now)) }
        ensures memory_refused { result ≡ Err RunFault.Memory
            → Keeps (W.contents writer.old) (W.contents writer.new) }
        ensures no_read { result ≢ Err RunFault.Read }
        ensures no_numbers { result ≢ Err RunFault.Numbers }
    {
        match &self.role {
            Role::Following(follower) => {
                let others = self.voice.follower_others();
                let done = follower.done;
                answer_read(self.alloc, others, writer, &follower.held, done, line)
            }
            Role::Leading(leader) => {
                let (others, done) = (self.voice.others, leader.done);
                answer_read(self.alloc, others, writer, &leader.pairs, done, line)
            }
        }
    }
}

/// Returns a follower of these nodes with this greatest command number.
///
/// It has no early events, and no snapshot has begun.
pub fn holding<T: Key>(window: u64, held: Nodes<T>, done: u64) -> Follower<T>
    ensures { result ≡ holding window held done }
{
    Follower {
        held,
        done,
        coming: None,
        coming_done: 0,
        window,
        early: Early::new(),
    }
}

/// Returns whether the line starts a snapshot.
fn starts(line: &[u8]) -> bool
    ensures { result ≡ starts line.now }
{
    match read_mark(line) {
        Some(Mark::Start(_, _)) => true,
        _ => false,
    }
}

/// Moves the nodes into a leader with the same next number.
///
/// Returns `None`, and moves nothing, if a node has more than `size` pairs.
pub fn promote<T: Key>(
    alloc: Global,
    nodes: &mut Nodes<T>,
    size: usize,
) -> Result<Option<Pairs<T>>, RunFault>
    requires { 2 ≤ size }
    ensures leader { IfOk result (λ leader. leader
        ≡ (if can_lead T.cmp size nodes.old then Some (promoted size nodes.old) else None)) }
    ensures kept { IfOk result (λ leader. leader ≡ None → nodes.new ≡ nodes.old) }
    ensures fault { IfErr result (λ fault. fault ≡ RunFault.Memory) }
{
    if test_nodes(nodes.nodes(), size).is_err() {
        return Ok(None);
    }
    let next = nodes.next();
    let taken = mem::replace(nodes, Nodes::new(alloc, next));
    match Pairs::from_nodes(taken.into_nodes(), size, next) {
        Ok(pairs) => Ok(Some(pairs)),
        Err(_) => Err(RunFault::Memory),
    }
}

/// Returns the line without a byte 13 at its end.
pub fn without_return(line: &[u8]) -> &[u8]
    ensures { result.now ≡ without_return line.now }
{
    match line.split_last() {
        Some((&b'\r', bare)) => bare,
        _ => line,
    }
}

impl<T: Key> Answers for Store<T> {
    ghost use Rattle.indexset_follow.specs.Store.{Held, after_input, held, held_cut};
    ghost use Rattle.indexset_follow.specs.Store.{held_lacks, input_reply};

    ghost State = { Held T };

    ghost state = { λ store. held store.size store.window store.role };

    ghost reply = { λ store. input_reply T.cmp T.texts store.voice };

    ghost cut_reply = { λ store. held_cut T.cmp T.texts store.voice };

    ghost after = { after_input T.cmp T.texts };

    ghost lacks_numbers = { held_lacks };

    fn answer<W: Write>(&mut self, writer: &mut W, line: &[u8]) -> Result<(), RunFault> {
        let line = without_return(line);
        if line == b"lead".as_slice() {
            return self.lead(writer);
        }
        if line == b"follow".as_slice() {
            return self.follow(writer);
        }
        self.begin(line);
        self.answer_in_role(writer, line)
    }

    fn answer_cut<W: Write>(&mut self, writer: &mut W, line: &[u8]) -> Result<(), RunFault> {
        self.answer_rest(writer, line)
    }
}
