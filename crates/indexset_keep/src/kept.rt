//! The kept lines of a map.

ghost use Rattle.std.specs.Prelude.{◌≡◌, ◌≢◌, ◌∷◌, ◌++◌, if◌then◌else◌, []};
ghost use Rattle.std.specs.Prelude.{Err, IfErr, IfOk, OnErr, OnOk, Some};
ghost use Rattle.sqlite_trees.specs.View.{IsClean};
ghost use Rattle.indexset_follow.specs.Follow.{State, state_after};
ghost use Rattle.indexset_events.specs.Nodes.{is_filled};
ghost use Rattle.indexset_journal.specs.Kept.{lines_in, texts};
ghost use Rattle.indexset_keep.specs.Keep.{IsSame, Leads, MayLead, is_long};
ghost use Rattle.indexset_keep.specs.Roles.{IsSoundRole, copy_held, settled, snapshot_of};
ghost use Rattle.indexset_keep.specs.Seal.{last_seal, seal_line, seal_of};

use crate::fault::KeepFault;
use crate::role::{node_count, pair_count, push_snapshot};
use crate::seal::{last_seal, seal_line, seal_of};
use indexset_bench::key::Key;
use indexset_follow::role::Role;
use indexset_journal::{Journal, JournalError};
use indexset_lines::RunFault;
use sqlite_trees::store::Store;
use std::alloc::Global;

/// A journal of at most this many lines is not compacted for its lines per pair.
const FEW: usize = 4_096;

/// The number of lines for each pair above which a journal is compacted.
const LINES_A_PAIR: usize = 10;

/// The number of events that a start reads in some seconds.
const MANY: usize = 1_500_000;

/// The number of snapshot pairs that are read in the time of an event.
const PAIRS_AN_EVENT: usize = 10;

/// A journal with at most one event for this many pairs is not compacted for its events.
const PAIRS_A_LINE: usize = 20;

/// A journal of lines that give the state of a map when a follower reads them.
#[derive(Drop)]
pub struct Kept<S: Store> {
    /// The journal.
    pub journal: Journal<S>,
    /// How many lines it has.
    pub lines: usize,
    /// The last seal among them.
    pub seal: u64,
}

impl<S: Store + Drop> Kept<S> {
    /// Opens the journal of a store, and returns it with its lines.
    ///
    /// An open transaction of the store is rolled back.
    ///
    /// # Errors
    ///
    /// `Damaged` if a seal is not that of the lines before it, and the errors of `Journal::open`.
    pub fn open(alloc: Global, store: S) -> Result<(Self, Vec<Vec<u8>>), JournalError>
        ensures lines { IfOk result (λ it. IsClean (S.view it.0.journal)
            → lines_in (S.view it.0.journal).committed ≡ texts it.1.items) }
        ensures seal { IfOk result (λ it. last_seal (texts it.1.items) ≡ Some it.0.seal) }
    {
        let (journal, lines) = match Journal::open(alloc, store) {
            Ok(opened) => opened,
            Err((error, _store)) => return Err(error),
        };
        let seal = last_seal(alloc, lines.as_slice())?;
        let count = lines.len();
        let kept = Kept {
            journal,
            lines: count,
            seal,
        };
        Ok((kept, lines))
    }
}

impl<S: Store> Kept<S> {
    /// Returns whether the journal is to be compacted.
    ///
    /// It is if it has more than 4,096 lines and more than ten for each pair. It is also if its
    /// events, the lines without one for each node, are more than one for twenty pairs and, with
    /// one for ten pairs, more than 1,500,000.
    pub fn is_long<T: Key>(&self, role: &Role<T>) -> bool
        ensures { result ≡ is_long self.now.lines (copy_held role.now).nodes }
    {
        let pairs = pair_count(role);
        let events = self.lines.saturating_sub(node_count(role));
        self.lines > FEW && self.lines / LINES_A_PAIR > pairs
            || events > pairs / PAIRS_A_LINE && events.saturating_add(pairs / PAIRS_AN_EVENT) > MANY
    }

    /// Appends lines and their seal with one commit, and empties the list. No lines need no commit.
    ///
    /// # Errors
    ///
    /// A crash leaves all of the new lines or none.
    pub fn append<T: Key>(
        &mut self,
        alloc: Global,
        told: &mut Vec<Vec<u8>>,
    ) -> Result<(), KeepFault>
        ensures leads { OnOk result ((from to : State T)
            → state_after T.cmp T.texts from (texts told.old.items) ≡ to
            → Leads T.cmp T.texts S.view S.recovers self.old.journal self.new.journal from to) }
        ensures failed { OnErr result ((from to : State T)
            → state_after T.cmp T.texts from (texts told.old.items) ≡ to
            → MayLead T.cmp T.texts S.view S.recovers self.old.journal self.new.journal from from
            to) }
        ensures emptied { OnOk result (texts told.new.items ≡ []) }
        ensures no_write { result ≢ Err (KeepFault.Run RunFault.Write) }
        ensures seal { OnOk result (self.new.seal ≡ (if is_filled (texts told.old.items)
            then seal_of self.old.seal (texts told.old.items) else self.old.seal)) }
    {
        if told.is_empty() {
            return Ok(());
        }
        let seal = push_seal(alloc, self.seal, told)?;
        self.journal.append(told.as_slice())?;
        self.seal = seal;
        self.lines = self.lines.saturating_add(told.len());
        told.clear();
        Ok(())
    }

    /// Replaces the lines by those of a snapshot and their seal, with one commit.
    ///
    /// A crash during the call leaves the old lines, or the snapshot.
    pub fn compact<T: Key>(&mut self, alloc: Global, role: &Role<T>) -> Result<(), KeepFault>
        ensures leads { OnOk result (IsSoundRole T.cmp T.texts role.now → (from : State T)
            → Leads T.cmp T.texts S.view S.recovers self.old.journal self.new.journal from (settled
            role.now)) }
        ensures failed { OnErr result (IsSoundRole T.cmp T.texts role.now → (from : State T)
            → IsSame from (settled role.now) → MayLead T.cmp T.texts S.view S.recovers
            self.old.journal self.new.journal from (settled role.now) (settled role.now)) }
        ensures no_write { result ≢ Err (KeepFault.Run RunFault.Write) }
        ensures seal { OnOk result (self.new.seal ≡ seal_of 0 (snapshot_of T.texts role.now)) }
    {
        // For the proof: the number of nodes has at most 64 bits.
        let _nodes = node_count(role);
        let mut lines = Vec::new(alloc);
        push_snapshot(alloc, &mut lines, role)?;
        let seal = push_seal(alloc, 0, &mut lines)?;
        self.journal.replace(lines.as_slice())?;
        self.seal = seal;
        self.lines = lines.len();
        Ok(())
    }
}

/// Appends the seal line of lines that follow another seal, and returns the seal.
fn push_seal(alloc: Global, seal: u64, lines: &mut Vec<Vec<u8>>) -> Result<u64, RunFault>
    ensures lines { IfOk result (λ sealed. (sealed ≡ seal_of seal (texts lines.old.items))
        × (texts lines.new.items ≡ texts lines.old.items ++ seal_line sealed ∷ [])) }
    ensures fault { IfErr result (λ fault. fault ≡ RunFault.Memory) }
{
    let seal = seal_of(alloc, seal, lines.as_slice())?;
    let line = seal_line(alloc, seal)?;
    lines.push(line).map_err(|_| RunFault::Memory)?;
    Ok(seal)
}
