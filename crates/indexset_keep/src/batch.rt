//! Executed lines that wait for the next commit.

ghost use Rattle.std.specs.Prelude.{◌≡◌, ◌≢◌, ◌↔◌, ◌++◌, ◌<◌, ◌≤◌, ◌^◌, []};
ghost use Rattle.std.specs.Prelude.{length, Err, IfErr, IsTrue, None, OnErr, OnOk};
ghost use Rattle.std.specs.Io.KnownBytes.{Appends, Keeps};
ghost use Rattle.indexset_follow.specs.Follow.{State, state_after};
ghost use Rattle.indexset_follow.specs.Query.{query_of};
ghost use Rattle.indexset_follow.specs.Store.{after_input, held_cut, input_reply, without_return};
ghost use Rattle.indexset_journal.specs.Kept.{texts};
ghost use Rattle.indexset_keep.specs.Keep.{Leads, MayLead};
ghost use Rattle.indexset_keep.specs.Map.{map_held};
ghost use Rattle.indexset_keep.specs.Roles.{IsSoundMap, IsSoundRole, copy_held, settled};
ghost use Rattle.indexset_keep.specs.Tells.{lines_told};
ghost use Rattle.indexset_keep.specs.Told.{inner_kept, kept_by};

use crate::fault::KeepFault;
use crate::followed::{Tells, followed};
use crate::kept::Kept;
use crate::role::next_number;
use crate::text::push_inner_lines;
use indexset_bench::key::Key;
use indexset_follow::reads::query::read_query;
use indexset_follow::role::Role;
use indexset_follow::store::{Store as Map, without_return};
use indexset_lines::RunFault;
use indexset_lines::run::Answers;
use sqlite_trees::store::Store;
use std::alloc::Global;
use std::io::Write;

/// The number of pending lines at which a commit is made.
const MOST: usize = 4_096;

/// The answers to executed lines, and what is to be kept of these lines.
#[derive(Drop)]
pub struct Batch {
    /// The answers.
    pub answers: Vec<u8>,
    /// The lines to be kept.
    pub told: Vec<Vec<u8>>,
}

impl Batch {
    /// Returns an empty batch.
    pub fn new(alloc: Global) -> Batch
        ensures answers { result.answers.items ≡ [] }
        ensures told { texts result.told.items ≡ [] }
    {
        Batch {
            answers: Vec::new(alloc),
            told: Vec::new(alloc),
        }
    }

    /// Returns whether the batch has as many lines as a commit keeps.
    pub fn is_full(&self) -> bool
        ensures { IsTrue result ↔ 4096 ≤ length self.now.told.items }
    {
        self.told.len() >= MOST
    }

    /// Executes a line, and adds its answer and what is to be kept of it.
    pub fn answer<T: Key>(&mut self, map: &mut Map<T>, line: &[u8]) -> Result<(), RunFault>
        ensures map { OnOk result (map_held map.new
            ≡ after_input T.cmp T.texts (map_held map.old) line.now) }
        ensures alike { OnOk result (input_reply T.cmp T.texts map.new.voice
            ≡ input_reply T.cmp T.texts map.old.voice) }
        ensures cut_alike { OnOk result (held_cut T.cmp T.texts map.new.voice
            ≡ held_cut T.cmp T.texts map.old.voice) }
        ensures answers { OnOk result (self.new.answers.items ≡ self.old.answers.items
            ++ input_reply T.cmp T.texts map.old.voice (map_held map.old) line.now) }
        ensures told { OnOk result (IsSoundMap T.cmp T.texts (map_held map.old)
            → texts self.new.told.items ≡ texts self.old.told.items
            ++ kept_by T.cmp T.texts (input_reply T.cmp T.texts map.old.voice) (map_held map.old)
            line.now) }
        ensures next { OnOk result ((copy_held map.new.role).next < 2 ^ 64) }
    {
        let kept = match &map.role {
            Role::Leading(_) => None,
            Role::Following(follower) => {
                Some(followed(map.alloc, follower, without_return(line))?)
            }
        };
        match kept {
            None => self.answer_leading(map, line)?,
            Some(kept) => self.answer_following(map, line, kept)?,
        }
        let _next = next_number(&map.role);
        Ok(())
    }

    /// Executes a line of a leader. Of the answer to a read nothing is kept. Of another answer the
    /// lines between the reply and the next number are kept: events and the `done` line.
    fn answer_leading<T: Key>(&mut self, map: &mut Map<T>, line: &[u8]) -> Result<(), RunFault>
        ensures map { OnOk result (map_held map.new
            ≡ after_input T.cmp T.texts (map_held map.old) line.now) }
        ensures alike { OnOk result (input_reply T.cmp T.texts map.new.voice
            ≡ input_reply T.cmp T.texts map.old.voice) }
        ensures cut_alike { OnOk result (held_cut T.cmp T.texts map.new.voice
            ≡ held_cut T.cmp T.texts map.old.voice) }
        ensures answers { OnOk result (self.new.answers.items ≡ self.old.answers.items
            ++ input_reply T.cmp T.texts map.old.voice (map_held map.old) line.now) }
        ensures told { OnOk result (texts self.new.told.items ≡ texts self.old.told.items
            ++ inner_kept T.texts (without_return line.now)
            (input_reply T.cmp T.texts map.old.voice (map_held map.old) line.now)) }
    {
        let from = self.answers.len();
        map.answer(&mut self.answers, line)?;
        if read_query::<T>(map.alloc, without_return(line))?.is_none() {
            push_inner_lines(map.alloc, &mut self.told, &self.answers[from..])?;
        }
        Ok(())
    }

    /// Executes a line of a follower, of which this is kept.
    fn answer_following<T: Key>(
        &mut self,
        map: &mut Map<T>,
        line: &[u8],
        kept: Tells,
    ) -> Result<(), RunFault>
        ensures map { OnOk result (map_held map.new
            ≡ after_input T.cmp T.texts (map_held map.old) line.now) }
        ensures alike { OnOk result (input_reply T.cmp T.texts map.new.voice
            ≡ input_reply T.cmp T.texts map.old.voice) }
        ensures cut_alike { OnOk result (held_cut T.cmp T.texts map.new.voice
            ≡ held_cut T.cmp T.texts map.old.voice) }
        ensures answers { OnOk result (self.new.answers.items ≡ self.old.answers.items
            ++ input_reply T.cmp T.texts map.old.voice (map_held map.old) line.now) }
        ensures told { OnOk result (texts self.new.told.items ≡ texts self.old.told.items
            ++ lines_told T.texts kept (without_return line.now) (copy_held map.old.role).next
            map.new.role) }
    {
        let next = next_number(&map.role);
        map.answer(&mut self.answers, line)?;
        let bare = without_return(line);
        kept.push(map.alloc, &mut self.told, bare, next, &map.role)
    }

    /// Keeps the pending lines with one commit, and compacts the journal if asked to or if it is
    /// long.
    fn keep<T: Key, S: Store>(
        &mut self,
        kept: &mut Kept<S>,
        map: &Map<T>,
        is_asked: bool,
    ) -> Result<(), KeepFault>
        ensures leads { OnOk result ((from : State T)
            → state_after T.cmp T.texts from (texts self.old.told.items) ≡ settled map.now.role
            → IsSoundRole T.cmp T.texts map.now.role
            → Leads T.cmp T.texts S.view S.recovers kept.old.journal kept.new.journal from
            (settled map.now.role)) }
        ensures failed { OnErr result ((from : State T)
            → state_after T.cmp T.texts from (texts self.old.told.items) ≡ settled map.now.role
            → IsSoundRole T.cmp T.texts map.now.role
            → MayLead T.cmp T.texts S.view S.recovers kept.old.journal kept.new.journal from from
            (settled map.now.role)) }
        ensures emptied { OnOk result (texts self.new.told.items ≡ []) }
        ensures answers { self.new.answers.items ≡ self.old.answers.items }
        ensures no_write { result ≢ Err (KeepFault.Run RunFault.Write) }
    {
        kept.append::<T>(map.alloc, &mut self.told)?;
        if is_asked || kept.is_long(&map.role) {
            kept.compact(map.alloc, &map.role)?;
        }
        Ok(())
    }

    /// Writes the answers, and flushes the writer.
    fn write<W: Write>(&mut self, writer: &mut W) -> Result<(), RunFault>
        ensures written { OnOk result (Appends (W.contents writer.old) (W.contents writer.new)
            self.old.answers.items) }
        ensures fault { IfErr result (λ fault. fault ≡ RunFault.Write) }
        ensures emptied { OnOk result (self.new.answers.items ≡ []) }
        ensures told { texts self.new.told.items ≡ texts self.old.told.items }
    {
        if !self.answers.is_empty() {
            writer
                .write_all(self.answers.as_slice())
                .map_err(|_| RunFault::Write)?;
            writer.flush().map_err(|_| RunFault::Write)?;
            self.answers.clear();
        }
        Ok(())
    }

    /// Keeps the pending lines, and then writes the answers. If that fails, no answer is written.
    pub fn put<T: Key, S: Store, W: Write>(
        &mut self,
        kept: &mut Kept<S>,
        map: &Map<T>,
        is_asked: bool,
        writer: &mut W,
    ) -> Result<(), KeepFault>
        ensures leads { OnOk result ((from : State T)
            → state_after T.cmp T.texts from (texts self.old.told.items) ≡ settled map.now.role
            → IsSoundRole T.cmp T.texts map.now.role
            → Leads T.cmp T.texts S.view S.recovers kept.old.journal kept.new.journal from
            (settled map.now.role)) }
        ensures written { OnOk result (Appends (W.contents writer.old) (W.contents writer.new)
            self.old.answers.items) }
        ensures emptied { OnOk result (self.new.answers.items ≡ []) }
        ensures none_told { OnOk result (texts self.new.told.items ≡ []) }
        ensures keep_failed { IfErr result (λ fault. fault ≢ KeepFault.Run RunFault.Write
            → ((from : State T)
            → state_after T.cmp T.texts from (texts self.old.told.items) ≡ settled map.now.role
            → IsSoundRole T.cmp T.texts map.now.role
            → MayLead T.cmp T.texts S.view S.recovers kept.old.journal kept.new.journal from from
            (settled map.now.role))
            × Keeps (W.contents writer.old) (W.contents writer.new)) }
        ensures write_failed { result ≡ Err (KeepFault.Run RunFault.Write) → (from : State T)
            → state_after T.cmp T.texts from (texts self.old.told.items) ≡ settled map.now.role
            → IsSoundRole T.cmp T.texts map.now.role
            → Leads T.cmp T.texts S.view S.recovers kept.old.journal kept.new.journal from
            (settled map.now.role) }
    {
        self.keep(kept, map, is_asked)?;
        self.write(writer)?;
        Ok(())
    }
}
