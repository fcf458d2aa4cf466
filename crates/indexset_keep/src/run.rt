//! A whole run of a map that is kept.

ghost use Rattle.std.specs.Prelude.{◌≡◌, ◌≢◌, IfErr, IsTrue, OnErr, OnOk};
ghost use Rattle.indexset_follow.specs.Follow.{State, start_state, state_after};
ghost use Rattle.indexset_follow.specs.Store.{held_cut, input_reply};
ghost use Rattle.indexset_journal.specs.Kept.{texts};
ghost use Rattle.indexset_keep.specs.Keep.{AnswersAll, AnswersFrom};
ghost use Rattle.indexset_keep.specs.Keep.{AnswersSome, IsSame, Leads, MayLead};
ghost use Rattle.indexset_keep.specs.Map.{first_map};
ghost use Rattle.indexset_keep.specs.Roles.{IsSoundRole, settled};

use crate::answer::{HasLine, answer};
use crate::fault::KeepFault;
use crate::kept::Kept;
use crate::manner::Manner;
use crate::restore::{begin, follow, is_settled};
use indexset_bench::key::Key;
use indexset_follow::role::Role;
use indexset_follow::store::Store as Map;
use indexset_lines::RunFault;
use sqlite_trees::store::Store;
use std::alloc::Global;
use std::io::{BufRead, Write};

/// Restores the map of these kept lines, and answers each line of the reader.
///
/// A snapshot first replaces the kept lines if they are many or end within a snapshot.
///
/// # Errors
///
/// The first fault, which ends the run. After a crash, replaying what is kept gives the state after
/// the lines whose answers were written, or after further ones.
pub fn run<T: Key, S: Store, R: BufRead + HasLine, W: Write>(
    alloc: Global,
    manner: Manner,
    kept: &mut Kept<S>,
    lines: &[Vec<u8>],
    reader: &mut R,
    writer: &mut W,
) -> Result<(), KeepFault>
    // All was read and answered, and replaying what is kept gives the state.
    ensures all { OnOk result (AnswersAll T.cmp T.texts (input_reply T.cmp T.texts manner.voice)
        (held_cut T.cmp T.texts manner.voice) (first_map T.cmp T.texts manner (texts lines.now))
        S.view S.recovers kept.old.journal kept.new.journal (R.remaining reader.old) (R.remaining
        reader.new) (W.contents writer.old) (W.contents writer.new) (state_after T.cmp T.texts
        (start_state 0) (texts lines.now))) }

    // After a crash, replaying what is kept gives the state after the lines whose answers were
    // written, or after further ones. After `Write` it is not specified what was written.
    ensures some { IfErr result (λ fault. AnswersSome T.cmp T.texts (input_reply T.cmp T.texts
        manner.voice) (held_cut T.cmp T.texts manner.voice) (first_map T.cmp T.texts manner (texts
        lines.now)) S.view S.recovers kept.old.journal kept.new.journal (R.remaining reader.old)
        (R.remaining reader.new) (W.contents writer.old) (W.contents writer.new) (state_after T.cmp
        T.texts (start_state 0) (texts lines.now)) (fault ≢ KeepFault.Run RunFault.Write)) }
{
    // For the proof: the bounds of the node size.
    let _size = manner.node_size();
    let follower = follow::<T>(alloc, lines)?;
    let is_whole = is_settled(&follower);
    let role = begin(alloc, follower, manner.size, manner.window, manner.leads)?;
    shorten(alloc, kept, &role, is_whole)?;
    let mut map = Map::in_role(alloc, manner.voice, manner.size, manner.window, role);
    answer(kept, &mut map, reader, writer)
}

/// Opens the journal of a store, and does `run` with its lines.
pub fn run_over<T: Key, S: Store + Drop, R: BufRead + HasLine, W: Write>(
    alloc: Global,
    manner: Manner,
    store: S,
    reader: &mut R,
    writer: &mut W,
) -> Result<(), KeepFault>
    ensures { OnOk result (AnswersFrom T.cmp T.texts (input_reply T.cmp T.texts manner.voice)
        (held_cut T.cmp T.texts manner.voice) (first_map T.cmp T.texts manner)
        (R.remaining reader.old) (R.remaining reader.new)
        (W.contents writer.old) (W.contents writer.new)) }
{
    let (mut kept, lines) = Kept::open(alloc, store)?;
    run::<T, S, R, W>(alloc, manner, &mut kept, lines.as_slice(), reader, writer)
}

/// Replaces the kept lines by a snapshot if they are many, or end within a snapshot.
fn shorten<T: Key, S: Store>(
    alloc: Global,
    kept: &mut Kept<S>,
    role: &Role<T>,
    is_whole: bool,
) -> Result<(), KeepFault>
    ensures leads { OnOk result (IsSoundRole T.cmp T.texts role.now → (from : State T)
        → (IsTrue is_whole → from ≡ settled role.now)
        → Leads T.cmp T.texts S.view S.recovers kept.old.journal kept.new.journal from (settled
        role.now)) }
    ensures failed { OnErr result (IsSoundRole T.cmp T.texts role.now → (from : State T)
        → IsSame from (settled role.now) → MayLead T.cmp T.texts S.view S.recovers kept.old.journal
        kept.new.journal from (settled role.now) (settled role.now)) }
{
    if !is_whole || kept.is_long(role) {
        kept.compact(alloc, role)?;
    }
    Ok(())
}
