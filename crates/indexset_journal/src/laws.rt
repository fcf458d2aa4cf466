//! Theorems on crashes. A crash is a disk of which each call fails from some moment on, and each
//! clause holds for every such moment.
ghost use Rattle.std.specs.Prelude.{◌≡◌, ◌⊎◌, ◌++◌, IsTrue, IfSome};
ghost use Rattle.sqlite_trees.specs.Tree.{Trees};
ghost use Rattle.sqlite_trees.specs.View.{IsClean};
ghost use Rattle.indexset_journal.specs.Kept.{texts, lines_in};

use crate::journal::Journal;
use sqlite_trees::store::Reopen;
use std::alloc::Global;

/// Crashes, opens the files again, and returns the journal with its lines.
///
/// The lines are some that the crash could leave. Returns `None` if memory runs out or the files
/// cannot be opened.
pub fn restart<S: Reopen + Drop>(
    alloc: Global,
    journal: Journal<S>,
) -> Option<(Journal<S>, Vec<Vec<u8>>)>
    ensures found { IfSome result (λ again. IsClean (S.Store.view again.0)
        → (db : Trees) × S.Store.recovers journal db × (texts again.1.items ≡ lines_in db)) }
    ensures clean { IfSome result (λ again. IsClean (S.Store.view again.0)
        → IsClean (S.Store.view journal)) }
{
    let mut store = journal.into_store();
    if store.crash_and_reopen().is_err() {
        return None;
    }
    Journal::open(alloc, store).ok()
}

/// Appends lines, crashes, opens the files again, and returns the journal with its lines.
///
/// The lines are those from before, or those and all new ones. The `bool` is whether `append`
/// returned `Ok`: then all new ones are there. Returns `None` as `restart` does.
pub fn append_and_restart<S: Reopen + Drop>(
    alloc: Global,
    mut journal: Journal<S>,
    lines: &[Vec<u8>],
) -> Option<(Journal<S>, Vec<Vec<u8>>, bool)>
    ensures whole { IfSome result (λ again. IsClean (S.Store.view again.0)
        → IsTrue (S.Store.view journal).is_open
        → (texts again.1.items ≡ lines_in (S.Store.view journal).committed)
        ⊎ (texts again.1.items ≡ lines_in (S.Store.view journal).committed ++ texts lines.now)) }
    ensures acknowledged { IfSome result (λ again. IsClean (S.Store.view again.0)
        → IsTrue again.2
        → texts again.1.items ≡ lines_in (S.Store.view journal).committed ++ texts lines.now) }
{
    let is_kept = journal.append(lines).is_ok();
    let (again, found) = restart(alloc, journal)?;
    Some((again, found, is_kept))
}

/// Replaces all lines, crashes, opens the files again, and returns the journal with its lines.
///
/// The lines are the old ones, or all new ones. The `bool` is whether `replace` returned `Ok`: then
/// they are the new ones. Returns `None` as `restart` does.
pub fn replace_and_restart<S: Reopen + Drop>(
    alloc: Global,
    mut journal: Journal<S>,
    lines: &[Vec<u8>],
) -> Option<(Journal<S>, Vec<Vec<u8>>, bool)>
    ensures whole { IfSome result (λ again. IsClean (S.Store.view again.0)
        → IsTrue (S.Store.view journal).is_open
        → (texts again.1.items ≡ lines_in (S.Store.view journal).committed)
        ⊎ (texts again.1.items ≡ texts lines.now)) }
    ensures acknowledged { IfSome result (λ again. IsClean (S.Store.view again.0)
        → IsTrue again.2 → texts again.1.items ≡ texts lines.now) }
{
    let is_kept = journal.replace(lines).is_ok();
    let (again, found) = restart(alloc, journal)?;
    Some((again, found, is_kept))
}
