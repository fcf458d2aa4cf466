//! Writes pairs in one line.

ghost use Rattle.std.specs.Prelude.{◌≡◌, List, [], ◌∷◌, OnOk, IfErr, MatchOption};
ghost use Rattle.std.specs.Io.KnownBytes.{Appends};
ghost use Rattle.indexset_core.specs.Pairs.{pair};
ghost use Rattle.indexset_core.specs.declared.pair.Pair.{Pair};
ghost use Rattle.indexset_follow.specs.Reads.{row_text};

use crate::reply::Reply;
use crate::write::write_reply;
use indexset_bench::key::Key;
use indexset_bench::pair_text::EntryText;
use indexset_lines::RunFault;
use std::io::Write;

/// An iterator over pairs.
pub trait Walk<'a, T> {
    /// The remaining pairs.
    ghost rest: { Self → List (Pair T T) };

    /// Returns the key and the value of the next pair.
    fn next_entry(&mut self) -> Option<(&'a T, &'a T)>
        ensures { MatchOption result (rest self.old ≡ [])
            (λ e. rest self.old ≡ pair e.0.now e.1.now ∷ rest self.new) };
}

/// Writes the remaining pairs in one line, or `none`.
pub fn write_row<'a, T: Key + 'a, P: Walk<'a, T> + Drop, W: Write>(
    writer: &mut W,
    pairs: P,
) -> Result<(), RunFault>
    ensures told { OnOk result (Appends (W.contents writer.old) (W.contents writer.new)
        (row_text T.texts (P.rest pairs))) }
    ensures fault { IfErr result (λ fault. fault ≡ RunFault.Write) }
{
    let mut walk = pairs;
    let mut lead = "";
    while let Some((key, value)) = walk.next_entry() {
        let shown = EntryText(key, value);
        write!(writer, "{lead}{shown}").map_err(|_| RunFault::Write)?;
        lead = " ";
    }
    if lead.is_empty() {
        write_reply(writer, Reply::Nothing)
    } else {
        writeln!(writer).map_err(|_| RunFault::Write)
    }
}
