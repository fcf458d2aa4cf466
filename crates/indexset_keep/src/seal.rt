//! Seals: checksums that detect damage to kept lines.

ghost use Rattle.std.specs.Prelude.{◌≡◌, ◌⊎◌, Err, IfErr, IfOk, None, Some};
ghost use Rattle.indexset_journal.specs.Kept.{texts};
ghost use Rattle.indexset_keep.specs.Seal.{last_seal, seal_line, seal_of, seal_read};

use indexset_journal::JournalError;
use indexset_lines::RunFault;
use indexset_wire::number::read_number;
use indexset_wire::parts::cut;
use std::alloc::Global;
use std::hash::{DefaultHasher, Hasher};
use std::io::Write;

/// The minimum number of bytes that are hashed at once.
const TOGETHER: usize = 65_536;

/// Returns the seal of lines that follow another seal.
///
/// It is the SipHash-1-3 of that seal and these lines, with both keys 0.
pub fn seal_of(alloc: Global, seal: u64, lines: &[Vec<u8>]) -> Result<u64, RunFault>
    ensures seal { IfOk result (λ sealed. sealed ≡ seal_of seal (texts lines.now)) }
    ensures fault { IfErr result (λ fault. fault ≡ RunFault.Memory) }
{
    let mut hasher = DefaultHasher::new();
    let mut text = seal_line(alloc, seal)?;
    text.push(b'\n').map_err(|_| RunFault::Memory)?;
    for line in lines {
        text.extend_from_slice(line.as_slice())
            .map_err(|_| RunFault::Memory)?;
        text.push(b'\n').map_err(|_| RunFault::Memory)?;
        if text.len() >= TOGETHER {
            hasher.write(text.as_slice());
            text.clear();
        }
    }
    hasher.write(text.as_slice());
    Ok(hasher.finish())
}

/// Returns the line of a seal.
pub fn seal_line(alloc: Global, seal: u64) -> Result<Vec<u8>, RunFault>
    ensures line { IfOk result (λ line. line.items ≡ seal_line seal) }
    ensures fault { IfErr result (λ fault. fault ≡ RunFault.Memory) }
{
    let mut line = Vec::new(alloc);
    write!(line, "seal {seal}").map_err(|_| RunFault::Memory)?;
    Ok(line)
}

/// Returns the seal of a seal line, or `None` for another line.
pub(crate) fn read_seal(line: &[u8]) -> Option<u64>
    ensures { result ≡ seal_read line.now }
{
    let (word, digits) = cut(line, b' ')?;
    if word == b"seal".as_slice() {
        read_number(digits)
    } else {
        None
    }
}

/// Returns the last seal of lines.
///
/// # Errors
///
/// `Damaged` if a seal is not that of the lines before it, or the last lines have no seal.
pub fn last_seal(alloc: Global, lines: &[Vec<u8>]) -> Result<u64, JournalError>
    ensures seal { IfOk result (λ seal. last_seal (texts lines.now) ≡ Some seal) }
    ensures damaged { result ≡ Err JournalError.Damaged → last_seal (texts lines.now) ≡ None }
    ensures cause { IfErr result (λ error. (error ≡ JournalError.Damaged)
        ⊎ (error ≡ JournalError.OutOfMemory)) }
{
    let mut seal = 0;
    let mut from = 0;
    for i in 0..lines.len() {
        if let Some(found) = read_seal(lines[i].as_slice()) {
            let Ok(own) = seal_of(alloc, seal, &lines[from..i]) else {
                return Err(JournalError::OutOfMemory);
            };
            if own != found {
                return Err(JournalError::Damaged);
            }
            seal = found;
            from = i + 1;
        }
    }
    if from == lines.len() {
        Ok(seal)
    } else {
        Err(JournalError::Damaged)
    }
}
