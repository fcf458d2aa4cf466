//! The lines of a text.

ghost use Rattle.std.specs.Prelude.{◌≡◌, ◌∷◌, ◌++◌, [], IfErr, IfOk, OnOk, take};
ghost use Rattle.indexset_journal.specs.Kept.{texts};
ghost use Rattle.indexset_lines.specs.Lines.{whole_lines};
ghost use Rattle.indexset_keep.specs.Told.{inner};

use indexset_lines::RunFault;
use indexset_wire::parts::cut;
use std::alloc::Global;

/// Appends the lines of a text that have a line end.
pub fn push_text_lines(alloc: Global, lines: &mut Vec<Vec<u8>>, text: &[u8]) -> Result<(), RunFault>
    ensures lines { OnOk result
        (texts lines.new.items ≡ texts lines.old.items ++ whole_lines text.now) }
    ensures fault { IfErr result (λ fault. fault ≡ RunFault.Memory) }
{
    let mut left = text;
    while let Some((line, rest)) = cut(left, b'\n') {
        push_line(alloc, lines, line)?;
        left = rest;
    }
    Ok(())
}

/// Appends the lines of a text that have a line end, without the first and the last.
pub(crate) fn push_inner_lines(
    alloc: Global,
    lines: &mut Vec<Vec<u8>>,
    text: &[u8],
) -> Result<(), RunFault>
    ensures lines { OnOk result
        (texts lines.new.items ≡ texts lines.old.items ++ inner (whole_lines text.now)) }
    ensures fault { IfErr result (λ fault. fault ≡ RunFault.Memory) }
{
    let Some((_, behind)) = cut(text, b'\n') else {
        return Ok(());
    };
    let Some((second, behind)) = cut(behind, b'\n') else {
        return Ok(());
    };
    let mut line = second;
    let mut left = behind;
    while let Some((next, rest)) = cut(left, b'\n') {
        push_line(alloc, lines, line)?;
        line = next;
        left = rest;
    }
    Ok(())
}

/// Appends copies of the first `count` lines, or of all if there are fewer.
pub fn push_first(
    alloc: Global,
    lines: &mut Vec<Vec<u8>>,
    others: &[Vec<u8>],
    count: usize,
) -> Result<(), RunFault>
    ensures lines { OnOk result
        (texts lines.new.items ≡ texts lines.old.items ++ take count (texts others.now)) }
    ensures fault { IfErr result (λ fault. fault ≡ RunFault.Memory) }
{
    let count = count.min(others.len());
    for line in &others[..count] {
        push_line(alloc, lines, line.as_slice())?;
    }
    Ok(())
}

/// Appends a copy of a line.
pub fn push_line(alloc: Global, lines: &mut Vec<Vec<u8>>, line: &[u8]) -> Result<(), RunFault>
    ensures lines { OnOk result (texts lines.new.items ≡ texts lines.old.items ++ line.now ∷ []) }
    ensures fault { IfErr result (λ fault. fault ≡ RunFault.Memory) }
{
    let line = line.to_vec(alloc).map_err(|_| RunFault::Memory)?;
    lines.push(line).map_err(|_| RunFault::Memory)
}
