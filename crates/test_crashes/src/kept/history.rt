//! The lines of the tests, and the answers of a map that is not kept.

use super::runs::{SIZE, VOICE, WINDOW};
use indexset_follow::serve;
use indexset_lines::RunFault;
use std::alloc::Global;
use std::test::Fail;

/// Commands to a leader that create, split, merge and drop nodes. Two commands change no node.
pub(crate) const COMMANDS: &[u8] = b"put 5 30\n#1 put 7 1\nput 9 2\nput 11 4\nput 6 8\ncut 100\n\
#2 cut 9\nput 11 5\ncut 6\n#3 cut 50\ncompact\ncut 7\nput 12 1\n";

/// Lines to a follower: events, one of them early, one repeated and one that does not fit, a
/// snapshot, and `done` lines.
pub(crate) const EVENTS: &[u8] = b"0 create 5:30\n2 insert 7:8 9:1 2\n1 insert 5:30 7:8 1\n\
1 insert 5:30 7:8 1\ndone 4 3\n3 split 9:1 1\n4 drop 1:1\n4 merge 5:30 9:1\ncompact\nstart 40 6\nnode 2:2 3:3\n\
node 8:9\nend 2 11149498871045915152\n40 insert 3:3 1:1 0\ndone 7 41\n";

/// Lines to a follower that becomes a leader.
pub(crate) const EVENTS_THEN_COMMANDS: &[u8] = b"0 create 5:30\n1 insert 5:30 7:8 1\ndone 4 2\n\
3 split 9:1 1\n2 insert 7:8 9:1 2\nlead\nput 6 8\n#5 cut 9\ncompact\nput 8 1\n";

/// Commands to a map that is not empty.
pub(crate) const FURTHER: &[u8] = b"put 30 1\n#20 cut 5\ncompact\nput 31 3\n";

/// A map after some lines.
#[derive(Drop)]
pub(crate) struct Step {
    /// The answers to these lines.
    pub(crate) answers: Vec<u8>,
    /// Its snapshot.
    pub(crate) map: Vec<u8>,
}

/// Returns the answers of a map that is not kept.
fn answers_to(alloc: Global, leads: bool, text: &[u8]) -> Result<Vec<u8>, RunFault> {
    let mut answers = Vec::new(alloc);
    let mut reader = text;
    let written = &mut answers;
    serve::<u64, _, _>(alloc, VOICE, SIZE, WINDOW, leads, &mut reader, written)?;
    Ok(answers)
}

/// Returns how many bytes the first `lines` lines of a text have, or all if there are fewer.
fn length_of(text: &[u8], lines: usize) -> usize {
    let (mut count, mut ends) = (0usize, 0usize);
    for byte in text {
        if ends >= lines {
            break;
        }
        count = count.saturating_add(1);
        if *byte == b'\n' {
            ends = ends.saturating_add(1);
        }
    }
    count
}

/// Returns the number of lines that have a line end.
pub(crate) fn line_count(text: &[u8]) -> usize {
    text.iter().filter(|byte| **byte == b'\n').count()
}

/// Returns the text after its first `count` bytes.
fn behind(text: &[u8], count: usize) -> &[u8] {
    text.get(count..).unwrap_or(&[])
}

/// Returns the map after these lines. The lines of `before` were answered in an earlier run.
fn step_after(alloc: Global, leads: bool, before: &[u8], text: &[u8]) -> Result<Step, Fail> {
    let known = answers_to(alloc, leads, before)?;
    let mut lines = before.to_vec(alloc)?;
    lines.extend_from_slice(text)?;
    let answers = answers_to(alloc, leads, lines.as_slice())?;
    lines.extend_from_slice(b"snapshot\n")?;
    let both = answers_to(alloc, leads, lines.as_slice())?;
    Ok(Step {
        answers: behind(answers.as_slice(), known.len()).to_vec(alloc)?,
        map: behind(both.as_slice(), answers.len()).to_vec(alloc)?,
    })
}

/// Returns the maps after all lines of `before` and no line of a text, its first line, and so on.
pub(crate) fn steps_of(
    alloc: Global,
    leads: bool,
    before: &[u8],
    text: &[u8],
) -> Result<Vec<Step>, Fail> {
    let mut steps = Vec::new(alloc);
    for lines in 0..=line_count(text) {
        let part = text.get(..length_of(text, lines)).unwrap_or(text);
        steps.push(step_after(alloc, leads, before, part)?)?;
    }
    Ok(steps)
}
