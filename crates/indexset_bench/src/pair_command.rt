//! The commands to the map, and the meaning of a line.

ghost use Rattle.std.specs.Prelude.{◌≡◌, false, IfErr, IfOk, IsOk};
ghost use Rattle.indexset_bench.specs.PairCommand.{pair_meaning, word_command};

use crate::key::{Key, read_item, read_two_keys};
use indexset_lines::RunFault;
use indexset_wire::parts::cut;
use std::alloc::Global;

/// A command to the map.
#[derive(Clone, Copy, Debug, PartialEq, Eq, Drop)]
pub enum PairCommand<T> {
    /// Inserts a key and a value, or replaces the pair of that key.
    Put(T, T),
    /// Removes the pair of the key.
    Cut(T),
    /// Returns the nodes.
    Nodes,
}

/// Returns the command to the map that the line spells, or `None` if it spells none.
#[tactic(auto, unfolding(crate::specs::PairCommand::pair_meaning))]
pub fn parse_pairs<T: Key>(alloc: Global, line: &[u8]) -> Result<Option<PairCommand<T>>, RunFault>
    ensures command { IfOk result (λ command. command ≡ pair_meaning T.texts line.now) }
    ensures fault { IfErr result (λ fault. fault ≡ RunFault.Memory) }
    ensures never { T.allocates ≡ false → IsOk result }
{
    match cut(line, b' ') {
        Some((word, rest)) => parse_word(alloc, word, rest),
        None => {
            if line == b"nodes".as_slice() {
                Ok(Some(PairCommand::Nodes))
            } else {
                Ok(None)
            }
        }
    }
}

/// Returns the command that has this word and these arguments.
fn parse_word<T: Key>(
    alloc: Global,
    word: &[u8],
    rest: &[u8],
) -> Result<Option<PairCommand<T>>, RunFault>
    ensures command { IfOk result (λ command. command ≡ word_command T.texts word.now rest.now) }
    ensures fault { IfErr result (λ fault. fault ≡ RunFault.Memory) }
    ensures never { T.allocates ≡ false → IsOk result }
{
    if word == b"put".as_slice() {
        let keys = read_two_keys(alloc, rest)?;
        Ok(keys.map(|keys| PairCommand::Put(keys.0, keys.1)))
    } else if word == b"cut".as_slice() {
        let key = read_item(alloc, rest)?;
        Ok(key.map(PairCommand::Cut))
    } else {
        Ok(None)
    }
}
