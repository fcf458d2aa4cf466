//! Commands with command numbers.

ghost use Rattle.std.specs.Prelude.{◌≡◌, IfErr, IfOk};
ghost use Rattle.indexset_follow.specs.Echo.{change_of, command_of, done_by, echo_of, echoed_of};

use crate::reads::query::read_query;
use indexset_bench::key::Key;
use indexset_bench::pair_command::{PairCommand, parse_pairs};
use indexset_lines::RunFault;
use indexset_wire::number::read_number;
use indexset_wire::parts::cut;
use std::alloc::Global;

/// A command, and its command number.
#[derive(Debug, PartialEq, Eq, Drop)]
pub struct Command<T> {
    /// The command number, if it has one.
    pub echo: Option<u64>,
    /// The command to the map.
    pub change: PairCommand<T>,
}

impl<T> Command<T> {
    /// Returns the greatest command number after this command, where `done` is that before it.
    pub fn done(&self, done: u64) -> u64
        ensures { result ≡ done_by done self.now }
    {
        match self.echo {
            Some(number) => done.max(number),
            None => done,
        }
    }
}

/// Returns the command of a line, with or without a command number.
pub fn read_command<T: Key>(alloc: Global, line: &[u8]) -> Result<Option<Command<T>>, RunFault>
    ensures command { IfOk result (λ command. command ≡ command_of T.texts line.now) }
    ensures fault { IfErr result (λ fault. fault ≡ RunFault.Memory) }
{
    match parse_pairs(alloc, line)? {
        Some(change) => Ok(Some(Command { echo: None, change })),
        None => read_echoed(alloc, line),
    }
}

/// Returns the command of a line that begins with a command number and a space.
fn read_echoed<T: Key>(alloc: Global, line: &[u8]) -> Result<Option<Command<T>>, RunFault>
    ensures command { IfOk result (λ command. command ≡ echoed_of T.texts line.now) }
    ensures fault { IfErr result (λ fault. fault ≡ RunFault.Memory) }
{
    let Some((word, rest)) = cut(line, b' ') else {
        return Ok(None);
    };
    let Some(number) = read_echo(word) else {
        return Ok(None);
    };
    let Some(change) = read_change(alloc, rest)? else {
        return Ok(None);
    };
    Ok(Some(Command {
        echo: Some(number),
        change,
    }))
}

/// Returns the command number of a word, `#` and digits.
fn read_echo(word: &[u8]) -> Option<u64>
    ensures { result ≡ echo_of word.now }
{
    match word.split_first() {
        Some((&b'#', digits)) => read_number(digits),
        _ => None,
    }
}

/// Returns the command of a text that is not a read.
fn read_change<T: Key>(alloc: Global, text: &[u8]) -> Result<Option<PairCommand<T>>, RunFault>
    ensures command { IfOk result (λ command. command ≡ change_of T.texts text.now) }
    ensures fault { IfErr result (λ fault. fault ≡ RunFault.Memory) }
{
    match read_query::<T>(alloc, text)? {
        Some(_) => Ok(None),
        None => parse_pairs(alloc, text),
    }
}
