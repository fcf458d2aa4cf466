//! Lists of commands as words of a script: a command is its name and its argument, such as
//! `put(1)`, `insert(1:a)` or `len`.

use crate::copy::Copy;
use crate::item::{Item, Source};
use crate::partial::Partial;
use indexset_bench::logged::Logged;
use indexset_bench::logged_run::run_logged;
use indexset_core::refusal::Refusal;
use std::str::SplitWhitespace;
use test_script::script::Stop;

/// A command of a script.
pub trait Command: Drop {
    /// Returns the command of a name and these words.
    fn of_name(source: &Source, name: &str, words: &mut SplitWhitespace<'_>) -> Result<Self, Stop>;
}

/// A reply of a script.
pub trait Reply: Drop {
    /// Writes the reply.
    fn tell_reply(self, answer: &mut String) -> Result<(), Stop>;
}

/// Returns the command of a word.
fn command_of<C: Command>(source: &Source, word: &str) -> Result<C, Stop> {
    let (name, rest) = word.split_once('(').unwrap_or((word, ""));
    let text = rest.strip_suffix(')').unwrap_or(rest);
    C::of_name(source, name, &mut text.split_whitespace())
}

/// Returns the commands of the remaining words.
pub fn read_commands<C: Command>(
    source: &Source,
    words: &mut SplitWhitespace<'_>,
) -> Result<Vec<C>, Stop> {
    let mut commands = Vec::new(source.alloc);
    for word in words {
        commands.push(command_of(source, word)?)?;
    }
    Ok(commands)
}

/// Returns the command at a place among those of the words, if there is one.
pub fn read_command<C: Command>(
    source: &Source,
    words: &mut SplitWhitespace<'_>,
    place: usize,
) -> Result<Vec<C>, Stop> {
    let mut commands = Vec::new(source.alloc);
    skip_words(words, place);
    if let Some(word) = words.next() {
        commands.push(command_of(source, word)?)?;
    }
    Ok(commands)
}

/// Skips `count` words.
pub fn skip_words(words: &mut SplitWhitespace<'_>, count: usize) {
    for _ in 0..count {
        let _ = words.next();
    }
}

/// Writes replies.
pub fn tell_replies<R: Reply>(answer: &mut String, replies: Vec<R>) -> Result<(), Stop> {
    for reply in replies {
        reply.tell_reply(answer)?;
    }
    Ok(())
}

/// Returns the remaining words, separated by spaces.
pub fn words_left(source: &Source, words: &mut SplitWhitespace<'_>) -> Result<String, Stop> {
    let mut text = String::new(source.alloc);
    for word in words {
        write!(text, " {word}")?;
    }
    Ok(text)
}

/// Runs commands, and stores the replies and the events.
fn run_more<L: Logged>(
    source: &Source,
    tree: &mut L,
    copy: &mut Copy<L::Item>,
    partial: &mut Partial,
    commands: Vec<L::Command>,
) -> Result<Option<Refusal>, Stop>
where
    L::Item: Item,
    L::Reply: Reply,
{
    let run = run_logged(source.alloc, tree, commands);
    partial.count = partial.count.saturating_add(run.replies.len());
    tell_replies(&mut partial.answer, run.replies)?;
    copy.tell_events(&mut partial.events, run.events)?;
    Ok(run.refused)
}

/// Runs the commands of the remaining words, and writes the replies and the events.
pub fn run<L: Logged>(
    source: &Source,
    tree: &mut L,
    copy: &mut Copy<L::Item>,
    partial: &mut Partial,
    words: &mut SplitWhitespace<'_>,
    answer: &mut String,
) -> Result<(), Stop>
where
    L::Item: Item,
    L::Command: Command,
    L::Reply: Reply,
{
    let text = words_left(source, words)?;
    partial.begin("run", text.as_str())?;
    let mut words = text.split_whitespace();
    skip_words(&mut words, partial.count);
    let commands = read_commands(source, &mut words)?;
    let refused = run_more(source, tree, copy, partial, commands)?;
    partial.tell_end(refused, answer)
}

/// Runs the command of this number. Returns whether there is one.
pub fn run_part<L: Logged>(
    source: &Source,
    tree: &mut L,
    copy: &mut Copy<L::Item>,
    partial: &mut Partial,
    words: &mut SplitWhitespace<'_>,
    number: usize,
) -> Result<bool, Stop>
where
    L::Item: Item,
    L::Command: Command,
    L::Reply: Reply,
{
    let commands = read_command(source, words, number)?;
    let is_one = !commands.is_empty();
    match run_more(source, tree, copy, partial, commands)? {
        None => Ok(is_one),
        Some(cause) => Err(Stop::Refused(cause)),
    }
}
