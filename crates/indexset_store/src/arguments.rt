//! The arguments of the program.

ghost use Rattle.std.specs.Prelude.{◌≤◌};

use clap::error::ErrorKind;
use clap::{Arg, ArgAction, ArgMatches, Command, Error, value_parser};
use indexset_follow::others::{Others, Voice};
use indexset_keep::manner::Manner;
use std::alloc::{AllocError, Global};
use std::env::{Env, FillError};
use std::io;

/// The name of the program.
const NAME: &str = "indexset_store";

/// The version of the program.
const VERSION: &str = "0.2.0";

/// The first lines of the help.
const ABOUT: &str =
    "Serves a map of numbers or of percent-encoded texts: reads lines from standard input, and{n}\
writes the answer to each to standard output.";

/// The least node size.
const LEAST: usize = 2;

/// The size of the longest argument that Linux passes to a program, in bytes.
const LONGEST: usize = 131_072;

/// The type of keys and values.
#[derive(Clone, Copy, Debug)]
pub enum Keys {
    /// Numbers of at most 64 bits.
    Numbers,
    /// Texts, percent-encoded in each line.
    Text,
}

/// The arguments of a run.
#[derive(Drop)]
pub struct Args<'a> {
    /// The type of keys and values.
    pub keys: Keys,
    /// The file that keeps changes, if there is one.
    pub file: Option<&'a str>,
    /// The settings of the map.
    pub manner: Manner,
}

/// Returns an option without a value.
fn flag<'a>(alloc: Global, name: &'a str, help: &'a str) -> Arg<'a> {
    Arg::new(alloc, name)
        .long(name)
        .action(ArgAction::SetTrue)
        .help(help)
}

/// Returns an option with a value.
fn option<'a>(alloc: Global, name: &'a str, value: &'a str, help: &'a str) -> Arg<'a> {
    Arg::new(alloc, name)
        .long(name)
        .value_name(value)
        .help(help)
}

/// Adds the options of the role and the map.
fn with_map<'a>(alloc: Global, command: Command<'a>) -> Result<Command<'a>, AllocError> {
    let follow = flag(
        alloc,
        "follow",
        "Start as a follower, which applies the events of another map (default)",
    );
    let lead = flag(
        alloc,
        "lead",
        "Start as a leader, which executes commands and writes their events",
    );
    let keys = option(alloc, "keys", "KEYS", "Type of keys and values")
        .value_parser(["numbers", "text"].as_slice())
        .default_value("numbers");
    let keep = option(
        alloc,
        "keep",
        "FILE",
        "Continue from this SQLite file, and commit each change before its answer",
    );
    command
        .arg(follow)?
        .arg(lead.conflicts_with("follow")?)?
        .arg(keys)?
        .arg(keep)
}

/// Adds the options of nodes and replies.
fn with_replies<'a>(alloc: Global, command: Command<'a>) -> Result<Command<'a>, AllocError> {
    let node_size = option(
        alloc,
        "node-size",
        "N",
        "Maximum number of pairs in a node of a leader, 2 to 65535",
    )
    .value_parser(value_parser!(usize).range(2..65_536))
    .default_value("256");
    let window = option(
        alloc,
        "window",
        "N",
        "As a follower, hold events up to N ahead of the awaited one",
    )
    .value_parser(value_parser!(u64))
    .default_value("4096");
    let pass_others = flag(
        alloc,
        "pass-others",
        "Ignore lines that are not part of the protocol",
    );
    let quiet = flag(
        alloc,
        "quiet",
        "As a follower, write only gap, unfit and the answers to requests",
    );
    command
        .arg(node_size)?
        .arg(window)?
        .arg(pass_others)?
        .arg(quiet)
}

/// Returns the command line of the program.
fn command_line<'a>(alloc: Global) -> Result<Command<'a>, AllocError> {
    let command = Command::new(alloc, NAME)
        .bin_name(NAME)?
        .version(VERSION)
        .about(ABOUT);
    with_replies(alloc, with_map(alloc, command)?)
}

/// Returns the maximum number of pairs in a node. Each argument has one, since it has a default.
fn node_size(matches: &ArgMatches<'_>) -> usize
    ensures two { 2 ≤ result }
{
    matches
        .get_one::<usize>("node-size")
        .unwrap_or_default()
        .max(LEAST)
}

/// Returns which replies are written.
fn voice(matches: &ArgMatches<'_>) -> Voice {
    Voice {
        others: if matches.get_flag("pass-others") {
            Others::Pass
        } else {
            Others::Tell
        },
        is_quiet: matches.get_flag("quiet"),
    }
}

/// Returns the arguments that the words of a command line give. The first word is the program.
///
/// # Errors
///
/// The help, the version, or the error that the user reads.
pub fn parse_args<'a>(alloc: Global, words: &'a [String]) -> Result<Args<'a>, Error> {
    let matches = command_line(alloc)?.try_get_matches_from(words)?;
    Ok(Args {
        keys: match matches.get_str("keys") {
            Some("text") => Keys::Text,
            _ => Keys::Numbers,
        },
        file: matches.get_str("keep"),
        manner: Manner {
            voice: voice(&matches),
            size: node_size(&matches),
            window: matches.get_one::<u64>("window").unwrap_or_default(),
            leads: matches.get_flag("lead"),
        },
    })
}

/// Returns the error for the first argument that is not UTF-8.
fn not_utf8(rt: &HostRuntime) -> Result<Error, AllocError> {
    let alloc = rt.alloc();
    let mut bytes = vec![in alloc; 0u8; LONGEST]?;
    let mut message = String::from_str(alloc, "an argument is not UTF-8")?;
    for at in 0..usize::MAX {
        match rt.arg(at, bytes.as_mut_slice()) {
            Ok(length) => {
                let argument = &bytes.as_slice()[..length];
                if std::str::from_utf8(argument).is_err() {
                    let shown = argument.escape_ascii();
                    message = format!(in alloc; "the argument '{shown}' is not UTF-8")?;
                    break;
                }
            }
            Err(FillError::TooLong) => {}
            Err(FillError::NotPresent) => break,
        }
    }
    command_line(alloc)?.error(ErrorKind::InvalidValue, message.as_str())
}

/// Returns the words of the command line.
///
/// # Errors
///
/// The error that the user reads if an argument is not UTF-8, or one of memory.
pub fn read_words(rt: &HostRuntime) -> Result<Vec<String>, Error> {
    match std::env::args(rt) {
        Ok(args) => {
            let mut words = Vec::new(rt.alloc());
            for word in args {
                words.push(word)?;
            }
            Ok(words)
        }
        Err(error) => {
            if error.kind() == io::ErrorKind::InvalidData {
                Err(not_utf8(rt)?)
            } else {
                Err(Error::from(AllocError))
            }
        }
    }
}
