//! Plays a script that it reads from standard input (see `tests/scripts/README.md`), and writes the
//! first line that fails.
//!
//! With the argument `swept` it expects that one allocation fails. The exit status is that of
//! [`Ending`].
#![tactic(auto)]

mod plain;

use std::env;
use std::io::{self, ErrorKind};
use std::process::ExitCode;
use test_script::player::{Fault, Script};

/// The outcome of a script.
#[derive(Drop)]
enum Ending {
    /// Each statement had its answer (0).
    Answered,
    /// Each statement had its answer, and an allocation of a call failed (10).
    Refused,
    /// An allocation of the player failed (11).
    Before,
    /// A statement failed (12).
    Failed,
}

impl Ending {
    fn status(self) -> u8 {
        match self {
            Ending::Answered => 0,
            Ending::Refused => 10,
            Ending::Before => 11,
            Ending::Failed => 12,
        }
    }
}

// Plays a script on the subject that it names.
fn play(script: &Script) -> Option<Result<bool, Fault>> {
    match plain::play(script) {
        Some(played) => Some(played),
        None => test_script_logged::play(script),
    }
}

// Plays the script of a text. Returns whether an allocation of a call failed.
fn perform(rt: &HostRuntime, text: &str, is_swept: bool) -> Result<bool, Fault> {
    let script = Script::read(rt.alloc(), text, is_swept)?;
    match play(&script) {
        Some(played) => played,
        None => {
            let name = script.subject();
            let text = format!(in rt.alloc(); "no subject of the name {name}")?;
            Err(Fault::Otherwise(text))
        }
    }
}

// Reads the input, plays it, and writes the reason for a failure.
fn serve(rt: &HostRuntime) -> io::Result<Ending> {
    let mut is_swept = false;
    for word in env::args(rt)?.skip(1) {
        is_swept = word.as_str() == "swept";
    }
    let text = io::read_to_string(rt.alloc(), rt.reader())?;
    match perform(rt, text.as_str(), is_swept) {
        Ok(false) => Ok(Ending::Answered),
        Ok(true) => Ok(Ending::Refused),
        Err(Fault::Memory) => Ok(Ending::Before),
        Err(Fault::Otherwise(text)) => {
            println!(rt; "{text}")?;
            Ok(Ending::Failed)
        }
    }
}

fn main(rt: HostRuntime) -> ExitCode {
    let ending = match serve(&rt) {
        Ok(ending) => ending,
        Err(error) if error.kind() == ErrorKind::OutOfMemory => Ending::Before,
        Err(_) => Ending::Failed,
    };
    ExitCode::from(ending.status())
}
