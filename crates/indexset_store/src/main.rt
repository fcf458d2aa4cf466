//! Serves a map of numbers or texts over standard input and output.
//!
//! The map starts as a follower, which applies the events of another map, or as a leader, which
//! executes commands and writes their events. The program writes the answer to each line that it
//! reads. `--help` lists the arguments.
#![tactic(auto)]

mod arguments;

use arguments::{Args, Keys, parse_args, read_words};
use clap::Error;
use clap::error::ErrorKind;
use indexset_bench::key::Key;
use indexset_follow::serve;
use indexset_journal::JournalError;
use indexset_keep::KeepFault;
use indexset_keep::manner::Manner;
use indexset_keep::run::run_over;
use indexset_lines::RunFault;
use indexset_text::Name;
use sqlite::{Connection, File, FileStore};
use std::io::{self, BufReader, BufWriter};
use std::process::ExitCode;

/// The exit status for bad arguments.
const BAD_ARGUMENTS: u8 = 5;

/// The size of each buffer in bytes: some thousand lines.
const BUFFERED: usize = 65_536;

/// Creates the table of a file, whose rows are the lines that are kept.
const TABLE: &str = "CREATE TABLE kept (number INTEGER PRIMARY KEY, line TEXT NOT NULL) STRICT";

/// Returns the store of an open file, and creates the table if the file has none.
fn with_table(conn: Connection<FileStore<File>>) -> Result<FileStore<File>, JournalError> {
    let mut conn = conn;
    if !conn.schema().tables.as_slice().is_empty() {
        return Ok(conn.into_store());
    }
    let made = conn.execute(TABLE, &[]);
    let store = conn.into_store();
    match made {
        Ok(_) => Ok(store),
        Err(error) => Err(JournalError::from(error)),
    }
}

/// Opens the file, or creates it if it does not exist. A file that has tables is unchanged.
fn store_at(rt: &HostRuntime, path: &str) -> Result<FileStore<File>, JournalError> {
    with_table(Connection::open(rt, path)?)
}

/// Runs over standard input and output, and keeps changes in a file.
fn run_kept<T: Key>(rt: &HostRuntime, manner: Manner, path: &str) -> Result<(), KeepFault> {
    let alloc = rt.alloc();
    let reader = BufReader::with_capacity(alloc, BUFFERED, rt.reader());
    let mut reader = reader.map_err(|_| RunFault::Memory)?;
    let writer = BufWriter::with_capacity(alloc, BUFFERED, io::writer(rt));
    let mut writer = writer.map_err(|_| RunFault::Memory)?;
    let store = store_at(rt, path)?;
    run_over::<T, _, _, _>(alloc, manner, store, &mut reader, &mut writer)
}

/// Runs over standard input and output.
fn run_alone<T: Key>(rt: &HostRuntime, manner: Manner) -> Result<(), RunFault> {
    let alloc = rt.alloc();
    let reader = BufReader::with_capacity(alloc, BUFFERED, rt.reader());
    let mut reader = reader.map_err(|_| RunFault::Memory)?;
    let writer = BufWriter::with_capacity(alloc, BUFFERED, io::writer(rt));
    let mut writer = writer.map_err(|_| RunFault::Memory)?;
    serve::<T, _, _>(
        alloc,
        manner.voice,
        manner.size,
        manner.window,
        manner.leads,
        &mut reader,
        &mut writer,
    )
}

/// Answers the lines of standard input with a map of this type of keys and values.
fn run<T: Key>(rt: &HostRuntime, args: &Args<'_>) -> Result<(), KeepFault> {
    match args.file {
        Some(path) => run_kept::<T>(rt, args.manner, path)?,
        None => run_alone::<T>(rt, args.manner)?,
    }
    Ok(())
}

/// Writes a fault to standard error. Returns its exit status.
fn fail(rt: &HostRuntime, fault: KeepFault) -> u8 {
    let _ = eprintln!(rt; "{fault}");
    fault.status()
}

/// Writes the help or the version to standard output, or an error of the arguments to standard
/// error. Returns the exit status.
fn report(rt: &HostRuntime, error: &Error) -> u8 {
    if error.kind() == ErrorKind::OutOfMemory {
        return fail(rt, KeepFault::Run(RunFault::Memory));
    }
    let printed = error.print(rt);
    if error.use_stderr() {
        BAD_ARGUMENTS
    } else if printed.is_err() {
        fail(rt, KeepFault::Run(RunFault::Write))
    } else {
        0
    }
}

/// Runs with these arguments. Returns the exit status.
fn run_args(rt: &HostRuntime, args: &Args<'_>) -> u8 {
    let ended = match args.keys {
        Keys::Numbers => run::<u64>(rt, args),
        Keys::Text => run::<Name>(rt, args),
    };
    match ended {
        Ok(()) => 0,
        Err(fault) => fail(rt, fault),
    }
}

/// Runs with the arguments of these words. Returns the exit status.
fn run_words(rt: &HostRuntime, words: &[String]) -> u8 {
    match parse_args(rt.alloc(), words) {
        Ok(args) => run_args(rt, &args),
        Err(error) => report(rt, &error),
    }
}

fn main(rt: HostRuntime) -> ExitCode {
    ExitCode::from(match read_words(&rt) {
        Ok(words) => run_words(&rt, words.as_slice()),
        Err(error) => report(&rt, &error),
    })
}
