//! Scripts of whole runs of the program. A text is one word, with `/` for a line end, `_` for a
//! space and `^` for a carriage return.

use crate::source::{Failing, FailingAfter, Interrupted};
use indexset_bench::run;
use indexset_core::refusal::Refusal;
use indexset_lines::RunFault;
use std::alloc::Global;
use std::io::{BufReader, ErrorKind, Read, Write};
use std::str::SplitWhitespace;
use test_script::player::Swept;
use test_script::script::{Stop, Subject, read, tell};

/// Runs of the program.
#[derive(Drop)]
pub struct Programs {
    alloc: Global,
}

/// Runs over a source through a buffer.
pub fn run_buffered<R: Read + Drop, W: Write>(
    alloc: Global,
    source: R,
    writer: &mut W,
) -> Result<(), RunFault> {
    match BufReader::new(alloc, source) {
        Ok(mut reader) => run(alloc, &mut reader, writer),
        Err(_) => Err(RunFault::Memory),
    }
}

/// Returns the bytes of a text, or no bytes if there is no word.
fn bytes_of(alloc: Global, words: &mut SplitWhitespace<'_>) -> Result<Vec<u8>, Stop> {
    let mut bytes = Vec::new(alloc);
    for byte in words.next().unwrap_or("").bytes() {
        bytes.push(match byte {
            b'/' => b'\n',
            b'_' => b' ',
            b'^' => b'\r',
            other => other,
        })?;
    }
    Ok(bytes)
}

/// Writes a text.
fn tell_bytes(answer: &mut String, bytes: &[u8]) -> Result<(), Stop> {
    let text = str::from_utf8(bytes).map_err(|_| Stop::Otherwise)?;
    answer.push_str(" ")?;
    for letter in text.chars() {
        answer.push(match letter {
            '\n' => '/',
            ' ' => '_',
            other => other,
        })?;
    }
    Ok(())
}

/// Writes the output of a run, and the word for the fault that ended it.
fn tell_run(answer: &mut String, written: &[u8], told: Result<(), RunFault>) -> Result<(), Stop> {
    tell_bytes(answer, written)?;
    match told {
        Ok(()) => Ok(()),
        Err(RunFault::Memory) => Err(Stop::Refused(Refusal::Memory)),
        // The output is in memory of the player.
        Err(RunFault::Write) => Err(Stop::Memory),
        Err(fault) => tell(answer, fault.word()),
    }
}

impl Programs {
    /// Runs over a source.
    fn run_over<R: Read + Drop>(&self, source: R, answer: &mut String) -> Result<(), Stop> {
        let mut written = Vec::new(self.alloc);
        let told = run_buffered(self.alloc, source, &mut written);
        tell_run(answer, written.as_slice(), told)
    }

    /// Runs over memory, without a buffer.
    fn run_unbuffered(&self, bytes: &[u8], answer: &mut String) -> Result<(), Stop> {
        let mut reader = bytes;
        let mut written = Vec::new(self.alloc);
        let told = run(self.alloc, &mut reader, &mut written);
        tell_run(answer, written.as_slice(), told)
    }
}

impl Subject for Programs {
    fn call(
        &mut self,
        name: &str,
        words: &mut SplitWhitespace<'_>,
        answer: &mut String,
    ) -> Result<(), Stop> {
        if name == "fails_after" {
            let reads = read(words)?;
            let bytes = bytes_of(self.alloc, words)?;
            let bytes = bytes.as_slice();
            return self.run_over(FailingAfter { bytes, reads }, answer);
        }
        let bytes = bytes_of(self.alloc, words)?;
        let bytes = bytes.as_slice();
        match name {
            "run" => self.run_unbuffered(bytes, answer),
            "buffered" => self.run_over(bytes, answer),
            "fails_at_the_end" => {
                let kind = ErrorKind::BrokenPipe;
                self.run_over(Failing { bytes, kind }, answer)
            }
            "fails_for_memory_at_the_end" => {
                let kind = ErrorKind::OutOfMemory;
                self.run_over(Failing { bytes, kind }, answer)
            }
            "interrupted" => {
                let was_interrupted = false;
                self.run_over(
                    Interrupted {
                        bytes,
                        was_interrupted,
                    },
                    answer,
                )
            }
            _ => Err(Stop::NoCall),
        }
    }
}

impl Swept for Programs {
    fn make(alloc: Global, _size: usize) -> Result<Self, Stop> {
        Ok(Programs { alloc })
    }

    fn show(&self, _text: &mut String) -> Result<(), Stop> {
        Ok(())
    }

    fn part(
        &mut self,
        _name: &str,
        _words: &mut SplitWhitespace<'_>,
        _number: usize,
    ) -> Result<bool, Stop> {
        Ok(false)
    }
}
