//! Long runs, and writers that fail.

use indexset_bench::run;
use indexset_core::refusal::Refusal;
use indexset_lines::RunFault;
use std::alloc::Global;
use std::io::{self, ErrorKind, Read, Write};
use std::test::Fail;
use test_script_logged::program::run_buffered;
use test_script_logged::source::Failing;

/// Returns whether a run over a source through a buffer has this outcome, and writes this text.
fn is_run<R: Read + Drop>(
    alloc: Global,
    source: R,
    outcome: Result<(), RunFault>,
    text: &[u8],
) -> bool {
    let mut written = Vec::new(alloc);
    let told = run_buffered(alloc, source, &mut written);
    told == outcome && written.as_slice() == text
}

/// A writer that takes no bytes.
#[derive(Drop)]
struct Full;

impl Write for Full {
    fn write(&mut self, _buf: &[u8]) -> io::Result<usize> {
        Err(io::Error::from(ErrorKind::BrokenPipe))
    }

    fn flush(&mut self) -> io::Result<()> {
        Ok(())
    }
}

/// A writer that fails after a number of writes.
#[derive(Drop)]
struct FullAfter {
    text: Vec<u8>,
    writes: usize,
}

impl Write for FullAfter {
    fn write(&mut self, buf: &[u8]) -> io::Result<usize> {
        match self.writes.checked_sub(1) {
            Some(writes) => self.writes = writes,
            None => return Err(io::Error::from(ErrorKind::BrokenPipe)),
        }
        self.text.extend_from_slice(buf)?;
        Ok(buf.len())
    }

    fn flush(&mut self) -> io::Result<()> {
        Ok(())
    }
}

/// A writer that cannot be flushed.
#[derive(Drop)]
struct Stuck;

impl Write for Stuck {
    fn write(&mut self, buf: &[u8]) -> io::Result<usize> {
        Ok(buf.len())
    }

    fn flush(&mut self) -> io::Result<()> {
        Err(io::Error::from(ErrorKind::BrokenPipe))
    }
}

/// Writes thousands of lines, and their replies.
fn write_thousands(input: &mut Vec<u8>, output: &mut Vec<u8>) -> io::Result<()> {
    for n in 0..5000u64 {
        writeln!(input, "add {n}")?;
        writeln!(output, "new")?;
    }
    for n in 0..5000u64 {
        writeln!(input, "at {n}")?;
        writeln!(output, "{n}")?;
    }
    Ok(())
}

#[test]
fn answers_thousands_of_lines(rt: HostRuntime) -> Result<(), Fail> {
    let mut input = Vec::new(rt.alloc());
    let mut output = Vec::new(rt.alloc());
    write_thousands(&mut input, &mut output)?;
    let source = input.as_slice();
    assert!(rt; is_run(rt.alloc(), source, Ok(()), output.as_slice()));
    Ok(())
}

#[test]
fn answers_a_line_of_a_megabyte(rt: HostRuntime) -> Result<(), Fail> {
    let mut input = vec![in rt.alloc(); b'9'; 1_000_000]?;
    input.extend_from_slice(b"\nlen\n")?;
    let source = input.as_slice();
    assert!(rt; is_run(rt.alloc(), source, Ok(()), b"bad\n0\n"));
    Ok(())
}

/// Returns the result of a run over a line, to this writer.
fn run_over_a_line<W: Write>(alloc: Global, writer: &mut W) -> Result<(), RunFault> {
    let mut reader: &[u8] = b"add 5\n";
    run(alloc, &mut reader, writer)
}

#[test]
fn tells_a_failed_write(rt: HostRuntime) {
    let full = run_over_a_line(rt.alloc(), &mut Full);
    let stuck = run_over_a_line(rt.alloc(), &mut Stuck);
    assert!(rt; full == Err(RunFault::Write) && stuck == Err(RunFault::Write));
}

/// The worked lines.
const LINES: &[u8] = b"add 5\nadd 5\nrank 9\nat 1\n\nlen";

/// Returns whether a run over the worked lines, of which `writes` writes succeed, writes all
/// replies, or fails and writes a prefix of them.
///
/// Each of the six replies is at least one write.
fn is_right_after(alloc: Global, writes: usize) -> bool {
    let whole = b"new\nold\n1\nnone\nbad\n1\n".as_slice();
    let mut reader = LINES;
    let text = Vec::new(alloc);
    let mut writer = FullAfter { text, writes };
    let told = run(alloc, &mut reader, &mut writer);
    let written = writer.text.as_slice();
    let ended = told == Ok(()) && written == whole;
    let failed = told == Err(RunFault::Write) && written != whole;
    let is_right = if writes < 6 { failed } else { failed || ended };
    is_right && whole.starts_with(written)
}

#[test]
fn tells_each_failed_write(rt: HostRuntime) {
    for writes in 0..40 {
        assert!(rt; is_right_after(rt.alloc(), writes), "after {writes}");
    }
}

#[test]
fn tells_the_first_fault(rt: HostRuntime) {
    let cases: [(&[u8], RunFault); 2] = [(b"", RunFault::Read), (b"add 5\n", RunFault::Write)];
    for (bytes, fault) in cases {
        let kind = ErrorKind::BrokenPipe;
        let told = run_buffered(rt.alloc(), Failing { bytes, kind }, &mut Stuck);
        assert!(rt; told == Err(fault));
    }
}

/// Returns whether a fault has this status and this word, and is displayed as the word.
fn is_told(alloc: Global, fault: RunFault, status: u8, word: &str) -> bool {
    match format!(in alloc; "{fault}") {
        Ok(shown) => shown.as_str() == word && fault.status() == status && fault.word() == word,
        Err(_) => false,
    }
}

#[test]
fn tells_faults_by_status_and_word(rt: HostRuntime) {
    let told = [
        (RunFault::Memory, 1, "memory"),
        (RunFault::Numbers, 2, "numbers"),
        (RunFault::Read, 3, "read"),
        (RunFault::Write, 4, "write"),
    ];
    for (fault, status, word) in told {
        assert!(rt; is_told(rt.alloc(), fault, status, word));
    }
    let memory = RunFault::from(Refusal::Memory) == RunFault::Memory;
    let numbers = RunFault::from(Refusal::Numbers) == RunFault::Numbers;
    assert!(rt; memory && numbers);
}
