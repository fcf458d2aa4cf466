//! Readers that fail, or that are interrupted.

use std::io::{self, ErrorKind, Read};

/// Returns its bytes, and then fails.
#[derive(Drop)]
pub struct Failing<'a> {
    pub bytes: &'a [u8],
    pub kind: ErrorKind,
}

impl Read for Failing<'_> {
    fn read(&mut self, buf: &mut [u8]) -> io::Result<usize> {
        if self.bytes.is_empty() {
            return Err(io::Error::from(self.kind));
        }
        self.bytes.read(buf)
    }
}

/// Returns five bytes at each read, and fails after a number of reads.
#[derive(Drop)]
pub struct FailingAfter<'a> {
    pub bytes: &'a [u8],
    pub reads: usize,
}

impl Read for FailingAfter<'_> {
    fn read(&mut self, buf: &mut [u8]) -> io::Result<usize> {
        match self.reads.checked_sub(1) {
            Some(reads) => self.reads = reads,
            None => return Err(io::Error::from(ErrorKind::BrokenPipe)),
        }
        let most = buf.len().min(5);
        self.bytes.read(&mut buf[..most])
    }
}

/// Is interrupted before each byte that it returns.
#[derive(Drop)]
pub struct Interrupted<'a> {
    pub bytes: &'a [u8],
    pub was_interrupted: bool,
}

impl Read for Interrupted<'_> {
    fn read(&mut self, buf: &mut [u8]) -> io::Result<usize> {
        self.was_interrupted = !self.was_interrupted;
        if self.was_interrupted {
            return Err(io::Error::from(ErrorKind::Interrupted));
        }
        if buf.is_empty() {
            return Ok(0);
        }
        self.bytes.read(&mut buf[..1])
    }
}
