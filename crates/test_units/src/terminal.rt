//! A user at a terminal, who types a line after the reply to the previous line is on the screen.

use std::cell::Cell;
use std::io::{self, ErrorKind, Read, Write};
use test_script_logged::program::run_buffered;

/// Returns a line at each read, and fails unless the replies to the lines before are written.
#[derive(Drop)]
struct Keyboard<'a> {
    lines: &'a [u8],
    typed: u64,
    shown: &'a Cell<u64>,
}

impl Read for Keyboard<'_> {
    fn read(&mut self, buf: &mut [u8]) -> io::Result<usize> {
        if self.shown.get() < self.typed {
            return Err(io::Error::from(ErrorKind::WouldBlock));
        }
        let end = self.lines.iter().position(|b| *b == b'\n');
        let len = end
            .map_or(self.lines.len(), |end| end.saturating_add(1))
            .min(buf.len());
        self.typed = self.typed.saturating_add(1);
        self.lines.read(&mut buf[..len])
    }
}

/// Stores what is written until it is flushed, and then shows it.
#[derive(Drop)]
struct Screen<'a> {
    held: u64,
    shown: &'a Cell<u64>,
}

impl Write for Screen<'_> {
    fn write(&mut self, buf: &[u8]) -> io::Result<usize> {
        for byte in buf {
            if *byte == b'\n' {
                self.held = self.held.saturating_add(1);
            }
        }
        Ok(buf.len())
    }

    fn flush(&mut self) -> io::Result<()> {
        self.shown.set(self.shown.get().saturating_add(self.held));
        self.held = 0;
        Ok(())
    }
}

#[test]
fn each_reply_is_out_before_the_next_line_is_read(rt: HostRuntime) {
    let shown = Cell::new(0);
    let keyboard = Keyboard {
        lines: b"add 5\nadd 7\n\nat 1\nlen\n".as_slice(),
        typed: 0,
        shown: &shown,
    };
    let mut screen = Screen {
        held: 0,
        shown: &shown,
    };
    let told = run_buffered(rt.alloc(), keyboard, &mut screen);
    assert!(rt; told == Ok(()) && shown.get() == 5);
}
