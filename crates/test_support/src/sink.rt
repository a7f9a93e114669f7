//! A writer into memory.

use crate::NEVER;
use std::alloc::Global;
use std::io;
use std::io::{ErrorKind, Write};

/// Takes at most `most` bytes at once, and `room` in all: behind these a write takes nothing. The write of number
/// `fails_at`, from 0, fails by `kind` and takes nothing.
#[derive(Drop)]
pub struct Sink {
    /// The bytes that were taken.
    pub taken: Vec<u8>,

    /// How many of them were passed on by a `flush`.
    pub flushed: usize,
    pub most: usize,
    pub room: usize,
    pub fails_at: usize,
    pub kind: ErrorKind,

    /// How many writes were made.
    pub writes: usize,
}

impl Sink {
    /// A writer that never fails.
    pub fn new(alloc: Global, most: usize) -> Self {
        Sink {
            taken: Vec::new(alloc),
            flushed: 0,
            most,
            room: NEVER,
            fails_at: NEVER,
            kind: ErrorKind::BrokenPipe,
            writes: 0,
        }
    }
}

impl Write for Sink {
    fn write(&mut self, buf: &[u8]) -> io::Result<usize> {
        let number = self.writes;
        self.writes = number.saturating_add(1);
        if number == self.fails_at {
            return Err(self.kind.into());
        }
        let n = self.most.min(self.room).min(buf.len());
        self.taken.extend_from_slice(&buf[..n])?;
        self.room -= n;
        Ok(n)
    }

    fn flush(&mut self) -> io::Result<()> {
        self.flushed = self.taken.len();
        Ok(())
    }
}
