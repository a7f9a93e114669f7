//! A reader over memory.

use crate::NEVER;
use std::io;
use std::io::{ErrorKind, Read};

/// Gives its bytes in pieces of at most `piece`. The read of number `fails_at`, from 0, fails by `kind` and takes
/// nothing.
#[derive(Drop)]
pub struct Source<'a> {
    pub bytes: &'a [u8],
    pub piece: usize,
    pub fails_at: usize,
    pub kind: ErrorKind,

    /// How many reads were made.
    pub reads: usize,
}

impl<'a> Source<'a> {
    /// A reader of these bytes that never fails.
    pub fn new(bytes: &'a [u8], piece: usize) -> Self {
        Source {
            bytes,
            piece,
            fails_at: NEVER,
            kind: ErrorKind::ConnectionReset,
            reads: 0,
        }
    }
}

impl Read for Source<'_> {
    fn read(&mut self, buf: &mut [u8]) -> io::Result<usize> {
        let number = self.reads;
        self.reads = number.saturating_add(1);
        if number == self.fails_at {
            return Err(self.kind.into());
        }
        let n = self.piece.min(self.bytes.len()).min(buf.len());
        let bytes = self.bytes;
        buf[..n].copy_from_slice(&bytes[..n]);
        self.bytes = &bytes[n..];
        Ok(n)
    }
}
