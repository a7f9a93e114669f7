//! The trace in its file, which is written while the server runs.

use crate::faults::HostFault;
use cluster::Server;
use serial_store::Tabled;
use server_waiting::Pause;
use shared_cluster::{Shared, StreamFault, TraceStream};
use std::alloc::{AllocError, Global};
use std::fs;
use std::io::{self, ErrorKind, Write};
use std::rt::Files;
use std::string::String;
use std::sync::Wait;
use std::time::Clock;

/// What stands behind the name of a trace's file while it isn't whole.
const UNFINISHED: &str = ".part";

/// How many bytes of text are much: the next ones are written at once.
const MUCH: usize = 64 * 1024;

/// For how many bytes of text there is room at most while none is written.
const ROOM: usize = 1024 * 1024;

/// How many times in a row there may be no memory for the steps that were made: for some ten seconds, in which those who ask may be held
/// back.
const STARVED: u32 = 100;

/// How many times the end is tried where there is no memory: for some two seconds.
const TRIES: u32 = 40;

/// Tries whether a trace could be written to this path, as far as that can be told before: the file that isn't whole can be
/// made, and no folder has the name. It leaves nothing behind.
pub fn try_trace<R: AllocGlobal + Files>(rt: &R, path: &str) -> io::Result<()> {
    let part = beside(rt.alloc(), path)?;
    drop(fs::create(rt, part.as_str())?);
    fs::remove_file(rt, part.as_str())?;
    match fs::metadata(rt, path) {
        Ok(found) if found.is_dir() => Err(io::Error::from(ErrorKind::IsADirectory)),
        _ => Ok(()),
    }
}

/// The path of the file that isn't whole.
fn beside(alloc: Global, path: &str) -> Result<String, AllocError> {
    let mut part = String::new(alloc);
    part.push_str(path)?;
    part.push_str(UNFINISHED)?;
    Ok(part)
}

/// A trace's file, to which the steps go in pieces. It stands beside the one of its path, and gets that name once it is whole: what had
/// the name before stays until then.
#[derive(Drop)]
pub(crate) struct TraceFile<F: Write + Drop, T: Tabled, L: Server> {
    path: String,
    part: String,
    file: F,
    stream: TraceStream<T, L>,
    text: Vec<u8>,
    // How many times in a row there was no memory.
    starved: u32,
}

impl<F: Write + Drop, T: Tabled, L: Server> TraceFile<F, T, L> {
    /// Makes the file, and writes what stands before the steps.
    pub(crate) fn create<R: AllocGlobal + Files<File = F>>(
        rt: &R,
        stream: TraceStream<T, L>,
        path: &str,
    ) -> Result<Self, HostFault> {
        let text = Vec::with_capacity(rt.alloc(), MUCH)?;
        let part = beside(rt.alloc(), path)?;
        let path = String::from_str(rt.alloc(), path)?;
        let Ok(file) = fs::create(rt, part.as_str()) else {
            return Err(HostFault::Trace);
        };
        let mut made = TraceFile {
            path,
            part,
            file,
            stream,
            text,
            starved: 0,
        };
        made.stream.write_head(&mut made.text)?;
        made.write_text()?;
        Ok(made)
    }

    /// Writes the steps that were made since the call before, and says whether they were much text. Where there is no memory for them
    /// the next call writes them too; but after some calls of this kind it is a fault, as is a write that fails.
    pub(crate) fn go_on<R: Wait>(
        &mut self,
        rt: &R,
        shared: &Shared<T, L>,
    ) -> Result<bool, HostFault> {
        match self.write_piece(rt, shared) {
            Ok(size) => {
                self.starved = 0;
                Ok(size >= MUCH)
            }
            Err(HostFault::Memory) if self.starved < STARVED => {
                self.starved = self.starved.saturating_add(1);
                Ok(false)
            }
            Err(fault) => Err(fault),
        }
    }

    /// Writes what is left once no more steps are made, and the last line, and the file gets its name. Where that fails it stays as
    /// it is.
    pub(crate) fn end<R: Wait + Clock + Files>(
        mut self,
        rt: &R,
        shared: &Shared<T, L>,
    ) -> Result<(), HostFault> {
        self.write_rest(rt, shared)?;
        self.stream.write_end(&mut self.text)?;
        self.write_text()?;
        let Ok(()) = self.file.flush() else {
            return Err(HostFault::Trace);
        };
        match fs::rename(rt, self.part.as_str(), self.path.as_str()) {
            Ok(()) => Ok(()),
            Err(_) => Err(HostFault::Trace),
        }
    }

    /// Writes pieces until there is none. Where there is no memory for one it is tried again for a while.
    fn write_rest<R: Wait + Clock>(
        &mut self,
        rt: &R,
        shared: &Shared<T, L>,
    ) -> Result<(), HostFault> {
        let mut pause = Pause::new();
        for _ in 0..TRIES {
            match self.write_piece(rt, shared) {
                Ok(0) => return Ok(()),
                Ok(_) => pause.end(),
                Err(HostFault::Memory) => pause.sleep(rt),
                Err(fault) => return Err(fault),
            }
        }
        Err(HostFault::Memory)
    }

    /// Writes the steps that were made since the call before, and gives the size of their text. With `HostFault::Memory` none was written,
    /// and the next call writes them too.
    fn write_piece<R: Wait>(&mut self, rt: &R, shared: &Shared<T, L>) -> Result<usize, HostFault> {
        match self.stream.write_next(rt, shared, &mut self.text) {
            Ok(()) => {}
            Err(StreamFault::Memory) => return Err(HostFault::Memory),
            Err(StreamFault::Torn) => return Err(HostFault::Trace),
        }
        let size = self.text.len();
        self.write_text()?;
        Ok(size)
    }

    /// Writes the text, and drops it.
    fn write_text(&mut self) -> Result<(), HostFault> {
        let written = self.file.write_all(self.text.as_slice());
        self.text.clear();
        self.text.shrink_to(ROOM);
        match written {
            Ok(()) => Ok(()),
            Err(_) => Err(HostFault::Trace),
        }
    }
}
