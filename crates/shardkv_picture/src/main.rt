//! `shardkv-picture`: the picture of a trace.
//!
//! `--table FILE --trace FILE [--from STEP] [--to STEP]` names the table of the shards, the trace of a run over them, and
//! which of its steps are drawn: all from the first one that is named to before the other. The picture goes to standard
//! output as SVG, and what went wrong to standard error. The statuses: 0 where it is written; 2 for the words; 3 for the
//! table; 4 for the trace; 5 where a step is refused; 6 where memory was wanting; 7 where a read or a write failed.
//!
//! Where standard error is a terminal, a line on it tells how many of the steps are made, and is gone before the picture
//! is written.
#![tactic(auto)]

#[cfg(test)]
mod tests;

use options::picture::read_options;
use options::reading_traces::{MEMORY, files, words};
use picture::told;
use replay::Line;
use std::io::IsTerminal;
use std::process::ExitCode;

/// The program's name.
const PROGRAM: &str = "shardkv-picture";

fn main(rt: HostRuntime) -> ExitCode {
    match draw(&rt) {
        Ok(()) => ExitCode::from(0),
        Err(status) => ExitCode::from(status),
    }
}

/// Draws what the words ask for; else what went wrong is told, and its status given.
fn draw(rt: &HostRuntime) -> Result<(), u8> {
    let words = words(rt)?;
    let asked = match read_options(rt.alloc(), words.as_slice()) {
        Ok(asked) => asked,
        Err(fault) => return Err(fault.tell(rt, PROGRAM, MEMORY)),
    };
    let (table, trace) = files(rt, PROGRAM, asked.table, asked.trace)?;
    let window = (asked.from as usize, asked.to as usize);
    let (table, trace) = (table.as_slice(), trace.as_slice());
    let mut line = Line::new(PROGRAM, rt, rt.stderr(), rt.stderr().is_terminal());
    match told(
        rt.alloc(),
        table,
        trace,
        window,
        &mut line,
        &mut rt.stdout(),
    ) {
        Ok(()) => Ok(()),
        Err(fault) => {
            let _ = eprintln!(rt; "{PROGRAM}: {fault}");
            Err(fault.status())
        }
    }
}
