//! `shardkv-replay`: the report of a trace.
//!
//! `--table FILE --trace FILE [--workers N] [--part]` names the table of the shards, the trace of a run over them, and how
//! many workers run each layer's requests. The report goes to standard output, and what went wrong to standard error. The
//! statuses: 0 where the report agrees with one thread on one map, 1 where it differs; 2 for the words; 3 for the
//! table; 4 for the trace; 5 where a step is refused, or a worker's thread can't be started; 6 where memory was
//! wanting; 7 where a read or a write failed.
//!
//! With `--part` the trace may be cut, as a killed server leaves it: what stands behind its last whole line is left out,
//! and a line on standard error says so.
//!
//! Where standard error is a terminal, a line on it tells how many of the steps are made, and is gone before the report
//! is written.
#![tactic(auto)]

#[cfg(test)]
mod tests;

use options::reading_traces::{MEMORY, files, words};
use options::replay::read_options;
use replay::{Line, Progress, ShowFault, told_watched, whole_beginning};
use shard_crew::Crew;
use shard_workers::InTurn;
use std::alloc::AllocError;
use std::env::Env;
use std::fs::Files;
use std::io::{IsTerminal, Write};
use std::num::NonZeroUsize;
use std::process::ExitCode;
use std::sync::Wait;
use std::thread::Threads;

/// The program's name.
const PROGRAM: &str = "shardkv-replay";

fn main(rt: HostRuntime) -> ExitCode {
    let mut line = Line::new(PROGRAM, &rt, rt.stderr(), rt.stderr().is_terminal());
    match run(&rt, &mut line, &mut rt.stdout()) {
        Ok(agree) => ExitCode::from(u8::from(!agree)),
        Err(status) => ExitCode::from(status),
    }
}

/// Writes the report that the words ask for, and answers whether it agrees; else what went wrong is told, and its status
/// given.
fn run<R, P: Progress, O: Write>(rt: &R, progress: &mut P, out: &mut O) -> Result<bool, u8>
where
    R: Threads + Wait + AllocGlobal + Env + Files + Print + Eprint,
{
    let words = words(rt)?;
    let asked = match read_options(rt.alloc(), words.as_slice()) {
        Ok(asked) => asked,
        Err(fault) => return Err(fault.tell(rt, PROGRAM, MEMORY)),
    };
    let (table, trace) = files(rt, PROGRAM, asked.table, asked.trace)?;
    let Ok(trace) = text_of(rt, trace, asked.part) else {
        return Err(told_fault(rt, &ShowFault::Memory));
    };
    let Some(workers) = NonZeroUsize::new(usize::from(asked.workers)) else {
        return Err(2);
    };
    match report(
        rt,
        table.as_slice(),
        trace.as_slice(),
        workers,
        progress,
        out,
    ) {
        Ok(agree) => Ok(agree),
        Err(fault) => Err(told_fault(rt, &fault)),
    }
}

/// Tells what went wrong, and gives its status.
fn told_fault<R: Eprint>(rt: &R, fault: &ShowFault) -> u8 {
    let _ = eprintln!(rt; "{PROGRAM}: {fault}");
    fault.status()
}

/// The text of the trace in this file; of a part of one all whole lines, and how far they go is told on standard error.
fn text_of<R: Eprint>(rt: &R, file: Vec<u8>, part: bool) -> Result<Vec<u8>, AllocError> {
    if !part {
        return Ok(file);
    }
    let made = whole_beginning(file)?;
    let _ = eprintln!(rt;
        "{PROGRAM}: a beginning of {} steps; {} bytes behind its last whole line were left out",
        made.steps, made.left_out
    );
    Ok(made.text)
}

/// Writes the report, and answers whether it agrees. One worker needs no thread; of several, each has a thread while a
/// layer is run.
fn report<R: Threads + Wait + AllocGlobal, P: Progress, O: Write>(
    rt: &R,
    table: &[u8],
    trace: &[u8],
    workers: NonZeroUsize,
    progress: &mut P,
    out: &mut O,
) -> Result<bool, ShowFault> {
    if workers.get() == 1 {
        return told_watched(rt.alloc(), table, trace, &InTurn(workers), progress, out);
    }
    told_watched(
        rt.alloc(),
        table,
        trace,
        &Crew::new(rt, workers),
        progress,
        out,
    )
}
