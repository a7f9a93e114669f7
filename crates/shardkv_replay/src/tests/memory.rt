//! What becomes of a call in which one allocation fails.
//!
//! Where all succeed these tests say no more than others do. They are meant to be run with each allocation failing in
//! turn: what that call was asked for isn't begun, and the next one does all of it. Where the allocation is the test's
//! own, the test begins anew.

use crate::tests::traces::{
    CROSSING, LAYER_OF_TWO, MEMBER_STARVED, REPEATED, Row, STARVED, large_report, large_trace,
};
use command_table::{Command, read};
use journal::{Step, Trace, TraceFault, read_trace, write_trace};
use placement::{Table, TableFault};
use replay::{ShowFault, told};
use resp::Request;
use shard_crew::Crew;
use shard_workers::{InTurn, OpenGate, Workers};
use solo::Solo;
use std::alloc::{AllocError, Global};
use std::hash::{BuildHasherDefault, FoldHasher};
use std::num::NonZeroUsize;
use std::process::Abort;
use std::test::Fail;
use system::{StepFault, System};
use test_support::{Sink, TWO_SHARDS};

const ONE: InTurn = InTurn(NonZeroUsize::MIN);

/// What stands in a buffer already.
const BEFORE: &[u8] = b"before ";

/// What is read a second time, after a call that found no memory.
fn read_again(rt: &impl Abort, alloc: Global, text: &str) -> Trace {
    match read_trace(alloc, text.as_bytes()) {
        Ok(trace) => trace,
        Err(_) => panic!(rt; "no memory for a second time"),
    }
}

/// The trace of a text that spells one.
fn trace_of(rt: &impl Abort, alloc: Global, text: &str) -> Result<Trace, AllocError> {
    match read_trace(alloc, text.as_bytes()) {
        Ok(trace) => Ok(trace),
        Err(TraceFault::Memory) => Ok(read_again(rt, alloc, text)),
        Err(TraceFault::Bad { line }) => panic!(rt; "bad at line {line}"),
    }
}

/// These bytes came; else the test ends.
fn assert_bytes(rt: &impl Abort, out: &[u8], wanted: &[u8]) {
    assert_eq!(rt; out, wanted);
}

/// The buffer has behind `BEFORE` this text and nothing else.
fn assert_behind(rt: &impl Abort, alloc: Global, out: &[u8], text: &str) -> Result<(), AllocError> {
    let mut wanted = Vec::from_slice(alloc, BEFORE)?;
    wanted.extend_from_slice(text.as_bytes())?;
    assert_bytes(rt, out, wanted.as_slice());
    Ok(())
}

/// The text of a trace comes behind what is there, or nothing does.
fn writes(rt: &impl Abort, alloc: Global, trace: &Trace, text: &str) -> Result<(), AllocError> {
    let mut out = Vec::from_slice(alloc, BEFORE)?;
    if write_trace(trace, &mut out).is_err() {
        assert_behind(rt, alloc, out.as_slice(), "")?;
        write_trace(trace, &mut out)?;
    }
    assert_behind(rt, alloc, out.as_slice(), text)
}

/// A trace's text as it is written, which is in version 3.
fn as_written(alloc: Global, text: &str) -> Result<String, AllocError> {
    match text.split_once('\n') {
        Some((_, lines)) => format!(in alloc; "shardkv-trace 3\n{lines}"),
        None => String::from_str(alloc, text),
    }
}

fn read_and_written(rt: &impl Abort, alloc: Global, row: Row) -> Result<(), AllocError> {
    let trace = trace_of(rt, alloc, row.trace)?;
    let text = as_written(alloc, row.trace)?;
    writes(rt, alloc, &trace, text.as_str())
}

#[test]
fn traces_are_read_and_written_where_memory_fails(rt: HostRuntime) -> Result<(), Fail> {
    for row in [CROSSING, STARVED, REPEATED, MEMBER_STARVED] {
        if read_and_written(&rt, rt.alloc(), row).is_err() {
            read_and_written(&rt, rt.alloc(), row)?;
        }
    }
    Ok(())
}

/// The table of two shards; no memory is the only fault.
fn table(rt: &impl Abort, alloc: Global) -> Result<Table, AllocError> {
    match Table::from_toml(alloc, TWO_SHARDS) {
        Ok(table) => Ok(table),
        Err(TableFault::Memory) => Err(AllocError),
        Err(_) => panic!(rt; "no table"),
    }
}

/// Makes a step; no memory is the only fault.
fn make(rt: &impl Abort, system: &mut System, step: Step) -> Result<(), AllocError> {
    match system.step(step, &ONE, &OpenGate) {
        Ok(_) => Ok(()),
        Err(StepFault::Memory) => Err(AllocError),
        Err(fault) => panic!(rt; "{fault}"),
    }
}

/// Makes the steps of a trace in turn.
fn make_each(
    rt: &impl Abort,
    alloc: Global,
    trace: &Trace,
    system: &mut System,
) -> Result<(), AllocError> {
    let mut steps = trace.steps();
    for _ in 0..trace.len() {
        let Some(step) = steps.next(alloc)? else {
            break;
        };
        make(rt, system, step)?;
    }
    Ok(())
}

/// The dump of a system comes behind what is there, or nothing does.
fn dumps(rt: &impl Abort, alloc: Global, system: &System, lines: &str) -> Result<(), AllocError> {
    let mut out = Vec::from_slice(alloc, BEFORE)?;
    if system.dump(&mut out).is_err() {
        assert_behind(rt, alloc, out.as_slice(), "")?;
        system.dump(&mut out)?;
    }
    assert_behind(rt, alloc, out.as_slice(), lines)
}

/// Makes the steps of the crossing requests. What lies there then is dumped.
fn crosses(
    rt: &impl Abort,
    alloc: Global,
    trace: &Trace,
    system: &mut System,
) -> Result<(), AllocError> {
    make_each(rt, alloc, trace, system)?;
    if !system.starved().is_empty() {
        return Err(AllocError);
    }
    let lines = "key 61 string 31\nkey 63 string 32\n";
    dumps(rt, alloc, system, lines)
}

fn system_dumped(rt: &impl Abort, alloc: Global) -> Result<(), AllocError> {
    let table = table(rt, alloc)?;
    let trace = trace_of(rt, alloc, CROSSING.trace)?;
    let mut system = System::new(alloc, table, trace.max())?;
    crosses(rt, alloc, &trace, &mut system)
}

#[test]
fn a_system_is_dumped_where_memory_fails(rt: HostRuntime) -> Result<(), Fail> {
    if system_dumped(&rt, rt.alloc()).is_err() {
        system_dumped(&rt, rt.alloc())?;
    }
    Ok(())
}

type Store = Solo<BuildHasherDefault<FoldHasher>>;

/// Runs a command; no memory is the only fault.
fn ask(
    rt: &impl Abort,
    alloc: Global,
    solo: &mut Store,
    words: &[&[u8]],
) -> Result<(), AllocError> {
    if words.is_empty() {
        panic!(rt; "no words")
    }
    let request = Request::copy_of(alloc, words)?;
    match read(request) {
        Ok(command) => is_run(solo, command),
        Err(_) => panic!(rt; "a command is refused"),
    }
}

/// Runs a command that was read.
fn is_run(solo: &mut Store, command: Command) -> Result<(), AllocError> {
    match solo.try_run(command) {
        Ok(_) => Ok(()),
        Err(_) => Err(AllocError),
    }
}

/// Puts a set, a list and a hash.
fn fill(rt: &impl Abort, alloc: Global, solo: &mut Store) -> Result<(), AllocError> {
    ask(rt, alloc, solo, &[b"SADD", b"c", b"n", b"m"])?;
    ask(rt, alloc, solo, &[b"RPUSH", b"", b"", b"x"])?;
    ask(rt, alloc, solo, &[b"HSET", b"a", b"f", b"1"])
}

/// The dump of a store comes behind what is there, or nothing does.
fn store_dumps(
    rt: &impl Abort,
    alloc: Global,
    solo: &Store,
    lines: &str,
) -> Result<(), AllocError> {
    let mut out = Vec::from_slice(alloc, BEFORE)?;
    if solo.dump(&mut out).is_err() {
        assert_behind(rt, alloc, out.as_slice(), "")?;
        solo.dump(&mut out)?;
    }
    assert_behind(rt, alloc, out.as_slice(), lines)
}

fn solo_dumped(rt: &impl Abort, alloc: Global) -> Result<(), AllocError> {
    let mut solo = Solo::new(alloc, BuildHasherDefault::<FoldHasher>::new());
    fill(rt, alloc, &mut solo)?;
    let lines = "key - list - 78\nkey 61 hash 66 31\nkey 63 set 6d 6e\n";
    store_dumps(rt, alloc, &solo, lines)
}

#[test]
fn a_store_on_one_map_is_dumped_where_memory_fails(rt: HostRuntime) -> Result<(), Fail> {
    if solo_dumped(&rt, rt.alloc()).is_err() {
        solo_dumped(&rt, rt.alloc())?;
    }
    Ok(())
}

/// The report comes whole. Where there was no memory for it, or for a worker's thread, nothing was written, and then it
/// comes at the second call.
fn shown<W: Workers>(
    rt: &impl Abort,
    alloc: Global,
    trace: &str,
    report: &str,
    workers: &W,
) -> Result<(), AllocError> {
    let mut sink = Sink::new(alloc, 100);
    sink.taken.reserve(report.len())?;
    let ended = told_at_last(rt, alloc, trace, workers, &mut sink);
    assert!(rt; matches!(ended, Ok(true)));
    assert_bytes(rt, sink.taken.as_slice(), report.as_bytes());
    Ok(())
}

/// So the report of a layer that several workers run.
fn large_shown<W: Workers>(rt: &impl Abort, alloc: Global, workers: &W) -> Result<(), AllocError> {
    let trace = large_trace(alloc)?;
    let report = large_report(alloc)?;
    shown(rt, alloc, trace.as_str(), report.as_str(), workers)
}

/// What a replay ends with. Where it wants memory, nothing was written, and it is begun again.
fn told_at_last<W: Workers>(
    rt: &impl Abort,
    alloc: Global,
    trace: &str,
    workers: &W,
    sink: &mut Sink,
) -> Result<bool, ShowFault> {
    let (table, trace) = (TWO_SHARDS.as_bytes(), trace.as_bytes());
    match told(alloc, table, trace, workers, sink) {
        Err(fault) => {
            assert!(rt; is_no_memory(&fault), "{fault}");
            assert_eq!(rt; sink.writes, 0);
            told(alloc, table, trace, workers, sink)
        }
        ended => ended,
    }
}

fn is_no_memory(fault: &ShowFault) -> bool {
    match fault {
        ShowFault::Memory => true,
        ShowFault::Step { fault, .. } => matches!(fault, StepFault::Failed),
        _ => false,
    }
}

#[test]
fn reports_come_whole_where_memory_fails(rt: HostRuntime) -> Result<(), Fail> {
    for row in [CROSSING, STARVED, LAYER_OF_TWO, REPEATED, MEMBER_STARVED] {
        if shown(&rt, rt.alloc(), row.trace, row.report, &ONE).is_err() {
            shown(&rt, rt.alloc(), row.trace, row.report, &ONE)?;
        }
    }
    Ok(())
}

#[test]
fn reports_of_a_crew_come_whole_where_memory_fails(rt: HostRuntime) -> Result<(), Fail> {
    let two = NonZeroUsize::new(2).ok_or("two")?;
    let crew = Crew::new(&rt, two);
    if large_shown(&rt, rt.alloc(), &crew).is_err() {
        large_shown(&rt, rt.alloc(), &crew)?;
    }
    Ok(())
}
