//! Texts that are no table or no trace, and traces of which a step is refused.

use crate::tests::showing::is_shown;
use crate::tests::traces::{CROSSING, MEMBER_STARVED, REPEATED, Row, STARVED, TRANSACTION};
use journal::read_trace;
use placement::{Table, TableFault};
use replay::{ReplayFault, ShowFault, replay, show, told};
use shard_workers::InTurn;
use std::alloc::Global;
use std::num::NonZeroUsize;
use std::sync::Wait;
use std::test::Fail;
use std::thread::Threads;
use test_support::{Sink, TWO_SHARDS, holds, same_count, same_number, same_text};

const ONE: InTurn = InTurn(NonZeroUsize::MIN);

/// A text with one of its parts, which stands there once, in another form.
fn with(alloc: Global, text: &str, part: &str, other: &str) -> Result<String, Fail> {
    let (before, behind) = text.split_once(part).ok_or("the part isn't there")?;
    Ok(format!(in alloc; "{before}{other}{behind}")?)
}

/// The place of the first step that is refused, counted from 0, and why it is.
fn refused_step(alloc: Global, trace: &str) -> Result<String, Fail> {
    let table = Table::from_toml(alloc, TWO_SHARDS)?;
    let trace = read_trace(alloc, trace.as_bytes())?;
    match replay(alloc, trace, table, &ONE) {
        Err(ReplayFault::Step { index, fault }) => { Ok(format!(in alloc; "{index}: {fault:?}")?) }
        Err(ReplayFault::Memory) => Err("no memory".into()),
        Ok(_) => Err("no step was refused".into()),
    }
}

/// A trace, a part of it and what stands in its place, and the place and the fault of the step that is refused then.
type Refusal = (Row, &'static str, &'static str, &'static str);

const REFUSALS: [Refusal; 12] = [
    (STARVED, "32\ndeliver 0\n", "32\ndeliver 3\n", "2: NoPacket"),
    (
        CROSSING,
        "deliver 0\ntake\nrun\nsettle\n",
        "take\nrun\nsettle\ntake\n",
        "11: NoLayer",
    ),
    (CROSSING, "2\nend 20\n", "2\ntake\nend 21\n", "20: NoLayer"),
    (CROSSING, "max 1000\n", "max 19\n", "19: Exhausted"),
    (CROSSING, "collect 2\n", "collect 3\n", "19: NoConn"),
    (CROSSING, "submit 2", "submit 1", "3: Busy"),
    (
        STARVED,
        "run 1.1\nsettle\n",
        "take\nsettle\n",
        "7: InFlight",
    ),
    (REPEATED, "repeat 0\n", "repeat 9\n", "2: NoPacket"),
    (
        REPEATED,
        "repeat 0\ndeliver 0\n",
        "deliver 0\nrepeat 0\n",
        "3: NoPacket",
    ),
    (REPEATED, "max 50\n", "max 2\n", "2: Exhausted"),
    // A list's member is a request under way until it is collected.
    (
        TRANSACTION,
        "61 31\ncollect 1\n",
        "61 31\nsubmit 1 61\n",
        "5: Busy",
    ),
    // In version 2 SET a 1 goes to its group, and is not answered yet.
    (
        TRANSACTION,
        "shardkv-trace 3\n",
        "shardkv-trace 2\n",
        "6: Busy",
    ),
];

#[test]
fn the_first_refused_step_is_told(rt: HostRuntime) -> Result<(), Fail> {
    for refusal in &REFUSALS {
        is_told(&rt, rt.alloc(), refusal)?;
    }
    Ok(())
}

/// The step is told, and the trace ends by 5.
fn is_told<R: Threads + Wait>(rt: &R, alloc: Global, refusal: &Refusal) -> Result<(), Fail> {
    let (row, part, other, refused) = refusal;
    let trace = with(alloc, row.trace, part, other)?;
    is_refused(alloc, trace.as_str(), refused)?;
    is_shown(rt, alloc, refused, trace.as_str(), 5, "")
}

/// The first step that is refused is this one, for this fault.
fn is_refused(alloc: Global, trace: &str, wanted: &str) -> Result<(), Fail> {
    let refused = refused_step(alloc, trace)?;
    same_text(trace, refused.as_str(), wanted)
}

/// A trace, a part of it and what stands in its place, and the number of the first bad line then.
type BadLine = (Row, &'static str, &'static str, u64);

/// A text of version 1 knows no `repeat`, and only one of version 3 knows members. Members are numbered from 1.
const BAD_LINES: [BadLine; 10] = [
    (CROSSING, "end 20\n", "", 23),
    (CROSSING, "end 20\n", "end 19\n", 23),
    (CROSSING, "34\ndeliver 0\n", "34\ndeliver 00\n", 7),
    (CROSSING, "34\ndeliver 0\n", "34\nrepeat 0\n", 7),
    (REPEATED, "shardkv-trace 2\n", "shardkv-trace 1\n", 5),
    (REPEATED, "repeat 0\n", "repeat\n", 5),
    (MEMBER_STARVED, "shardkv-trace 3\n", "shardkv-trace 2\n", 18),
    (MEMBER_STARVED, "run 1.5.3\n", "run 1.5.0\n", 18),
    (MEMBER_STARVED, "run 1.5.3\n", "run 1.5.\n", 18),
    (MEMBER_STARVED, "run 1.5.3\n", "run 1.5.3.1\n", 18),
];

/// The number of the first line that is bad. It is 0 where none is told.
fn bad_line(alloc: Global, trace: &str) -> u64 {
    let mut sink = Sink::new(alloc, 100);
    match told(
        alloc,
        TWO_SHARDS.as_bytes(),
        trace.as_bytes(),
        &ONE,
        &mut sink,
    ) {
        Err(ShowFault::Trace { line }) => line,
        _ => 0,
    }
}

#[test]
fn the_first_bad_line_is_told(rt: HostRuntime) -> Result<(), Fail> {
    for bad in &BAD_LINES {
        is_bad(&rt, rt.alloc(), bad)?;
    }
    Ok(())
}

/// The trace with that part in another form is bad at this line, and ends by 4.
fn is_bad<R: Threads + Wait>(rt: &R, alloc: Global, bad: &BadLine) -> Result<(), Fail> {
    let (row, part, other, wanted) = bad;
    let trace = with(alloc, row.trace, part, other)?;
    same_number(other, bad_line(alloc, trace.as_str()), *wanted)?;
    is_shown(rt, alloc, other, trace.as_str(), 4, "")
}

/// These texts end with this status, and nothing is written.
fn ends_by(alloc: Global, line: &str, table: &[u8], trace: &[u8], status: u8) -> Result<(), Fail> {
    let mut sink = Sink::new(alloc, 100);
    let ended = show(alloc, table, trace, &ONE, &mut sink);
    same_number(line, u64::from(ended), u64::from(status))?;
    same_count(line, sink.taken.len(), 0)
}

/// A table without a slot is told of before the trace.
fn slot_is_missing(alloc: Global) -> Result<(), Fail> {
    let table = with(alloc, TWO_SHARDS, "from = 512", "from = 513")?;
    let mut sink = Sink::new(alloc, 100);
    let ended = told(alloc, table.as_bytes(), b"", &ONE, &mut sink);
    let missing = matches!(ended, Err(ShowFault::Table(TableFault::Missing)));
    holds("a slot is missing", missing)
}

#[test]
fn the_table_is_read_before_the_trace(rt: HostRuntime) -> Result<(), Fail> {
    let alloc = rt.alloc();
    let (table, trace) = (TWO_SHARDS.as_bytes(), CROSSING.trace.as_bytes());
    ends_by(alloc, "no ranges", b"shards = 2\n", trace, 3)?;
    ends_by(alloc, "no text", b"\xff", trace, 3)?;
    ends_by(alloc, "neither is a text", b"\xff", b"\xff", 3)?;
    ends_by(alloc, "a trace that is no text", table, b"\xff", 4)?;
    slot_is_missing(alloc)
}
