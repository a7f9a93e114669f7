//! Beginnings of traces, as a killed server leaves them, and the texts that are made of them.

use crate::tests::showing::is_shown;
use crate::tests::traces::{CROSSING, UNSETTLED};
use replay::{Beginning, show, whole_beginning};
use shard_workers::InTurn;
use std::alloc::{AllocError, Global};
use std::num::NonZeroUsize;
use std::test::Fail;
use test_support::{Sink, TWO_SHARDS, same_bytes, same_count, same_number};

/// A beginning, the text that is made of it, how many steps that has, and how many bytes were left out.
type Row = (&'static str, &'static str, u64, usize);

const ROWS: [Row; 8] = [
    ("", "end 0\n", 0, 0),
    ("shardkv-tra", "end 0\n", 0, 11),
    ("shardkv-trace 3\n", "shardkv-trace 3\nend 0\n", 0, 0),
    (
        "shardkv-trace 3\nmax 9\nop",
        "shardkv-trace 3\nmax 9\nend 0\n",
        0,
        2,
    ),
    (
        "shardkv-trace 3\nmax 9\nopen\nopen\n",
        "shardkv-trace 3\nmax 9\nopen\nopen\nend 2\n",
        2,
        0,
    ),
    (
        "shardkv-trace 3\nmax 9\nopen\nend 1",
        "shardkv-trace 3\nmax 9\nopen\nend 1\n",
        1,
        5,
    ),
    (
        "shardkv-trace 3\nmax 9\nopen\nend 1\n",
        "shardkv-trace 3\nmax 9\nopen\nend 1\n",
        1,
        0,
    ),
    (
        "shardkv-trace 3\nmax 9\nopen\nend 7\n\nend",
        "shardkv-trace 3\nmax 9\nopen\nend 7\n\nend 3\n",
        3,
        3,
    ),
];

/// What is made of these bytes.
fn made_of(alloc: Global, bytes: &[u8]) -> Result<Beginning, AllocError> {
    whole_beginning(Vec::from_slice(alloc, bytes)?)
}

/// This is made of the beginning.
fn is_made(alloc: Global, row: &Row) -> Result<(), Fail> {
    let (text, whole, steps, left_out) = row;
    let made = made_of(alloc, text.as_bytes())?;
    same_bytes(text, made.text.as_slice(), whole.as_bytes())?;
    same_number(text, made.steps, *steps)?;
    same_count(text, made.left_out, *left_out)
}

#[test]
fn beginnings_are_made_whole(rt: HostRuntime) -> Result<(), Fail> {
    for row in &ROWS {
        is_made(rt.alloc(), row)?;
    }
    Ok(())
}

#[test]
fn a_trace_without_its_end_has_its_report(rt: HostRuntime) -> Result<(), Fail> {
    let alloc = rt.alloc();
    let (steps, _) = UNSETTLED.trace.split_once("nd 5").ok_or("no end")?;
    let made = made_of(alloc, steps.as_bytes())?;
    let text = str::from_utf8(made.text.as_slice()).ok().ok_or("no text")?;
    is_shown(&rt, alloc, UNSETTLED.name, text, 0, UNSETTLED.report)
}

/// How many bytes of the trace stand before its steps.
const HEAD: usize = 25;

/// So much of the trace agrees.
fn agrees(alloc: Global, bytes: &[u8]) -> Result<(), Fail> {
    let made = made_of(alloc, bytes)?;
    let mut sink = Sink::new(alloc, 100);
    let one = InTurn(NonZeroUsize::MIN);
    let ended = show(
        alloc,
        TWO_SHARDS.as_bytes(),
        made.text.as_slice(),
        &one,
        &mut sink,
    );
    same_number("the status", u64::from(ended), 0)
}

#[test]
fn each_beginning_agrees(rt: HostRuntime) -> Result<(), Fail> {
    let trace = CROSSING.trace.as_bytes();
    for cut in HEAD..trace.len() {
        agrees(rt.alloc(), &trace[..cut])?;
    }
    Ok(())
}
