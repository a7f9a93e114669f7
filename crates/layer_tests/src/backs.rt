//! The store with its rows: what comes of the layers that it is brought, and which of them come back.

use crate::backs::Does::{
    Brings, BringsBut, BringsToUnwilling, HandsOver, HasFailed, HasRows, Holds, Tells,
};
use crate::held::Unwilling;
use crate::jobs::{FILL_X, NAME_X, ONE, discard, layer_of, string, table_of, two_shards};
use crate::trouble::Trouble;
use back::Back;
use groups::{ConnId, RequestId, SkipId};
use hashed_texts::TextHasher;
use layer_results::{Done, DoneRow};
use placement::Table;
use resp::write_reply;
use shard_exec::ExecFault;
use shard_workers::{OpenGate, Workers};
use std::alloc::{AllocError, Global};
use std::test::Fail;
use test_support::{holds, same_bytes, same_count, same_text};

/// The first request of a layer.
const FIRST: SkipId = SkipId::Whole(RequestId {
    conn: ConnId(1),
    seq: 1,
});

/// The second one.
const SECOND: SkipId = SkipId::Whole(RequestId {
    conn: ConnId(1),
    seq: 2,
});

/// The first member of the first request.
const FIRST_MEMBER: SkipId = SkipId::Part(
    RequestId {
        conn: ConnId(1),
        seq: 1,
    },
    1,
);

/// The words of a layer's requests, and their clock.
type Brought = (u64, &'static [&'static str]);

/// What became of a layer, and how many of its requests come back.
type Became = (&'static str, usize);

const RUN: Became = ("run", 0);

const FAILED: Became = ("failed", 0);

/// What is done with a store, or looked at.
#[derive(Clone, Copy)]
enum Does {
    /// It is brought this layer, and that becomes of it.
    Brings(Brought, Became),
    /// The same, by workers of which none can be started.
    BringsToUnwilling(Brought, Became),
    /// It is brought this layer, of which this is to starve. It is run.
    BringsBut(Brought, SkipId),
    /// This came of the last layer.
    Tells(&'static str),
    /// The same, which is handed over.
    HandsOver(&'static str),
    /// It has so many rows.
    HasRows(usize),
    /// The shards hold this.
    Holds(&'static str),
    /// It has failed.
    HasFailed,
}

/// A store of these shards with no rows.
fn new_back(alloc: Global, table: &Table) -> Result<Back, Trouble> {
    Ok(Back::new(alloc, *table, TextHasher::Fixed)?)
}

/// What became of a layer.
fn became(outcome: &Result<(), ExecFault>) -> Became {
    match outcome {
        Ok(()) => RUN,
        Err(ExecFault::Stale(layer)) => ("stale", layer.len()),
        Err(ExecFault::Memory(layer)) => ("memory", layer.len()),
        Err(ExecFault::Failed) => FAILED,
        Err(ExecFault::Foreign(layer)) => ("foreign", layer.len()),
    }
}

/// That became of a layer which is wanted.
fn same_became(got: Became, wanted: Became) -> Result<(), Fail> {
    same_text("what became of a layer", got.0, wanted.0)?;
    same_count("how many come back", got.1, wanted.1)
}

/// Brings a layer, of which these requests are to starve: that becomes of it.
fn bring<W: Workers>(
    alloc: Global,
    back: &mut Back,
    table: &Table,
    brought: &Brought,
    starved: &[SkipId],
    workers: &W,
    wanted: Became,
) -> Result<(), Fail> {
    let layer = layer_of(alloc, table, brought.0, brought.1)?;
    let outcome = back.run(layer, starved, workers, &OpenGate);
    let got = became(&outcome);
    discard(outcome);
    same_became(got, wanted)
}

/// Puts the reply of a request behind, or the number of one that starved, with a blank behind it.
fn push_row(alloc: Global, bytes: &mut Vec<u8>, row: &DoneRow) -> Result<(), AllocError> {
    match &row.reply {
        Some(reply) => write_reply(reply, bytes)?,
        None => bytes.extend_from_slice(format!(in alloc; "{} starved", row.id.seq)?.as_bytes())?,
    }
    bytes.extend_from_slice(b" ")
}

/// Puts what came of each request behind.
fn push_rows(alloc: Global, bytes: &mut Vec<u8>, rows: &[DoneRow]) -> Result<(), AllocError> {
    for row in rows {
        push_row(alloc, bytes, row)?;
    }
    Ok(())
}

/// The replies, and the numbers of the requests that starved, in the order of the layer.
fn told(alloc: Global, done: &Done) -> Result<String, Trouble> {
    let mut bytes = Vec::new(alloc);
    push_rows(alloc, &mut bytes, done.rows())?;
    string(bytes)
}

/// This came of a layer.
fn same_told(alloc: Global, done: &Done, wanted: &str) -> Result<(), Fail> {
    let text = told(alloc, done)?;
    same_text("what came of a layer", text.as_str(), wanted)
}

/// This came of the last layer.
fn same_done(alloc: Global, back: &Back, wanted: &str) -> Result<(), Fail> {
    same_told(alloc, back.done(), wanted)
}

/// This came of the last layer, and is handed over.
fn same_handed_over(alloc: Global, back: &mut Back, wanted: &str) -> Result<(), Fail> {
    let done = back.hand_over();
    same_told(alloc, &done, wanted)
}

/// The shards hold this.
fn same_dump(alloc: Global, back: &Back, wanted: &str) -> Result<(), Fail> {
    let mut dump = Vec::new(alloc);
    back.dump(&mut dump)?;
    same_bytes("the dump", dump.as_slice(), wanted.as_bytes())
}

/// Does it, with the groups of this table.
fn act(alloc: Global, back: &mut Back, table: &Table, does: &Does) -> Result<(), Fail> {
    match does {
        Brings(brought, wanted) => bring(alloc, back, table, brought, &[], &ONE, *wanted),
        BringsToUnwilling(brought, wanted) => {
            bring(alloc, back, table, brought, &[], &Unwilling, *wanted)
        }
        BringsBut(brought, starved) => bring(alloc, back, table, brought, &[*starved], &ONE, RUN),
        Tells(wanted) => same_done(alloc, back, wanted),
        HandsOver(wanted) => same_handed_over(alloc, back, wanted),
        HasRows(wanted) => same_count("rows", back.rows().len(), *wanted),
        Holds(wanted) => same_dump(alloc, back, wanted),
        HasFailed => holds("it has failed", back.has_failed()),
    }
}

/// Does one after another, with the groups of this table.
fn follow(alloc: Global, back: &mut Back, table: &Table, acts: &[Does]) -> Result<(), Fail> {
    for does in acts {
        act(alloc, back, table, does)?;
    }
    Ok(())
}

/// Does one after another with a new store of two shards, with the groups of this table.
fn follow_anew(alloc: Global, table: &Table, acts: &[Does]) -> Result<(), Fail> {
    let two = two_shards(alloc)?;
    let mut back = new_back(alloc, &two)?;
    follow(alloc, &mut back, table, acts)
}

/// The same, with its own groups.
fn follow_own(alloc: Global, acts: &[Does]) -> Result<(), Fail> {
    let table = two_shards(alloc)?;
    follow_anew(alloc, &table, acts)
}

#[rattlefmt::skip]
const EXECUTED: [Does; 7] = [
    Tells(""),
    Brings((1, &["SET a 1", "SET c 2"]), RUN),
    Tells("+OK\r\n +OK\r\n "),
    BringsBut((2, &["GET a", "DEL c"]), SECOND),
    Tells("$1\r\n1\r\n 2 starved "),
    HasRows(3),
    Holds("key 61 string 31\nkey 63 string 32\n"),
];

#[test]
fn each_executed_request_has_its_row(rt: HostRuntime) -> Result<(), Fail> {
    follow_own(rt.alloc(), &EXECUTED)
}

/// A request that starves before another is told of in its place, and an EXEC has its row where one of its members starves.
#[rattlefmt::skip]
const IN_THEIR_PLACES: [Does; 6] = [
    BringsBut((1, &["SET a 1", "SET c 2"]), FIRST),
    Tells("1 starved +OK\r\n "),
    BringsBut((2, &["SETNX a 1; APPEND c 3"]), FIRST_MEMBER),
    Tells("*2\r\n-ERR out of memory\r\n:2\r\n "),
    HasRows(2),
    Holds("key 63 string 3233\n"),
];

#[test]
fn what_starved_is_told_of_in_its_place(rt: HostRuntime) -> Result<(), Fail> {
    follow_own(rt.alloc(), &IN_THEIR_PLACES)
}

#[rattlefmt::skip]
const HANDED_OVER: [Does; 7] = [
    Brings((1, &["GET a"]), RUN),
    HandsOver("$-1\r\n "),
    Tells(""),
    Brings((2, &["GET c"]), RUN),
    Brings((2, &[]), RUN),
    HandsOver(""),
    HasRows(2),
];

#[test]
fn what_came_last_is_handed_over_once(rt: HostRuntime) -> Result<(), Fail> {
    follow_own(rt.alloc(), &HANDED_OVER)
}

#[rattlefmt::skip]
const OF_ANOTHER_TABLE: [Does; 3] = [
    Brings((1, &["SET a 1", "SET z 2"]), ("foreign", 2)),
    HasRows(0),
    Brings((1, &["SET a 1"]), RUN),
];

#[test]
fn a_layer_of_another_table_comes_back(rt: HostRuntime) -> Result<(), Fail> {
    let other = table_of(rt.alloc(), 4)?;
    follow_anew(rt.alloc(), &other, &OF_ANOTHER_TABLE)
}

#[rattlefmt::skip]
const LATE: [Does; 4] = [
    Brings((8, &["SET a 1"]), RUN),
    Brings((8, &["SET y 1"]), ("stale", 1)),
    Brings((1, &["SET c 1"]), RUN),
    Holds("key 61 string 31\nkey 63 string 31\n"),
];

#[test]
fn a_late_layer_comes_back(rt: HostRuntime) -> Result<(), Fail> {
    follow_own(rt.alloc(), &LATE)
}

#[rattlefmt::skip]
const REFUSED: [Does; 6] = [
    Brings((1, &["SET a 1"]), RUN),
    Brings((1, &[FILL_X]), RUN),
    BringsToUnwilling((2, &["GET a", NAME_X]), FAILED),
    Brings((3, &["GET c"]), FAILED),
    HasFailed,
    HasRows(2),
];

#[test]
fn its_rows_outlive_a_refused_start(rt: HostRuntime) -> Result<(), Fail> {
    follow_own(rt.alloc(), &REFUSED)
}
