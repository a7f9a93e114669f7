//! Transactions in layers: by several workers, over several shards, and with members that are skipped.

use crate::jobs::{
    Asked, NAME_X, ONE, answers_but, ask_all, ask_anew, ask_rows, fill_x, layer_of, number_of,
    two_shards,
};
use crate::trouble::Trouble;
use groups::{ConnId, RequestId, SkipId};
use placement::Table;
use shard_crew::Crew;
use shard_exec::Store;
use shard_workers::{InTurn, OpenGate, Workers};
use std::alloc::Global;
use std::process::Abort;
use std::test::Fail;
use test_support::same_text;

/// The first request of a layer.
const FIRST: RequestId = RequestId {
    conn: ConnId(1),
    seq: 1,
};

/// Its second member.
const SECOND_MEMBER: SkipId = SkipId::Part(FIRST, 2);

/// The second member of a request that is in no layer.
const OF_ANOTHER: SkipId = SkipId::Part(
    RequestId {
        conn: ConnId(2),
        seq: 1,
    },
    2,
);

/// The first of two EXECs, each on its own shard. A member of the second names the set at `x`, and its last one answers by an
/// error, which keeps none of the others from being run.
const FIRST_EXEC: &str = "SET a 1; INCR a; GET a";

const TWO_ANSWERED: &str = "*3\r\n+OK\r\n:2\r\n$1\r\n2\r\n \
    *4\r\n:2\r\n:100\r\n:2\r\n-WRONGTYPE Operation against a key holding the wrong kind of value\r\n ";

#[rattlefmt::skip]
const TWO_LEFT: [Asked; 2] = [
    (2, "GET a", "$1\r\n2\r\n "),
    (2, "LRANGE c 0 -1", "*2\r\n$1\r\n1\r\n$1\r\n2\r\n "),
];

/// Two EXECs in one layer, by these workers.
fn run_two<W: Workers>(rt: &impl Abort, alloc: Global, workers: &W) -> Result<(), Fail> {
    let table = two_shards(alloc)?;
    let mut store = Store::new(alloc, table)?;
    fill_x(rt, alloc, &mut store, &table, 0)?;
    let second = format!(in alloc; "RPUSH c 1 2; {NAME_X}; LLEN c; GET c")?;
    let two = layer_of(alloc, &table, 1, &[FIRST_EXEC, second.as_str()])?;
    ask_all(rt, alloc, &mut store, two, workers, &OpenGate, TWO_ANSWERED)?;
    ask_rows(rt, alloc, &mut store, &table, &TWO_LEFT)
}

#[test]
fn two_workers_in_turn_run_an_exec_each(rt: HostRuntime) -> Result<(), Fail> {
    run_two(&rt, rt.alloc(), &InTurn(number_of(2)))
}

#[test]
fn a_crew_of_two_runs_an_exec_each(rt: HostRuntime) -> Result<(), Fail> {
    run_two(&rt, rt.alloc(), &Crew::new(&rt, number_of(2)))
}

#[rattlefmt::skip]
const OVER_TWO: [Asked; 5] = [
    (1, "SET a 1; RENAME a c; APPEND c 2", "*3\r\n+OK\r\n+OK\r\n:2\r\n "),
    (2, "GET a", "$-1\r\n "),
    (2, "GET c", "$2\r\n12\r\n "),
    (3, "DEL a; GET a", "*2\r\n:0\r\n$-1\r\n "),
    (2, "GET c; GET a", "stale 1"),
];

#[test]
fn an_exec_of_two_shards(rt: HostRuntime) -> Result<(), Fail> {
    ask_anew(&rt, rt.alloc(), &OVER_TWO)
}

/// Over both shards.
const ASKED: [&str; 1] = ["SET a 1; SET c 2; APPEND a 3; MGET a c"];

const SKIPPED_ONE: &str = "*4\r\n+OK\r\n-ERR out of memory\r\n:2\r\n*2\r\n$2\r\n13\r\n$-1\r\n ";

const SKIPPED_NONE: &str = "*4\r\n+OK\r\n+OK\r\n:2\r\n*2\r\n$2\r\n13\r\n$1\r\n2\r\n ";

/// An EXEC over two shards, at this clock, of which this is to starve.
fn run_but(
    rt: &impl Abort,
    alloc: Global,
    store: &mut Store,
    table: &Table,
    clock: u64,
    starved: SkipId,
    wanted: &str,
) -> Result<(), Fail> {
    let asked = layer_of(alloc, table, clock, &ASKED)?;
    let answered = answers_but(rt, alloc, store, asked, &[starved], &ONE, &OpenGate)?;
    same_text("what became of an EXEC", answered.as_str(), wanted)
}

#[rattlefmt::skip]
const LEFT: [Asked; 2] = [
    (4, "GET a", "$2\r\n13\r\n "),
    (4, "GET c", "$1\r\n2\r\n "),
];

/// One of its members is skipped, then all of it, then what is not in the layer.
fn skips(rt: &impl Abort, alloc: Global, store: &mut Store, table: &Table) -> Result<(), Fail> {
    run_but(rt, alloc, store, table, 1, SECOND_MEMBER, SKIPPED_ONE)?;
    run_but(rt, alloc, store, table, 2, SkipId::Whole(FIRST), "starved ")?;
    run_but(rt, alloc, store, table, 3, OF_ANOTHER, SKIPPED_NONE)?;
    ask_rows(rt, alloc, store, table, &LEFT)
}

#[test]
fn members_that_are_skipped(rt: HostRuntime) -> Result<(), Fail> {
    let table = two_shards(rt.alloc())?;
    let mut store = Store::new(rt.alloc(), table)?;
    skips(&rt, rt.alloc(), &mut store, &table)
}
