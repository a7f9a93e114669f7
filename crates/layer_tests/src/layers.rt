//! What becomes of one layer after another.

use crate::jobs::{Asked, ONE, answers_but, ask_all, ask_anew, ask_rows, layer_of, two_shards};
use groups::{ConnId, RequestId, SkipId};
use layer_planner::Job;
use placement::Table;
use shard_exec::Store;
use shard_workers::OpenGate;
use std::alloc::Global;
use std::process::Abort;
use std::test::Fail;
use test_support::{same_count, same_text};

/// One that is stale comes back, with its one request.
#[rattlefmt::skip]
const STALE: [Asked; 5] = [
    (8, "SET a 1", "+OK\r\n "),
    (3, "SET y 1", "stale 1"),
    (1, "SET c 1", "+OK\r\n "),
    (9, "GET y", "$-1\r\n "),
    (10, "GET a", "$1\r\n1\r\n "),
];

#[test]
fn stale_comes_back(rt: HostRuntime) -> Result<(), Fail> {
    ask_anew(&rt, rt.alloc(), &STALE)
}

/// Runs `SET a 1` and `SET c 2` as one layer, at the clock 1.
fn set_both(rt: &impl Abort, alloc: Global, store: &mut Store, table: &Table) -> Result<(), Fail> {
    let both = layer_of(alloc, table, 1, &["SET a 1", "SET c 2"])?;
    ask_all(rt, alloc, store, both, &ONE, &OpenGate, "+OK\r\n +OK\r\n ")
}

/// Each has two groups.
fn have_two_groups(jobs: &[Job]) -> Result<(), Fail> {
    for job in jobs {
        same_count("the groups of DEL a c", job.groups.len(), 2)?;
    }
    Ok(())
}

/// Lets `DEL a c` starve at the clock 5.
fn skip_both(rt: &impl Abort, alloc: Global, store: &mut Store, table: &Table) -> Result<(), Fail> {
    let both = layer_of(alloc, table, 5, &["DEL a c"])?;
    have_two_groups(both.jobs())?;
    let first = SkipId::Whole(RequestId {
        conn: ConnId(1),
        seq: 1,
    });
    let answered = answers_but(rt, alloc, store, both, &[first], &ONE, &OpenGate)?;
    same_text("DEL a c", answered.as_str(), "starved ")
}

#[rattlefmt::skip]
const SKIPPED: [Asked; 4] = [
    (4, "GET a", "stale 1"),
    (4, "GET c", "stale 1"),
    (6, "GET a", "$1\r\n1\r\n "),
    (6, "GET c", "$1\r\n2\r\n "),
];

/// Only the last stamps are others behind one that was skipped.
fn skips(rt: &impl Abort, alloc: Global, store: &mut Store, table: &Table) -> Result<(), Fail> {
    set_both(rt, alloc, store, table)?;
    skip_both(rt, alloc, store, table)?;
    ask_rows(rt, alloc, store, table, &SKIPPED)
}

#[test]
fn skipped_changes_nothing_but_the_last_stamps(rt: HostRuntime) -> Result<(), Fail> {
    let table = two_shards(rt.alloc())?;
    let mut store = Store::new(rt.alloc(), table)?;
    skips(&rt, rt.alloc(), &mut store, &table)
}

#[rattlefmt::skip]
const OF_TWO_SHARDS: [Asked; 5] = [
    (1, "SET a 1", "+OK\r\n "),
    (1, "SET c 2", "+OK\r\n "),
    (2, "DEL a c x", ":2\r\n "),
    (3, "GET a", "$-1\r\n "),
    (3, "GET c", "$-1\r\n "),
];

#[test]
fn a_request_of_two_shards(rt: HostRuntime) -> Result<(), Fail> {
    ask_anew(&rt, rt.alloc(), &OF_TWO_SHARDS)
}

#[test]
fn an_empty_layer_needs_nothing(rt: HostRuntime) -> Result<(), Fail> {
    let table = two_shards(rt.alloc())?;
    let mut store = Store::new(rt.alloc(), table)?;
    let empty = layer_of(rt.alloc(), &table, 1, &[])?;
    ask_all(&rt, rt.alloc(), &mut store, empty, &ONE, &OpenGate, "")
}
