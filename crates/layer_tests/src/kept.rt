//! Which texts are kept beside their replies: those of more than 128 bytes.

use crate::jobs::{ONE, discard, layer_of, run_or_not, two_shards};
use placement::Table;
use shard_exec::{Ended, ExecFault, Store};
use shard_workers::OpenGate;
use std::alloc::Global;
use std::process::Abort;
use std::test::Fail;
use test_support::same_count;

/// A request that is run: its clock, its words, and the size of the text that has to be kept, or 0 for none.
type Row<'a> = (u64, &'a str, usize);

/// Each was answered, and the text that is kept has this size.
fn are_kept(words: &str, done: &[Ended], size: usize) -> Result<(), Fail> {
    for ended in done {
        is_kept(words, ended, size)?;
    }
    Ok(())
}

/// It was answered, and the text that is kept has this size.
fn is_kept(words: &str, ended: &Ended, size: usize) -> Result<(), Fail> {
    match &ended.reply {
        Some(answered) => same_count(words, answered.text.len(), size),
        None => Err("starved".into()),
    }
}

/// The layer was run, and the text that is kept has this size.
fn keeps(words: &str, outcome: &Result<Vec<Ended>, ExecFault>, size: usize) -> Result<(), Fail> {
    match outcome {
        Ok(done) => are_kept(words, done.as_slice(), size),
        Err(_) => Err("not run".into()),
    }
}

/// Runs a request, and looks at the text that is kept.
fn keep_row(
    rt: &impl Abort,
    alloc: Global,
    store: &mut Store,
    table: &Table,
    row: &Row<'_>,
) -> Result<(), Fail> {
    let (clock, words, size) = *row;
    let asked = layer_of(alloc, table, clock, &[words])?;
    let outcome = run_or_not(rt, alloc, store, asked, &[], &ONE, &OpenGate);
    let kept = keeps(words, &outcome, size);
    discard(outcome);
    kept
}

/// Runs requests one after another.
fn keep_rows(
    rt: &impl Abort,
    alloc: Global,
    store: &mut Store,
    table: &Table,
    rows: &[Row<'_>],
) -> Result<(), Fail> {
    for row in rows {
        keep_row(rt, alloc, store, table, row)?;
    }
    Ok(())
}

/// Runs requests one after another in a new store of two shards.
fn keep_anew(rt: &impl Abort, alloc: Global, rows: &[Row<'_>]) -> Result<(), Fail> {
    let table = two_shards(alloc)?;
    let mut store = Store::new(alloc, table)?;
    keep_rows(rt, alloc, &mut store, &table, rows)
}

#[rattlefmt::skip]
const STRINGS: [Row<'static>; 13] = [
    (1, "SETRANGE a 119 x", 0),
    (2, "GET a", 0),
    (3, "GET c", 0),
    (4, "SETRANGE a 120 x", 0),
    (5, "GET a", 129),
    (6, "GETRANGE a 0 9", 0),
    (7, "MGET a c a", 267),
    (8, "MGET c c", 0),
    (9, "GETSET a 1", 129),
    (10, "GETDEL a", 0),
    (11, "SETRANGE a 120 x", 0),
    (12, "GETDEL a", 129),
    (13, "GET a", 0),
];

#[test]
fn long_strings_are_kept(rt: HostRuntime) -> Result<(), Fail> {
    keep_anew(&rt, rt.alloc(), &STRINGS)
}

/// Each of the two long words has a text of 130 bytes.
#[rattlefmt::skip]
const ITEMS: [Row<'static>; 10] = [
    (
        1,
        "RPUSH a 1 \
         one-word-of-more-than-a-hundred-letters-is-told-in-two-halvesone-word-of-more-than-a-hundred-letters-is-told-in-two-halves \
         one-word-of-more-than-a-hundred-letters-is-told-in-two-halvesone-word-of-more-than-a-hundred-letters-is-told-in-two-halves",
        0,
    ),
    (2, "LRANGE a 0 -1", 271),
    (3, "LINDEX a 0", 0),
    (4, "LINDEX a 1", 130),
    (5, "LPOP a", 0),
    (6, "RPOPLPUSH a c", 130),
    (7, "LMOVE a c LEFT LEFT", 130),
    (8, "RPOP c", 130),
    (9, "LPOP c", 130),
    (10, "LPOP c", 0),
];

#[test]
fn long_items_are_kept(rt: HostRuntime) -> Result<(), Fail> {
    keep_anew(&rt, rt.alloc(), &ITEMS)
}
