//! A layer of 64 requests over 64 shards gives the same whoever runs it. One of them names the set at `x`.

use crate::jobs::{FILL_X, NAME_X, ONE, answers, ask, layer, number_of, push_job, table_of};
use crate::trouble::Trouble;
use layer_planner::{Job, Layer};
use placement::Table;
use shard_crew::Crew;
use shard_exec::Store;
use shard_workers::{InTurn, OpenGate, Workers};
use std::alloc::{AllocError, Global};
use std::process::Abort;
use std::sync::Wait;
use std::test::Fail;
use std::thread::Threads;
use test_support::{holds, same_count, same_text};

/// The first of `0`, `1`, `2` and so on that lies on this shard, of 10,000.
fn key_of(alloc: Global, table: &Table, shard: u8) -> Result<Option<String>, AllocError> {
    for number in 0..10_000u32 {
        let key = format!(in alloc; "{number}")?;
        if table.shard_of(key.as_bytes()).number() == shard {
            return Ok(Some(key));
        }
    }
    Ok(None)
}

/// For each shard a key that lies there.
fn keys(alloc: Global, table: &Table) -> Result<Vec<String>, AllocError> {
    let mut keys = Vec::new(alloc);
    for shard in 0..64u8 {
        if let Some(key) = key_of(alloc, table, shard)? {
            keys.push(key)?;
        }
    }
    Ok(keys)
}

/// What is asked about a key of this number: at the clock 1 each is set, and at the clock 2 every second one is removed.
fn asked_of(alloc: Global, clock: u64, number: u64, key: &str) -> Result<String, AllocError> {
    match (clock, number % 2) {
        (1, _) => format!(in alloc; "SET {key} v{key}"),
        (_, 0) => format!(in alloc; "DEL {key}"),
        _ => format!(in alloc; "SET {key} w NX"),
    }
}

/// Puts the job of the request about the key of this number behind; at the shard of `x` that of naming the set there.
fn push_asked(
    alloc: Global,
    table: &Table,
    jobs: &mut Vec<Job>,
    clock: u64,
    number: u64,
    key: &str,
) -> Result<(), Trouble> {
    if table.shard_of(key.as_bytes()) == table.shard_of(b"x") {
        return push_job(alloc, table, jobs, number, clock, NAME_X);
    }
    let words = asked_of(alloc, clock, number, key)?;
    push_job(alloc, table, jobs, number, clock, words.as_str())
}

/// Puts the jobs of the requests about the keys behind.
fn push_all(
    alloc: Global,
    table: &Table,
    jobs: &mut Vec<Job>,
    keys: &[String],
    clock: u64,
) -> Result<(), Trouble> {
    let mut number = 0u64;
    for key in keys {
        number = number.wrapping_add(1);
        push_asked(alloc, table, jobs, clock, number, key.as_str())?;
    }
    Ok(())
}

/// The layer of 64 requests at this clock.
fn layer_at(alloc: Global, table: &Table, keys: &[String], clock: u64) -> Result<Layer, Trouble> {
    let mut jobs = Vec::new(alloc);
    push_all(alloc, table, &mut jobs, keys, clock)?;
    layer(jobs)
}

/// Runs a layer of 64 requests, and puts behind what was answered.
fn push_layer<W: Workers>(
    rt: &impl Abort,
    alloc: Global,
    store: &mut Store,
    requests: Layer,
    workers: &W,
    all: &mut String,
) -> Result<(), Trouble> {
    let answered = answers(rt, alloc, store, requests, workers, &OpenGate)?;
    Ok(all.push_str(answered.as_str())?)
}

/// What is answered of a key.
fn value(
    rt: &impl Abort,
    alloc: Global,
    store: &mut Store,
    table: &Table,
    key: &str,
) -> Result<String, Trouble> {
    let words = format!(in alloc; "GET {key}")?;
    ask(rt, alloc, store, table, 3, words.as_str())
}

/// Puts behind what is at a key.
fn push_value(
    rt: &impl Abort,
    alloc: Global,
    store: &mut Store,
    table: &Table,
    key: &str,
    all: &mut String,
) -> Result<(), Trouble> {
    let value = value(rt, alloc, store, table, key)?;
    Ok(all.push_str(value.as_str())?)
}

/// Puts behind what is at each key.
fn push_values(
    rt: &impl Abort,
    alloc: Global,
    store: &mut Store,
    table: &Table,
    keys: &[String],
    all: &mut String,
) -> Result<(), Trouble> {
    for key in keys {
        push_value(rt, alloc, store, table, key.as_str(), all)?;
    }
    Ok(())
}

/// Runs two layers of 64 requests. Puts behind what was answered, and then what is at each key.
fn push_answers<W: Workers>(
    rt: &impl Abort,
    alloc: Global,
    store: &mut Store,
    table: &Table,
    keys: &[String],
    workers: &W,
    all: &mut String,
) -> Result<(), Trouble> {
    let first = layer_at(alloc, table, keys, 1)?;
    push_layer(rt, alloc, store, first, workers, all)?;
    let second = layer_at(alloc, table, keys, 2)?;
    push_layer(rt, alloc, store, second, workers, all)?;
    push_values(rt, alloc, store, table, keys, all)
}

/// What is answered to two layers of 64 requests, in a store with the set alone, and then what is at each key.
fn answers_of<W: Workers>(
    rt: &impl Abort,
    alloc: Global,
    table: &Table,
    keys: &[String],
    workers: &W,
) -> Result<String, Trouble> {
    let mut store = Store::new(alloc, *table)?;
    let mut all = ask(rt, alloc, &mut store, table, 0, FILL_X)?;
    push_answers(rt, alloc, &mut store, table, keys, workers, &mut all)?;
    Ok(all)
}

/// These workers give the same answers.
fn same_of<W: Workers>(
    rt: &impl Abort,
    alloc: Global,
    table: &Table,
    keys: &[String],
    workers: &W,
    first: &str,
) -> Result<(), Fail> {
    let all = answers_of(rt, alloc, table, keys, workers)?;
    same_text("the answers of more workers", all.as_str(), first)
}

/// So many workers give the same answers, in turn and on threads.
fn same_of_number<R: Abort + Threads + Wait>(
    rt: &R,
    alloc: Global,
    table: &Table,
    keys: &[String],
    number: usize,
    first: &str,
) -> Result<(), Fail> {
    let number = number_of(number);
    same_of(rt, alloc, table, keys, &InTurn(number), first)?;
    same_of(rt, alloc, table, keys, &Crew::new(rt, number), first)
}

/// One worker's answers are those of more.
fn same_of_all<R: Abort + Threads + Wait>(
    rt: &R,
    alloc: Global,
    table: &Table,
    keys: &[String],
    first: &str,
) -> Result<(), Fail> {
    holds("there is a set", first.starts_with(":100\r\n "))?;
    holds("it is named", first.contains(" :100\r\n "))?;
    holds("the last key is gone", first.ends_with("$-1\r\n "))?;
    for number in [1, 2, 8, 64] {
        same_of_number(rt, alloc, table, keys, number, first)?;
    }
    Ok(())
}

/// The answers about these keys are the same of all workers.
fn as_one<R: Abort + Threads + Wait>(
    rt: &R,
    alloc: Global,
    table: &Table,
    keys: &[String],
) -> Result<(), Fail> {
    same_count("keys", keys.len(), 64)?;
    let first = answers_of(rt, alloc, table, keys, &ONE)?;
    same_of_all(rt, alloc, table, keys, first.as_str())
}

#[test]
fn as_one_worker_does(rt: HostRuntime) -> Result<(), Fail> {
    let table = table_of(rt.alloc(), 64)?;
    let keys = keys(rt.alloc(), &table)?;
    as_one(&rt, rt.alloc(), &table, keys.as_slice())
}
