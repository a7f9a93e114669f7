//! Requests of one group in one layer are run in one go, in their order, whoever runs them.

use crate::jobs::{
    Asked, NAME_X, ONE, ask_all, ask_rows, fill_x, layer, number_of, push_job, table_of,
};
use crate::trouble::Trouble;
use groups::RequestId;
use layer_planner::{Job, Layer};
use placement::Table;
use shard_crew::Crew;
use shard_exec::Store;
use shard_workers::{Gate, InTurn, OpenGate, Workers};
use std::alloc::{AllocError, Global};
use std::process::Abort;
use std::sync::Wait;
use std::sync::atomic::{AtomicU64, Ordering};
use std::test::Fail;
use std::thread::Threads;
use test_support::same_number;

/// How often a key is counted up.
const TIMES: u64 = 200;

/// Puts the jobs of 200 requests behind that count one key up.
fn push_counting(alloc: Global, table: &Table, jobs: &mut Vec<Job>) -> Result<(), Trouble> {
    for number in 0..TIMES {
        let seq = number.wrapping_add(1);
        push_job(alloc, table, jobs, seq, seq, "INCR a")?;
    }
    Ok(())
}

/// A layer of 200 requests that count one key up.
fn counting(alloc: Global, table: &Table) -> Result<Layer, Trouble> {
    let mut jobs = Vec::new(alloc);
    push_counting(alloc, table, &mut jobs)?;
    layer(jobs)
}

/// What they are answered.
fn counted(alloc: Global) -> Result<String, AllocError> {
    let mut answers = String::new(alloc);
    for number in 0..TIMES {
        write!(answers, ":{}\r\n ", number.wrapping_add(1))?;
    }
    Ok(answers)
}

/// What lies at the key in the end.
const LAST: [Asked; 1] = [(1000, "GET a", "$3\r\n200\r\n ")];

/// These workers run them so, and the key is counted up in the end.
fn count_in<W: Workers>(
    rt: &impl Abort,
    alloc: Global,
    store: &mut Store,
    table: &Table,
    workers: &W,
    wanted: &str,
) -> Result<(), Fail> {
    let requests = counting(alloc, table)?;
    ask_all(rt, alloc, store, requests, workers, &OpenGate, wanted)?;
    ask_rows(rt, alloc, store, table, &LAST)
}

/// These workers do so in a new store.
fn count_with<W: Workers>(
    rt: &impl Abort,
    alloc: Global,
    table: &Table,
    workers: &W,
    wanted: &str,
) -> Result<(), Fail> {
    let mut store = Store::new(alloc, *table)?;
    count_in(rt, alloc, &mut store, table, workers, wanted)
}

/// So many workers do so, in turn and on threads.
fn count_with_number<R: Abort + Threads + Wait>(
    rt: &R,
    alloc: Global,
    table: &Table,
    number: usize,
    wanted: &str,
) -> Result<(), Fail> {
    let number = number_of(number);
    count_with(rt, alloc, table, &InTurn(number), wanted)?;
    count_with(rt, alloc, table, &Crew::new(rt, number), wanted)
}

/// Workers of every kind do so.
fn count_with_all<R: Abort + Threads + Wait>(
    rt: &R,
    alloc: Global,
    table: &Table,
    wanted: &str,
) -> Result<(), Fail> {
    count_with(rt, alloc, table, &ONE, wanted)?;
    for number in [1, 2, 8] {
        count_with_number(rt, alloc, table, number, wanted)?;
    }
    Ok(())
}

#[test]
fn two_hundred_of_one_group(rt: HostRuntime) -> Result<(), Fail> {
    let table = table_of(rt.alloc(), 4)?;
    let wanted = counted(rt.alloc())?;
    count_with_all(&rt, rt.alloc(), &table, wanted.as_str())
}

/// Writes down the numbers of requests, each a digit, as they are run.
#[derive(Drop)]
struct Noted {
    order: AtomicU64,
}

impl Gate for Noted {
    fn enter(&self, id: RequestId) {
        let before = self.order.load(Ordering::SeqCst);
        self.order.store(
            before.wrapping_mul(10).wrapping_add(id.seq),
            Ordering::SeqCst,
        );
    }

    fn leave(&self, _id: RequestId) {}
}

/// Of four shards `a` lies on 0, `b` on 1, `z` on 2 and `x` on 3: the layer has three units.
const ASKED: [&str; 6] = [
    "SET a 1",
    "MSET b 1 z 1",
    "GET a",
    NAME_X,
    "TYPE x",
    "APPEND a 2",
];

/// What they are answered where there is a set at `x`, and where there is none.
const LARGE: &str = "+OK\r\n +OK\r\n $1\r\n1\r\n :100\r\n +set\r\n :2\r\n ";

const SMALL: &str = "+OK\r\n +OK\r\n $1\r\n1\r\n :0\r\n +none\r\n :2\r\n ";

/// Puts their jobs behind, each at the clock of its number.
fn push_asked(alloc: Global, table: &Table, jobs: &mut Vec<Job>) -> Result<(), Trouble> {
    let mut number = 0u64;
    for words in ASKED {
        number = number.wrapping_add(1);
        push_job(alloc, table, jobs, number, number, words)?;
    }
    Ok(())
}

/// The layer.
fn asked(alloc: Global, table: &Table) -> Result<Layer, Trouble> {
    let mut jobs = Vec::new(alloc);
    push_asked(alloc, table, &mut jobs)?;
    layer(jobs)
}

/// These workers run the layer so over this store, and the gate is told.
fn run_over<W: Workers>(
    rt: &impl Abort,
    alloc: Global,
    store: &mut Store,
    table: &Table,
    workers: &W,
    gate: &(dyn Gate + Sync),
    wanted: &str,
) -> Result<(), Fail> {
    let requests = asked(alloc, table)?;
    ask_all(rt, alloc, store, requests, workers, gate, wanted)
}

/// They do so in this order.
fn runs_over_in<W: Workers>(
    rt: &impl Abort,
    alloc: Global,
    store: &mut Store,
    table: &Table,
    workers: &W,
    wanted: &str,
    order: u64,
) -> Result<(), Fail> {
    let gate = Noted {
        order: AtomicU64::new(0),
    };
    run_over(rt, alloc, store, table, workers, &gate, wanted)?;
    same_number("the order", gate.order.load(Ordering::SeqCst), order)
}

/// These workers run the layer in this order over a store that has the set at `x`.
fn runs_in<W: Workers>(
    rt: &impl Abort,
    alloc: Global,
    table: &Table,
    workers: &W,
    order: u64,
) -> Result<(), Fail> {
    let mut store = Store::new(alloc, *table)?;
    fill_x(rt, alloc, &mut store, table, 0)?;
    runs_over_in(rt, alloc, &mut store, table, workers, LARGE, order)
}

/// The same over a new store.
fn runs_small_in<W: Workers>(
    rt: &impl Abort,
    alloc: Global,
    table: &Table,
    workers: &W,
    order: u64,
) -> Result<(), Fail> {
    let mut store = Store::new(alloc, *table)?;
    runs_over_in(rt, alloc, &mut store, table, workers, SMALL, order)
}

#[test]
fn units_run_by_their_first_stamps(rt: HostRuntime) -> Result<(), Fail> {
    let table = table_of(rt.alloc(), 4)?;
    runs_in(&rt, rt.alloc(), &table, &ONE, 136_245)?;
    runs_in(&rt, rt.alloc(), &table, &InTurn(number_of(2)), 136_452)?;
    runs_in(&rt, rt.alloc(), &table, &InTurn(number_of(8)), 136_245)
}

#[test]
fn units_with_little_to_do_are_not_dealt(rt: HostRuntime) -> Result<(), Fail> {
    let table = table_of(rt.alloc(), 4)?;
    runs_small_in(&rt, rt.alloc(), &table, &ONE, 136_245)?;
    runs_small_in(&rt, rt.alloc(), &table, &InTurn(number_of(2)), 136_245)?;
    runs_small_in(
        &rt,
        rt.alloc(),
        &table,
        &Crew::new(&rt, number_of(2)),
        136_245,
    )
}
