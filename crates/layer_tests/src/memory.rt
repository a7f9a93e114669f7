//! What becomes of a layer where one allocation fails.
//!
//! Where all succeed these tests say no more than others do. They are meant to be run with each allocation failing in
//! turn.

use crate::jobs::{FILL_X, NAME_X, ONE, discard, layer_of, number_of, run_or_not, table_of, text};
use crate::trouble::Trouble;
use layer_planner::Layer;
use placement::Table;
use shard_crew::Crew;
use shard_exec::{Ended, ExecFault, Store};
use shard_workers::{InTurn, OpenGate, Workers};
use std::alloc::{AllocError, Global};
use std::process::Abort;
use std::test::Fail;

/// What is there before, `before` shown in hexadecimal below. Of four shards `a` lies on 0, `b` on 1, `z` on 2 and `x`
/// on 3.
const SET_BEFORE: [&str; 3] = ["SET a before", "SET z before", FILL_X];

/// The layer, which several workers run, since it names the set at `x` often.
const ASKED: [&str; 3] = ["MSET a 1 b 2", "SET z 3", NAME_X];

/// What its requests are answered.
const ANSWERED: [&str; 3] = ["+OK\r\n", "+OK\r\n", ":100\r\n"];

/// The line of the set at `x`, whose members are the numbers from 00 to 99.
fn set_line(alloc: Global) -> Result<String, AllocError> {
    let mut line = String::from_str(alloc, "key 78 set")?;
    for number in 0..100u32 {
        write!(line, " 3{}3{}", number / 10, number % 10)?;
    }
    line.push('\n')?;
    Ok(line)
}

/// What the shards hold before the layer.
fn before(alloc: Global) -> Result<String, AllocError> {
    let set = set_line(alloc)?;
    format!(in alloc; "key 61 string 6265666f7265\n{set}key 7a string 6265666f7265\n")
}

/// What the shards hold, where the requests whose places are in `starved` left no trace.
fn left(alloc: Global, starved: &[bool]) -> Result<String, AllocError> {
    let first = if starved.first() == Some(&true) {
        "key 61 string 6265666f7265\n"
    } else {
        "key 61 string 31\nkey 62 string 32\n"
    };
    let last = if starved.get(1) == Some(&true) {
        "key 7a string 6265666f7265\n"
    } else {
        "key 7a string 33\n"
    };
    let set = set_line(alloc)?;
    format!(in alloc; "{first}{set}{last}")
}

/// Each has a reply.
fn none_starved(done: &[Ended]) -> bool {
    for ended in done {
        if ended.reply.is_none() {
            return false;
        }
    }
    true
}

/// The layer was run, and each of its requests has a reply.
fn is_answered(outcome: &Result<Vec<Ended>, ExecFault>) -> bool {
    match outcome {
        Ok(done) => none_starved(done.as_slice()),
        Err(_) => false,
    }
}

/// Puts what is there before. A request of this test's own that starves ends the attempt.
fn fill(rt: &impl Abort, alloc: Global, store: &mut Store, table: &Table) -> Result<(), Trouble> {
    let requests = layer_of(alloc, table, 1, &SET_BEFORE)?;
    let outcome = run_or_not(rt, alloc, store, requests, &[], &ONE, &OpenGate);
    let answered = is_answered(&outcome);
    discard(outcome);
    if !answered {
        return Err(Trouble::Memory);
    }
    let wanted = before(alloc)?;
    assert_holds(rt, alloc, store, wanted.as_str())
}

/// This text came; else the test ends.
fn assert_text(rt: &impl Abort, got: &[u8], wanted: &str) {
    assert_eq!(rt; got, wanted.as_bytes());
}

/// So many came; else the test ends.
fn assert_count(rt: &impl Abort, line: &str, got: u64, wanted: u64) {
    assert_eq!(rt; got, wanted, "{line}");
}

/// Holds the store to a dump.
fn assert_holds(
    rt: &impl Abort,
    alloc: Global,
    store: &Store,
    wanted: &str,
) -> Result<(), Trouble> {
    let mut held = Vec::new(alloc);
    store.dump(alloc, &mut held)?;
    assert_text(rt, held.as_slice(), wanted);
    Ok(())
}

/// What the requests of the layer are answered, where those starved whose places are in `starved`.
fn wanted_of(alloc: Global, starved: &[bool]) -> Result<String, AllocError> {
    let mut wanted = String::new(alloc);
    for (starved, answered) in starved.iter().zip(ANSWERED) {
        wanted.push_str(if *starved { "starved" } else { answered })?;
        wanted.push(' ')?;
    }
    Ok(wanted)
}

/// The requests are numbered from 1, and as many as the layer has.
fn assert_numbered(rt: &impl Abort, done: &[Ended]) {
    let mut seq = 0u64;
    for ended in done {
        seq = seq.wrapping_add(1);
        assert_count(rt, "the number of a request", ended.id.seq, seq);
    }
    assert_count(rt, "requests", seq, ASKED.len() as u64);
}

/// Which of the requests starved.
fn starved_of(alloc: Global, done: &[Ended]) -> Result<Vec<bool>, AllocError> {
    let mut starved = Vec::new(alloc);
    for ended in done {
        starved.push(ended.reply.is_none())?;
    }
    Ok(starved)
}

/// The requests are answered so, where those starved whose places are in `starved`.
fn assert_answered(
    rt: &impl Abort,
    alloc: Global,
    done: &[Ended],
    starved: &[bool],
) -> Result<(), Trouble> {
    let wanted = wanted_of(alloc, starved)?;
    let answered = text(alloc, done)?;
    assert_text(rt, answered.as_bytes(), wanted.as_str());
    Ok(())
}

/// The store holds what is left where those requests starved whose places are in `starved`.
fn assert_left(
    rt: &impl Abort,
    alloc: Global,
    store: &Store,
    starved: &[bool],
) -> Result<(), Trouble> {
    let left = left(alloc, starved)?;
    assert_holds(rt, alloc, store, left.as_str())
}

/// Holds a layer that was run to its replies and to what is there then.
fn assert_ran(
    rt: &impl Abort,
    alloc: Global,
    store: &Store,
    done: &[Ended],
) -> Result<(), Trouble> {
    assert_numbered(rt, done);
    let starved = starved_of(alloc, done)?;
    assert_answered(rt, alloc, done, starved.as_slice())?;
    assert_left(rt, alloc, store, starved.as_slice())
}

/// Runs the layer again, where nothing has changed and for which memory is there now: none of its requests starves.
fn run_again<W: Workers>(
    rt: &impl Abort,
    alloc: Global,
    store: &mut Store,
    back: Layer,
    workers: &W,
) -> Result<(), Trouble> {
    match run_or_not(rt, alloc, store, back, &[], workers, &OpenGate) {
        Ok(done) => ran_whole(rt, alloc, store, done.as_slice()),
        Err(_) => panic!(rt; "not run again"),
    }
}

/// Holds a layer that was run again to its replies. None of its requests starved.
fn ran_whole(rt: &impl Abort, alloc: Global, store: &Store, done: &[Ended]) -> Result<(), Trouble> {
    assert_ran(rt, alloc, store, done)?;
    assert!(rt; none_starved(done), "starved at the second time");
    Ok(())
}

/// Runs the layer. Where it is handed back, nothing has changed, and it is run again: then no memory is wanting.
fn attempt_in<W: Workers>(
    rt: &impl Abort,
    alloc: Global,
    store: &mut Store,
    requests: Layer,
    workers: &W,
) -> Result<(), Trouble> {
    match run_or_not(rt, alloc, store, requests, &[], workers, &OpenGate) {
        Ok(done) => assert_ran(rt, alloc, store, done.as_slice()),
        Err(ExecFault::Memory(layer)) => attempt_again(rt, alloc, store, layer, workers),
        Err(ExecFault::Stale(_)) => panic!(rt; "stale"),
        Err(ExecFault::Failed) => panic!(rt; "failed"),
        Err(ExecFault::Foreign(_)) => panic!(rt; "foreign"),
    }
}

/// The layer was handed back: nothing has changed, and it is run again.
fn attempt_again<W: Workers>(
    rt: &impl Abort,
    alloc: Global,
    store: &mut Store,
    back: Layer,
    workers: &W,
) -> Result<(), Trouble> {
    let wanted = before(alloc)?;
    assert_holds(rt, alloc, store, wanted.as_str())?;
    run_again(rt, alloc, store, back, workers)
}

/// Fills a new store, and runs the layer there.
fn attempt<W: Workers>(rt: &impl Abort, alloc: Global, workers: &W) -> Result<(), Trouble> {
    let table = table_of(alloc, 4)?;
    let mut store = Store::new(alloc, table)?;
    fill(rt, alloc, &mut store, &table)?;
    let requests = layer_of(alloc, &table, 2, &ASKED)?;
    attempt_in(rt, alloc, &mut store, requests, workers)
}

/// Attempts it, and once more where an allocation of the test's own failed.
fn attempts<W: Workers>(rt: &impl Abort, alloc: Global, workers: &W) -> Result<(), Trouble> {
    match attempt(rt, alloc, workers) {
        Err(Trouble::Memory) => attempt(rt, alloc, workers),
        ended => ended,
    }
}

#[test]
fn one_in_turn_where_memory_fails(rt: HostRuntime) -> Result<(), Fail> {
    attempts(&rt, rt.alloc(), &ONE)?;
    Ok(())
}

#[test]
fn two_in_turn_where_memory_fails(rt: HostRuntime) -> Result<(), Fail> {
    attempts(&rt, rt.alloc(), &InTurn(number_of(2)))?;
    Ok(())
}

#[test]
fn a_crew_where_memory_fails(rt: HostRuntime) -> Result<(), Fail> {
    attempts(&rt, rt.alloc(), &Crew::new(&rt, number_of(2)))?;
    Ok(())
}
