//! That a crew of two really runs two requests at once where they have much to do, and what a refused start leaves.

use crate::jobs::{NAME_X, ONE, ask_all, fill_x, layer_of, number_of, two_shards};
use crate::trouble::Trouble;
use groups::{RequestId, SkipId};
use layer_planner::Layer;
use placement::Table;
use shard_crew::Crew;
use shard_exec::Store;
use shard_workers::{Gate, InTurn, Load, OpenGate, Ran, Refused, Room, Workers};
use std::alloc::{AllocError, Global};
use std::num::NonZeroUsize;
use std::process::Abort;
use std::sync::atomic::{AtomicBool, Ordering};
use std::test::Fail;
use std::thread;
use std::time::{Clock, Duration};
use test_support::holds;

/// Holds the first request until the second one has entered too, for 10,000 turns of one millisecond at most.
#[derive(Drop)]
struct Held<'r, R> {
    clock: &'r R,
    turns: u32,
    second: AtomicBool,
    missed: AtomicBool,
}

impl<'r, R: Clock> Gate for Held<'r, R> {
    fn enter(&self, id: RequestId) {
        if id.seq == 2 {
            self.second.store(true, Ordering::SeqCst);
            return;
        }
        for _ in 0..self.turns {
            if self.second.load(Ordering::SeqCst) {
                return;
            }
            thread::sleep(self.clock, Duration::from_millis(1));
        }
        self.missed.store(true, Ordering::SeqCst);
    }

    fn leave(&self, _id: RequestId) {}
}

fn holding<'r, R>(clock: &'r R, turns: u32) -> Held<'r, R> {
    Held {
        clock,
        turns,
        second: AtomicBool::new(false),
        missed: AtomicBool::new(false),
    }
}

/// The layer at this clock of `SET a 1` on the one shard, and of what names the set at `x` on the other.
fn two_requests(alloc: Global, table: &Table, clock: u64) -> Result<Layer, Trouble> {
    layer_of(alloc, table, clock, &["SET a 1", NAME_X])
}

/// What they are answered where there is a set at `x`, and where there is none.
const LARGE: &str = "+OK\r\n :100\r\n ";

const SMALL: &str = "+OK\r\n :0\r\n ";

/// Runs both over this store, of which this gate holds the first.
fn run_over<W: Workers>(
    rt: &impl Abort,
    alloc: Global,
    store: &mut Store,
    table: &Table,
    workers: &W,
    gate: &(dyn Gate + Sync),
    wanted: &str,
) -> Result<(), Fail> {
    let requests = two_requests(alloc, table, 2)?;
    ask_all(rt, alloc, store, requests, workers, gate, wanted)
}

/// Runs both over a new store.
fn run_small<W: Workers>(
    rt: &impl Abort,
    alloc: Global,
    workers: &W,
    gate: &(dyn Gate + Sync),
) -> Result<(), Fail> {
    let table = two_shards(alloc)?;
    let mut store = Store::new(alloc, table)?;
    run_over(rt, alloc, &mut store, &table, workers, gate, SMALL)
}

/// Runs both over a store that has the set.
fn run_both<W: Workers>(
    rt: &impl Abort,
    alloc: Global,
    workers: &W,
    gate: &(dyn Gate + Sync),
) -> Result<(), Fail> {
    let table = two_shards(alloc)?;
    let mut store = Store::new(alloc, table)?;
    fill_x(rt, alloc, &mut store, &table, 1)?;
    run_over(rt, alloc, &mut store, &table, workers, gate, LARGE)
}

#[test]
fn a_crew_of_two_runs_both_at_once(rt: HostRuntime) -> Result<(), Fail> {
    let gate = holding(&rt, 10_000);
    run_both(&rt, rt.alloc(), &Crew::new(&rt, number_of(2)), &gate)?;
    holds("two threads ran them", !gate.missed.load(Ordering::SeqCst))
}

#[test]
fn workers_in_turn_do_not(rt: HostRuntime) -> Result<(), Fail> {
    let gate = holding(&rt, 10);
    run_both(&rt, rt.alloc(), &InTurn(number_of(2)), &gate)?;
    holds("one thread ran them", gate.missed.load(Ordering::SeqCst))
}

#[test]
fn a_crew_of_two_leaves_small_sets_to_the_caller(rt: HostRuntime) -> Result<(), Fail> {
    let gate = holding(&rt, 10);
    run_small(&rt, rt.alloc(), &Crew::new(&rt, number_of(2)), &gate)?;
    holds("one thread ran them", gate.missed.load(Ordering::SeqCst))
}

/// Two workers of which none can be started.
#[derive(Drop)]
pub(crate) struct Unwilling;

impl Workers for Unwilling {
    ghost use Rattle.std.specs.Prelude.{true};

    ghost count = { λ _. 2 };

    ghost may_refuse = { λ _. true };

    ghost has_room = { λ _ _. Unit {0} };

    fn number(&self) -> NonZeroUsize {
        NonZeroUsize::MIN.saturating_add(1)
    }

    fn reserve<'s>(&self, alloc: Global, loads: usize) -> Result<Room<'s>, AllocError> {
        InTurn(NonZeroUsize::MIN).reserve(alloc, loads)
    }

    fn run_loads<'s>(
        &self,
        _alloc: Global,
        _table: &Table,
        _skip: &'s [SkipId],
        _gate: &(dyn Gate + Sync),
        _room: Room<'s>,
        _loads: Vec<Load>,
    ) -> Result<Vec<Vec<Ran>>, Refused> {
        Err(Refused)
    }
}

/// Runs two requests at this clock, which come to this.
fn comes_to<W: Workers>(
    rt: &impl Abort,
    alloc: Global,
    store: &mut Store,
    table: &Table,
    clock: u64,
    workers: &W,
    wanted: &str,
) -> Result<(), Fail> {
    let requests = two_requests(alloc, table, clock)?;
    ask_all(rt, alloc, store, requests, workers, &OpenGate, wanted)
}

/// Small sets need no start. Then one is refused, and then no layer is run.
fn fails_for_good(
    rt: &impl Abort,
    alloc: Global,
    store: &mut Store,
    table: &Table,
) -> Result<(), Fail> {
    comes_to(rt, alloc, store, table, 1, &Unwilling, SMALL)?;
    fill_x(rt, alloc, store, table, 2)?;
    comes_to(rt, alloc, store, table, 3, &Unwilling, "failed")?;
    holds("it has failed", store.has_failed())?;
    comes_to(rt, alloc, store, table, 4, &ONE, "failed")?;
    comes_to(rt, alloc, store, table, 5, &ONE, "failed")
}

#[test]
fn a_refused_start_is_for_good(rt: HostRuntime) -> Result<(), Fail> {
    let table = two_shards(rt.alloc())?;
    let mut store = Store::new(rt.alloc(), table)?;
    fails_for_good(&rt, rt.alloc(), &mut store, &table)
}
