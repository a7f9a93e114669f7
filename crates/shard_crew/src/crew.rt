//! Workers that are threads of their own.

ghost use Rattle.std.specs.Prelude.{◌≡◌, [], IfOk, IfSome, OnErr, length, ◌≤◌, ◌<◌, vec_capacity};
ghost use Rattle.std.specs.List.{AllZip, AllByRecursion};
ghost use Rattle.shard_crew.specs.Promises.{IsToRun};
ghost use Rattle.shard_crew.specs.Rooms.{HasRoom};
ghost use Rattle.shard_workers.specs.Loads.{IsReadyLoad, HasRunLoad};
ghost use Rattle.shard_workers.specs.contracts.load.Load as load_type;
ghost use denote.Param.Send.{IsSend};

use groups::SkipId;
use layer_planner::Job;
use placement::Table;
use shard_workers::{
    Child, Gate, JobRan, Load, PlacedJob, Ran, Refused, Room, RunOfLoad, Work, Workers, run_in_turn,
};
use std::alloc::{AllocError, Global};
use std::num::NonZeroUsize;
use std::snapshot::Snapshot;
use std::sync::Wait;
use std::thread::{self, Scope, Threads};

/// So many workers, each on a thread of its own. The last load is run on the caller's thread, so one load starts no
/// thread.
#[derive(Drop)]
pub struct Crew<'r, R> {
    rt: &'r R,
    number: NonZeroUsize,
}

impl<'r, R> Crew<'r, R> {
    /// So many workers, which are started when they are needed.
    pub fn new(rt: &'r R, number: NonZeroUsize) -> Self
        ensures { result.number ≡ number }
    {
        Crew { rt, number }
    }
}

impl<'r, R: Threads + Wait> Workers for Crew<'r, R> {
    ghost use Rattle.std.specs.Prelude.{nat_lt};
    ghost use Rattle.shard_crew.specs.Rooms.{HasRoom};
    ghost use Rattle.std.specs.Int.NonZero.{non_zero_usize_get};

    ghost count = { λ c. non_zero_usize_get c.number };

    // a crew of one starts no thread
    ghost may_refuse = { λ c. nat_lt 1 (non_zero_usize_get c.number) };

    ghost has_room = { HasRoom };

    fn number(&self) -> NonZeroUsize {
        self.number
    }

    fn reserve<'s>(&self, alloc: Global, loads: usize) -> Result<Room<'s>, AllocError> {
        let results = Vec::with_capacity(alloc, loads)?;
        let children = Vec::with_capacity(alloc, loads)?;
        Ok(Room { results, children })
    }

    fn run_loads<'s>(
        &self,
        alloc: Global,
        table: &Table,
        skip: &'s [SkipId],
        gate: &(dyn Gate + Sync),
        room: Room<'s>,
        loads: Vec<Load>,
    ) -> Result<Vec<Vec<Ran>>, Refused> {
        run_in_threads(self.rt, alloc, table, skip, gate, room, loads)
    }
}

/// What the threads are to skip, and the room for their handles, which promise that. It is one value, since the closure of a scope
/// takes in one that borrows something, and no two that borrow the same.
#[derive(Drop)]
struct Starting<'a> {
    skip: &'a [SkipId],
    children: Vec<Child<'a>>,
}

/// Runs the loads, each on a thread of its own but the last; a single load starts none. With `Refused` a thread could not
/// be started: the shards of all loads are lost, and those threads that were started have ended.
fn run_in_threads<'a, R: Threads + Wait>(
    rt: &R,
    alloc: Global,
    table: &Table,
    skip: &'a [SkipId],
    gate: &(dyn Gate + Sync),
    room: Room<'a>,
    loads: Vec<Load>,
) -> Result<Vec<Vec<Ran>>, Refused>
    requires room { HasRoom room (length loads.items) }
    requires ready { AllByRecursion (IsReadyLoad table.now) loads.items }
    ensures each { IfOk result (λ r. AllZip (HasRunLoad table.now skip.now) loads.items r.items) }
    ensures refused { OnErr result (1 < length loads.items) }
{
    let Room { results, children } = room;
    if loads.len() <= 1 {
        return Ok(run_in_turn(alloc, table, skip, gate, results, loads));
    }
    let starting = Starting { skip, children };
    thread::scope(
        thread::scope_env(),
        rt,
        |scope| -> Result<Vec<Vec<Ran>>, Refused>
            requires { (length loads.items ≤ vec_capacity results) × (length loads.items ≤ vec_capacity starting.children)
                × (results.items ≡ []) × (starting.children.items ≡ []) × AllByRecursion (IsReadyLoad table.now) loads.items }
            ensures { IfOk result (λ r. AllZip (HasRunLoad table.entry.now starting.entry.skip.now) loads.items r.items) }
        { run_apart(rt, scope, alloc, table, gate, loads, starting, results) },
    )
}

/// Starts a thread for each load but the last, runs that one meanwhile, and gives what all gave, in the order of the
/// loads. With `Refused` the last load was not run; threads that were started go on to the end of the scope, and what
/// they give is lost.
fn run_apart<'s, 'a: 's, E, R: Threads>(
    rt: &R,
    scope: &Scope<'s, E>,
    alloc: Global,
    table: &'s Table,
    gate: &'s (dyn Gate + Sync),
    loads: Vec<Load>,
    starting: Starting<'a>,
    results: Vec<Vec<Ran>>,
) -> Result<Vec<Vec<Ran>>, Refused>
    requires handles { length loads.items ≤ vec_capacity starting.children }
    requires room { length loads.items ≤ vec_capacity results }
    requires none { starting.children.items ≡ [] }
    requires empty { results.items ≡ [] }
    requires ready { AllByRecursion (IsReadyLoad table.now) loads.items }
    ensures { IfOk result (λ r. AllZip (HasRunLoad table.now starting.entry.skip.now) loads.items r.items) }
{
    let Starting { skip, children } = starting;
    let mut others = loads;
    let Some(last) = others.pop() else {
        return Ok(results);
    };
    let Some(children) = start_all(scope, alloc, table, skip, gate, others, children) else {
        return Err(Refused);
    };
    let mine = last.run(alloc, table, skip, gate);
    let mut all = join_all(rt, children, results);
    let Ok(()) = all.push(mine) else {
        unreachable!()
    };
    Ok(all)
}

/// Starts a thread for each load, and gives their handles in the order of the loads. None where one could not be started:
/// the loads behind it are not run, and the handles of those before it are dropped.
fn start_all<'s, 'a: 's, E>(
    scope: &Scope<'s, E>,
    alloc: Global,
    table: &'s Table,
    skip: &'a [SkipId],
    gate: &'s (dyn Gate + Sync),
    loads: Vec<Load>,
    children: Vec<Child<'a>>,
) -> Option<Vec<Child<'a>>>
    requires room { length loads.items ≤ vec_capacity children }
    requires empty { children.items ≡ [] }
    requires ready { AllByRecursion (IsReadyLoad table.now) loads.items }
    ensures { IfSome result (λ hs. AllZip (λ p h. IsToRun table.now skip.now p h.promise) loads.items hs.items) }
{
    let mut children = children;
    for load in loads {
        let child = start(scope, alloc, table, skip, gate, load)?;
        let Ok(()) = children.push(child) else {
            unreachable!()
        };
    }
    Some(children)
}

/// Waits for each of the threads, and gives what they gave, in the order of their handles, in `results`, whose room stays.
fn join_all<'a, R: Threads>(
    rt: &R,
    children: Vec<Child<'a>>,
    results: Vec<Vec<Ran>>,
) -> Vec<Vec<Ran>>
    requires room { length children.items ≤ vec_capacity results }
    requires empty { results.items ≡ [] }
    ensures each { AllZip (λ h r. HasRunLoad h.promise.table.value h.promise.skip.value.now h.promise.load.value r) children.entry.items result.items }
    ensures room { vec_capacity results ≤ vec_capacity result }
{
    let mut results = results;
    for child in children {
        let Ok(()) = results.push(child.join(rt)) else {
            unreachable!()
        };
    }
    results
}

/// It does nothing: its contract says that a value of the type may go to another thread.
fn sends<T: Send>()
    ensures { IsSend T.row }
{}

/// It does nothing: its contract says that a load may go to another thread.
fn load_sends()
    ensures { IsSend load_type.the_row }
{
    sends::<Job>();
    sends::<PlacedJob>();
    sends::<JobRan>();
    sends::<Work>();
    sends::<Load>();
}

/// Starts a thread that runs the load, and gives its handle. None where it could not be started: the load is lost with
/// its shards.
fn start<'s, 'a: 's, E>(
    scope: &Scope<'s, E>,
    alloc: Global,
    table: &'s Table,
    skip: &'a [SkipId],
    gate: &'s (dyn Gate + Sync),
    load: Load,
) -> Option<Child<'a>>
    requires { IsReadyLoad table.now load }
    ensures { IfSome result (λ h. IsToRun table.now skip.now load h.promise) }
{
    let promise = RunOfLoad {
        table: Snapshot::of(table),
        load: Snapshot::of(&load),
        skip: Snapshot::of(&skip),
    };
    load_sends();
    match scope.spawn_with(
        promise,
        move || -> Vec<Ran>
            requires { IsReadyLoad table.now load }
            ensures { HasRunLoad table.entry.now skip.entry.now load result }
        { load.run(alloc, table, skip, gate) },
    ) {
        Ok(child) => Some(child),
        Err(_) => None,
    }
}
