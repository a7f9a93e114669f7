//! The workers that run the loads of a layer, and those that take turns on the caller's thread.

ghost use Rattle.std.specs.Prelude.{◌≡◌, ℕ, Bool, true, false, [], IfOk, OnErr, length, ◌≤◌, vec_capacity};
ghost use Rattle.std.specs.Int.NonZero.{non_zero_usize_get};
ghost use Rattle.std.specs.List.{AllZip, AllByRecursion};
ghost use Rattle.shard_workers.specs.Loads.{IsReadyLoad, HasRunLoad};

use crate::{Child, Gate, Load, Ran};
use groups::SkipId;
use placement::Table;
use std::alloc::{AllocError, Global};
use std::num::NonZeroUsize;

/// A worker could not be started. Some loads may have been run; their shards are lost.
#[derive(Debug, Drop)]
pub struct Refused;

/// Room for what the workers give and for their handles, taken before any shard is moved.
#[derive(Drop)]
pub struct Room<'s> {
    /// For what each load gives.
    pub results: Vec<Vec<Ran>>,
    /// For the handles of the threads that run loads, where any do.
    pub children: Vec<Child<'s>>,
}

/// Those that run the loads of a layer.
///
/// It is one call over a type with no parameter, and the gate is a `dyn`: what is moved into a thread may not rest on a
/// bound of the impl or of its method.
pub trait Workers {
    ghost use Rattle.std.specs.Prelude.{ℕ, Bool};
    ghost use Rattle.shard_workers.specs.declared.workers.Room.{Room};

    // How many there are.
    ghost count: { Self → ℕ };

    // Whether a start may be refused: only where a thread is started at all.
    ghost may_refuse: { Self → Bool };

    // Whether the room is enough for so many loads.
    ghost has_room: { Room → ℕ → Type 0 };

    /// How many there are. A layer is divided into as many loads, if it has as many units.
    fn number(&self) -> NonZeroUsize
        ensures { non_zero_usize_get result ≡ count self.now };

    /// The room that they need for so many loads.
    fn reserve<'s>(&self, alloc: Global, loads: usize) -> Result<Room<'s>, AllocError>
        ensures { IfOk result (λ room. has_room room loads) };

    /// Runs the loads, no more than there are workers, each with its units in their order and but for what `skip` names, and
    /// gives for each load what its units gave, in the order of the loads. The gate is told of each request that is run.
    fn run_loads<'s>(
        &self,
        alloc: Global,
        table: &Table,
        skip: &'s [SkipId],
        gate: &(dyn Gate + Sync),
        room: Room<'s>,
        loads: Vec<Load>,
    ) -> Result<Vec<Vec<Ran>>, Refused>
        requires few { length loads.items ≤ count self.now }
        requires room { has_room room (length loads.items) }
        requires ready { AllByRecursion (IsReadyLoad table.now) loads.items }
        ensures each { IfOk result (λ r. AllZip (HasRunLoad table.now skip.now) loads.items r.items) }
        ensures refused { OnErr result (may_refuse self.now ≡ true) };
}

/// So many workers that take turns on the caller's thread: no thread is started.
#[derive(Drop)]
pub struct InTurn(pub NonZeroUsize);

impl Workers for InTurn {
    ghost use Rattle.shard_workers.specs.Loads.{HasResults};
    ghost use Rattle.std.specs.Int.NonZero.{non_zero_usize_get};

    ghost count = { λ w. non_zero_usize_get w.0 };

    ghost may_refuse = { λ _. false };

    ghost has_room = { HasResults };

    fn number(&self) -> NonZeroUsize {
        self.0
    }

    fn reserve<'s>(&self, alloc: Global, loads: usize) -> Result<Room<'s>, AllocError> {
        let results = Vec::with_capacity(alloc, loads)?;
        Ok(Room {
            results,
            children: Vec::new(alloc),
        })
    }

    fn run_loads<'s>(
        &self,
        alloc: Global,
        table: &Table,
        skip: &'s [SkipId],
        gate: &(dyn Gate + Sync),
        room: Room<'s>,
        loads: Vec<Load>,
    ) -> Result<Vec<Vec<Ran>>, Refused> {
        Ok(run_in_turn(alloc, table, skip, gate, room.results, loads))
    }
}

/// Runs the loads one after another on the caller's thread, but for what `skip` names, and gives for each what its units gave.
pub fn run_in_turn(
    alloc: Global,
    table: &Table,
    skip: &[SkipId],
    gate: &(dyn Gate + Sync),
    results: Vec<Vec<Ran>>,
    loads: Vec<Load>,
) -> Vec<Vec<Ran>>
    requires empty { results.items ≡ [] }
    requires room { length loads.items ≤ vec_capacity results }
    requires ready { AllByRecursion (IsReadyLoad table.now) loads.items }
    ensures { AllZip (HasRunLoad table.now skip.now) loads.items result.items }
{
    let mut results = results;
    for load in loads {
        let Ok(()) = results.push(load.run(alloc, table, skip, gate)) else {
            unreachable!()
        };
    }
    results
}
