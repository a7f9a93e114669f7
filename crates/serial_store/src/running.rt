//! A layer that is run over the store.

ghost use Rattle.std.specs.Prelude.{◌≡◌, [], length, false, IfOk, IfErr};
ghost use Rattle.back.specs.Runs.{WhyUnrun};
ghost use Rattle.serial_store.specs.Runs.{RunsLayer, RefusesLayer};
ghost use Rattle.shard_exec.specs.Layers.{AddressTheirGroups};

use crate::results::{result, results};
use groups::SkipId;
use layer_planner::{Job, Layer};
use layer_results::{Done, DoneRow};
use shard_exec::{ExecFault, Store};
use shard_workers::{Gate, Workers};
use std::alloc::Global;
use std::mem;

/// Runs a layer over the store, whose requests address the groups of its table, and gives what came of it, with the list of jobs of a
/// layer of one request, emptied. The room for what comes is taken before the first request is run: of one request it is this room.
pub fn run_over<W: Workers>(
    alloc: Global,
    store: &mut Store,
    layer: Layer,
    room: &mut Vec<DoneRow>,
    skip: &[SkipId],
    workers: &W,
    gate: &(dyn Gate + Sync),
) -> Result<(Done, Vec<Job>), ExecFault>
    requires { AddressTheirGroups store.old.table layer }
    ensures run { IfOk result (λ it. RunsLayer store.old skip.now layer it.0 store.new) }
    ensures emptied { IfOk result (λ it. it.1.items ≡ []) }
    ensures room { room.new.items ≡ [] }
    ensures fault { IfErr result (λ fault. RefusesLayer (W.may_refuse workers.now) store.old layer fault store.new) }
{
    room.clear();
    if store.has_failed() {
        return Err(ExecFault::Failed);
    }
    let count = layer.jobs().len();
    if count == 1 {
        return run_one(alloc, store, layer, room, skip, gate);
    }
    let Ok(room) = Vec::with_capacity(alloc, count) else {
        return Err(unrun(store, layer));
    };
    match store.run_layer(alloc, layer, skip, workers, gate) {
        Ok(ended) => Ok((results(room, ended), Vec::new(alloc))),
        Err(fault) => Err(fault),
    }
}

/// The same of a layer of one request, over a store that has not failed.
#[inline(always)]
fn run_one(
    alloc: Global,
    store: &mut Store,
    layer: Layer,
    room: &mut Vec<DoneRow>,
    skip: &[SkipId],
    gate: &(dyn Gate + Sync),
) -> Result<(Done, Vec<Job>), ExecFault>
    requires groups { AddressTheirGroups store.old.table layer }
    requires lone { length layer ≡ 1 }
    requires lives { store.old.failed ≡ false }
    requires empty { room.old.items ≡ [] }
    ensures run { IfOk result (λ it. RunsLayer store.old skip.now layer it.0 store.new) }
    ensures emptied { IfOk result (λ it. it.1.items ≡ []) }
    ensures room { room.new.items ≡ [] }
    ensures fault { IfErr result (λ fault. RefusesLayer false store.old layer fault store.new) }
{
    let Ok(()) = room.reserve(1) else {
        return Err(unrun(store, layer));
    };
    match store.run_one(alloc, layer, skip, gate) {
        Ok((ended, jobs)) => {
            let rows = mem::replace(room, Vec::new(alloc));
            Ok((result(rows, ended), jobs))
        }
        Err(fault) => Err(fault),
    }
}

/// Why a layer isn't run for whose results there is no memory: where it is stale as well, that comes first.
// A call, since it is rare.
#[inline(never)]
fn unrun(store: &Store, layer: Layer) -> ExecFault
    requires { AddressTheirGroups store.now.table layer }
    ensures { WhyUnrun store.now layer result }
{
    if store.is_fresh(&layer) {
        ExecFault::Memory(layer)
    } else {
        ExecFault::Stale(layer)
    }
}
