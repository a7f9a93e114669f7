//! A layer that is run over the store, and the rows that come of it.

ghost use Rattle.std.specs.Prelude.{◌≡◌, ◌+◌, ◌++◌, ◌<◌, ◌≤◌, [], ◌∷◌, false, length, IfOk, IfErr, OnOk, vec_capacity};
ghost use Rattle.back.specs.Backs.{back_of};
ghost use Rattle.back.specs.Rooms.{FitsEnded};
ghost use Rattle.back.specs.Rows.{with_row, rows_of, done_of, results_of};
ghost use Rattle.back.specs.Runs.{HasRun, IsRefused, IsNotAdmitted, WhyUnrun};
ghost use Rattle.shard_exec.specs.Layers.{AddressTheirGroups};

use crate::room::ResultsRoom;
use groups::SkipId;
use journal::Rows;
use layer_planner::Layer;
use layer_results::{Done, DoneRow};
use packing::PackedRequest;
use shard_exec::{Ended, ExecFault, Store};
use shard_workers::{Gate, Workers};
use std::alloc::Global;
use std::mem;

/// Runs a layer over the store, adds the rows of what was executed, and puts what came of the layer in the place of what
/// came of the last one. All memory for that is taken before the first request is run.
pub fn run_over<W: Workers>(
    alloc: Global,
    store: &mut Store,
    rows: &mut Rows,
    last: &mut Done,
    room: &mut ResultsRoom,
    layer: Layer,
    skip: &[SkipId],
    workers: &W,
    gate: &(dyn Gate + Sync),
) -> Result<(), ExecFault>
    ensures run { OnOk result (HasRun (back_of store.old rows.old.rows last.old) skip.now layer
        (back_of store.new rows.new.rows last.new)) }
    ensures fault { IfErr result (λ fault. IsRefused (W.may_refuse workers.now) (back_of store.old rows.old.rows last.old) layer fault
        (back_of store.new rows.new.rows last.new)) }
{
    let layer = match admit(store, layer) {
        Ok(layer) => layer,
        Err(fault) => return Err(fault),
    };
    let Ok(()) = room.reserve(layer.jobs(), rows) else {
        room.clear();
        return Err(unrun(store, layer));
    };
    match store.run_layer(alloc, layer, skip, workers, gate) {
        Ok(ended) => {
            *last = tell_all(alloc, rows, ended, room);
            Ok(())
        }
        Err(fault) => {
            room.clear();
            Err(fault)
        }
    }
}

/// The layer, if the store has not failed and the layer's requests address the groups of its table; else why it isn't run.
fn admit(store: &Store, layer: Layer) -> Result<Layer, ExecFault>
    ensures admitted { IfOk result (λ back. back ≡ layer) }
    ensures lives { OnOk result (store.now.failed ≡ false) }
    ensures addressed { OnOk result (AddressTheirGroups store.now.table layer) }
    ensures refused { IfErr result (IsNotAdmitted store.now layer) }
{
    if store.has_failed() {
        return Err(ExecFault::Failed);
    }
    if !store.may_run(&layer) {
        return Err(ExecFault::Foreign(layer));
    }
    Ok(layer)
}

/// Why a layer isn't run for whose rows there is no memory: where it is stale as well, that comes first.
fn unrun(store: &Store, layer: Layer) -> ExecFault
    requires { AddressTheirGroups store.now.table layer }
    ensures { WhyUnrun store.now layer result }
{
    if store.is_fresh(&layer) {
        ExecFault::Memory(layer)
    } else {
        ExecFault::Stale(layer)
    }
}

/// Adds the row of each request that was executed, and gives what came of the layer. There is room for all of it.
// Inlined, so that the list is not moved once more.
#[inline(always)]
fn tell_all(alloc: Global, rows: &mut Rows, ended: Vec<Ended>, room: &mut ResultsRoom) -> Done
    requires room { FitsEnded ended.items room.old }
    requires rows { length ended.items ≤ rows.old.room }
    ensures rows { rows.new.rows ≡ rows.old.rows ++ rows_of ended.items }
    ensures done { result ≡ results_of ended.items }
{
    for request in ended {
        let Some(copy) = room.words.pop_front() else {
            unreachable!()
        };
        tell(rows, request, copy, &mut room.rows);
    }
    Done::new(taken(alloc, &mut room.rows))
}

/// Takes a list out, if there is something in it; one in which nothing is stays, with its memory.
fn taken<T>(alloc: Global, list: &mut Vec<T>) -> Vec<T>
    ensures { result.items ≡ list.old.items }
{
    if list.is_empty() {
        Vec::new(alloc)
    } else {
        mem::replace(list, Vec::new(alloc))
    }
}

/// Adds the row of a request, if it was executed, and notes what came of it, with this copy of its words. There is room.
fn tell(rows: &mut Rows, request: Ended, copy: PackedRequest, done: &mut Vec<DoneRow>)
    requires copy { copy ≡ request.words }
    requires row { 0 < rows.old.room }
    requires done { length done.old.items < vec_capacity done.old }
    ensures row { rows.new.rows ≡ rows.old.rows ++ with_row request request.reply [] }
    ensures row_room { rows.old.room ≤ rows.new.room + 1 }
    ensures done { done.new.items ≡ done.old.items ++ done_of request ∷ [] }
    ensures done_room { vec_capacity done.old ≤ vec_capacity done.new }
{
    let Ended {
        id,
        stamp,
        words,
        reply,
    } = request;
    let reply = match reply {
        Some(answered) => Some(rows.push(id, &stamp, words, answered)),
        None => None,
    };
    done.push_reserved(DoneRow {
        id,
        stamp,
        words: copy,
        reply,
    });
}
