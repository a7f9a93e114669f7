//! A layer run over the row of shards: by whatever workers there are, or alone where it has one request.

ghost use Rattle.std.proofs.Math.ListN.{replicate};
ghost use Rattle.std.specs.Prelude.{◌≡◌, [], ◌∷◌, length, true, None, IfOk, IsSome, OnErr};
ghost use Rattle.std.specs.List.{AllByRecursion};
ghost use Rattle.placement.specs.Layout.{IsTable};
ghost use Rattle.shards.specs.Joined.{HasOwnKeys};
ghost use Rattle.tasks.specs.Tasks.{task_groups};
ghost use Rattle.shard_exec.specs.Dealing.{filled};
ghost use Rattle.shard_exec.specs.Layers.{AddressTheirGroups, HaveGiven, IsDone};
ghost use Rattle.shard_exec.specs.Rooms.{FitsAlone, FitsRuns, FitsLayer, AreFew, HasRoomForWorkers};
ghost use Rattle.shard_exec.specs.Stamps.{raised};

use crate::Ended;
use crate::dealt_run::run_dealt;
use crate::layer_room::{LayerRoom, RunRoom};
use crate::row_run::{run_in_row, run_places};
use crate::taking::{in_slots, tell, tell_all};
use groups::{GroupId, SkipId, Stamp};
use hashed_texts::TextHasher;
use layer_planner::Job;
use placement::Table;
use shard_workers::{Gate, JobRan, PlacedJob, Refused, Workers};
use shards::Shard;
use std::alloc::Global;

/// Runs the requests of a layer but for what `skip` names, unit by unit, each over the shards of its groups, and tells what became of
/// each. With `Refused` the shards that were taken out are lost, and empty ones stand in their places.
pub fn run_layer_over<'s, W: Workers>(
    alloc: Global,
    table: &Table,
    hasher: TextHasher,
    row: &mut Vec<Shard>,
    lasts: &mut Vec<Option<Stamp>>,
    jobs: Vec<Job>,
    skip: &'s [SkipId],
    workers: &W,
    gate: &(dyn Gate + Sync),
    room: LayerRoom<'s>,
) -> Result<Vec<Ended>, Refused>
    requires is_table { IsTable table.now }
    requires shards { length row.old.items ≡ table.now.shards }
    requires lasts { length lasts.old.items ≡ table.now.shards }
    requires own { HasOwnKeys table.now row.old.items }
    requires groups { AddressTheirGroups table.now jobs.items }
    requires fits { FitsLayer jobs.items room }
    requires few { AreFew (W.count workers.now) room.runs }
    requires workers { HasRoomForWorkers (W.has_room) room.runs }
    ensures done { IfOk result (λ done. IsDone table.now row.old.items skip.now jobs.items done.items row.new.items) }
    ensures lasts { IfOk result (λ _. lasts.new.items ≡ raised lasts.old.items jobs.items) }
    ensures refused { OnErr result (W.may_refuse workers.now ≡ true) }
    ensures shards { length row.new.items ≡ length row.old.items }
    ensures stamps { length lasts.new.items ≡ length lasts.old.items }
    ensures own { HasOwnKeys table.now row.new.items }
{
    let LayerRoom {
        slots,
        rans,
        done,
        runs,
    } = room;
    let slots = in_slots(jobs, slots);
    let rans = match run_units(
        alloc, table, hasher, row, slots, skip, workers, gate, runs, rans,
    ) {
        Ok(rans) => rans,
        Err(refused) => return Err(refused),
    };
    Ok(tell_all(lasts, rans, done))
}

/// Runs the units of a layer, in the row or by the workers, and puts what became of each request in its place.
fn run_units<'s, W: Workers>(
    alloc: Global,
    table: &Table,
    hasher: TextHasher,
    row: &mut Vec<Shard>,
    slots: Vec<Option<Job>>,
    skip: &'s [SkipId],
    workers: &W,
    gate: &(dyn Gate + Sync),
    runs: RunRoom<'s>,
    rans: Vec<Option<JobRan>>,
) -> Result<Vec<Option<JobRan>>, Refused>
    requires is_table { IsTable table.now }
    requires shards { length row.old.items ≡ table.now.shards }
    requires own { HasOwnKeys table.now row.old.items }
    requires full { AllByRecursion IsSome slots.items }
    requires groups { AddressTheirGroups table.now (filled slots.items) }
    requires fits { FitsRuns (filled slots.items) runs }
    requires few { AreFew (W.count workers.now) runs }
    requires workers { HasRoomForWorkers (W.has_room) runs }
    requires none { rans.items ≡ replicate (length slots.items) None }
    ensures given { IfOk result (λ r. HaveGiven table.now row.old.items skip.now (filled slots.items) r.items row.new.items) }
    ensures refused { OnErr result (W.may_refuse workers.now ≡ true) }
    ensures shards { length row.new.items ≡ length row.old.items }
    ensures own { HasOwnKeys table.now row.new.items }
{
    match runs {
        RunRoom::InRow(part, spans) => Ok(run_places(
            alloc,
            table,
            hasher,
            row,
            slots,
            part.places(),
            spans,
            skip,
            gate,
            rans,
        )),
        RunRoom::Dealt(plan, dealt) => run_dealt(
            alloc,
            table,
            hasher,
            row,
            slots,
            plan.as_slice(),
            skip,
            workers,
            gate,
            dealt,
            rans,
        ),
    }
}

/// Runs a request that is alone in its layer over the shards of its groups, which `span` has room for, and tells what
/// became of it. It takes no memory but the request's own.
// Inlined up to the layer of one request, which then moves its request and what came of it fewer times.
#[inline(always)]
pub fn run_alone(
    alloc: Global,
    table: &Table,
    hasher: TextHasher,
    row: &mut Vec<Shard>,
    lasts: &mut Vec<Option<Stamp>>,
    job: Job,
    skip: &[SkipId],
    gate: &(dyn Gate + Sync),
    span: Vec<(GroupId, Shard)>,
) -> Ended
    requires is_table { IsTable table.now }
    requires shards { length row.old.items ≡ table.now.shards }
    requires lasts { length lasts.old.items ≡ table.now.shards }
    requires own { HasOwnKeys table.now row.old.items }
    requires groups { job.groups ≡ task_groups table.now job.asked.batch }
    requires room { FitsAlone job span }
    ensures done { IsDone table.now row.old.items skip.now (job ∷ []) (result ∷ []) row.new.items }
    ensures lasts { lasts.new.items ≡ raised lasts.old.items (job ∷ []) }
    ensures shards { length row.new.items ≡ length row.old.items }
    ensures stamps { length lasts.new.items ≡ length lasts.old.items }
    ensures own { HasOwnKeys table.now row.new.items }
{
    let placed = PlacedJob { place: 0, job };
    let ran = run_in_row(alloc, table, hasher, row, placed, span, skip, gate);
    tell(lasts, ran)
}
