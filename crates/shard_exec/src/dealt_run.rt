//! A layer whose units are run by several workers.

ghost use Rattle.std.proofs.Math.ListN.{replicate};
ghost use Rattle.std.specs.Prelude.{◌≡◌, ◌<◌, ◌≤◌, length, true, None, IfOk, IsSome, OnErr};
ghost use Rattle.std.specs.List.{AllByRecursion};
ghost use Rattle.layer_planner.specs.Parts.{units_in};
ghost use Rattle.layer_planner.specs.Units.{AreUnitsOf, groups_each};
ghost use Rattle.placement.specs.Layout.{IsTable};
ghost use Rattle.shard_exec.specs.DealtRooms.{FitsDealt};
ghost use Rattle.shard_exec.specs.Layers.{AddressTheirGroups, HaveGiven};
ghost use Rattle.shards.specs.Joined.{HasOwnKeys};
ghost use Rattle.shard_exec.specs.Dealing.{filled, placed, jobs_of, spans_of, all_jobs, all_spans, AreInside};
ghost use Rattle.shards.specs.Rows.{put_spans};

use crate::dealing::take_loads;
use crate::dealt_room::DealtRoom;
use crate::moves::put_back;
use crate::taking::place_rans;
use groups::SkipId;
use hashed_texts::TextHasher;
use layer_planner::{Job, Part};
use placement::Table;
use shard_workers::{Gate, JobRan, Ran, Refused, Workers};
use shards::Shard;
use std::alloc::Global;

/// Runs the units of a layer but for what `skip` names, dealt to the workers by this plan, and puts what became of each request in its
/// place. It takes no memory but the requests' own. With `Refused` the shards that were taken out are lost, and empty ones stand in
/// their places.
pub fn run_dealt<'s, W: Workers>(
    alloc: Global,
    table: &Table,
    hasher: TextHasher,
    row: &mut Vec<Shard>,
    slots: Vec<Option<Job>>,
    plan: &[Part],
    skip: &'s [SkipId],
    workers: &W,
    gate: &(dyn Gate + Sync),
    dealt: DealtRoom<'s>,
    rans: Vec<Option<JobRan>>,
) -> Result<Vec<Option<JobRan>>, Refused>
    requires is_table { IsTable table.now }
    requires shards { length row.old.items ≡ table.now.shards }
    requires own { HasOwnKeys table.now row.old.items }
    requires full { AllByRecursion IsSome slots.items }
    requires groups { AddressTheirGroups table.now (filled slots.items) }
    requires units { AreUnitsOf (groups_each (filled slots.items)) (units_in plan.now) }
    requires fits { FitsDealt (groups_each (filled slots.items)) plan.now dealt }
    requires few { length plan.now ≤ W.count workers.now }
    requires workers { W.has_room dealt.room (length plan.now) }
    requires none { rans.items ≡ replicate (length slots.items) None }
    ensures given { IfOk result (λ r. HaveGiven table.now row.old.items skip.now (filled slots.items) r.items row.new.items) }
    ensures refused { OnErr result (W.may_refuse workers.now ≡ true) }
    ensures shards { length row.new.items ≡ length row.old.items }
    ensures own { HasOwnKeys table.now row.new.items }
{
    let DealtRoom { rooms, loads, room } = dealt;
    let loads = take_loads(alloc, hasher, row, slots, plan, rooms, loads);
    let results = match workers.run_loads(alloc, table, skip, gate, room, loads) {
        Ok(results) => results,
        Err(refused) => return Err(refused),
    };
    Ok(put_all(row, rans, results))
}

/// Puts the shards of each unit back, and what became of its requests in their places.
fn put_all(
    row: &mut Vec<Shard>,
    slots: Vec<Option<JobRan>>,
    results: Vec<Vec<Ran>>,
) -> Vec<Option<JobRan>>
    requires shards { AllByRecursion (AllByRecursion (λ s. s.0 < length row.old.items)) (all_spans results.items) }
    requires places { AreInside (length slots.items) (all_jobs results.items) }
    ensures row { row.new.items ≡ put_spans row.old.items (all_spans results.items) }
    ensures placed { result.items ≡ placed slots.items (all_jobs results.items) }
    ensures len { length row.new.items ≡ length row.old.items }
{
    let mut slots = slots;
    for rans in results {
        put_load(row, &mut slots, rans);
    }
    slots
}

/// The same for the units of one load.
fn put_load(row: &mut Vec<Shard>, slots: &mut Vec<Option<JobRan>>, rans: Vec<Ran>)
    requires shards { AllByRecursion (AllByRecursion (λ s. s.0 < length row.old.items)) (spans_of rans.items) }
    requires places { AreInside (length slots.old.items) (jobs_of rans.items) }
    ensures row { row.new.items ≡ put_spans row.old.items (spans_of rans.items) }
    ensures placed { slots.new.items ≡ placed slots.old.items (jobs_of rans.items) }
    ensures len { length row.new.items ≡ length row.old.items }
    ensures len_slots { length slots.new.items ≡ length slots.old.items }
{
    for ran in rans {
        let Ran { jobs, shards } = ran;
        put_back(row, shards);
        place_rans(slots, jobs);
    }
}
