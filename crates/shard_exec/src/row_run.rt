//! Requests that are run where their shards stand, in the row, one after another.

ghost use Rattle.std.specs.Prelude.{◌≡◌, ◌<◌, ◌≤◌, [], length, slice_set, vec_capacity};
ghost use Rattle.std.specs.List.{AllByRecursion};
ghost use Rattle.placement.specs.Layout.{IsTable};
ghost use Rattle.shards.specs.Joined.{map_of_shard, HasOwnKeys};
ghost use Rattle.tasks.specs.Tasks.{task_groups};
ghost use Rattle.shard_exec.specs.Dealing.{CanTake};
ghost use Rattle.shard_exec.specs.Rooms.{FitsAlone};
ghost use Rattle.shard_exec.specs.RowRuns.{AddressAt, FitAt, HasRunInRow, HaveRunAt};
ghost use Rattle.shard_workers.specs.PlacedJobs.{HasRunOn};

use crate::moves::{put_back, take_shards};
use crate::taking::take_job;
use groups::{GroupId, SkipId};
use hashed_texts::TextHasher;
use layer_planner::Job;
use placement::Table;
use shard_workers::{Gate, JobRan, PlacedJob};
use shards::Shard;
use std::alloc::Global;

/// Runs the requests at these places, one after another in this order, each over the shards of its groups, and puts what
/// became of each in its place. There is room in `spans` for each that has several groups. It takes no memory but the
/// requests' own.
pub fn run_places(
    alloc: Global,
    table: &Table,
    hasher: TextHasher,
    row: &mut Vec<Shard>,
    slots: Vec<Option<Job>>,
    places: &[usize],
    spans: Vec<Vec<(GroupId, Shard)>>,
    skip: &[SkipId],
    gate: &(dyn Gate + Sync),
    rans: Vec<Option<JobRan>>,
) -> Vec<Option<JobRan>>
    requires is_table { IsTable table.now }
    requires shards { length row.old.items ≡ table.now.shards }
    requires own { HasOwnKeys table.now row.old.items }
    requires there { CanTake slots.items places.now }
    requires groups { AddressAt table.now slots.items }
    requires room { FitAt slots.items places.now spans.items }
    requires inside { AllByRecursion (λ i. i < length rans.items) places.now }
    ensures ran { HaveRunAt table.now skip.now slots.items row.old.items places.now rans.items result.items row.new.items }
    ensures shards { length row.new.items ≡ length row.old.items }
{
    let mut slots = slots;
    let mut rans = rans;
    let mut spans = spans.into_iter();
    for place in places {
        let Some(span) = spans.next() else {
            unreachable!()
        };
        let placed = take_job(&mut slots, *place);
        rans[*place] = Some(run_in_row(alloc, table, hasher, row, placed, span, skip, gate));
    }
    rans
}

/// Runs a request over the shards of its groups: one of one group over the shard where it stands, any other over its shards
/// moved out, which `span` has room for, and back. It takes no memory but the request's own.
// Inlined up to the layer of one request, which then moves its request and what came of it fewer times.
#[inline(always)]
pub fn run_in_row(
    alloc: Global,
    table: &Table,
    hasher: TextHasher,
    row: &mut Vec<Shard>,
    placed: PlacedJob,
    span: Vec<(GroupId, Shard)>,
    skip: &[SkipId],
    gate: &(dyn Gate + Sync),
) -> JobRan
    requires is_table { IsTable table.now }
    requires shards { length row.old.items ≡ table.now.shards }
    requires own { HasOwnKeys table.now row.old.items }
    requires groups { placed.job.groups ≡ task_groups table.now placed.job.asked.batch }
    requires room { FitsAlone placed.job span }
    ensures ran { HasRunInRow table.now skip.now placed row.old.items result row.new.items }
    ensures shards { length row.new.items ≡ length row.old.items }
{
    let groups = placed.groups();
    if let Some(group) = groups.alone() {
        return run_in_place(alloc, row, group, placed, skip, gate);
    }
    run_moved(alloc, table, hasher, row, placed, span, skip, gate)
}

/// Runs a request over its shards moved out, for which `span` has room, and back.
// A call, since most requests are of one group.
#[inline(never)]
fn run_moved(
    alloc: Global,
    table: &Table,
    hasher: TextHasher,
    row: &mut Vec<Shard>,
    placed: PlacedJob,
    span: Vec<(GroupId, Shard)>,
    skip: &[SkipId],
    gate: &(dyn Gate + Sync),
) -> JobRan
    requires is_table { IsTable table.now }
    requires shards { length row.old.items ≡ table.now.shards }
    requires own { HasOwnKeys table.now row.old.items }
    requires groups { placed.job.groups ≡ task_groups table.now placed.job.asked.batch }
    requires none { span.items ≡ [] }
    requires room { length placed.job.groups ≤ vec_capacity span }
    ensures ran { HasRunInRow table.now skip.now placed row.old.items result row.new.items }
    ensures shards { length row.new.items ≡ length row.old.items }
{
    let groups = placed.groups();
    let shards = take_shards(alloc, hasher, row, groups, span);
    let (ran, shards) = placed.run_over(alloc, table, shards, skip, gate);
    put_back(row, shards);
    ran
}

/// Runs a request over the shard of this group, where it stands.
// Inlined as its caller is.
#[inline(always)]
fn run_in_place(
    alloc: Global,
    row: &mut Vec<Shard>,
    group: GroupId,
    placed: PlacedJob,
    skip: &[SkipId],
    gate: &(dyn Gate + Sync),
) -> JobRan
    requires { group < length row.old.items }
    ensures ran { HasRunOn skip.now placed (map_of_shard row.old.items group) result (map_of_shard row.new.items group) }
    ensures row { row.new.items ≡ slice_set row.old.items group (map_of_shard row.new.items group) }
{
    let shard = &mut row[usize::from(group.number())];
    placed.run(alloc, shard, skip, gate)
}
