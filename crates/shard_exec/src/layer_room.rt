//! The memory that a layer needs, taken before any request is run.

ghost use Rattle.std.proofs.Math.ListN.{replicate};
ghost use Rattle.std.specs.Prelude.{◌≡◌, ◌<◌, ◌≤◌, length, None, IfOk};
ghost use Rattle.std.specs.Int.NonZero.{non_zero_usize_get};
ghost use Rattle.std.specs.List.{AllZip, AllByRecursion};
ghost use Rattle.shard_exec.specs.Rooms.{FitsAlone, FitsAt, FitsRuns, FitsLayer, AreFew, HasRoomForWorkers};
ghost use Rattle.shard_exec.specs.Weights.{least_dealt, members_of_layer};

use crate::Ended;
use crate::dealt_room::DealtRoom;
use crate::weighing::{all_address, are_heavy};
use groups::GroupId;
use layer_planner::{Job, Layer, Part, plan};
use placement::Table;
use shard_workers::{JobRan, Workers};
use shards::Shard;
use std::alloc::{AllocError, Global};
use std::num::NonZeroUsize;

/// Room for the requests of a layer, for what became of each, for what is told of them, and for the way in which they are
/// run.
#[derive(Drop)]
pub struct LayerRoom<'s> {
    pub slots: Vec<Option<Job>>,
    pub rans: Vec<Option<JobRan>>,
    pub done: Vec<Ended>,
    pub runs: RunRoom<'s>,
}

/// The units of a layer as they are to be run, and the room for that.
#[derive(Drop)]
pub enum RunRoom<'s> {
    /// By the caller, where their shards stand: there is room for the shards of each request of several groups.
    InRow(Part, Vec<Vec<(GroupId, Shard)>>),
    /// By several workers.
    Dealt(Vec<Part>, DealtRoom<'s>),
}

impl<'s> LayerRoom<'s> {
    /// The room for this layer, over a row of these shards, with these workers.
    pub fn reserve<W: Workers>(
        alloc: Global,
        table: &Table,
        row: &[Shard],
        layer: &Layer,
        workers: &W,
    ) -> Result<Self, AllocError>
        requires some { 0 < length layer.now }
        requires shards { length row.now ≡ table.now.shards }
        ensures fits { IfOk result (FitsLayer layer.now) }
        ensures few { IfOk result (λ room. AreFew (W.count workers.now) room.runs) }
        ensures room { IfOk result (λ room. HasRoomForWorkers (W.has_room) room.runs) }
    {
        let slots = Vec::with_capacity(alloc, layer.len())?;
        let rans = nothing_run(alloc, layer.len())?;
        let done = Vec::with_capacity(alloc, layer.len())?;
        let runs = RunRoom::reserve(alloc, table, row, layer, workers)?;
        Ok(LayerRoom {
            slots,
            rans,
            done,
            runs,
        })
    }
}

impl<'s> RunRoom<'s> {
    /// The units of this layer, and the room for them, over a row of these shards, with these workers.
    fn reserve<W: Workers>(
        alloc: Global,
        table: &Table,
        row: &[Shard],
        layer: &Layer,
        workers: &W,
    ) -> Result<Self, AllocError>
        requires some { 0 < length layer.now }
        requires shards { length row.now ≡ table.now.shards }
        ensures fits { IfOk result (FitsRuns layer.now) }
        ensures few { IfOk result (AreFew (W.count workers.now)) }
        ensures room { IfOk result (HasRoomForWorkers (W.has_room)) }
    {
        let jobs = layer.jobs();
        let number = number_for(table, row, jobs, workers);
        let mut plan = plan(alloc, layer, number)?;
        if plan.len() > 1 {
            let dealt = DealtRoom::reserve(alloc, jobs, plan.as_slice(), workers)?;
            return Ok(RunRoom::Dealt(plan, dealt));
        }
        let Some(part) = plan.pop() else {
            unreachable!()
        };
        let spans = reserve_spans(alloc, jobs, part.places())?;
        Ok(RunRoom::InRow(part, spans))
    }
}

/// How many of the workers run a layer of these requests: one where they are one unit, which all address the same groups, or
/// where the sets that they name are small, since several would start threads for little.
fn number_for<W: Workers>(table: &Table, row: &[Shard], jobs: &[Job], workers: &W) -> NonZeroUsize
    requires some { 0 < length jobs.now }
    requires shards { length row.now ≡ table.now.shards }
    ensures few { non_zero_usize_get result ≤ W.count workers.now }
    ensures light { members_of_layer table.now row.now jobs.now < least_dealt → non_zero_usize_get result ≡ 1 }
{
    let number = workers.number();
    if number.get() == 1 || all_address(jobs[0].groups, jobs) || !are_heavy(table, row, jobs) {
        return NonZeroUsize::MIN;
    }
    number
}

/// Room for the shards of the requests at these places.
fn reserve_spans(
    alloc: Global,
    jobs: &[Job],
    places: &[usize],
) -> Result<Vec<Vec<(GroupId, Shard)>>, AllocError>
    requires { AllByRecursion (λ i. i < length jobs.now) places.now }
    ensures { IfOk result (λ spans. AllZip (FitsAt jobs.now) places.now spans.items) }
{
    let mut spans = Vec::with_capacity(alloc, places.len())?;
    for place in places {
        spans.push(reserve_alone(alloc, &jobs[*place])?)?;
    }
    Ok(spans)
}

/// Room for the shards of a request that is run where they stand: none is taken for one of one group.
pub fn reserve_alone(alloc: Global, job: &Job) -> Result<Vec<(GroupId, Shard)>, AllocError>
    ensures { IfOk result (FitsAlone job.now) }
{
    let groups = job.groups.len();
    if groups == 1 {
        return Ok(Vec::new(alloc));
    }
    Vec::with_capacity(alloc, groups)
}

/// So many places with nothing in them.
fn nothing_run(alloc: Global, count: usize) -> Result<Vec<Option<JobRan>>, AllocError>
    ensures { IfOk result (λ rans. rans.items ≡ replicate count None) }
{
    let mut rans = Vec::with_capacity(alloc, count)?;
    for number in 0..count {
        let _ = number;
        rans.push(None)?;
    }
    Ok(rans)
}
