//! The memory that a layer needs to be run by several workers, taken before any shard is moved.

ghost use Rattle.std.specs.Prelude.{◌≡◌, ◌≤◌, [], length, IfOk, vec_capacity};
ghost use Rattle.std.specs.List.{AllZip, AllByRecursion};
ghost use Rattle.layer_planner.specs.Units.{groups_each};
ghost use Rattle.shard_exec.specs.DealtRooms.{AreInLayer, HasRoomFor, IsForGroups, FitsLoad, FitsDealt};

use groups::{GroupId, Groups};
use layer_planner::{Job, Part};
use shard_workers::{JobRan, Load, PlacedJob, Ran, Room, Work, Workers};
use shards::Shard;
use std::alloc::{AllocError, Global};

/// Room for the requests of one unit, for what they give, and for the shards of their groups.
#[derive(Drop)]
pub struct UnitRoom {
    pub groups: Groups,
    pub jobs: Vec<PlacedJob>,
    pub rans: Vec<JobRan>,
    pub span: Vec<(GroupId, Shard)>,
}

/// Room for the units of one load, and for what they give.
#[derive(Drop)]
pub struct LoadRoom {
    pub units: Vec<UnitRoom>,
    pub works: Vec<Work>,
    pub rans: Vec<Ran>,
}

/// Room for the loads of a layer, and what the workers need.
#[derive(Drop)]
pub struct DealtRoom<'s> {
    pub rooms: Vec<LoadRoom>,
    pub loads: Vec<Load>,
    pub room: Room<'s>,
}

impl<'s> DealtRoom<'s> {
    /// The room for a layer that is divided by this plan among these workers.
    pub fn reserve<W: Workers>(
        alloc: Global,
        jobs: &[Job],
        plan: &[Part],
        workers: &W,
    ) -> Result<Self, AllocError>
        requires { AllByRecursion (AllByRecursion (AreInLayer (length jobs.now))) plan.now }
        ensures fits { IfOk result (FitsDealt (groups_each jobs.now) plan.now) }
        ensures room { IfOk result (λ d. W.has_room d.room (length plan.now)) }
    {
        let rooms = reserve_loads(alloc, jobs, plan)?;
        let loads = Vec::with_capacity(alloc, plan.len())?;
        let room = workers.reserve(alloc, plan.len())?;
        Ok(DealtRoom { rooms, loads, room })
    }
}

/// Room for the load of each part of the plan.
fn reserve_loads(alloc: Global, jobs: &[Job], plan: &[Part]) -> Result<Vec<LoadRoom>, AllocError>
    requires { AllByRecursion (AllByRecursion (AreInLayer (length jobs.now))) plan.now }
    ensures { IfOk result (λ rooms. AllZip (FitsLoad (groups_each jobs.now)) plan.now rooms.items) }
{
    let mut rooms = Vec::with_capacity(alloc, plan.len())?;
    for part in plan {
        rooms.push(reserve_load(alloc, jobs, part)?)?;
    }
    Ok(rooms)
}

/// Room for the load of one part.
fn reserve_load(alloc: Global, jobs: &[Job], part: &Part) -> Result<LoadRoom, AllocError>
    requires { AllByRecursion (AreInLayer (length jobs.now)) part.now }
    ensures { IfOk result (FitsLoad (groups_each jobs.now) part.now) }
{
    let units = reserve_units(alloc, jobs, part)?;
    let works = Vec::with_capacity(alloc, part.len())?;
    let rans = Vec::with_capacity(alloc, part.len())?;
    Ok(LoadRoom { units, works, rans })
}

/// Room for each unit of a part.
fn reserve_units(alloc: Global, jobs: &[Job], part: &Part) -> Result<Vec<UnitRoom>, AllocError>
    requires { AllByRecursion (AreInLayer (length jobs.now)) part.now }
    ensures room { IfOk result (λ rooms. AllZip HasRoomFor part.now rooms.items) }
    ensures groups { IfOk result (λ rooms. AllZip (IsForGroups (groups_each jobs.now)) part.now rooms.items) }
{
    let mut rooms = Vec::with_capacity(alloc, part.len())?;
    for number in 0..part.len() {
        let unit = part.unit(number);
        rooms.push(reserve_unit(alloc, jobs[unit[0]].groups, unit.len())?)?;
    }
    Ok(rooms)
}

/// Room for so many requests of these groups.
fn reserve_unit(alloc: Global, groups: Groups, count: usize) -> Result<UnitRoom, AllocError>
    ensures groups { IfOk result (λ room. room.groups ≡ groups) }
    ensures no_jobs { IfOk result (λ room. room.jobs.items ≡ []) }
    ensures jobs { IfOk result (λ room. count ≤ vec_capacity room.jobs) }
    ensures none_run { IfOk result (λ room. room.rans.items ≡ []) }
    ensures rans { IfOk result (λ room. count ≤ vec_capacity room.rans) }
    ensures no_shards { IfOk result (λ room. room.span.items ≡ []) }
    ensures span { IfOk result (λ room. length groups ≤ vec_capacity room.span) }
{
    let jobs = Vec::with_capacity(alloc, count)?;
    let rans = Vec::with_capacity(alloc, count)?;
    let span = Vec::with_capacity(alloc, groups.len())?;
    Ok(UnitRoom {
        groups,
        jobs,
        rans,
        span,
    })
}
