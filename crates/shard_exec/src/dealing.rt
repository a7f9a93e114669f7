//! The units of a layer, taken out with their shards: the loads of the workers, by a plan.

ghost use Rattle.std.specs.Prelude.{◌≡◌, ℕ, ◌<◌, ◌≤◌, [], length, map, true, vec_capacity};
ghost use Rattle.std.specs.FinMap.{empty};
ghost use Rattle.std.specs.List.{AllZip, AllByRecursion, concat};
ghost use Rattle.groups.specs.GroupSet.{has};
ghost use Rattle.layer_planner.specs.Parts.{units_in};
ghost use Rattle.shard_exec.specs.Dealing.{CanTake, left_at, all_works};
ghost use Rattle.shard_exec.specs.DealtRooms.{HasRoomFor, HaveRoomFor, IsInRow, MadeWorks, all_rooms};
ghost use Rattle.shard_exec.specs.Layers.{TookJobs};
ghost use Rattle.shards.specs.Rows.{taken_out, emptied};

use crate::dealt_room::{LoadRoom, UnitRoom};
use crate::moves::take_shards;
use crate::taking::take_jobs;
use hashed_texts::TextHasher;
use layer_planner::{Job, Part};
use shard_workers::{Load, Work};
use shards::Shard;
use std::alloc::Global;

/// Takes the units of each part, with their shards, out of the slots and out of the row: the loads. It takes no memory.
pub fn take_loads(
    alloc: Global,
    hasher: TextHasher,
    row: &mut Vec<Shard>,
    slots: Vec<Option<Job>>,
    plan: &[Part],
    rooms: Vec<LoadRoom>,
    loads: Vec<Load>,
) -> Vec<Load>
    requires there { CanTake slots.items (concat (units_in plan.now)) }
    requires rooms { AllZip HaveRoomFor plan.now rooms.items }
    requires inside { AllByRecursion (IsInRow (length row.old.items)) (all_rooms rooms.items) }
    requires none { loads.items ≡ [] }
    requires room { length plan.now ≤ vec_capacity loads }
    ensures made { MadeWorks slots.items row.old.items (units_in plan.now) (all_rooms rooms.items)
        (all_works result.items) row.new.items }
    ensures loads { length result.items ≡ length plan.now }
{
    let mut slots = slots;
    let mut loads = loads;
    let mut rooms = rooms.into_iter();
    for part in plan {
        let Some(room) = rooms.next() else {
            unreachable!()
        };
        let Ok(()) = loads.push(take_load(alloc, hasher, row, &mut slots, part, room)) else {
            unreachable!()
        };
    }
    loads
}

/// Takes the units of a part, with their shards: a load.
fn take_load(
    alloc: Global,
    hasher: TextHasher,
    row: &mut Vec<Shard>,
    slots: &mut Vec<Option<Job>>,
    part: &Part,
    room: LoadRoom,
) -> Load
    requires there { CanTake slots.old.items (concat part.now) }
    requires room { HaveRoomFor part.now room }
    requires inside { AllByRecursion (IsInRow (length row.old.items)) room.units.items }
    ensures made { MadeWorks slots.old.items row.old.items part.now room.units.items
        result.works.items row.new.items }
    ensures left { slots.new.items ≡ left_at slots.old.items (concat part.now) }
    ensures len { length row.new.items ≡ length row.old.items }
{
    let LoadRoom { units, works, rans } = room;
    let works = take_units(alloc, hasher, row, slots, part, units, works);
    Load::new(works, rans)
}

/// Takes the units of a part, with their shards, into `works`, which has the room.
fn take_units(
    alloc: Global,
    hasher: TextHasher,
    row: &mut Vec<Shard>,
    slots: &mut Vec<Option<Job>>,
    part: &Part,
    rooms: Vec<UnitRoom>,
    works: Vec<Work>,
) -> Vec<Work>
    requires there { CanTake slots.old.items (concat part.now) }
    requires rooms { AllZip HasRoomFor part.now rooms.items }
    requires inside { AllByRecursion (IsInRow (length row.old.items)) rooms.items }
    requires none { works.items ≡ [] }
    requires room { length part.now ≤ vec_capacity works }
    ensures made { MadeWorks slots.old.items row.old.items part.now rooms.items result.items row.new.items }
    ensures left { slots.new.items ≡ left_at slots.old.items (concat part.now) }
    ensures count { length result.items ≡ length part.now }
    ensures len { length row.new.items ≡ length row.old.items }
{
    let mut works = works;
    let mut rooms = rooms.into_iter();
    for number in 0..part.len() {
        let Some(room) = rooms.next() else {
            unreachable!()
        };
        let unit = part.unit(number);
        let Ok(()) = works.push(take_unit(alloc, hasher, row, slots, unit, room)) else {
            unreachable!()
        };
    }
    works
}

/// Takes the requests at these places, and the shards of their groups.
fn take_unit(
    alloc: Global,
    hasher: TextHasher,
    row: &mut Vec<Shard>,
    slots: &mut Vec<Option<Job>>,
    places: &[usize],
    room: UnitRoom,
) -> Work
    requires there { CanTake slots.old.items places.now }
    requires room { HasRoomFor places.now room }
    requires inside { IsInRow (length row.old.items) room }
    ensures took { TookJobs slots.old.items places.now result.jobs.items }
    ensures left { slots.new.items ≡ left_at slots.old.items places.now }
    ensures shards { result.shards.items ≡ taken_out empty row.old.items room.groups }
    ensures row { row.new.items ≡ emptied empty row.old.items room.groups }
{
    let UnitRoom {
        groups,
        jobs,
        rans,
        span,
    } = room;
    let jobs = take_jobs(slots, places, jobs);
    let shards = take_shards(alloc, hasher, row, groups, span);
    Work::new(jobs, rans, shards)
}
