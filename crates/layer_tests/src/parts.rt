//! Layers of a few jobs, and their parts as they are worked out by hand.
ghost use Rattle.std.specs.Prelude.{◌<◌};

use crate::jobs::last_of;
use crate::trouble::Trouble;
use groups::{ConnId, GroupId, Groups, RequestId, Stamp};
use layer_planner::{Job, Layer, Part, plan, units};
use resp::Request;
use std::alloc::Global;
use std::num::NonZeroUsize;
use std::test::Fail;
use test_support::{holds, same_count, same_number};
use worded::Worded;

/// A request of the connection `conn` at these groups with a stamp of this clock and that group; what it asks doesn't matter
/// here.
fn stamped(
    alloc: Global,
    conn: u64,
    clock: u64,
    group: GroupId,
    groups: Groups,
) -> Result<Job, Trouble> {
    let request = Request::copy_of(alloc, &[b"PING"])?;
    Ok(Job {
        id: RequestId {
            conn: ConnId(conn),
            seq: 1,
        },
        stamp: Stamp { clock, group },
        groups,
        asked: Worded::read(alloc, request)?,
    })
}

fn group(number: u8) -> Groups
    requires { number < 64 }
{
    Groups::empty().with(GroupId::new(number))
}

/// The groups of these numbers, which are below 64.
fn groups_of(numbers: &[u8]) -> Groups {
    let mut groups = Groups::empty();
    for number in numbers {
        groups = groups.with(GroupId::new(*number & 63));
    }
    groups
}

/// A job: its connection, its clock, and its groups. Its stamp is of the last one.
type Row = (u64, u64, &'static [u8]);

/// Puts a job behind.
fn push(alloc: Global, jobs: &mut Vec<Job>, row: &Row) -> Result<(), Trouble> {
    let (conn, clock, numbers) = *row;
    let groups = groups_of(numbers);
    jobs.push(stamped(alloc, conn, clock, last_of(&groups), groups)?)?;
    Ok(())
}

/// Puts these jobs behind.
fn push_all(alloc: Global, jobs: &mut Vec<Job>, rows: &[Row]) -> Result<(), Trouble> {
    for row in rows {
        push(alloc, jobs, row)?;
    }
    Ok(())
}

/// The layer of these jobs, where they may stand in one.
fn gathered(alloc: Global, rows: &[Row]) -> Result<Option<Layer>, Trouble> {
    let mut jobs = Vec::new(alloc);
    push_all(alloc, &mut jobs, rows)?;
    Ok(Layer::gather(jobs))
}

/// The layer of these jobs, which may stand in one.
fn layer(alloc: Global, rows: &[Row]) -> Result<Layer, Trouble> {
    Ok(gathered(alloc, rows)?.ok_or("a group in two units")?)
}

/// Whether these jobs may stand in one layer.
fn may_stand(alloc: Global, line: &str, rows: &[Row], wanted: bool) -> Result<(), Fail> {
    let layer = gathered(alloc, rows)?;
    holds(line, layer.is_some() == wanted)
}

/// The connection of the last job.
fn last_conn(jobs: &[Job]) -> u64 {
    match jobs.last() {
        Some(job) => job.id.conn.0,
        None => 0,
    }
}

/// The jobs of a layer with another one behind may not stand in one.
fn may_not_have(alloc: Global, layer: Layer, row: &Row) -> Result<(), Fail> {
    let mut jobs = layer.into_jobs();
    same_number("the last job's connection", last_conn(jobs.as_slice()), 2)?;
    push(alloc, &mut jobs, row)?;
    holds("the group 63 twice", Layer::gather(jobs).is_none())
}

const APART: [Row; 3] = [(0, 1, &[0]), (1, 1, &[1]), (2, 1, &[2, 63])];

const BESIDE: [Row; 2] = [(0, 1, &[0]), (1, 2, &[0, 1])];

#[test]
fn a_layer_has_no_group_in_two_units(rt: HostRuntime) -> Result<(), Fail> {
    let line = "a job of two groups beside one of the first";
    may_stand(rt.alloc(), line, &BESIDE, false)?;
    let layer = layer(rt.alloc(), &APART)?;
    same_count("jobs", layer.len(), 3)?;
    may_not_have(rt.alloc(), layer, &(3, 2, &[5, 63]))
}

/// Whether a layer of one job with a stamp of that group at these groups is made.
fn stands_alone(alloc: Global, number: u8, groups: Groups) -> Result<bool, Trouble>
    requires { number < 64 }
{
    let mut jobs = Vec::new(alloc);
    jobs.push(stamped(alloc, 1, 1, GroupId::new(number), groups)?)?;
    Ok(Layer::gather(jobs).is_some())
}

#[test]
fn a_stamp_is_of_one_of_its_groups(rt: HostRuntime) -> Result<(), Fail> {
    let both = group(5).with(GroupId::new(63));
    holds("the first", stands_alone(rt.alloc(), 5, both)?)?;
    holds("the last", stands_alone(rt.alloc(), 63, both)?)?;
    holds("another one", !stands_alone(rt.alloc(), 6, both)?)?;
    holds("of none", !stands_alone(rt.alloc(), 0, Groups::empty())?)
}

#[test]
fn the_stamps_of_a_unit_rise(rt: HostRuntime) -> Result<(), Fail> {
    may_stand(rt.alloc(), "rising", &[(1, 1, &[7]), (2, 2, &[7])], true)?;
    may_stand(rt.alloc(), "falling", &[(1, 2, &[7]), (2, 1, &[7])], false)?;
    may_stand(rt.alloc(), "the same", &[(1, 1, &[7]), (2, 1, &[7])], false)
}

/// The parts have these places.
fn same_places(parts: &[Part], want: &[&[usize]]) -> bool {
    if parts.len() != want.len() {
        return false;
    }
    for (part, want) in parts.iter().zip(want) {
        if part.places() != *want {
            return false;
        }
    }
    true
}

/// A layer is dealt to so many workers: the places of each part.
type Dealt = (&'static str, usize, &'static [&'static [usize]]);

/// A layer is dealt so.
fn is_dealt(alloc: Global, layer: &Layer, dealt: &Dealt) -> Result<(), Fail> {
    let (line, workers, want) = *dealt;
    let workers = NonZeroUsize::new(workers).ok_or("no worker")?;
    let parts = plan(alloc, layer, workers)?;
    holds(line, same_places(parts.as_slice(), want))
}

/// A layer is dealt so each time.
fn are_dealt(alloc: Global, layer: &Layer, rows: &[Dealt]) -> Result<(), Fail> {
    for dealt in rows {
        is_dealt(alloc, layer, dealt)?;
    }
    Ok(())
}

/// So many units.
fn has_units(alloc: Global, layer: &Layer, count: usize) -> Result<(), Fail> {
    let units = units(alloc, layer)?;
    same_count("units", units.len(), count)
}

/// Jobs of the group 0, of 0 again, and of 1.
const TWO_UNITS: [Row; 3] = [(1, 1, &[0]), (2, 2, &[0]), (3, 3, &[1])];

#[rattlefmt::skip]
const TWO_UNITS_DEALT: [Dealt; 3] = [
    ("one part", 1, &[&[0, 1, 2]]),
    ("two parts", 2, &[&[0, 1], &[2]]),
    ("no more parts than units", 8, &[&[0, 1], &[2]]),
];

#[test]
fn a_unit_is_in_one_part(rt: HostRuntime) -> Result<(), Fail> {
    let layer = layer(rt.alloc(), &TWO_UNITS)?;
    are_dealt(rt.alloc(), &layer, &TWO_UNITS_DEALT)?;
    has_units(rt.alloc(), &layer, 2)
}

#[rattlefmt::skip]
const BY_FIRST_STAMPS: [Row; 5] = [
    (1, 3, &[0]),
    (2, 1, &[1]),
    (3, 4, &[0]),
    (4, 2, &[2, 3]),
    (5, 5, &[1]),
];

#[rattlefmt::skip]
const BY_FIRST_STAMPS_DEALT: [Dealt; 2] = [
    ("one part", 1, &[&[1, 4, 3, 0, 2]]),
    ("two parts", 2, &[&[1, 4, 0, 2], &[3]]),
];

#[test]
fn units_go_by_their_first_stamps(rt: HostRuntime) -> Result<(), Fail> {
    let layer = layer(rt.alloc(), &BY_FIRST_STAMPS)?;
    are_dealt(rt.alloc(), &layer, &BY_FIRST_STAMPS_DEALT)
}

/// Jobs of one group each.
#[rattlefmt::skip]
const ALONE: [Row; 7] = [
    (0, 1, &[0]),
    (1, 1, &[1]),
    (2, 1, &[2]),
    (3, 1, &[3]),
    (4, 1, &[4]),
    (5, 1, &[5]),
    (6, 1, &[6]),
];

/// How many of them are dealt, and how.
#[rattlefmt::skip]
const IN_TURN: [(usize, Dealt); 6] = [
    (0, ("no job", 3, &[])),
    (1, ("one job", 8, &[&[0]])),
    (2, ("two to one", 1, &[&[0, 1]])),
    (2, ("two to two", 2, &[&[0], &[1]])),
    (2, ("two to eight", 8, &[&[0], &[1]])),
    (7, ("seven to three", 3, &[&[0, 3, 6], &[1, 4], &[2, 5]])),
];

/// The first of them, so many, are dealt so.
fn are_dealt_alone(alloc: Global, count: usize, dealt: &Dealt) -> Result<(), Fail> {
    let rows = ALONE.get(..count).ok_or("seven jobs at most")?;
    let layer = layer(alloc, rows)?;
    is_dealt(alloc, &layer, dealt)
}

#[test]
fn parts_are_dealt_in_turn(rt: HostRuntime) -> Result<(), Fail> {
    for (count, dealt) in &IN_TURN {
        are_dealt_alone(rt.alloc(), *count, dealt)?;
    }
    Ok(())
}
