//! How a layer is divided: into its units, and these among the workers.
ghost use Rattle.std.specs.Prelude.{◌≡◌, ℕ, ◌<◌, ◌≤◌, ◌++◌, true, length, map, IfOk, IsOk};
ghost use Rattle.std.specs.Int.NonZero.{non_zero_usize_get};
ghost use Rattle.groups.specs.Order.{In};
ghost use Rattle.layer_planner.specs.Nexts.{AreNexts};
ghost use Rattle.layer_planner.specs.Parts.{planned, picked_units, part, dealt, UnitsAreUnits, UnitsAreInOrder, PartsAreUnits};
ghost use Rattle.layer_planner.specs.Units.{units, unit_at, is_first, groups_each};

use super::firsts::first_places;
use super::job::Job;
use super::layer::Layer;
use super::nexts::next_places;
use super::part::Part;
use std::alloc::{AllocError, Global};
use std::num::NonZeroUsize;

/// The units of a layer, in the order of their first stamps: the part of a worker that is alone. The only error is want of
/// memory.
pub fn units(alloc: Global, layer: &Layer) -> Result<Part, AllocError>
    ensures units { IfOk result (λ part. part ≡ units layer.now) }
    ensures succeeds { length layer.now ≡ 0 → IsOk result }
{
    if layer.is_empty() {
        return Ok(Part::empty(alloc));
    }
    let jobs = layer.jobs();
    let firsts = first_places(alloc, jobs)?;
    let nexts = next_places(alloc, jobs)?;
    units_from(alloc, jobs, firsts.as_slice(), nexts.as_slice())
}

/// The units that begin at these places.
fn units_from(
    alloc: Global,
    jobs: &[Job],
    firsts: &[usize],
    nexts: &[usize],
) -> Result<Part, AllocError>
    requires inside { (k : ℕ) → In k firsts.now → k < length jobs.now }
    requires firsts { (k : ℕ) → In k firsts.now → is_first (groups_each jobs.now) k ≡ true }
    requires nexts { AreNexts (groups_each jobs.now) nexts.now }
    ensures { IfOk result (λ part. part ≡ map (unit_at (groups_each jobs.now)) firsts.now) }
{
    let mut places = Vec::with_capacity(alloc, jobs.len())?;
    let mut ends = Vec::with_capacity(alloc, firsts.len())?;
    for first in firsts {
        push_unit(jobs, nexts, *first, &mut places)?;
        ends.push(places.len())?;
    }
    Ok(Part { places, ends })
}

/// Adds the places of the unit that begins at `first`.
fn push_unit(
    jobs: &[Job],
    nexts: &[usize],
    first: usize,
    places: &mut Vec<usize>,
) -> Result<(), AllocError>
    requires inside { first < length jobs.now }
    requires first { is_first (groups_each jobs.now) first ≡ true }
    requires nexts { AreNexts (groups_each jobs.now) nexts.now }
    ensures { IfOk result (λ _. places.new.items ≡ places.old.items ++ unit_at (groups_each jobs.now) first) }
{
    let mut place = first;
    while place < jobs.len() {
        places.push(place)?;
        place = nexts[place];
    }
    Ok(())
}

/// Divides the layer among that many workers: the parts, as many as there are workers, or units if these are fewer. The
/// unit of number i, in the order of their first stamps, is in part i mod that number. The only error is want of memory.
pub fn plan(alloc: Global, layer: &Layer, workers: NonZeroUsize) -> Result<Vec<Part>, AllocError>
    ensures dealt { IfOk result (λ parts. parts.items ≡ planned (non_zero_usize_get workers) layer.now) }
    ensures succeeds { length layer.now ≡ 0 → IsOk result }
{
    if layer.is_empty() {
        return Ok(Vec::new(alloc));
    }
    let units = units(alloc, layer)?;
    let count = workers.get().min(units.len());
    deal(alloc, &units, count)
}

/// The units dealt to so many parts.
fn deal(alloc: Global, units: &Part, count: usize) -> Result<Vec<Part>, AllocError>
    requires { count ≤ length units.now }
    ensures { IfOk result (λ parts. parts.items ≡ map (picked_units units.now) (dealt count (length units.now))) }
{
    let mut parts = Vec::with_capacity(alloc, count)?;
    for first in 0..count {
        parts.push(deal_part(alloc, units, first, count)?)?;
    }
    Ok(parts)
}

/// The part `first` of so many parts: the units `first`, `first + parts`, and so on.
fn deal_part(alloc: Global, units: &Part, first: usize, parts: usize) -> Result<Part, AllocError>
    requires first { first < parts }
    requires parts { parts ≤ length units.now }
    ensures { IfOk result (λ p. p ≡ picked_units units.now (part parts (length units.now) first)) }
{
    let mut dealt = Part::empty(alloc).with(units.unit(first))?;
    let mut number = first;
    while parts < units.len() - number {
        number += parts;
        dealt = dealt.with(units.unit(number))?;
    }
    Ok(dealt)
}

/// The law of the units and parts: each place of the layer is in one of them, once, whoever shares a group with a unit
/// is in it, and no unit stands behind one whose first stamp is later. It does nothing: its contract states the law.
pub fn law_of_units()
    ensures units { UnitsAreUnits }
    ensures order { UnitsAreInOrder }
    ensures parts { PartsAreUnits }
{}
