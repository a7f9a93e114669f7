//! A layer's requests, taken out of it at the places of a unit, and what became of them, put in their places.

ghost use Rattle.std.specs.Prelude.{◌≡◌, ℕ, ◌<◌, ◌≤◌, [], length, true, map, slice_get, slice_set, Some, None, IsSome, vec_capacity};
ghost use Rattle.std.specs.List.{AllByRecursion};
ghost use Rattle.groups.specs.GroupSet.{has};
ghost use Rattle.layer_planner.specs.declared.job.Job.{Job};
ghost use Rattle.shard_exec.specs.Dealing.{CanTake, left_at, filled, placed, AreInside};
ghost use Rattle.shard_exec.specs.Layers.{IsJobAt, TookJobs, ended_of};
ghost use Rattle.shard_exec.specs.Stamps.{AreInRow, raise, raised_by};

use crate::Ended;
use crate::moves::raise;
use groups::Stamp;
use layer_planner::Job;
use shard_workers::{JobRan, PlacedJob};

/// The requests, each in a slot from which it can be taken.
pub fn in_slots(jobs: Vec<Job>, slots: Vec<Option<Job>>) -> Vec<Option<Job>>
    requires none { slots.items ≡ [] }
    requires room { length jobs.items ≤ vec_capacity slots }
    ensures { result.items ≡ map (λ j. Some j) jobs.items }
{
    let mut slots = slots;
    for job in jobs {
        let Ok(()) = slots.push(Some(job)) else {
            unreachable!()
        };
    }
    slots
}

/// Takes the requests at these places, in this order, into `jobs`, which has the room.
pub fn take_jobs(
    slots: &mut Vec<Option<Job>>,
    places: &[usize],
    jobs: Vec<PlacedJob>,
) -> Vec<PlacedJob>
    requires there { CanTake slots.old.items places.now }
    requires none { jobs.items ≡ [] }
    requires room { length places.now ≤ vec_capacity jobs }
    ensures took { TookJobs slots.old.items places.now result.items }
    ensures left { slots.new.items ≡ left_at slots.old.items places.now }
{
    let mut jobs = jobs;
    for place in places {
        let Ok(()) = jobs.push(take_job(slots, *place)) else {
            unreachable!()
        };
    }
    jobs
}

/// Takes the request at a place.
pub fn take_job(slots: &mut Vec<Option<Job>>, place: usize) -> PlacedJob
    requires { (job : Job) × (slice_get slots.old.items place ≡ Some (Some job)) }
    ensures taken { IsJobAt slots.old.items place result }
    ensures left { slots.new.items ≡ slice_set slots.old.items place None }
{
    let Some(job) = slots[place].take() else {
        unreachable!()
    };
    PlacedJob { place, job }
}

/// Puts what became of requests in their places.
pub fn place_rans(slots: &mut Vec<Option<JobRan>>, rans: Vec<JobRan>)
    requires { AreInside (length slots.old.items) rans.items }
    ensures placed { slots.new.items ≡ placed slots.old.items rans.items }
    ensures len { length slots.new.items ≡ length slots.old.items }
{
    for ran in rans {
        let place = ran.place;
        slots[place] = Some(ran);
    }
}

/// Tells what became of each request, in the order of the layer, and makes its stamp the last one of its shards.
pub fn tell_all(
    lasts: &mut Vec<Option<Stamp>>,
    slots: Vec<Option<JobRan>>,
    done: Vec<Ended>,
) -> Vec<Ended>
    requires full { AllByRecursion IsSome slots.items }
    requires inside { AreInRow (length lasts.old.items) (filled slots.items) }
    requires none { done.items ≡ [] }
    requires room { length slots.items ≤ vec_capacity done }
    ensures done { result.items ≡ map ended_of (filled slots.items) }
    ensures lasts { lasts.new.items ≡ raised_by lasts.old.items (filled slots.items) }
    ensures len { length lasts.new.items ≡ length lasts.old.items }
{
    let mut done = done;
    for slot in slots {
        let Some(ran) = slot else { unreachable!() };
        let Ok(()) = done.push(tell(lasts, ran)) else {
            unreachable!()
        };
    }
    done
}

/// Tells what became of a request, and makes its stamp the last one of its shards.
// Inlined, so that what came of a request is not moved once more.
#[inline(always)]
pub fn tell(lasts: &mut Vec<Option<Stamp>>, ran: JobRan) -> Ended
    requires { (g : ℕ) → has ran.groups g ≡ true → g < length lasts.old.items }
    ensures ended { result ≡ ended_of ran }
    ensures lasts { lasts.new.items ≡ raise lasts.old.items ran.groups ran.stamp }
    ensures len { length lasts.new.items ≡ length lasts.old.items }
{
    let JobRan {
        place: _,
        id,
        stamp,
        groups,
        words,
        reply,
    } = ran;
    raise(lasts, groups, &stamp);
    Ended {
        id,
        stamp,
        words,
        reply,
    }
}
