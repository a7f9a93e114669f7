//! The first place of each unit of a layer.
ghost use Rattle.std.specs.Prelude.{◌≡◌, ℕ, ◌<◌, ◌≤◌, [], ◌∷◌, ◌||◌, length, not, IfOk};
ghost use Rattle.std.specs.List.{insert};
ghost use Rattle.groups.specs.GroupSet.{has};
ghost use Rattle.groups.specs.Order.{In};
ghost use Rattle.layer_planner.specs.Firsts.{IsRising, is_begun};
ghost use Rattle.groups.specs.Stamp.{stamp_lt};
ghost use Rattle.layer_planner.specs.Units.{firsts, put_by_stamp, line_up, groups_at, groups_each, stamp_at};

use super::job::Job;
use groups::{Groups, Stamp};
use std::alloc::{AllocError, Global};

/// The first place of each unit of these jobs, by the stamps.
pub fn first_places(alloc: Global, jobs: &[Job]) -> Result<Vec<usize>, AllocError>
    ensures { IfOk result (λ places. places.items ≡ firsts jobs.now) }
{
    let mut places = Vec::with_capacity(alloc, jobs.len())?;
    let mut begun = Groups::empty();
    for place in 0..jobs.len() {
        if begins(&mut begun, groups_at(jobs, place)) {
            let at = place_among(jobs, places.as_slice(), place);
            places.insert(at, place)?;
        }
    }
    Ok(places)
}

/// Whether a unit begins with a job of these groups, where those of the groups `begun` have begun before.
fn begins(begun: &mut Groups, groups: Groups) -> bool
    ensures first { result ≡ not (is_begun begun.old groups) }
    ensures begun { (g : ℕ) → has begun.new g ≡ (line_up (g ∷ []) groups || has begun.old g) }
{
    let Some(group) = groups.alone() else {
        return true;
    };
    let first = !begun.contains(group);
    *begun = begun.with(group);
    first
}

/// Where the place belongs among others that rise by the stamps of their jobs.
fn place_among(jobs: &[Job], others: &[usize], place: usize) -> usize
    requires inside { (k : ℕ) → In k others.now → k < length jobs.now }
    requires place { place < length jobs.now }
    requires rising { IsRising jobs.now others.now }
    ensures within { result ≤ length others.now }
    ensures at { insert others.now result place ≡ put_by_stamp jobs.now place others.now }
{
    let mut at = others.len();
    while at > 0 && is_earlier(jobs, place, others[at - 1]) {
        at -= 1;
    }
    at
}

/// Whether the job at `place` has an earlier stamp than the one at `other`.
fn is_earlier(jobs: &[Job], place: usize, other: usize) -> bool
    requires place { place < length jobs.now }
    requires other { other < length jobs.now }
    ensures { result ≡ stamp_lt (stamp_at jobs.now place) (stamp_at jobs.now other) }
{
    is_before(&jobs[place].stamp, &jobs[other].stamp)
}

/// Whether the stamp is before the other one.
fn is_before(stamp: &Stamp, other: &Stamp) -> bool
    ensures { result ≡ stamp_lt stamp.now other.now }
{
    stamp < other
}

/// The groups of the job at a place.
pub fn groups_at(jobs: &[Job], place: usize) -> Groups
    requires { place < length jobs.now }
    ensures { result ≡ groups_at (groups_each jobs.now) place }
{
    jobs[place].groups
}
