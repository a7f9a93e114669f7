//! The names of what starved in a layer.

ghost use Rattle.std.specs.Prelude.{◌≡◌, ◌≤◌, ◌+◌, ◌++◌, [], length, sum, map, IfSome, vec_capacity};
ghost use Rattle.layer_results.specs.Results.{names_of};
ghost use Rattle.system.specs.Outcomes.{most_names, most_of};

use groups::SkipId;
use layer_planner::Job;
use layer_results::Done;
use sessions::Batch;

/// How many names of what starves may come of these requests at most; `None` where that is more than can be counted.
pub(super) fn most_of(jobs: &[Job]) -> Option<usize>
    ensures { IfSome result (λ count. count ≡ most_of jobs.now) }
{
    let mut count: usize = 0;
    for job in jobs {
        count = count.checked_add(most_names(job.asked.batch())?)?;
    }
    Some(count)
}

/// How many may come of a request that runs this batch: its own, and those of its members.
fn most_names(batch: &Batch) -> Option<usize>
    ensures { IfSome result (λ count. count ≡ most_names batch.now) }
{
    match batch {
        Batch::Plain(_) => Some(1),
        Batch::Exec(members) => members.len().checked_add(1),
    }
}

/// Puts the names of what starved into an empty list, and behind all that starved before. There is room in both.
pub(super) fn note_starved(done: &Done, starved: &mut Vec<SkipId>, all: &mut Vec<SkipId>)
    requires none { (starved.old.items ≡ []) × (length (names_of done.now) ≤ vec_capacity starved.old) }
    requires room { length all.old.items + length (names_of done.now) ≤ vec_capacity all.old }
    ensures starved { starved.new.items ≡ names_of done.now }
    ensures all { all.new.items ≡ all.old.items ++ names_of done.now }
{
    done.push_names(starved);
    done.push_names(all);
}
