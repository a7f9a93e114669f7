//! Whether jobs may be a layer.
ghost use Rattle.std.specs.Prelude.{IsTrue, ◌↔◌};
ghost use Rattle.std.specs.Bool.{OnTrue, OnFalse};
ghost use Rattle.layer_planner.specs.Layers.{HaveOwnStamps, MayStand};

use super::job::Job;
use super::seen::stand_together;

/// Whether no group is in two units of these jobs, the stamps of each unit rise, and each stamp is of one of its job's
/// groups.
pub fn may_stand(jobs: &[Job]) -> bool
    ensures { IsTrue result ↔ MayStand jobs.now }
{
    have_own_stamps(jobs) && stand_together(jobs)
}

/// Whether the stamp of each job is of one of its groups.
fn have_own_stamps(jobs: &[Job]) -> bool
    ensures all { OnTrue result (HaveOwnStamps jobs.now) }
    ensures not_all { OnFalse result (HaveOwnStamps jobs.now → ⊥) }
{
    for job in jobs {
        if !job.groups.contains(job.stamp.group) {
            return false;
        }
    }
    true
}
