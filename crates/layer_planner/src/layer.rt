//! A layer: requests that may run at once, in units.
ghost use Rattle.std.specs.Prelude.{◌≡◌, length, ◌==◌, IfSome, IsSome, ◌↔◌};
ghost use Rattle.layer_planner.specs.Layers.{StandTogether, HaveOwnStamps, MayStand};

use super::job::Job;
use super::standing::may_stand;
use std::marker::Model;

/// Jobs in the order in which they were gathered. Those that address one group alone are a unit, each other one is a unit
/// by itself; no group is in two units, and the stamps of a unit rise. Each stamp is of one of its request's groups. A
/// contract sees them as a list.
#[derive(Drop)]
pub struct Layer {
    jobs: Vec<Job>,
}

impl Model for Layer {
    ghost use Rattle.std.specs.Prelude.{List};
    ghost use Rattle.layer_planner.specs.declared.job.Job.{Job};
    ghost use Rattle.layer_planner.specs.Layers.{MayStand};

    ghost Value = { List Job };

    ghost view = { λ l. l.jobs.items };

    ghost invariant = { λ l. MayStand l.jobs.items };
}

impl Layer {
    /// The layer of these jobs, if no group is in two of their units, the stamps of each unit rise, and each stamp is of one
    /// of its request's groups: so a request of no group is in none. It takes no memory. Else the jobs are dropped.
    #[inline(always)]
    pub fn gather(jobs: Vec<Job>) -> Option<Self>
        ensures gathered { IfSome result (λ layer. layer ≡ jobs.items) }
        ensures just_where { IsSome result ↔ MayStand jobs.items }
    {
        if may_stand(jobs.as_slice()) {
            Some(Layer { jobs })
        } else {
            None
        }
    }

    /// How many jobs there are.
    pub fn len(&self) -> usize
        ensures { result ≡ length self.now }
    {
        self.jobs.len()
    }

    /// Whether there is none.
    pub fn is_empty(&self) -> bool
        ensures { result ≡ (length self.now == 0) }
    {
        self.jobs.is_empty()
    }

    /// The jobs, in their order.
    pub fn jobs(&self) -> &[Job]
        ensures jobs { result.now ≡ self.now }
        ensures units { StandTogether self.now }
        ensures stamps { HaveOwnStamps self.now }
    {
        self.jobs.as_slice()
    }

    /// The jobs, in their order. It takes no memory.
    pub fn into_jobs(self) -> Vec<Job>
        ensures jobs { result.items ≡ self }
        ensures units { StandTogether self }
        ensures stamps { HaveOwnStamps self }
    {
        let Layer { jobs } = self;
        jobs
    }
}
