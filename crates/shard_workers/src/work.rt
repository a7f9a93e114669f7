//! A unit of a layer, with the shards of its groups moved out of the store.

ghost use Rattle.std.specs.Prelude.{◌≡◌, ◌≤◌, [], length, vec_capacity};

use crate::{Gate, JobRan, PlacedJob};
use groups::{GroupId, SkipId};
use placement::Table;
use shards::Shard;
use std::alloc::Global;

/// The requests of a unit, in the order in which they are to be run, with the room for what they give and the shards of
/// their groups.
#[derive(Drop)]
pub struct Work {
    jobs: Vec<PlacedJob>,
    rans: Vec<JobRan>,
    shards: Vec<(GroupId, Shard)>,
    ghost empty: { rans.items ≡ [] },
    ghost room: { length jobs.items ≤ vec_capacity rans },
}

/// What became of the requests of a unit, in their order, and of its shards.
#[derive(Drop)]
pub struct Ran {
    pub jobs: Vec<JobRan>,
    pub shards: Vec<(GroupId, Shard)>,
}

impl Work {
    ghost use Rattle.shard_workers.specs.Runs.{IsReady, HasRun};

    /// The unit of these requests, with the room for what they give, and their shards.
    pub fn new(jobs: Vec<PlacedJob>, rans: Vec<JobRan>, shards: Vec<(GroupId, Shard)>) -> Self
        requires none { rans.items ≡ [] }
        requires room { length jobs.items ≤ vec_capacity rans }
        ensures jobs { result.jobs ≡ jobs }
        ensures shards { result.shards ≡ shards }
    {
        Work { jobs, rans, shards }
    }

    /// Runs the requests one after another over the shards, but for what `skip` names. The gate is told only of what is run.
    pub fn run(self, alloc: Global, table: &Table, skip: &[SkipId], gate: &(dyn Gate + Sync)) -> Ran
        requires { IsReady table.now self }
        ensures { HasRun table.now skip.now self result }
    {
        let Work {
            jobs,
            mut rans,
            mut shards,
        } = self;
        for placed in jobs {
            let (ran, left) = placed.run_over(alloc, table, shards, skip, gate);
            shards = left;
            let Ok(()) = rans.push(ran) else {
                unreachable!()
            };
        }
        Ran { jobs: rans, shards }
    }
}
