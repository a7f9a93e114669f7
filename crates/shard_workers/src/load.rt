//! Units that one worker runs in turn.

ghost use Rattle.std.specs.Prelude.{◌≡◌, ◌≤◌, [], length, vec_capacity};

use crate::{Gate, Ran, Work};
use groups::SkipId;
use placement::Table;
use std::alloc::Global;

/// Units with their shards, which one worker runs in turn, and the room for what they give. No two share a shard.
#[derive(Drop)]
pub struct Load {
    works: Vec<Work>,
    rans: Vec<Ran>,
    ghost empty: { rans.items ≡ [] },
    ghost room: { length works.items ≤ vec_capacity rans },
}

impl Load {
    ghost use Rattle.shard_workers.specs.Loads.{IsReadyLoad, HasRunLoad};

    /// The load of these units, with the room for what they give.
    pub fn new(works: Vec<Work>, rans: Vec<Ran>) -> Self
        requires none { rans.items ≡ [] }
        requires room { length works.items ≤ vec_capacity rans }
        ensures { result.works ≡ works }
    {
        Load { works, rans }
    }

    /// Runs the units in their order, each in one go and but for what `skip` names, and gives their shards back with what they
    /// answer. It takes memory only for the replies and the keys and values that the requests write.
    pub fn run(
        self,
        alloc: Global,
        table: &Table,
        skip: &[SkipId],
        gate: &(dyn Gate + Sync),
    ) -> Vec<Ran>
        requires { IsReadyLoad table.now self }
        ensures { HasRunLoad table.now skip.now self result }
    {
        let Load { works, mut rans } = self;
        for work in works {
            let Ok(()) = rans.push(work.run(alloc, table, skip, gate)) else {
                unreachable!()
            };
        }
        rans
    }
}
