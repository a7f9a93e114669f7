//! The front.

ghost use Rattle.std.specs.Prelude.{◌≡◌, IfOk};
ghost use Rattle.front.specs.Fronts.{IsNew};

use layer_planner::Job;
use multicast::Multicast;
use placement::Table;
use router::Router;
use skeen_core::Delivered;
use std::alloc::{AllocError, Global};
use std::marker::Model;
use worded::Worded;

/// Connections, groups with their packets and queues, and the layer that is out.
///
/// Contracts see its parts, how many of its calls made a step, and how many layers were settled. For some history of these
/// steps and of a run of each of these layers it shows the world of that history. How many more packets fit without memory is
/// no part of what contracts see.
#[derive(Drop)]
pub struct Front {
    pub(super) alloc: Global,
    pub(super) table: Table,
    pub(super) router: Router,
    pub(super) multicast: Multicast,
    pub(super) out: Vec<Delivered>,
    // Room for what a request asks that passes.
    pub(super) asked: Vec<Worded>,
    // Room for its job.
    pub(super) jobs: Vec<Job>,
    // Room for its words.
    pub(super) buffer: Vec<u8>,
    pub(super) steps: u64,
    pub(super) layers: u64,
}

impl Model for Front {
    ghost use Rattle.std.specs.Coded.{codes};
    ghost use Rattle.front.specs.Fronts.{FrontView, IsFront, roomless};
    ghost use Rattle.resp.specs.contracts.reply.Reply as reply;
    ghost use Rattle.skeen_core.specs.Kept.{group_code};

    ghost Value = { FrontView };

    ghost coded = { Prim.hlevel (codes, reply.the_row.coded, group_code) };

    ghost view = { λ f. record {
      table = f.table;
      router = f.router;
      multicast = roomless f.multicast;
      out = f.out.items;
      steps = f.steps;
      layers = f.layers;
    } };

    ghost invariant = { λ f. IsFront (record {
      table = f.table;
      router = f.router;
      multicast = roomless f.multicast;
      out = f.out.items;
      steps = f.steps;
      layers = f.layers;
    }) };
}

impl Front {
    /// A front in which nothing has happened, whose keys lie as the table says. The only error is want of memory.
    pub fn new(alloc: Global, table: Table) -> Result<Self, AllocError>
        ensures { IfOk result (IsNew table) }
    {
        let multicast = Multicast::new(alloc, table.shards())?;
        Ok(Front {
            alloc,
            table,
            router: Router::new(alloc),
            multicast,
            out: Vec::new(alloc),
            asked: Vec::new(alloc),
            jobs: Vec::new(alloc),
            buffer: Vec::new(alloc),
            steps: 0,
            layers: 0,
        })
    }
}
