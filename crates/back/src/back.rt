//! The store and its rows.

ghost use Rattle.std.specs.Prelude.{◌≡◌, ◌++◌, [], IfOk, IfErr, OnOk, OnErr};
ghost use Rattle.back.specs.Backs.{new_back, IsLawful};
ghost use Rattle.back.specs.Runs.{HasRun, IsRefused};
ghost use Rattle.dumps.specs.Dump.{dump_text};
ghost use Rattle.shard_exec.specs.StoreStates.{IsStore};
ghost use Rattle.shards.specs.Joined.{joined};

use crate::room::ResultsRoom;
use crate::running::run_over;
use groups::SkipId;
use hashed_texts::TextHasher;
use journal::Rows;
use layer_planner::Layer;
use layer_results::Done;
use placement::Table;
use shard_exec::{ExecFault, Store};
use shard_workers::{Gate, Workers};
use std::alloc::{AllocError, Global};
use std::marker::Model;
use std::mem;

/// A store of shards with the rows of all that was executed there. Contracts see the store, the rows, and what came of the
/// last layer that was run, as long as it isn't handed over.
///
/// The rows are always what one thread on one map makes of their requests in stamp order, and so are the contents, unless a
/// worker's start was refused: `lawful` says it.
#[derive(Drop)]
pub struct Back {
    alloc: Global,
    store: Store,
    rows: Rows,
    last: Done,
    room: ResultsRoom,
}

impl Model for Back {
    ghost use Rattle.std.specs.Coded.{codes};
    ghost use Rattle.resp.specs.contracts.reply.Reply as reply;
    ghost use Rattle.shard_exec.specs.StoreStates.{state_code};
    ghost use Rattle.back.specs.Backs.{BackState, IsBack};

    ghost Value = { BackState };

    ghost coded = { Prim.hlevel (codes, reply.the_row.coded, state_code) };

    ghost view = { λ b. record { store = b.store; rows = b.rows.rows; last = b.last } };

    ghost invariant = { λ b. IsBack b.store b.rows.rows };
}

impl Back {
    /// A store without keys, placed by this table, and no row. Each shard hashes its keys, and the members and fields of
    /// their values, by a copy of `hasher`. The only error is want of memory.
    pub fn new(alloc: Global, table: Table, hasher: TextHasher) -> Result<Self, AllocError>
        ensures { IfOk result (λ back. back ≡ new_back table) }
    {
        let store = Store::with_hasher(alloc, table, hasher)?;
        Ok(Back {
            alloc,
            store,
            rows: Rows::new(alloc),
            last: Done::none(alloc),
            room: ResultsRoom::new(alloc),
        })
    }

    /// Runs a layer by these workers, but for the requests and the members that `skip` names, which count as starved. The gate is
    /// told of each request that is run. Each request that is executed has its row then, and `done` and `hand_over` give what came of
    /// this layer.
    ///
    /// `ExecFault` says why it is not run, the first that applies: Failed, Foreign, Stale, Memory. All but Failed hand it
    /// back with nothing changed; after Failed no layer is run any more, and the rows stay.
    pub fn run<W: Workers>(
        &mut self,
        layer: Layer,
        skip: &[SkipId],
        workers: &W,
        gate: &(dyn Gate + Sync),
    ) -> Result<(), ExecFault>
        ensures run { OnOk result (HasRun self.old skip.now layer self.new) }
        ensures fault { IfErr result (λ fault. IsRefused (W.may_refuse workers.now) self.old layer fault self.new) }
    {
        let _ = self.store.table();
        run_over(
            self.alloc,
            &mut self.store,
            &mut self.rows,
            &mut self.last,
            &mut self.room,
            layer,
            skip,
            workers,
            gate,
        )
    }

    /// What came of the last layer that was run. Nothing did before the first, and after `hand_over`.
    pub fn done(&self) -> &Done
        ensures { result.now ≡ self.now.last }
    {
        &self.last
    }

    /// Gives what came of the last layer that was run, and keeps nothing of it but its rows. It takes no memory.
    pub fn hand_over(&mut self) -> Done
        ensures given { result ≡ self.old.last }
        ensures left { self.new ≡ record self.old { last = [] } }
    {
        mem::replace(&mut self.last, Done::none(self.alloc))
    }

    /// The rows of what was executed, in the order of execution.
    pub fn rows(&self) -> &Rows
        ensures { result.now.rows ≡ self.now.rows }
    {
        &self.rows
    }

    /// The table that places its keys. Each shard has only keys that it places there.
    pub fn table(&self) -> &Table
        ensures table { result.now ≡ self.now.store.table }
        ensures is_store { IsStore self.now.store }
    {
        self.store.table()
    }

    /// Whether a worker could not be started once: then no layer is run any more.
    pub fn has_failed(&self) -> bool
        ensures { result ≡ self.now.store.failed }
    {
        self.store.has_failed()
    }

    /// Appends the dump of the map that the shards hold together: a line for each key, ascending by bytes.
    ///
    /// With `AllocError`, where there is no memory for it, `out` is as it was.
    pub fn dump(&self, out: &mut Vec<u8>) -> Result<(), AllocError>
        ensures ok { OnOk result (out.new.items ≡ out.old.items ++ dump_text (joined self.now.store.maps)) }
        ensures err { OnErr result (out.new.items ≡ out.old.items) }
    {
        self.store.dump(self.alloc, out)
    }

    /// It does nothing: its contract says what holds of the rows and of the contents, whatever layers were brought.
    ///
    /// The rows are kept of executed requests that address the groups of their commands, and of two that touch the one with
    /// the smaller stamp was executed first. One thread that runs their commands on one map, in the order of execution or in
    /// that of their stamps, gives each the reply of its row; and unless a worker's start was refused it leaves what the
    /// shards hold together.
    pub fn lawful(&self)
        ensures { IsLawful self.now.store self.now.rows }
    {
        let _ = &self.rows;
    }
}
