//! The store, and the history of what came of its layers.

ghost use Rattle.std.specs.Prelude.{◌≡◌, ◌++◌, [], length, min, pos, sum_by, IfOk, IfErr, OnOk, OnErr};
ghost use Rattle.std.specs.Bool.{OnTrue, OnFalse};
ghost use Rattle.std.specs.FinMap as map;
ghost use Rattle.dumps.specs.Dump.{dump_text};
ghost use Rattle.serial_store.specs.Runs.{HasRun, IsUnrun};
ghost use Rattle.serial_store.specs.Stores.{new_state, IsLawful};
ghost use Rattle.shard_exec.specs.Layers.{AddressTheirGroups};
ghost use Rattle.shard_exec.specs.StoreStates.{IsStore};
ghost use Rattle.shards.specs.Joined.{joined};

use crate::fault::Unrun;
use crate::law::{Lent, Serial, Tabled};
use crate::ran::Ran;
use crate::running::run_over;
use groups::SkipId;
use hashed_texts::TextHasher;
use history::{Naming, Part, Writer};
use layer_planner::Layer;
use layer_results::{Done, DoneRow};
use placement::Table;
use shard_exec::Store;
use shard_workers::{Gate, Workers};
use std::alloc::{AllocError, Global};
use std::marker::Model;

/// A store of shards, and the writer of the history in which all stands that came of its layers: it takes 16 bytes, however many
/// were run. Contracts see the store, and what came of each layer.
#[derive(Drop)]
pub struct SerialStore<T: Tabled, J: Naming> {
    alloc: Global,
    store: Store,
    runs: Writer<Serial<T>, J>,
    count: u64,
}

impl<T: Tabled, J: Naming> Model for SerialStore<T, J> {
    ghost use Rattle.std.specs.Coded.{codes};
    ghost use Rattle.std.specs.Prelude.{◌≡◌, length};
    ghost use Rattle.resp.specs.contracts.reply.Reply as reply;
    ghost use Rattle.serial_store.specs.Stores.{SerialState, state_of, IsSerialStore};
    ghost use Rattle.shard_exec.specs.StoreStates.{state_code};

    ghost Value = { SerialState };

    ghost coded = { Prim.hlevel (codes, reply.the_row.coded, state_code) };

    ghost view = { λ s. state_of s.store s.runs };

    ghost invariant = { λ s. (s.count ≡ length s.runs) × IsSerialStore T.table s.store s.runs };
}

impl<T: Tabled, J: Naming> SerialStore<T, J> {
    /// A store without keys, placed by this table, that has run nothing. Each shard hashes its keys, and the members and fields of
    /// their values, by a copy of `hasher`. The only error is want of memory.
    pub fn new(
        alloc: Global,
        table: Table,
        hasher: TextHasher,
        runs: Writer<Serial<T>, J>,
    ) -> Result<Self, AllocError>
        requires table { table ≡ T.table }
        requires runs { runs ≡ [] }
        ensures { IfOk result (λ store. store ≡ new_state table) }
    {
        let store = Store::with_hasher(alloc, table, hasher)?;
        Ok(SerialStore {
            alloc,
            store,
            runs,
            count: 0,
        })
    }

    /// Runs the layer of this number by these workers, where so many were run before it, but for the requests and the members that
    /// `skip` names, which count as starved. Its requests address the groups of the store's table. The gate is told of each request that
    /// is run. What comes of a layer of one request lies in this room, which is emptied first.
    ///
    /// `Unrun` says why it is not run: its turn has not come; or the first that applies of Failed, Stale and Memory. All but Failed hand
    /// it back with nothing changed; after Failed no layer is run any more.
    pub fn run<W: Workers>(
        &mut self,
        number: u64,
        layer: Layer,
        room: &mut Vec<DoneRow>,
        skip: &[SkipId],
        workers: &W,
        gate: &(dyn Gate + Sync),
    ) -> Result<Ran<T, J>, Unrun>
        requires { AddressTheirGroups T.table layer }
        ensures run { IfOk result (λ ran. HasRun self.old number skip.now layer ran.done self.new) }
        ensures all { IfOk result (λ ran. (ran.runs ≡ self.new.runs) × (ran.number ≡ number)) }
        ensures room { OnOk result (room.new.items ≡ []) }
        ensures unrun { IfErr result (λ unrun. IsUnrun (W.may_refuse workers.now) self.old number layer unrun self.new) }
    {
        if number != self.count || number == u64::MAX {
            return Err(Unrun::OutOfTurn(layer));
        }
        let _ = self.store.table();
        match run_over(
            self.alloc,
            &mut self.store,
            layer,
            room,
            skip,
            workers,
            gate,
        ) {
            Ok((done, jobs)) => {
                self.runs.write::<&Done, Lent>(&done);
                self.count = number + 1;
                Ok(Ran {
                    number,
                    done,
                    runs: self.runs.part(),
                    jobs,
                })
            }
            Err(fault) => Err(Unrun::Refused(fault)),
        }
    }

    /// Whether each request of the layer addresses the groups that the table gives its batch: the condition of `run`, for callers that
    /// can't prove it.
    pub fn may_run(&self, layer: &Layer) -> bool
        ensures may { OnTrue result (AddressTheirGroups T.table layer.now) }
        ensures may_not { OnFalse result (AddressTheirGroups T.table layer.now → ⊥) }
    {
        self.store.may_run(layer)
    }

    /// The table that places its keys. Each shard has only keys that it places there.
    pub fn table(&self) -> &Table
        ensures table { result.now ≡ self.now.store.table }
        ensures is_store { IsStore self.now.store }
    {
        self.store.table()
    }

    /// What came of each layer that it has run, as a part that was seen.
    pub fn part(&self) -> Part<Serial<T>, J>
        ensures { result ≡ self.now.runs }
    {
        self.runs.part()
    }

    /// How many layers it has run.
    pub fn count(&self) -> u64
        ensures { result ≡ length self.now.runs }
    {
        self.count
    }

    /// How many keys the shards hold together, or 9223372036854775807 where there are more.
    pub fn size(&self) -> i64
        ensures { result ≡ pos (min (sum_by map.len self.now.store.maps) 9223372036854775807) }
    {
        self.store.size()
    }

    /// Whether a worker could not be started once: then no layer is run any more.
    pub fn has_failed(&self) -> bool
        ensures { result ≡ self.now.store.failed }
    {
        self.store.has_failed()
    }

    /// Appends the dump of the map that the shards hold together: a line for each key, ascending by bytes.
    ///
    /// With `AllocError`, where there is no memory for it, `out` is as it was.
    pub fn dump(&self, out: &mut Vec<u8>) -> Result<(), AllocError>
        ensures ok { OnOk result (out.new.items ≡ out.old.items ++ dump_text (joined self.now.store.maps)) }
        ensures err { OnErr result (out.new.items ≡ out.old.items) }
    {
        self.store.dump(self.alloc, out)
    }

    /// It does nothing: its contract says what holds of all that came of the layers, and of the contents.
    ///
    /// One thread that runs the executed requests on one map, in the order of execution, gives each the reply that came of it, and
    /// unless a worker's start was refused it leaves what the shards hold together.
    pub fn lawful(&self)
        ensures { IsLawful T.table self.now.store self.now.runs }
    {
        let _ = &self.runs;
    }
}
