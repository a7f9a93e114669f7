//! The store: the shards, and the last stamp of each.

ghost use Rattle.std.specs.Prelude.{◌≡◌, ◌++◌, [], ◌∷◌, length, min, pos, sum_by, true, false, IfOk, IfErr, OnOk, OnErr};
ghost use Rattle.std.specs.Bool.{OnTrue, OnFalse};
ghost use Rattle.std.specs.FinMap as map;
ghost use Rattle.std.specs.FinMap.{empty};
ghost use Rattle.std.specs.List.{AllByRecursion};
ghost use Rattle.dumps.specs.Dump.{dump_text};
ghost use Rattle.tasks.specs.Tasks.{task_groups};
ghost use Rattle.shard_exec.specs.declared.done.ExecFault.{ExecFault};
ghost use Rattle.shards.specs.Joined.{joined};
ghost use Rattle.shard_exec.specs.Layers.{AddressTheirGroups, IsInside};
ghost use Rattle.shard_exec.specs.Stamps.{AreFresh, IsFresh, is_above};
ghost use Rattle.shard_exec.specs.StoreStates.{IsStore};
ghost use Rattle.shard_exec.specs.Stores.{empty_store, HasRunLayer, HasFailed, IsNotAdmitted};

use crate::layer_room::{LayerRoom, reserve_alone};
use crate::layer_run::{run_alone, run_layer_over};
use crate::{Ended, ExecFault};
use dumps::Dump;
use groups::{SkipId, Stamp};
use hashed_texts::TextHasher;
use keyspace::Keyspace;
use layer_planner::{Job, Layer};
use placement::Table;
use shard_workers::{Gate, Workers};
use shards::Shard;
use std::alloc::{AllocError, Global};
use std::marker::Model;
use tasks::task_groups;

/// The shards of a table, and the stamp of the last request that addressed each.
///
/// Contracts see the table, the map of each shard, the last stamps, and whether a worker's start was refused once: then
/// nothing is run any more. Each shard has only keys that the table places there.
#[derive(Drop)]
pub struct Store {
    table: Table,
    hasher: TextHasher,
    shards: Vec<Shard>,
    lasts: Vec<Option<Stamp>>,
    failed: bool,
}

impl Model for Store {
    ghost use Rattle.shard_exec.specs.StoreStates.{StoreState, IsStore, state_code};

    ghost Value = { StoreState };

    ghost coded = { state_code };

    ghost view = { λ s. record { table = s.table; maps = s.shards.items; lasts = s.lasts.items; failed = s.failed } };

    ghost invariant = { λ s. IsStore (record { table = s.table; maps = s.shards.items; lasts = s.lasts.items; failed = s.failed }) };
}

impl Store {
    /// A store without keys. All is hashed with the fixed seed. The only error is want of memory.
    pub fn new(alloc: Global, table: Table) -> Result<Self, AllocError>
        ensures { IfOk result (λ store. store ≡ empty_store table) }
    {
        Store::with_hasher(alloc, table, TextHasher::Fixed)
    }

    /// A store without keys, whose shards each hash their keys, and the members and fields of their values, by a copy of
    /// `hasher`. The only error is want of memory.
    pub fn with_hasher(alloc: Global, table: Table, hasher: TextHasher) -> Result<Self, AllocError>
        ensures { IfOk result (λ store. store ≡ empty_store table) }
    {
        let count = usize::from(table.shards());
        let mut shards = Vec::with_capacity(alloc, count)?;
        let mut lasts = Vec::with_capacity(alloc, count)?;
        for number in 0..count {
            let _ = number;
            shards.push(Shard::new(alloc, hasher))?;
            lasts.push(None)?;
        }
        Ok(Store {
            table,
            hasher,
            shards,
            lasts,
            failed: false,
        })
    }

    /// The table that places its keys.
    pub fn table(&self) -> &Table
        ensures table { result.now ≡ self.now.table }
        ensures is_store { IsStore self.now }
    {
        &self.table
    }

    /// Whether a worker could not be started once: then no layer is run any more.
    pub fn has_failed(&self) -> bool
        ensures { result ≡ self.now.failed }
    {
        self.failed
    }

    /// Appends the dump of the map that the shards hold together: a line for each key, ascending by bytes.
    ///
    /// With `AllocError`, where there is no memory for it, `out` is as it was.
    pub fn dump(&self, alloc: Global, out: &mut Vec<u8>) -> Result<(), AllocError>
        ensures ok { OnOk result (out.new.items ≡ out.old.items ++ dump_text (joined self.now.maps)) }
        ensures err { OnErr result (out.new.items ≡ out.old.items) }
    {
        let mut dump = Dump::new(alloc);
        add_shards(self.shards.as_slice(), &mut dump)?;
        dump.write(out)
    }

    /// How many keys the shards hold together, or 9223372036854775807 where there are more.
    pub fn size(&self) -> i64
        ensures { result ≡ pos (min (sum_by map.len self.now.maps) 9223372036854775807) }
    {
        size_of(self.shards.as_slice())
    }

    /// Whether each request of the layer addresses the groups that the table gives its batch: the condition of
    /// `run_layer`, for callers that can't prove it.
    pub fn may_run(&self, layer: &Layer) -> bool
        ensures may { OnTrue result (AddressTheirGroups self.now.table layer.now) }
        ensures may_not { OnFalse result (AddressTheirGroups self.now.table layer.now → ⊥) }
    {
        address_their_groups(&self.table, layer.jobs())
    }

    /// Whether the stamp of each request of the layer is above the last one of each of its shards: else `run_layer` answers
    /// that the layer is stale. For callers that have a fault of their own to tell of after that one.
    pub fn is_fresh(&self, layer: &Layer) -> bool
        requires { AddressTheirGroups self.now.table layer.now }
        ensures fresh { OnTrue result (AreFresh self.now.lasts layer.now) }
        ensures stale { OnFalse result (AreFresh self.now.lasts layer.now → ⊥) }
    {
        are_fresh(self.lasts.as_slice(), layer.jobs())
    }

    /// Runs the requests of a layer by these workers, and tells what became of each, in the order of the layer. Those that
    /// address one group alone are run in one go, by one worker, in their order; one worker takes these units, and each
    /// other request, in the order of their first stamps, and so they are all taken where the sets that they name have
    /// together less than 10,000 members. The gate is told of each request that is run.
    ///
    /// Those named in `skip` are not run and count as starved. A request for whose execution there is no memory
    /// starves: it changes nothing but the last stamps of its shards. So it is with members of an EXEC, each for itself: its
    /// place of the reply says then that there was no memory. `ExecFault` says why a layer is not run.
    pub fn run_layer<W: Workers>(
        &mut self,
        alloc: Global,
        layer: Layer,
        skip: &[SkipId],
        workers: &W,
        gate: &(dyn Gate + Sync),
    ) -> Result<Vec<Ended>, ExecFault>
        requires { AddressTheirGroups self.old.table layer }
        ensures done { IfOk result (λ done. HasRunLayer self.old skip.now layer done.items self.new) }
        ensures fault { IfErr result (λ fault. HasFailed (W.may_refuse workers.now) self.old layer fault self.new) }
    {
        let layer = match admit(self.failed, self.lasts.as_slice(), layer) {
            Ok(layer) => layer,
            Err(fault) => return Err(fault),
        };
        match layer.len() {
            0 => return Ok(Vec::new(alloc)),
            1 => return self
                .list_lone(alloc, layer, skip, gate)
                .map_err(ExecFault::Memory),
            _ => {}
        }
        let row = self.shards.as_slice();
        let Ok(room) = LayerRoom::reserve(alloc, &self.table, row, &layer, workers) else {
            return Err(ExecFault::Memory(layer));
        };
        let outcome = run_layer_over(
            alloc,
            &self.table,
            self.hasher,
            &mut self.shards,
            &mut self.lasts,
            layer.into_jobs(),
            skip,
            workers,
            gate,
            room,
        );
        match outcome {
            Ok(done) => Ok(done),
            Err(_) => Err(fail(&mut self.failed)),
        }
    }

    /// Runs a layer of one request as `run_layer` does, on the caller's thread, and tells what became of it without a list. The layer's
    /// list of jobs comes back beside it, emptied.
    // Inlined, since most layers are of one request.
    #[inline(always)]
    pub fn run_one(
        &mut self,
        alloc: Global,
        layer: Layer,
        skip: &[SkipId],
        gate: &(dyn Gate + Sync),
    ) -> Result<(Ended, Vec<Job>), ExecFault>
        requires groups { AddressTheirGroups self.old.table layer }
        requires lone { length layer ≡ 1 }
        ensures done { IfOk result (λ it. HasRunLayer self.old skip.now layer (it.0 ∷ []) self.new) }
        ensures emptied { IfOk result (λ it. it.1.items ≡ []) }
        ensures fault { IfErr result (λ fault. HasFailed false self.old layer fault self.new) }
    {
        match admit(self.failed, self.lasts.as_slice(), layer) {
            Ok(layer) => self
                .run_lone(alloc, layer, skip, gate)
                .map_err(ExecFault::Memory),
            Err(fault) => Err(fault),
        }
    }

    /// The same of a layer that was admitted, listed. It is handed back, with nothing changed, where there is no memory.
    fn list_lone(
        &mut self,
        alloc: Global,
        layer: Layer,
        skip: &[SkipId],
        gate: &(dyn Gate + Sync),
    ) -> Result<Vec<Ended>, Layer>
        requires lone { length layer ≡ 1 }
        requires groups { AddressTheirGroups self.old.table layer }
        requires lives { self.old.failed ≡ false }
        requires fresh { AreFresh self.old.lasts layer }
        ensures done { IfOk result (λ done. HasRunLayer self.old skip.now layer done.items self.new) }
        ensures back { IfErr result (λ back. back ≡ layer) }
        ensures unchanged { OnErr result (self.new ≡ self.old) }
    {
        let Ok(mut done) = Vec::with_capacity(alloc, 1) else {
            return Err(layer);
        };
        match self.run_lone(alloc, layer, skip, gate) {
            Ok((ended, _jobs)) => {
                done.push_reserved(ended);
                Ok(done)
            }
            Err(layer) => Err(layer),
        }
    }

    /// Runs a layer of one request, which was admitted, and gives its list of jobs back, emptied. The layer is handed back, with nothing
    /// changed, where there is no memory.
    // Inlined, since most layers are of one request.
    #[inline(always)]
    fn run_lone(
        &mut self,
        alloc: Global,
        layer: Layer,
        skip: &[SkipId],
        gate: &(dyn Gate + Sync),
    ) -> Result<(Ended, Vec<Job>), Layer>
        requires lone { length layer ≡ 1 }
        requires groups { AddressTheirGroups self.old.table layer }
        requires lives { self.old.failed ≡ false }
        requires fresh { AreFresh self.old.lasts layer }
        ensures done { IfOk result (λ it. HasRunLayer self.old skip.now layer (it.0 ∷ []) self.new) }
        ensures emptied { IfOk result (λ it. it.1.items ≡ []) }
        ensures back { IfErr result (λ back. back ≡ layer) }
        ensures unchanged { OnErr result (self.new ≡ self.old) }
    {
        let Ok(span) = reserve_alone(alloc, &layer.jobs()[0]) else {
            return Err(layer);
        };
        let mut jobs = layer.into_jobs();
        let Some(job) = jobs.pop() else {
            unreachable!()
        };
        let ended = run_alone(
            alloc,
            &self.table,
            self.hasher,
            &mut self.shards,
            &mut self.lasts,
            job,
            skip,
            gate,
            span,
        );
        Ok((ended, jobs))
    }
}

/// The layer, if it may be run over shards of these last stamps, which have not failed; else why it may not.
fn admit(failed: bool, lasts: &[Option<Stamp>], layer: Layer) -> Result<Layer, ExecFault>
    requires { AllByRecursion (IsInside (length lasts.now)) layer }
    ensures admitted { IfOk result (λ back. back ≡ layer) }
    ensures lives { OnOk result (failed ≡ false) }
    ensures fresh { OnOk result (AreFresh lasts.now layer) }
    ensures refused { IfErr result (IsNotAdmitted failed lasts.now layer) }
{
    if failed {
        return Err(ExecFault::Failed);
    }
    if !are_fresh(lasts, layer.jobs()) {
        return Err(ExecFault::Stale(layer));
    }
    Ok(layer)
}

/// That a worker's start was refused, remembered for good.
fn fail(failed: &mut bool) -> ExecFault
    ensures told { result ≡ ExecFault.Failed }
    ensures remembered { failed.new ≡ true }
{
    *failed = true;
    ExecFault::Failed
}

/// Adds all that the shards hold to an empty dump, the last shard first.
fn add_shards<'a>(shards: &'a [Shard], dump: &mut Dump<'a>) -> Result<(), AllocError>
    requires { dump.old ≡ empty }
    ensures { OnOk result (dump.new ≡ joined shards.now) }
{
    let count = shards.len();
    for done in 0..count {
        shards[count - 1 - done].add_to(dump)?;
    }
    Ok(())
}

/// How many keys the shards hold together, the last shard counted first.
fn size_of(shards: &[Shard]) -> i64
    ensures { result ≡ pos (min (sum_by map.len shards.now) 9223372036854775807) }
{
    let count = shards.len();
    let mut size = 0i64;
    for done in 0..count {
        size = size.saturating_add(shards[count - 1 - done].size());
    }
    size
}

/// Whether each request addresses the groups that the table gives its batch.
fn address_their_groups(table: &Table, jobs: &[Job]) -> bool
    ensures all { OnTrue result (AddressTheirGroups table.now jobs.now) }
    ensures not_all { OnFalse result (AddressTheirGroups table.now jobs.now → ⊥) }
{
    for job in jobs {
        if !addresses_its_groups(table, job) {
            return false;
        }
    }
    true
}

/// Whether the request addresses the groups that the table gives its batch.
fn addresses_its_groups(table: &Table, job: &Job) -> bool
    ensures its { OnTrue result (job.now.groups ≡ task_groups table.now job.now.asked.batch) }
    ensures others { OnFalse result (job.now.groups ≡ task_groups table.now job.now.asked.batch → ⊥) }
{
    job.groups == task_groups(table, job.asked.batch())
}

/// Whether the stamp of each request is above the last one of each of its shards.
fn are_fresh(lasts: &[Option<Stamp>], jobs: &[Job]) -> bool
    requires { AllByRecursion (IsInside (length lasts.now)) jobs.now }
    ensures fresh { OnTrue result (AreFresh lasts.now jobs.now) }
    ensures stale { OnFalse result (AreFresh lasts.now jobs.now → ⊥) }
{
    for job in jobs {
        if !is_fresh(lasts, job) {
            return false;
        }
    }
    true
}

/// Whether the stamp of the request is above the last one of each of its shards.
fn is_fresh(lasts: &[Option<Stamp>], job: &Job) -> bool
    requires { IsInside (length lasts.now) job.now }
    ensures fresh { OnTrue result (IsFresh lasts.now job.now) }
    ensures stale { OnFalse result (IsFresh lasts.now job.now → ⊥) }
{
    for group in job.groups.iter() {
        if !is_above(&lasts[usize::from(group.number())], &job.stamp) {
            return false;
        }
    }
    true
}

/// Whether the stamp is above the last one of a shard, if there is one.
fn is_above(last: &Option<Stamp>, stamp: &Stamp) -> bool
    ensures { result ≡ is_above last.now stamp.now }
{
    match last {
        Some(last) => last < stamp,
        None => true,
    }
}
