//! One request, over whatever keyspace has the keys of its batch.

ghost use Rattle.std.specs.Prelude.{◌≡◌, All, IsTrue, length};
ghost use Rattle.shards.specs.Joined.{numbers, union};
ghost use Rattle.tasks.specs.Tasks.{task_keys};
ghost use Rattle.shard_workers.specs.PlacedJobs.{HasRunOn, IsReadyFor, HasRunOver, first_map};
ghost use Rattle.shards.specs.Spans.{IsSpan, lies_on};

use crate::Gate;
use crate::skipping::names_whole;
use groups::{GroupId, Groups, RequestId, SkipId, Stamp};
use keyspace::Keyspace;
use layer_planner::Job;
use packing::PackedRequest;
use placement::Table;
use resp::Answered;
use sessions::Batch;
use shards::{Shard, Span, SpanFrame};
use std::alloc::Global;
use std::marker::Brand;
use tasks::answer_batch;

/// A request that is to be run, or skipped, with its place in the layer.
#[derive(Drop)]
pub struct PlacedJob {
    pub place: usize,
    pub job: Job,
}

/// A request that was run, skipped or starved, with its place in the layer and its words. There is a reply where it was run,
/// with its text where that is long.
#[derive(Drop)]
pub struct JobRan {
    pub place: usize,
    pub id: RequestId,
    pub stamp: Stamp,
    pub groups: Groups,
    pub words: PackedRequest,
    pub reply: Option<Answered>,
}

impl PlacedJob {
    /// The groups that the request addresses.
    pub fn groups(&self) -> Groups
        ensures { result ≡ self.now.job.groups }
    {
        self.job.groups
    }

    /// Runs the request over a keyspace that covers its batch's keys, unless `skip` names it; those of its members that are
    /// named there are skipped. The batch is used up, and the words are kept. The gate is told only of what is run.
    // A call, since its callers have little room for a request's parts.
    #[inline(never)]
    pub fn run<K: Keyspace>(
        self,
        alloc: Global,
        keyspace: &mut K,
        skip: &[SkipId],
        gate: &(dyn Gate + Sync),
    ) -> JobRan
        requires { All (λ key. IsTrue (K.covered key)) (task_keys self.job.asked.batch) }
        ensures ran { HasRunOn skip.now self (K.contents keyspace.old) result (K.contents keyspace.new) }
    {
        let PlacedJob { place, job } = self;
        let Job {
            id,
            stamp,
            groups,
            asked,
        } = job;
        let (words, batch) = asked.into_parts();
        if names_whole(skip, &id) {
            discard(batch);
            return JobRan {
                place,
                id,
                stamp,
                groups,
                words,
                reply: None,
            };
        }
        gate.enter(id);
        let outcome = answer_batch(alloc, keyspace, batch, id, skip);
        gate.leave(id);
        JobRan {
            place,
            id,
            stamp,
            groups,
            words,
            reply: outcome.ok(),
        }
    }

    /// Runs the request over the shards of its groups, and gives them back: over the shard itself where it is one, else
    /// over all as one keyspace.
    pub fn run_over(
        self,
        alloc: Global,
        table: &Table,
        shards: Vec<(GroupId, Shard)>,
        skip: &[SkipId],
        gate: &(dyn Gate + Sync),
    ) -> (JobRan, Vec<(GroupId, Shard)>)
        requires { IsReadyFor table.now self shards.items }
        ensures { HasRunOver table.now skip.now self shards.items result.0 result.1.items }
    {
        if shards.len() == 1 {
            return run_on_one(alloc, shards, self, skip, gate);
        }
        run_on_all::<Brand>(alloc, table, shards, self, skip, gate)
    }
}

/// Lets a batch go.
// A call, since it comes seldom.
#[inline(never)]
fn discard(_batch: Batch) {}

/// Runs a request over the one shard that is there.
fn run_on_one(
    alloc: Global,
    shards: Vec<(GroupId, Shard)>,
    placed: PlacedJob,
    skip: &[SkipId],
    gate: &(dyn Gate + Sync),
) -> (JobRan, Vec<(GroupId, Shard)>)
    requires { length shards.items ≡ 1 }
    ensures number { numbers result.1.items ≡ numbers shards.items }
    ensures ran { HasRunOn skip.now placed (first_map shards.items) result.0 (first_map result.1.items) }
{
    let mut shards = shards;
    let shard = &mut shards[0].1;
    let ran = placed.run(alloc, shard, skip, gate);
    (ran, shards)
}

/// Runs a request over these shards as one keyspace.
// Inlined, so that the request is moved once.
#[inline(always)]
fn run_on_all<F: SpanFrame>(
    alloc: Global,
    table: &Table,
    shards: Vec<(GroupId, Shard)>,
    placed: PlacedJob,
    skip: &[SkipId],
    gate: &(dyn Gate + Sync),
) -> (JobRan, Vec<(GroupId, Shard)>)
    requires table { table.now ≡ F.layout }
    requires shards { IsSpan F.layout F.groups shards.items }
    requires keys { All (λ key. IsTrue (lies_on F.layout F.groups key)) (task_keys placed.job.asked.batch) }
    ensures shards { IsSpan F.layout F.groups result.1.items }
    ensures ran { HasRunOn skip.now placed (union shards.items) result.0 (union result.1.items) }
{
    let mut span: Span<F> = Span::new(table, shards);
    let ran = placed.run(alloc, &mut span, skip, gate);
    (ran, span.into_shards())
}
