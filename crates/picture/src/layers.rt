//! Layers, and the replies that their requests get.

ghost use Rattle.std.specs.Prelude.{◌≡◌, ◌++◌, ◌∷◌, [], map, IfOk, OnOk};
ghost use Rattle.picture.specs.Layers.{job_in, marked, reply_in};
ghost use Rattle.picture.specs.Notes.{Runs, Settles, Takes, ids_in, job_noted, replies_noted};

use crate::flights::asked;
use groups::{Groups, SkipId};
use layer_planner::Job;
use picture_shapes::{JobFacts, LayerFacts, ReplyFacts};
use replay::is_whole_among;
use std::alloc::{AllocError, Global};
use system::System;

/// The layers of a run, and the replies that went to connections.
#[derive(Drop)]
pub(super) struct Layers {
    alloc: Global,
    pub(super) layers: Vec<LayerFacts>,
    pub(super) replies: Vec<ReplyFacts>,
}

impl Layers {
    /// There is none.
    pub(super) fn new(alloc: Global) -> Self
        ensures layers { result.layers.items ≡ [] }
        ensures replies { result.replies.items ≡ [] }
    {
        Layers {
            alloc,
            layers: Vec::new(alloc),
            replies: Vec::new(alloc),
        }
    }

    /// The requests of the last layer; none where there is no layer.
    pub(super) fn jobs(&self) -> &[JobFacts] {
        match self.layers.last() {
            Some(layer) => layer.jobs.as_slice(),
            None => &[],
        }
    }

    /// A layer was taken.
    pub(super) fn take(
        &mut self,
        step: usize,
        layer: &[Job],
        last: &[Option<usize>],
    ) -> Result<(), AllocError>
        ensures { OnOk result (Takes step layer.now self.old self.new) }
    {
        let jobs = jobs_of(self.alloc, layer, last)?;
        let number = self.layers.len().saturating_add(1);
        self.layers.push(LayerFacts {
            number,
            take: step,
            run: None,
            settle: None,
            groups: touched_by(layer),
            jobs,
        })?;
        Ok(())
    }

    /// The layer was run, and these are the names of what starved of it.
    pub(super) fn run(&mut self, step: usize, starved: &[SkipId]) -> Result<(), AllocError>
        ensures { OnOk result (Runs step starved.now self.old self.new) }
    {
        let Some(mut layer) = self.layers.pop() else {
            return Ok(());
        };
        let jobs = marked(self.alloc, layer.jobs.as_slice(), starved)?;
        layer.jobs = jobs;
        layer.run = Some(step);
        self.layers.push(layer)?;
        Ok(())
    }

    /// The layer was settled, and this is the system behind it: the outcome of each of its requests waits for its
    /// connection, unless that was closed.
    pub(super) fn settle(&mut self, step: usize, system: &System) -> Result<(), AllocError>
        ensures { OnOk result (Settles step system.now self.old self.new) }
    {
        let Some(mut layer) = self.layers.pop() else {
            return Ok(());
        };
        put_replies(step, layer.jobs.as_slice(), system, &mut self.replies)?;
        layer.settle = Some(step);
        self.layers.push(layer)?;
        Ok(())
    }
}

/// The requests of a layer that was taken.
fn jobs_of(
    alloc: Global,
    layer: &[Job],
    last: &[Option<usize>],
) -> Result<Vec<JobFacts>, AllocError>
    ensures { IfOk result (λ jobs. map job_in jobs.items ≡ map job_noted layer.now) }
{
    let mut jobs = Vec::with_capacity(alloc, layer.len())?;
    for job in layer {
        jobs.push(JobFacts {
            asked: asked(last, job.id),
            stamp: job.stamp,
            groups: job.groups,
            starved: false,
        })?;
    }
    Ok(jobs)
}

/// The same requests, each with whether it starved as a whole.
fn marked(alloc: Global, jobs: &[JobFacts], starved: &[SkipId]) -> Result<Vec<JobFacts>, AllocError>
    ensures { IfOk result (λ told. map job_in told.items ≡ map (marked starved.now) (map job_in jobs.now)) }
{
    let mut told = Vec::with_capacity(alloc, jobs.len())?;
    for job in jobs {
        told.push(JobFacts {
            starved: is_whole_among(job.asked.id, starved),
            ..*job
        })?;
    }
    Ok(told)
}

/// Appends a reply for each of these requests whose connection has an outcome now.
fn put_replies(
    step: usize,
    jobs: &[JobFacts],
    system: &System,
    replies: &mut Vec<ReplyFacts>,
) -> Result<(), AllocError>
    ensures { OnOk result (map reply_in replies.new.items
        ≡ map reply_in replies.old.items ++ replies_noted step system.now (ids_in jobs.now)) }
{
    for job in jobs {
        put_reply(step, job, system, replies)?;
    }
    Ok(())
}

/// Appends a reply for this request if its connection has an outcome now.
fn put_reply(
    step: usize,
    job: &JobFacts,
    system: &System,
    replies: &mut Vec<ReplyFacts>,
) -> Result<(), AllocError>
    ensures { OnOk result (map reply_in replies.new.items
        ≡ map reply_in replies.old.items ++ replies_noted step system.now (job.now.asked.id ∷ [])) }
{
    let asked = job.asked;
    let Some(_) = system.waits(asked.id.conn) else {
        return Ok(());
    };
    replies.push(ReplyFacts { step, asked })?;
    Ok(())
}

/// The groups of all these requests.
fn touched_by(jobs: &[Job]) -> Groups {
    let mut touched = Groups::empty();
    for job in jobs {
        for group in job.groups.iter() {
            touched = touched.with(group);
        }
    }
    touched
}
