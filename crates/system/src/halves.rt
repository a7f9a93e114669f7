//! The two halves of the system, and what each kind of step does to them.

ghost use Rattle.std.specs.Prelude.{◌≡◌, ◌≢◌, IfOk, IfErr, OnErr};
ghost use Rattle.system.specs.Halves.{Makes, Keeps};
ghost use Rattle.system.specs.Refusing.{Lives, IsFault, MayFail, HasFailed};
ghost use Rattle.system.specs.declared.fault.StepFault.{StepFault};
ghost use Rattle.journal.specs.declared.step.Step.{Step};
ghost use Rattle.order_laws.specs.Runs.{LeavesLayers};

use super::effect::Effect;
use super::fault::StepFault;
use super::outcomes::{most_of, note_starved};
use super::stage::Stage;
use back::Back;
use front::Front;
use groups::SkipId;
use journal::{SkipIds, Step};
use shard_exec::ExecFault;
use shard_workers::{Gate, Workers};
use std::alloc::Global;
use std::mem;

/// The front, with the connections and the groups; the back, with the shards and the rows of what was executed; the layer
/// that is under way between them; and the names of what starved.
#[derive(Drop)]
pub struct Halves {
    pub front: Front,
    pub back: Back,
    pub stage: Stage,
    pub starved: Vec<SkipId>,
}

impl Halves {
    /// Makes the step, or says why it isn't made.
    // Whoever makes a step knows which, so only that step's code is left where this is inlined; each step is a call.
    #[inline(always)]
    pub fn make<W: Workers>(
        &mut self,
        alloc: Global,
        step: Step,
        workers: &W,
        gate: &(dyn Gate + Sync),
    ) -> Result<Effect, StepFault>
        requires { Lives self.old }
        ensures made { IfOk result (λ effect. Makes self.old step effect self.new) }
        ensures fault { IfErr result (λ fault. fault ≢ StepFault.Failed → IsFault self.old step fault × Keeps self.old self.new) }
        ensures failed { IfErr result (λ fault. fault ≡ StepFault.Failed
            → MayFail (W.may_refuse workers.now) self.old step × HasFailed self.old self.new) }
    {
        match step {
            Step::Take => self.take(),
            Step::Run { starved } => self.run(alloc, starved, workers, gate),
            Step::Settle => self.settle(),
            alone => self.make_in_front(alone),
        }
    }

    /// The front makes the step alone.
    #[inline(never)]
    fn make_in_front(&mut self, step: Step) -> Result<Effect, StepFault>
        requires lives { Lives self.old }
        requires alone { LeavesLayers step }
        ensures made { IfOk result (λ effect. Makes self.old step effect self.new) }
        ensures fault { IfErr result (IsFault self.old step) }
        ensures no_failure { IfErr result (λ fault. fault ≢ StepFault.Failed) }
        ensures keeps { OnErr result (Keeps self.old self.new) }
    {
        match self.front.make(step) {
            Ok(effect) => Ok(Effect::from(effect)),
            Err(fault) => Err(StepFault::from(fault)),
        }
    }

    /// The front hands out all requests that are ready or lined up as the next layer.
    #[inline(never)]
    fn take(&mut self) -> Result<Effect, StepFault>
        requires { Lives self.old }
        ensures made { IfOk result (λ effect. Makes self.old Step.Take effect self.new) }
        ensures fault { IfErr result (IsFault self.old Step.Take) }
        ensures no_failure { IfErr result (λ fault. fault ≢ StepFault.Failed) }
        ensures keeps { OnErr result (Keeps self.old self.new) }
    {
        match self.front.take() {
            Ok(layer) => {
                set_stage(&mut self.stage, Stage::Taken(layer));
                Ok(Effect::Made)
            }
            Err(fault) => Err(StepFault::from(fault)),
        }
    }

    /// The back runs the layer that was taken, but for the requests and the members of `skip`, which count as starved, and
    /// hands over what came of it.
    #[inline(never)]
    fn run<W: Workers>(
        &mut self,
        alloc: Global,
        skip: SkipIds,
        workers: &W,
        gate: &(dyn Gate + Sync),
    ) -> Result<Effect, StepFault>
        requires { Lives self.old }
        ensures made { IfOk result (λ effect. Makes self.old (Step.Run skip) effect self.new) }
        ensures fault { IfErr result (λ fault. fault ≢ StepFault.Failed
            → IsFault self.old (Step.Run skip) fault × Keeps self.old self.new) }
        ensures failed { IfErr result (λ fault. fault ≡ StepFault.Failed
            → MayFail (W.may_refuse workers.now) self.old (Step.Run skip) × HasFailed self.old self.new) }
    {
        self.front.holds();
        let Stage::Taken(taken) = &self.stage else {
            return Err(StepFault::NoLayer);
        };
        let Some(count) = most_of(taken.jobs()) else {
            return Err(StepFault::Memory);
        };
        self.starved.reserve(count)?;
        let mut starved = Vec::with_capacity(alloc, count)?;
        let Stage::Taken(layer) = mem::replace(&mut self.stage, Stage::Free) else {
            unreachable!()
        };
        match self.back.run(layer, skip.as_slice(), workers, gate) {
            Ok(()) => {
                let done = self.back.hand_over();
                note_starved(&done, &mut starved, &mut self.starved);
                set_stage(&mut self.stage, Stage::HasRun(done));
                Ok(Effect::Ran(SkipIds::new(starved)))
            }
            Err(ExecFault::Memory(layer)) => {
                set_stage(&mut self.stage, Stage::Taken(layer));
                Err(StepFault::Memory)
            }
            Err(ExecFault::Failed) => Err(StepFault::Failed),
            Err(ExecFault::Stale(_)) => unreachable!(),
            Err(ExecFault::Foreign(_)) => unreachable!(),
        }
    }

    /// The front is told what came of the layer that was run. It takes no memory.
    #[inline(never)]
    fn settle(&mut self) -> Result<Effect, StepFault>
        requires { Lives self.old }
        ensures made { IfOk result (λ effect. Makes self.old Step.Settle effect self.new) }
        ensures fault { IfErr result (IsFault self.old Step.Settle) }
        ensures no_layer { IfErr result (λ fault. fault ≡ StepFault.NoLayer) }
        ensures keeps { OnErr result (Keeps self.old self.new) }
    {
        let Stage::HasRun(_) = &self.stage else {
            return Err(StepFault::NoLayer);
        };
        let Stage::HasRun(done) = mem::replace(&mut self.stage, Stage::Free) else {
            unreachable!()
        };
        self.front.settle(done);
        Ok(Effect::Made)
    }
}

/// The layer is now so far.
fn set_stage(stage: &mut Stage, now: Stage)
    ensures { stage.new ≡ now }
{
    discard(mem::replace(stage, now));
}

/// Lets a value go. What that takes for each kind of command is seen here alone.
fn discard<T: Drop>(_value: T) {}
