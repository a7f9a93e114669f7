//! Why a step is refused for a fault of its own, as things are. Nothing here changes anything or takes memory.

ghost use Rattle.std.specs.Prelude.{List, IfSome, IfNone};
ghost use Rattle.groups.specs.declared.skip_id.SkipId.{SkipId};
ghost use Rattle.journal.specs.declared.step.Step.{Step};
ghost use Rattle.order_laws.specs.Runs.{LeavesLayers};
ghost use Rattle.system.specs.Refusing.{IsFault, RefusesNot};

use super::fault::StepFault;
use super::halves::Halves;
use super::stage::Stage;
use journal::Step;

impl Halves {
    /// The fault that the step has of its own, if it has one.
    pub fn own_fault(&self, step: &Step) -> Option<StepFault>
        ensures some { IfSome result (IsFault self.now step.now) }
        ensures none { IfNone result (RefusesNot self.now step.now) }
    {
        match step {
            Step::Take => self.take_fault(),
            Step::Run { starved: _ } => self.run_fault(),
            Step::Settle => self.settle_fault(),
            alone => self.front_fault(alone),
        }
    }

    /// The fault of a step that the front makes alone.
    fn front_fault(&self, step: &Step) -> Option<StepFault>
        requires { LeavesLayers step.now }
        ensures some { IfSome result (IsFault self.now step.now) }
        ensures none { IfNone result (RefusesNot self.now step.now) }
    {
        match self.front.own_fault(step) {
            None => None,
            Some(fault) => Some(StepFault::from(fault)),
        }
    }

    fn take_fault(&self) -> Option<StepFault>
        ensures some { IfSome result (IsFault self.now Step.Take) }
        ensures none { IfNone result (RefusesNot self.now Step.Take) }
    {
        match self.front.take_fault() {
            None => None,
            Some(fault) => Some(StepFault::from(fault)),
        }
    }

    fn run_fault(&self) -> Option<StepFault>
        ensures some { IfSome result (λ fault. (skip : List SkipId) → IsFault self.now (Step.Run skip) fault) }
        ensures none { IfNone result ((skip : List SkipId) → RefusesNot self.now (Step.Run skip)) }
    {
        match &self.stage {
            Stage::Taken(_) => None,
            _ => Some(StepFault::NoLayer),
        }
    }

    fn settle_fault(&self) -> Option<StepFault>
        ensures some { IfSome result (IsFault self.now Step.Settle) }
        ensures none { IfNone result (RefusesNot self.now Step.Settle) }
    {
        match &self.stage {
            Stage::HasRun(_) => None,
            _ => Some(StepFault::NoLayer),
        }
    }
}
