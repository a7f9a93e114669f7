//! The steps that a front makes alone, made by what they say: all but those that hand a layer out or tell of one.

ghost use Rattle.std.specs.Prelude.{◌≡◌, IfOk, IfErr, OnErr, IfSome, IfNone};
ghost use Rattle.front.specs.Making.{Makes, effect_shown};
ghost use Rattle.front.specs.Refusing.{IsFault, RefusesNot, MayStep};
ghost use Rattle.order_laws.specs.Runs.{LeavesLayers};

use super::effect::Effect;
use super::fault::FrontFault;
use super::front::Front;
use journal::Step;

impl Front {
    /// Makes the step, or says why it isn't made. An error changes nothing.
    // Whoever makes a step knows which, so only that step's call is left where this is inlined.
    #[inline(always)]
    pub fn make(&mut self, step: Step) -> Result<Effect, FrontFault>
        requires alone { LeavesLayers step }
        requires few { MayStep self.old }
        ensures made { IfOk result (λ effect. Makes self.old step (effect_shown effect) self.new) }
        ensures refused { IfErr result (IsFault self.old step) }
        ensures unchanged { OnErr result (self.new ≡ self.old) }
    {
        match step {
            Step::Open => match self.open() {
                Ok(conn) => Ok(Effect::Opened(conn)),
                Err(fault) => Err(fault),
            },
            Step::Submit { conn, words } => match self.submit(conn, words) {
                Ok(id) => Ok(Effect::Submitted(id)),
                Err(fault) => Err(fault),
            },
            Step::Deliver { place } => match self.deliver(place) {
                Ok(()) => Ok(Effect::Made),
                Err(fault) => Err(fault),
            },
            Step::Repeat { place } => match self.repeat(place) {
                Ok(()) => Ok(Effect::Made),
                Err(fault) => Err(fault),
            },
            Step::Collect { conn } => match self.collect(conn) {
                Ok(outcome) => Ok(Effect::Collected(outcome)),
                Err(fault) => Err(fault),
            },
            Step::Close { conn } => match self.close(conn) {
                Ok(()) => Ok(Effect::Made),
                Err(fault) => Err(fault),
            },
            Step::Take => unreachable!(),
            Step::Run { starved: _ } => unreachable!(),
            Step::Settle => unreachable!(),
        }
    }

    /// The fault that the step has of its own, if it has one. It takes no memory.
    pub fn own_fault(&self, step: &Step) -> Option<FrontFault>
        requires { LeavesLayers step.now }
        ensures some { IfSome result (IsFault self.now step.now) }
        ensures none { IfNone result (RefusesNot self.now step.now) }
    {
        match step {
            Step::Open => None,
            Step::Submit { conn, words: _ } => self.submit_fault(*conn),
            Step::Deliver { place } => self.deliver_fault(*place),
            Step::Repeat { place } => self.deliver_fault(*place),
            Step::Collect { conn } => self.collect_fault(*conn),
            Step::Close { conn } => self.collect_fault(*conn),
            Step::Take => unreachable!(),
            Step::Run { starved: _ } => unreachable!(),
            Step::Settle => unreachable!(),
        }
    }
}
