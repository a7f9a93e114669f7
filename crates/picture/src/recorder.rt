//! What happens at each step of a run, put down while a system makes it.

ghost use Rattle.std.specs.Prelude.{◌≡◌, IfOk, OnOk, option_map};
ghost use Rattle.picture.specs.Notes.{HasNone, IsBefore, Notes, Runs, Settles, arriving_in};

use crate::arrivals::{Arrivals, Arriving};
use crate::labels::{LONG, SHORT, words_label};
use crate::layers::Layers;
use crate::requests::Requests;
use groups::{ConnId, SkipId};
use journal::Step;
use picture_shapes::{PacketFacts, RunFacts, StepWord};
use std::alloc::{AllocError, Global};
use system::{Effect, System};

/// The facts of the steps that were made, but for those of packets.
#[derive(Drop)]
pub(super) struct Recorder {
    requests: Requests,
    pub(super) arrivals: Arrivals,
    pub(super) layers: Layers,
}

/// What is to be known of a step before it is made.
#[derive(Drop)]
pub(super) enum Before {
    Open,
    Submit { words: Vec<u8>, title: Vec<u8> },
    Deliver(Option<Arriving>),
    Take,
    Run,
    Settle,
    Collect { conn: ConnId },
    Close { conn: ConnId },
    Repeat,
}

impl Before {
    /// That of this step in this system, which brings this packet to its group, if one.
    pub(super) fn of(
        alloc: Global,
        step: &Step,
        landed: Option<PacketFacts>,
        system: &System,
    ) -> Result<Self, AllocError>
        ensures { IfOk result (IsBefore step.now landed system.now) }
    {
        match step {
            Step::Open => Ok(Before::Open),
            Step::Submit { conn: _, words } => {
                let title = words_label(alloc, words, LONG)?;
                let words = words_label(alloc, words, SHORT)?;
                Ok(Before::Submit { words, title })
            }
            Step::Deliver { place: _ } => Ok(Before::Deliver(arriving(landed, system))),
            Step::Take => Ok(Before::Take),
            Step::Run { starved: _ } => Ok(Before::Run),
            Step::Settle => Ok(Before::Settle),
            Step::Collect { conn } => Ok(Before::Collect { conn: *conn }),
            Step::Close { conn } => Ok(Before::Close { conn: *conn }),
            Step::Repeat { place: _ } => Ok(Before::Repeat),
        }
    }
}

/// The packet that is to come, if one is, in this system.
fn arriving(landed: Option<PacketFacts>, system: &System) -> Option<Arriving>
    ensures { result ≡ option_map (arriving_in system.now) landed }
{
    match landed {
        Some(packet) => Some(Arriving::of(packet, system)),
        None => None,
    }
}

impl Recorder {
    /// Nothing has happened.
    pub(super) fn new(alloc: Global) -> Self
        ensures { HasNone result }
    {
        Recorder {
            requests: Requests::new(alloc),
            arrivals: Arrivals::new(alloc),
            layers: Layers::new(alloc),
        }
    }

    /// The facts of a run of these steps over so many groups.
    pub(super) fn into_facts(
        self,
        groups: u8,
        steps: Vec<StepWord>,
        packets: Vec<PacketFacts>,
    ) -> RunFacts
        ensures groups { result.groups ≡ groups }
        ensures steps { result.steps.items ≡ steps.items }
        ensures packets { result.packets.items ≡ packets.items }
        ensures receipts { result.receipts.items ≡ self.arrivals.receipts.items }
        ensures deliveries { result.deliveries.items ≡ self.arrivals.deliveries.items }
        ensures layers { result.layers.items ≡ self.layers.layers.items }
        ensures replies { result.replies.items ≡ self.layers.replies.items }
    {
        let Recorder {
            requests,
            arrivals,
            layers,
        } = self;
        RunFacts {
            groups,
            steps,
            connections: requests.connections,
            requests: requests.requests,
            packets,
            receipts: arrivals.receipts,
            deliveries: arrivals.deliveries,
            layers: layers.layers,
            replies: layers.replies,
        }
    }

    /// Of each connection the place of its last request.
    pub(super) fn last(&self) -> &[Option<usize>] {
        self.requests.last()
    }

    /// Puts down what came of the step at this place, behind which the system is so.
    pub(super) fn note(
        &mut self,
        step: usize,
        before: Before,
        effect: &Effect,
        system: &System,
    ) -> Result<(), AllocError>
        ensures { OnOk result (Notes step before effect.now system.now self.old self.new) }
    {
        match before {
            Before::Open => {
                self.requests.open(step)?;
                Ok(())
            }
            Before::Submit { words, title } => {
                if let Effect::Submitted(id) = effect {
                    self.requests.submit(step, *id, words, title, system)?;
                }
                Ok(())
            }
            Before::Deliver(Some(arriving)) => {
                let last = self.requests.last();
                self.arrivals.come(step, &arriving, last, system)?;
                Ok(())
            }
            Before::Deliver(None) => Ok(()),
            Before::Take => {
                let last = self.requests.last();
                self.layers.take(step, system.layer(), last)?;
                self.requests.take(system.layer())?;
                Ok(())
            }
            Before::Run => match effect {
                Effect::Ran(starved) => {
                    self.note_run(step, starved.as_slice())?;
                    Ok(())
                }
                _ => Ok(()),
            },
            Before::Settle => {
                self.note_settle(step, system)?;
                Ok(())
            }
            Before::Collect { conn } => {
                if let Effect::Collected(Some(_)) = effect {
                    self.requests.collect(step, conn);
                }
                Ok(())
            }
            Before::Close { conn } => {
                self.requests.close(step, conn);
                Ok(())
            }
            Before::Repeat => Ok(()),
        }
    }

    /// The layer was run, and these are the names of what starved of it.
    fn note_run(&mut self, step: usize, starved: &[SkipId]) -> Result<(), AllocError>
        ensures arrivals { self.new.arrivals ≡ self.old.arrivals }
        ensures layers { OnOk result (Runs step starved.now self.old.layers self.new.layers) }
    {
        self.layers.run(step, starved)?;
        self.requests.run(self.layers.jobs());
        Ok(())
    }

    /// The layer was settled.
    fn note_settle(&mut self, step: usize, system: &System) -> Result<(), AllocError>
        ensures arrivals { self.new.arrivals ≡ self.old.arrivals }
        ensures layers { OnOk result (Settles step system.now self.old.layers self.new.layers) }
    {
        self.layers.settle(step, system)?;
        self.requests.answer_all(step, self.layers.jobs(), system)?;
        Ok(())
    }
}
