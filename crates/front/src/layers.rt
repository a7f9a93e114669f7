//! A layer is taken: what it asks goes out, and the front remembers which requests these are.

ghost use Rattle.std.specs.Prelude.{◌≡◌, ◌≤◌, [], ◌∷◌, length, vec_capacity, IfOk, IfErr, OnErr};
ghost use Rattle.front.specs.Refusing.{IsFault, MayStep};
ghost use Rattle.front.specs.Taking.{IsTaking, Takes};
ghost use Rattle.journal.specs.declared.step.Step.{Step};
ghost use Rattle.placement.specs.Layout.{Layout};
ghost use Rattle.front.specs.Layers.{AreJobs};
ghost use Rattle.world.specs.World.{World};

use super::fault::FrontFault;
use super::front::Front;
use groups::Stamp;
use layer_planner::{Job, Layer};
use router::Router;
use skeen_core::Delivered;
use worded::Worded;

impl Front {
    /// All requests that are ready or lined up are taken as the next layer, and handed out to be run. Until what came of them
    /// is settled they are out, and no other layer is.
    ///
    /// Errors, with nothing changed: `InFlight`, a layer is out; `NoLayer`, no request is ready; `Memory`.
    pub fn take(&mut self) -> Result<Layer, FrontFault>
        requires { MayStep self.old }
        ensures made { IfOk result (λ layer. Takes self.old layer self.new) }
        ensures refused { IfErr result (IsFault self.old Step.Take) }
        ensures unchanged { OnErr result (self.new ≡ self.old) }
    {
        if !self.out.is_empty() {
            return Err(FrontFault::InFlight);
        }
        let Ok(ready) = self.multicast.ready() else {
            return Err(FrontFault::Memory);
        };
        if ready.is_empty() {
            return Err(FrontFault::NoLayer);
        }
        let Ok(mut jobs) = Vec::with_capacity(self.alloc, ready.len()) else {
            return Err(FrontFault::Memory);
        };
        take_all(&mut self.router, ready.as_slice(), &mut jobs);
        self.multicast.lose_layer(ready.as_slice());
        let Some(layer) = Layer::gather(jobs) else {
            unreachable!()
        };
        self.out = ready;
        self.steps += 1;
        Ok(layer)
    }
}

/// Takes the requests of a layer out of the router: what each asks, with its id, its stamp and its groups. There is room
/// for all of them.
fn take_all(router: &mut Router, ready: &[Delivered], jobs: &mut Vec<Job>)
    requires waits { (t : Layout) × (w : World) × IsTaking t w [] ready.now router.old }
    requires no_jobs { (jobs.old.items ≡ []) × (length ready.now ≤ vec_capacity jobs.old) }
    ensures taken { (t : Layout) (w : World) → IsTaking t w [] ready.now router.old
        → IsTaking t w ready.now [] router.new × AreJobs w.asked ready.now jobs.new.items }
{
    for request in ready {
        let Some(asked) = router.take(request.id) else {
            unreachable!()
        };
        jobs.push_reserved(job_of(request, asked));
    }
}

/// The request that was delivered, which asks this, to be run.
#[inline(always)]
pub(super) fn job_of(request: &Delivered, asked: Worded) -> Job
    ensures { result ≡ record { id = request.now.id; stamp = request.now.stamp; groups = request.now.groups; asked = asked } }
{
    Job {
        id: request.id,
        stamp: Stamp { ..request.stamp },
        groups: request.groups,
        asked,
    }
}
