//! Why a step is refused for a fault of its own, as things are. Nothing here changes anything or takes memory.

ghost use Rattle.std.specs.Prelude.{ℕ, List, IfSome, IfNone};
ghost use Rattle.front.specs.Refusing.{IsFault, RefusesNot};
ghost use Rattle.journal.specs.declared.step.Step.{Step};

use super::fault::FrontFault;
use super::front::Front;
use groups::ConnId;
use router::SubmitFault;

impl Front {
    /// Why a connection may not submit, if it may not.
    pub fn submit_fault(&self, conn: ConnId) -> Option<FrontFault>
        ensures some { IfSome result (λ fault. (words : List (List ℕ)) → IsFault self.now (Step.Submit conn words) fault) }
        ensures none { IfNone result ((words : List (List ℕ)) → RefusesNot self.now (Step.Submit conn words)) }
    {
        match self.router.may_submit(conn) {
            Ok(()) => None,
            Err(refused) => Some(FrontFault::from(refused)),
        }
    }

    /// Why the packet at this place neither comes nor is repeated, if it does not.
    pub fn deliver_fault(&self, place: u64) -> Option<FrontFault>
        ensures some { IfSome result (λ fault. IsFault self.now (Step.Deliver place) fault × IsFault self.now (Step.Repeat place) fault) }
        ensures none { IfNone result (RefusesNot self.now (Step.Deliver place) × RefusesNot self.now (Step.Repeat place)) }
    {
        if place < self.multicast.packets() as u64 {
            None
        } else {
            Some(FrontFault::NoPacket)
        }
    }

    /// Why no layer may be taken, if none may.
    pub fn take_fault(&self) -> Option<FrontFault>
        ensures some { IfSome result (IsFault self.now Step.Take) }
        ensures none { IfNone result (RefusesNot self.now Step.Take) }
    {
        if !self.out.is_empty() {
            return Some(FrontFault::InFlight);
        }
        if self.multicast.has_ready() {
            None
        } else {
            Some(FrontFault::NoLayer)
        }
    }

    /// Why a connection may neither collect nor be closed, if it may not.
    pub fn collect_fault(&self, conn: ConnId) -> Option<FrontFault>
        ensures some { IfSome result (λ fault. IsFault self.now (Step.Collect conn) fault × IsFault self.now (Step.Close conn) fault) }
        ensures none { IfNone result (RefusesNot self.now (Step.Collect conn) × RefusesNot self.now (Step.Close conn)) }
    {
        match self.router.may_submit(conn) {
            Ok(()) => None,
            Err(SubmitFault::Busy) => None,
            Err(SubmitFault::NoConn) => Some(FrontFault::NoConn),
            Err(SubmitFault::Memory) => None,
        }
    }
}
