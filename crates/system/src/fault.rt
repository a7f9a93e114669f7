//! Why a step isn't made.

ghost use Rattle.std.specs.Prelude.{◌≡◌};
ghost use Rattle.system.specs.Faults.{of_front};
ghost use Rattle.system.specs.declared.fault.StepFault.TheVariants as step_fault;

use front::FrontFault;
use std::alloc::AllocError;
use thiserror::Error;

/// Why a step wasn't made. Each reason has its number, from 1. Nothing was changed, but by 8. Where several apply it is
/// the first of 8, 6, the step's own (1 to 5) and 7.
#[derive(Clone, Copy, Debug, Drop, Error)]
pub enum StepFault {
    /// 1: the connection has a request whose outcome it hasn't collected.
    #[error("the connection has a request under way")]
    Busy,

    /// 2: the connection isn't open.
    #[error("no such connection is open")]
    NoConn,

    /// 3: no packet is at this place.
    #[error("no packet is at this place")]
    NoPacket,

    /// 4: a layer is there that isn't settled.
    #[error("a layer is not settled yet")]
    InFlight,

    /// 5: no request is ready, or no layer is there to be run or to be settled.
    #[error("there is no such layer")]
    NoLayer,

    /// 6: as many steps were made as ever may be.
    #[error("no more steps may be made")]
    Exhausted,

    /// 7: there was no memory.
    #[error("out of memory")]
    Memory,

    /// 8: a worker could not be started, now or earlier. No step is made any more.
    #[error("a worker could not be started")]
    Failed,
}

impl From<AllocError> for StepFault {
    ghost from_gives = { λ _ fault. fault ≡ step_fault.Memory };

    fn from(_error: AllocError) -> StepFault {
        StepFault::Memory
    }
}

impl From<FrontFault> for StepFault {
    ghost from_gives = { λ refused fault. fault ≡ of_front refused };

    fn from(refused: FrontFault) -> StepFault {
        match refused {
            FrontFault::Busy => StepFault::Busy,
            FrontFault::NoConn => StepFault::NoConn,
            FrontFault::NoPacket => StepFault::NoPacket,
            FrontFault::InFlight => StepFault::InFlight,
            FrontFault::NoLayer => StepFault::NoLayer,
            FrontFault::Memory => StepFault::Memory,
        }
    }
}
