//! Why a front makes no step.

ghost use Rattle.std.specs.Prelude.{◌≡◌};
ghost use Rattle.front.specs.Faults.{of_submit, of_deliver};
ghost use Rattle.front.specs.declared.fault.FrontFault.TheVariants as front_fault;

use multicast::DeliverFault;
use router::SubmitFault;
use std::alloc::AllocError;
use thiserror::Error;

/// Why a front makes no step. Nothing was changed. The reasons have the numbers that they have for a whole system. Memory
/// is the last of those that apply.
#[derive(Clone, Copy, Debug, Drop, Error)]
pub enum FrontFault {
    /// 1: the connection has a request whose outcome it hasn't collected.
    #[error("the connection has a request under way")]
    Busy,

    /// 2: the connection isn't open.
    #[error("no such connection is open")]
    NoConn,

    /// 3: no packet is at this place.
    #[error("no packet is at this place")]
    NoPacket,

    /// 4: a layer is out.
    #[error("a layer is not settled yet")]
    InFlight,

    /// 5: no request is ready.
    #[error("there is no such layer")]
    NoLayer,

    /// 7: there was no memory.
    #[error("out of memory")]
    Memory,
}

impl From<AllocError> for FrontFault {
    ghost from_gives = { λ _ fault. fault ≡ front_fault.Memory };

    fn from(_error: AllocError) -> FrontFault {
        FrontFault::Memory
    }
}

impl From<SubmitFault> for FrontFault {
    ghost from_gives = { λ refused fault. fault ≡ of_submit refused };

    fn from(refused: SubmitFault) -> FrontFault {
        match refused {
            SubmitFault::Busy => FrontFault::Busy,
            SubmitFault::NoConn => FrontFault::NoConn,
            SubmitFault::Memory => FrontFault::Memory,
        }
    }
}

impl From<DeliverFault> for FrontFault {
    ghost from_gives = { λ refused fault. fault ≡ of_deliver refused };

    fn from(refused: DeliverFault) -> FrontFault {
        match refused {
            DeliverFault::NoPacket => FrontFault::NoPacket,
            DeliverFault::Memory => FrontFault::Memory,
        }
    }
}
