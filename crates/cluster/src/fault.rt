//! Why a step isn't made.

ghost use Rattle.std.specs.Prelude.{◌≡◌};
ghost use Rattle.cluster.specs.Making.{of_front};

use front::FrontFault;
use thiserror::Error;

/// Why a step wasn't made. Each reason has the number that it has for a whole system. Nothing was changed. Where several
/// apply it is the first of 6, the step's own (1 to 5) and 7.
#[derive(Clone, Copy, Debug, Drop, Error)]
pub enum StepFault {
    /// 1: the connection has a request whose outcome it hasn't collected.
    #[error("the connection has a request under way")]
    Busy,

    /// 2: the connection isn't open.
    #[error("no such connection is open")]
    NoConn,

    /// 3: no packet is at this place.
    #[error("no packet is at this place")]
    NoPacket,

    /// 4: a layer is out.
    #[error("a layer is not settled yet")]
    InFlight,

    /// 5: no request is ready, or what is to be settled isn't what came of the layer that is out.
    #[error("there is no such layer")]
    NoLayer,

    /// 6: as many steps were made as ever may be, but for the two that are kept back for a layer's Run and Settle.
    #[error("no more steps may be made")]
    Exhausted,

    /// 7: there was no memory.
    #[error("out of memory")]
    Memory,
}

impl From<FrontFault> for StepFault {
    ghost from_gives = { λ refused fault. fault ≡ of_front refused };

    fn from(refused: FrontFault) -> StepFault {
        match refused {
            FrontFault::Busy => StepFault::Busy,
            FrontFault::NoConn => StepFault::NoConn,
            FrontFault::NoPacket => StepFault::NoPacket,
            FrontFault::InFlight => StepFault::InFlight,
            FrontFault::NoLayer => StepFault::NoLayer,
            FrontFault::Memory => StepFault::Memory,
        }
    }
}
