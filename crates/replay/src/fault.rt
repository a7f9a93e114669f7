//! Why a trace has no report.

ghost use Rattle.std.specs.Prelude.{◌≡◌};
ghost use Rattle.replay.specs.declared.fault.ReplayFault.TheVariants as replay_fault;

use std::alloc::AllocError;
use system::StepFault;
use thiserror::Error;

/// Why a trace has no report. The numbers are 1 and 2.
#[derive(Clone, Copy, Debug, Drop, Error)]
pub enum ReplayFault {
    /// 1: the step at this place of the trace, counted from 0, is the first that isn't accepted, and this is why.
    #[error("step {index} is refused: {fault}")]
    Step { index: u64, fault: StepFault },

    /// 2: there was no memory; also where a request starved that the trace doesn't let starve.
    #[error("out of memory")]
    Memory,
}

impl From<AllocError> for ReplayFault {
    ghost from_gives = { λ _ fault. fault ≡ replay_fault.Memory };

    fn from(_error: AllocError) -> ReplayFault {
        ReplayFault::Memory
    }
}
