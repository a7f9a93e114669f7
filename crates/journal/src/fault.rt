//! Why a text is no trace.

ghost use Rattle.std.specs.Prelude.{◌≡◌};
ghost use Rattle.journal.specs.declared.fault.TraceFault.TheVariants.{Memory};

use std::alloc::AllocError;
use thiserror::Error;

/// Why no trace was read of a text. The text is at fault at a line, or there was no memory; the numbers are 1 and 2.
#[derive(Clone, Copy, Debug, PartialEq, Eq, Error)]
pub enum TraceFault {
    /// 1: this line, counted from 1, is the first that no trace has there: it is another, unfinished or missing, or
    /// stands behind the end.
    #[error("line {line} is no line of a trace")]
    Bad { line: u64 },

    /// 2: no memory was left.
    #[error("out of memory")]
    Memory,
}

impl From<AllocError> for TraceFault {
    ghost from_gives = { λ _ fault. fault ≡ Memory };

    fn from(_e: AllocError) -> TraceFault {
        TraceFault::Memory
    }
}
