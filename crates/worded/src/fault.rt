//! Why words can't be read.

ghost use Rattle.std.specs.Prelude.{◌≡◌};
ghost use Rattle.worded.specs.declared.fault.WordedFault.TheVariants.{Memory};

use command_table::Refusal;
use std::alloc::AllocError;
use thiserror::Error;

/// Why words can't be read as a command with its words, or as a batch. Each reason has its number, from 1.
#[derive(Debug, Drop, Error)]
pub enum WordedFault {
    /// 1: the table of commands refuses the words, or those of a member, and says why.
    #[error("{0}")]
    Refused(Refusal),

    /// 2: there was no memory for a copy of the words, or for the members.
    #[error("ERR out of memory")]
    Memory,
}

impl From<AllocError> for WordedFault {
    ghost from_gives = { λ _ fault. fault ≡ Memory };

    fn from(_e: AllocError) -> WordedFault {
        WordedFault::Memory
    }
}
