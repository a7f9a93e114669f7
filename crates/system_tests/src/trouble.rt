//! Why a script could not be followed to its end.

use placement::TableFault;
use std::alloc::{AllocError, AllocFailed};
use std::num::ParseIntError;
use system::StepFault;

/// Why a test's own work ended early. A wrong answer isn't among these: it ends the test at once.
#[derive(Clone, Copy, Debug, Drop)]
pub(crate) enum Trouble {
    /// There was no memory for the test's own work.
    Memory,

    /// The script isn't written as it has to be.
    Script,

    /// A step wasn't made that has to be made.
    Refused(StepFault),
}

impl From<AllocError> for Trouble {
    fn from(_error: AllocError) -> Trouble {
        Trouble::Memory
    }
}

impl<T: Drop> From<AllocFailed<T>> for Trouble {
    fn from(_error: AllocFailed<T>) -> Trouble {
        Trouble::Memory
    }
}

impl From<&'static str> for Trouble {
    fn from(_why: &'static str) -> Trouble {
        Trouble::Script
    }
}

impl From<ParseIntError> for Trouble {
    fn from(_error: ParseIntError) -> Trouble {
        Trouble::Script
    }
}

impl From<StepFault> for Trouble {
    fn from(fault: StepFault) -> Trouble {
        Trouble::Refused(fault)
    }
}

impl From<TableFault> for Trouble {
    fn from(fault: TableFault) -> Trouble {
        match fault {
            TableFault::Memory => Trouble::Memory,
            _ => Trouble::Script,
        }
    }
}
