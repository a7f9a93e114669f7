//! Why a test's own work ended early.

use front::FrontFault;
use placement::TableFault;
use std::alloc::{AllocError, AllocFailed};

/// Why a test's own work ended early. A wrong answer isn't among these: it ends the test at once.
#[derive(Clone, Copy, Debug, Drop)]
pub(crate) enum Trouble {
    /// There was no memory for the test's own work.
    Memory,

    /// What the test asks for isn't written as it has to be.
    Asked,

    /// The front refused a step.
    Refused(FrontFault),
}

impl From<AllocError> for Trouble {
    fn from(_error: AllocError) -> Trouble {
        Trouble::Memory
    }
}

impl<T: Drop> From<AllocFailed<T>> for Trouble {
    fn from(_error: AllocFailed<T>) -> Trouble {
        Trouble::Memory
    }
}

impl From<FrontFault> for Trouble {
    fn from(fault: FrontFault) -> Trouble {
        Trouble::Refused(fault)
    }
}

impl From<TableFault> for Trouble {
    fn from(fault: TableFault) -> Trouble {
        match fault {
            TableFault::Memory => Trouble::Memory,
            _ => Trouble::Asked,
        }
    }
}
