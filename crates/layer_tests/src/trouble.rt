//! Why a test's own work ended early.

use placement::TableFault;
use std::alloc::{AllocError, AllocFailed};
use worded::WordedFault;

/// Why a test's own work ended early. A wrong answer isn't among these: it ends the test at once.
#[derive(Clone, Copy, Debug, Drop)]
pub(crate) enum Trouble {
    /// There was no memory for the test's own work.
    Memory,

    /// What the test asks for isn't written as it has to be.
    Asked,
}

impl From<AllocError> for Trouble {
    fn from(_error: AllocError) -> Trouble {
        Trouble::Memory
    }
}

impl<T: Drop> From<AllocFailed<T>> for Trouble {
    fn from(_error: AllocFailed<T>) -> Trouble {
        Trouble::Memory
    }
}

impl From<&'static str> for Trouble {
    fn from(_why: &'static str) -> Trouble {
        Trouble::Asked
    }
}

impl From<WordedFault> for Trouble {
    fn from(fault: WordedFault) -> Trouble {
        match fault {
            WordedFault::Memory => Trouble::Memory,
            WordedFault::Refused(_) => Trouble::Asked,
        }
    }
}

impl From<TableFault> for Trouble {
    fn from(fault: TableFault) -> Trouble {
        match fault {
            TableFault::Memory => Trouble::Memory,
            _ => Trouble::Asked,
        }
    }
}
