//! What goes wrong with a server as a whole.

ghost use Rattle.std.specs.Prelude.{◌≡◌, ◌≤◌};
ghost use Rattle.server.specs.declared.faults.HostFault.TheVariants as host_fault;

use shared_cluster::CloseKind;
use std::alloc::AllocError;
use thiserror::Error;

/// Why the server doesn't end well. Each reason has its status.
#[derive(Clone, Copy, Debug, Drop, PartialEq, Eq, Error)]
pub(crate) enum HostFault {
    #[error("the network failed")]
    Network,
    #[error("no more steps may be made: {requests} requests took the {steps} of --max-steps")]
    Exhausted { requests: u64, steps: u64 },
    #[error("not closed: {0}")]
    Close(CloseKind),
    #[error("the trace could not be written")]
    Trace,
    #[error("out of memory")]
    Memory,
    #[error("a thread could not be started")]
    Thread,
    #[error("a worker could not be started")]
    Worker,
}

impl HostFault {
    /// The program's status.
    pub fn status(&self) -> u8
        ensures least { 4 ≤ result }
        ensures most { result ≤ 7 }
    {
        match self {
            HostFault::Network => 4,
            HostFault::Exhausted { .. } | HostFault::Close(_) => 5,
            HostFault::Trace => 6,
            HostFault::Memory | HostFault::Thread | HostFault::Worker => 7,
        }
    }
}

impl From<AllocError> for HostFault {
    ghost from_gives = { λ _ fault. fault ≡ host_fault.Memory };

    fn from(_error: AllocError) -> HostFault {
        HostFault::Memory
    }
}
