//! Why a seat isn't served, and why a cluster isn't closed.

ghost use Rattle.std.specs.Prelude.{◌≡◌};
ghost use Rattle.shared_cluster.specs.Asks.{told, told_in, lasting};
ghost use Rattle.shared_cluster.specs.Closings.{of_cluster};

use cluster::{CloseFault as ClusterFault, StepFault};
use groups::ConnId;
use thiserror::Error;

/// Why a request isn't answered, or a seat isn't given. Each kind has its number, from 1.
#[derive(Clone, Copy, Debug, Drop, PartialEq, Eq, Error)]
pub enum FaultKind {
    /// 1: the cluster is shut. Nothing was submitted.
    #[error("the server is shut")]
    Closed,

    /// 2: there was no memory. Nothing was submitted.
    #[error("out of memory")]
    Memory,

    /// 3: no more steps may be made. The seat's count tells whether the request was submitted.
    #[error("no more steps may be made")]
    Exhausted,

    /// 4: a layer was refused for good, since a worker could not be started, now or earlier. The seat's count tells whether the
    /// request was submitted.
    #[error("a worker could not be started")]
    Failed,

    /// 5: the seat's connection isn't open or has a request under way, or the seat is not as the cluster has it. The
    /// seat's count tells whether the request was submitted.
    #[error("the seat is not one of this server")]
    NoConn,

    /// 6: there was no memory for a request in an open list, which is none of MULTI, EXEC and DISCARD. Nothing was
    /// submitted, so the list lacks it.
    #[error("no memory for this connection")]
    Unlisted,
}

/// The step that was not made: of a seat, its connection and how many requests it had submitted.
#[derive(Clone, Copy, Debug, Drop, PartialEq, Eq)]
pub enum AskStep {
    /// A seat was to be given.
    Sit,

    /// The seat's next request was to be submitted.
    Submit(ConnId, u64),

    /// What came of the seat's last request was to be collected.
    Collect(ConnId, u64),

    /// A packet or a layer was to be brought on.
    Turn,
}

/// Why a cluster isn't closed. Where several apply it is the first.
#[derive(Clone, Copy, Debug, Drop, PartialEq, Eq, Error)]
pub enum CloseKind {
    /// A layer was refused for good: a worker could not be started.
    #[error("a worker could not be started")]
    Failed,

    /// Not as many seats stood as sat.
    #[error("a seat has not stood")]
    SeatsOut,

    /// A packet is under way, a layer is not settled, or a request is ready.
    #[error("a request is under way")]
    NotQuiet,

    /// As many layers were not settled as the store has run.
    #[error("the layers that were settled are not those of the store")]
    Disagree,
}

/// Why a cluster isn't closed, told of one that no layer stopped.
pub(crate) fn of_cluster(fault: ClusterFault) -> CloseKind
    ensures { result ≡ of_cluster fault }
{
    match fault {
        ClusterFault::SeatsOut => CloseKind::SeatsOut,
        ClusterFault::NotQuiet => CloseKind::NotQuiet,
        ClusterFault::Disagree => CloseKind::Disagree,
    }
}

/// What a seat is told where a step isn't made.
pub(crate) fn told(fault: StepFault) -> FaultKind
    ensures { result ≡ told fault }
{
    match fault {
        StepFault::Exhausted => FaultKind::Exhausted,
        StepFault::Memory => FaultKind::Memory,
        StepFault::Busy
        | StepFault::NoConn
        | StepFault::NoPacket
        | StepFault::InFlight
        | StepFault::NoLayer => FaultKind::NoConn,
    }
}

/// What a seat is told where its submit isn't made, of a request in an open list or of another one.
pub(crate) fn told_in(listed: bool, fault: StepFault) -> FaultKind
    ensures { result ≡ told_in listed fault }
{
    match told(fault) {
        FaultKind::Memory if listed => FaultKind::Unlisted,
        kind => kind,
    }
}

/// What a seat is told where a step isn't made; none for want of memory, after which the step is tried again.
pub(crate) fn lasting(fault: StepFault) -> Option<FaultKind>
    ensures { result ≡ lasting fault }
{
    match told(fault) {
        FaultKind::Memory => None,
        kind => Some(kind),
    }
}
