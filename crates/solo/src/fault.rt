//! Why the store ends a connection.

use thiserror::Error;

/// Why the store ends a connection. The keys are as they were before the request, which gets no reply.
#[derive(Clone, Copy, Debug, Drop, PartialEq, Eq, Error)]
pub enum ConnectionFault {
    /// There was no memory for a request that was to be the next member of an open list.
    #[error("no memory for this connection")]
    NoMemory,
}
