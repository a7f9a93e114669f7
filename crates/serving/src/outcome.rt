//! How the serving of a connection ends.

use resp_decoder::Fault;
use std::fmt::Display;
use thiserror::Error;

/// How a connection that was served came to its end.
#[derive(Clone, Copy, Debug, PartialEq, Eq)]
pub enum Served {
    /// The input ended behind a whole request.
    End,

    /// The input ended inside a request, which got no reply.
    Inside,

    /// The input has this fault, whose error line was written.
    Protocol(Fault),
}

/// Why a connection could not be served to its end. Each has its number, from 1.
#[derive(Clone, Copy, Debug, Drop, PartialEq, Eq, Error)]
#[error_bound(E: Display)]
pub enum ServeFault<E> {
    /// 1: a read failed. The replies to all requests read are written.
    #[error("a read failed")]
    Read,

    /// 2: a write failed, or took nothing. What is written is a beginning of the replies, in order.
    #[error("a write failed")]
    Write,

    /// 3: there was no memory to read a request or to hold a reply. All replies are written, or all but the last, each
    /// whole.
    #[error("out of memory")]
    Memory,

    /// 4: the door ended the connection. The replies to all requests before are written.
    #[error("{0}")]
    Door(E),
}
