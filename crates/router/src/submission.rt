//! What a submit answers.

use groups::{Groups, RequestId};
use thiserror::Error;

/// A request that was submitted: its id, the floor above which each proposal for it has to stand, and the groups that
/// it addresses. A request that addresses none has its outcome already.
#[derive(Clone, Copy, Debug)]
pub struct Submission {
    pub id: RequestId,
    pub floor: u64,
    pub groups: Groups,
}

/// The connection isn't open.
#[derive(Clone, Copy, Debug, Drop, Error)]
#[error("no such connection is open")]
pub struct NoConn;

/// Why a request wasn't submitted. Nothing was changed. Each reason has its number, from 1.
#[derive(Clone, Copy, Debug, Drop, Error)]
pub enum SubmitFault {
    /// 1: the connection has a request whose outcome it hasn't collected.
    #[error("the connection has a request under way")]
    Busy,

    /// 2: the connection isn't open.
    #[error("no such connection is open")]
    NoConn,

    /// 3: there was no memory.
    #[error("out of memory")]
    Memory,
}
