//! What a step of a front answers.

use groups::{ConnId, RequestId};
use router::Outcome;

/// What a step answers that a front made alone.
#[derive(Drop)]
pub enum Effect {
    /// The connection that was opened.
    Opened(ConnId),

    /// The id of the request that was submitted.
    Submitted(RequestId),

    /// The outcome that waited for the connection, if one did.
    Collected(Option<Outcome>),

    /// A packet came or was repeated, or a connection was closed.
    Made,
}
