//! What stands round each request's execution: for tests that watch or hold it.

use groups::RequestId;

/// Is told of each request before it is run and when it has run, by the worker that runs it.
///
/// It is handed about as `&(dyn Gate + Sync)`, since several workers have it at once.
pub trait Gate {
    /// The request is about to be run.
    fn enter(&self, id: RequestId);

    /// The request has been run, or has starved.
    fn leave(&self, id: RequestId);
}

/// Does nothing.
#[derive(Clone, Copy)]
pub struct OpenGate;

impl Gate for OpenGate {
    fn enter(&self, _id: RequestId) {}

    fn leave(&self, _id: RequestId) {}
}
