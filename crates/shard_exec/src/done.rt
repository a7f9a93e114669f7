//! What comes of a layer.

use groups::{RequestId, Stamp};
use layer_planner::Layer;
use packing::PackedRequest;
use resp::Answered;

/// A request that was run, with its words, its reply, and the text of that where it is long; or one that starved, and then
/// has no reply.
#[derive(Drop)]
pub struct Ended {
    pub id: RequestId,
    pub stamp: Stamp,
    pub words: PackedRequest,
    pub reply: Option<Answered>,
}

/// Why a layer was not run.
#[derive(Drop)]
pub enum ExecFault {
    /// 1: the stamp of one of its requests is not above the last one of one of its shards. Nothing has changed.
    Stale(Layer),
    /// 2: there is no memory. Nothing has changed.
    Memory(Layer),
    /// 3: a worker could not be started, now or earlier. No later layer is run.
    Failed,
    /// 4: one of its requests addresses other groups than the table gives its batch. Nothing has changed. A store asks
    /// its caller to see to that, and never answers it.
    Foreign(Layer),
}
