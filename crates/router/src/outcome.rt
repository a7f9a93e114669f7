//! What becomes of a request.

use groups::{RequestId, Stamp};
use resp::Reply;

/// What became of a request: its reply, and its final stamp. A request that addressed no group has no stamp.
#[derive(Drop)]
pub struct Outcome {
    pub id: RequestId,
    pub reply: Reply,
    pub stamp: Option<Stamp>,
}
