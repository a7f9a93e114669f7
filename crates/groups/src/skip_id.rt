//! The names of what is skipped, and of what starved.

use crate::RequestId;

/// A request, or one member of a request that has several. Members are numbered from 1.
#[derive(Clone, Copy, Debug, PartialEq, Eq, Hash)]
pub enum SkipId {
    /// The request as a whole.
    Whole(RequestId),

    /// The member of this number.
    Part(RequestId, u64),
}
