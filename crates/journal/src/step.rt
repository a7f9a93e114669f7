//! The steps of the system.

use super::skip_ids::SkipIds;
use groups::ConnId;
use resp::Request;

/// One step of the system, which happens whole or not at all. Contracts compare steps by the bytes of their words and
/// the list of their names.
#[derive(Drop)]
pub enum Step {
    /// The next connection is opened.
    Open,

    /// A connection submits a request of these words.
    Submit { conn: ConnId, words: Request },

    /// The packet at this place of those under way, counted from 0 in order of sending, comes to its group.
    Deliver { place: u64 },

    /// All requests that are ready or lined up are taken as the next layer.
    Take,

    /// The layer that was taken is run, but for these of its requests, and of their members, which count as starved.
    Run { starved: SkipIds },

    /// The outcomes of the layer that was run go to their connections.
    Settle,

    /// A connection takes the outcome of its request, if it is there.
    Collect { conn: ConnId },

    /// A connection is closed.
    Close { conn: ConnId },

    /// A link repeats the packet at this place of those under way: the copy goes behind all of them.
    Repeat { place: u64 },
}
