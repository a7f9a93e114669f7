//! What goes between the router and the groups, and what a group hands to its queue. Plain data that is copied.
use groups::{GroupId, Groups, RequestId, Stamp};

/// A packet about one request, on its way to one group.
#[derive(Clone, Copy, Debug, PartialEq, Eq)]
pub struct Packet {
    pub to: GroupId,
    pub id: RequestId,
    pub body: Body,
}

/// What a packet says.
#[derive(Clone, Copy, Debug, PartialEq, Eq)]
pub enum Body {
    /// The request begins: it addresses `groups`, and each proposal for it stands above `floor`.
    Start { floor: u64, groups: Groups },
    /// The group `from` proposes the stamp (`clock`, `from`).
    Proposal { from: GroupId, clock: u64 },
}

/// A request that a group delivers, with its final stamp and the groups that it addresses.
#[derive(Clone, Copy, Debug, PartialEq, Eq)]
pub struct Delivered {
    pub id: RequestId,
    pub stamp: Stamp,
    pub groups: Groups,
}
