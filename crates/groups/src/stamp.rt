//! Stamps, by which every group orders the requests that it delivers. Skeen's pairs of a clock's value and a process.
use crate::GroupId;

/// A place in the order of delivery: the value of a group's clock, and that group. Ordered by clock, then group, so
/// that two groups never give the same stamp.
#[derive(Clone, Copy, Debug, PartialEq, Eq, PartialOrd, Ord, Hash)]
pub struct Stamp {
    pub clock: u64,
    pub group: GroupId,
}
