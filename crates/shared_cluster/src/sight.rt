//! What is seen of a cluster while it is used.

/// How far a cluster is: how many requests were submitted and how many steps made, and how many requests, and members of
/// EXECs, have starved.
#[derive(Clone, Copy, Debug, PartialEq, Eq)]
pub struct Sight {
    pub requests: u64,
    pub steps: u64,
    pub starved: u64,
}
