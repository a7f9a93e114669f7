//! What is told of a cluster that is closed.

ghost use Rattle.std.specs.Prelude.{◌≡◌};

/// What is told of a cluster that is closed: how many requests were submitted, and of those that addressed a group how
/// many were executed; and how many requests, and members of EXECs that were executed, starved. Only `Cluster::closing`
/// makes one.
#[derive(Clone, Copy, Debug, PartialEq, Eq)]
pub struct Closing {
    pub(crate) requests: u64,
    pub(crate) executed: u64,
    pub(crate) starved: u64,
}

impl Closing {
    /// How many requests were submitted.
    pub fn requests(&self) -> u64
        ensures { result ≡ self.now.requests }
    {
        self.requests
    }

    /// How many of those that addressed a group were executed.
    pub fn executed(&self) -> u64
        ensures { result ≡ self.now.executed }
    {
        self.executed
    }

    /// How many of those that addressed a group starved, and how many members of those that were executed.
    pub fn starved(&self) -> u64
        ensures { result ≡ self.now.starved }
    {
        self.starved
    }
}
