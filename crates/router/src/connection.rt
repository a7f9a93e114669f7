//! One connection, as the router keeps it.

ghost use Rattle.std.specs.Prelude.{◌≡◌};

use super::outcome::Outcome;
use worded::Worded;

/// How a connection stands.
#[derive(Drop)]
pub enum Standing {
    /// It may submit.
    Idle,

    /// Its request waits to be taken: this is what it asks.
    Waiting(Worded),

    /// Its request was taken, and has no outcome yet.
    Taken,

    /// Its request has an outcome.
    Answered(Outcome),
}

impl Standing {
    ghost use Rattle.router.specs.Connection.{is_under_way};

    /// Whether a request was submitted and has no outcome yet.
    pub fn is_under_way(&self) -> bool
        ensures { result ≡ is_under_way self.now }
    {
        matches!(self, Standing::Waiting(_) | Standing::Taken)
    }
}

/// A connection that is open, or whose request is still under way.
#[derive(Drop)]
pub struct Connection {
    pub is_open: bool,
    pub seq: u64,
    pub floor: u64,
    pub standing: Standing,
}
