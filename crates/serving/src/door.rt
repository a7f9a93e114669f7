//! What stands behind a connection and answers its requests.

use resp::{Reply, Request};
use resp_decoder::Ahead;

/// A door is told what comes next once for so many requests.
pub const TOLD_AT_ONCE: usize = 32;

/// Why a door gives no reply.
#[derive(Clone, Copy, Debug, Drop, PartialEq, Eq)]
pub enum DoorFault<E> {
    /// There was no memory for the request. It is answered `-ERR out of memory`, and the connection goes on.
    Memory,

    /// The door ends the connection, for this reason. The request gets no reply.
    Ended(E),
}

/// Answers the requests of a connection.
pub trait Door {
    ghost use Rattle.std.specs.Prelude.{ℕ, List};
    ghost use Rattle.serving.specs.Answers.{Answer, answer_of};

    /// Why the door may end a connection. `std::convert::Infallible` where it never does.
    type Reason: Drop;

    // From the first state, this is an answer to a request of these words, and leaves the second state.
    ghost asks: { Self → List (List ℕ) → Answer Self.Reason → Self → Type 0 };

    /// The reply to a request, or why there is none.
    fn ask(&mut self, request: Request) -> Result<Reply, DoorFault<Self::Reason>>
        ensures { asks self.old request (answer_of result) self.new };

    /// Told before each read and each write, which may take long: a door lets go here of what others wait for. It
    /// changes nothing of what the door answers.
    fn rest(&self) {}

    /// Told what comes next, before each `TOLD_AT_ONCE` requests that are held are asked: a door may read here what these
    /// will need, so that memory is waited for once for several of them. It changes nothing of what the door answers.
    fn expect(&self, _ahead: Ahead<'_>) {}
}
