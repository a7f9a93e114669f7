//! What a session gives to be run.

use crate::member::Members;
use command_table::Command;
use resp::Reply;

/// What is run at once: nothing else comes between its members.
#[derive(Drop)]
pub enum Batch {
    /// A command outside a list.
    Plain(Command),

    /// The list that an EXEC closed.
    Exec(Members),
}

/// What comes of a request.
#[derive(Drop)]
pub enum Ask {
    /// It is answered by this.
    Now(Reply),

    /// This is to be run, whose reply answers it.
    Go(Batch),
}
