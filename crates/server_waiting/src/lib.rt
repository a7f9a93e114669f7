//! Where the threads of a server wait for each other: a turnstile that connections pass one at a time, places at which
//! seats wait for what comes of their requests, and the endings of connections, whose threads are to be joined.
//!
//! It knows no cluster. What is waited for changes under locks of whoever calls.
#![tactic(auto)]

mod endings;
mod pause;
mod turnstile;
mod waiting;

pub use endings::Endings;
pub use pause::Pause;
pub use turnstile::Turnstile;
pub use waiting::Waiting;
