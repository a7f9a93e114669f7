//! What all replies of a server are together, whichever connections got them: they stand in one history, whose world is that of one
//! thread on one map, and who asks once he has seen another's reply has run behind it.
//!
//! The laws are functions that do nothing; their contracts state laws over `world`, and over what `shared_cluster` says of one reply.
//! `ask_in_threads` says the same of three requests that it makes.
#![tactic(auto)]

mod asking;
mod replies;

pub use asking::{Three, ask_in_threads};
pub use replies::{one_history, real_time};
