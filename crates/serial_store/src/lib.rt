//! A store that keeps nothing of what it has run: what came of its layers stands in a history, which exists in the proofs alone.
//!
//! It is for a store that runs for long. Each layer has a number, and is run where so many were run before it; what came of it
//! carries the part of the history that ends with it. So who has two of these knows that one history has both, and that one
//! thread that runs all of its requests gives each its reply.
#![tactic(auto)]

mod fault;
mod law;
mod ran;
mod results;
mod running;
mod store;

pub use fault::Unrun;
pub use law::{Lent, Serial, Tabled};
pub use ran::Ran;
pub use store::SerialStore;
