//! A history that no memory keeps: a list of entries that exists in the proofs alone. One writer adds to it, which lies
//! under whatever lock its owner has; whoever has seen a part of it holds a token without bytes, in any thread.
//!
//! It serves where several threads act under several locks and each has to know that it saw the beginning of one same
//! list. What may stand in the list is a law of the caller's. All parts of a history begin one list, which is legal, and
//! who writes behind a part that he has seen stands behind all that is in it.
#![tactic(auto)]

mod laws;
mod part;
mod threads;
mod tokens;
mod writer;

pub use laws::{Alone, Itself, Law, Naming, Says, SaysAll};
pub use part::Part;
pub use threads::{ThreeParts, write_in_threads, write_locked};
pub use writer::{Unnamed, Writer};
