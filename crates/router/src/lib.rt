//! Connections and their requests: who may submit, what is under way for whom, and which outcome waits for whom.
//!
//! A connection submits one request at a time and collects its outcome before it submits the next. Words that are
//! refused and commands that look at no key are answered at once; every other request addresses the groups on which its
//! keys lie, and what it asks waits here until it is taken to be run. The system calls the router at its steps; the
//! router knows no packet.
#![tactic(auto)]

mod asking;
mod connection;
mod finishing;
mod listed;
mod outcome;
mod passing;
mod router;
mod submission;

pub use outcome::Outcome;
pub use router::{GREATEST_NUMBER, Router};
pub use submission::{NoConn, Submission, SubmitFault};
