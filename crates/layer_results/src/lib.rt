//! What comes of a layer that was run, on its way from who ran it to who tells its clients.
//!
//! Who runs layers and who has the connections may each be under a lock of its own, and neither names the other. What one
//! hands to the other is a `Done`: a row for each request, of which it can be told what starved, the request or some of its
//! members.
#![tactic(auto)]

mod done;
mod members;
mod starving;

pub use done::{Done, DoneRow};
pub use members::member_count;
