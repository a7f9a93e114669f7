//! The queues of delivered requests, one a group, and which of the requests are ready.
//!
//! A group delivers a request into its queue. A request is ready once it heads the queues of all its groups: then
//! nothing that touches it can come before it, and it may be run. Behind it others are lined up that address that one
//! group alone, as all before them do: they may be run right after it. The system asks for all that are ready or lined
//! up, and takes them out as one layer.
#![tactic(auto)]

mod heads;
mod laws;
mod queue;
mod queues;
mod runs;

pub use laws::laws_of_layers;
pub use queues::Queues;
