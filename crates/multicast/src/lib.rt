//! All groups of the multicast, the packets between them, and the queue of each.
//!
//! A request's Starts are sent to its groups. A packet that is under way comes to its group, which does with it what
//! Skeen's rule says: what it sends goes behind all packets, and what it delivers behind its queue. A packet may be repeated. The requests at the
//! head of all their queues are taken out as a layer. The system decides which packet comes next, and when a layer is
//! taken.
#![tactic(auto)]

mod multicast;

pub use multicast::{DeliverFault, Multicast};
