//! Workers that are threads of their own.
//!
//! A `Crew` runs the loads of a layer on as many threads, the last load on the caller's. No other crate starts threads
//! for a layer.
#![tactic(auto)]

mod crew;

pub use crew::Crew;
