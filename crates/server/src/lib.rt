//! A server of many connections over one cluster: `host` serves the connections that come to a listener, a thread each.
#![tactic(auto)]

mod accepting;
mod connection;
mod course;
mod faults;
mod hosting;
mod report;
mod sending;
mod streams;
mod trace_file;
mod watching;

pub use connection::serve_desk;
pub use course::Course;
pub use hosting::host;
pub use sending::shared_syncs;
pub use trace_file::try_trace;
