//! What the tests share: requests and replies as a person writes them, a table and traces, checks of what came, numbers that
//! look like chance, and a reader and a writer over memory that fail where a test wants it.
//!
//! The form of a request is that of the RESP2 specification. Only tests call this crate.
#![tactic(auto)]

mod checks;
mod dice;
mod reports;
mod rows;
mod sink;
mod source;
mod traces;

pub use checks::{as_wanted, holds, same, same_bytes, same_count, same_number, same_text};
pub use dice::Dice;
pub use reports::{last_line, same_report};
pub use rows::{bytes_of, requests_of};
pub use sink::Sink;
pub use source::Source;
pub use traces::{CROSSING, STARVED, TWO_SHARDS};

/// The number of a call that never comes, and of bytes that are never reached.
pub const NEVER: usize = usize::MAX;
