//! Requests and replies of RESP2, the protocol of Redis, and the bytes of a reply.
//!
//! The rules are those of the RESP2 specification. A request is a nonempty array of bulk strings; a reply is a simple
//! string, an error, an integer, a bulk string, the null bulk string or an array of replies. Every crate above speaks
//! in these types; the bytes of requests are read by the crate `resp_decoder`.
#![tactic(auto)]

mod answered;
mod bulk_texts;
mod name;
mod reply;
mod request;
mod size;
mod write;

pub use answered::{Answered, LONG, SHORT_BULK, text_block};
pub use bulk_texts::BulkTexts;
pub use name::{INLINE_BYTES, Name};
pub use reply::{ErrorText, Reply};
pub use request::Request;
pub use size::{bulk_size, text_size};
pub use write::write_reply;
