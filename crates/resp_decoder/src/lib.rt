//! Reading RESP2 requests from bytes that come in pieces.
//!
//! `specs/Texts.antt` says what the text of a request is, what a stream of them is, and where a fault stands. `reading`
//! reads texts from slices, `decoder` keeps what has come of a request, and `laws` says what the definitions give for
//! every input. The rules are those of the RESP2 specification; the serving loops stand on this crate.
#![tactic(auto)]

mod ahead;
mod buffer;
mod decoder;
mod fault;
mod laws;
mod limits;
mod parsing;
mod pieces;
mod progress;

pub use ahead::Ahead;
pub use decoder::Decoder;
pub use fault::{Fault, fault_line};
pub use laws::{known_texts, one_decoding, one_fault};
pub use limits::{DEFAULT_BULK, DEFAULT_WORDS, Limits};
pub use pieces::{Decoded, decode_all};
