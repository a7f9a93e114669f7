//! Numbers and words in bytes, one behind another, each saying where it ends.
//!
//! The journal keeps what happened in few bytes: a small number takes one, and a word its bytes and its length. The
//! sizes are told first, so that room is taken once and what is put then can't fail.
#![tactic(auto)]

mod growth;
mod number;
mod packed;
mod packed_list;
mod packed_request;
mod words;

pub use growth::grow;
pub use number::{number_size, put_bytes, put_number, take_number};
pub use packed::PackedWords;
pub use packed_list::PackedList;
pub use packed_request::PackedRequest;
pub use words::{put_words, take_word, take_words, words_size};
