//! Integers in words and in stored strings, and the range rule.
//!
//! An integer text is the one that std prints of a number of 64 bits with sign: `0`, or an optional `-`, a digit from 1
//! to 9 and further digits. Words of commands and stored strings are read by the one `read_integer`; a number is stored
//! as the same text by `number_text` and `set_number`, and `add_to` adds to one that is stored. Places that count from
//! either end of a string or a list are taken by the one `range_of`.
#![tactic(auto)]

mod integer;
mod printed;
mod range;
mod sum;

pub use integer::read_integer;
pub use printed::{number_text, set_number};
pub use range::range_of;
pub use sum::{SumFault, add_to};
