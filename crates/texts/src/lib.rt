//! Byte strings, and lists of them, as contracts see them.
//!
//! A `Vec` in a clause is its items together with where it lies in memory. The types here are seen as their bytes
//! alone, so that a contract can compare a command, a value or a request by `≡`. Keys, words and values of every crate
//! above are of these types.
#![tactic(auto)]

mod pairs;
mod text;
mod text_list;

pub use pairs::Pairs;
pub use text::Text;
pub use text_list::{End, Texts};
