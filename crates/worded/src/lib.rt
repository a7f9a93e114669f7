//! A batch with the words that say it.
//!
//! A batch is used up where it is run, and its words are wanted afterwards: for the row of what was executed, and to
//! tell one request from another. So they travel together from the reading of the words to the run. Those of an EXEC are its
//! name, and in a word each the words of its members.
#![tactic(auto)]

mod fault;
mod reading;
mod worded;

pub use fault::WordedFault;
pub use reading::read_batch;
pub use worded::Worded;
