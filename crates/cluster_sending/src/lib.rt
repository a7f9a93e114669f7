//! That a front and a store can go to another thread: calls that do nothing, whose contracts say it. Lemmas say the same of a cluster,
//! with its ledger and what it has of the histories, and of the store beside it.
#![tactic(auto)]

mod sending;

pub use sending::{halves_send, syncs};
