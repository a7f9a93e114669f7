//! The executor: the store of shards, which runs a layer of requests by whatever workers it is given.
//!
//! The units of a layer share no group, so each can be run over the shards of its groups while others run over theirs. The
//! store runs them where their shards stand, or moves these shards out, hands them to the workers with the requests, and
//! puts them back. It knows no thread.
#![tactic(auto)]

mod dealing;
mod dealt_room;
mod dealt_run;
mod done;
mod layer_room;
mod layer_run;
mod moves;
mod row_run;
mod store;
mod taking;
mod weighing;

pub use done::{Ended, ExecFault};
pub use store::Store;
