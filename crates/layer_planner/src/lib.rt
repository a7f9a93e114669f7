//! Layers of delivered requests, and how their work is divided among workers.
//!
//! The requests of a layer are run in units: those that address one group alone, one after another, and each other one by
//! itself. Units share no group, so they may run at once. The executor makes a layer of the requests that may be taken,
//! asks for the parts, and hands each worker the shards that its part's units address.
#![tactic(auto)]

mod firsts;
mod job;
mod layer;
mod nexts;
mod part;
mod planning;
mod seen;
mod standing;

pub use job::Job;
pub use layer::Layer;
pub use part::Part;
pub use planning::{law_of_units, plan, units};
