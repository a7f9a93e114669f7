//! The front of the system: connections, and groups with their packets and queues.
//!
//! It takes the requests that may run out as a layer, and is told later what came of them; it knows no shard and no
//! command's case. So who runs a layer can do it under a lock of its own, while here requests are submitted and packets
//! come. Contracts say that it shows the world of the steps that were made: so who tells it what came of a layer has to
//! tell the truth.
#![tactic(auto)]

mod connections;
mod effect;
mod fault;
mod finishing;
mod front;
mod layers;
mod looks;
mod outcomes;
mod passing;
mod refusing;
mod requests;
mod settling;
mod stepping;

pub use effect::Effect;
pub use fault::FrontFault;
pub use front::Front;
