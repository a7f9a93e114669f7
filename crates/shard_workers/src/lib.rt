//! What a worker does with its load of a layer, and what the workers of a layer are.
//!
//! `PlacedJob` is a request, `Work` a unit of them with its shards, `Load` are the units that one worker runs in turn, and
//! `Workers` are those that run the loads. `InTurn` are workers on the caller's thread.
#![tactic(auto)]

mod child;
mod gate;
mod load;
mod placed_job;
mod skipping;
mod work;
mod workers;

pub use child::{Child, RunOfLoad};
pub use gate::{Gate, OpenGate};
pub use load::Load;
pub use placed_job::{JobRan, PlacedJob};
pub use work::{Ran, Work};
pub use workers::{InTurn, Refused, Room, Workers, run_in_turn};
