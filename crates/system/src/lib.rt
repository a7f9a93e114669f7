//! The system: connections, groups, queues and shards as one machine of nine steps.
//!
//! It is two halves in one hand: the front, which makes every step but Run, and the store with its rows, which runs layers.
//! It knows no thread and no socket. Whoever has it chooses the steps: which connection asks, which packet comes next,
//! when a layer is taken, run and settled. Contracts say that it shows the world of the steps that were made, and so
//! all that holds of every such world holds of it: the replies and the contents are those of one thread on one map.
#![tactic(auto)]

mod effect;
mod fault;
mod halves;
mod outcomes;
mod own_fault;
mod stage;
mod system;

pub use effect::Effect;
pub use fault::StepFault;
pub use stage::Progress;
pub use system::System;
