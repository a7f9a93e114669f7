//! What holds of the layers of every history: what a Take handed out stays as steps are added, what was run begins what is run
//! then, and a layer that a store has run as one thread does is run so in the world.
//!
//! It is for who knows two beginnings of one history, and the layers that a store has run under another lock. Each function does
//! nothing; its contract states laws over the definitions of `world`.
#![tactic(auto)]

mod runs;
mod serial;
mod takes;

pub use runs::runs_of_layers;
pub use serial::layers_of_stores;
pub use takes::takes_of_layers;
