//! The picture of a run: a trace's steps are made again, what happens at each is put down, and this is drawn.
//!
//! `told` reads a table and a trace, and writes the picture of a window of the steps. What the shapes are and how they are
//! written is `picture_shapes`.
#![tactic(auto)]

mod arrivals;
mod flights;
mod labels;
mod layers;
mod making;
mod recorder;
mod requests;
mod shown;

pub use making::facts_of;
pub use replay::ShowFault;
pub use shown::told;
