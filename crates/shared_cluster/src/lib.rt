//! A cluster under two locks, which any number of threads share: the front with its seats under the one, the store under the
//! other, so that requests are submitted, brought on and collected while a layer is run.
#![tactic(auto)]

mod asking;
mod desk;
mod fault;
mod hand;
mod held;
mod long_work;
mod names;
mod shared;
mod sight;
mod streams;

pub use desk::{Desk, Turns};
pub use fault::{AskStep, CloseKind, FaultKind};
pub use held::{AskFault, AtRest, CloseFault};
pub use names::{Blanks, Names};
pub use shared::Shared;
pub use sight::Sight;
pub use streams::{StreamFault, TraceStream};
