//! A cluster: a front with the history of its steps, and the seats of those who use it.
//!
//! It is what a server's first lock guards. Whenever the lock is free the front shows the world of the history of its steps, which
//! exists in the proofs alone; the layers that were run there are the first that the store has run, by a history of its own under the
//! second lock. What goes out of the lock, layers, what came of them, seats and replies, has no other maker than the cluster's calls,
//! and carries the part of the history that made it. So what is compared when it comes back is one number. It knows no lock and no
//! thread.
#![tactic(auto)]

mod closing;
mod cluster;
mod counting;
mod fault;
mod finishing;
mod names;
mod ordered;
mod pick;
mod running;
mod sealed;
mod tape;

pub use closing::Closing;
pub use cluster::{CloseFault, Cluster, SealedReply, Seat};
pub use fault::StepFault;
pub use names::{Leading, RunsOf, Server, StepsOf};
pub use pick::{First, Pick};
pub use running::run_taken;
pub use sealed::{Piece, Ran, Taken};
