//! What holds of every world that a history of steps gives: the order in which requests are delivered and run, that
//! the replies and the contents are those of one thread on one map, what connections collect, that nothing is left
//! behind, and what the system owes to what it calls.
//!
//! Each function does nothing; its contract states laws over the definitions of `world`. That every world is good
//! (`specs/Good.antt`) carries all of them: the system's own proofs cite it too.
#![tactic(auto)]

mod collecting;
mod conditions;
mod determined;
mod ending;
mod one_thread;
mod order;

pub use collecting::collecting_of_outcomes;
pub use conditions::callers_conditions;
pub use determined::choice_of_steps;
pub use ending::ending_of_requests;
pub use one_thread::headline;
pub use order::order_of_requests;
