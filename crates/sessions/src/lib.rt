//! What a connection remembers between its requests: MULTI, EXEC and DISCARD.
//!
//! MULTI opens a list on its connection. From then on requests are read and become members of the list, in place of
//! being run; EXEC gives the members to be run as one batch, and DISCARD drops them. The rules are Redis's
//! (<https://redis.io/docs/latest/develop/using-commands/transactions/>) where a refused word can be told without a
//! look at a key. Whoever serves a connection keeps a `Session` for it, and runs the batches with `batches`.
#![tactic(auto)]

mod batch;
mod control;
mod member;
mod replies;
mod session;

pub use batch::{Ask, Batch};
pub use control::is_control;
pub use member::{Member, Members, Misread, member_of};
pub use session::Session;
