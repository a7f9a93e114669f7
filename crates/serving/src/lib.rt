//! Serving one connection: requests are read, a door answers them, and the replies are written.
//!
//! The loop knows neither commands nor sockets. It reads from any reader, writes to any writer and asks any `Door`,
//! whose ghost relation says what an answer is. `solo` serves one map by it, and a server each of its connections. What
//! it promises of the bytes read and written stands in `specs/Serves.antt`; the protocol is RESP2.
#![tactic(auto)]

mod connection;
mod door;
mod gather;
mod outcome;
mod send;

pub use connection::serve;
pub use door::{Door, DoorFault, TOLD_AT_ONCE};
pub use outcome::{ServeFault, Served};
