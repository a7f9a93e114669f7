//! The store as its users meet it: requests go in through `Solo::serve`, and replies come out.
//!
//! The expected replies are those that the Redis command reference gives, with this project's own error lines.

mod addressed;
mod bodies;
mod connections;
mod doors;
mod families;
mod faults;
mod many;
mod rows;
mod store;
mod table;
mod transactions;
