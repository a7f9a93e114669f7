//! Where a key lies: its hash tag, its slot, the shard that a table gives the slot, and the groups that a command
//! addresses.
//!
//! Hash tags are those of Redis Cluster's key names, the hash is FNV-1a of 64 bits, and the table is read from TOML.
//! Everything with a shard stands on this crate.
#![tactic(auto)]

mod document;
mod fault;
mod layout;
mod slots;
mod table;

pub use fault::TableFault;
pub use groups::{GroupId, Groups};
pub use slots::{hash_of, slot_of, tag_of};
pub use table::Table;
