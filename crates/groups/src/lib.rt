//! What the groups of the store and the requests to them are called: groups by number, sets of them, connections and
//! requests by their ids, and stamps.
//!
//! A request addresses the groups on which its keys lie. The router, placement and the groups themselves hand such sets
//! about by copy, so a set is 64 bits and no call takes memory.
#![tactic(auto)]

mod group_id;
mod group_set;
mod iter;
mod request;
mod skip_id;
mod stamp;

pub use group_id::GroupId;
pub use group_set::Groups;
pub use iter::Iter;
pub use request::{ConnId, RequestId};
pub use skip_id::SkipId;
pub use stamp::Stamp;
