//! The shards of the store, some of them as one keyspace, and their maps as one map.
//!
//! A `Shard` is the map of one shard. The executor moves the shards that a request addresses out of the store and runs
//! the request over a `Span` of them: a keyspace whose map is the union of theirs. Where a key lies is the placement
//! table's word.
#![tactic(auto)]

mod laws;
mod shard;
mod span;

pub use laws::laws_of_joined_maps;
pub use shard::Shard;
pub use span::{Span, SpanFrame};
