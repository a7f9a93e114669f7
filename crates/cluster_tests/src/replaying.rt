//! Traces of clusters, made again.

use replay::show;
use shard_workers::InTurn;
use std::alloc::Global;
use std::num::NonZeroUsize;
use std::test::Fail;
use test_support::{TWO_SHARDS, same_number, same_report};

/// A trace is replayed: its report agrees, has so many rows, and ends so.
pub(crate) fn replays(alloc: Global, trace: &[u8], rows: usize, ending: &[u8]) -> Result<(), Fail> {
    let mut report = Vec::new(alloc);
    let one = InTurn(NonZeroUsize::MIN);
    let status = show(alloc, TWO_SHARDS.as_bytes(), trace, &one, &mut report);
    same_number("the status of the replay", u64::from(status), 0)?;
    same_report(report.as_slice(), rows, ending)
}
