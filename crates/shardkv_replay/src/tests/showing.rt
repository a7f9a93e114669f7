//! One call of the replayer, and what has to come of it whoever the workers are.

use replay::show;
use shard_crew::Crew;
use shard_workers::{InTurn, Workers};
use std::alloc::Global;
use std::num::NonZeroUsize;
use std::sync::Wait;
use std::test::Fail;
use std::thread::Threads;
use test_support::{Sink, TWO_SHARDS, same_bytes, same_count, same_number};

/// The trace ends with this status and this report, by 1, 2 and 8 workers that take turns, and by as many that are
/// threads.
pub(crate) fn is_shown<R>(
    rt: &R,
    alloc: Global,
    line: &str,
    trace: &str,
    status: u8,
    report: &str,
) -> Result<(), Fail>
where
    R: Threads + Wait,
{
    for number in [1, 2, 8] {
        let number = NonZeroUsize::new(number).ok_or("a number of workers")?;
        is_shown_by(alloc, line, trace, &InTurn(number), status, report)?;
        is_shown_by(alloc, line, trace, &Crew::new(rt, number), status, report)?;
    }
    Ok(())
}

/// The trace ends with this status and this report, which come from these workers.
fn is_shown_by<W: Workers>(
    alloc: Global,
    line: &str,
    trace: &str,
    workers: &W,
    status: u8,
    report: &str,
) -> Result<(), Fail> {
    let mut sink = Sink::new(alloc, 100);
    let ended = show(
        alloc,
        TWO_SHARDS.as_bytes(),
        trace.as_bytes(),
        workers,
        &mut sink,
    );
    same_number(line, u64::from(ended), u64::from(status))?;
    same_bytes(line, sink.taken.as_slice(), report.as_bytes())?;
    let passed_on = if status == 0 { report.len() } else { 0 };
    same_count(line, sink.flushed, passed_on)
}
