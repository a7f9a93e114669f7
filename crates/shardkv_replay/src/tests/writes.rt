//! A writer that fails at one of its calls.

use crate::tests::traces::CROSSING;
use replay::show;
use shard_workers::InTurn;
use std::alloc::Global;
use std::io;
use std::io::{ErrorKind, Write};
use std::num::NonZeroUsize;
use std::test::Fail;
use test_support::{NEVER, TWO_SHARDS, same_bytes, same_count, same_number};

/// How many bytes a write takes at most.
const MOST: usize = 10;

/// Takes at most `MOST` bytes at once. The call of number `fails_at`, from 0, fails: a write or a flush.
#[derive(Drop)]
struct Failing {
    taken: Vec<u8>,
    calls: usize,
    fails_at: usize,
}

impl Failing {
    fn new(alloc: Global, fails_at: usize) -> Self {
        Failing {
            taken: Vec::new(alloc),
            calls: 0,
            fails_at,
        }
    }

    /// Counts a call, and says whether it fails.
    fn call(&mut self) -> bool {
        let number = self.calls;
        self.calls = number.saturating_add(1);
        number == self.fails_at
    }
}

impl Write for Failing {
    fn write(&mut self, buf: &[u8]) -> io::Result<usize> {
        if self.call() {
            return Err(ErrorKind::BrokenPipe.into());
        }
        let count = buf.len().min(MOST);
        self.taken.extend_from_slice(&buf[..count])?;
        Ok(count)
    }

    fn flush(&mut self) -> io::Result<()> {
        if self.call() {
            return Err(ErrorKind::BrokenPipe.into());
        }
        Ok(())
    }
}

/// By a writer that fails at this call the crossing requests' report ends with this status, after so many calls, and
/// with so much of it taken.
fn ends_with(
    alloc: Global,
    fails_at: usize,
    status: u8,
    taken: &[u8],
    calls: usize,
) -> Result<(), Fail> {
    let mut writer = Failing::new(alloc, fails_at);
    let (table, trace) = (TWO_SHARDS.as_bytes(), CROSSING.trace.as_bytes());
    let ended = show(alloc, table, trace, &InTurn(NonZeroUsize::MIN), &mut writer);
    same_number("the status", u64::from(ended), u64::from(status))?;
    same_bytes("what was taken", writer.taken.as_slice(), taken)?;
    same_count("calls of the writer", writer.calls, calls)
}

#[test]
fn each_call_of_the_writer_fails_in_turn(rt: HostRuntime) -> Result<(), Fail> {
    let report = CROSSING.report.as_bytes();
    let calls = report.len().div_ceil(MOST).saturating_add(1);
    for fails_at in 0..calls {
        let taken = report.len().min(fails_at.saturating_mul(MOST));
        ends_with(
            rt.alloc(),
            fails_at,
            7,
            &report[..taken],
            fails_at.saturating_add(1),
        )?;
    }
    ends_with(rt.alloc(), NEVER, 0, report, calls)
}
