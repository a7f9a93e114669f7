//! When the line of the steps is written, by a clock that the test sets.

use replay::{Line, Progress};
use std::alloc::Global;
use std::cell::Cell;
use std::io;
use std::test::Fail;
use std::time::{Clock, Duration};
use test_support::{same_bytes, same_count};

/// Each look at it finds it this much later.
#[derive(Drop)]
struct Stepping {
    millis: Cell<u64>,
    step: u64,
}

impl Clock for Stepping {
    fn monotonic(&self) -> io::Result<Duration> {
        let millis = self.millis.get().saturating_add(self.step);
        self.millis.set(millis);
        Ok(Duration::from_millis(millis))
    }

    fn since_1970(&self) -> io::Result<Duration> {
        self.monotonic()
    }
}

/// What is written of so many steps, each 64 of which last so long.
fn written(alloc: Global, all: u64, step: u64, is_on: bool) -> Vec<u8> {
    let clock = Stepping {
        millis: Cell::new(0),
        step,
    };
    let mut out = Vec::new(alloc);
    let mut line = Line::new("shardkv-replay", &clock, &mut out, is_on);
    for steps in 0..all {
        line.made(steps + 1, all);
    }
    line.ended();
    line.ended();
    out
}

/// How many steps are made, how many milliseconds 64 of them last, and what is written.
#[rattlefmt::skip]
const WRITTEN: [(u64, u64, &str); 5] = [
    (63, 100, ""),
    (64, 100, ""),
    (130, 100, "\rshardkv-replay: 128 of 130 steps\r\x1b[K"),
    (400, 50, "\rshardkv-replay: 192 of 400 steps\rshardkv-replay: 320 of 400 steps\r\x1b[K"),
    (640, 9, ""),
];

fn is_written(alloc: Global, all: u64, step: u64, wanted: &str) -> Result<(), Fail> {
    let seen = written(alloc, all, step, true);
    same_bytes("the line", &seen, wanted.as_bytes())?;
    let unseen = written(alloc, all, step, false);
    same_count("where it is off", unseen.len(), 0)
}

fn each_is_written(alloc: Global, rows: &[(u64, u64, &str)]) -> Result<(), Fail> {
    for (all, step, wanted) in rows {
        is_written(alloc, *all, *step, wanted)?;
    }
    Ok(())
}

#[test]
fn the_line_comes_ten_times_a_second_and_goes(rt: HostRuntime) -> Result<(), Fail> {
    each_is_written(rt.alloc(), &WRITTEN)
}
