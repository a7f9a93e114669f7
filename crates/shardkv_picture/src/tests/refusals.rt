//! Texts of which there is no picture, a writer that fails, and the words of the command line.

use options::OptionsFault;
use options::picture::read_options;
use picture::told;
use replay::Unwatched;
use std::alloc::Global;
use std::test::Fail;
use test_support::{CROSSING, Sink, TWO_SHARDS, holds, same_count, same_number, same_text};

/// A table, a trace, and the status that they end with.
const REFUSED: [(&str, &str, u8); 5] = [
    ("shards = 0\n", CROSSING, 3),
    (TWO_SHARDS, "shardkv-trace 1\nmax 1\nend 1\n", 4),
    (TWO_SHARDS, "shardkv-trace 1\nmax 1\ntake\nend 1\n", 5),
    (TWO_SHARDS, "shardkv-trace 1\nmax 1\nopen\nopen\nend 2\n", 5),
    (
        TWO_SHARDS,
        "shardkv-trace 1\nmax 2\nopen\ndeliver 0\nend 2\n",
        5,
    ),
];

/// The status with which a picture of these ends, by this writer.
fn status(alloc: Global, table: &str, trace: &str, sink: &mut Sink) -> u8 {
    let (table, trace) = (table.as_bytes(), trace.as_bytes());
    match told(alloc, table, trace, (0, 9), &mut Unwatched, sink) {
        Ok(()) => 0,
        Err(fault) => fault.status(),
    }
}

#[test]
fn each_is_refused(rt: HostRuntime) -> Result<(), Fail> {
    for (table, trace, wanted) in &REFUSED {
        let mut sink = Sink::new(rt.alloc(), 100);
        let ended = status(rt.alloc(), table, trace, &mut sink);
        same_number(trace, u64::from(ended), u64::from(*wanted))?;
        same_count(trace, sink.taken.len(), 0)?;
    }
    Ok(())
}

#[test]
fn a_failed_write_is_told(rt: HostRuntime) -> Result<(), Fail> {
    for fails_at in [0, 2] {
        let mut sink = Sink::new(rt.alloc(), 1000);
        sink.fails_at = fails_at;
        let ended = status(rt.alloc(), TWO_SHARDS, CROSSING, &mut sink);
        same_number("the status", u64::from(ended), 7)?;
        same_count("what was taken", sink.taken.len(), 1000 * fails_at)?;
    }
    Ok(())
}

#[test]
fn words(rt: HostRuntime) -> Result<(), Fail> {
    let words = [
        "p", "--trace", "r", "--to", "9", "--table", "t", "--from", "3",
    ];
    let asked = read_options(rt.alloc(), &words)?;
    same_text("the table", asked.table, "t")?;
    same_text("the trace", asked.trace, "r")?;
    same_number("the first step", asked.from, 3)?;
    same_number("the step behind the last", asked.to, 9)?;
    let asked = read_options(rt.alloc(), &words[..7])?;
    same_number("the first step", asked.from, 0)?;
    let asked = read_options(rt.alloc(), &["p", "--trace", "r", "--table", "t"])?;
    same_number("the step behind the last", asked.to, u64::MAX)?;
    let refused = matches!(
        read_options(rt.alloc(), &words[..3]),
        Err(OptionsFault::Words(_))
    );
    holds("no table", refused)?;
    let words = ["p", "--trace", "r", "--table", "t", "--to", "x"];
    let refused = matches!(
        read_options(rt.alloc(), &words),
        Err(OptionsFault::Words(_))
    );
    holds("no number", refused)
}
