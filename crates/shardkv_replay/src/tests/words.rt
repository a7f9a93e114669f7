//! Lines, good and bad, and what they ask for.

use options::OptionsFault;
use options::replay::read_options;
use std::alloc::Global;
use std::test::Fail;
use test_support::{holds, same_number, same_text};

/// The line asks for these files, for so many workers, and for a whole trace or a part of one.
fn asks_for(
    alloc: Global,
    words: &[&str],
    table: &str,
    trace: &str,
    workers: u64,
    part: bool,
) -> Result<(), Fail> {
    let asked = read_options(alloc, words)?;
    same_text("the table", asked.table, table)?;
    same_text("the trace", asked.trace, trace)?;
    same_number("the workers", asked.workers as u64, workers)?;
    holds("the part", asked.part == part)
}

#[test]
fn good_lines(rt: HostRuntime) -> Result<(), Fail> {
    let words = [
        "shardkv-replay",
        "--table",
        "t.toml",
        "--trace",
        "r.trace",
        "--part",
        "--workers",
        "64",
    ];
    asks_for(rt.alloc(), &words, "t.toml", "r.trace", 64, true)?;
    let words = ["shardkv-replay", "--trace", "r", "--table", "t"];
    asks_for(rt.alloc(), &words, "t", "r", 1, false)
}

/// The line is no options of the program.
fn is_no_usage(alloc: Global, words: &[&str]) -> bool {
    matches!(read_options(alloc, words), Err(OptionsFault::Words(_)))
}

/// So many workers can't be asked for.
fn is_no_number(alloc: Global, number: &str) -> bool {
    let words = [
        "shardkv-replay",
        "--table",
        "t",
        "--trace",
        "r",
        "--workers",
        number,
    ];
    matches!(
        read_options(alloc, &words),
        Err(OptionsFault::Words(_) | OptionsFault::Range(_))
    )
}

#[test]
fn bad_lines(rt: HostRuntime) -> Result<(), Fail> {
    let alloc = rt.alloc();
    let (name, table, trace) = ("shardkv-replay", "--table", "--trace");
    holds("no options", is_no_usage(alloc, &[name]))?;
    holds("no trace", is_no_usage(alloc, &[name, table, "t"]))?;
    let other = [name, table, "t", trace, "r", "--port", "1"];
    holds("another option", is_no_usage(alloc, &other))?;
    let valued = [name, table, "t", trace, "r", "--part=yes"];
    holds("a flag's value", is_no_usage(alloc, &valued))?;
    for number in ["0", "65", "256", "x", ""] {
        holds(number, is_no_number(alloc, number))?;
    }
    Ok(())
}
