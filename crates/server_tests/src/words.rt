//! The words that the server is started with, good and bad.

use options::server::{Options, read_options};
use options::{OptionsFault, VERSION};
use std::alloc::{AllocError, Global};
use std::test::Fail;
use test_support::{same_number, same_text};

/// Puts a word behind.
fn push_word(alloc: Global, words: &mut Vec<String>, word: &str) -> Result<(), AllocError> {
    let copy = String::from_str(alloc, word)?;
    words.push(copy)?;
    Ok(())
}

/// Puts the words of a line behind.
fn push_words(alloc: Global, words: &mut Vec<String>, line: &str) -> Result<(), AllocError> {
    for word in line.split(' ') {
        push_word(alloc, words, word)?;
    }
    Ok(())
}

/// The words of a line, behind the name of the program.
pub(crate) fn words_of(alloc: Global, line: &str) -> Result<Vec<String>, AllocError> {
    let mut words = Vec::new(alloc);
    push_word(alloc, &mut words, "shardkv-server")?;
    push_words(alloc, &mut words, line)?;
    Ok(words)
}

/// What options say: table, port, workers, connections, steps and trace; then the seconds between two reports, whether it ends with
/// its input, and the address, where one is named.
fn shown(alloc: Global, options: &Options<'_>) -> Result<String, AllocError> {
    let mut text = format!(in alloc;
        "{} {} {} {} {} {} {} {}",
        options.table,
        options.port,
        options.workers.get(),
        options.connections,
        options.max_steps,
        options.trace.unwrap_or("-"),
        options.report,
        options.until_input_ends
    )?;
    if let Some(address) = options.bind {
        let named = format!(in alloc; " {address}")?;
        text.push_str(named.as_str())?;
    }
    Ok(text)
}

/// These are the options that a line asks for.
fn same_options(
    alloc: Global,
    line: &str,
    options: &Options<'_>,
    wanted: &str,
) -> Result<(), Fail> {
    let shown = shown(alloc, options)?;
    same_text(line, shown.as_str(), wanted)
}

/// A line asks for these options.
fn asks_for(alloc: Global, line: &str, wanted: &str) -> Result<(), Fail> {
    let words = words_of(alloc, line)?;
    let options = read_options(alloc, words.as_slice())?;
    same_options(alloc, line, &options, wanted)
}

/// Lines, and what they ask for.
const GOOD: [(&str, &str); 4] = [
    ("--table t.toml", "t.toml 7379 1 64 1000000 - 0 false"),
    (
        "--table t.toml --port 0 --workers 64 --connections 1000000000 --max-steps 4611686018427387904 --trace r.trace",
        "t.toml 0 64 1000000000 4611686018427387904 r.trace 0 false",
    ),
    (
        "--trace r --max-steps 1 --connections 1 --workers 1 --port 65535 --table=t",
        "t 65535 1 1 1 r 0 false",
    ),
    (
        "--until-input-ends --table t --bind 192.168.0.7 --report 86400",
        "t 7379 1 64 1000000 - 86400 true 192.168.0.7",
    ),
];

#[test]
fn good_lines(rt: HostRuntime) -> Result<(), Fail> {
    for (line, wanted) in &GOOD {
        asks_for(rt.alloc(), line, wanted)?;
    }
    Ok(())
}

/// A fault of a line has this first line of the text that is told, and this status.
fn same_fault<R: Print + Eprint>(
    rt: &R,
    alloc: Global,
    line: &str,
    fault: &OptionsFault,
    told: &str,
    status: u8,
) -> Result<(), Fail> {
    let text = format!(in alloc; "{fault}")?;
    same_text(line, text.as_str().lines().next().unwrap_or(""), told)?;
    same_number(
        line,
        u64::from(fault.tell(rt, "shardkv-server", 7)),
        u64::from(status),
    )
}

/// A line is no options: the first line of the text that is told, and the status.
fn refused<R: Print + Eprint>(
    rt: &R,
    alloc: Global,
    line: &str,
    told: &str,
    status: u8,
) -> Result<(), Fail> {
    let words = words_of(alloc, line)?;
    match read_options(alloc, words.as_slice()) {
        Ok(_) => Err("it was read".into()),
        Err(fault) => same_fault(rt, alloc, line, &fault, told, status),
    }
}

/// Lines that are no options, and the first line of what is told.
const BAD: [(&str, &str); 10] = [
    (
        "--port 1",
        "error: the following required arguments were not provided:",
    ),
    (
        "--table",
        "error: a value is required for '--table <FILE>' but none was supplied",
    ),
    (
        "--table t --table u",
        "error: the argument '--table <FILE>' cannot be used multiple times",
    ),
    (
        "--table t --shards 3",
        "error: unexpected argument '--shards' found",
    ),
    ("--table t more", "error: unexpected argument 'more' found"),
    (
        "--table t --workers x",
        "error: invalid value 'x' for '--workers <N>': invalid digit found in string",
    ),
    (
        "--table t --port 65536",
        "error: invalid value '65536' for '--port <N>': 65536 is not in 0..=65535",
    ),
    (
        "--table t --max-steps 18446744073709551616",
        "error: invalid value '18446744073709551616' for '--max-steps <N>': number too large to fit in target type",
    ),
    (
        "--table t --bind localhost",
        "error: the value of --bind is no IP address, as 127.0.0.1 or ::1",
    ),
    (
        "--table t --until-input-ends=yes",
        "error: unexpected value 'yes' for '--until-input-ends' found; no more were expected",
    ),
];

#[test]
fn bad_lines(rt: HostRuntime) -> Result<(), Fail> {
    for (line, told) in &BAD {
        refused(&rt, rt.alloc(), line, told, 2)?;
    }
    let usage = "Usage: shardkv-server [OPTIONS] --table <FILE>";
    refused(&rt, rt.alloc(), "--help", usage, 0)?;
    let version = format!(in rt.alloc(); "shardkv-server {VERSION}")?;
    refused(&rt, rt.alloc(), "--version", version.as_str(), 0)
}

/// Numbers of the command line that are out of their ranges.
const OUT_OF_RANGE: [(&str, &str); 6] = [
    ("workers", "0"),
    ("workers", "65"),
    ("connections", "0"),
    ("max-steps", "0"),
    ("max-steps", "4611686018427387905"),
    ("report", "86401"),
];

/// A number of that name is out of its range.
fn is_out_of_range<R: Print + Eprint>(
    rt: &R,
    alloc: Global,
    name: &str,
    value: &str,
) -> Result<(), Fail> {
    let line = format!(in alloc; "--table t --{name} {value}")?;
    let told = format!(in alloc; "error: the value of --{name} is out of its range")?;
    refused(rt, alloc, line.as_str(), told.as_str(), 2)
}

#[test]
fn numbers_out_of_their_ranges(rt: HostRuntime) -> Result<(), Fail> {
    for (name, value) in &OUT_OF_RANGE {
        is_out_of_range(&rt, rt.alloc(), name, value)?;
    }
    Ok(())
}
