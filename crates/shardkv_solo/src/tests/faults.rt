//! What is written where a read or a write fails.

use crate::tests::store::{Ending, came, empty_store};
use serving::ServeFault;
use std::alloc::Global;
use std::test::Fail;
use test_support::{NEVER, Sink, Source, bytes_of, requests_of};

const INPUT: &str = "SET a 1; GET a; PING";

const REPLIES: &str = "+OK|$1|1|+PONG|";

const READ: Ending = Err(ServeFault::Read);

const WRITE: Ending = Err(ServeFault::Write);

/// How many bytes are read, and the replies that then stand.
type Given = (usize, &'static str);

#[rattlefmt::skip]
const GIVEN: [Given; 5] = [(0, ""), (26, ""), (27, "+OK|"), (46, "+OK|"), (47, "+OK|$1|1|")];

/// These replies stand where this read of the input fails.
fn stand(
    alloc: Global,
    line: &str,
    input: &[u8],
    fails_at: usize,
    wanted: &[u8],
) -> Result<(), Fail> {
    let mut reader = Source::new(input, 1);
    reader.fails_at = fails_at;
    let mut output = Vec::new(alloc);
    let ended = empty_store(alloc).serve(&mut reader, &mut output);
    came(line, (&ended, &output), (&READ, wanted))
}

/// Just the replies of this row stand where a read of this input fails.
fn stand_behind(alloc: Global, input: &[u8], row: &Given) -> Result<(), Fail> {
    let (given, replies) = *row;
    let line = format!(in alloc; "behind {given}")?;
    let wanted = bytes_of(alloc, replies)?;
    stand(alloc, line.as_str(), input, given, &wanted)
}

fn each_stands_behind(alloc: Global, input: &[u8], rows: &[Given]) -> Result<(), Fail> {
    for row in rows {
        stand_behind(alloc, input, row)?;
    }
    Ok(())
}

#[test]
fn replies_stand_where_a_read_fails(rt: HostRuntime) -> Result<(), Fail> {
    let input = requests_of(rt.alloc(), INPUT)?;
    each_stands_behind(rt.alloc(), &input, &GIVEN)
}

/// Only these replies are taken by a writer of bytes, with room for so many, whose write of number `fails_at` fails.
fn are_taken(
    alloc: Global,
    line: &str,
    input: &[u8],
    replies: &[u8],
    (room, fails_at): (usize, usize),
) -> Result<(), Fail> {
    let mut rest = input;
    let mut output = Sink::new(alloc, 1);
    (output.room, output.fails_at) = (room, fails_at);
    let ended = empty_store(alloc).serve(&mut rest, &mut output);
    came(line, (&ended, &output.taken), (&WRITE, replies))
}

/// Only these replies stand where the write behind them fails, or takes nothing.
fn stands(alloc: Global, input: &[u8], replies: &[u8]) -> Result<(), Fail> {
    let written = replies.len();
    let line = format!(in alloc; "after {written}")?;
    are_taken(alloc, line.as_str(), input, replies, (written, NEVER))?;
    are_taken(alloc, line.as_str(), input, replies, (NEVER, written))
}

/// Each beginning of these replies stands where the write behind it fails, or takes nothing.
fn each_stands(alloc: Global, input: &[u8], replies: &[u8]) -> Result<(), Fail> {
    for written in 0..replies.len() {
        stands(alloc, input, &replies[..written])?;
    }
    Ok(())
}

#[test]
fn a_beginning_stands_where_a_write_fails(rt: HostRuntime) -> Result<(), Fail> {
    let input = requests_of(rt.alloc(), INPUT)?;
    let replies = bytes_of(rt.alloc(), REPLIES)?;
    each_stands(rt.alloc(), &input, &replies)
}
