//! What the serving loop reads and writes, with a door that echoes. The requests, replies and error lines are those of the
//! RESP2 specification and of this project's texts for faults; `|` stands for CR LF.

use crate::tests::doors::Echo;
use crate::tests::many::large_value;
use resp_decoder::{Fault, Limits};
use serving::{Door, ServeFault, Served, serve};
use std::alloc::{AllocError, Global};
use std::io::{ErrorKind, Read, Write};
use std::test::Fail;
use test_support::{NEVER, Sink, Source, bytes_of, holds, same, same_bytes, same_count, same_text};

pub(crate) type Outcome = Result<Served, ServeFault<&'static str>>;

pub(crate) const WELL: Outcome = Ok(Served::End);

/// How serving by this door ends.
pub(crate) fn served_by<R: Read, W: Write, D: Door>(
    alloc: Global,
    reader: &mut R,
    writer: &mut W,
    door: &mut D,
) -> Result<Served, ServeFault<D::Reason>> {
    serve(alloc, Limits::DEFAULT, reader, writer, door)
}

/// How serving by an echo ends.
fn served(alloc: Global, reader: &mut Source<'_>, writer: &mut Sink) -> Outcome {
    served_by(alloc, reader, writer, &mut Echo { alloc })
}

/// Serving ended so, with these bytes written and passed on.
pub(crate) fn comes(
    line: &str,
    (ended, writer): (&Outcome, &Sink),
    (ending, wanted): (&Outcome, &[u8]),
) -> Result<(), Fail> {
    same(line, ended, ending)?;
    same_bytes(line, &writer.taken, wanted)?;
    same_count(line, writer.flushed, wanted.len())
}

/// What is read, what is written, and how serving ends.
type Row = (&'static str, &'static str, Outcome);

const INSIDE: Outcome = Ok(Served::Inside);

const STAR: Outcome = Ok(Served::Protocol(Fault::ExpectedStar));

const DOLLAR: Outcome = Ok(Served::Protocol(Fault::ExpectedDollar));

const BAD_LENGTH: Outcome = Ok(Served::Protocol(Fault::BadLength));

const LINE_END: Outcome = Ok(Served::Protocol(Fault::ExpectedCrlf));

const ENOUGH: Outcome = Err(ServeFault::Door("enough"));

#[rattlefmt::skip]
const ROWS: [Row; 14] = [
    ("", "", WELL),
    ("*1|$4|PiNG|", "$4|PiNG|", WELL),
    ("*0|*-1|*1|$4|PING|", "$4|PING|", WELL),
    ("*2|$4|ECHO|$0||*1|$1|a|", "$0||$1|a|", WELL),
    ("*1|$4|PING|*0|", "$4|PING|", WELL),
    ("*1|$4|PING|*1|$4|PI", "$4|PING|", INSIDE),
    ("*1", "", INSIDE),
    ("PING|", "-ERR Protocol error: expected '*'|", STAR),
    ("*1|+PING|", "-ERR Protocol error: expected '$'|", DOLLAR),
    ("*1|$03|GET|", "-ERR Protocol error: invalid length|", BAD_LENGTH),
    ("*1|$4|PINGxx", "-ERR Protocol error: expected CRLF|", LINE_END),
    ("*1|$1|a|+*1|$1|b|", "$1|a|-ERR Protocol error: expected '*'|", STAR),
    ("*1|$3|big|*1|$1|a|", "-ERR out of memory|$1|a|", WELL),
    ("*1|$1|a|*1|$3|end|*1|$1|b|", "$1|a|", ENOUGH),
];

/// The row comes where its bytes are read in such pieces, and written at most so many at once.
fn row_comes(alloc: Global, row: &Row, piece: usize, most: usize) -> Result<(), Fail> {
    let (line, output, ending) = row;
    let input = bytes_of(alloc, line)?;
    let wanted = bytes_of(alloc, output)?;
    let mut writer = Sink::new(alloc, most);
    let ended = served(alloc, &mut Source::new(&input, piece), &mut writer);
    comes(line, (&ended, &writer), (ending, &wanted))
}

#[test]
fn rows_are_answered_however_they_are_cut(rt: HostRuntime) -> Result<(), Fail> {
    for row in &ROWS {
        row_comes(rt.alloc(), row, 1, 1)?;
        row_comes(rt.alloc(), row, 5, 3)?;
        row_comes(rt.alloc(), row, NEVER, NEVER)?;
    }
    Ok(())
}

/// Serving ended well, with these bytes written, by so many reads and so many writes.
fn took(
    ended: &Outcome,
    (reader, reads): (&Source<'_>, usize),
    (writer, wanted, writes): (&Sink, &[u8], usize),
) -> Result<(), Fail> {
    comes("in pieces", (ended, writer), (&WELL, wanted))?;
    same_count("reads", reader.reads, reads)?;
    same_count("writes", writer.writes, writes)
}

/// The input in such pieces is answered by these bytes, by so many reads and so many writes of at most `most` bytes.
fn takes(
    alloc: Global,
    (input, piece, reads): (&[u8], usize, usize),
    (wanted, most, writes): (&[u8], usize, usize),
) -> Result<(), Fail> {
    let mut reader = Source::new(input, piece);
    let mut writer = Sink::new(alloc, most);
    let ended = served(alloc, &mut reader, &mut writer);
    took(&ended, (&reader, reads), (&writer, wanted, writes))
}

#[test]
fn replies_are_written_once_before_each_read(rt: HostRuntime) -> Result<(), Fail> {
    let input = bytes_of(rt.alloc(), "*1|$1|a|*1|$1|b|*1|$1|c|*1|$1|d|")?;
    let wanted = bytes_of(rt.alloc(), "$1|a|$1|b|$1|c|$1|d|")?;
    takes(rt.alloc(), (&input, 33, 3), (&wanted, NEVER, 2))
}

/// The request of one word.
fn request_of(alloc: Global, word: &[u8]) -> Result<Vec<u8>, AllocError> {
    let mut request = bytes_of(alloc, "*1|")?;
    request.extend_from_slice(word)?;
    Ok(request)
}

/// The request of a word comes 2,000 times, in a piece each.
fn comes_in_pieces(alloc: Global, word: &[u8], request: &[u8]) -> Result<(), Fail> {
    let input = request.repeat(alloc, 2000)?;
    let wanted = word.repeat(alloc, 2000)?;
    takes(alloc, (&input, request.len(), 2001), (&wanted, NEVER, 2000))
}

#[test]
fn two_thousand_pieces_and_two_million_bytes_are_served(rt: HostRuntime) -> Result<(), Fail> {
    let word = large_value(rt.alloc(), 1)?;
    let request = request_of(rt.alloc(), &word)?;
    comes_in_pieces(rt.alloc(), &word, &request)
}

/// A reply of 65,010 bytes and 40 of 20 bytes, to requests that end in the fourth piece of 16 KiB: 64 KiB are passed within them.
#[test]
fn replies_are_written_when_enough_is_gathered(rt: HostRuntime) -> Result<(), Fail> {
    let mut wanted = large_value(rt.alloc(), 65)?;
    let mut input = request_of(rt.alloc(), &wanted)?;
    let starved = bytes_of(rt.alloc(), "*1|$3|big|")?.repeat(rt.alloc(), 40)?;
    input.extend_from_slice(&starved)?;
    let lines = bytes_of(rt.alloc(), "-ERR out of memory|")?.repeat(rt.alloc(), 40)?;
    wanted.extend_from_slice(&lines)?;
    takes(rt.alloc(), (&input, NEVER, 5), (&wanted, NEVER, 2))
}

/// One reply of 20,010 bytes, read in two pieces and written in as many writes.
#[test]
fn a_reply_is_written_byte_by_byte(rt: HostRuntime) -> Result<(), Fail> {
    let word = large_value(rt.alloc(), 20)?;
    let input = request_of(rt.alloc(), &word)?;
    takes(rt.alloc(), (&input, NEVER, 3), (&word, 1, 20_010))
}

/// The bytes of a piece, the number of the read that fails, and what is then written.
#[rattlefmt::skip]
const READS: [(usize, usize, &str); 6] = [
    (19, 0, ""), (19, 1, "$4|PING|"), (14, 1, "$4|PING|"), (14, 2, "$4|PING|"), (7, 1, ""), (7, 2, "$4|PING|"),
];

fn read_fails(alloc: Global, piece: usize, fails_at: usize, wanted: &str) -> Result<(), Fail> {
    let line = format!(in alloc; "read {fails_at} of {piece} bytes")?;
    let wanted = bytes_of(alloc, wanted)?;
    let mut reader = Source::new(b"*1\r\n$4\r\nPING\r\n*1\r\n$", piece);
    reader.fails_at = fails_at;
    let mut writer = Sink::new(alloc, NEVER);
    let ended = served(alloc, &mut reader, &mut writer);
    comes(
        line.as_str(),
        (&ended, &writer),
        (&Err(ServeFault::Read), &wanted),
    )
}

#[test]
fn a_failed_read_is_told_behind_all_replies(rt: HostRuntime) -> Result<(), Fail> {
    for (piece, fails_at, wanted) in &READS {
        read_fails(rt.alloc(), *piece, *fails_at, wanted)?;
    }
    Ok(())
}

/// A PING and a fault, and what is written for them.
const PING_AND_FAULT: &[u8] = b"*1\r\n$4\r\nPING\r\n+";

const PONG_AND_LINE: &[u8] = b"$4\r\nPING\r\n-ERR Protocol error: expected '*'\r\n";

/// Serving ended by a failed write, with so many bytes written, or all.
fn stands(line: &str, ended: &Outcome, taken: &[u8], count: usize) -> Result<(), Fail> {
    same(line, ended, &Err(ServeFault::Write))?;
    same_bytes(
        line,
        taken,
        &PONG_AND_LINE[..count.min(PONG_AND_LINE.len())],
    )
}

/// Of a writer that takes `most` bytes at once this write fails: only what was taken before stands.
fn write_fails(alloc: Global, most: usize, fails_at: usize) -> Result<(), Fail> {
    let line = format!(in alloc; "write {fails_at} of {most} bytes")?;
    let mut writer = Sink::new(alloc, most);
    writer.fails_at = fails_at;
    let ended = served(alloc, &mut Source::new(PING_AND_FAULT, NEVER), &mut writer);
    stands(
        line.as_str(),
        &ended,
        &writer.taken,
        most.saturating_mul(fails_at),
    )
}

#[test]
fn a_failed_write_is_told_behind_a_beginning(rt: HostRuntime) -> Result<(), Fail> {
    for fails_at in 0..15 {
        write_fails(rt.alloc(), 3, fails_at)?;
    }
    write_fails(rt.alloc(), 0, NEVER)
}

/// The read and the write of this number are interrupted, and all is answered.
fn is_interrupted(alloc: Global, number: usize) -> Result<(), Fail> {
    let input = bytes_of(alloc, "*1|$4|PING|*1|$1|a|")?;
    let wanted = bytes_of(alloc, "$4|PING|$1|a|")?;
    let mut reader = Source::new(&input, 4);
    (reader.fails_at, reader.kind) = (number, ErrorKind::Interrupted);
    let mut writer = Sink::new(alloc, 3);
    (writer.fails_at, writer.kind) = (number, ErrorKind::Interrupted);
    let ended = served(alloc, &mut reader, &mut writer);
    comes("interrupted", (&ended, &writer), (&WELL, &wanted))
}

#[test]
fn what_was_interrupted_is_tried_again(rt: HostRuntime) -> Result<(), Fail> {
    for number in 0..8 {
        is_interrupted(rt.alloc(), number)?;
    }
    Ok(())
}

/// How many replies these bytes are: `a`, or that there was no memory. `None` where they are not whole replies.
fn count_replies(bytes: &[u8]) -> Option<usize> {
    let mut rest = bytes;
    for count in 0..bytes.len() + 1 {
        if rest.is_empty() {
            return Some(count);
        }
        rest = match rest.strip_prefix(b"$1\r\na\r\n") {
            Some(rest) => rest,
            None => rest.strip_prefix(b"-ERR out of memory\r\n")?,
        };
    }
    None
}

/// All three replies came, or fewer, and then there was no memory.
fn are_whole(ended: &Outcome, taken: &[u8]) -> Result<(), Fail> {
    let count = count_replies(taken).ok_or("a reply in part")?;
    if count == 3 {
        return same("all replies", ended, &WELL);
    }
    holds("at most three replies", count < 3)?;
    same("some replies", ended, &Err(ServeFault::Memory))
}

/// With ample memory this is three replies. Run with the Nth allocation failing, for each N, it says what is left to
/// promise.
#[test]
fn replies_are_whole_where_memory_fails(rt: HostRuntime) -> Result<(), Fail> {
    let input = b"*1\r\n$1\r\na\r\n*1\r\n$1\r\na\r\n*1\r\n$1\r\na\r\n";
    let Ok(held) = Vec::with_capacity(rt.alloc(), 100) else {
        return Ok(());
    };
    let mut writer = Sink::new(rt.alloc(), NEVER);
    writer.taken = held;
    let ended = served(rt.alloc(), &mut Source::new(input, 11), &mut writer);
    are_whole(&ended, &writer.taken)
}

/// Faults and their texts.
const FAULTS: [(ServeFault<&str>, &str); 4] = [
    (ServeFault::Read, "a read failed"),
    (ServeFault::Write, "a write failed"),
    (ServeFault::Memory, "out of memory"),
    (ServeFault::Door("enough"), "enough"),
];

fn says(alloc: Global, fault: &ServeFault<&str>, wanted: &str) -> Result<(), Fail> {
    let text = format!(in alloc; "{fault}")?;
    same_text(wanted, text.as_str(), wanted)
}

#[test]
fn faults_say_why_serving_failed(rt: HostRuntime) -> Result<(), Fail> {
    for (fault, wanted) in &FAULTS {
        says(rt.alloc(), fault, wanted)?;
    }
    Ok(())
}
