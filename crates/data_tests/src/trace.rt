//! What no clause says: known texts, and that the calls succeed where there is memory.

use groups::{ConnId, GroupId, RequestId, Stamp};
use journal::{Row, Rows, Step, Steps, Trace, TraceFault, read_back, read_trace, write_trace};
use packing::PackedRequest;
use resp::{Answered, Reply, Request, write_reply};
use std::alloc::{AllocError, Global};
use std::test::Fail;
use test_support::{holds, same, same_bytes, same_count, same_number};

/// Two requests that cross, each of both groups: the lines behind the first.
const CROSSING: &str = "max 1000\nopen\nopen\nsubmit 1 4d534554 61 31 63 32\n\
    submit 2 4d534554 61 33 63 34\ndeliver 0\ndeliver 2\ndeliver 1\ndeliver 0\ndeliver 0\ndeliver 0\ndeliver 0\n\
    deliver 0\ntake\nrun\nsettle\ntake\nrun\nsettle\ncollect 1\ncollect 2\nend 20\n";

/// The first request starves.
const STARVED: &str = "max 50\nopen\nsubmit 1 4d534554 61 31 63 32\ndeliver 0\ndeliver 0\n\
    deliver 0\ndeliver 0\ntake\nrun 1.1\nsettle\ncollect 1\nsubmit 1 474554 61\ndeliver 0\ntake\nrun\nsettle\n\
    collect 1\nend 16\n";

/// Packets are repeated, the copy of one too.
const REPEATED: &str =
    "max 50\nopen\nsubmit 1 474554 61\nrepeat 0\nrepeat 1\ndeliver 0\ndeliver 0\ntake\nrun\n\
    settle\nrepeat 18446744073709551615\ncollect 1\nend 11\n";

/// A member of a list starves, and one of another request does besides a whole one.
const MEMBERS: &str =
    "max 50\nopen\nsubmit 1 4d554c5449\ncollect 1\nsubmit 1 494e4352 63\ncollect 1\n\
    submit 1 45584543\ndeliver 0\ntake\nrun 1.3.1 2.1 18446744073709551615.1.18446744073709551615\nsettle\n\
    collect 1\nend 11\n";

/// Before there were lists, their three names were unknown, whatever stood behind them.
const WITHOUT_LISTS: &str =
    "max 50\nsubmit 1 4d554c5449\nsubmit 1 45784563 61\nsubmit 1 64697363617264\n\
    submit 1 4d554c544901\nend 4\n";

/// What was brought over of them: the one empty word, which is as unknown.
const BROUGHT_OVER: &str =
    "max 50\nsubmit 1 -\nsubmit 1 -\nsubmit 1 -\nsubmit 1 4d554c544901\nend 4\n";

/// A text of this version, with these lines behind the first.
fn text_of(alloc: Global, version: &str, lines: &str) -> Result<String, AllocError> {
    format!(in alloc; "shardkv-trace {version}\n{lines}")
}

/// The line in which the byte behind these stands, counted from 1.
fn line_behind(text: &[u8]) -> u64 {
    let mut line: u64 = 1;
    for byte in text {
        if *byte == b'\n' {
            line = line.wrapping_add(1);
        }
    }
    line
}

/// The text of a trace, behind what is there.
fn written(alloc: Global, trace: &Trace) -> Result<Vec<u8>, TraceFault> {
    let mut out = Vec::from_slice(alloc, b"before ")?;
    write_trace(trace, &mut out)?;
    Ok(out)
}

/// The text of the trace that this text spells.
fn written_again(alloc: Global, text: &str) -> Result<Vec<u8>, TraceFault> {
    let trace = read_trace(alloc, text.as_bytes())?;
    written(alloc, &trace)
}

/// A name, a version, the lines behind the first, and how they are written.
type Known = (&'static str, &'static str, &'static str, &'static str);

#[rattlefmt::skip]
const KNOWN: [Known; 11] = [
    ("two that cross", "1", CROSSING, CROSSING),
    ("two that cross", "2", CROSSING, CROSSING),
    ("one that starves", "1", STARVED, STARVED),
    ("one that starves", "2", STARVED, STARVED),
    ("two that cross", "3", CROSSING, CROSSING),
    ("packets that are repeated", "2", REPEATED, REPEATED),
    ("members that starve", "3", MEMBERS, MEMBERS),
    ("names of lists", "1", WITHOUT_LISTS, BROUGHT_OVER),
    ("names of lists", "2", WITHOUT_LISTS, BROUGHT_OVER),
    ("names of lists", "3", WITHOUT_LISTS, WITHOUT_LISTS),
    (
        "either case",
        "1",
        "max 4611686018427387904\nsubmit 18446744073709551615 4D5e -\nend 1\n",
        "max 4611686018427387904\nsubmit 18446744073709551615 4d5e -\nend 1\n",
    ),
];

/// A text of any version is written in the third one.
fn is_written(alloc: Global, known: &Known) -> Result<(), Fail> {
    let (name, version, lines, written) = *known;
    let text = text_of(alloc, version, lines)?;
    let again = written_again(alloc, text.as_str())?;
    let want = format!(in alloc; "before shardkv-trace 3\n{written}")?;
    same_bytes(name, &again, want.as_bytes())
}

fn each_is_written(alloc: Global, texts: &[Known]) -> Result<(), Fail> {
    for known in texts {
        is_written(alloc, known)?;
    }
    Ok(())
}

#[test]
fn known_texts_are_read_and_written(rt: HostRuntime) -> Result<(), Fail> {
    each_is_written(rt.alloc(), &KNOWN)
}

/// The text is bad at this line.
fn bad_at(alloc: Global, name: &str, text: &[u8], line: u64) -> Result<(), Fail> {
    match read_trace(alloc, text) {
        Ok(_) => Err("it was read".into()),
        Err(TraceFault::Bad { line: at }) => same_number(name, at, line),
        Err(fault) => Err(fault.into()),
    }
}

/// Each beginning of the text is bad where it ends.
fn beginnings_are_bad(alloc: Global, text: &[u8]) -> Result<(), Fail> {
    for end in 0..text.len() {
        let name = format!(in alloc; "the first {end} bytes")?;
        let part = &text[..end];
        bad_at(alloc, name.as_str(), part, line_behind(part))?;
    }
    Ok(())
}

#[test]
fn a_beginning_is_bad_where_it_ends(rt: HostRuntime) -> Result<(), Fail> {
    let text = text_of(rt.alloc(), "3", MEMBERS)?;
    beginnings_are_bad(rt.alloc(), text.as_bytes())
}

/// The text with any one byte in place of its own is bad in that byte's line.
fn other_bytes_are_bad(alloc: Global, text: &[u8]) -> Result<(), Fail> {
    for place in 0..text.len() {
        let name = format!(in alloc; "another byte at {place}")?;
        let mut other = Vec::from_slice(alloc, text)?;
        other[place] = b'#';
        let line = line_behind(&text[..place]);
        bad_at(alloc, name.as_str(), &other, line)?;
    }
    Ok(())
}

#[test]
fn another_byte_is_bad_in_its_line(rt: HostRuntime) -> Result<(), Fail> {
    let text = text_of(rt.alloc(), "1", CROSSING)?;
    other_bytes_are_bad(rt.alloc(), text.as_bytes())
}

/// A text, and the line at which it is bad.
type Bad = (&'static str, u64);

#[rattlefmt::skip]
const OTHERS: [Bad; 26] = [
    ("", 1),
    ("shardkv-trace 1\nmax 0\nend 0\n", 2),
    ("shardkv-trace 1\nmax 4611686018427387905\nend 0\n", 2),
    ("shardkv-trace 1\nmax 07\nend 0\n", 2),
    ("shardkv-trace 1\nmax 7\nend 1\n", 3),
    ("shardkv-trace 1\nmax 7\nopen\nend 0\n", 4),
    ("shardkv-trace 1\nmax 7\nend 0\n\n", 4),
    ("shardkv-trace 1\nmax 7\nend 0\nopen", 4),
    ("shardkv-trace 1\nmax 7\nOpen\nend 1\n", 3),
    ("shardkv-trace 1\nmax 7\nopen \nend 1\n", 3),
    ("shardkv-trace 1\nmax 7\ndeliver 00\nend 1\n", 3),
    ("shardkv-trace 1\nmax 7\ndeliver 18446744073709551616\nend 1\n", 3),
    ("shardkv-trace 1\nmax 7\nsubmit 1\nend 1\n", 3),
    ("shardkv-trace 1\nmax 7\nsubmit 1 \nend 1\n", 3),
    ("shardkv-trace 1\nmax 7\nsubmit 1 616\nend 1\n", 3),
    ("shardkv-trace 1\nmax 7\nrun 1\nend 1\n", 3),
    ("shardkv-trace 1\nmax 7\nrun 1.1.1\nend 1\n", 3),
    ("shardkv-trace 2\nmax 7\nrun 1.5.3\nend 1\n", 3),
    ("shardkv-trace 3\nmax 7\nrun 1.5.0\nend 1\n", 3),
    ("shardkv-trace 3\nmax 7\nrun 1.5.03\nend 1\n", 3),
    ("shardkv-trace 3\nmax 7\nrun 1.5.3.1\nend 1\n", 3),
    ("shardkv-trace 1\nmax 7\nopen\nrepeat 0\nend 2\n", 4),
    ("shardkv-trace 2\nmax 7\nrepeat\nend 1\n", 3),
    ("shardkv-trace 2\nmax 7\nrepeat 0 0\nend 1\n", 3),
    ("shardkv-trace 2\nmax 7\nrepeat 00\nend 1\n", 3),
    ("shardkv-trace 1\r\nmax 7\r\nend 0\r\n", 1),
];

fn each_is_bad(alloc: Global, texts: &[Bad]) -> Result<(), Fail> {
    for bad in texts {
        let (text, line) = *bad;
        bad_at(alloc, text, text.as_bytes(), line)?;
    }
    Ok(())
}

#[test]
fn other_texts_are_bad_at_the_first_other_line(rt: HostRuntime) -> Result<(), Fail> {
    each_is_bad(rt.alloc(), &OTHERS)
}

/// Versions that aren't known; the last number but one is 1 modulo 2^64.
const OTHER_VERSIONS: [&str; 7] = ["0", "4", "02", "10", "1 ", "18446744073709551617", ""];

/// A text that spells a trace but for this version is bad at its first line.
fn other_version_is_bad(alloc: Global, version: &str) -> Result<(), Fail> {
    let text = text_of(alloc, version, "max 7\nopen\nend 1\n")?;
    bad_at(alloc, text.as_str(), text.as_bytes(), 1)
}

fn other_versions_are_bad(alloc: Global, versions: &[&str]) -> Result<(), Fail> {
    for version in versions {
        other_version_is_bad(alloc, version)?;
    }
    Ok(())
}

#[test]
fn another_version_is_bad_at_the_first_line(rt: HostRuntime) -> Result<(), Fail> {
    other_versions_are_bad(rt.alloc(), &OTHER_VERSIONS)
}

fn get(alloc: Global) -> Result<Request, AllocError> {
    let words: &[&[u8]] = &[b"GET", b"a", b""];
    Request::copy_of(alloc, words)
}

/// The name of the request of this number.
fn request_of(seq: u64) -> RequestId {
    RequestId {
        conn: ConnId(1 << 40),
        seq,
    }
}

/// The second word of the request of the row of this number: long in every other row.
fn second_word(seq: u64) -> &'static [u8] {
    if seq % 2 == 1 { &[b'w'; 200] } else { b"a" }
}

/// The request of the row of this number.
fn request_of_row(alloc: Global, seq: u64) -> Result<Request, AllocError> {
    let second = second_word(seq);
    Request::copy_of(alloc, &[b"GET".as_slice(), second, b"".as_slice()])
}

/// The reply of the row of this number: long in the last two of four rows.
fn reply_of_row(alloc: Global, seq: u64) -> Result<Reply, AllocError> {
    if seq % 4 < 2 {
        return Ok(Reply::Int(-1));
    }
    Ok(Reply::Bulk(Vec::from_slice(alloc, &[b'r'; 300])?))
}

/// These are the words that are read of a row, with this second one.
fn has_words(request: &Request, second: &[u8]) -> Result<(), Fail> {
    same_count("words that are read", request.len(), 3)?;
    same_bytes("the second of them", request.word(1), second)
}

/// This reply is that of the row of this number.
fn is_reply(alloc: Global, reply: &[u8], seq: u64) -> Result<(), Fail> {
    let wanted = reply_of_row(alloc, seq)?;
    let mut text = Vec::new(alloc);
    write_reply(&wanted, &mut text)?;
    same_bytes("its reply", reply, text.as_slice())
}

/// The row is that of this number.
fn is_row(alloc: Global, row: &Row, seq: u64) -> Result<(), Fail> {
    same("its request", &row.id(), &request_of(seq))?;
    same_number("its clock", row.stamp().clock, seq)?;
    same_count("its words", row.word_count(), 3)?;
    has_words(&row.request(alloc)?, second_word(seq))?;
    is_reply(alloc, row.reply(), seq)
}

/// Adds the row of this number.
fn add(alloc: Global, rows: &mut Rows, seq: u64) -> Result<(), Fail> {
    let stamp = Stamp {
        clock: seq,
        group: GroupId::new(63),
    };
    let words = PackedRequest::copy_of(alloc, &request_of_row(alloc, seq)?)?;
    let answered = Answered::with_text(alloc, reply_of_row(alloc, seq)?)?;
    rows.reserve(1)?;
    let _ = rows.push(request_of(seq), &stamp, words, answered);
    Ok(())
}

/// All 300 rows are there.
fn are_kept(alloc: Global, rows: &Rows) -> Result<(), Fail> {
    for seq in 0..300 {
        match rows.row(seq as usize) {
            Some(row) => is_row(alloc, &row, seq)?,
            None => return Err("no such row".into()),
        }
    }
    Ok(())
}

/// Adds 300 rows.
fn add_each(alloc: Global, rows: &mut Rows) -> Result<(), Fail> {
    for seq in 0..300 {
        add(alloc, rows, seq)?;
    }
    Ok(())
}

fn are_added_and_kept(alloc: Global, rows: &mut Rows) -> Result<(), Fail> {
    add_each(alloc, rows)?;
    same_count("rows", rows.len(), 300)?;
    holds("a row behind the last", rows.row(300).is_none())?;
    are_kept(alloc, rows)
}

#[test]
fn rows_are_kept_short_and_long(rt: HostRuntime) -> Result<(), Fail> {
    let mut rows = Rows::new(rt.alloc());
    are_added_and_kept(rt.alloc(), &mut rows)
}

/// Adds a Submit and the Deliver of place 1000.
fn add_both(alloc: Global, trace: &mut Trace) -> Result<(), Fail> {
    let step = Step::Submit {
        conn: ConnId(1),
        words: get(alloc)?,
    };
    trace.reserve(&step)?;
    trace.push(&step)?;
    trace.push(&Step::Deliver { place: 1000 })?;
    Ok(())
}

#[test]
fn a_reserved_step_is_added(rt: HostRuntime) -> Result<(), Fail> {
    let mut trace = Trace::new(rt.alloc(), 7);
    add_both(rt.alloc(), &mut trace)?;
    let again = read_back(rt.alloc(), &trace)?;
    holds_both(rt.alloc(), &again)
}

/// It is a Submit, if `submits`, and else the Deliver of place 1000.
fn is_step(step: &Option<Step>, submits: bool) -> Result<(), Fail> {
    match step {
        Some(Step::Submit { .. }) => holds("a Submit", submits),
        Some(Step::Deliver { place: 1000 }) => holds("a Deliver", !submits),
        _ => Err("another step, or none".into()),
    }
}

/// The next step is a Submit, if `submits`, and else the Deliver of place 1000.
fn comes(alloc: Global, steps: &mut Steps<'_>, submits: bool) -> Result<(), Fail> {
    let step = steps.next(alloc)?;
    is_step(&step, submits)
}

/// A trace of a Submit and the Deliver of place 1000.
fn holds_both(alloc: Global, trace: &Trace) -> Result<(), Fail> {
    same_number("its most", trace.max(), 7)?;
    same_count("its steps", trace.len(), 2)?;
    let mut steps = trace.steps();
    same_count("steps to come", steps.len(), 2)?;
    comes(alloc, &mut steps, true)?;
    comes(alloc, &mut steps, false)?;
    holds("no more", steps.next(alloc)?.is_none())
}
