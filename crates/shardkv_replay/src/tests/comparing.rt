//! That the comparison with one thread on one map is really made.

use groups::{ConnId, GroupId, RequestId, SkipId, Stamp};
use journal::Rows;
use packing::PackedRequest;
use replay::{Report, compared};
use resp::{Answered, Reply, Request};
use std::alloc::{AllocError, Global};
use std::test::Fail;
use test_support::{holds, same_bytes};

/// The id of the one row.
const ID: RequestId = RequestId {
    conn: ConnId(1),
    seq: 1,
};

/// The name of another request, which starved.
const OTHER: SkipId = SkipId::Whole(RequestId {
    conn: ConnId(2),
    seq: 7,
});

/// The words of the one command.
const SET: &[&[u8]] = &[b"SET", b"a", b"1"];

/// The rows of one request of these words that was answered so.
fn rows_of(alloc: Global, request: &Request, reply: Reply) -> Result<Rows, AllocError> {
    let mut rows = Rows::new(alloc);
    let stamp = Stamp {
        clock: 1,
        group: GroupId::new(0),
    };
    let words = PackedRequest::copy_of(alloc, request)?;
    let answered = Answered::with_text(alloc, reply)?;
    rows.reserve(1)?;
    let _ = rows.push(ID, &stamp, words, answered);
    Ok(rows)
}

/// The report of a row of SET a 1 that was answered so, with its reply in hexadecimal, and of this dump, ends with this line.
fn ends_with(alloc: Global, reply: Reply, text: &str, dump: &str, last: &str) -> Result<(), Fail> {
    let rows = rows_of(alloc, &Request::copy_of(alloc, SET)?, reply)?;
    let report = compared(alloc, &rows, &[OTHER], dump.as_bytes())?;
    let wanted = format!(in alloc; "row 1.0 1.1 set {text}\nstarved 2.7\n{dump}{last}\n")?;
    is_report(last, &report, wanted.as_bytes())
}

/// The report has this text, and agrees where its last line says so.
fn is_report(last: &str, report: &Report, wanted: &[u8]) -> Result<(), Fail> {
    same_bytes(last, report.text.as_slice(), wanted)?;
    holds("whether it agrees", report.agree == (last == "agree"))
}

/// What a SET is answered.
fn ok() -> Reply {
    Reply::Simple("OK")
}

#[test]
fn a_changed_reply_or_dump_differs(rt: HostRuntime) -> Result<(), Fail> {
    let alloc = rt.alloc();
    let text = "2b4f4b0d0a";
    ends_with(alloc, ok(), text, "key 61 string 31\n", "agree")?;
    let one = Reply::Int(1);
    ends_with(alloc, one, "3a310d0a", "key 61 string 31\n", "differ")?;
    ends_with(alloc, ok(), text, "key 61 string 32\n", "differ")?;
    ends_with(alloc, ok(), text, "", "differ")
}

/// The words of a list of SET a 1.
fn list_words(alloc: Global) -> Result<Request, AllocError> {
    let member = PackedRequest::copy_of(alloc, &Request::copy_of(alloc, SET)?)?;
    Request::copy_of(alloc, &[b"exec", member.as_bytes()])
}

/// The array of this reply alone.
fn array_of(alloc: Global, reply: Reply) -> Result<Reply, AllocError> {
    let mut replies = Vec::new(alloc);
    replies.push(reply)?;
    Ok(Reply::Array(replies))
}

/// The report of a list of SET a 1 whose member was answered so, of these names of what starved and of this dump, ends with
/// this line.
fn list_ends_with(
    alloc: Global,
    reply: Reply,
    starved: &[SkipId],
    dump: &str,
    last: &str,
) -> Result<(), Fail> {
    let rows = rows_of(alloc, &list_words(alloc)?, array_of(alloc, reply)?)?;
    let report = compared(alloc, &rows, starved, dump.as_bytes())?;
    holds(
        last,
        report
            .text
            .ends_with(format!(in alloc; "{dump}{last}\n")?.as_bytes()),
    )?;
    holds("whether it agrees", report.agree == (last == "agree"))
}

#[test]
fn a_member_that_starved_is_not_run(rt: HostRuntime) -> Result<(), Fail> {
    let alloc = rt.alloc();
    let dump = "key 61 string 31\n";
    let first = SkipId::Part(ID, 1);
    list_ends_with(alloc, ok(), &[], dump, "agree")?;
    list_ends_with(alloc, ok(), &[SkipId::Part(ID, 2)], dump, "agree")?;
    list_ends_with(alloc, ok(), &[first], "", "differ")?;
    list_ends_with(alloc, Reply::out_of_memory(), &[first], "", "agree")?;
    list_ends_with(alloc, Reply::out_of_memory(), &[first], dump, "differ")?;
    list_ends_with(alloc, Reply::out_of_memory(), &[OTHER], "", "differ")
}
