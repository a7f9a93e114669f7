//! Many requests, and large ones.

use crate::tests::store::{Row, Store, answers, answers_text, empty_store};
use std::alloc::{AllocError, Global};
use std::test::Fail;
use test_support::{bytes_of, requests_of};

/// A first number and one behind the last, and requests and replies in which `[..]` stands for its inside once for each
/// number, which `@` in it is: in the requests in an order that goes on by `step` and comes round, and in the replies
/// ascending.
struct Numbered {
    first: u32,
    end: u32,
    step: u32,
    requests: &'static str,
    replies: &'static str,
}

/// Appends this form with a number in its place.
fn append_form(out: &mut String, form: &str, number: u32) -> Result<(), Fail> {
    for (part, text) in form.split('@').enumerate() {
        if part > 0 {
            write!(out, "{number}")?;
        }
        out.push_str(text)?;
    }
    Ok(())
}

/// Appends this form once for each number.
fn append_each(out: &mut String, form: &str, numbers: (u32, u32), step: u32) -> Result<(), Fail> {
    let (first, end) = numbers;
    for place in first..end {
        let number = first + (place - first).wrapping_mul(step) % (end - first);
        append_form(out, form, number)?;
    }
    Ok(())
}

/// What the text says with each number in its place.
fn filled(alloc: Global, text: &str, numbers: (u32, u32), step: u32) -> Result<String, Fail> {
    let mut filled = String::new(alloc);
    for (place, part) in text.split(['[', ']']).enumerate() {
        if place % 2 == 1 {
            append_each(&mut filled, part, numbers, step)?;
        } else {
            filled.push_str(part)?;
        }
    }
    Ok(filled)
}

/// Has the store answer this row.
fn answers_numbered(alloc: Global, store: &mut Store, row: &Numbered) -> Result<(), Fail> {
    let numbers = (row.first, row.end);
    let requests = filled(alloc, row.requests, numbers, row.step)?;
    let replies = filled(alloc, row.replies, numbers, 1)?;
    answers_text(
        store,
        alloc,
        row.requests,
        requests.as_str(),
        replies.as_str(),
    )
}

/// Has the store answer these in turn.
fn answers_each(alloc: Global, store: &mut Store, rows: &[Numbered]) -> Result<(), Fail> {
    for row in rows {
        answers_numbered(alloc, store, row)?;
    }
    Ok(())
}

/// Has an empty store answer these in turn.
fn answer_numbered(alloc: Global, rows: &[Numbered]) -> Result<(), Fail> {
    answers_each(alloc, &mut empty_store(alloc), rows)
}

const TWO_THOUSAND: [Numbered; 1] = [Numbered {
    first: 1000,
    end: 3000,
    step: 1,
    requests: "PING[; SET @ 1][; GET @; DEL @ a b c d e f g h; GET @]",
    replies: "+PONG|[+OK|][$1|1|:1|$-1|]",
}];

#[test]
fn two_thousand_keys_are_kept(rt: HostRuntime) -> Result<(), Fail> {
    answer_numbered(rt.alloc(), &TWO_THOUSAND)
}

const WORDS: [Numbered; 1] = [Numbered {
    first: 1000,
    end: 2000,
    step: 1,
    requests: "MSET[ @ @]; MGET[ @]; HSET h[ @ @]; HMGET h[ @]; RPUSH l[ @]; LRANGE l 0 -1; SADD s[ @]; SMEMBERS s; DEL[ @]; \
        MSETNX[ @ @]",
    replies: "+OK|*1000|[$4|@|]:1000|*1000|[$4|@|]:1000|*1000|[$4|@|]:1000|*1000|[$4|@|]:1000|:1|",
}];

#[test]
fn a_thousand_words_are_taken(rt: HostRuntime) -> Result<(), Fail> {
    answer_numbered(rt.alloc(), &WORDS)
}

/// The members come in a mixed order; all but the first 40 of them are taken out again.
const MEMBERS: [Numbered; 3] = [
    Numbered {
        first: 1000,
        end: 2000,
        step: 617,
        requests: "SADD s[ @]; SMEMBERS s; SMEMBERS s; SUNION s s; SINTER s s; SDIFFSTORE t s u; SMEMBERS t",
        replies: ":1000|*1000|[$4|@|]*1000|[$4|@|]*1000|[$4|@|]*1000|[$4|@|]:1000|*1000|[$4|@|]",
    },
    Numbered {
        first: 1040,
        end: 2000,
        step: 617,
        requests: "SREM s[ @]",
        replies: ":960|",
    },
    Numbered {
        first: 1000,
        end: 1040,
        step: 1,
        requests: "SMEMBERS s; SINTER t s; SADD s 0999; SISMEMBER s 1039; SISMEMBER s 1040; SDIFF t s t; SCARD s",
        replies: "*40|[$4|@|]*40|[$4|@|]:1|:1|:0|*0|:41|",
    },
];

#[test]
fn a_thousand_members_come_in_order(rt: HostRuntime) -> Result<(), Fail> {
    answer_numbered(rt.alloc(), &MEMBERS)
}

const FIVE_THOUSAND: [Numbered; 1] = [Numbered {
    first: 1000,
    end: 6000,
    step: 1,
    requests: "SET empty ''; RPUSH list a[; SET @ v@][; GET @; PING; GET empty; LLEN list]",
    replies: "+OK|:1|[+OK|][$5|v@|+PONG|$0||:1|]",
}];

#[test]
fn five_thousand_keys_are_set_and_read(rt: HostRuntime) -> Result<(), Fail> {
    answer_numbered(rt.alloc(), &FIVE_THOUSAND)
}

/// Requests and their replies; `@` at the end stands for a large value.
#[rattlefmt::skip]
const LARGE_STRINGS: [Row; 6] = [
    ("SET a @", "+OK|"), ("APPEND a @", ":2200000|"), ("SETRANGE a 2200000 @", ":3300000|"), ("GETRANGE a 1100000 2199999", "@"),
    ("MSET b @", "+OK|"), ("MGET b", "*1|@"),
];

#[rattlefmt::skip]
const LARGE_ITEMS: [Row; 6] = [
    ("RPUSH l @", ":1|"), ("LRANGE l 0 -1", "*1|@"), ("HSET h f @", ":1|"), ("HGET h f", "@"), ("SADD s @", ":1|"), ("SMEMBERS s", "*1|@"),
];

const LARGEST: [Row; 3] = [("SET a @", "+OK|"), ("GET a", "@"), ("GET a", "@")];

const ECHOES: [Row; 300] = [("ECHO @", "@"); 300];

/// Appends so many thousand bytes.
fn append_thousands(value: &mut Vec<u8>, thousands: u32) -> Result<(), AllocError> {
    for _ in 0..thousands {
        value.extend_from_slice(&[b'x'; 1000])?;
    }
    Ok(())
}

/// A value of so many thousand bytes, as it is sent and answered.
pub(crate) fn large_value(alloc: Global, thousands: u32) -> Result<Vec<u8>, AllocError> {
    let head = format!(in alloc; "${thousands}000\r\n")?;
    let mut value = Vec::from_slice(alloc, head.as_bytes())?;
    append_thousands(&mut value, thousands)?;
    value.extend_from_slice(b"\r\n")?;
    Ok(value)
}

/// Appends these bytes, with the value in place of the mark at their end, if it stands there.
fn append(out: &mut Vec<u8>, bytes: &[u8], mark: &[u8], value: &[u8]) -> Result<(), AllocError> {
    match bytes.strip_suffix(mark) {
        Some(before) => {
            out.extend_from_slice(before)?;
            out.extend_from_slice(value)
        }
        None => out.extend_from_slice(bytes),
    }
}

/// The requests of these rows, with the value in them.
fn requests_with(alloc: Global, rows: &[Row], value: &[u8]) -> Result<Vec<u8>, AllocError> {
    let mut requests = Vec::new(alloc);
    for (request, _) in rows {
        let sent = requests_of(alloc, request)?;
        append(&mut requests, &sent, b"$1\r\n@\r\n", value)?;
    }
    Ok(requests)
}

/// The replies of these rows, with the value in them.
fn replies_with(alloc: Global, rows: &[Row], value: &[u8]) -> Result<Vec<u8>, AllocError> {
    let mut replies = Vec::new(alloc);
    for (_, reply) in rows {
        let bytes = bytes_of(alloc, reply)?;
        append(&mut replies, &bytes, b"@", value)?;
    }
    Ok(replies)
}

/// Has an empty store answer these rows at once, with this value.
fn answer_with(alloc: Global, rows: &[Row], value: &[u8]) -> Result<(), Fail> {
    let input = requests_with(alloc, rows, value)?;
    let replies = replies_with(alloc, rows, value)?;
    answers(&mut empty_store(alloc), alloc, "all", &input, &replies)
}

/// Has an empty store answer these rows at once, with a value of so many thousand bytes.
fn answer_large(alloc: Global, thousands: u32, rows: &[Row]) -> Result<(), Fail> {
    let value = large_value(alloc, thousands)?;
    answer_with(alloc, rows, &value)
}

#[test]
fn large_strings_are_written_and_read(rt: HostRuntime) -> Result<(), Fail> {
    answer_large(rt.alloc(), 1100, &LARGE_STRINGS)
}

#[test]
fn large_items_are_written_and_read(rt: HostRuntime) -> Result<(), Fail> {
    answer_large(rt.alloc(), 1100, &LARGE_ITEMS)
}

#[test]
fn a_value_of_two_million_bytes_comes_back(rt: HostRuntime) -> Result<(), Fail> {
    answer_large(rt.alloc(), 2000, &LARGEST)
}

#[test]
fn many_replies_are_all_written(rt: HostRuntime) -> Result<(), Fail> {
    answer_large(rt.alloc(), 1, &ECHOES)
}
