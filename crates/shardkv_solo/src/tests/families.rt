//! What each family of commands answers, row by row.

use crate::tests::store::{END, Ending, Row, each_answers, empty_store};
use std::alloc::Global;
use std::test::Fail;
use test_support::{holds, requests_of, same};

#[rattlefmt::skip]
const STRINGS: [Row; 8] = [
    ("SET a abc; GETRANGE a -6 -5; GETRANGE a -2 -1; GETRANGE a 2 1; GETRANGE a 0 99", "+OK|$0||$2|bc|$0||$3|abc|"),
    ("MSETNX a 1 a 2; MSETNX b 1 a 3; MGET a b", ":1|:0|*2|$1|2|$-1|"),
    ("MSET a 1 b", "-ERR wrong number of arguments for 'mset' command|"),
    ("SETRANGE a 5 ''; EXISTS a; APPEND a xy; STRLEN a", ":0|:0|:2|:2|"),
    ("SET a v; RENAMENX a b; RENAME b b; DBSIZE; FLUSHALL now; FLUSHALL async; DBSIZE", "+OK|:1|+OK|:1|-ERR syntax error|+OK|:0|"),
    ("SET a 01; INCR a; GETDEL a; DECR a", "+OK|-ERR value is not an integer or out of range|$2|01|:-1|"),
    ("SETRANGE b 3 x; GET b; SETRANGE b -1 x", ":4|$4|\0\0\0x|-ERR offset is out of range|"),
    (
        "SET a v; SADD c m; RENAME a c; TYPE c; TYPE a; RENAME a c; RENAME c c; RENAMENX c c",
        "+OK|:1|+OK|+string|+none|-ERR no such key|+OK|:0|",
    ),
];

#[rattlefmt::skip]
const LISTS: [Row; 4] = [
    (
        "LPUSH a 1; GET a; MGET a c; LMOVE a c LEFT RIGHT; EXISTS a c c",
        ":1|-WRONGTYPE Operation against a key holding the wrong kind of value|*2|$-1|$-1|$1|1|:2|",
    ),
    ("RPUSH a 1 2 1 3 1; LREM a -2 1; LMOVE a a LEFT RIGHT; LINSERT a AFTER 3 x; LRANGE a 0 -1", ":5|:2|$1|1|:4|*4|$1|2|$1|3|$1|x|$1|1|"),
    ("RPUSH a 2 3 x 1; LINSERT a BEFORE 9 y; LTRIM a 5 9; EXISTS a; LINSERT a BEFORE 9 y", ":4|:-1|+OK|:0|:0|"),
    (
        "SET b v; LMOVE a b LEFT LEFT; SMOVE a b m; LPUSH c 1; LMOVE c b LEFT LEFT",
        "+OK|$-1|:0|:1|-WRONGTYPE Operation against a key holding the wrong kind of value|",
    ),
];

#[rattlefmt::skip]
const HASHES: [Row; 2] = [
    (
        "HSET a f 1 g 2 f 3; HGETALL a; HSET a f; FOO",
        ":2|*4|$1|f|$1|3|$1|g|$1|2|-ERR wrong number of arguments for 'hset' command|-ERR unknown command|",
    ),
    (
        "HSET h f 1 g 2; HDEL h f; HSET h f x; HKEYS h; HINCRBY h f 1; HDEL h f g g; TYPE h",
        ":2|:1|:1|*2|$1|g|$1|f|-ERR hash value is not an integer|:2|+none|",
    ),
];

#[rattlefmt::skip]
const SETS: [Row; 3] = [
    ("SADD s b a b; SMEMBERS s; SDIFFSTORE s s s; EXISTS s", ":2|*2|$1|a|$1|b|:0|:0|"),
    ("SADD a m; SMOVE a a m; SMOVE y a m", ":1|:1|:0|"),
    ("SADD a m; SADD b n; SET z old; SINTERSTORE z a b; EXISTS z", ":1|:1|+OK|:0|:0|"),
];

#[rattlefmt::skip]
const TYPES: [Row; 1] = [
    ("SET t v; LPUSH l 1; HSET h f 1; SADD s m; TYPE t; TYPE l; TYPE h; TYPE s; TYPE none", "+OK|:1|:1|:1|+string|+list|+hash|+set|+none|"),
];

#[test]
fn strings_answer(rt: HostRuntime) -> Result<(), Fail> {
    each_answers(rt.alloc(), &STRINGS)
}

#[test]
fn lists_answer(rt: HostRuntime) -> Result<(), Fail> {
    each_answers(rt.alloc(), &LISTS)
}

#[test]
fn hashes_answer(rt: HostRuntime) -> Result<(), Fail> {
    each_answers(rt.alloc(), &HASHES)
}

#[test]
fn sets_answer(rt: HostRuntime) -> Result<(), Fail> {
    each_answers(rt.alloc(), &SETS)
}

#[test]
fn types_are_told(rt: HostRuntime) -> Result<(), Fail> {
    each_answers(rt.alloc(), &TYPES)
}

/// Commands that want a string at `k`.
#[rattlefmt::skip]
const AT_A_STRING: [&str; 11] = [
    "GET k", "STRLEN k", "INCR k", "DECR k", "INCRBY k 1", "DECRBY k 1", "APPEND k x", "GETRANGE k 0 1", "SETRANGE k 0 x",
    "GETSET k x", "GETDEL k",
];

/// Commands that want a list at `k`.
#[rattlefmt::skip]
const AT_A_LIST: [&str; 15] = [
    "LPUSH k x", "RPUSH k x", "LPUSHX k x", "RPUSHX k x", "LPOP k", "RPOP k", "LLEN k", "LINDEX k 0", "LRANGE k 0 1",
    "LSET k 0 x", "LREM k 0 x", "LTRIM k 0 1", "LINSERT k BEFORE 1 x", "LMOVE k a LEFT LEFT", "RPOPLPUSH k a",
];

/// Commands that want a hash at `k`.
#[rattlefmt::skip]
const AT_A_HASH: [&str; 13] = [
    "HSET k f 1", "HMSET k f 1", "HGET k f", "HDEL k f", "HLEN k", "HKEYS k", "HVALS k", "HGETALL k", "HEXISTS k f",
    "HSTRLEN k f", "HMGET k f", "HSETNX k f 1", "HINCRBY k f 1",
];

/// Commands that want a set at `k`.
#[rattlefmt::skip]
const AT_A_SET: [&str; 12] = [
    "SADD k m", "SREM k m", "SCARD k", "SMEMBERS k", "SISMEMBER k m", "SMOVE k a m", "SINTER k", "SUNION k", "SDIFF k",
    "SINTERSTORE a k", "SUNIONSTORE a k", "SDIFFSTORE a k",
];

/// What puts a value of another kind at `k`, and the commands that are then refused.
#[rattlefmt::skip]
const REFUSED: [(&str, &[&str]); 12] = [
    ("LPUSH k 1", &AT_A_STRING), ("HSET k f 1", &AT_A_STRING), ("SADD k m", &AT_A_STRING),
    ("SET k v", &AT_A_LIST), ("HSET k f 1", &AT_A_LIST), ("SADD k m", &AT_A_LIST),
    ("SET k v", &AT_A_HASH), ("LPUSH k 1", &AT_A_HASH), ("SADD k m", &AT_A_HASH),
    ("SET k v", &AT_A_SET), ("LPUSH k 1", &AT_A_SET), ("HSET k f 1", &AT_A_SET),
];

const WRONG_KIND: &[u8] = b"-WRONGTYPE Operation against a key holding the wrong kind of value\r\n";

/// Serving ended well, and the last reply is a refusal.
fn is_refusal(row: &str, ending: &Ending, replies: &[u8]) -> Result<(), Fail> {
    same(row, ending, &END)?;
    holds(row, replies.ends_with(WRONG_KIND))
}

/// The last of these requests is refused by an empty store.
fn refuses_last(alloc: Global, row: &str) -> Result<(), Fail> {
    let input = requests_of(alloc, row)?;
    let mut output = Vec::new(alloc);
    let ending = empty_store(alloc).serve(&mut input.as_slice(), &mut output);
    is_refusal(row, &ending, &output)
}

/// Each command is refused where this request came before.
fn refuses_behind(alloc: Global, put: &str, commands: &[&str]) -> Result<(), Fail> {
    for command in commands {
        let row = format!(in alloc; "{put}; {command}")?;
        refuses_last(alloc, row.as_str())?;
    }
    Ok(())
}

fn refuses_each(alloc: Global, rows: &[(&str, &[&str])]) -> Result<(), Fail> {
    for row in rows {
        let (put, commands) = *row;
        refuses_behind(alloc, put, commands)?;
    }
    Ok(())
}

#[test]
fn another_kind_is_refused(rt: HostRuntime) -> Result<(), Fail> {
    refuses_each(rt.alloc(), &REFUSED)
}
