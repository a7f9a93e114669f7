//! Lists of MULTI, from the first request to the layer.

use crate::front_alone::fronts::{ask, asks, collects, take, two_shards};
use front::Front;
use groups::ConnId;
use std::alloc::Global;
use std::test::Fail;
use test_support::{holds, same_count};

/// The connection submits these words, and is answered so at once.
fn is_told(
    alloc: Global,
    front: &mut Front,
    conn: ConnId,
    words: &str,
    reply: &[u8],
) -> Result<(), Fail> {
    ask(alloc, front, conn, words)?;
    collects(alloc, front, conn, reply)
}

fn is_one_request(alloc: Global, front: &mut Front) -> Result<(), Fail> {
    let conn = asks(alloc, front, "MULTI")?;
    collects(alloc, front, conn, b"+OK\r\n")?;
    holds("a list is open", front.has_list(conn))?;
    is_told(alloc, front, conn, "SET a 1", b"+QUEUED\r\n")?;
    is_told(alloc, front, conn, "INCR c", b"+QUEUED\r\n")?;
    ask(alloc, front, conn, "EXEC")?;
    holds("it is open no more", !front.has_list(conn))?;
    let layer = take(front)?;
    same_count("jobs", layer.jobs().len(), 1)?;
    collects(alloc, front, conn, b"")
}

#[test]
fn a_list_is_taken_as_one_request(rt: HostRuntime) -> Result<(), Fail> {
    let mut front = two_shards(rt.alloc())?;
    is_one_request(rt.alloc(), &mut front)
}

fn looks_at_no_key(alloc: Global, front: &mut Front) -> Result<(), Fail> {
    let conn = asks(alloc, front, "MULTI")?;
    collects(alloc, front, conn, b"+OK\r\n")?;
    is_told(alloc, front, conn, "PING", b"+QUEUED\r\n")?;
    is_told(alloc, front, conn, "EXEC", b"*1\r\n+PONG\r\n")?;
    holds("it is quiet", front.quiet())
}

#[test]
fn a_list_that_looks_at_no_key_is_answered_at_once(rt: HostRuntime) -> Result<(), Fail> {
    let mut front = two_shards(rt.alloc())?;
    looks_at_no_key(rt.alloc(), &mut front)
}
