//! Fronts for tests, and their steps.

ghost use Rattle.std.specs.Prelude.{IsTrue};
ghost use Rattle.front.specs.Passing.{MayPass};
ghost use Rattle.front.specs.Refusing.{MayStep};

use crate::front_alone::trouble::Trouble;
use front::Front;
use groups::{ConnId, RequestId};
use layer_planner::Layer;
use placement::Table;
use resp::{Request, write_reply};
use std::alloc::Global;
use std::test::Fail;
use test_support::{TWO_SHARDS, same_bytes};

/// Whether steps may still be made: no test makes more than these.
fn has_steps(front: &Front) -> bool
    ensures one { IsTrue result → MayStep front.now }
    ensures three { IsTrue result → MayPass front.now }
{
    front.steps() < 1_000 && front.layers() < 1_000
}

/// A front on two shards: `a`, `b` and `y` lie on 0, `c`, `d`, `x` and `z` on 1.
pub(crate) fn two_shards(alloc: Global) -> Result<Front, Trouble> {
    Ok(Front::new(alloc, Table::from_toml(alloc, TWO_SHARDS)?)?)
}

/// Opens a connection.
pub(crate) fn open(front: &mut Front) -> Result<ConnId, Trouble> {
    if !has_steps(front) {
        return Err(Trouble::Asked);
    }
    Ok(front.open()?)
}

/// The request of these words, separated by blanks.
fn request(alloc: Global, words: &str) -> Result<Request, Trouble> {
    let mut copies = Vec::new(alloc);
    for word in words.split(' ') {
        copies.push(Vec::from_slice(alloc, word.as_bytes())?)?;
    }
    if copies.is_empty() {
        return Err(Trouble::Asked);
    }
    Ok(Request::from_words(copies))
}

/// A connection submits these words, separated by blanks.
pub(crate) fn submit(
    alloc: Global,
    front: &mut Front,
    conn: ConnId,
    words: &str,
) -> Result<RequestId, Trouble> {
    let request = request(alloc, words)?;
    if !has_steps(front) {
        return Err(Trouble::Asked);
    }
    Ok(front.submit(conn, request)?)
}

/// A connection passes these words, separated by blanks: the id of its request, and the layer where it is handed out.
pub(crate) fn pass(
    alloc: Global,
    front: &mut Front,
    conn: ConnId,
    words: &str,
) -> Result<(RequestId, Option<Layer>), Trouble> {
    let request = request(alloc, words)?;
    if !has_steps(front) {
        return Err(Trouble::Asked);
    }
    Ok(front.pass(conn, request)?)
}

/// Brings all packets, the oldest first.
pub(crate) fn deliver_all(front: &mut Front) -> Result<(), Trouble> {
    for _ in 0..1_000 {
        if front.packets() == 0 {
            return Ok(());
        }
        deliver(front, 0)?;
    }
    Err(Trouble::Asked)
}

/// Brings the packet at this place.
pub(crate) fn deliver(front: &mut Front, place: u64) -> Result<(), Trouble> {
    if !has_steps(front) {
        return Err(Trouble::Asked);
    }
    Ok(front.deliver(place)?)
}

/// Takes a layer.
pub(crate) fn take(front: &mut Front) -> Result<Layer, Trouble> {
    if !has_steps(front) {
        return Err(Trouble::Asked);
    }
    Ok(front.take()?)
}

/// The text of what a connection collects; no text where nothing waits for it.
fn collect(alloc: Global, front: &mut Front, conn: ConnId) -> Result<Vec<u8>, Trouble> {
    if !has_steps(front) {
        return Err(Trouble::Asked);
    }
    let mut text = Vec::new(alloc);
    if let Some(outcome) = front.collect(conn)? {
        write_reply(&outcome.reply, &mut text)?;
    }
    Ok(text)
}

/// The connection collects just this.
pub(crate) fn collects(
    alloc: Global,
    front: &mut Front,
    conn: ConnId,
    reply: &[u8],
) -> Result<(), Fail> {
    let text = collect(alloc, front, conn)?;
    same_bytes("what is collected", text.as_slice(), reply)
}

/// A new connection submits these words, and their packets come; its number.
pub(crate) fn asks(alloc: Global, front: &mut Front, words: &str) -> Result<ConnId, Trouble> {
    let conn = open(front)?;
    ask(alloc, front, conn, words)?;
    Ok(conn)
}

/// A connection submits these words, and their packets come.
pub(crate) fn ask(
    alloc: Global,
    front: &mut Front,
    conn: ConnId,
    words: &str,
) -> Result<(), Trouble> {
    submit(alloc, front, conn, words)?;
    deliver_all(front)
}

/// A link repeats the packet at this place.
pub(crate) fn repeat(front: &mut Front, place: u64) -> Result<(), Trouble> {
    if !has_steps(front) {
        return Err(Trouble::Asked);
    }
    Ok(front.repeat(place)?)
}

/// Closes a connection.
pub(crate) fn close(front: &mut Front, conn: ConnId) -> Result<(), Trouble> {
    if !has_steps(front) {
        return Err(Trouble::Asked);
    }
    Ok(front.close(conn)?)
}
