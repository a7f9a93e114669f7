//! A request that is passed comes to what it comes to by submit, deliver and take.

use crate::front_alone::fronts::{ask, collects, deliver, open, pass, submit, take, two_shards};
use front::Front;
use groups::{ConnId, RequestId};
use layer_planner::Layer;
use std::alloc::Global;
use std::test::Fail;
use test_support::{holds, same, same_count, same_number};

/// Requests that a connection was answered at once, then one of one group, and this group's number.
type Row = (&'static [(&'static str, &'static [u8])], &'static str, u8);

#[rattlefmt::skip]
const ROWS: &[Row] = &[
    (&[], "SET a 1", 0),
    (&[("PING", b"+PONG\r\n")], "MGET c d", 1),
    (&[("MULTI", b"+OK\r\n"), ("INCR x", b"+QUEUED\r\n"), ("GET z", b"+QUEUED\r\n")], "EXEC", 1),
];

/// A new connection is answered this at once.
fn begins(alloc: Global, front: &mut Front, before: &[(&str, &[u8])]) -> Result<ConnId, Fail> {
    let conn = open(front)?;
    for (words, reply) in before {
        ask(alloc, front, conn, words)?;
        collects(alloc, front, conn, reply)?;
    }
    Ok(conn)
}

/// What is handed out of a request, with its id.
type Handed = (RequestId, Layer);

/// By one call.
fn passes(alloc: Global, front: &mut Front, row: &Row) -> Result<Handed, Fail> {
    let conn = begins(alloc, front, row.0)?;
    match pass(alloc, front, conn, row.1)? {
        (id, Some(layer)) => Ok((id, layer)),
        (_, None) => Err("it isn't handed out".into()),
    }
}

/// By one call for each step.
fn steps(alloc: Global, front: &mut Front, row: &Row) -> Result<Handed, Fail> {
    let conn = begins(alloc, front, row.0)?;
    let id = submit(alloc, front, conn, row.1)?;
    deliver(front, 0)?;
    Ok((id, take(front)?))
}

/// The layer is the request of this id alone, at the first stamp of the group of this number, and none of it is queued.
fn is_first(front: &Front, handed: &Handed, group: u8) -> Result<(), Fail> {
    let (id, layer) = handed;
    let Some(job) = layer.jobs().first() else {
        return Err("a layer of nothing is out".into());
    };
    let stamp = job.stamp;
    same("the job's id", &job.id, id)?;
    same("the stamp's group", &stamp.group.number(), &group)?;
    same_number("the stamp's clock", stamp.clock, 1)?;
    same_count("jobs", layer.len(), 1)?;
    same_number("the group's clock", front.clock(stamp.group), 1)?;
    same_count("requests in its queue", front.queued(stamp.group), 0)?;
    same_count("packets", front.packets(), 0)
}

/// Both are as far.
fn are_alike(one: &Front, two: &Front) -> Result<(), Fail> {
    same_number("steps", one.steps(), two.steps())?;
    same_number("layers", one.layers(), two.layers())?;
    holds("what is out", one.out() == two.out())?;
    same_count("requests that are out", one.out().len(), 1)?;
    holds("none is ready", !one.has_ready() && !two.has_ready())
}

fn come_to_the_same(alloc: Global, row: &Row) -> Result<(), Fail> {
    let mut one = two_shards(alloc)?;
    let mut two = two_shards(alloc)?;
    let passed = passes(alloc, &mut one, row)?;
    let stepped = steps(alloc, &mut two, row)?;
    is_first(&one, &passed, row.2)?;
    is_first(&two, &stepped, row.2)?;
    same("the ids", &passed.0, &stepped.0)?;
    are_alike(&one, &two)
}

#[test]
fn one_call_comes_to_what_three_steps_do(rt: HostRuntime) -> Result<(), Fail> {
    for row in ROWS {
        come_to_the_same(rt.alloc(), row)?;
    }
    Ok(())
}
