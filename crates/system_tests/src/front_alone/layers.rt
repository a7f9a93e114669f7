//! Requests from submit to take, while other requests come.

use crate::front_alone::fronts::{
    asks, close, collects, deliver_all, open, repeat, submit, take, two_shards,
};
use front::{Front, FrontFault};
use std::alloc::Global;
use std::test::Fail;
use test_support::{holds, same_count};

fn come_while_a_layer_is_out(alloc: Global, front: &mut Front) -> Result<(), Fail> {
    let first = asks(alloc, front, "SET a 1")?;
    let layer = take(front)?;
    same_count("jobs", layer.jobs().len(), 1)?;
    let second = asks(alloc, front, "MSET a 2 c 3")?;
    holds("a layer is out", front.is_out())?;
    holds("the next one is ready", front.has_ready())?;
    let fault = front.take_fault();
    holds("none is taken", matches!(fault, Some(FrontFault::InFlight)))?;
    collects(alloc, front, first, b"")?;
    collects(alloc, front, second, b"")
}

#[test]
fn requests_come_while_a_layer_is_out(rt: HostRuntime) -> Result<(), Fail> {
    let mut front = two_shards(rt.alloc())?;
    come_while_a_layer_is_out(rt.alloc(), &mut front)
}

fn are_one_layer(alloc: Global, front: &mut Front) -> Result<(), Fail> {
    asks(alloc, front, "SET a 1")?;
    asks(alloc, front, "INCR a")?;
    asks(alloc, front, "SET c 9")?;
    asks(alloc, front, "MSET a 5 c 6")?;
    let layer = take(front)?;
    same_count("jobs", layer.jobs().len(), 3)?;
    same_count("requests that are out", front.out().len(), 3)
}

#[test]
fn what_is_ready_or_lined_up_is_one_layer(rt: HostRuntime) -> Result<(), Fail> {
    let mut front = two_shards(rt.alloc())?;
    are_one_layer(rt.alloc(), &mut front)
}

fn is_taken_once(alloc: Global, front: &mut Front) -> Result<(), Fail> {
    let conn = open(front)?;
    submit(alloc, front, conn, "SET a 1")?;
    repeat(front, 0)?;
    same_count("packets", front.packets(), 2)?;
    deliver_all(front)?;
    let layer = take(front)?;
    same_count("jobs", layer.jobs().len(), 1)?;
    holds("none is ready", !front.has_ready())
}

#[test]
fn a_request_whose_packet_is_repeated_is_taken_once(rt: HostRuntime) -> Result<(), Fail> {
    let mut front = two_shards(rt.alloc())?;
    is_taken_once(rt.alloc(), &mut front)
}

fn is_closed_before(alloc: Global, front: &mut Front) -> Result<(), Fail> {
    let conn = asks(alloc, front, "SET a 1")?;
    close(front, conn)?;
    let layer = take(front)?;
    same_count("jobs", layer.jobs().len(), 1)?;
    holds("nothing waits", front.waits(conn).is_none())
}

#[test]
fn the_request_of_a_closed_connection_is_taken(rt: HostRuntime) -> Result<(), Fail> {
    let mut front = two_shards(rt.alloc())?;
    is_closed_before(rt.alloc(), &mut front)
}
