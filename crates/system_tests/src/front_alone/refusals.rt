//! What is refused.

use crate::front_alone::fronts::{asks, close, two_shards};
use front::{Front, FrontFault};
use std::alloc::Global;
use std::test::Fail;
use test_support::holds;

fn has_nothing_to_do(front: &Front) -> Result<(), Fail> {
    let take = front.take_fault();
    holds("no layer", matches!(take, Some(FrontFault::NoLayer)))?;
    let deliver = front.deliver_fault(0);
    holds("no packet", matches!(deliver, Some(FrontFault::NoPacket)))?;
    holds("it is quiet", front.quiet())
}

#[test]
fn a_new_front_has_nothing_to_do(rt: HostRuntime) -> Result<(), Fail> {
    let front = two_shards(rt.alloc())?;
    has_nothing_to_do(&front)
}

fn asks_twice(alloc: Global, front: &mut Front) -> Result<(), Fail> {
    let conn = asks(alloc, front, "SET a 1")?;
    let busy = front.submit_fault(conn);
    holds("it is busy", matches!(busy, Some(FrontFault::Busy)))?;
    close(front, conn)?;
    let gone = front.collect_fault(conn);
    holds("it is gone", matches!(gone, Some(FrontFault::NoConn)))
}

#[test]
fn a_connection_asks_one_request_at_a_time(rt: HostRuntime) -> Result<(), Fail> {
    let mut front = two_shards(rt.alloc())?;
    asks_twice(rt.alloc(), &mut front)
}
