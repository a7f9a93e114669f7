//! What goes on beside a layer that is held while it is run: requests come in, and packets come to their groups.

use crate::crowd::{Crowd, Held, Host};
use crate::naming::{Course, MOST, with_shared};
use std::alloc::Global;
use std::test::Fail;
use test_support::holds;

/// Two ask of a new cluster, whose first layer is held until packets come, or requests. Both are answered, and it closes.
fn hold_one(rt: &impl Host, alloc: Global, carries: bool) -> Result<(), Fail> {
    let gate = Held::new();
    let crowd = Crowd {
        one: "SET a 1 => +OK|",
        two: "SET c 1 => +OK|",
        drives: true,
        held: Some(&gate),
        carries,
    };
    let course = Course {
        crowd: Some(crowd),
        ..Course::SCRIPT
    };
    with_shared(rt, alloc, MOST, true, &course, "close => closed 2 2 0");
    holds("the layer was held, and let go", gate.was_let_go())
}

#[test]
fn a_request_comes_in_while_a_layer_is_run(rt: HostRuntime) -> Result<(), Fail> {
    hold_one(&rt, rt.alloc(), false)
}

#[test]
fn a_packet_comes_to_its_group_while_a_layer_is_run(rt: HostRuntime) -> Result<(), Fail> {
    hold_one(&rt, rt.alloc(), true)
}
