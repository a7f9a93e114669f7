//! Many small requests at one shared cluster: without a trace they leave none, and with one its text replays.

use crate::naming::{Course, with_shared};
use crate::replaying::replays;
use std::test::Fail;
use test_support::same_bytes;

/// At most how many steps the clusters here make.
const MOST: u64 = 1_000_000;

/// A seat asks 10,000 increments of one key, each answered by its number, and a PING behind each. One step is the seat's
/// Open, one its Close; an increment takes six, and a PING two. No trace is appended, and none is streamed.
const LEAVES_NONE: &str = "sit => 1
10000 * ask 1 INCR a; ask 1 PING => :#|; +PONG|
stand 1 => stood
sight => 20000 requests, 80002 steps, 0 starved
close => closed 20000 10000 0
keep before; trace; stream => kept; none; none";

#[test]
fn small_requests_leave_no_trace(rt: HostRuntime) -> Result<(), Fail> {
    let text = with_shared(&rt, rt.alloc(), MOST, false, &Course::SCRIPT, LEAVES_NONE);
    same_bytes("what stood before", text.as_slice(), b"before")
}

/// The trace of 1,000 requests is appended and streamed, and is the same text.
const LEAVES_ONE: &str = "sit => 1
500 * ask 1 INCR a; ask 1 PING => :#|; +PONG|
stand 1 => stood
sight => 1000 requests, 4002 steps, 0 starved
close => closed 1000 500 0
trace; stream => written; the same";

/// It replays with a row for each increment. They leave `500`, of which 35 30 30 are the bytes.
#[test]
fn a_trace_replays(rt: HostRuntime) -> Result<(), Fail> {
    let trace = with_shared(&rt, rt.alloc(), MOST, true, &Course::SCRIPT, LEAVES_ONE);
    replays(
        rt.alloc(),
        trace.as_slice(),
        500,
        b"key 61 string 353030\nagree\n",
    )
}
