//! Clients that make trouble, and others beside them that are served.

use crate::clients::Act;
use crate::clients::Does::{Asks, Ends, Gets, IsEnded, Leaves, Sees, Sends};
use crate::ends::path_of;
use crate::hosting::{replay_trace, serve_acts};
use std::alloc::{AllocError, Global};
use std::test::Fail;

/// One leaves with half a request sent, one with a request under way; one ends inside a request.
#[rattlefmt::skip]
const LEAVING: [Act<'static>; 9] = [
    (0, Sends("*2|$3|GET|$1|a")),
    (0, Leaves),
    (1, Asks("SET a 1")),
    (1, Leaves),
    (2, Sends("*1|$4|PI")),
    (2, Ends),
    (3, Asks("SET c 2; GET c")),
    (3, Gets("+OK|$1|2|")),
    (3, Ends),
];

#[test]
fn clients_that_leave(rt: HostRuntime) -> Result<(), Fail> {
    let path = path_of(&rt, "left")?;
    let path = path.as_str();
    for workers in [1, 2] {
        let closed = "closed requests=3 executed=3 starved=0";
        serve_acts(&rt, workers, Some(path), 4, &LEAVING, closed)?;
        let ending = b"key 61 string 31\nkey 63 string 32\nagree\n";
        replay_trace(&rt, path, 3, ending)?;
    }
    Ok(())
}

/// Each fault ends its own connection, behind the replies to what came before it.
#[rattlefmt::skip]
const FAULTY: [Act<'static>; 26] = [
    (0, Asks("SET a 1")),
    (0, Gets("+OK|")),
    (1, Sends("*1|$4|PING|foo")),
    (1, Gets("+PONG|-ERR Protocol error: expected '*'|")),
    (1, IsEnded),
    (2, Sends("*1|$03|GET|")),
    (2, Gets("-ERR Protocol error: invalid length|")),
    (2, IsEnded),
    (3, Sends("*1|$536870913")),
    (3, Gets("-ERR Protocol error: invalid length|")),
    (3, IsEnded),
    (4, Sends("PING|")),
    (4, Gets("-ERR Protocol error: expected '*'|")),
    (4, IsEnded),
    (5, Sends("*1|+PING|")),
    (5, Gets("-ERR Protocol error: expected '$'|")),
    (5, IsEnded),
    (6, Sends("*1|$4|PINGxx")),
    (6, Gets("-ERR Protocol error: expected CRLF|")),
    (6, IsEnded),
    (7, Sends("*0|*-1|*1|$4|PING|")),
    (7, Gets("+PONG|")),
    (7, Ends),
    (0, Asks("GET a")),
    (0, Gets("$1|1|")),
    (0, Ends),
];

#[test]
fn clients_that_send_no_requests(rt: HostRuntime) -> Result<(), Fail> {
    for workers in [1, 2] {
        let closed = "closed requests=4 executed=2 starved=0";
        serve_acts(&rt, workers, None, 8, &FAULTY, closed)?;
    }
    Ok(())
}

/// A value of 65,536 bytes.
const LONG: [Act<'static>; 2] = [(0, Asks("SETRANGE a 65535 x")), (0, Gets(":65536|"))];

/// Its replies lie unread, and another client is served.
#[rattlefmt::skip]
const BESIDE: [Act<'static>; 3] = [
    (0, Sees),
    (1, Asks("SET c 1")),
    (1, Gets("+OK|")),
];

/// Two keys are there.
const BOTH: [Act<'static>; 2] = [(1, Asks("EXISTS a c")), (1, Gets(":2|"))];

/// The one leaves, and the other is served still.
#[rattlefmt::skip]
const BEHIND: [Act<'static>; 4] = [
    (0, Leaves),
    (1, Asks("APPEND a y; SET c 2; GET c")),
    (1, Gets(":65537|+OK|$1|2|")),
    (1, Ends),
];

/// The value is asked for 200 times.
fn push_asking(acts: &mut Vec<Act<'static>>) -> Result<(), AllocError> {
    for _ in 0..200 {
        acts.push((0, Asks("GET a")))?;
    }
    Ok(())
}

/// The keys are looked for 50 times.
fn push_looking(acts: &mut Vec<Act<'static>>) -> Result<(), AllocError> {
    for _ in 0..50 {
        acts.extend_from_slice(&BOTH)?;
    }
    Ok(())
}

/// Behind 13 million bytes of replies that lie unread another client's requests go to the same shard.
fn push_acts(acts: &mut Vec<Act<'static>>) -> Result<(), AllocError> {
    acts.extend_from_slice(&LONG)?;
    push_asking(acts)?;
    acts.extend_from_slice(&BESIDE)?;
    push_looking(acts)?;
    acts.extend_from_slice(&BEHIND)
}

/// The same, as acts of their own.
fn acts_of_two(alloc: Global) -> Result<Vec<Act<'static>>, AllocError> {
    let mut acts: Vec<Act<'static>> = Vec::new(alloc);
    push_acts(&mut acts)?;
    Ok(acts)
}

#[test]
fn a_client_that_never_reads(rt: HostRuntime) -> Result<(), Fail> {
    let acts = acts_of_two(rt.alloc())?;
    serve_acts(&rt, 1, None, 2, acts.as_slice(), "closed requests=")?;
    serve_acts(&rt, 2, None, 2, acts.as_slice(), "closed requests=")
}
