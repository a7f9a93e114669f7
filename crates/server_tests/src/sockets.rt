//! Clients that are served well.

use crate::clients::Act;
use crate::clients::Does::{Asks, Counts, Ends, Gets, IsCounted};
use crate::ends::path_of;
use crate::hosting::{replay_trace, serve_acts};
use std::alloc::{AllocError, Global};
use std::test::Fail;

#[rattlefmt::skip]
const TWO_CLIENTS: [Act<'static>; 6] = [
    (0, Asks("PING; SET a 1")),
    (0, Gets("+PONG|+OK|")),
    (0, Ends),
    (1, Asks("GET c; FOO")),
    (1, Gets("$-1|-ERR unknown command|")),
    (1, Ends),
];

#[test]
fn two_clients_are_served(rt: HostRuntime) -> Result<(), Fail> {
    for workers in [1, 2] {
        let closed = "closed requests=4 executed=2 starved=0";
        serve_acts(&rt, workers, None, 2, &TWO_CLIENTS, closed)?;
    }
    Ok(())
}

/// What is there before the clients count.
const BEFORE: [Act<'static>; 2] = [(0, Asks("SADD y p q; SADD z q r")), (0, Gets(":2|:2|"))];

/// The sums, and what else there is then.
#[rattlefmt::skip]
const BEHIND: [Act<'static>; 3] = [
    (64, Asks("MSET b 1 d 2; MGET a c b d")),
    (64, Gets("+OK|*4|$2|64|$3|128|$1|1|$1|2|")),
    (64, Ends),
];

/// 64 clients count for a round each.
fn push_counting(acts: &mut Vec<Act<'static>>) -> Result<(), AllocError> {
    for client in 0..64 {
        acts.push((client, Counts(1, client % 10)))?;
    }
    Ok(())
}

/// Their replies come.
fn push_counted(acts: &mut Vec<Act<'static>>) -> Result<(), AllocError> {
    for client in 0..64 {
        acts.push((client, IsCounted(1)))?;
    }
    Ok(())
}

/// 64 clients count for a round each, all at once, and then another asks for the sums.
fn push_acts(acts: &mut Vec<Act<'static>>) -> Result<(), AllocError> {
    acts.extend_from_slice(&BEFORE)?;
    push_counting(acts)?;
    push_counted(acts)?;
    acts.extend_from_slice(&BEHIND)
}

/// The same, as acts of their own.
fn acts_of_many(alloc: Global) -> Result<Vec<Act<'static>>, AllocError> {
    let mut acts: Vec<Act<'static>> = Vec::new(alloc);
    push_acts(&mut acts)?;
    Ok(acts)
}

/// The contents that the clients leave.
const LEFT: &[u8] =
    b"key 61 string 3634\nkey 62 string 31\nkey 63 string 313238\nkey 64 string 32\n\
    key 78 set 71\nkey 79 set 70 71\nkey 7a set 71 72\nagree\n";

/// With several workers a part of their requests is brought on by the thread that drives. The trace tells the same.
#[test]
fn many_clients_count(rt: HostRuntime) -> Result<(), Fail> {
    let acts = acts_of_many(rt.alloc())?;
    let path = path_of(&rt, "sums")?;
    let (acts, path) = (acts.as_slice(), path.as_str());
    for workers in [1, 3] {
        let closed = "closed requests=324 executed=324 starved=0";
        serve_acts(&rt, workers, Some(path), 65, acts, closed)?;
        replay_trace(&rt, path, 324, LEFT)?;
    }
    Ok(())
}
