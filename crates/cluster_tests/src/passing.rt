//! Requests that are handed out where they are submitted, and those that aren't: with a trace and without, and by the same
//! steps.

use crate::naming::{MOST, with_cluster};
use crate::scene::Left;
use std::alloc::{AllocError, Global};
use std::process::Abort;
use std::test::Fail;
use test_support::{Dice, holds, same_bytes, same_number};

/// The seat's request becomes a layer by one call, which makes three steps.
const BY_ONE: &str = "sit; pass 1 SET c 1 => 1; out 3";

/// The same by one call for each step.
const BY_THREE: &str = "sit; submit 1 SET c 1; turn; take => 1; 1; 1; 1";

/// The layer is the first request of the first connection, at the first stamp of the second group.
const FIRST: &str = "layer; steps => 1: 1.1 at 1.1; 4
run; settle; reply 1 => 1; settled; +OK|
clock; floor 1; steps => 1; 1; 7
stand 1; close => stood; closed 1 1 0";

#[test]
fn one_call_is_three_steps(rt: HostRuntime) -> Result<(), Fail> {
    for taking in [BY_ONE, BY_THREE] {
        let script = format!(in rt.alloc(); "{taking}\n{FIRST}")?;
        with_cluster(&rt, rt.alloc(), MOST, true, script.as_str());
    }
    Ok(())
}

/// What the first seat has asked; what another one has passed that isn't settled; what the first one passes then; whether
/// that is handed out, how many steps are made, and how many packets are under way then; its reply; and how many requests
/// were submitted, executed and starved.
type Row = [&'static str; 6];

const SET: &str = "ask 1 SET a 1 => +OK|";

const OPENED: &str = "ask 1 MULTI => +OK|";

const LISTED: &str = "ask 1 MULTI => +OK|
ask 1 SET a 1 => +QUEUED|
ask 1 INCR b => +QUEUED|";

const BOTH: &str = "ask 1 MSET a 1 c 2 => +OK|";

const PING: &str = "pass 2 PING => in 1";

const INCR_A: &str = "pass 2 INCR a => out 3";

const INCR_C: &str = "pass 2 INCR c => out 3";

const MSET: &str = "pass 2 MSET a 5 c 2 => in 1";

const SET_C: &str = "pass 2 SET c 1 => out 3";

/// What is handed out; and what isn't, since it is answered at once, addresses two groups of which one doesn't know its
/// connection, or comes while something is under way or a layer is out. One step is made where a request is submitted
/// alone, and where it is handed out one for each packet more, and its Take.
#[rattlefmt::skip]
const ROWS: [Row; 14] = [
    ["", "", "SET a 1", "out 3; 0", "+OK|", "1 1 0"],
    [SET, "", "INCR a", "out 3; 0", ":2|", "2 2 0"],
    [SET, PING, "MGET a b", "out 3; 0", "*2|$1|1|$-1|", "3 2 0"],
    [LISTED, "", "EXEC", "out 3; 0", "*2|+OK|:1|", "4 1 0"],
    [OPENED, "", "SET a 1", "in 1; 0", "+QUEUED|", "2 0 0"],
    ["", "", "PING", "in 1; 0", "+PONG|", "1 0 0"],
    ["", "", "MSET a 1 c 2", "in 1; 2", "+OK|", "1 1 0"],
    [SET, "", "MSET a 1 c 2", "in 1; 2", "+OK|", "2 2 0"],
    [BOTH, "", "MGET c a", "out 6; 0", "*2|$1|2|$1|1|", "2 2 0"],
    [BOTH, PING, "RENAME a c", "out 6; 0", "+OK|", "3 2 0"],
    [BOTH, INCR_C, "MSET a 3 c 4", "in 1; 2", "+OK|", "3 3 0"],
    [SET, MSET, "INCR a", "in 1; 3", ":6|", "3 3 0"],
    [SET, INCR_A, "GET a", "in 1; 1", "$1|2|", "3 3 0"],
    ["", SET_C, "SET a 1", "in 1; 1", "+OK|", "2 2 0"],
];

/// The script of a row: what is out is run and settled, and then turns are made until the reply is there, and until nothing
/// is under way.
fn script_of(alloc: Global, row: Row) -> Result<String, AllocError> {
    let [before, beside, words, passed, wanted, closed] = row;
    format!(in alloc;
        "sit; sit => 1; 2
{before}
{beside}
pass 1 {words}; packets => {passed}
bring; reply 1; rest => ?; {wanted}; ?
stand 1; stand 2; close => stood; stood; closed {closed}"
    )
}

#[test]
fn a_request_that_is_alone_is_handed_out(rt: HostRuntime) -> Result<(), Fail> {
    for row in ROWS {
        let script = script_of(rt.alloc(), row)?;
        for keeps in [false, true] {
            with_cluster(&rt, rt.alloc(), MOST, keeps, script.as_str());
        }
    }
    Ok(())
}

/// Behind the Open: a Submit, 64 Delivers and a Take, as a request of eight groups has them, and the Run and the Settle
/// that are kept back. With one fewer any request is submitted and no more.
#[test]
fn sixty_eight_steps_are_left_where_a_request_is_handed_out(rt: HostRuntime) {
    let is_out = "sit; pass 1 SET a 1; bring => 1; out 3; 1
stand 1; close => stood; closed 1 1 0";
    with_cluster(&rt, rt.alloc(), 69, false, is_out);
    let is_not = "sit; pass 1 SET a 1 => 1; in 1
stand 1; close => stood; NotQuiet";
    with_cluster(&rt, rt.alloc(), 68, false, is_not);
}

/// What came of the seat's request is given back to another seat. Behind two Opens, a Submit, a Deliver and a Take come a Run,
/// a Settle and a Collect; where one step fewer is left it is given back too, and settled by itself.
#[test]
fn what_is_not_its_own_is_given_back(rt: HostRuntime) {
    let collected = "sit; sit; submit 1 SET c 1; turn; take; run => 1; 2; 1; 1; 1; 1
finish 2; finish 1; steps => given back; +OK|; 8
stand 1; stand 2; close => stood; stood; closed 1 1 0";
    let settled = "sit; sit; submit 1 SET c 1; turn; take; run => 1; 2; 1; 1; 1; 1
finish 2; finish 1; steps; settle => given back; given back; 5; settled
stand 1; stand 2; close => stood; stood; closed 1 1 0";
    for keeps in [false, true] {
        with_cluster(&rt, rt.alloc(), 8, keeps, collected);
        with_cluster(&rt, rt.alloc(), 7, keeps, settled);
    }
}

/// What is asked at random: `a` and `b` lie at the one group, `c` and `d` at the other.
#[rattlefmt::skip]
const WORDS: &[&str] = &[
    "SET a 1", "GET a", "INCR b", "DEL b", "LPUSH c 1 2", "LPOP c", "HSET d f 1", "HDEL d f",
    "SADD b x y", "TYPE c", "MSET a 1 c 2", "MGET a b c d", "RENAME a d", "DEL a b c d", "DBSIZE",
    "MULTI", "EXEC", "DISCARD", "PING", "GET", "FOO bar",
];

/// How many requests are asked.
const ASKED: u64 = 10_000;

/// Two seats ask at random, by this step.
fn at_random(rt: &impl Abort, alloc: Global, step: &str) -> Result<Left, AllocError> {
    let mut dice = Dice::new(20_261_201);
    let mut script = String::from_str(alloc, "sit; sit => 1; 2\n")?;
    for _ in 0..ASKED {
        let words = WORDS[dice.below(WORDS.len() as u64) as usize];
        let seat = dice.below(2) + 1;
        write!(script, "{step} {seat} {words}; end {seat} => ?; ?\n")?;
    }
    script.push_str("stand 1; stand 2 => stood; stood")?;
    Ok(with_cluster(rt, alloc, 1_000_000, true, script.as_str()))
}

/// What is handed out at once, a quarter of the requests at least, and settled and collected by one call leaves the trace that
/// a call for each step leaves.
#[test]
fn random_requests_leave_the_same_trace_either_way(rt: HostRuntime) -> Result<(), Fail> {
    let by_steps = at_random(&rt, rt.alloc(), "submit")?;
    let by_one = at_random(&rt, rt.alloc(), "pass")?;
    same_number("handed out by a call for each step", by_steps.handed, 0)?;
    holds("a quarter is handed out", by_one.handed > ASKED / 4)?;
    holds("a trace is kept", !by_one.trace.is_empty())?;
    same_bytes(
        "the trace",
        by_one.trace.as_slice(),
        by_steps.trace.as_slice(),
    )
}
