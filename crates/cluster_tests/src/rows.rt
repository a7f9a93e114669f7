//! Rows through a shared cluster: of two threads, and of one that makes the turns.

ghost use Rattle.std.specs.Prelude.{◌≤◌};
ghost use Rattle.journal.specs.declared.trace.TheConstants.{GREATEST_STEPS};

use crate::crowd::{Crowd, Host};
use crate::naming::{Course, MOST, with_shared};
use std::alloc::Global;
use std::test::Fail;
use test_support::same_bytes;

/// Two threads ask their rows of a new cluster, which closes so: once where each makes the turns for its own, and beside a
/// thread that drives without a trace, and with one.
pub(crate) fn two_ask<'a>(rt: &impl Host, alloc: Global, one: &'a str, two: &'a str, closes: &str) {
    for (drives, keeps) in [(false, false), (true, false), (true, true)] {
        let crowd = Crowd {
            one,
            two,
            drives,
            held: None,
            carries: false,
        };
        let course = Course {
            crowd: Some(crowd),
            ..Course::SCRIPT
        };
        with_shared(rt, alloc, MOST, keeps, &course, closes);
    }
}

const STRINGS: &str = "SET '' '' => +OK|
GET '' => $0||
GET a => $-1|
SET a 9223372036854775807 => +OK|
INCR a => -ERR increment or decrement would overflow|
GET a => $19|9223372036854775807|
DECRBY a -9223372036854775808 => -ERR increment or decrement would overflow|
INCR b => :1|
INCRBY b +1 => -ERR value is not an integer or out of range|";

const BESIDE_STRINGS: &str = "PiNG => +PONG|
SET d 1 => +OK|
MSET d 2 x 3 => +OK|
MGET x d => *2|$1|3|$1|2|";

#[test]
fn strings_and_integers(rt: HostRuntime) {
    two_ask(
        &rt,
        rt.alloc(),
        STRINGS,
        BESIDE_STRINGS,
        "close => closed 13 11 0",
    );
}

const TWICE: &str = "MSET a 1 c 2 a 3 => +OK|
GET a => $1|3|";

const BESIDE_TWICE: &str = "FOO => -ERR unknown command|
GET d => $-1|";

#[test]
fn a_key_twice(rt: HostRuntime) {
    two_ask(
        &rt,
        rt.alloc(),
        TWICE,
        BESIDE_TWICE,
        "close => closed 4 3 0",
    );
}

const SETS: &str = "SADD a m => :1|
SMOVE a a m => :1|
SMOVE y a m => :0|
SETRANGE b 3 x => :4|
GET b => $4|\0\0\0x|
SETRANGE b -1 x => -ERR offset is out of range|";

const BESIDE_SETS: &str = "LPUSH c 1 => :1|
LMOVE c d LEFT RIGHT => $1|1|
EXISTS c d d => :2|";

#[test]
fn sets_and_ranges(rt: HostRuntime) {
    two_ask(&rt, rt.alloc(), SETS, BESIDE_SETS, "close => closed 9 9 0");
}

/// The thread that asks makes the turns. Of the steps one is the seat's Open; PING and the unknown command took two each,
/// Submit and Collect; SET and GET six, with Deliver, Take, Run and Settle; and MSET nine, since over two shards there are
/// four packets. The cluster is shut, and takes no request then, and gives no seat. It closes when all seats have stood.
const TURNED: &str = "sit => 1
ask 1 SET a 1 => +OK|
ask 1 MSET a 1 c 2 a 3 => +OK|
ask 1 GET a => $1|3|
ask 1 PING => +PONG|
ask 1 FOO => -ERR unknown command|
requests; sight => 5; 5 requests, 26 steps, 0 starved
close => SeatsOut
shut => shut
ask 1 PING; requests 1 => Closed; 5
stand 1 => stood
sit => Closed
close => closed 5 3 0";

/// Asks of a new cluster that makes so many steps at most: once without a trace, and once with one.
fn turn_within(rt: &impl Host, alloc: Global, most: u64)
    requires { (1 ≤ most) × (most ≤ GREATEST_STEPS) }
{
    for keeps in [false, true] {
        with_shared(rt, alloc, most, keeps, &Course::SCRIPT, TURNED);
    }
}

#[test]
fn an_asking_thread_makes_the_turns(rt: HostRuntime) {
    turn_within(&rt, rt.alloc(), MOST);
}

/// As many steps as may be asked for take no memory before they are made.
#[test]
fn many_steps_take_nothing(rt: HostRuntime) {
    turn_within(&rt, rt.alloc(), 1 << 62);
}

/// Seats ask one behind another, each when the one before has stood.
const ONE_BEHIND_ANOTHER: &str = "sit; ask 1 INCR a; stand 1 => 1; :1|; stood
sit; ask 2 INCR a; stand 2 => 2; :2|; stood
close => closed 2 2 0";

#[test]
fn seats_that_stand_let_others_pass(rt: HostRuntime) {
    with_shared(
        &rt,
        rt.alloc(),
        MOST,
        false,
        &Course::SCRIPT,
        ONE_BEHIND_ANOTHER,
    );
}

/// The seat is the first of three steps, its request the second, and its packet the third. No more are made.
const THREE_STEPS: &str = "sit => 1
ask 1 SET a 1; requests 1 => Exhausted; 1
ask 1 SET a 1; requests 1 => Exhausted; 1
drive => Exhausted
stand 1 => stood
close => NotQuiet
trace => written";

/// Their trace.
const THREE: &[u8] = b"shardkv-trace 3\nmax 3\nopen\nsubmit 1 534554 61 31\ndeliver 0\nend 3\n";

#[test]
fn no_more_steps(rt: HostRuntime) -> Result<(), Fail> {
    let trace = with_shared(&rt, rt.alloc(), 3, true, &Course::SCRIPT, THREE_STEPS);
    same_bytes("the trace", trace.as_slice(), THREE)
}
