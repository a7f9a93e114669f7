//! Lists of MULTI: of two threads, and of seats that one thread has.
//!
//! Of two shards `a` and `b` lie on the first, and `c` and `d` on the second.

use crate::crowd::Host;
use crate::naming::{Course, MOST, with_shared};
use crate::rows::two_ask;
use std::alloc::Global;
use std::test::Fail;
use test_support::holds;

const LISTED: &str = "MULTI => +OK|
SET a 1 => +QUEUED|
LPUSH a x => +QUEUED|
INCR c => +QUEUED|
EXEC => *3|+OK|-WRONGTYPE Operation against a key holding the wrong kind of value|:1|
MGET a c => *2|$1|1|$1|1|";

const SPOILT: &str = "MULTI => +OK|
FOO => -ERR unknown command|
EXEC => -EXECABORT Transaction discarded because of previous errors.|
MULTI => +OK|
MULTI => -ERR MULTI calls can not be nested|
DISCARD => +OK|
DISCARD => -ERR DISCARD without MULTI|
MULTI => +OK|
EXEC => *0|";

/// One of the two threads has a list run over two shards, and asks for what it left; of the other nothing is executed.
#[test]
fn two_threads_have_lists(rt: HostRuntime) {
    two_ask(&rt, rt.alloc(), LISTED, SPOILT, "close => closed 15 2 0");
}

/// Lists that touch what the other thread's don't, one over two shards.
const COUNTS: &str = "MULTI => +OK|
INCR a => +QUEUED|
INCR c => +QUEUED|
EXEC => *2|:1|:1|
MULTI => +OK|
INCR c => +QUEUED|
INCR a => +QUEUED|
EXEC => *2|:2|:2|";

const BESIDE_COUNTS: &str = "MSET b 1 d 1 => +OK|
MULTI => +OK|
MGET b d => +QUEUED|
SINTER e f => +QUEUED|
EXEC => *2|*2|$1|1|$1|1|*0|
INCR b => :2|";

#[test]
fn lists_over_two_shards(rt: HostRuntime) {
    two_ask(
        &rt,
        rt.alloc(),
        COUNTS,
        BESIDE_COUNTS,
        "close => closed 14 5 0",
    );
}

/// Follows a script with a new cluster. Gives the text that is left.
fn follow(rt: &impl Host, alloc: Global, keeps: bool, script: &str) -> Vec<u8> {
    with_shared(rt, alloc, MOST, keeps, &Course::SCRIPT, script)
}

/// Of eleven requests SET, one EXEC and GET are executed.
const MIXED: &str = "desk; desk => 1; 2
at 1 MULTI => +OK|
at 2 SET c 5 => +OK|
at 2 MULTI => +OK|
at 1 INCR a => +QUEUED|
at 2 INCR c => +QUEUED|
at 1 INCR c => +QUEUED|
at 2 FOO => -ERR unknown command|
at 1 EXEC => *2|:1|:6|
at 2 EXEC => -EXECABORT Transaction discarded because of previous errors.|
at 2 GET c => $1|6|
at 1 EXEC => -ERR EXEC without MULTI|
leave 1; leave 2 => stood; stood
sit; stand 3 => 3; stood
close => closed 11 3 0";

#[test]
fn the_lists_of_two_seats_dont_mix(rt: HostRuntime) {
    follow(&rt, rt.alloc(), false, MIXED);
}

const LEFT_OPEN: &str = "desk; desk => 1; 2
at 1 MULTI => +OK|
at 1 SET a 1 => +QUEUED|
leave 1; leave 2 => stood; stood
sit => 3
ask 3 EXEC => -ERR EXEC without MULTI|
ask 3 GET a => $-1|
stand 3 => stood
close => closed 4 1 0";

#[test]
fn a_list_ends_with_its_seat(rt: HostRuntime) {
    follow(&rt, rt.alloc(), false, LEFT_OPEN);
}

const WHOLE: &str = "desk; desk => 1; 2
at 1 SET b 1 => +OK|
at 1 MULTI => +OK|
at 1 SET c 2 => +QUEUED|
at 1 DBSIZE => +QUEUED|
at 1 FLUSHALL => +QUEUED|
at 1 DBSIZE => +QUEUED|
at 1 PING => +QUEUED|
at 1 EXEC => *5|+OK|:2|+OK|:0|+PONG|
at 2 MGET b c => *2|$-1|$-1|
leave 1; leave 2 => stood; stood
sit; stand 3 => 3; stood
close => closed 9 3 0";

#[test]
fn a_list_is_for_all_keys(rt: HostRuntime) {
    follow(&rt, rt.alloc(), false, WHOLE);
}

/// What looks at no key is answered with no packet.
const MISREAD: &str = "sit => 1
ask 1 MULTI => +OK|
ask 1 SET b 1 EX 10 => +QUEUED|
ask 1 EXEC => *1|-ERR syntax error|
stand 1 => stood
trace => written
close => closed 3 0 0";

#[test]
fn a_list_without_a_key_takes_no_packet(rt: HostRuntime) -> Result<(), Fail> {
    let trace = follow(&rt, rt.alloc(), true, MISREAD);
    let text = str::from_utf8(trace.as_slice()).unwrap_or("\ndeliver");
    holds("no packet", !text.contains("\ndeliver"))
}
