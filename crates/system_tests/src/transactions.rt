//! Scripts with lists of MULTI, followed by workers of every kind. With two shards `a`, `b` and `y` lie on shard 0, and `c`, `d`,
//! `x` and `z` on shard 1; with four `a`, `b`, `z` and `d` lie on a shard each, in this order.

use crate::answers::{Row, follow_rows};
use shard_crew::Crew;
use shard_workers::InTurn;
use std::num::NonZeroUsize;
use std::test::Fail;

/// A list over two shards: a member that answers an error undoes none of the others.
const RUN: Row = Row {
    shards: 2,
    max_steps: 1000,
    script: "open => opened 1
submit 1 MULTI; collect 1 => submitted 1.1; 1.1 +OK|
submit 1 SET a 1; collect 1 => submitted 1.2; 1.2 +QUEUED|
submit 1 LPUSH a x; collect 1 => submitted 1.3; 1.3 +QUEUED|
submit 1 INCR c; collect 1 => submitted 1.4; 1.4 +QUEUED|
packets => 0
quiet => true
submit 1 EXEC => submitted 1.5
packets => 2
waits 1 => nothing
deliver 0; deliver 0; deliver 0; deliver 0 => made; made; made; made
packets => 0
take; run; settle => made; ran; made
rows => 1
starved => 0:
collect 1 => 1.5 at 1.1 *3|+OK|-WRONGTYPE Operation against a key holding the wrong kind of value|:1|
submit 1 EXEC; collect 1 => submitted 1.6; 1.6 -ERR EXEC without MULTI|
ask 1 GET c => 1.7 at 2.1 $1|1|
ask 1 GET a => 1.8 at 3.0 $1|1|",
};

/// The same; the third member starves, and the others are run.
const THIRD_STARVES: Row = Row {
    shards: 2,
    max_steps: 1000,
    script: "open => opened 1
submit 1 MULTI; collect 1 => submitted 1.1; 1.1 +OK|
submit 1 SET a 1; collect 1 => submitted 1.2; 1.2 +QUEUED|
submit 1 LPUSH a x; collect 1 => submitted 1.3; 1.3 +QUEUED|
submit 1 INCR c; collect 1 => submitted 1.4; 1.4 +QUEUED|
submit 1 EXEC => submitted 1.5
deliver 0; deliver 0; deliver 0; deliver 0 => made; made; made; made
take => made
run 1.5.3 => ran, starved 1.5.3
starved => 1: 1.5.3
settle => made
rows => 1
collect 1 => 1.5 at 1.1 *3|+OK|-WRONGTYPE Operation against a key holding the wrong kind of value|-ERR out of memory|
ask 1 EXISTS c => 1.6 at 2.1 :0|
ask 1 GET a => 1.7 at 3.0 $1|1|
starved => 1: 1.5.3",
};

/// Several members starve, of which one answers an error else; a number of no member, and a member of a request that has none,
/// name nothing.
const SEVERAL_STARVE: Row = Row {
    shards: 2,
    max_steps: 1000,
    script: "open; open => opened 1; opened 2
submit 1 MULTI; collect 1 => submitted 1.1; 1.1 +OK|
submit 1 LPUSH a x; collect 1 => submitted 1.2; 1.2 +QUEUED|
submit 1 SET a 1; collect 1 => submitted 1.3; 1.3 +QUEUED|
submit 1 GET a; collect 1 => submitted 1.4; 1.4 +QUEUED|
submit 1 EXEC => submitted 1.5
submit 2 SET c 2 => submitted 2.1
deliver 0; deliver 0; deliver 0 => made; made; NoPacket
take => made
run 2.1.1 1.5.9 1.5.3 1.5.1 => ran, starved 1.5.1 1.5.3
settle => made
collect 1 => 1.5 at 1.0 *3|-ERR out of memory|+OK|-ERR out of memory|
collect 2 => 2.1 at 1.1 +OK|
starved => 2: 1.5.1 1.5.3
ask 1 GET a => 1.6 at 2.0 $1|1|",
};

/// The whole list starves, beside which its members are named too. The list is gone.
const WHOLE_STARVES: Row = Row {
    shards: 2,
    max_steps: 1000,
    script: "open => opened 1
submit 1 MULTI; collect 1 => submitted 1.1; 1.1 +OK|
submit 1 MSET a 1 c 2; collect 1 => submitted 1.2; 1.2 +QUEUED|
submit 1 EXEC => submitted 1.3
deliver 0; deliver 0; deliver 0; deliver 0 => made; made; made; made
take; run 1.3.1 1.3; settle => made; ran, starved 1.3; made
rows => 0
starved => 1: 1.3
collect 1 => 1.3 at 1.1 -ERR out of memory|
submit 1 EXEC; collect 1 => submitted 1.4; 1.4 -ERR EXEC without MULTI|
ask 1 MGET a c => 1.5 at 2.1 *2|$-1|$-1|",
};

/// A request that is no command spoils the list: it is not run.
const SPOILT: Row = Row {
    shards: 2,
    max_steps: 1000,
    script: "open => opened 1
ask 1 MULTI => 1.1 +OK|
ask 1 FOO => 1.2 -ERR unknown command|
ask 1 EXEC => 1.3 -EXECABORT Transaction discarded because of previous errors.|
ask 1 MULTI => 1.4 +OK|
ask 1 SET a 1 => 1.5 +QUEUED|
ask 1 GET => 1.6 -ERR wrong number of arguments for 'get' command|
ask 1 SET a 2 => 1.7 +QUEUED|
packets => 0
ask 1 EXEC => 1.8 -EXECABORT Transaction discarded because of previous errors.|
packets => 0
rows => 0
ask 1 GET a => 1.9 at 1.0 $-1|",
};

/// A member that is misread answers its error when its turn comes. Alone it looks at no key: no packet is sent.
const MISREAD: Row = Row {
    shards: 2,
    max_steps: 1000,
    script: "open => opened 1
ask 1 MULTI => 1.1 +OK|
ask 1 SET b 1 EX 10 => 1.2 +QUEUED|
submit 1 EXEC => submitted 1.3
packets => 0
collect 1 => 1.3 *1|-ERR syntax error|
ask 1 MULTI => 1.4 +OK|
ask 1 SET b 1 EX 10 => 1.5 +QUEUED|
ask 1 PING => 1.6 +QUEUED|
ask 1 SET b 2 => 1.7 +QUEUED|
submit 1 EXEC => submitted 1.8
packets => 1
deliver 0; take; run; settle => made; made; ran; made
collect 1 => 1.8 at 1.0 *3|-ERR syntax error|+PONG|+OK|
rows => 1",
};

/// What opens and drops lists, and a list with no member.
const NESTED: Row = Row {
    shards: 2,
    max_steps: 1000,
    script: "open => opened 1
ask 1 MULTI => 1.1 +OK|
ask 1 MULTI => 1.2 -ERR MULTI calls can not be nested|
ask 1 DISCARD => 1.3 +OK|
ask 1 DISCARD => 1.4 -ERR DISCARD without MULTI|
ask 1 MULTI => 1.5 +OK|
ask 1 EXEC => 1.6 *0|
ask 1 MULTI => 1.7 +OK|
ask 1 SET a 1 => 1.8 +QUEUED|
ask 1 DISCARD => 1.9 +OK|
rows => 0
ask 1 GET a => 1.10 at 1.0 $-1|",
};

/// A connection's list is its own, and is dropped when the connection is closed.
const OWN_LISTS: Row = Row {
    shards: 2,
    max_steps: 1000,
    script: "open; open => opened 1; opened 2
ask 1 MULTI => 1.1 +OK|
ask 2 EXEC => 2.1 -ERR EXEC without MULTI|
ask 1 SET a 1 => 1.2 +QUEUED|
ask 2 SET a 2 => 2.2 at 1.0 +OK|
close 1 => made
open => opened 3
ask 3 EXEC => 3.1 -ERR EXEC without MULTI|
ask 3 GET a => 3.2 at 2.0 $1|2|
rows => 2",
};

/// An EXEC crosses a request of the same groups: each group gets another one first, and yet both deliver the second, then the
/// EXEC.
const CROSSING: Row = Row {
    shards: 2,
    max_steps: 1000,
    script: "open; open => opened 1; opened 2
ask 1 MULTI => 1.1 +OK|
ask 1 SET a 1 => 1.2 +QUEUED|
ask 1 INCR c => 1.3 +QUEUED|
submit 1 EXEC; submit 2 MSET a 3 c 4 => submitted 1.4; submitted 2.1
packets => 4
deliver 0; deliver 2; deliver 1; deliver 0 => made; made; made; made
packets => 4
deliver 0; deliver 0; deliver 0; deliver 0 => made; made; made; made
take; run; settle => made; ran; made
rows => 1
row 0 => 2.1 at 2.0 MSET a 3 c 4 +OK|
take; run; settle => made; ran; made
rows => 2
collect 1 => 1.4 at 2.1 *2|+OK|:5|
collect 2 => 2.1 at 2.0 +OK|
ask 1 GET a => 1.5 at 3.0 $1|1|
ask 1 GET c => 1.6 at 4.1 $1|5|",
};

/// An EXEC stands behind a request of its first group and before one of its second.
const BETWEEN: Row = Row {
    shards: 2,
    max_steps: 1000,
    script: "open; open; open => opened 1; opened 2; opened 3
ask 1 MULTI => 1.1 +OK|
ask 1 INCR a => 1.2 +QUEUED|
ask 1 INCR c => 1.3 +QUEUED|
submit 2 SET a 5; submit 1 EXEC; submit 3 INCR c => submitted 2.1; submitted 1.4; submitted 3.1
packets => 4
deliver 0; deliver 0; deliver 0; deliver 0; deliver 0; deliver 0 => made; made; made; made; made; made
packets => 0
take; run; settle => made; ran; made
rows => 1
row 0 => 2.1 at 1.0 SET a 5 +OK|
take; run; settle => made; ran; made
rows => 2
take; run; settle => made; ran; made
rows => 3
row 2 => 3.1 at 2.1 INCR c :2|
take => NoLayer
collect 1 => 1.4 at 2.0 *2|:6|:1|
collect 2 => 2.1 at 1.0 +OK|
collect 3 => 3.1 at 2.1 :2|",
};

/// EXECs of one group each are one layer with other requests, of which one is lined up behind one.
const LINED_UP: Row = Row {
    shards: 2,
    max_steps: 1000,
    script: "open; open; open => opened 1; opened 2; opened 3
ask 1 MULTI => 1.1 +OK|
ask 1 SET a 1 => 1.2 +QUEUED|
ask 1 APPEND a 2 => 1.3 +QUEUED|
ask 2 MULTI => 2.1 +OK|
ask 2 INCR c => 2.2 +QUEUED|
submit 1 EXEC; submit 2 EXEC; submit 3 GET a => submitted 1.4; submitted 2.3; submitted 3.1
packets => 3
deliver 0; deliver 0; deliver 0 => made; made; made
take; run; settle => made; ran; made
rows => 3
take => NoLayer
collect 1 => 1.4 at 1.0 *2|+OK|:2|
collect 2 => 2.3 at 1.1 *1|:1|
collect 3 => 3.1 at 2.0 $2|12|",
};

/// Members that are for all keys: the EXEC goes to all groups.
const ALL_KEYS: Row = Row {
    shards: 4,
    max_steps: 1000,
    script: "open => opened 1
ask 1 SET a 1 => 1.1 at 1.0 +OK|
ask 1 SET z 2 => 1.2 at 2.2 +OK|
ask 1 MULTI => 1.3 +OK|
ask 1 DBSIZE => 1.4 +QUEUED|
ask 1 FLUSHALL => 1.5 +QUEUED|
ask 1 SET d 1 => 1.6 +QUEUED|
ask 1 DBSIZE => 1.7 +QUEUED|
submit 1 EXEC => submitted 1.8
packets => 4
drain => 16
take; run; settle => made; ran; made
collect 1 => 1.8 at 3.3 *4|:2|+OK|+OK|:1|
ask 1 GET a => 1.9 at 4.0 $-1|
ask 1 GET d => 1.10 at 5.3 $1|1|",
};

/// One request under way, as ever: what is queued is collected before the next one is submitted. Names are in any case.
const ONE_AT_A_TIME: Row = Row {
    shards: 2,
    max_steps: 1000,
    script: "open => opened 1
submit 1 mUlTi => submitted 1.1
submit 1 SET a 1 => Busy
collect 1 => 1.1 +OK|
submit 1 SET a 1 => submitted 1.2
submit 1 exec => Busy
collect 1 => 1.2 +QUEUED|
submit 1 exec => submitted 1.3
submit 1 GET a => Busy
deliver 0; take; run; settle => made; made; ran; made
submit 1 GET a => Busy
collect 1 => 1.3 at 1.0 *1|+OK|
ask 1 GET a => 1.4 at 2.0 $1|1|",
};

/// Two lists of one layer, of which one names 10,000 members of sets, so that several workers have one each.
const TWO_AT_ONCE: Row = Row {
    shards: 2,
    max_steps: 1000,
    script: "open; open => opened 1; opened 2
ask 1 SADD x 00..99 => 1.1 at 1.1 :100|
submit 1 MULTI; collect 1 => submitted 1.2; 1.2 +OK|
submit 1 SET a 1; collect 1 => submitted 1.3; 1.3 +QUEUED|
submit 1 INCR a; collect 1 => submitted 1.4; 1.4 +QUEUED|
submit 2 MULTI; collect 2 => submitted 2.1; 2.1 +OK|
submit 2 EXISTS x*100; collect 2 => submitted 2.2; 2.2 +QUEUED|
submit 2 SREM x 07; collect 2 => submitted 2.3; 2.3 +QUEUED|
submit 1 EXEC; submit 2 EXEC => submitted 1.5; submitted 2.4
deliver 0; deliver 0 => made; made
take; run 2.4.2; settle => made; ran, starved 2.4.2; made
take => NoLayer
rows => 3
collect 1 => 1.5 at 2.0 *2|+OK|:2|
collect 2 => 2.4 at 2.1 *2|:100|-ERR out of memory|
ask 1 SCARD x => 1.6 at 3.1 :100|",
};

const ROWS: [Row; 14] = [
    RUN,
    THIRD_STARVES,
    SEVERAL_STARVE,
    WHOLE_STARVES,
    SPOILT,
    MISREAD,
    NESTED,
    OWN_LISTS,
    CROSSING,
    BETWEEN,
    LINED_UP,
    ALL_KEYS,
    ONE_AT_A_TIME,
    TWO_AT_ONCE,
];

#[test]
fn lists_are_answered_in_turn(rt: HostRuntime) -> Result<(), Fail> {
    for number in [1, 2, 8] {
        let number = NonZeroUsize::new(number).ok_or("a number of workers")?;
        follow_rows(&rt, rt.alloc(), &ROWS, &InTurn(number))?;
    }
    Ok(())
}

#[test]
fn lists_are_answered_on_threads(rt: HostRuntime) -> Result<(), Fail> {
    for number in [1, 2, 8] {
        let number = NonZeroUsize::new(number).ok_or("a number of workers")?;
        follow_rows(&rt, rt.alloc(), &ROWS, &Crew::new(&rt, number))?;
    }
    Ok(())
}
