//! Scripts on small systems, followed by workers of every kind. With two shards `a`, `b` and `y` lie on shard 0, and
//! `c`, `d`, `x` and `z` on shard 1.

use crate::answers::{Row, follow_rows};
use shard_crew::Crew;
use shard_workers::InTurn;
use std::num::NonZeroUsize;
use std::test::Fail;

/// Two requests of both groups cross: each group gets another one first, and yet both deliver the second, then the
/// first.
const CROSSING: Row = Row {
    shards: 2,
    max_steps: 1000,
    script: "open => opened 1
open => opened 2
submit 1 MSET a 1 c 2 => submitted 1.1
submit 2 MSET a 3 c 4 => submitted 2.1
packets => 4
deliver 0; deliver 2; deliver 1; deliver 0 => made; made; made; made
packets => 4
deliver 0; deliver 0; deliver 0; deliver 0 => made; made; made; made
packets => 0
take => made
run => ran
settle => made
rows => 1
row 0 => 2.1 at 2.0 MSET a 3 c 4 +OK|
waits 2 => 2.1 at 2.0 +OK|
waits 1 => nothing
take; run; settle => made; ran; made
rows => 2
row 1 => 1.1 at 2.1 MSET a 1 c 2 +OK|
waits 1 => 1.1 at 2.1 +OK|
collect 1 => 1.1 at 2.1 +OK|
collect 2 => 2.1 at 2.0 +OK|
steps => 20
collect 1 => nothing
starved => 0:
ask 1 GET a => 1.2 at 3.0 $1|1|
ask 1 GET c => 1.3 at 4.1 $1|2|",
};

/// The same up to the last packet, and layer by layer.
const LAYER_BY_LAYER: Row = Row {
    shards: 2,
    max_steps: 1000,
    script: "open; open => opened 1; opened 2
quiet => true
submit 1 MSET a 1 c 2; submit 2 MSET a 3 c 4 => submitted 1.1; submitted 2.1
quiet => false
deliver 0; deliver 2; deliver 1; deliver 0 => made; made; made; made
deliver 0; deliver 0; deliver 0 => made; made; made
packets => 1
take => NoLayer
quiet => false
deliver 0 => made
packets => 0
quiet => false
take => made
quiet => false
run => ran
quiet => false
settle => made
quiet => false
take => made
quiet => false
run; settle => ran; made
quiet => true
take => NoLayer
quiet => true
waits 1 => 1.1 at 2.1 +OK|
waits 2 => 2.1 at 2.0 +OK|",
};

/// A proposal comes before the Start that it belongs to. It is kept, and alone it sends and delivers nothing.
const PROPOSAL_FIRST: Row = Row {
    shards: 2,
    max_steps: 1000,
    script: "open => opened 1
submit 1 MSET a 1 c 2 => submitted 1.1
packets => 2
deliver 0 => made
packets => 2
deliver 1 => made
packets => 1
take => NoLayer
deliver 0 => made
packets => 1
take => NoLayer
deliver 0 => made
packets => 0
take; run; settle => made; ran; made
row 0 => 1.1 at 1.1 MSET a 1 c 2 +OK|
collect 1 => 1.1 at 1.1 +OK|",
};

/// What is executed last may have a small stamp: the order of the rows is another one than that of the stamps.
const LATE_WITH_A_SMALL_STAMP: Row = Row {
    shards: 2,
    max_steps: 1000,
    script: "open; open => opened 1; opened 2
ask 1 SET a 1 => 1.1 at 1.0 +OK|
ask 1 SET a 2 => 1.2 at 2.0 +OK|
ask 1 SET a 3 => 1.3 at 3.0 +OK|
ask 1 SET a 4 => 1.4 at 4.0 +OK|
ask 1 SET a 5 => 1.5 at 5.0 +OK|
ask 1 SET a 6 => 1.6 at 6.0 +OK|
ask 1 SET a 7 => 1.7 at 7.0 +OK|
ask 1 SET a 8 => 1.8 at 8.0 +OK|
ask 2 SET c 1 => 2.1 at 1.1 +OK|
rows => 9
row 8 => 2.1 at 1.1 SET c 1 +OK|
sorted 0 => 1.1 at 1.0 SET a 1 +OK|
sorted 1 => 2.1 at 1.1 SET c 1 +OK|
sorted 2 => 1.2 at 2.0 SET a 2 +OK|
sorted 3 => 1.3 at 3.0 SET a 3 +OK|
sorted 4 => 1.4 at 4.0 SET a 4 +OK|
sorted 5 => 1.5 at 5.0 SET a 5 +OK|
sorted 6 => 1.6 at 6.0 SET a 6 +OK|
sorted 7 => 1.7 at 7.0 SET a 7 +OK|
sorted 8 => 1.8 at 8.0 SET a 8 +OK|",
};

/// A connection's requests have rising stamps, also at a group whose clock is still 0.
const FLOOR: Row = Row {
    shards: 2,
    max_steps: 1000,
    script: "open => opened 1
ask 1 SET a 1 => 1.1 at 1.0 +OK|
ask 1 SET a 2 => 1.2 at 2.0 +OK|
ask 1 SET a 3 => 1.3 at 3.0 +OK|
ask 1 SET a 4 => 1.4 at 4.0 +OK|
ask 1 SET a 5 => 1.5 at 5.0 +OK|
submit 1 GET c => submitted 1.6
packets => 1
deliver 0; take; run; settle => made; made; ran; made
collect 1 => 1.6 at 6.1 $-1|",
};

/// Values move from one shard to the other.
const RENAMING: Row = Row {
    shards: 2,
    max_steps: 1000,
    script: "open => opened 1
ask 1 SET a v => 1.1 at 1.0 +OK|
ask 1 SADD c m => 1.2 at 2.1 :1|
ask 1 RENAME a c => 1.3 at 3.1 +OK|
ask 1 TYPE c => 1.4 at 4.1 +string|
ask 1 TYPE a => 1.5 at 5.0 +none|
ask 1 RENAME a c => 1.6 at 6.1 -ERR no such key|
ask 1 RENAME c c => 1.7 at 7.1 +OK|
ask 1 RENAMENX c c => 1.8 at 8.1 :0|",
};

/// One request names a key twice; the last value stands.
const SAME_KEY_TWICE: Row = Row {
    shards: 2,
    max_steps: 1000,
    script: "open => opened 1
submit 1 MSET a 1 c 2 a 3 => submitted 1.1
packets => 2
deliver 0; deliver 0; deliver 0; deliver 0 => made; made; made; made
packets => 0
take; run; settle => made; ran; made
collect 1 => 1.1 at 1.1 +OK|
ask 1 GET a => 1.2 at 2.0 $1|3|
ask 1 GET c => 1.3 at 3.1 $1|2|",
};

/// The same request starves: neither of its keys is there then. Its stamp counts.
const STARVING: Row = Row {
    shards: 2,
    max_steps: 1000,
    script: "open => opened 1
submit 1 MSET a 1 c 2 a 3 => submitted 1.1
deliver 0; deliver 0; deliver 0; deliver 0 => made; made; made; made
take => made
run 1.1 => ran, starved 1.1
starved => 1: 1.1
settle => made
rows => 0
collect 1 => 1.1 at 1.1 -ERR out of memory|
ask 1 GET a => 1.2 at 2.0 $-1|
ask 1 GET c => 1.3 at 3.1 $-1|
rows => 2
row 0 => 1.2 at 2.0 GET a $-1|
starved => 1: 1.1",
};

/// A request of three of four groups. No packet of it comes to the fourth, whose clock is still 0 behind it.
const THREE_OF_FOUR: Row = Row {
    shards: 4,
    max_steps: 1000,
    script: "open => opened 1
ask 1 SADD a m => 1.1 at 1.0 :1|
ask 1 SADD b n => 1.2 at 2.1 :1|
ask 1 SET z old => 1.3 at 3.2 +OK|
submit 1 SINTERSTORE z a b => submitted 1.4
packets => 3
deliver 0 => made
packets => 4
deliver 0 => made
packets => 5
deliver 0 => made
packets => 6
deliver 0; deliver 0; deliver 0; deliver 0; deliver 0 => made; made; made; made; made
packets => 1
take => NoLayer
deliver 0 => made
packets => 0
take; run; settle => made; ran; made
collect 1 => 1.4 at 4.2 :0|
ask 1 EXISTS z => 1.5 at 5.2 :0|
open => opened 2
ask 2 SET d 1 => 2.1 at 1.3 +OK|",
};

/// A key lies where the part in its braces lies, if it has such a part. Each of the 64 shards has 16 slots: `a` has
/// slot 140, the key with nothing between its braces 396, and the one with no closing brace 33.
const TAGS: Row = Row {
    shards: 64,
    max_steps: 1000,
    script: "open => opened 1
submit 1 MSET {a}1 v x{a} w => submitted 1.1
packets => 1
deliver 0; take; run; settle => made; made; ran; made
collect 1 => 1.1 at 1.8 +OK|
ask 1 SET {}a v => 1.2 at 2.24 +OK|
ask 1 SET {a v => 1.3 at 3.2 +OK|
ask 1 MGET {a}1 a x{a} => 1.4 at 4.8 *3|$1|v|$-1|$1|w|",
};

/// A request of all groups meets one of the second group, which comes there first.
const ALL_GROUPS_BEHIND: Row = Row {
    shards: 2,
    max_steps: 1000,
    script: "open; open => opened 1; opened 2
submit 1 FLUSHALL; submit 2 SET c 2 => submitted 1.1; submitted 2.1
packets => 3
deliver 2 => made
packets => 2
deliver 0 => made
packets => 2
deliver 0 => made
packets => 2
deliver 0; deliver 0 => made; made
take; run; settle => made; ran; made
rows => 1
row 0 => 2.1 at 1.1 SET c 2 +OK|
take; run; settle => made; ran; made
rows => 2
row 1 => 1.1 at 2.1 FLUSHALL +OK|
take => NoLayer
collect 1 => 1.1 at 2.1 +OK|
collect 2 => 2.1 at 1.1 +OK|
ask 2 DBSIZE => 2.2 at 3.1 :0|",
};

/// The same, but it comes there first itself: the other one waits behind it.
const ALL_GROUPS_BEFORE: Row = Row {
    shards: 2,
    max_steps: 1000,
    script: "open; open => opened 1; opened 2
submit 1 FLUSHALL; submit 2 SET c 2 => submitted 1.1; submitted 2.1
deliver 1 => made
packets => 3
deliver 1 => made
packets => 2
take => NoLayer
deliver 0 => made
packets => 2
take => NoLayer
deliver 0; deliver 0 => made; made
packets => 0
take; run; settle => made; ran; made
rows => 1
row 0 => 1.1 at 1.1 FLUSHALL +OK|
take; run; settle => made; ran; made
rows => 2
row 1 => 2.1 at 2.1 SET c 2 +OK|
collect 1 => 1.1 at 1.1 +OK|
collect 2 => 2.1 at 2.1 +OK|
ask 2 DBSIZE => 2.2 at 3.1 :1|",
};

/// Two requests that share no group are one layer.
const LAYER_OF_TWO: Row = Row {
    shards: 2,
    max_steps: 1000,
    script: "open; open => opened 1; opened 2
submit 1 SET a 1; submit 2 SET c 2 => submitted 1.1; submitted 2.1
deliver 0; deliver 0 => made; made
take; run; settle => made; ran; made
take => NoLayer
rows => 2
row 0 => 1.1 at 1.0 SET a 1 +OK|
row 1 => 2.1 at 1.1 SET c 2 +OK|
collect 1 => 1.1 at 1.0 +OK|
collect 2 => 2.1 at 1.1 +OK|",
};

/// The same where one of them names 10,000 members of sets, so that several workers have one each.
const LAYER_OF_LARGE_SETS: Row = Row {
    shards: 2,
    max_steps: 1000,
    script: "open; open => opened 1; opened 2
ask 1 SADD x 00..99 => 1.1 at 1.1 :100|
submit 1 SET a 1; submit 2 EXISTS x*100 => submitted 1.2; submitted 2.1
deliver 0; deliver 0 => made; made
take; run; settle => made; ran; made
take => NoLayer
rows => 3
row 1 => 1.2 at 2.0 SET a 1 +OK|
collect 1 => 1.2 at 2.0 +OK|
collect 2 => 2.1 at 2.1 :100|
ask 1 GET a => 1.3 at 3.0 $1|1|
ask 1 SCARD x => 1.4 at 4.1 :100|",
};

/// Of such a layer the second starves.
const LARGE_SETS_STARVE: Row = Row {
    shards: 2,
    max_steps: 1000,
    script: "open; open => opened 1; opened 2
ask 1 SADD x 00..99 => 1.1 at 1.1 :100|
submit 1 SET a 1; submit 2 SUNIONSTORE z x*100 => submitted 1.2; submitted 2.1
deliver 0; deliver 0 => made; made
take; run 2.1; settle => made; ran, starved 2.1; made
starved => 1: 2.1
rows => 2
collect 1 => 1.2 at 2.0 +OK|
collect 2 => 2.1 at 2.1 -ERR out of memory|
ask 1 EXISTS z => 1.3 at 3.1 :0|",
};

/// Of such a layer one worker has two requests of one group, and the other the one that names sets; then comes one of both
/// groups.
const LARGE_RUNS: Row = Row {
    shards: 2,
    max_steps: 1000,
    script: "open; open; open; open => opened 1; opened 2; opened 3; opened 4
ask 1 SADD x 00..99 => 1.1 at 1.1 :100|
submit 1 SET a 1; submit 2 INCR a => submitted 1.2; submitted 2.1
submit 3 SUNIONSTORE z x*100; submit 4 SDIFF z x a => submitted 3.1; submitted 4.1
packets => 5
drain => 7
take; run; settle => made; ran; made
rows => 4
row 1 => 1.2 at 2.0 SET a 1 +OK|
row 3 => 2.1 at 3.0 INCR a :2|
take; run; settle => made; ran; made
rows => 5
quiet => true
collect 1 => 1.2 at 2.0 +OK|
collect 2 => 2.1 at 3.0 :2|
collect 3 => 3.1 at 2.1 :100|
collect 4 => 4.1 at 4.0 -WRONGTYPE Operation against a key holding the wrong kind of value|
ask 1 SCARD z => 1.3 at 5.1 :100|",
};

/// Requests of one group are taken together with the ready one that they stand behind, but not past one of two groups.
const RUNS: Row = Row {
    shards: 2,
    max_steps: 1000,
    script: "open; open; open => opened 1; opened 2; opened 3
open; open => opened 4; opened 5
submit 1 SET a 1; submit 2 INCR a => submitted 1.1; submitted 2.1
submit 3 MSET a 5 c 6; submit 4 GET a; submit 5 SET c 9 => submitted 3.1; submitted 4.1; submitted 5.1
packets => 6
deliver 0; deliver 0; deliver 0; deliver 0 => made; made; made; made
deliver 0; deliver 0; deliver 0; deliver 0 => made; made; made; made
packets => 0
take; run; settle => made; ran; made
rows => 3
row 0 => 1.1 at 1.0 SET a 1 +OK|
row 1 => 2.1 at 2.0 INCR a :2|
row 2 => 5.1 at 2.1 SET c 9 +OK|
take; run; settle => made; ran; made
rows => 4
row 3 => 3.1 at 3.0 MSET a 5 c 6 +OK|
take; run; settle => made; ran; made
rows => 5
row 4 => 4.1 at 4.0 GET a $1|5|
take => NoLayer
quiet => true
collect 1 => 1.1 at 1.0 +OK|
collect 2 => 2.1 at 2.0 :2|
collect 3 => 3.1 at 3.0 +OK|
collect 4 => 4.1 at 4.0 $1|5|
collect 5 => 5.1 at 2.1 +OK|
ask 1 GET a => 1.2 at 5.0 $1|5|
ask 1 GET c => 1.3 at 6.1 $1|6|",
};

/// One of the two starves, and an id that is none of the layer's changes nothing.
const ONE_OF_TWO_STARVES: Row = Row {
    shards: 2,
    max_steps: 1000,
    script: "open; open => opened 1; opened 2
submit 1 SET a 1; submit 2 SET c 2 => submitted 1.1; submitted 2.1
deliver 0; deliver 0 => made; made
take; run 9.9 1.1; settle => made; ran, starved 1.1; made
starved => 1: 1.1
rows => 1
row 0 => 2.1 at 1.1 SET c 2 +OK|
collect 1 => 1.1 at 1.0 -ERR out of memory|
collect 2 => 2.1 at 1.1 +OK|
ask 1 GET a => 1.2 at 2.0 $-1|",
};

/// A connection is closed while its request is under way: the request is run and has its row, and nobody gets its
/// reply.
const CLOSED_UNDER_WAY: Row = Row {
    shards: 2,
    max_steps: 1000,
    script: "open => opened 1
submit 1 SET a 1 => submitted 1.1
close 1 => made
deliver 0; take; run; settle => made; made; ran; made
rows => 1
row 0 => 1.1 at 1.0 SET a 1 +OK|
waits 1 => nothing
open => opened 2
submit 2 GET a => submitted 2.1
deliver 0; take; run; settle => made; made; ran; made
collect 2 => 2.1 at 2.0 $1|1|
collect 1 => NoConn",
};

/// What addresses no group is answered at once, with no packet and no stamp.
const NO_GROUP: Row = Row {
    shards: 2,
    max_steps: 1000,
    script: "open => opened 1
submit 1 PiNG => submitted 1.1
packets => 0
quiet => true
waits 1 => 1.1 +PONG|
collect 1 => 1.1 +PONG|
submit 1 FOO => submitted 1.2
packets => 0
collect 1 => 1.2 -ERR unknown command|
ask 1 SET a 1 => 1.3 at 1.0 +OK|
rows => 1",
};

/// A packet is repeated, and its copy comes once the request is delivered, behind the connection's next one: it is left
/// out, and the group's clock stays at 2.
const REPEATED: Row = Row {
    shards: 2,
    max_steps: 1000,
    script: "open => opened 1
submit 1 SET a 1 => submitted 1.1
repeat 0 => made
packets => 2
deliver 0 => made
packets => 1
take; run; settle => made; ran; made
collect 1 => 1.1 at 1.0 +OK|
submit 1 SET a 2 => submitted 1.2
packets => 2
deliver 1 => made
packets => 1
deliver 0 => made
packets => 0
take; run; settle => made; ran; made
collect 1 => 1.2 at 2.0 +OK|
steps => 15
rows => 2
row 0 => 1.1 at 1.0 SET a 1 +OK|
row 1 => 1.2 at 2.0 SET a 2 +OK|
take => NoLayer
quiet => true
ask 1 GET a => 1.3 at 3.0 $1|2|",
};

/// The crossing requests; each packet is repeated before it comes. The copies come at the end, and are left out.
const CROSSING_BEFORE_COPIES: Row = Row {
    shards: 2,
    max_steps: 1000,
    script: "open; open => opened 1; opened 2
submit 1 MSET a 1 c 2; submit 2 MSET a 3 c 4 => submitted 1.1; submitted 2.1
packets => 4
repeat 0; deliver 0 => made; made
repeat 2; deliver 2 => made; made
repeat 1; deliver 1 => made; made
repeat 0; deliver 0 => made; made
packets => 8
repeat 1; deliver 1 => made; made
repeat 2; deliver 2 => made; made
repeat 3; deliver 3 => made; made
take => NoLayer
repeat 4; deliver 4 => made; made
packets => 8
take; run; settle => made; ran; made
rows => 1
row 0 => 2.1 at 2.0 MSET a 3 c 4 +OK|
waits 2 => 2.1 at 2.0 +OK|
waits 1 => nothing
take; run; settle => made; ran; made
rows => 2
row 1 => 1.1 at 2.1 MSET a 1 c 2 +OK|
take => NoLayer
quiet => false
drain => 8
packets => 0
take => NoLayer
quiet => true
rows => 2
collect 1 => 1.1 at 2.1 +OK|
collect 2 => 2.1 at 2.0 +OK|
starved => 0:
ask 1 GET a => 1.2 at 3.0 $1|1|
ask 1 GET c => 1.3 at 4.1 $1|2|",
};

/// The same, but each copy comes at once behind its packet, most of them while the requests are open.
const CROSSING_AMONG_COPIES: Row = Row {
    shards: 2,
    max_steps: 1000,
    script: "open; open => opened 1; opened 2
submit 1 MSET a 1 c 2; submit 2 MSET a 3 c 4 => submitted 1.1; submitted 2.1
repeat 0; deliver 0; deliver 3 => made; made; made
repeat 2; deliver 2; deliver 3 => made; made; made
repeat 1; deliver 1; deliver 3 => made; made; made
repeat 0; deliver 0; deliver 3 => made; made; made
packets => 4
repeat 0; deliver 0; deliver 3 => made; made; made
repeat 0; deliver 0; deliver 2 => made; made; made
repeat 0; deliver 0; deliver 1 => made; made; made
packets => 1
take => NoLayer
repeat 0; deliver 0; deliver 0 => made; made; made
packets => 0
take; run; settle => made; ran; made
rows => 1
row 0 => 2.1 at 2.0 MSET a 3 c 4 +OK|
take; run; settle => made; ran; made
rows => 2
row 1 => 1.1 at 2.1 MSET a 1 c 2 +OK|
take => NoLayer
quiet => true
collect 1 => 1.1 at 2.1 +OK|
collect 2 => 2.1 at 2.0 +OK|
ask 1 GET a => 1.2 at 3.0 $1|1|
ask 1 GET c => 1.3 at 4.1 $1|2|",
};

/// A proposal comes before its Start; each packet is repeated before it comes, and the copies come at the end.
const PROPOSAL_FIRST_BEFORE_COPIES: Row = Row {
    shards: 2,
    max_steps: 1000,
    script: "open => opened 1
submit 1 MSET a 1 c 2 => submitted 1.1
repeat 0; deliver 0 => made; made
packets => 3
repeat 2; deliver 2 => made; made
packets => 3
take => NoLayer
repeat 0; deliver 0 => made; made
packets => 4
take => NoLayer
repeat 3; deliver 3 => made; made
packets => 4
take; run; settle => made; ran; made
row 0 => 1.1 at 1.1 MSET a 1 c 2 +OK|
collect 1 => 1.1 at 1.1 +OK|
quiet => false
drain => 4
packets => 0
take => NoLayer
quiet => true
rows => 1
ask 1 MGET a c => 1.2 at 2.1 *2|$1|1|$1|2|",
};

/// A copy is repeated too, and the last copy comes first: the request is executed once.
const COPY_OF_A_COPY: Row = Row {
    shards: 2,
    max_steps: 1000,
    script: "open => opened 1
submit 1 INCR a => submitted 1.1
repeat 0; repeat 1; repeat 2 => made; made; made
packets => 4
steps => 5
deliver 3 => made
packets => 3
take; run; settle => made; ran; made
collect 1 => 1.1 at 1.0 :1|
drain => 3
take => NoLayer
quiet => true
ask 1 INCR a => 1.2 at 2.0 :2|
rows => 2",
};

/// A copy comes once its connection is closed, beside another one's request.
const COPY_OF_A_CLOSED_CONNECTION: Row = Row {
    shards: 2,
    max_steps: 1000,
    script: "open => opened 1
submit 1 INCR a => submitted 1.1
repeat 0; close 1 => made; made
deliver 0; take; run; settle => made; made; ran; made
rows => 1
open => opened 2
submit 2 INCR a => submitted 2.1
packets => 2
deliver 0 => made
packets => 1
take => NoLayer
deliver 0; take; run; settle => made; made; ran; made
collect 2 => 2.1 at 2.0 :2|
quiet => true
rows => 2",
};

const ROWS: [Row; 26] = [
    CROSSING,
    LAYER_BY_LAYER,
    PROPOSAL_FIRST,
    LATE_WITH_A_SMALL_STAMP,
    FLOOR,
    RENAMING,
    SAME_KEY_TWICE,
    STARVING,
    THREE_OF_FOUR,
    TAGS,
    ALL_GROUPS_BEHIND,
    ALL_GROUPS_BEFORE,
    LAYER_OF_TWO,
    LAYER_OF_LARGE_SETS,
    LARGE_SETS_STARVE,
    LARGE_RUNS,
    RUNS,
    ONE_OF_TWO_STARVES,
    CLOSED_UNDER_WAY,
    NO_GROUP,
    REPEATED,
    CROSSING_BEFORE_COPIES,
    CROSSING_AMONG_COPIES,
    PROPOSAL_FIRST_BEFORE_COPIES,
    COPY_OF_A_COPY,
    COPY_OF_A_CLOSED_CONNECTION,
];

#[test]
fn scripts_are_answered_in_turn(rt: HostRuntime) -> Result<(), Fail> {
    for number in [1, 2, 8] {
        let number = NonZeroUsize::new(number).ok_or("a number of workers")?;
        follow_rows(&rt, rt.alloc(), &ROWS, &InTurn(number))?;
    }
    Ok(())
}

#[test]
fn scripts_are_answered_on_threads(rt: HostRuntime) -> Result<(), Fail> {
    for number in [1, 2, 8] {
        let number = NonZeroUsize::new(number).ok_or("a number of workers")?;
        follow_rows(&rt, rt.alloc(), &ROWS, &Crew::new(&rt, number))?;
    }
    Ok(())
}
