//! Traces on two shards, and their reports. `a` (61) lies on shard 0, and `c` (63) and `x` (78) on shard 1.

use std::alloc::{AllocError, Global};
use test_support::trace;

/// A trace's text, with what its test is told by, and the report that it has to have.
#[derive(Clone, Copy, Drop)]
pub(crate) struct Row {
    pub(crate) name: &'static str,
    pub(crate) trace: &'static str,
    pub(crate) report: &'static str,
}

/// The report of the crossing requests.
const CROSSED: &str = "row 2.0 2.1 mset 2b4f4b0d0a
row 2.1 1.1 mset 2b4f4b0d0a
key 61 string 31
key 63 string 32
agree
";

/// MSET a 1 c 2 and MSET a 3 c 4 cross: each comes to another group first.
pub(crate) const CROSSING: Row = Row {
    name: "crossing",
    trace: test_support::CROSSING,
    report: CROSSED,
};

/// MSET a 1 c 2 starves, and GET a finds nothing.
pub(crate) const STARVED: Row = Row {
    name: "starved",
    trace: test_support::STARVED,
    report: "row 2.0 1.2 get 242d310d0a
starved 1.1
agree
",
};

/// FLUSHALL of all groups, behind SET c 2 at group 1; then DBSIZE.
pub(crate) const FLUSHED_BEHIND: Row = Row {
    name: "flushed behind",
    trace: trace!(
        {"shardkv-trace 1" "max 1000" "open" "open" "submit 1 464c555348414c4c"
         "submit 2 534554 63 32"}
        deliver 2 0 0 0 0
        {"take" "run" "settle" "take" "run" "settle" "collect 1" "collect 2"
         "submit 1 444253495a45"}
        deliver 0 0 0 0
        {"take" "run" "settle" "collect 1" "end 26"}
    ),
    report: "row 1.1 2.1 set 2b4f4b0d0a
row 2.1 1.1 flushall 2b4f4b0d0a
row 3.1 1.2 dbsize 3a300d0a
agree
",
};

/// The same, but FLUSHALL comes to group 1 first, and SET c 2 waits behind it.
pub(crate) const FLUSHED_BEFORE: Row = Row {
    name: "flushed before",
    trace: trace!(
        {"shardkv-trace 1" "max 1000" "open" "open" "submit 1 464c555348414c4c"
         "submit 2 534554 63 32"}
        deliver 1 1 0 0 0
        {"take" "run" "settle" "take" "run" "settle" "collect 1" "collect 2"
         "submit 1 444253495a45"}
        deliver 0 0 0 0
        {"take" "run" "settle" "collect 1" "end 26"}
    ),
    report: "row 1.1 1.1 flushall 2b4f4b0d0a
row 2.1 2.1 set 2b4f4b0d0a
row 3.1 1.2 dbsize 3a310d0a
key 63 string 32
agree
",
};

/// SET c 9 is executed last and has the second stamp.
pub(crate) const LATE_WITH_A_SMALL_STAMP: Row = Row {
    name: "late with a small stamp",
    trace: trace!(
        {"shardkv-trace 1" "max 1000" "open" "open" "submit 1 534554 61 31"}
        deliver 0
        {"take" "run" "settle" "collect 1" "submit 1 534554 61 32"}
        deliver 0
        {"take" "run" "settle" "collect 1" "submit 1 534554 61 33"}
        deliver 0
        {"take" "run" "settle" "collect 1" "submit 2 534554 63 39"}
        deliver 0
        {"take" "run" "settle" "collect 2" "end 26"}
    ),
    report: "row 1.0 1.1 set 2b4f4b0d0a
row 1.1 2.1 set 2b4f4b0d0a
row 2.0 1.2 set 2b4f4b0d0a
row 3.0 1.3 set 2b4f4b0d0a
key 61 string 33
key 63 string 39
agree
",
};

/// SET a 1 and SET c 2 are one layer.
pub(crate) const LAYER_OF_TWO: Row = Row {
    name: "layer of two",
    trace: trace!(
        {"shardkv-trace 1" "max 1000" "open" "open" "submit 1 534554 61 31"
         "submit 2 534554 63 32"}
        deliver 0 0
        {"take" "run" "settle" "collect 1" "collect 2" "end 11"}
    ),
    report: "row 1.0 1.1 set 2b4f4b0d0a
row 1.1 2.1 set 2b4f4b0d0a
key 61 string 31
key 63 string 32
agree
",
};

/// Adds the numbers of two digits, each with a blank before it.
fn push_numbers(text: &mut String) -> Result<(), AllocError> {
    for number in 0..100u32 {
        write!(text, " 3{}3{}", number / 10, number % 10)?;
    }
    Ok(())
}

/// Adds `x` a hundred times, each with a blank before it.
fn push_names(text: &mut String) -> Result<(), AllocError> {
    for _ in 0..100u32 {
        text.push_str(" 78")?;
    }
    Ok(())
}

/// SADD x 00 .. 99. Then SET a 1, and EXISTS with x a hundred times, are one layer, which names 10,000 members of sets: so
/// several workers have a request each.
pub(crate) fn large_trace(alloc: Global) -> Result<String, AllocError> {
    let mut text = String::from_str(
        alloc,
        "shardkv-trace 1
max 1000
open
open
submit 1 53414444 78",
    )?;
    push_numbers(&mut text)?;
    text.push_str(
        "
deliver 0
take
run
settle
collect 1
submit 1 534554 61 31
submit 2 455849535453",
    )?;
    push_names(&mut text)?;
    text.push_str(
        "
deliver 0
deliver 0
take
run
settle
collect 1
collect 2
end 17
",
    )?;
    Ok(text)
}

/// Its report.
pub(crate) fn large_report(alloc: Global) -> Result<String, AllocError> {
    let mut text = String::from_str(
        alloc,
        "row 1.1 1.1 sadd 3a3130300d0a
row 2.0 1.2 set 2b4f4b0d0a
row 2.1 2.1 exists 3a3130300d0a
key 61 string 31
key 78 set",
    )?;
    push_numbers(&mut text)?;
    text.push_str("\nagree\n")?;
    Ok(text)
}

/// SET a 1 and SET c 2 are one layer; the second starves, and the line `run` names a request of no layer too.
pub(crate) const SECOND_OF_TWO_STARVES: Row = Row {
    name: "second of two starves",
    trace: trace!(
        {"shardkv-trace 1" "max 1000" "open" "open" "submit 1 534554 61 31"
         "submit 2 534554 63 32"}
        deliver 0 0
        {"take" "run 7.1 2.1" "settle" "collect 1" "collect 2" "end 11"}
    ),
    report: "row 1.0 1.1 set 2b4f4b0d0a
starved 2.1
key 61 string 31
agree
",
};

/// The last layer was run and isn't settled.
pub(crate) const UNSETTLED: Row = Row {
    name: "unsettled",
    trace: trace!(
        {"shardkv-trace 1" "max 5" "open" "submit 1 534554 61 31"}
        deliver 0
        {"take" "run" "end 5"}
    ),
    report: "row 1.0 1.1 set 2b4f4b0d0a
key 61 string 31
agree
",
};

/// Nothing happens.
pub(crate) const NO_STEP: Row = Row {
    name: "no step",
    trace: trace!(
        {"shardkv-trace 1" "max 1" "end 0"}
    ),
    report: "agree
",
};

/// SET a 1 is repeated under way, and its copy comes behind SET a 2 of the same connection: it is left out.
pub(crate) const REPEATED: Row = Row {
    name: "repeated",
    trace: trace!(
        {"shardkv-trace 2" "max 50" "open" "submit 1 534554 61 31" "repeat 0"}
        deliver 0
        {"take" "run" "settle" "collect 1" "submit 1 534554 61 32"}
        deliver 1 0
        {"take" "run" "settle" "collect 1" "end 15"}
    ),
    report: "row 1.0 1.1 set 2b4f4b0d0a
row 2.0 1.2 set 2b4f4b0d0a
key 61 string 32
agree
",
};

/// The crossing requests, each of whose packets is repeated before it comes. The copies are under way at the end.
pub(crate) const CROSSING_BEFORE_COPIES: Row = Row {
    name: "crossing before copies",
    trace: trace!(
        {"shardkv-trace 2" "max 1000" "open" "open" "submit 1 4d534554 61 31 63 32"
         "submit 2 4d534554 61 33 63 34" "repeat 0"}
        deliver 0
        {"repeat 2"}
        deliver 2
        {"repeat 1"}
        deliver 1
        {"repeat 0"}
        deliver 0
        {"repeat 1"}
        deliver 1
        {"repeat 2"}
        deliver 2
        {"repeat 3"}
        deliver 3
        {"repeat 4"}
        deliver 4
        {"take" "run" "settle" "take" "run" "settle" "collect 1" "collect 2" "end 28"}
    ),
    report: CROSSED,
};

/// A list of SET a 1, LPUSH a x and INCR c, which is run over both shards; the third member starves.
pub(crate) const MEMBER_STARVED: Row = Row {
    name: "a member starved",
    trace: trace!(
        {"shardkv-trace 3" "max 1000" "open" "submit 1 4d554c5449" "collect 1"
         "submit 1 534554 61 31" "collect 1" "submit 1 4c50555348 61 78" "collect 1"
         "submit 1 494e4352 63" "collect 1" "submit 1 45584543"}
        deliver 0 0 0 0
        {"take" "run 1.5.3" "settle" "collect 1" "end 18"}
    ),
    report: "row 1.1 1.5 exec 2a330d0a2b4f4b0d0a2d57524f4e4754595045204f7065726174696f6e20616761696e73742061206b657920686f6c64696e67207468652077726f6e67206b696e64206f662076616c75650d0a2d455252206f7574206f66206d656d6f72790d0a
starved 1.5.3
key 61 string 31
agree
",
};

/// A list of SET a 1 and INCR c crosses MSET a 3 c 4: each comes to another group first.
pub(crate) const TRANSACTION: Row = Row {
    name: "transaction",
    trace: trace!(
        {"shardkv-trace 3" "max 1000" "open" "open" "submit 1 4d554c5449" "collect 1"
         "submit 1 534554 61 31" "collect 1" "submit 1 494e4352 63" "collect 1"
         "submit 1 45584543" "submit 2 4d534554 61 33 63 34"}
        deliver 0 2 1 0 0 0 0 0
        {"take" "run" "settle" "take" "run" "settle" "collect 1" "collect 2" "end 26"}
    ),
    report: "row 2.0 2.1 mset 2b4f4b0d0a
row 2.1 1.4 exec 2a320d0a2b4f4b0d0a3a350d0a
key 61 string 31
key 63 string 35
agree
",
};

/// SET a 1, DBSIZE and FLUSHALL in a list, of which the last starves; then a list that is spoilt.
pub(crate) const ALL_KEYS: Row = Row {
    name: "all keys in a list",
    trace: trace!(
        {"shardkv-trace 3" "max 50" "open" "submit 1 4d554c5449" "collect 1"
         "submit 1 534554 61 31" "collect 1" "submit 1 444253495a45" "collect 1"
         "submit 1 464c555348414c4c" "collect 1" "submit 1 45584543"}
        deliver 0 0 0 0
        {"take" "run 1.5.3" "settle" "collect 1" "submit 1 4d554c5449" "collect 1"
         "submit 1 464f4f" "collect 1" "submit 1 45584543" "collect 1" "end 24"}
    ),
    report: "row 1.1 1.5 exec 2a330d0a2b4f4b0d0a3a310d0a2d455252206f7574206f66206d656d6f72790d0a
starved 1.5.3
key 61 string 31
agree
",
};

/// In a text of version 2 MULTI and EXEC were unknown commands, and are so still.
pub(crate) const UNKNOWN_IN_TWO: Row = Row {
    name: "unknown in version 2",
    trace: trace!(
        {"shardkv-trace 2" "max 50" "open" "submit 1 4d554c5449" "collect 1"
         "submit 1 534554 61 31"}
        deliver 0
        {"take" "run" "settle" "collect 1" "submit 1 65786563" "collect 1" "end 11"}
    ),
    report: "row 1.0 1.2 set 2b4f4b0d0a
key 61 string 31
agree
",
};
