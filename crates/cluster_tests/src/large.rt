//! Sizes above which a server could give up: requests of many words, many reads and writes, a layer of many requests, and
//! many connections.

use crate::crowd::Host;
use crate::faults::comes;
use crate::naming::with_cluster;
use crate::replaying::replays;
use crate::visit::Connection;
use std::alloc::{AllocError, Global};
use std::test::Fail;
use test_support::{bytes_of, requests_of};

/// A connection sends the requests of this row and gets just these replies, in pieces of so many bytes.
fn comes_of_row(
    rt: &impl Host,
    alloc: Global,
    row: &str,
    piece: usize,
    replies: &str,
    script: &str,
) -> Result<(), Fail> {
    let sent = requests_of(alloc, row)?;
    let replies = bytes_of(alloc, replies)?;
    let connection = Connection::new(sent.as_slice(), piece);
    comes(rt, alloc, connection, script, replies.as_slice())
}

/// The first text, the second one so many times, and the third.
fn often(
    alloc: Global,
    first: &str,
    text: &str,
    times: usize,
    last: &str,
) -> Result<String, AllocError> {
    let mut all = String::from_str(alloc, first)?;
    for _ in 0..times {
        all.push_str(text)?;
    }
    all.push_str(last)?;
    Ok(all)
}

/// How many bytes a server reads at most at once.
const PIECE: usize = 64 * 1024;

/// Two requests come, and both are executed.
const TWO: &str = "serve => end 2
close => closed 2 2 0";

/// An MSET of 20,001 words, over two shards.
#[test]
fn a_request_of_20001_words(rt: HostRuntime) -> Result<(), Fail> {
    let row = often(rt.alloc(), "MSET", " a 1 c 2", 5000, "; MGET c a")?;
    comes_of_row(
        &rt,
        rt.alloc(),
        row.as_str(),
        PIECE,
        "+OK|*2|$1|2|$1|1|",
        TWO,
    )
}

/// An EXISTS of a million words, by which one key is counted 999,999 times.
#[test]
fn a_request_of_a_million_words(rt: HostRuntime) -> Result<(), Fail> {
    let row = often(rt.alloc(), "SET a 1; EXISTS", " a", 999_999, "")?;
    comes_of_row(&rt, rt.alloc(), row.as_str(), PIECE, "+OK|:999999|", TWO)
}

/// An ECHO of 200,000 bytes, of which one is read and one is written at once.
#[test]
fn many_reads_and_writes_of_one_byte(rt: HostRuntime) -> Result<(), Fail> {
    let row = often(rt.alloc(), "ECHO ", "x", 200_000, "")?;
    let replies = often(rt.alloc(), "$200000|", "x", 200_000, "|")?;
    let script = "serve => end 1\nclose => closed 1 0 0";
    comes_of_row(&rt, rt.alloc(), row.as_str(), 1, replies.as_str(), script)
}

/// 2,000 seats submit an increment of one key each. All are one layer. The seats collect the numbers from 1 on, in the
/// order in which they have submitted, and stand.
const AT_ONCE: &str = "2000 * sit; submit # INCR a => #; 1
drain => 2000
take; run; settle => 2000; 2000; settled
2000 * collect #; stand # => :#|; stood
close => closed 2000 2000 0";

/// For each of the seats an Open, a Submit, a Deliver, a Collect and a Close; and a Take, a Run and a Settle.
#[test]
fn a_layer_of_2000_requests(rt: HostRuntime) {
    with_cluster(&rt, rt.alloc(), 10_003, true, AT_ONCE);
}

/// So many seats sit and stand before the one that asks.
const LATE: &str = "120000 * sit; stand # => #; stood
sit; ask 120001 INCR a; stand 120001 => 120001; :1|; stood
close => closed 1 1 0";

/// A connection of a number above 100,000 is answered, and a trace of 240,008 steps is written, read and replayed: an Open
/// and a Close of each connection, and six of the request. More may be made.
#[test]
fn many_connections(rt: HostRuntime) -> Result<(), Fail> {
    let left = with_cluster(&rt, rt.alloc(), 250_000, true, LATE);
    replays(
        rt.alloc(),
        left.trace.as_slice(),
        1,
        b"key 61 string 31\nagree\n",
    )
}
