//! What is written and counted where a read or a write of one connection fails, at a desk of a shared cluster.

use crate::crowd::Host;
use crate::naming::{Course, MOST, with_shared};
use crate::visit::Connection;
use std::alloc::Global;
use std::test::Fail;
use test_support::{bytes_of, requests_of, same_bytes};

/// Follows a script that serves a connection over a new cluster, which keeps no trace. These replies are written.
pub(crate) fn comes(
    rt: &impl Host,
    alloc: Global,
    connection: Connection<'_>,
    script: &str,
    replies: &[u8],
) -> Result<(), Fail> {
    let course = Course {
        connection,
        ..Course::SCRIPT
    };
    let written = with_shared(rt, alloc, MOST, false, &course, script);
    same_bytes("the replies", written.as_slice(), replies)
}

/// What a connection sends, and the replies to it.
const ASKED: &str = "SET a 1; PING; MSET a 2 c 3; FOO; MGET c a";

const REPLIES: &str = "+OK|+PONG|+OK|-ERR unknown command|*2|$1|3|$1|2|";

/// Behind some whole requests: how many bytes they have, how many the replies to them have, how many they are, and how
/// many of them are executed at a shard.
#[derive(Clone, Copy)]
struct Place {
    sent: usize,
    replied: usize,
    requests: u64,
    executed: u64,
}

#[rattlefmt::skip]
const PLACES: [Place; 6] = [
    Place { sent: 0, replied: 0, requests: 0, executed: 0 },
    Place { sent: 27, replied: 5, requests: 1, executed: 1 },
    Place { sent: 41, replied: 12, requests: 2, executed: 1 },
    Place { sent: 83, replied: 17, requests: 3, executed: 2 },
    Place { sent: 96, replied: 39, requests: 4, executed: 2 },
    ALL,
];

const ALL: Place = Place {
    sent: 124,
    replied: 57,
    requests: 5,
    executed: 3,
};

/// Behind the last request that is whole within so many bytes.
fn behind_sent(sent: usize) -> Place {
    let mut last = PLACES[0];
    for place in PLACES {
        if place.sent <= sent {
            last = place;
        }
    }
    last
}

/// Behind the first request whose reply has more than so many bytes been written of, with those before it.
fn behind_replied(replied: usize) -> Place {
    for place in PLACES {
        if replied < place.replied {
            return place;
        }
    }
    ALL
}

/// A connection that sends all ends so, behind these requests, with so many bytes of the replies written.
fn ends(
    rt: &impl Host,
    alloc: Global,
    connection: Connection<'_>,
    ended: &str,
    place: Place,
    written: usize,
) -> Result<(), Fail> {
    let (requests, executed) = (place.requests, place.executed);
    let served = format!(in alloc; "serve => {ended} {requests}")?;
    let script = format!(in alloc; "{served}\nclose => closed {requests} {executed} 0")?;
    let replies = bytes_of(alloc, REPLIES)?;
    let written = replies.get(..written).ok_or("so many bytes")?;
    comes(rt, alloc, connection, script.as_str(), written)
}

/// Each read of so many bytes fails, until there is none more: just the replies to the requests stand that were read whole.
fn reads_fail(rt: &impl Host, alloc: Global, piece: usize) -> Result<(), Fail> {
    let sent = requests_of(alloc, ASKED)?;
    for read in 0..1000usize {
        let given = read.saturating_mul(piece);
        let fails = given < ALL.sent.saturating_add(piece);
        let place = behind_sent(given);
        let connection = Connection {
            read,
            most: 100,
            ..Connection::new(sent.as_slice(), piece)
        };
        let ended = if fails { "read" } else { "end" };
        ends(rt, alloc, connection, ended, place, place.replied)?;
        if !fails {
            return Ok(());
        }
    }
    Err("reads fail on and on".into())
}

/// Reads of one byte and of ten fail.
#[test]
fn whole_replies_stand_behind_a_failing_read(rt: HostRuntime) -> Result<(), Fail> {
    reads_fail(&rt, rt.alloc(), 1)?;
    reads_fail(&rt, rt.alloc(), 10)
}

/// Each write of so many bytes fails, until there is none more: a beginning of the replies stands, and no more was asked
/// than the request whose reply that write was of, or all that was read with it.
fn writes_fail(rt: &impl Host, alloc: Global, piece: usize, most: usize) -> Result<(), Fail> {
    let sent = requests_of(alloc, ASKED)?;
    for write in 0..1000usize {
        let taken = write.saturating_mul(most);
        let fails = taken < ALL.replied;
        let place = if piece == 1 {
            behind_replied(taken)
        } else {
            ALL
        };
        let connection = Connection {
            write,
            most,
            ..Connection::new(sent.as_slice(), piece)
        };
        let ended = if fails { "write" } else { "end" };
        ends(rt, alloc, connection, ended, place, taken.min(ALL.replied))?;
        if !fails {
            return Ok(());
        }
    }
    Err("writes fail on and on".into())
}

/// Writes of one byte fail where one is read at once, and of three where all is.
#[test]
fn a_beginning_stands_behind_a_failing_write(rt: HostRuntime) -> Result<(), Fail> {
    writes_fail(&rt, rt.alloc(), 1, 1)?;
    writes_fail(&rt, rt.alloc(), 1000, 3)
}

/// PING, and the first five bytes of another PING.
const ONE_AND_A_BIT: &[u8] = b"*1\r\n$4\r\nPING\r\n*1\r\n$";

#[test]
fn half_a_request_has_no_reply(rt: HostRuntime) -> Result<(), Fail> {
    let connection = Connection {
        read: 1,
        ..Connection::new(ONE_AND_A_BIT, 100)
    };
    let script = "serve => read 1\nclose => closed 1 0 0";
    comes(&rt, rt.alloc(), connection, script, b"+PONG\r\n")
}

#[test]
fn half_a_reply_is_written(rt: HostRuntime) -> Result<(), Fail> {
    let connection = Connection {
        write: 1,
        most: 3,
        ..Connection::new(ONE_AND_A_BIT, 100)
    };
    let script = "serve => write 1\nclose => closed 1 0 0";
    comes(&rt, rt.alloc(), connection, script, b"+PO")
}
