//! Lists of MULTI: of clients of a server.
//!
//! Of two shards `a` and `b` lie on the first, and `c` and `d` on the second.

use crate::clients::Act;
use crate::clients::Does::{Asks, Ends, Gets, Leaves};
use crate::ends::path_of;
use crate::hosting::{replay_trace, serve_acts};
use std::test::Fail;

/// Three clients: one has a list run whose requests come in pieces, one is answered within, and one leaves with its list
/// open.
#[rattlefmt::skip]
const CLIENTS: [Act<'static>; 15] = [
    (0, Asks("MULTI; SET a 1; INCR c")),
    (0, Gets("+OK|+QUEUED|+QUEUED|")),
    (1, Asks("INCR c; MULTI; SADD b m; SINTER b b; EXEC")),
    (1, Gets(":1|+OK|+QUEUED|+QUEUED|*2|:1|*1|$1|m|")),
    (2, Asks("MULTI; FLUSHALL")),
    (2, Gets("+OK|+QUEUED|")),
    (2, Leaves),
    (0, Asks("EXEC; EXEC")),
    (0, Gets("*2|+OK|:2|-ERR EXEC without MULTI|")),
    (1, Asks("MULTI; LPUSH a x; GET a; EXEC")),
    (1, Gets("+OK|+QUEUED|+QUEUED|*2|-WRONGTYPE Operation against a key holding the wrong kind of value|$1|1|")),
    (1, Asks("DBSIZE")),
    (1, Gets(":3|")),
    (1, Ends),
    (0, Ends),
];

/// What they leave.
const LEFT: &[u8] = b"key 61 string 31\nkey 62 set 6d\nkey 63 string 32\nagree\n";

/// Of 17 requests an INCR, three EXECs and a DBSIZE are executed. With several workers the EXEC with SINTER is brought on by the
/// thread that drives.
#[test]
fn clients_have_lists(rt: HostRuntime) -> Result<(), Fail> {
    let path = path_of(&rt, "lists")?;
    for workers in [1, 2] {
        let closed = "closed requests=17 executed=5 starved=0";
        serve_acts(&rt, workers, Some(path.as_str()), 3, &CLIENTS, closed)?;
        replay_trace(&rt, path.as_str(), 5, LEFT)?;
    }
    Ok(())
}
