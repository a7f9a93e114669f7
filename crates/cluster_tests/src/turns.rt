//! A cluster and a store used by one thread.

use crate::naming::{MOST, with_cluster};

/// Two seats ask in turn, and the second stands with a request under way.
const TWO_SEATS: &str = "sit; sit => 1; 2
ask 1 SET a 1 => +OK|
ask 2 GET a => $1|1|
ask 1 MSET a 2 c 3 => +OK|
ask 2 MGET c a => *2|$1|3|$1|2|
ask 2 PING => +PONG|
ask 2 FOO => -ERR unknown command|
submit 2 INCR a; requests 2; reply 2 => 5; 5; :3|
close => SeatsOut
stand 1 => stood
submit 2 GET a; stand 2 => 6; stood
close => NotQuiet
rest => 2
close => closed 8 6 0";

#[test]
fn seats_ask_and_stand(rt: HostRuntime) {
    for keeps in [false, true] {
        with_cluster(&rt, rt.alloc(), MOST, keeps, TWO_SEATS);
    }
}
