//! The rows of the tests, as the bytes that a client sends.

use std::test::Fail;
use test_support::{bytes_of, requests_of, same_bytes};

#[test]
fn requests_are_written_as_arrays(rt: HostRuntime) -> Result<(), Fail> {
    let sent = requests_of(rt.alloc(), "SET a ''; PING")?;
    let want = bytes_of(rt.alloc(), "*3|$3|SET|$1|a|$0||*1|$4|PING|")?;
    same_bytes("SET a ''; PING", &sent, &want)
}
