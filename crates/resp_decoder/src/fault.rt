//! What ends the reading of requests, and the line that tells a client so.
//!
//! The texts are this project's own, in the form that RESP2 gives error replies.

ghost use Rattle.std.specs.Prelude.{◌≡◌, ◌<◌, ◌+◌, ◌++◌, length, vec_len, vec_capacity, OnOk, OnErr};
ghost use Rattle.resp_decoder.specs.FaultText.{fault_text};

use std::alloc::AllocError;
use thiserror::Error;

/// Why no request can be read. The first four are faults of the bytes, told by the place of the first byte that
/// no lawful request text has there; they have the numbers 1 to 4, and want of memory has 5.
#[derive(Clone, Copy, Debug, PartialEq, Eq, Error)]
pub enum Fault {
    /// 1: another byte than `*` begins a request.
    #[error("expected '*'")]
    ExpectedStar,
    /// 2: another byte than `$` begins a word.
    #[error("expected '$'")]
    ExpectedDollar,
    /// 3: a wrong byte in a count or a length, or in the line's end behind it.
    #[error("invalid length")]
    BadLength,
    /// 4: a wrong byte in the line's end behind a word's bytes.
    #[error("expected CRLF")]
    ExpectedCrlf,
    /// 5: no memory was left.
    #[error("out of memory")]
    Memory,
}

/// Appends the error line of a fault, which ends a connection. With `AllocError`, where the room of `out` is less than
/// the line needs and there is no memory for more, `out` is as it was.
pub fn fault_line(fault: Fault, out: &mut Vec<u8>) -> Result<(), AllocError>
    ensures ok { OnOk result (out.new.items ≡ out.old.items ++ fault_text fault) }
    ensures err { OnErr result (out.new.items ≡ out.old.items) }
    ensures full { OnErr result (vec_capacity out.old < vec_len out.old + length (fault_text fault)) }
{
    match fault {
        Fault::ExpectedStar => out.extend_from_slice(b"-ERR Protocol error: expected '*'\r\n")?,
        Fault::ExpectedDollar => out.extend_from_slice(b"-ERR Protocol error: expected '$'\r\n")?,
        Fault::BadLength => out.extend_from_slice(b"-ERR Protocol error: invalid length\r\n")?,
        Fault::ExpectedCrlf => out.extend_from_slice(b"-ERR Protocol error: expected CRLF\r\n")?,
        Fault::Memory => out.extend_from_slice(b"-ERR out of memory\r\n")?,
    }
    Ok(())
}
