//! Writing out what is gathered.

ghost use Rattle.std.specs.Prelude.{◌≡◌, ◌≤◌, length, drop, OnOk, OnErr};
ghost use Rattle.std.specs.Io.KnownBytes.{Appends, Keeps};
ghost use Rattle.serving.specs.Sent.{AppendsPart};

use std::io::{ErrorKind, Write};

/// A write failed or took nothing.
#[derive(Clone, Copy)]
pub(crate) struct Unsent;

/// Writes all of the bytes, or a beginning of them where a write fails. A write that was interrupted is tried again.
pub(crate) fn send<W: Write>(writer: &mut W, bytes: &[u8]) -> Result<(), Unsent>
    ensures ok { OnOk result (Appends (W.contents writer.old) (W.contents writer.new) bytes.now) }
    ensures err { OnErr result (AppendsPart (W.contents writer.old) (W.contents writer.new) bytes.now) }
{
    let mut rest = bytes;
    for _ in 0..u64::MAX {
        if rest.is_empty() {
            return flush(writer);
        }
        match writer.write(rest) {
            Ok(0) => return Err(Unsent),
            Ok(n) => rest = unwritten(rest, n),
            Err(e) => {
                if e.kind() != ErrorKind::Interrupted {
                    return Err(Unsent);
                }
            }
        }
    }
    Err(Unsent)
}

/// What is left of some bytes once the first `n` of them are written.
fn unwritten(bytes: &[u8], n: usize) -> &[u8]
    requires { n ≤ length bytes.now }
    ensures { result.now ≡ drop n bytes.now }
{
    &bytes[n..]
}

/// Has a writer that keeps bytes back pass them on, since a client may wait for them.
fn flush<W: Write>(writer: &mut W) -> Result<(), Unsent>
    ensures { Keeps (W.contents writer.old) (W.contents writer.new) }
{
    match writer.flush() {
        Ok(()) => Ok(()),
        Err(_) => Err(Unsent),
    }
}
