//! The loop that serves one connection.

ghost use Rattle.std.specs.Prelude.{◌≡◌, None};
ghost use Rattle.serving.specs.Gathers.{AnswersHeld};
ghost use Rattle.serving.specs.Serves.{Serves};

use crate::door::Door;
use crate::gather::{Pause, gather};
use crate::outcome::{ServeFault, Served};
use crate::send::send;
use resp_decoder::{Decoder, Fault, Limits};
use std::alloc::Global;
use std::io::{ErrorKind, Read, Write};

/// How many bytes are read at most at once.
const PIECE: usize = 16 * 1024;

/// Serves one connection: reads requests, has the door answer them one after another, and writes the replies in their
/// order.
///
/// Replies are gathered, and written before each read and when 64 KiB are gathered. A fault of the protocol is answered
/// by its error line, behind the replies to the requests before it, and ends the connection. What was read and written
/// with each outcome is said by `Serves`: after `Read` all replies are written, after `Write` a beginning of them,
/// after `Memory` all or all but the last, each whole, and after `Door` all to the requests before the one that the
/// door ended at. A read or write that was interrupted is tried again; a write that takes nothing is a failed one.
/// After 2^64 - 1 reads serving gives up by `Read`.
pub fn serve<R: Read, W: Write, D: Door>(
    alloc: Global,
    limits: Limits,
    reader: &mut R,
    writer: &mut W,
    door: &mut D,
) -> Result<Served, ServeFault<D::Reason>>
    ensures { Serves D.asks limits (R.remaining reader.old) (R.remaining reader.new)
        (W.contents writer.old) (W.contents writer.new) door.old door.new result }
{
    let Ok(mut buffer) = vec![in alloc; 0; PIECE] else {
        return Err(ServeFault::Memory);
    };
    let piece = buffer.as_mut_slice();
    let mut replies = Vec::new(alloc);
    let mut decoder = Decoder::new(alloc, limits);
    for _ in 0..u64::MAX {
        door.rest();
        let n = match reader.read(piece) {
            Ok(n) => n,
            Err(e) => {
                if e.kind() == ErrorKind::Interrupted {
                    continue;
                }
                return Err(ServeFault::Read);
            }
        };
        if n == 0 {
            return Ok(if decoder.pending() {
                Served::Inside
            } else {
                Served::End
            });
        }
        let Ok(()) = decoder.feed(&piece[..n]) else {
            return Err(ServeFault::Memory);
        };
        match answer_held(&mut decoder, door, &mut replies, writer) {
            Ok(fault) => {
                if let Some(fault) = fault {
                    return Ok(Served::Protocol(fault));
                }
            }
            Err(fault) => return Err(fault),
        }
    }
    Err(ServeFault::Read)
}

/// Answers the requests that the decoder holds, and writes the replies. The fault that was answered last, if there is
/// one.
fn answer_held<W: Write, D: Door>(
    decoder: &mut Decoder,
    door: &mut D,
    replies: &mut Vec<u8>,
    writer: &mut W,
) -> Result<Option<Fault>, ServeFault<D::Reason>>
    requires { decoder.old.held.fault ≡ None }
    ensures { AnswersHeld D.asks decoder.old.held decoder.new.held door.old door.new
        (W.contents writer.old) (W.contents writer.new) result }
{
    let mut told = 0;
    loop {
        let pause = gather(decoder, door, replies, &mut told);
        door.rest();
        let Ok(()) = send(writer, replies.as_slice()) else {
            return Err(ServeFault::Write);
        };
        match pause {
            Pause::Full => {}
            Pause::Waits => return Ok(None),
            Pause::Faulty(fault) => return Ok(Some(fault)),
            Pause::Starved => return Err(ServeFault::Memory),
            Pause::Closed(reason) => return Err(ServeFault::Door(reason)),
        }
    }
}
