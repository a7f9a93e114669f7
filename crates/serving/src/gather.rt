//! Answering the requests that a decoder holds, with the replies gathered in one buffer.

ghost use Rattle.std.specs.Prelude.{◌≡◌, ◌≤◌, [], None, vec_capacity};
ghost use Rattle.serving.specs.Gathers.{Gathers, AddsReply, AddsLine};
ghost use Rattle.serving.specs.declared.gather.TheConstants.{KEPT_ROOM};

use crate::door::{Door, DoorFault, TOLD_AT_ONCE};
use resp::{Reply, Request, write_reply};
use resp_decoder::{Decoder, Fault, fault_line};

/// How many bytes of replies are gathered at most before one more reply is added.
const GATHERED: usize = 64 * 1024;

/// The buffer of replies keeps no more room than this between one batch and the next.
const KEPT_ROOM: usize = 1024 * 1024;

/// Why gathering paused. What was gathered is to be written in any case.
#[derive(Drop)]
pub(crate) enum Pause<E> {
    /// Enough is gathered; the decoder may hold more requests.
    Full,

    /// The decoder holds no whole request.
    Waits,

    /// A fault stands in the bytes held, and its error line is the last that was gathered.
    Faulty(Fault),

    /// There was no memory for a request, or for the last reply or line.
    Starved,

    /// The door ended the connection.
    Closed(E),
}

/// Empties `replies` and gathers in it the replies to the requests held, until the decoder waits or enough is gathered.
/// Of `told` more of these the door knows already.
pub(crate) fn gather<D: Door>(
    decoder: &mut Decoder,
    door: &mut D,
    replies: &mut Vec<u8>,
    told: &mut usize,
) -> Pause<D::Reason>
    requires { decoder.old.held.fault ≡ None }
    ensures { Gathers D.asks decoder.old.held decoder.new.held door.old door.new replies.new.items result }
{
    empty(replies);
    while replies.len() <= GATHERED {
        tell(decoder, door, told);
        let taken = match decoder.next() {
            Ok(taken) => taken,
            Err(fault) => return gather_line(fault, replies),
        };
        let Some(request) = taken else {
            return Pause::Waits;
        };
        if let Err(pause) = gather_reply(door, request, replies) {
            return pause;
        }
    }
    Pause::Full
}

/// Empties a buffer. It keeps its room, unless that is more than is kept: then it gives all of it back.
fn empty(replies: &mut Vec<u8>)
    ensures items { replies.new.items ≡ [] }
    ensures room { vec_capacity replies.new ≤ KEPT_ROOM }
{
    replies.clear();
    if replies.capacity() > KEPT_ROOM {
        replies.shrink_to_fit();
    }
}

/// Tells the door what comes next, unless it knows that already.
fn tell<D: Door>(decoder: &Decoder, door: &D, told: &mut usize) {
    *told = match told.checked_sub(1) {
        Some(left) => left,
        None => {
            door.expect(decoder.ahead());
            TOLD_AT_ONCE - 1
        }
    };
}

/// Has the door answer a request, and adds the reply: the door's own, or that there was no memory. The pause where
/// there is none.
fn gather_reply<D: Door>(
    door: &mut D,
    request: Request,
    replies: &mut Vec<u8>,
) -> Result<(), Pause<D::Reason>>
    ensures { AddsReply D.asks door.old request door.new (vec_capacity replies.old)
        replies.old.items replies.new.items result }
{
    let reply = match door.ask(request) {
        Ok(reply) => reply,
        Err(fault) => match fault {
            DoorFault::Memory => Reply::out_of_memory(),
            DoorFault::Ended(reason) => return Err(Pause::Closed(reason)),
        },
    };
    match write_reply(&reply, replies) {
        Ok(()) => Ok(()),
        Err(_) => Err(Pause::Starved),
    }
}

/// Adds the error line of a fault. A fault of memory has none.
fn gather_line<E>(fault: Fault, replies: &mut Vec<u8>) -> Pause<E>
    ensures { AddsLine fault (vec_capacity replies.old) replies.old.items replies.new.items result }
{
    match fault {
        Fault::Memory => Pause::Starved,
        _ => {
            if fault_line(fault, replies).is_err() {
                return Pause::Starved;
            }
            Pause::Faulty(fault)
        }
    }
}
