//! The decoder: bytes are fed in pieces, and requests are taken.
//!
//! The grammar is that of the RESP2 specification, in `specs/Texts.antt`. The serving loops call it.

ghost use Rattle.std.specs.Prelude.{◌≡◌, ◌≢◌, ◌<◌, ◌≤◌, ◌+◌, ◌*◌, ◌↔◌, length};
ghost use Rattle.std.specs.Prelude.{IsTrue, IsSome, IsOk, OnOk, OnErr, IfOk, IfErr, IfSome, IfNone};

use crate::ahead::Ahead;
use crate::buffer::{KEPT_ROOM, give_up_front};
use crate::fault::Fault;
use crate::limits::Limits;
use crate::parsing::Stop;
use crate::progress::{FIRST_WORDS, Progress};
use resp::Request;
use std::alloc::{AllocError, Global};
use std::marker::Model;
use std::mem;

/// Takes bytes in pieces of any size and gives the requests that they are.
///
/// Contracts see the limits, the bytes that were fed and neither handed out nor dropped, the fault that was answered,
/// how far the bytes are read, and what they take in memory. However the input is cut, no byte is looked at a second
/// time but those of a count or a length that has come in part. What is held is bounded by the open request and one
/// piece; a count or a length alone takes no room.
#[derive(Drop)]
pub struct Decoder {
    limits: Limits,
    buffer: Vec<u8>,
    progress: Progress,
    fault: Option<Fault>,
}

impl Model for Decoder {
    ghost use Rattle.resp_decoder.specs.Decoding.{DecoderView, DecoderInvariant, view_of};

    ghost Value = { DecoderView };

    ghost view = { λ d. view_of d.limits d.progress d.buffer d.fault };

    ghost invariant = { λ d. DecoderInvariant d.limits d.progress d.buffer.items d.fault };
}

impl Decoder {
    ghost use Rattle.resp_decoder.specs.declared.fault.Fault.TheVariants as faults;
    ghost use Rattle.resp_decoder.specs.Decoding.{nothing_held, fed, failed};
    ghost use Rattle.resp_decoder.specs.Decoding.{TakesRequest, WaitsForMore, Fails, KeepsAll};
    ghost use Rattle.resp_decoder.specs.Advancing.{WantsMemory};

    /// A decoder that holds nothing.
    pub fn new(alloc: Global, limits: Limits) -> Self
        ensures held { result.held ≡ nothing_held limits }
        ensures no_room { result.room ≡ 0 }
    {
        Decoder {
            limits,
            buffer: Vec::new(alloc),
            progress: Progress::new(alloc),
            fault: None,
        }
    }

    /// Appends a piece to the held bytes, or nothing where there is no memory. After a fault it answers `Ok` and
    /// keeps nothing.
    pub fn feed(&mut self, piece: &[u8]) -> Result<(), AllocError>
        ensures ok { OnOk result (self.new.held ≡ fed self.old.held piece.now) }
        ensures err { OnErr result (self.new.held ≡ self.old.held) }
        ensures full { OnErr result (self.new.room < self.new.buffered + length piece.now) }

        // Room up to `KEPT_ROOM` bytes is never given back, so it isn't given back in order to be refused.
        ensures room { self.old.room ≤ KEPT_ROOM → self.old.room ≤ self.new.room }

        // What is done with goes: with the piece the buffer has at most twice what was unread.
        ensures bounded { OnOk result (self.new.buffered ≤ 2 * length self.old.unread + length piece.now) }
        ensures after_fault { IsSome self.old.held.fault → IsOk result }
    {
        if self.fault.is_some() {
            return Ok(());
        }
        give_up_front(&mut self.buffer, &mut self.progress.start);
        self.buffer.reserve(piece.len())?;
        self.buffer.extend_from_slice(piece)?;
        Ok(())
    }

    /// The next request, `None` where the held bytes have no whole one, or the fault that stands at their front.
    /// Requests with no words are dropped on the way. A fault other than `Memory` is answered for good; `Memory` leaves
    /// the held bytes as they were.
    #[allow(clippy::should_implement_trait)]
    pub fn next(&mut self) -> Result<Option<Request>, Fault>
        ensures request { IfOk result (λ answer. IfSome answer (λ words.
            TakesRequest self.old.held words self.new.held)) }
        ensures waits { IfOk result (λ answer. IfNone answer (WaitsForMore self.old.held self.new.held)) }
        ensures fault { IfErr result (λ fault. fault ≢ faults.Memory → Fails self.old.held fault self.new.held) }
        ensures memory { IfErr result (λ fault. fault ≡ faults.Memory → KeepsAll self.old.held self.new.held) }
        ensures wants { IfErr result (λ fault. fault ≡ faults.Memory
            → WantsMemory self.new.held.limits self.new.unread self.new.lacking) }

        // A count takes room for its first words at most, until one of them has come.
        ensures count_alone { self.new.come ≡ 0 → self.new.word_room ≤ FIRST_WORDS }
    {
        if let Some(fault) = self.fault {
            return Err(fault);
        }
        match self.progress.advance(&self.buffer, self.limits) {
            Ok(()) => {
                let alloc = *self.buffer.allocator();
                let Some(name) = self.progress.name.take() else {
                    unreachable!();
                };
                let words = mem::replace(&mut self.progress.words, Vec::new(alloc));
                Ok(Some(Request::new(name, words)))
            }
            Err(Stop::Open) => Ok(None),
            Err(Stop::Bad(fault)) => match fault {
                Fault::Memory => Err(Fault::Memory),
                _ => {
                    self.fail(fault);
                    Err(fault)
                }
            },
        }
    }

    /// Whether bytes are held. After a `next` that answered `None` these are the beginning of a request.
    pub fn pending(&self) -> bool
        ensures { IsTrue result ↔ (0 < length self.now.held.bytes) }
    {
        self.progress.left > 0 || self.progress.start < self.buffer.len()
    }

    /// The requests that are held, to be looked at before they are taken, but for one of which words were taken already.
    pub fn ahead(&self) -> Ahead<'_> {
        let unread = &self.buffer[self.progress.start..];
        Ahead::behind_open(unread, self.progress.left, self.limits)
    }

    /// Keeps the fault, and gives all else up.
    fn fail(&mut self, fault: Fault)
        requires { fault ≢ faults.Memory }
        ensures held { self.new.held ≡ failed self.old.held fault }
        ensures count_alone { self.new.come ≡ 0 → self.new.word_room ≤ FIRST_WORDS }
    {
        let alloc = *self.buffer.allocator();
        self.buffer = Vec::new(alloc);
        self.progress = Progress::new(alloc);
        self.fault = Some(fault);
    }
}
