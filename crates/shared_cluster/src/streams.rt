//! The text of a cluster's trace, made while its steps are.

ghost use Rattle.std.specs.Prelude.{◌≡◌, ◌≤◌, [], ◌++◌, length, OnOk, OnErr, IfSome};
ghost use Rattle.journal.specs.declared.trace.TheConstants.{GREATEST_STEPS};
ghost use Rattle.journal.specs.TraceText.{head_text, lines_text, ended, end_line, Spells};
ghost use Rattle.shared_cluster.specs.Streams.{GoesOn};

use crate::shared::Shared;
use cluster::{Leading, Piece, Server, StepsOf};
use history::Part;
use journal::{pieces_spell, write_end, write_head, write_lines};
use serial_store::Tabled;
use std::alloc::AllocError;
use std::marker::Model;
use std::sync::Wait;
use thiserror::Error;

/// Why no more of a trace's text is made. Nothing was changed.
#[derive(Clone, Copy, Debug, Drop, PartialEq, Eq, Error)]
pub enum StreamFault {
    /// There was no memory for it: it can be tried again.
    #[error("out of memory")]
    Memory,

    /// No trace is kept, or another stream has a piece of it.
    #[error("the trace is not whole")]
    Torn,
}

/// The text of a trace, made in pieces. Contracts see at most how many steps may be made, and the steps whose lines were made: they are
/// a part of the history of the cluster's steps. What was appended, the head, the lines and the end, spells their trace.
#[derive(Drop)]
pub struct TraceStream<T: Tabled, L: Server> {
    max: u64,
    count: u64,
    seen: Option<Part<Leading<T>, StepsOf<L>>>,
    // A piece for whose lines there was no memory.
    left: Option<Piece<T, L>>,
}

impl<T: Tabled, L: Server> Model for TraceStream<T, L> {
    ghost use Rattle.shared_cluster.specs.Streams.{StreamView, IsStream, steps_of};

    ghost Value = { StreamView };

    ghost view = { λ s. record { max = s.max; steps = steps_of s.seen } };

    ghost invariant = { λ s. IsStream s.count (record { max = s.max; steps = steps_of s.seen }) };
}

impl<T: Tabled, L: Server> TraceStream<T, L> {
    /// Of no step a line was made.
    pub(crate) fn new(max: u64) -> Self
        requires least { 1 ≤ max }
        requires greatest { max ≤ GREATEST_STEPS }
        ensures max { result.max ≡ max }
        ensures steps { result.steps ≡ [] }
    {
        TraceStream {
            max,
            count: 0,
            seen: None,
            left: None,
        }
    }

    /// Of how many steps lines were made.
    pub fn count(&self) -> u64
        ensures { result ≡ length self.now.steps }
    {
        self.count
    }

    /// The steps of which lines were made, as a part of the history, if there was a piece.
    pub fn seen(&self) -> Option<Part<Leading<T>, StepsOf<L>>>
        ensures { IfSome result (λ seen. seen ≡ self.now.steps) }
    {
        match &self.seen {
            Some(seen) => Some(seen.again()),
            None => None,
        }
    }

    /// Appends what stands before the steps. With an error `out` is as it was.
    pub fn write_head(&self, out: &mut Vec<u8>) -> Result<(), AllocError>
        ensures ok { OnOk result (out.new.items ≡ out.old.items ++ head_text self.now.max) }
        ensures err { OnErr result (out.new.items ≡ out.old.items) }
    {
        write_head(self.max, out)
    }

    /// Appends a line for each step that was made since the call before, which the cluster keeps no longer. It holds the cluster's lock
    /// while they are handed on, and not while their text is made.
    pub fn write_next<R: Wait>(
        &mut self,
        rt: &R,
        shared: &Shared<T, L>,
        out: &mut Vec<u8>,
    ) -> Result<(), StreamFault>
        ensures ok { OnOk result (GoesOn self.old out.old.items self.new out.new.items) }
        ensures err { OnErr result ((self.new ≡ self.old) × (out.new.items ≡ out.old.items)) }
    {
        let piece = match self.left.take() {
            Some(piece) => piece,
            None => match shared.hand_on(rt) {
                Ok(Some(piece)) => piece,
                Ok(None) => return Err(StreamFault::Torn),
                Err(_) => return Err(StreamFault::Memory),
            },
        };
        if piece.from() != self.count {
            return Err(StreamFault::Torn);
        }
        let Ok(()) = write_lines(piece.steps(), out) else {
            self.left = Some(piece);
            return Err(StreamFault::Memory);
        };
        match &self.seen {
            Some(seen) => piece.follows(seen),
            None => piece.is_first(),
        }
        self.count = piece.count();
        self.seen = Some(piece.told());
        Ok(())
    }

    /// Appends the last line. With it all that was appended spells the trace. With an error `out` is as it was.
    pub fn write_end(&self, out: &mut Vec<u8>) -> Result<(), AllocError>
        ensures ok { OnOk result (out.new.items ≡ out.old.items ++ ended (end_line (length self.now.steps))) }
        ensures spells { Spells (head_text self.now.max ++ (lines_text self.now.steps ++ ended (end_line (length self.now.steps))))
            self.now.max self.now.steps }
        ensures err { OnErr result (out.new.items ≡ out.old.items) }
    {
        pieces_spell();
        write_end(self.count, out)
    }
}
