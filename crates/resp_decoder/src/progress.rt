//! How far the bytes that a decoder holds are read.
//!
//! The words of the open request are kept as they come, so that no word is looked at a second time. The grammar is that
//! of the RESP2 specification; the decoder reads on by `advance`.

ghost use Rattle.std.specs.Prelude.{◌≡◌, ◌<◌, ◌≤◌, [], ◌∷◌, ◌++◌, length, drop, IsErrOf, OnOk, OnErr};
ghost use Rattle.std.specs.List.{AllByRecursion};
ghost use Rattle.resp_decoder.specs.declared.fault.Fault.TheVariants as faults;
ghost use Rattle.resp_decoder.specs.declared.parsing.Stop.TheVariants as stops;
ghost use Rattle.resp_decoder.specs.Advancing.{words_of, held_bytes, IsSound, TakesLittle, Begins, Moves, Fills};
ghost use Rattle.resp_decoder.specs.Advancing.{Advances, WantsMemory, StandsHead};

use crate::fault::Fault;
use crate::limits::Limits;
use crate::parsing::{Stop, head_of, word_of};
use resp::Name;
use std::alloc::{AllocError, Global};

/// The room that is taken for a request's words before they come. A count alone takes no more.
pub const FIRST_WORDS: u64 = 16;

/// How far a buffer is read. The bytes before `start` are done with; `name`, and then `words` behind it, have come of a
/// request that lacks `left` more, and none is under way where `left` is 0.
#[derive(Drop)]
pub struct Progress {
    pub start: usize,
    pub name: Option<Name>,
    pub words: Vec<Vec<u8>>,
    pub left: u64,
}

impl Progress {
    pub fn new(alloc: Global) -> Self
        ensures start { result.start ≡ 0 }
        ensures words { words_of result ≡ [] }
        ensures left { result.left ≡ 0 }
        ensures little { TakesLittle result }
    {
        Progress {
            start: 0,
            name: None,
            words: Vec::new(alloc),
            left: 0,
        }
    }

    /// Reads on to the end of a request. It is whole at `Ok`; at `Err` its words have come as far as the buffer has
    /// them. Want of memory leaves the held bytes as they were.
    pub fn advance(&mut self, buffer: &[u8], limits: Limits) -> Result<(), Stop>
        requires sound { IsSound limits self.old buffer.now }
        requires little { TakesLittle self.old }
        ensures reads { Advances limits buffer.now self.old self.new result }
        ensures sound { OnErr result (IsSound limits self.new buffer.now) }
        ensures memory { IsErrOf result (stops.Bad faults.Memory)
            → held_bytes self.new buffer.now ≡ held_bytes self.old buffer.now }
        ensures wants { IsErrOf result (stops.Bad faults.Memory)
            → WantsMemory limits (drop self.new.start buffer.now) self.new.left }
        ensures little { TakesLittle self.new }
    {
        if self.left > 0 {
            return self.fill(buffer, limits.bulk);
        }
        let start = self.start;
        match self.begin_and_fill(buffer, limits) {
            Ok(()) => Ok(()),
            Err(Stop::Open) => Err(Stop::Open),
            Err(Stop::Bad(fault)) => {
                self.go_back(start);
                Err(Stop::Bad(fault))
            }
        }
    }

    fn begin_and_fill(&mut self, buffer: &[u8], limits: Limits) -> Result<(), Stop>
        requires sound { IsSound limits self.old buffer.now }
        requires idle { self.old.left ≡ 0 }
        requires little { TakesLittle self.old }
        ensures reads { Advances limits buffer.now self.old self.new result }
        ensures wants { IsErrOf result (stops.Bad faults.Memory) → StandsHead limits (drop self.old.start buffer.now) }
        ensures little { TakesLittle self.new }
    {
        self.begin(buffer, limits)?;
        self.fill(buffer, limits.bulk)
    }

    /// Drops empty requests, and reads the count of the first that has words.
    fn begin(&mut self, buffer: &[u8], limits: Limits) -> Result<(), Stop>
        requires sound { IsSound limits self.old buffer.now }
        requires idle { self.old.left ≡ 0 }
        requires little { TakesLittle self.old }
        ensures begins { Begins limits buffer.now self.old self.new result }
        ensures little { TakesLittle self.new }
    {
        let alloc = *self.words.allocator();
        loop {
            let (count, rest) = head_of(&buffer[self.start..], limits.words)?;
            let count = count.unwrap_or(0);
            if count > 0 {
                self.words = Vec::with_capacity(alloc, (count.min(FIRST_WORDS) - 1) as usize)?;
                self.start = buffer.len() - rest.len();
                self.left = count;
                return Ok(());
            }
            self.start = buffer.len() - rest.len();
        }
    }

    /// Copies the words that are lacking, as far as the buffer has them.
    fn fill(&mut self, buffer: &[u8], bulk: u32) -> Result<(), Stop>
        requires fits { self.old.start ≤ length buffer.now }
        requires short { AllByRecursion (λ w. length w ≤ bulk) (words_of self.old) }
        requires little { TakesLittle self.old }
        ensures moved { Moves buffer.now self.old self.new }
        ensures short { AllByRecursion (λ w. length w ≤ bulk) (words_of self.new) }
        ensures ended { Fills bulk buffer.now self.new result }
        ensures little { TakesLittle self.new }
    {
        while self.left > 0 {
            let (word, rest) = word_of(&buffer[self.start..], bulk)?;
            self.keep(word)?;
            self.start = buffer.len() - rest.len();
            self.left -= 1;
        }
        Ok(())
    }

    /// Keeps a copy of the word that came. Want of memory changes nothing that is read.
    #[inline(always)]
    fn keep(&mut self, word: &[u8]) -> Result<(), AllocError>
        requires little { TakesLittle self.old }
        ensures ok { OnOk result (words_of self.new ≡ words_of self.old ++ word.now ∷ []) }
        ensures err { OnErr result (words_of self.new ≡ words_of self.old) }
        ensures start { self.new.start ≡ self.old.start }
        ensures left { self.new.left ≡ self.old.left }
        ensures little { TakesLittle self.new }
    {
        let alloc = *self.words.allocator();
        if self.name.is_none() {
            self.name = Some(Name::copy_of(alloc, word)?);
            return Ok(());
        }
        let copy = Vec::from_slice(alloc, word)?;
        self.words.reserve(1)?;
        self.words.push_reserved(copy);
        Ok(())
    }

    /// Forgets what was read since the buffer was read as far as `start`, where no request was under way.
    fn go_back(&mut self, start: usize)
        ensures start { self.new.start ≡ start }
        ensures words { words_of self.new ≡ [] }
        ensures left { self.new.left ≡ 0 }
        ensures little { TakesLittle self.new }
    {
        self.name = None;
        self.words = Vec::new(*self.words.allocator());
        self.left = 0;
        self.start = start;
    }
}
