//! The steps that were made, in order, to be made again by whoever has them.

ghost use Rattle.std.specs.Prelude.{◌≡◌, ◌+◌, ◌≤◌, ◌<◌, ◌^◌, ◌++◌, ℕ, List, [], ◌∷◌, length, OnOk, OnErr, IfOk, IsOk};
ghost use Rattle.std.specs.Prelude.{MatchOption};
ghost use Rattle.std.specs.List.{AllByRecursion};
ghost use Rattle.journal.specs.Codes.{step_size, steps_size, StepFits};
ghost use Rattle.journal.specs.TraceText.{lines_text};
ghost use Rattle.journal.specs.declared.step.Step.{Step};

use super::codes::{put_step, reserve_step, take_step};
use super::step::Step;
use super::writer::put_line;
use packing::grow;
use std::alloc::{AllocError, Global};
use std::marker::Model;

/// At most so many steps may be made, so that no clock and no number of a connection or a request passes 64 bits.
pub const GREATEST_STEPS: u64 = 1 << 62;

/// The steps that were made, in order, and at most how many may be made, from 1 to [`GREATEST_STEPS`]. Contracts see beside them how many more bytes fit without memory.
#[derive(Drop)]
pub struct Trace {
    max: u64,
    count: usize,
    bytes: Vec<u8>,
}

impl Model for Trace {
    ghost use Rattle.std.specs.Prelude.{◌-◌, vec_len, vec_capacity};
    ghost use Rattle.journal.specs.Views.{TraceView};

    ghost Value = { TraceView };

    ghost use Rattle.journal.specs.Codes.{steps_in, AreSteps};

    ghost view = { λ t. record {
      max = t.max;
      steps = steps_in t.count t.bytes.items;
      room = vec_capacity t.bytes - vec_len t.bytes;
    } };

    ghost invariant = { λ t. AreSteps (steps_in t.count t.bytes.items) t.max t.count t.bytes.items };
}

impl Trace {
    /// No step was made, and at most `max` may be. It takes no memory.
    pub fn new(alloc: Global, max: u64) -> Self
        requires least { 1 ≤ max }
        requires greatest { max ≤ GREATEST_STEPS }
        ensures max { result.max ≡ max }
        ensures steps { result.steps ≡ [] }
    {
        Trace {
            max,
            count: 0,
            bytes: Vec::new(alloc),
        }
    }

    /// At most how many steps may be made: from 1 to [`GREATEST_STEPS`].
    pub fn max(&self) -> u64
        ensures max { result ≡ self.now.max }
        ensures least { 1 ≤ result }
        ensures greatest { result ≤ GREATEST_STEPS }
    {
        self.max
    }

    /// How many steps were made.
    #[allow(clippy::len_without_is_empty)]
    pub fn len(&self) -> usize
        ensures number { result ≡ length self.now.steps }
        ensures small { result < 2 ^ 63 }
    {
        self.count
    }

    /// Takes the room for this step, so that its `push` can't fail. The only error is want of memory, which changes
    /// nothing.
    pub fn reserve(&mut self, step: &Step) -> Result<(), AllocError>
        ensures max { self.new.max ≡ self.old.max }
        ensures steps { self.new.steps ≡ self.old.steps }
        ensures room { OnOk result (step_size step.now ≤ self.new.room) }
        ensures room_kept { self.old.room ≤ self.new.room }
        ensures succeeds { step_size step.now ≤ self.old.room → IsOk result }
        ensures unchanged { OnErr result (self.new ≡ self.old) }
    {
        reserve_step(step, 0, &mut self.bytes)
    }

    /// Adds a step behind the others. It can't fail where there is room, and want of memory changes nothing.
    #[inline(always)]
    pub fn push(&mut self, step: &Step) -> Result<(), AllocError>
        ensures max { self.new.max ≡ self.old.max }
        ensures steps { OnOk result (self.new.steps ≡ self.old.steps ++ step.now ∷ []) }
        ensures succeeds { step_size step.now ≤ self.old.room → IsOk result }
        ensures unchanged { OnErr result (self.new ≡ self.old) }
    {
        self.push_keeping(step, 0)
    }

    /// Adds a step behind the others, and keeps room for so many bytes more. It can't fail where there is room for
    /// both, and want of memory changes nothing.
    #[inline(always)]
    pub fn push_keeping(&mut self, step: &Step, kept: usize) -> Result<(), AllocError>
        ensures max { self.new.max ≡ self.old.max }
        ensures steps { OnOk result (self.new.steps ≡ self.old.steps ++ step.now ∷ []) }
        ensures room { OnOk result (kept ≤ self.new.room) }
        ensures room_left { OnOk result (self.old.room ≤ self.new.room + step_size step.now) }
        ensures succeeds { step_size step.now + kept ≤ self.old.room → IsOk result }
        ensures unchanged { OnErr result (self.new ≡ self.old) }
    {
        reserve_step(step, kept, &mut self.bytes)?;
        put_step(step, &mut self.bytes);
        self.count += 1;
        Ok(())
    }

    /// How many bytes the steps take, which is the place at which the next one begins.
    pub fn size(&self) -> usize
        ensures { result ≡ steps_size self.now.steps }
    {
        self.bytes.len()
    }

    /// Takes back the last step, which begins at this place. It takes no memory.
    pub fn take_back(&mut self, place: usize)
        requires { (front : List Step) × (last : Step) × (self.old.steps ≡ front ++ last ∷ []) × (place ≡ steps_size front) }
        ensures max { self.new.max ≡ self.old.max }
        ensures steps { (front : List Step) (last : Step) → self.old.steps ≡ front ++ last ∷ [] → self.new.steps ≡ front }
        ensures room { (front : List Step) (last : Step) → self.old.steps ≡ front ++ last ∷ []
            → self.old.room + step_size last ≤ self.new.room }
    {
        self.bytes.truncate(place);
        self.count -= 1;
    }

    /// Takes back all steps, and leaves the room that they took.
    pub fn clear(&mut self)
        ensures max { self.new.max ≡ self.old.max }
        ensures steps { self.new.steps ≡ [] }
        ensures room { self.old.room ≤ self.new.room }
    {
        self.bytes.clear();
        self.count = 0;
    }

    /// Takes room for so many bytes. The only error is want of memory, which changes nothing.
    pub fn reserve_bytes(&mut self, bytes: usize) -> Result<(), AllocError>
        ensures max { self.new.max ≡ self.old.max }
        ensures steps { self.new.steps ≡ self.old.steps }
        ensures room { OnOk result (bytes ≤ self.new.room) }
        ensures room_kept { self.old.room ≤ self.new.room }
        ensures unchanged { OnErr result (self.new ≡ self.old) }
    {
        grow(&mut self.bytes, bytes)
    }

    /// The steps, to be read one after another from the first. A caller learns that their numbers, words and names lie
    /// in memory.
    pub fn steps(&self) -> Steps<'_>
        ensures steps { result ≡ self.now.steps }
        ensures fit { AllByRecursion StepFits self.now.steps }
    {
        Steps {
            left: self.count,
            bytes: self.bytes.as_slice(),
        }
    }
}

/// Steps of a trace, read one after another. Contracts see the steps that are left.
#[derive(Drop)]
pub struct Steps<'a> {
    left: usize,
    bytes: &'a [u8],
}

impl<'a> Model for Steps<'a> {
    ghost use Rattle.std.specs.Prelude.{List};
    ghost use Rattle.journal.specs.declared.step.Step.{Step};

    ghost Value = { List Step };

    ghost use Rattle.journal.specs.Codes.{steps_in};

    ghost view = { λ s. steps_in s.left s.bytes.now };
}

impl<'a> Steps<'a> {
    /// How many steps are left.
    #[allow(clippy::len_without_is_empty)]
    pub fn len(&self) -> usize
        ensures { result ≡ length self.now }
    {
        self.left
    }

    /// The next step, as one of its own, and `None` behind the last. The only error is want of memory, and then the
    /// step is still the next.
    pub fn next(&mut self, alloc: Global) -> Result<Option<Step>, AllocError>
        ensures next { IfOk result (λ next. MatchOption next ((self.old ≡ []) × (self.new ≡ []))
            (λ step. self.old ≡ step ∷ self.new)) }
        ensures unchanged { OnErr result (self.new ≡ self.old) }
    {
        if self.left == 0 {
            return Ok(None);
        }
        let (step, rest) = take_step(alloc, self.bytes)?;
        self.left -= 1;
        self.bytes = rest;
        Ok(Some(step))
    }

    /// Appends a line for each step that is left, or some of that where there is no memory for all.
    pub(super) fn put_lines(self, out: &mut Vec<u8>) -> Result<(), AllocError>
        ensures ok { OnOk result (out.new.items ≡ out.old.items ++ lines_text self.entry) }
        ensures err { OnErr result ((more : List ℕ) × (out.new.items ≡ out.old.items ++ more)) }
    {
        let Steps { left, bytes } = self;
        let mut rest = bytes;
        for _ in 0..left {
            rest = put_line(rest, out)?;
        }
        Ok(())
    }
}
