//! A trace where one is kept, or what of it was not handed on. Where none is, each of these calls does nothing, and takes no memory.

ghost use Rattle.std.specs.Prelude.{◌≡◌, ◌≢◌, ◌+◌, ◌≤◌, [], ◌∷◌, ◌++◌, IsOk, IfOk, IfSome, IfNone, OnOk, OnErr, Option, None};
ghost use Rattle.cluster.specs.Passing.{arrivals};
ghost use Rattle.cluster.specs.Traces.{HasRoom, KeepsRoom, SameTrace, IsPushed, ArePushed, place_of, LeavesRoom, IsHandedOn};
ghost use Rattle.journal.specs.Codes.{step_size};
ghost use Rattle.cluster.specs.declared.tape.Tape.{Tape};
ghost use Rattle.journal.specs.declared.step.Step.{Step};
ghost use Rattle.layer_results.specs.Results.{names_of};

use groups::ConnId;
use journal::{Step, Trace};
use layer_results::Done;
use std::alloc::{AllocError, Global};
use std::mem;

/// How many bytes a Settle takes in the trace.
const SETTLE_SIZE: usize = 1;

/// How many bytes the Deliver of the oldest packet takes there.
const DELIVER_SIZE: usize = 2;

/// How many bytes a Take takes there.
const TAKE_SIZE: usize = 1;

/// How many bytes a Collect takes there at most.
pub(super) const COLLECT_SIZE: usize = 10;

/// How many packets a request has at most that is handed out at once: one of eight groups.
pub(super) const PACKETS_PASSED: usize = 64;

/// How many bytes their Delivers and the Take take there at most.
pub(super) const SIZE_PASSED: usize = PACKETS_PASSED * DELIVER_SIZE + TAKE_SIZE;

/// The steps of a trace that are kept: those behind so many that were handed on.
#[derive(Drop)]
pub struct Tape {
    pub(super) sent: u64,
    pub(super) rest: Trace,
}

/// At which place of the bytes that are kept the next step begins.
#[inline(always)]
pub(super) fn place(trace: &Option<Tape>) -> usize
    ensures { result ≡ place_of trace.now }
{
    match trace {
        Some(tape) => tape.rest.size(),
        None => 0,
    }
}

/// Puts a step behind the others, and keeps room for so many bytes more. The only error is want of memory, which changes nothing
/// and can't come where there is room for both.
#[inline(always)]
pub(super) fn push_keeping(
    trace: &mut Option<Tape>,
    step: &Step,
    kept: usize,
) -> Result<(), AllocError>
    ensures pushed { OnOk result (IsPushed trace.old step.now trace.new) }
    ensures room { OnOk result (HasRoom kept trace.new) }
    ensures room_left { OnOk result (LeavesRoom trace.old step.now trace.new) }
    ensures succeeds { HasRoom (step_size step.now + kept) trace.old → IsOk result }
    ensures unchanged { OnErr result (trace.new ≡ trace.old) }
{
    match trace {
        Some(tape) => tape.rest.push_keeping(step, kept),
        None => Ok(()),
    }
}

/// Puts so many Delivers, each of the oldest packet, and a Take behind the steps, for which there is room, and for so many bytes more.
pub(super) fn push_passed(trace: &mut Option<Tape>, packets: usize, kept: usize)
    requires few { packets ≤ PACKETS_PASSED }
    requires room { HasRoom (SIZE_PASSED + kept) trace.old }
    ensures pushed { ArePushed trace.old (arrivals packets ++ Step.Take ∷ []) trace.new }
    ensures room { HasRoom kept trace.new }
{
    if let Some(tape) = trace {
        push_arrivals(&mut tape.rest, packets, kept);
        let Ok(()) = tape.rest.push_keeping(&Step::Take, kept) else {
            unreachable!()
        };
    }
}

/// Puts so many Delivers, each of the oldest packet, behind the steps, for which there is room, and for a Take and so many bytes more.
fn push_arrivals(trace: &mut Trace, packets: usize, kept: usize)
    requires few { packets ≤ PACKETS_PASSED }
    requires room { SIZE_PASSED + kept ≤ trace.old.room }
    ensures max { trace.new.max ≡ trace.old.max }
    ensures steps { trace.new.steps ≡ trace.old.steps ++ arrivals packets }
    ensures room { TAKE_SIZE + kept ≤ trace.new.room }
{
    let mut left = SIZE_PASSED;
    for _ in 0..packets {
        left -= DELIVER_SIZE;
        let room = kept.saturating_add(left);
        let Ok(()) = trace.push_keeping(&Step::Deliver { place: 0 }, room) else {
            unreachable!()
        };
    }
}

/// Takes back the last step, which begins at this place.
pub(super) fn take_back(trace: &mut Option<Tape>, place: usize)
    requires { (before : Option Tape) × (step : Step) × IsPushed before step trace.old × (place ≡ place_of before) }
    ensures same { (before : Option Tape) (step : Step) → IsPushed before step trace.old → SameTrace before trace.new }
    ensures room { (before : Option Tape) (step : Step) → IsPushed before step trace.old → LeavesRoom before step trace.old
        → KeepsRoom before trace.new }
{
    if let Some(tape) = trace {
        tape.rest.take_back(place);
    }
}

/// Puts a Run with what starved behind the steps, and keeps room for a Settle and for so many bytes more. The only error is want of
/// memory, which changes nothing.
#[inline(always)]
pub(super) fn push_run(
    alloc: Global,
    trace: &mut Option<Tape>,
    done: &Done,
    kept: usize,
) -> Result<(), AllocError>
    ensures pushed { OnOk result (IsPushed trace.old (Step.Run (names_of done.now)) trace.new) }
    ensures room { OnOk result (HasRoom (step_size Step.Settle + kept) trace.new) }
    ensures room_left { OnOk result (LeavesRoom trace.old (Step.Run (names_of done.now)) trace.new) }
    ensures traced { OnErr result (trace.old ≢ None) }
    ensures unchanged { OnErr result (trace.new ≡ trace.old) }
{
    match trace {
        Some(tape) => put_run(alloc, &mut tape.rest, done, kept),
        None => Ok(()),
    }
}

/// Puts a Run with what starved behind the steps, and keeps room for a Settle and for so many bytes more. The only error is want of
/// memory, which changes nothing.
#[inline(never)]
fn put_run(alloc: Global, trace: &mut Trace, done: &Done, kept: usize) -> Result<(), AllocError>
    ensures max { trace.new.max ≡ trace.old.max }
    ensures steps { OnOk result (trace.new.steps ≡ trace.old.steps ++ Step.Run (names_of done.now) ∷ []) }
    ensures room { OnOk result (step_size Step.Settle + kept ≤ trace.new.room) }
    ensures room_left { OnOk result (trace.old.room ≤ trace.new.room + step_size (Step.Run (names_of done.now))) }
    ensures unchanged { OnErr result (trace.new ≡ trace.old) }
{
    let Some(kept) = kept.checked_add(SETTLE_SIZE) else {
        return Err(AllocError);
    };
    let starved = done.names(alloc)?;
    trace.push_keeping(&Step::Run { starved }, kept)
}

/// Puts a Settle and the connection's Collect behind the steps, for which there is room, and for so many bytes more.
#[inline(always)]
pub(super) fn push_collected(trace: &mut Option<Tape>, conn: ConnId, kept: usize)
    requires { HasRoom (step_size Step.Settle + (kept + COLLECT_SIZE)) trace.old }
    ensures pushed { ArePushed trace.old (Step.Settle ∷ Step.Collect conn ∷ []) trace.new }
    ensures room { HasRoom kept trace.new }
{
    if let Some(tape) = trace {
        put_collected(&mut tape.rest, conn, kept);
    }
}

/// Puts a Settle and the connection's Collect behind the steps, for which there is room, and for so many bytes more.
#[inline(never)]
fn put_collected(trace: &mut Trace, conn: ConnId, kept: usize)
    requires { step_size Step.Settle + (kept + COLLECT_SIZE) ≤ trace.old.room }
    ensures max { trace.new.max ≡ trace.old.max }
    ensures steps { trace.new.steps ≡ trace.old.steps ++ Step.Settle ∷ Step.Collect conn ∷ [] }
    ensures room { kept ≤ trace.new.room }
{
    let Ok(()) = trace.push_keeping(&Step::Settle, kept) else {
        unreachable!()
    };
    let Ok(()) = trace.push_keeping(&Step::Collect { conn }, kept) else {
        unreachable!()
    };
}

/// Hands on the steps that are kept, of so many that were made, with how many were handed on before. Behind them none is kept, and room
/// for so many bytes. The only error is want of memory, which changes nothing.
pub(super) fn hand_on(
    alloc: Global,
    trace: &mut Option<Tape>,
    made: u64,
    kept: usize,
) -> Result<Option<(u64, Trace)>, AllocError>
    ensures handed { IfOk result (λ piece. IfSome piece (λ p. IsHandedOn made trace.old p.0 p.1.steps trace.new)) }
    ensures none { IfOk result (λ piece. IfNone piece ((trace.old ≡ None) × (trace.new ≡ None))) }
    ensures room { OnOk result (HasRoom kept trace.new) }
    ensures unchanged { OnErr result (trace.new ≡ trace.old) }
{
    let Some(tape) = trace else {
        return Ok(None);
    };
    let mut fresh = Trace::new(alloc, tape.rest.max());
    fresh.reserve_bytes(kept)?;
    let steps = mem::replace(&mut tape.rest, fresh);
    let from = mem::replace(&mut tape.sent, made);
    Ok(Some((from, steps)))
}
