//! The steps of a trace, made again while their facts are put down.

ghost use Rattle.std.specs.Prelude.{◌≡◌, ◌++◌, ◌∷◌, List, [], ℕ, false, length, map, IfOk, IfErr, OnOk};
ghost use Rattle.journal.specs.declared.step.Step.{Step};
ghost use Rattle.placement.specs.Layout.{Layout};
ghost use Rattle.picture.specs.Told.{IsFactsOf};
ghost use Rattle.picture.specs.Words.{word_of};
ghost use Rattle.picture.specs.Ran.{Ran};
ghost use Rattle.replay.specs.Replay.{IsFaultOf, IsRefusalOf};
ghost use Rattle.system.specs.Reads.{table_of};

use crate::flights::{Flights, arrival_in, kept_at};
use crate::recorder::{Before, Recorder};
use journal::{Step, Steps, Trace};
use picture_shapes::{RunFacts, StepWord};
use placement::Table;
use replay::{Progress, ReplayFault, are_named, named_in};
use shard_workers::{InTurn, OpenGate};
use std::alloc::{AllocError, Global};
use std::num::NonZeroUsize;
use system::{StepFault, System};

/// The facts of the run that this trace makes in a new system of this table.
///
/// `Step` says which step is the first that isn't accepted, and why. The only other error is `Memory`.
pub fn facts_of<P: Progress>(
    alloc: Global,
    table: Table,
    trace: &Trace,
    progress: &mut P,
) -> Result<RunFacts, ReplayFault>
    ensures facts { IfOk result (IsFactsOf table trace.now.steps) }
    ensures fault { IfErr result (IsFaultOf false table trace.now.max trace.now.steps) }
{
    let groups = table.shards();
    let mut system = System::new(alloc, table, trace.max())?;
    let mut recorder = Recorder::new(alloc);
    let mut flights = Flights::new(alloc);
    let words = make_all(
        alloc,
        trace.steps(),
        &mut system,
        &mut recorder,
        &mut flights,
        progress,
    )?;
    Ok(recorder.into_facts(groups, words, flights.packets))
}

/// Makes the steps, up to the first that isn't accepted, tells of each that was made, and answers their words.
fn make_all<P: Progress>(
    alloc: Global,
    mut steps: Steps<'_>,
    system: &mut System,
    recorder: &mut Recorder,
    flights: &mut Flights,
    progress: &mut P,
) -> Result<Vec<StepWord>, ReplayFault>
    requires { Ran (table_of system.old) system.old.max_steps [] system.old flights.old recorder.old }
    ensures words { IfOk result (λ words. words.items ≡ map word_of steps.entry) }
    ensures made { OnOk result (Ran (table_of system.old) system.old.max_steps steps.entry system.new flights.new recorder.new) }
    ensures fault { IfErr result (IsFaultOf false (table_of system.old) system.old.max_steps steps.entry) }
{
    let count = steps.len();
    let mut words = Vec::with_capacity(alloc, count)?;
    for index in 0..count {
        let Some(step) = steps.next(alloc)? else {
            unreachable!()
        };
        put_word(&step, &mut words)?;
        if let Err(fault) = make(alloc, step, index, system, recorder, flights) {
            return Err(fault);
        }
        progress.made(index as u64 + 1, count as u64);
    }
    Ok(words)
}

/// Appends the word of a step.
fn put_word(step: &Step, words: &mut Vec<StepWord>) -> Result<(), AllocError>
    ensures { OnOk result (words.new.items ≡ words.old.items ++ word_of step.now ∷ []) }
{
    words.push(word_of(step))?;
    Ok(())
}

/// The word of a step.
fn word_of(step: &Step) -> StepWord
    ensures { result ≡ word_of step.now }
{
    match step {
        Step::Open => StepWord::Open,
        Step::Submit { .. } => StepWord::Submit,
        Step::Deliver { place } => StepWord::Deliver(*place),
        Step::Take => StepWord::Take,
        Step::Run { .. } => StepWord::Run,
        Step::Settle => StepWord::Settle,
        Step::Collect { .. } => StepWord::Collect,
        Step::Close { .. } => StepWord::Close,
        Step::Repeat { place } => StepWord::Repeat(*place),
    }
}

/// Makes the step with this index, and puts down what came of it.
fn make(
    alloc: Global,
    step: Step,
    index: usize,
    system: &mut System,
    recorder: &mut Recorder,
    flights: &mut Flights,
) -> Result<(), ReplayFault>
    ensures made { OnOk result ((t : Layout) (most : ℕ) (before : List Step) → index ≡ length before
        → Ran t most before system.old flights.old recorder.old
        → Ran t most (before ++ step ∷ []) system.new flights.new recorder.new) }
    ensures fault { IfErr result (IsRefusalOf false system.old step index system.new) }
{
    let named = named_in(alloc, &step)?;
    let arrival = arrival_in(&step);
    let kept = kept_at(arrival, system.packets());
    let landed = flights.land(index, arrival);
    let before = Before::of(alloc, &step, landed, system)?;
    let Some(one) = NonZeroUsize::new(1) else {
        unreachable!()
    };
    let effect = match system.step(step, &InTurn(one), &OpenGate) {
        Ok(effect) => effect,
        Err(StepFault::Memory) => return Err(ReplayFault::Memory),
        Err(fault) => {
            let index = index as u64;
            return Err(ReplayFault::Step { index, fault });
        }
    };
    if !are_named(&effect, named.as_slice()) {
        return Err(ReplayFault::Memory);
    }
    recorder.note(index, before, &effect, system)?;
    flights.send(index, kept, recorder.last(), system)?;
    Ok(())
}
