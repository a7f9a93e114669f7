//! Scripts, and what they are answered.

use crate::steps::{conn_of, first_word, place_of, step_of, steps_of};
use crate::tables::system_of;
use crate::trouble::Trouble;
use crate::wording::{
    by_stamp, push_effect, push_fault, push_names, push_row, push_rows, push_waiting,
};
use groups::ConnId;
use journal::Step;
use shard_workers::{OpenGate, Workers};
use std::alloc::Global;
use std::process::Abort;
use system::{Effect, StepFault, System};

/// A script for a new system.
#[derive(Clone, Copy)]
pub(crate) struct Row {
    /// How many shards there are, each with as many slots.
    pub shards: u64,
    pub max_steps: u64,

    /// Lines `STEPS => ANSWERS`.
    pub script: &'static str,
}

/// Follows the script of each row in a new system.
pub(crate) fn follow_rows<W: Workers>(
    rt: &impl Abort,
    alloc: Global,
    rows: &[Row],
    workers: &W,
) -> Result<(), Trouble> {
    for row in rows {
        follow_row(rt, alloc, *row, workers)?;
    }
    Ok(())
}

/// Follows a row's script in a new system.
fn follow_row<W: Workers>(
    rt: &impl Abort,
    alloc: Global,
    row: Row,
    workers: &W,
) -> Result<(), Trouble> {
    let mut system = system_of(alloc, row.shards, row.max_steps)?;
    follow(rt, alloc, &mut system, row.script, workers)
}

/// This was answered to these words; else the test ends.
pub(crate) fn assert_same(rt: &impl Abort, said: &str, answered: &str, wanted: &str) {
    assert_eq!(rt; answered, wanted, "{said}");
}

/// It is so; else the test ends.
pub(crate) fn assert_holds(rt: &impl Abort, said: &str, condition: bool) {
    assert!(rt; condition, "{said}: it is not so");
}

/// Makes the steps of each line of the script, and looks whether they are answered as it says.
pub(crate) fn follow<W: Workers>(
    rt: &impl Abort,
    alloc: Global,
    system: &mut System,
    script: &str,
    workers: &W,
) -> Result<(), Trouble> {
    for line in script.split('\n') {
        let (said, wanted) = line.split_once(" => ").ok_or("no answer is wanted")?;
        let answered = answer(rt, alloc, system, said, workers)?;
        assert_same(rt, said, answered.as_str(), wanted);
    }
    Ok(())
}

/// What the words at the left of a line are answered. They are a list of steps, which are run in one call, or look at
/// something: `steps`, `packets`, `quiet`, `rows` (how many there are), `row PLACE` (in the order of execution),
/// `sorted PLACE` (in the order of stamps), `starved` or `waits CONN`. `drain` delivers all packets and tells how many
/// there were. `ask CONN WORD ..` makes all steps from a request's submit to its collect.
pub(crate) fn answer<W: Workers>(
    rt: &impl Abort,
    alloc: Global,
    system: &mut System,
    said: &str,
    workers: &W,
) -> Result<String, Trouble> {
    let (name, rest) = first_word(said);
    match name {
        "steps" => number(alloc, system.steps()),
        "packets" => number(alloc, system.packets() as u64),
        "quiet" => yes_or_no(alloc, system.quiet()),
        "rows" => number(alloc, system.rows().len() as u64),
        "row" => row_at(alloc, system, place_of(rest)?),
        "sorted" => sorted_at(alloc, system, place_of(rest)?),
        "starved" => starved(alloc, system),
        "waits" => waiting(alloc, system, conn_of(rest)?),
        "drain" => number(alloc, u64::from(deliver_all(system, workers)?)),
        "ask" => ask(alloc, system, rest, workers),
        _ => made(rt, alloc, system, said, workers),
    }
}

fn number(alloc: Global, number: u64) -> Result<String, Trouble> {
    Ok(format!(in alloc; "{number}")?)
}

fn yes_or_no(alloc: Global, answer: bool) -> Result<String, Trouble> {
    Ok(String::from_str(alloc, if answer { "true" } else { "false" })?)
}

/// What the steps came to, with `; ` between, and behind them the fault of the one that wasn't made. Where none was
/// made, nothing may have changed, unless a worker couldn't be started.
fn made<W: Workers>(
    rt: &impl Abort,
    alloc: Global,
    system: &mut System,
    list: &str,
    workers: &W,
) -> Result<String, Trouble> {
    let before = state(alloc, system)?;
    let mut text = String::new(alloc);
    if push_made(alloc, &mut text, system, list, workers)? {
        return Ok(text);
    }
    assert_unchanged(rt, alloc, system, list, before.as_str())?;
    Ok(text)
}

/// Runs the steps and adds what they came to. Whether anything may have changed.
fn push_made<W: Workers>(
    alloc: Global,
    text: &mut String,
    system: &mut System,
    list: &str,
    workers: &W,
) -> Result<bool, Trouble> {
    let steps = steps_of(alloc, list)?;
    let (effects, fault) = system.run(steps, workers, &OpenGate);
    let pushed = push_effects_and_fault(alloc, text, effects.as_slice(), fault);
    let some_made = !effects.is_empty() || matches!(fault, Some(StepFault::Failed));
    discard(effects);
    pushed?;
    Ok(some_made)
}

/// All that can be looked at is as it was before; else the test ends.
pub(crate) fn assert_unchanged(
    rt: &impl Abort,
    alloc: Global,
    system: &System,
    said: &str,
    before: &str,
) -> Result<(), Trouble> {
    let after = state(alloc, system)?;
    assert_same(rt, said, after.as_str(), before);
    Ok(())
}

/// Adds what steps came to, and behind it a fault, if there is one.
fn push_effects_and_fault(
    alloc: Global,
    text: &mut String,
    effects: &[Effect],
    fault: Option<StepFault>,
) -> Result<(), Trouble> {
    push_effects(alloc, text, effects)?;
    match fault {
        Some(fault) => {
            part(text)?;
            push_fault(text, fault)
        }
        None => Ok(()),
    }
}

/// Adds what steps came to.
fn push_effects(alloc: Global, text: &mut String, effects: &[Effect]) -> Result<(), Trouble> {
    for effect in effects {
        part(text)?;
        push_effect(alloc, text, effect)?;
    }
    Ok(())
}

/// Adds `; ` behind what is there, if something is.
fn part(text: &mut String) -> Result<(), Trouble> {
    if !text.is_empty() {
        text.push_str("; ")?;
    }
    Ok(())
}

/// Lets a value go. What that takes for each kind of reply is seen here alone.
pub(crate) fn discard<T: Drop>(_value: T) {}

/// All that can be looked at.
pub(crate) fn state(alloc: Global, system: &System) -> Result<String, Trouble> {
    let mut text = String::new(alloc);
    push_state(alloc, &mut text, system)?;
    Ok(text)
}

/// Adds all that can be looked at.
fn push_state(alloc: Global, text: &mut String, system: &System) -> Result<(), Trouble> {
    write!(
        text,
        "{} steps, {} packets",
        system.steps(),
        system.packets()
    )?;
    write!(text, ", quiet {}\nstarved", system.quiet())?;
    push_names(text, system.starved())?;
    text.push('\n')?;
    push_rows(alloc, text, system.rows())?;
    push_outcomes(alloc, text, system)
}

/// Adds the outcomes that wait at the first connections.
fn push_outcomes(alloc: Global, text: &mut String, system: &System) -> Result<(), Trouble> {
    for conn in 0..4 {
        push_waiting(alloc, text, system.waits(ConnId(conn)))?;
        text.push('\n')?;
    }
    Ok(())
}

fn row_at(alloc: Global, system: &System, place: usize) -> Result<String, Trouble> {
    let mut text = String::new(alloc);
    match system.rows().row(place) {
        Some(row) => push_row(alloc, &mut text, &row)?,
        None => text.push_str("nothing")?,
    }
    Ok(text)
}

fn sorted_at(alloc: Global, system: &System, place: usize) -> Result<String, Trouble> {
    let places = by_stamp(alloc, system.rows())?;
    row_at(alloc, system, *places.get(place).ok_or("no such row")?)
}

fn starved(alloc: Global, system: &System) -> Result<String, Trouble> {
    let mut text = format!(in alloc; "{}:", system.starved().len())?;
    push_names(&mut text, system.starved())?;
    Ok(text)
}

fn waiting(alloc: Global, system: &System, conn: ConnId) -> Result<String, Trouble> {
    let mut text = String::new(alloc);
    push_waiting(alloc, &mut text, system.waits(conn))?;
    Ok(text)
}

/// Submits a request, delivers all packets in their order, runs all layers, and collects. What was collected.
pub(crate) fn ask<W: Workers>(
    alloc: Global,
    system: &mut System,
    asked: &str,
    workers: &W,
) -> Result<String, Trouble> {
    let submit = format!(in alloc; "submit {asked}")?;
    discard(make(alloc, system, submit.as_str(), workers)?);
    deliver_all(system, workers)?;
    run_layers(alloc, system, workers)?;
    collect(alloc, system, first_word(asked).0, workers)
}

/// Collects at the connection of this number. What was collected.
fn collect<W: Workers>(
    alloc: Global,
    system: &mut System,
    conn: &str,
    workers: &W,
) -> Result<String, Trouble> {
    let words = format!(in alloc; "collect {conn}")?;
    make(alloc, system, words.as_str(), workers)
}

/// Makes a step, which is made, and tells what it came to.
pub(crate) fn make<W: Workers>(
    alloc: Global,
    system: &mut System,
    words: &str,
    workers: &W,
) -> Result<String, Trouble> {
    let step = step_of(alloc, words)?;
    let effect = system.step(step, workers, &OpenGate)?;
    let mut text = String::new(alloc);
    let pushed = push_effect(alloc, &mut text, &effect);
    discard(effect);
    pushed?;
    Ok(text)
}

/// Delivers the oldest packet until none is left, 10,000 times at most. How often.
pub(crate) fn deliver_all<W: Workers>(system: &mut System, workers: &W) -> Result<u32, Trouble> {
    for count in 0..10_000u32 {
        if system.packets() == 0 {
            return Ok(count);
        }
        discard(system.step(Step::Deliver { place: 0 }, workers, &OpenGate)?);
    }
    Err("packets are left".into())
}

/// Takes, runs and settles layers until nothing is ready, 10,000 times at most.
pub(crate) fn run_layers<W: Workers>(
    alloc: Global,
    system: &mut System,
    workers: &W,
) -> Result<(), Trouble> {
    for _ in 0..10_000u32 {
        if system.quiet() {
            return Ok(());
        }
        run_layer(alloc, system, workers)?;
    }
    Err("layers are left".into())
}

/// Takes, runs and settles a layer.
fn run_layer<W: Workers>(alloc: Global, system: &mut System, workers: &W) -> Result<(), Trouble> {
    for words in &["take", "run", "settle"] {
        make(alloc, system, words, workers)?;
    }
    Ok(())
}
