//! What becomes of a run in which one allocation fails.
//!
//! Where all succeed these tests say no more than others do. The gate runs each of them with each allocation failing in
//! turn.

use crate::answers::{answer, assert_holds, assert_same, assert_unchanged, discard, follow, state};
use crate::steps::{first_word, step_of};
use crate::tables::system_of;
use crate::trouble::Trouble;
use crate::wording::{push_effect, push_fault, push_names};
use shard_crew::Crew;
use shard_workers::{InTurn, OpenGate, Workers};
use std::alloc::Global;
use std::num::NonZeroUsize;
use std::process::Abort;
use std::test::Fail;
use system::{Effect, StepFault, System};

/// Two requests of both groups cross, and then one of each group tells what is there.
const CROSSING: &str = "open => opened 1
open => opened 2
submit 1 MSET a 1 c 2 => submitted 1.1
submit 2 MSET a 3 c 4 => submitted 2.1
deliver 0 => made
deliver 2 => made
deliver 1 => made
deliver 0 => made
deliver 0 => made
deliver 0 => made
deliver 0 => made
deliver 0 => made
take => made
run => ran
settle => made
take => made
run => ran
settle => made
collect 1 => 1.1 at 2.1 +OK|
collect 2 => 2.1 at 2.0 +OK|
submit 1 GET a => submitted 1.2
submit 2 GET c => submitted 2.2
deliver 0 => made
deliver 0 => made
take => made
run => ran
settle => made
collect 1 => 1.2 at 3.0 $1|1|
collect 2 => 2.2 at 3.1 $1|2|
rows => 4
row 0 => 2.1 at 2.0 MSET a 3 c 4 +OK|
row 1 => 1.1 at 2.1 MSET a 1 c 2 +OK|
row 2 => 1.2 at 3.0 GET a $1|1|
row 3 => 2.2 at 3.1 GET c $1|2|
starved => 0:";

/// One request names a key twice, and then both keys are looked at.
const SAME_KEY_TWICE: &str = "open => opened 1
submit 1 MSET a 1 c 2 a 3 => submitted 1.1
deliver 0 => made
deliver 0 => made
deliver 0 => made
deliver 0 => made
take => made
run => ran
settle => made
collect 1 => 1.1 at 1.1 +OK|
submit 1 MGET a c => submitted 1.2
deliver 0 => made
deliver 0 => made
deliver 0 => made
deliver 0 => made
take => made
run => ran
settle => made
collect 1 => 1.2 at 2.1 *2|$1|3|$1|2|
rows => 2
row 0 => 1.1 at 1.1 MSET a 1 c 2 a 3 +OK|
row 1 => 1.2 at 2.1 MGET a c *2|$1|3|$1|2|
starved => 0:";

/// Packets are repeated, copies among them, and come while the request is open and once it is delivered; then both keys
/// are looked at.
const REPEATED: &str = "open => opened 1
submit 1 MSET a 1 c 2 => submitted 1.1
repeat 0 => made
repeat 1 => made
repeat 2 => made
repeat 3 => made
deliver 0 => made
deliver 1 => made
repeat 4 => made
deliver 0 => made
deliver 3 => made
deliver 4 => made
take => made
run => ran
settle => made
deliver 0 => made
deliver 0 => made
deliver 0 => made
deliver 0 => made
deliver 0 => NoPacket
take => NoLayer
collect 1 => 1.1 at 1.1 +OK|
submit 1 MGET a c => submitted 1.2
deliver 0 => made
repeat 0 => made
deliver 0 => made
deliver 0 => made
deliver 0 => made
deliver 0 => made
take => made
run => ran
settle => made
collect 1 => 1.2 at 2.1 *2|$1|1|$1|2|
rows => 2
row 0 => 1.1 at 1.1 MSET a 1 c 2 +OK|
row 1 => 1.2 at 2.1 MGET a c *2|$1|1|$1|2|
starved => 0:";

/// Steps with a fault of their own, which is told also where there is no memory.
const OWN_FAULTS: &str = "submit 1 SET a 1 => NoConn
open => opened 1
submit 1 SET a 1 => submitted 1.1
submit 1 SET a 2 => Busy
submit 9 SET a 1 => NoConn
deliver 1 => NoPacket
repeat 1 => NoPacket
take => NoLayer
run => NoLayer
settle => NoLayer
deliver 0 => made
deliver 0 => NoPacket
repeat 0 => NoPacket
take => made
take => InFlight
settle => NoLayer
run => ran
run => NoLayer
settle => made
take => NoLayer
collect 2 => NoConn
close 2 => NoConn
open => opened 2
open => Exhausted
submit 1 SET a 2 => Exhausted
submit 2 SET a 2 => Exhausted
take => Exhausted
repeat 0 => Exhausted";

/// Requests of one group are taken together with the ready one that they stand behind.
const RUNS: &str = "open => opened 1
open => opened 2
open => opened 3
open => opened 4
open => opened 5
submit 1 SET a 1 => submitted 1.1
submit 2 INCR a => submitted 2.1
submit 3 MSET a 5 c 6 => submitted 3.1
submit 4 GET a => submitted 4.1
submit 5 SET c 9 => submitted 5.1
deliver 0 => made
deliver 0 => made
deliver 0 => made
deliver 0 => made
deliver 0 => made
deliver 0 => made
deliver 0 => made
deliver 0 => made
take => made
run => ran
settle => made
rows => 3
take => made
run => ran
settle => made
take => made
run => ran
settle => made
collect 1 => 1.1 at 1.0 +OK|
collect 2 => 2.1 at 2.0 :2|
collect 3 => 3.1 at 3.0 +OK|
collect 4 => 4.1 at 4.0 $1|5|
collect 5 => 5.1 at 2.1 +OK|
rows => 5
row 0 => 1.1 at 1.0 SET a 1 +OK|
row 1 => 2.1 at 2.0 INCR a :2|
row 2 => 5.1 at 2.1 SET c 9 +OK|
row 3 => 3.1 at 3.0 MSET a 5 c 6 +OK|
row 4 => 4.1 at 4.0 GET a $1|5|
starved => 0:";

/// A layer of two requests, of which one names 10,000 members of sets: so two workers have one each.
const LARGE_SETS: &str = "open => opened 1
open => opened 2
submit 1 SADD x 00..99 => submitted 1.1
deliver 0 => made
take => made
run => ran
settle => made
collect 1 => 1.1 at 1.1 :100|
submit 1 SET a 1 => submitted 1.2
submit 2 EXISTS x*100 => submitted 2.1
deliver 0 => made
deliver 0 => made
take => made
run => ran
settle => made
collect 1 => 1.2 at 2.0 +OK|
collect 2 => 2.1 at 2.1 :100|
rows => 3
row 1 => 1.2 at 2.0 SET a 1 +OK|
starved => 0:";

/// A list of both groups, whose members are run, and then both keys are looked at.
const LIST: &str = "open => opened 1
submit 1 MULTI => submitted 1.1
collect 1 => 1.1 +OK|
submit 1 MSET a 1 c 2 => submitted 1.2
collect 1 => 1.2 +QUEUED|
submit 1 APPEND a 3 => submitted 1.3
collect 1 => 1.3 +QUEUED|
submit 1 MGET a c => submitted 1.4
collect 1 => 1.4 +QUEUED|
submit 1 EXEC => submitted 1.5
deliver 0 => made
deliver 0 => made
deliver 0 => made
deliver 0 => made
take => made
run => ran
settle => made
collect 1 => 1.5 at 1.1 *3|+OK|:2|*2|$2|13|$1|2|
submit 1 MGET a c => submitted 1.6
deliver 0 => made
deliver 0 => made
deliver 0 => made
deliver 0 => made
take => made
run => ran
settle => made
collect 1 => 1.6 at 2.1 *2|$2|13|$1|2|
rows => 2
row 1 => 1.6 at 2.1 MGET a c *2|$2|13|$1|2|
starved => 0:";

/// Makes the steps of each line, and again where there was no memory for it. What is added is a script again: what each
/// step came to, and in each run what starved.
fn push_followed<W: Workers>(
    rt: &impl Abort,
    alloc: Global,
    system: &mut System,
    text: &mut String,
    script: &str,
    workers: &W,
) -> Result<(), Trouble> {
    for line in script.split('\n') {
        let (said, wanted) = line.split_once(" => ").ok_or("no answer is wanted")?;
        push_line_end(text)?;
        push_line(rt, alloc, system, text, said, wanted, workers)?;
    }
    Ok(())
}

/// Ends the line before, if there is one.
fn push_line_end(text: &mut String) -> Result<(), Trouble> {
    if !text.is_empty() {
        text.push('\n')?;
    }
    Ok(())
}

/// Adds what was said, and the arrow behind it.
fn push_said(text: &mut String, said: &str) -> Result<(), Trouble> {
    text.push_str(said)?;
    text.push_str(" => ")?;
    Ok(())
}

/// Adds what is looked at and what it is.
fn push_looked(text: &mut String, said: &str, answered: &str) -> Result<(), Trouble> {
    push_said(text, said)?;
    Ok(text.push_str(answered)?)
}

/// Adds a line: what is looked at, or a step and what it came to.
fn push_line<W: Workers>(
    rt: &impl Abort,
    alloc: Global,
    system: &mut System,
    text: &mut String,
    said: &str,
    wanted: &str,
    workers: &W,
) -> Result<(), Trouble> {
    if matches!(first_word(said).0, "rows" | "row" | "starved") {
        let answered = answer(rt, alloc, system, said, workers)?;
        return push_looked(text, said, answered.as_str());
    }
    let made = made_at_last(rt, alloc, system, said, wanted, workers)?;
    let pushed = push_made(alloc, text, said, &made);
    discard(made);
    pushed
}

/// Makes a step. Where it is refused for want of memory, nothing has changed, and it is made again.
fn made_at_last<W: Workers>(
    rt: &impl Abort,
    alloc: Global,
    system: &mut System,
    said: &str,
    wanted: &str,
    workers: &W,
) -> Result<Result<Effect, StepFault>, Trouble> {
    let before = state(alloc, system)?;
    let step = step_of(alloc, said)?;
    match system.step(step, workers, &OpenGate) {
        Err(StepFault::Memory) => {}
        made => return Ok(made),
    }
    assert_holds(rt, said, !is_own_fault(wanted));
    assert_unchanged(rt, alloc, system, said, before.as_str())?;
    let step = step_of(alloc, said)?;
    Ok(system.step(step, workers, &OpenGate))
}

/// Whether this is the name of a fault that comes before want of memory.
fn is_own_fault(answer: &str) -> bool {
    matches!(
        answer,
        "Busy" | "NoConn" | "NoPacket" | "InFlight" | "NoLayer" | "Exhausted"
    )
}

/// Adds a step and what it came to, or why it wasn't made.
fn push_made(
    alloc: Global,
    text: &mut String,
    said: &str,
    made: &Result<Effect, StepFault>,
) -> Result<(), Trouble> {
    match made {
        Ok(effect) => push_told(alloc, text, said, effect),
        Err(fault) => {
            push_said(text, said)?;
            push_fault(text, *fault)
        }
    }
}

/// Adds a step and what it came to. A run in which something starved is told to let it starve.
fn push_told(alloc: Global, text: &mut String, said: &str, effect: &Effect) -> Result<(), Trouble> {
    text.push_str(said)?;
    if let Effect::Ran(starved) = effect {
        push_names(text, starved.as_slice())?;
    }
    text.push_str(" => ")?;
    push_effect(alloc, text, effect)
}

/// Follows the script in this system. Where nothing starved, all is as if memory had always been there; where a request did, or
/// a member of one, all is as in a run that is told to let it starve.
fn attempt_in<W: Workers>(
    rt: &impl Abort,
    alloc: Global,
    system: &mut System,
    max_steps: u64,
    script: &str,
    workers: &W,
) -> Result<(), Trouble> {
    let mut again = String::new(alloc);
    push_followed(rt, alloc, system, &mut again, script, workers)?;
    if system.has_failed() {
        return stays_failed(rt, alloc, system, workers);
    }
    if system.starved().is_empty() {
        assert_same(rt, "all steps", again.as_str(), script);
        return Ok(());
    }
    follow_anew(rt, alloc, max_steps, again.as_str(), workers)
}

/// A worker's start was refused: no step is made any more.
fn stays_failed<W: Workers>(
    rt: &impl Abort,
    alloc: Global,
    system: &mut System,
    workers: &W,
) -> Result<(), Trouble> {
    let step = step_of(alloc, "take")?;
    let made = system.step(step, workers, &OpenGate);
    let failed = matches!(&made, Err(StepFault::Failed));
    assert_holds(rt, "failed for good", failed);
    discard(made);
    Ok(())
}

/// The same in a new system.
fn attempt<W: Workers>(
    rt: &impl Abort,
    alloc: Global,
    max_steps: u64,
    script: &str,
    workers: &W,
) -> Result<(), Trouble> {
    let mut system = system_of(alloc, 2, max_steps)?;
    attempt_in(rt, alloc, &mut system, max_steps, script, workers)
}

/// Follows a script in a new system.
fn follow_anew<W: Workers>(
    rt: &impl Abort,
    alloc: Global,
    max_steps: u64,
    script: &str,
    workers: &W,
) -> Result<(), Trouble> {
    let mut told = system_of(alloc, 2, max_steps)?;
    follow(rt, alloc, &mut told, script, workers)
}

/// Follows the script, and once more where an allocation of the test's own failed.
fn attempts<W: Workers>(
    rt: &impl Abort,
    alloc: Global,
    max_steps: u64,
    script: &str,
    workers: &W,
) -> Result<(), Trouble> {
    match attempt(rt, alloc, max_steps, script, workers) {
        Err(Trouble::Memory) => attempt(rt, alloc, max_steps, script, workers),
        ended => ended,
    }
}

#[test]
fn crossing_where_memory_fails(rt: HostRuntime) -> Result<(), Fail> {
    attempts(&rt, rt.alloc(), 1000, CROSSING, &InTurn(NonZeroUsize::MIN))?;
    Ok(())
}

#[test]
fn large_sets_by_two_where_memory_fails(rt: HostRuntime) -> Result<(), Fail> {
    let two = NonZeroUsize::new(2).ok_or("two")?;
    attempts(&rt, rt.alloc(), 1000, LARGE_SETS, &InTurn(two))?;
    Ok(())
}

#[test]
fn same_key_twice_where_memory_fails(rt: HostRuntime) -> Result<(), Fail> {
    attempts(
        &rt,
        rt.alloc(),
        1000,
        SAME_KEY_TWICE,
        &InTurn(NonZeroUsize::MIN),
    )?;
    Ok(())
}

#[test]
fn repeated_where_memory_fails(rt: HostRuntime) -> Result<(), Fail> {
    attempts(&rt, rt.alloc(), 1000, REPEATED, &InTurn(NonZeroUsize::MIN))?;
    Ok(())
}

#[test]
fn list_where_memory_fails(rt: HostRuntime) -> Result<(), Fail> {
    attempts(&rt, rt.alloc(), 1000, LIST, &InTurn(NonZeroUsize::MIN))?;
    Ok(())
}

#[test]
fn own_faults_come_before_memory(rt: HostRuntime) -> Result<(), Fail> {
    attempts(&rt, rt.alloc(), 7, OWN_FAULTS, &InTurn(NonZeroUsize::MIN))?;
    Ok(())
}

#[test]
fn runs_where_memory_fails(rt: HostRuntime) -> Result<(), Fail> {
    let two = NonZeroUsize::new(2).ok_or("two")?;
    attempts(&rt, rt.alloc(), 1000, RUNS, &InTurn(two))?;
    Ok(())
}

#[test]
fn runs_by_a_crew_of_one_where_memory_fails(rt: HostRuntime) -> Result<(), Fail> {
    let crew = Crew::new(&rt, NonZeroUsize::MIN);
    attempts(&rt, rt.alloc(), 1000, RUNS, &crew)?;
    Ok(())
}

#[test]
fn large_sets_by_a_crew_of_two_where_memory_fails(rt: HostRuntime) -> Result<(), Fail> {
    let two = NonZeroUsize::new(2).ok_or("two")?;
    attempts(&rt, rt.alloc(), 1000, LARGE_SETS, &Crew::new(&rt, two))?;
    Ok(())
}
