//! A layer of 2,000 requests of one group.

use crate::answers::follow;
use crate::tables::system_of;
use crate::trouble::Trouble;
use shard_workers::InTurn;
use std::alloc::Global;
use std::num::NonZeroUsize;
use std::process::Abort;
use std::test::Fail;

/// How many connections ask.
const REQUESTS: u64 = 2_000;

/// Each connection is opened, and submits an increment of one key.
fn push_submits(text: &mut String) -> Result<(), Trouble> {
    for number in 0..REQUESTS {
        let conn = number + 1;
        write!(
            text,
            "open => opened {conn}\nsubmit {conn} INCR a => submitted {conn}.1\n"
        )?;
    }
    Ok(())
}

/// Each collects its own number: they were executed in the order of their submits.
fn push_collects(text: &mut String) -> Result<(), Trouble> {
    for number in 0..REQUESTS {
        let conn = number + 1;
        write!(text, "\ncollect {conn} => {conn}.1 at {conn}.0 :{conn}|")?;
    }
    Ok(())
}

/// All are under way before the first packet comes, and are one layer.
fn script(alloc: Global) -> Result<String, Trouble> {
    let mut text = String::new(alloc);
    push_submits(&mut text)?;
    write!(
        text,
        "packets => {REQUESTS}\ndrain => {REQUESTS}\ntake; run; settle => made; ran; made"
    )?;
    push_collects(&mut text)?;
    Ok(text)
}

/// Follows the script in a system of one shard.
fn runs(rt: &impl Abort, alloc: Global) -> Result<(), Trouble> {
    let script = script(alloc)?;
    let mut system = system_of(alloc, 1, 10_000)?;
    follow(
        rt,
        alloc,
        &mut system,
        script.as_str(),
        &InTurn(NonZeroUsize::MIN),
    )
}

#[test]
fn a_layer_of_2000_requests(rt: HostRuntime) -> Result<(), Fail> {
    runs(&rt, rt.alloc())?;
    Ok(())
}
