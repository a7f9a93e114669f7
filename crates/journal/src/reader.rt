//! Reading a trace's text: line by line, each byte of it once.

ghost use Rattle.std.specs.Prelude.{◌≡◌, ◌↔◌, ℕ, ◌≤◌, ◌<◌, ◌^◌, [], ◌∷◌, ◌++◌, true, false, IfOk, List, decimal, IsTrue, MatchOption};
ghost use Rattle.std.specs.Prelude.{MatchResult};
ghost use Rattle.journal.specs.TraceText.{end_line, HasNoLf, step_in, Spells, IsFaultOf};
ghost use Rattle.journal.specs.TraceReading.{IsLine, IsRead};

use super::fault::TraceFault;
use super::lines::step_in;
use super::parts::{cut_at, number_in};
use super::trace::{GREATEST_STEPS, Trace};
use super::version::GREATEST_VERSION;
use std::alloc::{AllocError, Global};

/// The trace that the text spells. It is `Bad` at the first line that no trace has there: where the end is missing,
/// at the line behind the last, and where something follows it, at the line behind the end. Any bytes can be read.
pub fn read_trace(alloc: Global, text: &[u8]) -> Result<Trace, TraceFault>
    ensures { MatchResult result (λ trace. Spells text.now trace.max trace.steps) (λ fault. IsFaultOf text.now fault) }
{
    let (version, max, rest) = read_head(text)?;
    read_steps(alloc, version, max, rest)
}

/// The version and the greatest number of steps, from the first two lines, and what stands behind them.
fn read_head(text: &[u8]) -> Result<(u64, u64, &[u8]), TraceFault>
    ensures { MatchResult result
        (λ r. (1 ≤ r.1) × (r.1 ≤ GREATEST_STEPS) × IsRead text.now r.2.now r.0 r.1 [])
        (λ fault. IsFaultOf text.now fault) }
{
    let Some((line, rest)) = next_line(text) else {
        return Err(TraceFault::Bad { line: 1 });
    };
    let Some(version) = number_up_to(GREATEST_VERSION, line, b"shardkv-trace ") else {
        return Err(TraceFault::Bad { line: 1 });
    };
    let Some((line, rest)) = next_line(rest) else {
        return Err(TraceFault::Bad { line: 2 });
    };
    let Some(max) = number_up_to(GREATEST_STEPS, line, b"max ") else {
        return Err(TraceFault::Bad { line: 2 });
    };
    Ok((version, max, rest))
}

/// The trace whose first two lines were read.
fn read_steps(alloc: Global, version: u64, max: u64, text: &[u8]) -> Result<Trace, TraceFault>
    requires least { 1 ≤ max }
    requires greatest { max ≤ GREATEST_STEPS }
    ensures { (whole : List ℕ) → IsRead whole text.now version max []
        → MatchResult result (λ trace. Spells whole trace.max trace.steps) (λ fault. IsFaultOf whole fault) }
{
    let mut trace = Trace::new(alloc, max);
    let mut rest = text;
    loop {
        let count = trace.len() as u64;
        let Some((line, behind)) = next_line(rest) else {
            return Err(TraceFault::Bad { line: count + 3 });
        };
        if is_end(line, count) {
            if behind.is_empty() {
                return Ok(trace);
            }
            return Err(TraceFault::Bad { line: count + 4 });
        }
        if !add_step(alloc, version, line, &mut trace)? {
            return Err(TraceFault::Bad { line: count + 3 });
        }
        rest = behind;
    }
}

/// Adds the step that the line says in a text of this version. Where it says none, the answer is false and nothing
/// changes.
fn add_step(alloc: Global, version: u64, line: &[u8], trace: &mut Trace) -> Result<bool, AllocError>
    ensures { IfOk result (λ added. MatchOption (step_in version line.now)
        ((added ≡ false) × (trace.new ≡ trace.old))
        (λ step. (added ≡ true) × (trace.new.max ≡ trace.old.max)
        × (trace.new.steps ≡ trace.old.steps ++ step ∷ []))) }
{
    match step_in(alloc, version, line)? {
        Some(step) => {
            trace.push(&step)?;
            Ok(true)
        }
        None => Ok(false),
    }
}

/// The first line, without its LF, and what stands behind it; `None` where there is no LF.
fn next_line(text: &[u8]) -> Option<(&[u8], &[u8])>
    ensures { MatchOption result (HasNoLf text.now) (λ r. IsLine text.now r.0.now r.1.now) }
{
    let (line, behind) = cut_at(text, b'\n');
    match behind {
        Some(behind) => Some((line, behind)),
        None => None,
    }
}

/// The number from 1 to the greatest one that stands behind this name, if the line is nothing else.
fn number_up_to(greatest: u64, line: &[u8], name: &[u8]) -> Option<u64>
    ensures { MatchOption result
        ((n : ℕ) → 1 ≤ n → n ≤ greatest → line.now ≡ name.now ++ decimal n → ⊥)
        (λ n. (line.now ≡ name.now ++ decimal n) × (1 ≤ n) × (n ≤ greatest)) }
{
    match number_behind(line, name) {
        Some(n) if 1 <= n && n <= greatest => Some(n),
        _ => None,
    }
}

/// Whether the line is the end of a trace of so many steps.
fn is_end(line: &[u8], count: u64) -> bool
    ensures { IsTrue result ↔ (line.now ≡ end_line count) }
{
    match number_behind(line, b"end ") {
        Some(number) => number == count,
        None => false,
    }
}

/// The number that stands behind this name, if the line is nothing else.
fn number_behind(line: &[u8], name: &[u8]) -> Option<u64>
    ensures { MatchOption result
        ((n : ℕ) → n < 2 ^ 64 → line.now ≡ name.now ++ decimal n → ⊥)
        (λ n. line.now ≡ name.now ++ decimal n) }
{
    number_in(line.strip_prefix(name)?)
}
