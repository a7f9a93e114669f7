//! The requests, and the members of requests, that a Run names to starve.

ghost use Rattle.std.specs.Prelude.{◌≡◌, IfOk};
ghost use Rattle.std.specs.List.{list_all};
ghost use Rattle.tasks.specs.Starved.{has};
ghost use Rattle.groups.specs.Skips.{names_whole, parts_of};
ghost use Rattle.replay.specs.Names.{is_named};
ghost use Rattle.replay.specs.Replay.{named_in, starved_at};

use groups::{RequestId, SkipId};
use journal::Step;
use std::alloc::{AllocError, Global};
use system::Effect;

/// Whether all that starved at a step is among what was named to starve. Where it isn't, memory was wanted that the run had
/// had.
pub fn are_named(effect: &Effect, named: &[SkipId]) -> bool
    ensures { result ≡ list_all (is_named named.now) (starved_at effect.now) }
{
    match effect {
        Effect::Ran(starved) => are_among(starved.as_slice(), named),
        _ => true,
    }
}

/// The names of what a Run is told to let starve; none of another step. The only error is want of memory.
pub fn named_in(alloc: Global, step: &Step) -> Result<Vec<SkipId>, AllocError>
    ensures { IfOk result (λ named. named.items ≡ named_in step.now) }
{
    match step {
        Step::Run { starved } => starved.as_slice().to_vec(alloc),
        _ => Ok(Vec::new(alloc)),
    }
}

/// Whether each of these names is one of the others.
fn are_among(names: &[SkipId], others: &[SkipId]) -> bool
    ensures { result ≡ list_all (is_named others.now) names.now }
{
    for name in names {
        if !is_among(name, others) {
            return false;
        }
    }
    true
}

/// Whether the name is one of the others.
fn is_among(name: &SkipId, others: &[SkipId]) -> bool
    ensures { result ≡ is_named others.now name.now }
{
    match name {
        SkipId::Whole(id) => is_whole_among(*id, others),
        SkipId::Part(id, number) => is_part_among(*id, *number, others),
    }
}

/// Whether one of these names is that of the request as a whole.
pub fn is_whole_among(id: RequestId, names: &[SkipId]) -> bool
    ensures { result ≡ names_whole names.now id }
{
    for name in names {
        if let SkipId::Whole(other) = name
            && *other == id
        {
            return true;
        }
    }
    false
}

/// Whether one of these names is that of the request's member of this number.
fn is_part_among(id: RequestId, number: u64, names: &[SkipId]) -> bool
    ensures { result ≡ has (parts_of names.now id) number }
{
    for name in names {
        if let SkipId::Part(other, part) = name
            && *other == id
            && *part == number
        {
            return true;
        }
    }
    false
}

/// The numbers of the request's members that are named. The only error is want of memory.
pub(super) fn parts_in(
    alloc: Global,
    names: &[SkipId],
    id: RequestId,
) -> Result<Vec<usize>, AllocError>
    ensures { IfOk result (λ parts. parts.items ≡ parts_of names.now id) }
{
    let mut parts = Vec::new(alloc);
    for name in names {
        if let SkipId::Part(other, number) = name
            && *other == id
        {
            parts.push(*number as usize)?;
        }
    }
    Ok(parts)
}
