//! A request run again on one store, where the same members starve.

ghost use Rattle.std.specs.Prelude.{◌≡◌, true, map, IfOk, IsTrue};
ghost use Rattle.tasks.specs.Starved.{has, is_want};
ghost use Rattle.groups.specs.Skips.{parts_of};
ghost use Rattle.resp.specs.Content.{content, contents};
ghost use Rattle.sessions.specs.declared.batch.Batch.TheVariants.{Exec};
ghost use Rattle.tasks.specs.Tasks.{deed_effect};
ghost use Rattle.replay.specs.Running.{AreToldBy, IsToldBy};

use crate::named::parts_in;
use groups::{RequestId, SkipId};
use resp::Reply;
use sessions::{Batch, Members};
use solo::Solo;
use std::alloc::{AllocError, Global};
use std::hash::BuildHasher;
use tasks::is_want_reply;

/// Runs the batch of this request, where those of its members starve that are named, and no others. The only error is want of
/// memory.
pub(super) fn run_as<S: BuildHasher>(
    alloc: Global,
    batch: Batch,
    id: RequestId,
    starved: &[SkipId],
    solo: &mut Solo<S>,
) -> Result<Reply, AllocError>
    ensures { IfOk result (λ reply. (solo.new, content reply) ≡ deed_effect (batch, parts_of starved.now id) solo.old) }
{
    match batch {
        Batch::Plain(command) => match solo.try_run(command) {
            Ok(reply) => Ok(reply),
            Err(_) => Err(AllocError),
        },
        Batch::Exec(members) => {
            let skip = parts_in(alloc, starved, id)?;
            run_members(members, skip.as_slice(), solo)
        }
    }
}

/// Runs the members of an EXEC, of which those of these numbers starve, which count from 1, and no others.
fn run_members<S: BuildHasher>(
    members: Members,
    skip: &[usize],
    solo: &mut Solo<S>,
) -> Result<Reply, AllocError>
    ensures { IfOk result (λ reply. (solo.new, content reply) ≡ deed_effect (Exec members, skip.now) solo.old) }
{
    let reply = solo.run_batch(Batch::Exec(members), skip);
    if is_told_by(&reply, skip) {
        Ok(reply)
    } else {
        Err(AllocError)
    }
}

/// Whether the reply is an array, and each place of it that says that there was no memory has one of these numbers.
fn is_told_by(reply: &Reply, skip: &[usize]) -> bool
    ensures { IsTrue result → IsToldBy skip.now (content reply.now) }
{
    match reply {
        Reply::Array(replies) => are_told_by(replies.as_slice(), skip),
        _ => false,
    }
}

/// Whether each of these places that says that there was no memory has one of these numbers, which count from 1.
fn are_told_by(replies: &[Reply], skip: &[usize]) -> bool
    ensures { IsTrue result → AreToldBy skip.now 1 (contents (map content replies.now)) }
{
    for (place, reply) in replies.iter().enumerate() {
        if !may_say(reply, place + 1, skip) {
            return false;
        }
    }
    true
}

/// Whether the reply doesn't say that there was no memory, or its place has one of these numbers.
fn may_say(reply: &Reply, number: usize, skip: &[usize]) -> bool
    ensures { IsTrue result → is_want (content reply.now) ≡ true → has skip.now number ≡ true }
{
    !is_want_reply(reply) || skip.contains(&number)
}
