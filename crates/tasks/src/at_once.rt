//! Batches that look at no key.

ghost use Rattle.std.specs.Prelude.{◌≡◌, ◌≤◌, false, [], length, map, vec_capacity, IfOk, IfErr};
ghost use Rattle.std.specs.FinMap.{empty};
ghost use Rattle.tasks.specs.AtOnce.{IsKeylessCommand, IsKeylessMember, AreKeyless, IsKeyedBatch, replies_at_once};
ghost use Rattle.tasks.specs.Batch.{batch_effect};
ghost use Rattle.tasks.specs.Keys.{looks_at_keys};
ghost use Rattle.tasks.specs.Member.{member_case};
ghost use Rattle.tasks.specs.Command.{effect_of};
ghost use Rattle.resp.specs.Content.{content};

use crate::local_commands::local;
use command_table::Command;
use resp::Reply;
use sessions::{Batch, Member, Members};
use std::alloc::Global;

/// Answers a batch that looks at no key, as it is answered on a map without keys. A command takes no memory; an EXEC takes room for the
/// array of its replies, and where there is none the batch is given back.
pub fn answer_at_once(alloc: Global, batch: Batch) -> Result<Reply, Batch>
    requires keyless { looks_at_keys batch ≡ false }
    requires keyed { IsKeyedBatch batch }
    ensures ok { IfOk result (λ reply. content reply ≡ (batch_effect [] batch empty).1) }
    ensures err { IfErr result (λ back. back ≡ batch) }
{
    match batch {
        Batch::Plain(command) => Ok(answer_local(command)),
        // The slice is asked for its clause that each command of a member is keyed.
        Batch::Exec(members) => match Vec::with_capacity(alloc, members.as_slice().len()) {
            Ok(room) => Ok(Reply::Array(answer_members(members, room))),
            Err(_) => Err(Batch::Exec(members)),
        },
    }
}

/// Answers members that look at no key, in room for as many.
fn answer_members(members: Members, room: Vec<Reply>) -> Vec<Reply>
    requires keyless { AreKeyless members }
    requires empty { room.items ≡ [] }
    requires room { length members ≤ vec_capacity room }
    ensures { map content result.items ≡ replies_at_once members }
{
    let mut replies = room;
    for member in members.into_vec() {
        replies.push_reserved(answer_member(member));
    }
    replies
}

/// Answers a member that looks at no key.
fn answer_member(member: Member) -> Reply
    requires { IsKeylessMember member }
    ensures { content result ≡ (member_case member empty).1 }
{
    match member {
        Member::Refused(misread) => Reply::Error(misread.refusal().text()),
        Member::Runs(command) => answer_local(command),
    }
}

/// Answers a command that looks at no key.
fn answer_local(command: Command) -> Reply
    requires { IsKeylessCommand command }
    ensures { content result ≡ (effect_of command empty).1 }
{
    match command {
        Command::Local(command) => local(command),
        Command::Key(_) => unreachable!(),
        Command::Str(_) => unreachable!(),
        Command::List(_) => unreachable!(),
        Command::Hash(_) => unreachable!(),
        Command::Set(_) => unreachable!(),
    }
}
