//! What comes of a request: how its connection stands, and the groups that it addresses.

ghost use Rattle.std.specs.Prelude.{◌≡◌, ◌<◌, length, true, None, Ok, IfOk, IfErr};
ghost use Rattle.command_table.specs.Reading.{reading};
ghost use Rattle.command_table.specs.declared.command.Command.TheVariants.{Local};
ghost use Rattle.command_table.specs.declared.local_commands.LocalCommand.TheVariants.{Ping};
ghost use Rattle.tasks.specs.AtOnce.{IsKeyedBatch};
ghost use Rattle.router.specs.Submitting.{TellsOf};
ghost use Rattle.sessions.specs.declared.batch.Batch.TheVariants.{Exec};
ghost use Rattle.router.specs.declared.connection.Standing.TheVariants.{Answered};
ghost use Rattle.sessions.specs.Control.{control_in};
ghost use Rattle.sessions.specs.Session.{asks, Go};
ghost use Rattle.sessions.specs.declared.session.Session.TheVariants.{Free};
ghost use Rattle.worded.specs.Reading.{members_of};

use super::connection::Standing;
use super::outcome::Outcome;
use command_table::LocalCommand;
use groups::{Groups, RequestId};
use packing::{PackedList, PackedRequest};
use placement::Table;
use resp::{Reply, Request};
use sessions::{Batch, Members};
use std::alloc::{AllocError, Global};
use tasks::{answer_at_once, local, task_groups};
use worded::{Worded, WordedFault};

/// What comes of a request outside a list, which is none of the three names of a list: refused words and commands that look
/// at no key are answered, and any other command waits. The only error is want of memory.
pub(super) fn ask_plain(
    alloc: Global,
    table: &Table,
    id: RequestId,
    words: Request,
) -> Result<(Standing, Groups), AllocError>
    requires { control_in words ≡ None }
    ensures { IfOk result (TellsOf table.now id (asks Free words).1) }
{
    if is_ping(&words) {
        let reply = local(LocalCommand::Ping { word: None });
        return Ok((answered(id, reply), Groups::empty()));
    }
    match Worded::read(alloc, words) {
        Ok(asked) => match ask_task(alloc, table, id, asked) {
            Ok(told) => Ok(told),
            Err(_) => Err(AllocError),
        },
        Err(WordedFault::Refused(refusal)) => {
            let reply = Reply::Error(refusal.text());
            Ok((answered(id, reply), Groups::empty()))
        }
        Err(WordedFault::Memory) => Err(AllocError),
    }
}

/// Whether these words are PING alone, by which clients see that a server is there: neither a copy of them nor a command is made for it.
pub(super) fn is_ping(words: &Request) -> bool
    ensures { result ≡ true → reading words.now ≡ Ok (Local (Ping None)) }
{
    words.len() == 1 && words.word(0).eq_ignore_ascii_case(b"ping")
}

/// What comes of an EXEC whose members have these words: members that look at no key are answered, and others wait. Where
/// there is no memory the members are given back.
pub(super) fn ask_exec(
    alloc: Global,
    table: &Table,
    id: RequestId,
    members: Members,
    list: &PackedList,
) -> Result<(Standing, Groups), Batch>
    requires some { 0 < length members }
    requires read { members_of list.now ≡ Ok members }
    ensures told { IfOk result (TellsOf table.now id (Go (Exec members))) }
    ensures back { IfErr result (λ back. back ≡ Exec members) }
{
    match PackedRequest::of_list(alloc, b"exec", list) {
        Ok(words) => ask_task(alloc, table, id, Worded::of_members(words, members)),
        Err(_) => Err(Batch::Exec(members)),
    }
}

/// What comes of a batch: one that looks at no key is answered, and any other waits. Where there is no memory for the array of
/// its replies it is given back.
// Inlined, so that a plain command is moved once.
#[inline(always)]
fn ask_task(
    alloc: Global,
    table: &Table,
    id: RequestId,
    asked: Worded,
) -> Result<(Standing, Groups), Batch>
    requires { IsKeyedBatch asked.batch }
    ensures told { IfOk result (TellsOf table.now id (Go asked.batch)) }
    ensures back { IfErr result (λ back. back ≡ asked.batch) }
{
    // `shards` is called for its clause that the table is one.
    let _shards = table.shards();
    let groups = task_groups(table, asked.batch());
    if groups.is_empty() {
        let (_, batch) = asked.into_parts();
        let reply = answer_at_once(alloc, batch)?;
        return Ok((answered(id, reply), groups));
    }
    Ok((Standing::Waiting(asked), groups))
}

/// A request that addresses no group has its outcome at once.
pub(super) fn answered(id: RequestId, reply: Reply) -> Standing
    ensures { result ≡ Answered (record { id = id; reply = reply; stamp = None }) }
{
    Standing::Answered(Outcome {
        id,
        reply,
        stamp: None,
    })
}
