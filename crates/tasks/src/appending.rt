//! A command run for a reply whose text is appended to the texts of others.

ghost use Rattle.std.specs.Prelude.{◌≡◌, ◌<◌, ◌≤◌, ◌+◌, ◌++◌, All, IsTrue, IfOk, OnOk, OnErr, length, vec_len, vec_capacity};
ghost use Rattle.tasks.specs.CommandAnswer.{AnswerTakesMemory};
ghost use Rattle.tasks.specs.Command.{effect_of};
ghost use Rattle.command_cases.specs.Case.{Does};
ghost use Rattle.command_table.specs.Command.{keys_of};
ghost use Rattle.resp.specs.Content.{content};
ghost use Rattle.resp.specs.LongText.{IsLong, IsShort};
ghost use Rattle.resp.specs.Text.{reply_text, text};
ghost use Rattle.resp.specs.declared.answered.TheConstants.{LONG};

use crate::command_answers::{let_go, text_plan};
use crate::commands::execute;
use command_cases::{Starved, TextPlan};
use command_table::Command;
use keyspace::Keyspace;
use resp::{Answered, Reply, write_reply};
use std::alloc::{AllocError, Global};

/// Runs a command as `answer` does, and appends its reply's text to `out`, where there is room for 128 bytes and `spare`
/// more. The keyspace has to cover each of its keys. Room for `spare` bytes is left behind the text.
///
/// `Starved` comes only where the command takes memory, or where its reply has more than 128 bytes and there is no
/// memory for the text of it; the keyspace then has the contents that it had before, and nothing was appended.
pub fn answer_into<K: Keyspace>(
    alloc: Global,
    keyspace: &mut K,
    command: Command,
    out: &mut Vec<u8>,
    spare: usize,
) -> Result<Reply, Starved>
    requires covered { All (λ key. IsTrue (K.covered key)) (keys_of command) }
    requires room { vec_len out.old + LONG + spare ≤ vec_capacity out.old }
    ensures done { Does (effect_of command)
        (K.contents keyspace.old) (K.contents keyspace.new) result }
    ensures starves { OnErr result (AnswerTakesMemory command (K.contents keyspace.old)) }
    ensures text { IfOk result (λ reply. out.new.items ≡ out.old.items ++ text (content reply)) }
    ensures spare { OnOk result (vec_len out.new + spare ≤ vec_capacity out.new) }
    ensures err { OnErr result (out.new.items ≡ out.old.items) }
    ensures capacity { vec_capacity out.old ≤ vec_capacity out.new }
{
    match text_plan(keyspace, &command) {
        TextPlan::Never => {
            let reply = execute(alloc, keyspace, command)?;
            Ok(append_short(alloc, reply, out))
        }
        TextPlan::After => {
            let reply = execute(alloc, keyspace, command)?;
            append(&reply, out, spare)?;
            Ok(reply)
        }
        TextPlan::Before(size) => match make_room(out, size, spare) {
            Ok(()) => {
                let reply = execute(alloc, keyspace, command)?;
                put(&reply, out);
                Ok(reply)
            }
            Err(_) => Err(let_go(command)),
        },
    }
}

/// Appends the text of a reply that is short by its kind, for which there is room, and gives the reply back.
pub fn append_short(alloc: Global, reply: Reply, out: &mut Vec<u8>) -> Reply
    requires short { IsShort (content reply) }
    requires room { vec_len out.old + LONG ≤ vec_capacity out.old }
    ensures same { result ≡ reply }
    ensures text { out.new.items ≡ out.old.items ++ text (content reply) }
    ensures size { vec_len out.new ≤ vec_len out.old + LONG }
    ensures capacity { vec_capacity out.old ≤ vec_capacity out.new }
{
    let alone = Answered::alone(alloc, reply);
    put(&alone.reply, out);
    alone.reply
}

/// Appends the reply's text, and leaves room for `spare` bytes behind it; `AllocError` where there is no memory for that, and
/// nothing was appended.
fn append(reply: &Reply, out: &mut Vec<u8>, spare: usize) -> Result<(), AllocError>
    requires { vec_len out.old + LONG + spare ≤ vec_capacity out.old }
    ensures ok { OnOk result (out.new.items ≡ out.old.items ++ text (content reply.now)) }
    ensures spare { OnOk result (vec_len out.new + spare ≤ vec_capacity out.new) }
    ensures err { OnErr result (out.new.items ≡ out.old.items) }
    ensures long { OnErr result (IsLong (content reply.now)) }
    ensures capacity { vec_capacity out.old ≤ vec_capacity out.new }
{
    let start = out.len();
    write_reply(reply, out)?;
    let room = out.reserve(spare);
    if room.is_err() {
        out.truncate(start);
    }
    room
}

/// Takes room for a text of this size and `spare` bytes more; `AllocError` where there is no memory for it.
fn make_room(out: &mut Vec<u8>, size: usize, spare: usize) -> Result<(), AllocError>
    requires { vec_len out.old + LONG + spare ≤ vec_capacity out.old }
    ensures ok { OnOk result (vec_len out.old + size + spare ≤ vec_capacity out.new) }
    ensures long { OnErr result (LONG < size) }
    ensures items { out.new.items ≡ out.old.items }
    ensures capacity { vec_capacity out.old ≤ vec_capacity out.new }
{
    let room = size.checked_add(spare).ok_or(AllocError)?;
    out.reserve(room)
}

/// Appends the reply's text, for which there is room.
fn put(reply: &Reply, out: &mut Vec<u8>)
    requires { vec_len out.old + length (reply_text reply.now) ≤ vec_capacity out.old }
    ensures text { out.new.items ≡ out.old.items ++ text (content reply.now) }
    ensures capacity { vec_capacity out.old ≤ vec_capacity out.new }
{
    let Ok(()) = write_reply(reply, out) else {
        unreachable!();
    };
}
