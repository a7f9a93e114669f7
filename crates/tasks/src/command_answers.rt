//! A command run for a reply that is kept: the memory for a long text is taken before anything has happened.

ghost use Rattle.std.specs.Prelude.{◌≡◌, All, IsTrue, OnErr};
ghost use Rattle.tasks.specs.CommandAnswer.{reply_of, AnswerTakesMemory};
ghost use Rattle.tasks.specs.Command.{case_of, effect_of};
ghost use Rattle.command_cases.specs.Case.{Does};
ghost use Rattle.command_cases.specs.TextPlan.{IsPlanFor};
ghost use Rattle.command_table.specs.Command.{keys_of};

use crate::commands::execute;
use command_cases::{Starved, TextPlan};
use command_table::Command;
use hash_commands::hash_text_plan;
use keyspace::Keyspace;
use list_commands::list_text_plan;
use resp::{Answered, text_block};
use set_commands::set_text_plan;
use std::alloc::Global;
use string_commands::string_text_plan;

/// Runs a command as `execute` does, and gives its reply with its text where that is long. The keyspace has to cover
/// each of its keys.
///
/// `Starved` comes only where the command takes memory, or where its reply has more than 128 bytes and there is no
/// memory for the text of it; the keyspace then has the contents that it had before.
pub fn answer<K: Keyspace>(
    alloc: Global,
    keyspace: &mut K,
    command: Command,
) -> Result<Answered, Starved>
    requires { All (λ key. IsTrue (K.covered key)) (keys_of command) }
    ensures done { Does (effect_of command)
        (K.contents keyspace.old) (K.contents keyspace.new) (reply_of result) }
    ensures starves { OnErr result (AnswerTakesMemory command (K.contents keyspace.old)) }
{
    match text_plan(keyspace, &command) {
        TextPlan::Never => {
            let reply = execute(alloc, keyspace, command)?;
            Ok(Answered::alone(alloc, reply))
        }
        TextPlan::After => {
            let reply = execute(alloc, keyspace, command)?;
            Ok(Answered::with_text(alloc, reply)?)
        }
        TextPlan::Before(size) => match text_block(alloc, size) {
            Ok(block) => {
                let reply = execute(alloc, keyspace, command)?;
                Ok(Answered::in_block(reply, block))
            }
            Err(_) => Err(let_go(command)),
        },
    }
}

/// Lets a command go that can't be run for want of memory.
pub(crate) fn let_go(_command: Command) -> Starved {
    Starved
}

/// When the memory for the text of this command's reply is taken.
pub(crate) fn text_plan<K: Keyspace>(keyspace: &K, command: &Command) -> TextPlan
    requires { All (λ key. IsTrue (K.covered key)) (keys_of command.now) }
    ensures { IsPlanFor (case_of command.now) (K.contents keyspace.now) result }
{
    match command {
        Command::Key(_command) => TextPlan::Never,
        Command::Str(command) => string_text_plan(keyspace, command),
        Command::List(command) => list_text_plan(keyspace, command),
        Command::Hash(command) => hash_text_plan(command),
        Command::Set(command) => set_text_plan(command),
        Command::Local(_) => TextPlan::After,
    }
}
