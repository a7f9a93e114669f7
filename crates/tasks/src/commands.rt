//! Every command's body behind one contract.
//!
//! `execute` runs a command over any keyspace that covers its keys: it takes the part of the map at the command's keys,
//! does there what the Redis command reference says of the command, and puts the part back. A server of one map and one
//! of many shards run the same bodies. `local` answers the commands that look at no key.

ghost use Rattle.std.specs.Prelude.{◌≡◌, All, IsTrue, OnErr};
ghost use Rattle.tasks.specs.Command.{case_of, effect_of, TakesMemory, AnswersCommute, ContentsCommute};
ghost use Rattle.command_cases.specs.Case.{Does};
ghost use Rattle.command_table.specs.Command.{keys_of};

use crate::local_commands::local;
use command_cases::Starved;
use command_table::Command;
use hash_commands::run_hash_command;
use key_commands::run_key_command;
use keyspace::Keyspace;
use list_commands::run_list_command;
use resp::Reply;
use set_commands::run_set_command;
use std::alloc::Global;
use string_commands::run_string_command;

/// Runs a command. The keyspace has to cover each of its keys.
///
/// The command answers and the keyspace is left as its effect says, which is taken at its keys alone. `Starved` comes
/// only where the command takes memory, as a SET of a key that isn't there; the keyspace then has the contents that it
/// had before.
pub fn execute<K: Keyspace>(
    alloc: Global,
    keyspace: &mut K,
    command: Command,
) -> Result<Reply, Starved>
    requires { All (λ key. IsTrue (K.covered key)) (keys_of command) }
    ensures done { Does (effect_of command)
        (K.contents keyspace.old) (K.contents keyspace.new) result }
    ensures starves { OnErr result (TakesMemory command (K.contents keyspace.old)) }
{
    run(alloc, keyspace, command)
}

/// Runs a command by its family, and leaves its case.
///
/// Each family's clause speaks of cases. That a command's effect is its case is one fact on top, which holds of every
/// body: so here the prover works arm by arm with no help, and `execute` has no arm.
fn run<K: Keyspace>(alloc: Global, keyspace: &mut K, command: Command) -> Result<Reply, Starved>
    requires { All (λ key. IsTrue (K.covered key)) (keys_of command) }
    ensures done { Does (case_of command)
        (K.contents keyspace.old) (K.contents keyspace.new) result }
    ensures starves { OnErr result (TakesMemory command (K.contents keyspace.old)) }
{
    match command {
        Command::Key(command) => run_key_command(alloc, keyspace, command),
        Command::Str(command) => run_string_command(alloc, keyspace, command),
        Command::List(command) => run_list_command(alloc, keyspace, command),
        Command::Hash(command) => run_hash_command(alloc, keyspace, command),
        Command::Set(command) => run_set_command(alloc, keyspace, command),
        Command::Local(command) => Ok(local(command)),
    }
}

/// That commands with no key in common can change places: each answers what it would have answered first, and both
/// leave the same map in either order. It is for commands that name their keys, which those for all keys do not.
pub fn commands_commute()
    ensures answers { AnswersCommute }
    ensures contents { ContentsCommute }
{}
