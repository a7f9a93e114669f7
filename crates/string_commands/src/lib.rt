//! The bodies of the commands on strings.
//!
//! What each does is the Redis command reference's: <https://redis.io/docs/latest/commands/?group=string>.
//! `command_bodies` runs them.
#![tactic(auto)]

mod bodies;
mod many;
mod numbers;
mod pairs;
mod reads;
mod replaces;
mod text_plan;
mod writes;

ghost use Rattle.std.specs.Prelude.{◌≡◌, All, IsTrue, OnErr};
ghost use Rattle.command_cases.specs.Case.{Does};
ghost use Rattle.command_table.specs.StringCommands.{string_command_keys};
ghost use Rattle.string_commands.specs.StringCommand.{string_command_case, StringCommandTakesMemory};

use bodies::{get, set, setnx};
use command_cases::{Starved, body_rows};
use command_table::{StringCommand, command_rows};
use keyspace::Keyspace;
use many::mget;
use numbers::{decr, decrby, incr, incrby};
use pairs::{mset, msetnx};
use reads::{getrange, strlen};
use replaces::{getdel, getset};
use resp::Reply;
use std::alloc::Global;
pub use text_plan::string_text_plan;
use writes::{append, setrange};

/// Runs a command on strings, by the body that its row names.
pub fn run_string_command<K: Keyspace>(
    alloc: Global,
    keyspace: &mut K,
    command: StringCommand,
) -> Result<Reply, Starved>
    requires { All (λ key. IsTrue (K.covered key)) (string_command_keys command) }
    ensures done { Does (string_command_case command)
        (K.contents keyspace.old) (K.contents keyspace.new) result }
    ensures starves { OnErr result (StringCommandTakesMemory command (K.contents keyspace.old)) }
{
    command_rows!(strings, body_rows, StringCommand, alloc, keyspace, command)
}
