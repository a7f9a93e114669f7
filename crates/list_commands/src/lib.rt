//! The bodies of the commands on lists.
//!
//! What each does is the Redis command reference's: <https://redis.io/docs/latest/commands/?group=list>.
//! `command_bodies` runs them.
#![tactic(auto)]

mod ends;
mod items;
mod lists;
mod moves;
mod places;
mod text_plan;

ghost use Rattle.std.specs.Prelude.{◌≡◌, All, IsTrue, OnErr};
ghost use Rattle.command_cases.specs.Case.{Does};
ghost use Rattle.command_table.specs.ListCommands.{list_command_keys};
ghost use Rattle.list_commands.specs.ListCommand.{list_command_case, ListCommandTakesMemory};

use command_cases::{Starved, body_rows};
use command_table::{ListCommand, command_rows};
use ends::{lpop, lpush, lpushx, rpop, rpush, rpushx};
use items::{linsert, lrem, lset, ltrim};
use keyspace::Keyspace;
use moves::{lmove, rpoplpush};
use places::{lindex, llen, lrange};
use resp::Reply;
use std::alloc::Global;
pub use text_plan::list_text_plan;

/// Runs a command on lists, by the body that its row names.
pub fn run_list_command<K: Keyspace>(
    alloc: Global,
    keyspace: &mut K,
    command: ListCommand,
) -> Result<Reply, Starved>
    requires { All (λ key. IsTrue (K.covered key)) (list_command_keys command) }
    ensures done { Does (list_command_case command)
        (K.contents keyspace.old) (K.contents keyspace.new) result }
    ensures starves { OnErr result (ListCommandTakesMemory command (K.contents keyspace.old)) }
{
    command_rows!(lists, body_rows, ListCommand, alloc, keyspace, command)
}
