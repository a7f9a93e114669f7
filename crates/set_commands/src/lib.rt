//! The bodies of the commands on sets.
//!
//! What each does is the Redis command reference's: <https://redis.io/docs/latest/commands/?group=set>.
//! `command_bodies` runs them.
#![tactic(auto)]

mod algebra;
mod arrays;
mod changes;
mod combine;
mod looks;
mod moves;
mod sets;
mod text_plan;

ghost use Rattle.std.specs.Prelude.{◌≡◌, All, IsTrue, OnErr};
ghost use Rattle.command_cases.specs.Case.{Does};
ghost use Rattle.command_table.specs.SetCommands.{set_command_keys};
ghost use Rattle.set_commands.specs.Combination.{IntersectionMembers, UnionMembers, DifferenceMembers};
ghost use Rattle.set_commands.specs.SetCommand.{set_command_case, SetCommandTakesMemory};

use algebra::{sdiff, sdiffstore, sinter, sinterstore, sunion, sunionstore};
use arrays::{smembers, smismember};
use changes::{sadd, srem};
use command_cases::{Starved, body_rows};
use command_table::{SetCommand, command_rows};
use keyspace::Keyspace;
use looks::{scard, sismember};
use moves::smove;
use resp::Reply;
use std::alloc::Global;
pub use text_plan::set_text_plan;

/// Runs a command on sets, by the body that its row names.
pub fn run_set_command<K: Keyspace>(
    alloc: Global,
    keyspace: &mut K,
    command: SetCommand,
) -> Result<Reply, Starved>
    requires { All (λ key. IsTrue (K.covered key)) (set_command_keys command) }
    ensures done { Does (set_command_case command)
        (K.contents keyspace.old) (K.contents keyspace.new) result }
    ensures starves { OnErr result (SetCommandTakesMemory command (K.contents keyspace.old)) }
{
    command_rows!(sets, body_rows, SetCommand, alloc, keyspace, command)
}

/// What it is to be a member of an intersection, of a union and of a difference of sets.
pub fn combined_members()
    ensures intersection { IntersectionMembers }
    ensures union { UnionMembers }
    ensures difference { DifferenceMembers }
{}
