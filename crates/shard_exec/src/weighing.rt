//! Whether a layer has so much to do that several workers pay.

ghost use Rattle.std.specs.Prelude.{◌≡◌, ◌-◌, ◌<◌, ◌≤◌, length};
ghost use Rattle.std.specs.Bool.{OnTrue, OnFalse};
ghost use Rattle.std.specs.List.{AllByRecursion};
ghost use Rattle.shard_exec.specs.Weights.{least_dealt, members_at, members_of_command, members_of_member, members_of_all, members_of_batch, members_of_layer};

use command_table::{Command, keys_of};
use groups::Groups;
use keyspace::Keyspace;
use layer_planner::Job;
use placement::Table;
use sessions::{Batch, Member};
use shards::Shard;
use values::Value;

/// From so many members on, of all sets together that its requests name, a layer is dealt to several workers.
///
/// To start and join their threads takes some 170 microseconds of processor time a layer. Four workers were half as fast
/// as one where the sets had 1,000 members, and faster from some 10,000 on.
const LEAST_DEALT: usize = 10_000;

/// Whether each of these requests addresses just these groups.
pub fn all_address(groups: Groups, jobs: &[Job]) -> bool
    ensures all { OnTrue result (AllByRecursion (λ j. j.groups ≡ groups) jobs.now) }
    ensures not_all { OnFalse result (AllByRecursion (λ j. j.groups ≡ groups) jobs.now → ⊥) }
{
    for job in jobs {
        if !addresses(groups, job) {
            return false;
        }
    }
    true
}

/// Whether the request addresses just these groups.
fn addresses(groups: Groups, job: &Job) -> bool
    ensures these { OnTrue result (job.now.groups ≡ groups) }
    ensures others { OnFalse result (job.now.groups ≡ groups → ⊥) }
{
    job.groups == groups
}

/// Whether the sets that these requests name have together so many members that several workers pay. A set counts as often
/// as it is named. It looks at no more sets than it needs for that.
pub fn are_heavy(table: &Table, row: &[Shard], jobs: &[Job]) -> bool
    requires { length row.now ≡ table.now.shards }
    ensures heavy { OnTrue result (least_dealt ≤ members_of_layer table.now row.now jobs.now) }
    ensures light { OnFalse result (members_of_layer table.now row.now jobs.now < least_dealt) }
{
    let mut missing = LEAST_DEALT;
    for job in jobs {
        missing = behind_batch(table, row, job.asked.batch(), missing);
        if missing == 0 {
            return true;
        }
    }
    false
}

/// How many members are missing yet behind the sets that a batch names, where so many are missing before them.
fn behind_batch(table: &Table, row: &[Shard], batch: &Batch, before: usize) -> usize
    requires { length row.now ≡ table.now.shards }
    ensures { result ≡ before - members_of_batch table.now row.now batch.now }
{
    match batch {
        Batch::Plain(command) => behind_command(table, row, command, before),
        Batch::Exec(members) => behind_members(table, row, members.as_slice(), before),
    }
}

/// The same behind those that the members of an EXEC name.
fn behind_members(table: &Table, row: &[Shard], members: &[Member], before: usize) -> usize
    requires { length row.now ≡ table.now.shards }
    ensures { result ≡ before - members_of_all table.now row.now members.now }
{
    let mut missing = before;
    for member in members {
        missing = behind_member(table, row, member, missing);
    }
    missing
}

/// The same behind those that one of them names: none where it is answered by its refusal.
fn behind_member(table: &Table, row: &[Shard], member: &Member, before: usize) -> usize
    requires { length row.now ≡ table.now.shards }
    ensures { result ≡ before - members_of_member table.now row.now member.now }
{
    match member {
        Member::Runs(command) => behind_command(table, row, command, before),
        Member::Refused(_) => before,
    }
}

/// The same behind those that a command names.
fn behind_command(table: &Table, row: &[Shard], command: &Command, before: usize) -> usize
    requires { length row.now ≡ table.now.shards }
    ensures { result ≡ before - members_of_command table.now row.now command.now }
{
    let keys = keys_of(command);
    let mut missing = before;
    for place in 0..keys.len() {
        if missing == 0 {
            return 0;
        }
        missing = missing.saturating_sub(members_at(table, row, keys.at(place)));
    }
    missing
}

/// How many members the set at a key has; none where there is no set.
fn members_at(table: &Table, row: &[Shard], key: &[u8]) -> usize
    requires { length row.now ≡ table.now.shards }
    ensures { result ≡ members_at table.now row.now key.now }
{
    let shard = &row[usize::from(table.shard_of(key).number())];
    match shard.look(key) {
        Some(Value::Set(set)) => set.len(),
        _ => 0,
    }
}
