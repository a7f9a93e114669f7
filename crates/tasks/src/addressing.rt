//! The groups that a task addresses.

ghost use Rattle.std.specs.Prelude.{◌≡◌, ◌||◌, ℕ};
ghost use Rattle.std.specs.List.{flat_map, list_any};
ghost use Rattle.tasks.specs.Keys.{member_keys, member_whole};
ghost use Rattle.groups.specs.GroupSet.{has, IsAscending};
ghost use Rattle.tasks.specs.Addressing.{groups_told};
ghost use Rattle.tasks.specs.Tasks as tasks;

use groups::Groups;
use placement::Table;
use sessions::{Batch, Member};

/// The groups that a batch addresses: the shards of its commands' keys, every shard where one of them is for all keys, and none
/// where none has a key. They ascend, each once. It takes no memory.
#[inline(always)]
pub fn task_groups(table: &Table, batch: &Batch) -> Groups
    ensures { result ≡ tasks.task_groups table.now batch.now }
{
    match batch {
        Batch::Plain(command) => table.groups(command),
        Batch::Exec(members) => groups_of_all(table, members.as_slice()),
    }
}

/// The groups that members address together.
fn groups_of_all(table: &Table, members: &[Member]) -> Groups
    ensures { result ≡ groups_told table.now (list_any member_whole members.now) (flat_map member_keys members.now) }
{
    let mut groups = Groups::empty();
    for member in members {
        groups = joined(groups, groups_of_member(table, member));
    }
    groups
}

/// The groups that a member addresses: none where it is answered by its refusal.
fn groups_of_member(table: &Table, member: &Member) -> Groups
    ensures { result ≡ groups_told table.now (member_whole member.now) (member_keys member.now) }
{
    match member {
        Member::Runs(command) => table.groups(command),
        Member::Refused(_) => Groups::empty(),
    }
}

/// Both sets together.
fn joined(groups: Groups, others: Groups) -> Groups
    requires { IsAscending groups }
    ensures both { (g : ℕ) → has result g ≡ (has groups g || has others g) }
    ensures ascending { IsAscending result }
{
    let mut all = groups;
    for group in others.iter() {
        all = all.with(group);
    }
    all
}
