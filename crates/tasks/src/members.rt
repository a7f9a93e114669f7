//! The members of an EXEC, run in turn.

ghost use Rattle.std.specs.Prelude.{◌≡◌, ◌≤◌, [], length, map, vec_capacity, All, IsTrue};
ghost use Rattle.std.specs.List.{flat_map};
ghost use Rattle.resp.specs.Content.{content};
ghost use Rattle.tasks.specs.Batch.{RunsFrom};
ghost use Rattle.tasks.specs.Keys.{member_keys};
ghost use Rattle.tasks.specs.Member.{Fares, MemberTakesMemory};

use crate::commands::execute;
use keyspace::Keyspace;
use resp::Reply;
use sessions::{Member, Members};
use std::alloc::Global;

/// Runs the members one after another but for those to be skipped, and gives their replies, for which there is room.
pub(crate) fn run_members<K: Keyspace>(
    alloc: Global,
    keyspace: &mut K,
    members: Members,
    skip: &[usize],
    room: Vec<Reply>,
) -> Vec<Reply>
    requires covered { All (λ key. IsTrue (K.covered key)) (flat_map member_keys members) }
    requires empty { room.items ≡ [] }
    requires room { length members ≤ vec_capacity room }
    ensures run { RunsFrom MemberTakesMemory skip.now 1 (K.contents keyspace.old) members (map content result.items)
        (K.contents keyspace.new) }
{
    let mut replies = room;
    for member in members.into_vec() {
        let number = replies.len() + 1;
        let reply = run_member(alloc, keyspace, member, skip.contains(&number));
        replies.push_reserved(reply);
    }
    replies
}

/// Runs a member unless it is to be skipped, and gives its reply, which says where there was no memory for it.
fn run_member<K: Keyspace>(alloc: Global, keyspace: &mut K, member: Member, skipped: bool) -> Reply
    requires covered { All (λ key. IsTrue (K.covered key)) (member_keys member) }
    ensures fares { Fares MemberTakesMemory skipped member (K.contents keyspace.old) (K.contents keyspace.new) (content result) }
{
    if skipped {
        return Reply::out_of_memory();
    }
    match member {
        Member::Refused(misread) => Reply::Error(misread.refusal().text()),
        Member::Runs(command) => match execute(alloc, keyspace, command) {
            Ok(reply) => reply,
            Err(_) => Reply::out_of_memory(),
        },
    }
}
