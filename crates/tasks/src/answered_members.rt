//! The members of an EXEC, run in turn, with the texts of their replies.

ghost use Rattle.std.specs.Prelude.{◌≡◌, ◌≤◌, ◌+◌, ◌*◌, [], ◌++◌, length, map, vec_len, vec_capacity, All, IsTrue};
ghost use Rattle.std.specs.List.{flat_map};
ghost use Rattle.tasks.specs.BatchAnswer.{MemberAnswerTakesMemory};
ghost use Rattle.tasks.specs.Batch.{RunsFrom};
ghost use Rattle.tasks.specs.Keys.{member_keys};
ghost use Rattle.tasks.specs.Member.{Fares};
ghost use Rattle.tasks.specs.Skips.{names_part};
ghost use Rattle.tasks.specs.Starved.{has};
ghost use Rattle.groups.specs.Skips.{parts_of};
ghost use Rattle.resp.specs.Content.{content};
ghost use Rattle.resp.specs.Text.{reply_text};
ghost use Rattle.resp.specs.declared.answered.TheConstants.{LONG};

use crate::appending::{answer_into, append_short};
use groups::{RequestId, SkipId};
use keyspace::Keyspace;
use resp::{LONG, Reply};
use sessions::{Member, Members};
use std::alloc::Global;

/// Runs the members of the request `id` one after another but for those to be skipped, and gives their replies, for which
/// there is room. The texts of the replies are appended to `out`, where there is room for 128 bytes a member.
pub(crate) fn answer_members<K: Keyspace>(
    alloc: Global,
    keyspace: &mut K,
    members: Members,
    id: RequestId,
    skip: &[SkipId],
    room: Vec<Reply>,
    out: &mut Vec<u8>,
) -> Vec<Reply>
    requires covered { All (λ key. IsTrue (K.covered key)) (flat_map member_keys members) }
    requires empty { room.items ≡ [] }
    requires room { length members ≤ vec_capacity room }
    requires texts { vec_len out.old + LONG * length members ≤ vec_capacity out.old }
    ensures run { RunsFrom MemberAnswerTakesMemory (parts_of skip.now id) 1
        (K.contents keyspace.old) members (map content result.items) (K.contents keyspace.new) }
    ensures texts { out.new.items ≡ out.old.items ++ flat_map reply_text result.items }
{
    let mut replies = room;
    let count = members.len();
    let mut spare = LONG * count;
    for member in members.into_vec() {
        let number = replies.len() + 1;
        spare -= LONG;
        let skipped = names_member(skip, id, number);
        let reply = answer_member(alloc, keyspace, member, skipped, out, spare);
        replies.push_reserved(reply);
    }
    replies
}

/// Runs a member unless it is to be skipped, and gives its reply, which says where there was no memory for it or for the
/// reply's text. The text is appended to `out`, where there is room for 128 bytes and `spare` more, and room for `spare`
/// bytes is left behind it.
fn answer_member<K: Keyspace>(
    alloc: Global,
    keyspace: &mut K,
    member: Member,
    skipped: bool,
    out: &mut Vec<u8>,
    spare: usize,
) -> Reply
    requires covered { All (λ key. IsTrue (K.covered key)) (member_keys member) }
    requires room { vec_len out.old + LONG + spare ≤ vec_capacity out.old }
    ensures fares { Fares MemberAnswerTakesMemory skipped member
        (K.contents keyspace.old) (K.contents keyspace.new) (content result) }
    ensures text { out.new.items ≡ out.old.items ++ reply_text result }
    ensures spare { vec_len out.new + spare ≤ vec_capacity out.new }
{
    if skipped {
        return append_short(alloc, Reply::out_of_memory(), out);
    }
    match member {
        Member::Refused(misread) => append_short(
            alloc,
            Reply::Error(misread.refusal().text()),
            out,
        ),
        Member::Runs(command) => match answer_into(alloc, keyspace, command, out, spare) {
            Ok(reply) => reply,
            Err(_) => append_short(alloc, Reply::out_of_memory(), out),
        },
    }
}

/// Whether the member of this number of the request `id` is among these names.
fn names_member(names: &[SkipId], id: RequestId, number: usize) -> bool
    ensures { result ≡ has (parts_of names.now id) number }
{
    names.iter().any(|name| names_part(name, id, number))
}

/// Whether this is the name of the member of this number of the request `id`.
fn names_part(name: &SkipId, id: RequestId, number: usize) -> bool
    ensures { result ≡ names_part id number name.now }
{
    match name {
        SkipId::Part(of, part) => *of == id && *part == number as u64,
        SkipId::Whole(_) => false,
    }
}
