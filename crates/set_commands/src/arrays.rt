//! SMEMBERS and SMISMEMBER: several replies of one set.
//!
//! The room for the reply is taken first, and each member is copied once.

ghost use Rattle.std.specs.Prelude.{◌≡◌, ◌<◌, IsTrue, IsSome, IfOk, OnErr, length};
ghost use Rattle.std.specs.FinMap as map;
ghost use Rattle.std.specs.Option.{option_copied};
ghost use Rattle.command_cases.specs.Case.{Does, at_key};
ghost use Rattle.resp.specs.Content.{content};
ghost use Rattle.set_commands.specs.Combination.{found_members};
ghost use Rattle.set_commands.specs.SetCommand.{looks_at_set, smembers_answer, sismember_answer, smismember_answer};
ghost use Rattle.set_commands.specs.SetCommand.{members_there, some_members};

use crate::sets::order_set;
use command_cases::{Starved, truth_reply, wrong_type_reply};
use keyspace::Keyspace;
use resp::{BulkTexts, Reply, bulk_size};
use std::alloc::{AllocError, Global};
use texts::{Text, Texts};
use values::{SetValue, Value};

/// `SMEMBERS key`: the members, ascending; an error where the key holds a value of another type.
/// <https://redis.io/docs/latest/commands/smembers/>
#[tactic(auto, using(keyspace::proofs::Changes::changes, resp::proofs::Contents::content_of))]
pub(crate) fn smembers<K: Keyspace>(
    alloc: Global,
    keyspace: &mut K,
    key: Text,
) -> Result<Reply, Starved>
    requires { IsTrue (K.covered key) }
    ensures done { Does (at_key key (looks_at_set smembers_answer))
        (K.contents keyspace.old) (K.contents keyspace.new) result }
    ensures starves { OnErr result (0 < length (some_members (map.get (K.contents keyspace.old) key))) }
{
    order_set(alloc, keyspace, key.as_slice());
    match keyspace.look(key.as_slice()) {
        None => Ok(Reply::Array(Vec::new(alloc))),
        Some(Value::Set(set)) => Ok(members_reply(alloc, set)?),
        Some(_) => Ok(wrong_type_reply()),
    }
}

/// `SMISMEMBER key member [member ..]`: whether each is a member, in order of the words; an error where the key holds a
/// value of another type. <https://redis.io/docs/latest/commands/smismember/>
#[tactic(auto, using(keyspace::proofs::Changes::changes))]
pub(crate) fn smismember<K: Keyspace>(
    alloc: Global,
    keyspace: &K,
    key: Text,
    members: Texts,
) -> Result<Reply, Starved>
    requires { IsTrue (K.covered key) }
    ensures done { Does (at_key key (looks_at_set (smismember_answer members)))
        (K.contents keyspace.now) (K.contents keyspace.now) result }
    ensures starves { OnErr result (IsSome (members_there (map.get (K.contents keyspace.now) key))) }
{
    match keyspace.look(key.as_slice()) {
        None => Ok(each_truth_reply(alloc, None, &members)?),
        Some(Value::Set(set)) => Ok(each_truth_reply(alloc, Some(set), &members)?),
        Some(_) => Ok(wrong_type_reply()),
    }
}

/// The members of a set, copied.
#[tactic(auto, using(resp::proofs::Contents::content_of))]
fn members_reply(alloc: Global, set: &SetValue) -> Result<Reply, AllocError>
    ensures copied { IfOk result (λ reply. content reply ≡ smembers_answer set.now) }
    ensures starves { OnErr result (0 < length set.now) }
{
    let mut texts = BulkTexts::with_room(alloc, texts_size(set))?;
    let mut members = set.members(alloc);
    while let Some(member) = members.next() {
        texts.push(member)?;
    }
    Ok(Reply::Bulks(texts))
}

/// The number of bytes of the members' texts, or the greatest number. A set has a member.
fn texts_size(set: &SetValue) -> usize
    ensures { 0 < length set.now }
{
    let mut size: usize = 0;
    let mut members = set.in_any_order();
    for _ in 0..set.len() {
        if let Some(member) = members.next() {
            size = size.saturating_add(bulk_size(member));
        }
    }
    size
}

/// Whether each of these is a member; a set that is missing has none.
#[tactic(auto, using(resp::proofs::Contents::content_of))]
fn each_truth_reply(
    alloc: Global,
    set: Option<&SetValue>,
    members: &Texts,
) -> Result<Reply, AllocError>
    ensures { IfOk result (λ reply. content reply ≡ smismember_answer members.now (found_members (option_copied set.entry))) }
{
    let mut replies = Vec::with_capacity(alloc, members.len())?;
    for member in members.as_slice() {
        replies.push(member_reply(set, member.as_slice()))?;
    }
    Ok(Reply::Array(replies))
}

/// Whether it is a member; a set that is missing has none.
fn member_reply(set: Option<&SetValue>, member: &[u8]) -> Reply
    ensures { content result ≡ sismember_answer member.now (found_members (option_copied set.entry)) }
{
    match set {
        None => truth_reply(false),
        Some(set) => truth_reply(set.has(member)),
    }
}
