//! SADD and SREM.
//!
//! Members are added to a set where it lies. SREM takes it out of the keyspace and puts back what is left; the key keeps
//! its place meanwhile, with the empty string, so that putting it back takes no memory.

ghost use Rattle.std.specs.Prelude.{◌≡◌, IsTrue, IsSome, IsOk, OnErr, None, Some};
ghost use Rattle.std.specs.FinMap as map;
ghost use Rattle.command_cases.specs.Case.{Does, at_key};
ghost use Rattle.command_cases.specs.Changes.{Changes};
ghost use Rattle.set_commands.specs.SetCommand.{changes_set, sadd_change, srem_change, members_there};

use command_cases::{Starved, count_reply, wrong_type_reply};
use keyspace::Keyspace;
use resp::Reply;
use std::alloc::Global;
use texts::{Text, Texts};
use values::{SetValue, Value};

/// `SADD key member [member ..]`: adds the members, and says how many were new; an error where the key holds a value of
/// another type.
///
/// All members are added, or none where there is no memory. <https://redis.io/docs/latest/commands/sadd/>
#[tactic(auto, using(keyspace::proofs::Changes::changes))]
pub(crate) fn sadd<K: Keyspace>(
    alloc: Global,
    keyspace: &mut K,
    key: Text,
    members: Texts,
) -> Result<Reply, Starved>
    requires { IsTrue (K.covered key) }
    ensures done { Does (at_key key (changes_set (sadd_change members)))
        (K.contents keyspace.old) (K.contents keyspace.new) result }
    ensures starves { OnErr result (IsSome (members_there (map.get (K.contents keyspace.old) key))) }
{
    match keyspace.look_mut(key.as_slice()) {
        None => add_new_set(alloc, keyspace, key, members),
        Some(value) => add_in_place(value, members),
    }
}

/// Adds the members to a set where it lies, all of them, or none where there is no memory.
fn add_in_place(value: &mut Value, members: Texts) -> Result<Reply, Starved>
    ensures done { Changes (changes_set (sadd_change members)) value.old value.new result }
    ensures starves { OnErr result (IsSome (members_there (Some value.old))) }
{
    let Value::Set(set) = value else {
        return Ok(wrong_type_reply());
    };
    let added = set.insert_all(members)?;
    Ok(count_reply(added))
}

/// Adds the members to a set that isn't there.
#[tactic(auto, using(keyspace::proofs::Changes::changes))]
fn add_new_set<K: Keyspace>(
    alloc: Global,
    keyspace: &mut K,
    key: Text,
    members: Texts,
) -> Result<Reply, Starved>
    requires covered { IsTrue (K.covered key) }
    requires absent { map.get (K.contents keyspace.old) key ≡ None }
    ensures done { Does (at_key key (changes_set (sadd_change members)))
        (K.contents keyspace.old) (K.contents keyspace.new) result }
{
    let Some(set) = SetValue::from_members(alloc, keyspace.hasher(), members)? else {
        return Ok(count_reply(0));
    };
    let added = set.len();
    let Ok(_) = keyspace.put(key.into_vec(), Value::Set(set)) else {
        return Err(Starved);
    };
    Ok(count_reply(added))
}

/// `SREM key member [member ..]`: removes the members, and says how many were there; a member that is named twice is
/// one member. A set that becomes empty goes with its key; an error where the key holds a value of another type.
///
/// It takes no memory. <https://redis.io/docs/latest/commands/srem/>
#[tactic(auto, using(keyspace::proofs::Changes::changes))]
pub(crate) fn srem<K: Keyspace>(
    alloc: Global,
    keyspace: &mut K,
    key: Text,
    members: Texts,
) -> Result<Reply, Starved>
    requires { IsTrue (K.covered key) }
    ensures done { Does (at_key key (changes_set (srem_change members)))
        (K.contents keyspace.old) (K.contents keyspace.new) result }
    ensures answers { IsOk result }
{
    match keyspace.look(key.as_slice()) {
        None => return Ok(count_reply(0)),
        Some(Value::Set(_)) => {}
        Some(_) => return Ok(wrong_type_reply()),
    }
    let Value::Set(set) = keyspace.replace(key.as_slice(), Value::Str(Text::empty(alloc))) else {
        unreachable!();
    };
    let (removed, left) = set.remove_all(&members);
    match left {
        Some(set) => {
            keyspace.replace(key.as_slice(), Value::Set(set));
        }
        None => {
            keyspace.take(key.as_slice());
        }
    }
    Ok(count_reply(removed))
}
