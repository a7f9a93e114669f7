//! SMOVE.
//!
//! The target gets a copy of the member. So all memory is taken before the source changes, and nothing has to be
//! undone.

ghost use Rattle.std.specs.Prelude.{◌≡◌, [], false, IsTrue, IsSome, IfOk, OnOk, OnErr};
ghost use Rattle.std.specs.FinMap as map;
ghost use Rattle.std.specs.Str.{bytes_eq};
ghost use Rattle.command_cases.specs.Case.{Does};
ghost use Rattle.command_cases.specs.Shapes.{at_two};
ghost use Rattle.keyspace.specs.Map.{set};
ghost use Rattle.set_commands.specs.SetCommand.{is_set, members_there, smove_step, some_members};
ghost use Rattle.values.specs.SetValue.{with_member, without_member};
ghost use Rattle.values.specs.Value.{set_value};
ghost use Rattle.values.specs.declared.Value.TheVariants as kind;

use command_cases::{Starved, truth_reply, wrong_type_reply};
use hashed_texts::TextHasher;
use keyspace::Keyspace;
use resp::Reply;
use std::alloc::{AllocError, Global};
use texts::{Text, Texts};
use values::{SetValue, Value};

/// `SMOVE source destination member`: moves the member from the first set to the second; 1 where it was in the first,
/// equal names included, which change nothing; 0 where it wasn't, or the first is missing, whatever is at the second.
///
/// <https://redis.io/docs/latest/commands/smove/>
#[tactic(auto, using(keyspace::proofs::Changes::changes))]
pub(crate) fn smove<K: Keyspace>(
    alloc: Global,
    keyspace: &mut K,
    from: Text,
    to: Text,
    member: Text,
) -> Result<Reply, Starved>
    requires from { IsTrue (K.covered from) }
    requires to { IsTrue (K.covered to) }
    ensures done { Does (at_two from to (smove_step (bytes_eq from to) member))
        (K.contents keyspace.old) (K.contents keyspace.new) result }
    ensures starves { OnErr result (IsTrue (is_set (map.get (K.contents keyspace.old) from))) }
{
    let there = match keyspace.look(from.as_slice()) {
        None => return Ok(truth_reply(false)),
        Some(Value::Set(set)) => set.has(member.as_slice()),
        Some(_) => return Ok(wrong_type_reply()),
    };
    match keyspace.look(to.as_slice()) {
        None | Some(Value::Set(_)) => {}
        Some(_) => return Ok(wrong_type_reply()),
    }
    if !there {
        return Ok(truth_reply(false));
    }
    if from.as_slice() == to.as_slice() {
        return Ok(truth_reply(true));
    }
    move_apart(alloc, keyspace, from.as_slice(), to, member)?;
    Ok(truth_reply(true))
}

/// Moves a member from the set at one key to that at another, or to a new one.
fn move_apart<K: Keyspace>(
    alloc: Global,
    keyspace: &mut K,
    from: &[u8],
    to: Text,
    member: Text,
) -> Result<(), Starved>
    requires from { IsTrue (K.covered from.now) }
    requires to { IsTrue (K.covered to) }
    requires apart { bytes_eq from.now to ≡ false }
    requires there { IsTrue (is_set (map.get (K.contents keyspace.old) from.now)) }
    requires target { IsSome (members_there (map.get (K.contents keyspace.old) to)) }
    ensures ok { OnOk result (K.contents keyspace.new ≡ map.insert
        (set (K.contents keyspace.old) from.now
        (set_value (without_member (some_members (map.get (K.contents keyspace.old) from.now)) member)))
        to (kind.Set (with_member (some_members (map.get (K.contents keyspace.old) to)) member))) }
    ensures err { OnErr result (K.contents keyspace.new ≡ K.contents keyspace.old) }
{
    let text = member.as_slice();
    let copy = Text::copy_of(alloc, text)?;
    put_member(alloc, keyspace, to, copy)?;
    remove_member(alloc, keyspace, from, text);
    Ok(())
}

/// Adds a member to the set at a key, or makes a new one where the key is missing; nothing changes where there is no
/// memory.
#[tactic(auto, using(keyspace::proofs::Changes::changes))]
fn put_member<K: Keyspace>(
    alloc: Global,
    keyspace: &mut K,
    key: Text,
    member: Text,
) -> Result<(), Starved>
    requires covered { IsTrue (K.covered key) }
    requires target { IsSome (members_there (map.get (K.contents keyspace.old) key)) }
    ensures ok { OnOk result (K.contents keyspace.new ≡ map.insert (K.contents keyspace.old) key
        (kind.Set (with_member (some_members (map.get (K.contents keyspace.old) key)) member))) }
    ensures err { OnErr result (K.contents keyspace.new ≡ K.contents keyspace.old) }
{
    if keyspace.look(key.as_slice()).is_none() {
        let set = set_of_one(alloc, keyspace.hasher(), member)?;
        return match keyspace.put(key.into_vec(), Value::Set(set)) {
            Ok(_) => Ok(()),
            Err(_) => Err(Starved),
        };
    }
    let Value::Set(mut set) = keyspace.replace(key.as_slice(), Value::Str(Text::empty(alloc)))
    else {
        unreachable!();
    };
    let added = set.insert(member);
    keyspace.replace(key.as_slice(), Value::Set(set));
    added?;
    Ok(())
}

/// The set of this member alone, which hashes its members by `hasher`.
fn set_of_one(alloc: Global, hasher: TextHasher, member: Text) -> Result<SetValue, AllocError>
    ensures { IfOk result (λ set. set ≡ with_member [] member) }
{
    let mut members = Vec::with_capacity(alloc, 1)?;
    members.push(member.into_vec())?;
    let Some(set) = SetValue::from_members(alloc, hasher, Texts::from(members))? else {
        unreachable!();
    };
    Ok(set)
}

/// Removes a member of the set at a key; the key goes with the last one. It takes no memory.
#[tactic(auto, using(keyspace::proofs::Changes::changes))]
fn remove_member<K: Keyspace>(alloc: Global, keyspace: &mut K, key: &[u8], member: &[u8])
    requires covered { IsTrue (K.covered key.now) }
    requires there { IsTrue (is_set (map.get (K.contents keyspace.old) key.now)) }
    ensures removed { K.contents keyspace.new ≡ set (K.contents keyspace.old) key.now
        (set_value (without_member (some_members (map.get (K.contents keyspace.old) key.now)) member.now)) }
{
    let Value::Set(set) = keyspace.replace(key, Value::Str(Text::empty(alloc))) else {
        unreachable!();
    };
    match set.remove(member) {
        Some(set) => {
            keyspace.replace(key, Value::Set(set));
        }
        None => {
            keyspace.take(key);
        }
    }
}
