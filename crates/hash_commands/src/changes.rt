//! HDEL, HSETNX, HSET and HMSET.
//!
//! Fields are set in a hash where it lies. HDEL takes it out of the keyspace and puts back what is left; the key keeps
//! its place meanwhile, with the empty string, so that putting it back takes no memory.

ghost use Rattle.std.specs.Prelude.{◌≡◌, ◌-◌, IsTrue, IsSome, IsOk, OnOk, OnErr, None, Some};
ghost use Rattle.std.specs.FinMap as map;
ghost use Rattle.std.specs.Prelude.{IfOk, []};
ghost use Rattle.command_cases.specs.Case.{Does, at_key};
ghost use Rattle.command_cases.specs.Changes.{Changes};
ghost use Rattle.hash_commands.specs.HashCommand.{changes_hash, hdel_change, hsetnx_step, set_change, hset_step, hmset_step};
ghost use Rattle.hash_commands.specs.HashCommand.{pairs_there, some_pairs};
ghost use Rattle.hash_commands.specs.SetAnswer.{set_answer};
ghost use Rattle.keyspace.specs.Map.{set};
ghost use Rattle.resp.specs.Content.{content};
ghost use Rattle.values.specs.HashValue.{field_value, with_field};
ghost use Rattle.values.specs.Value.{hash_value};

use command_cases::{Starved, count_reply, ok_reply, truth_reply, wrong_type_reply};
use hashed_texts::TextHasher;
use keyspace::Keyspace;
use resp::Reply;
use std::alloc::{AllocError, Global};
use texts::{Pairs, Text, Texts};
use values::{HashValue, Value};

/// `HDEL key field [field ..]`: removes the fields, and says how many were there; a field that is named twice is one
/// field. A hash that becomes empty goes with its key; an error where the key holds a value of another type.
///
/// It needs no memory. <https://redis.io/docs/latest/commands/hdel/>
#[tactic(auto, using(keyspace::proofs::Changes::changes))]
pub(crate) fn hdel<K: Keyspace>(
    alloc: Global,
    keyspace: &mut K,
    key: Text,
    fields: Texts,
) -> Result<Reply, Starved>
    requires { IsTrue (K.covered key) }
    ensures done { Does (at_key key (changes_hash (hdel_change fields)))
        (K.contents keyspace.old) (K.contents keyspace.new) result }
    ensures answers { IsOk result }
{
    match keyspace.look(key.as_slice()) {
        None => return Ok(count_reply(0)),
        Some(Value::Hash(_)) => {}
        Some(_) => return Ok(wrong_type_reply()),
    }
    let Value::Hash(hash) = keyspace.replace(key.as_slice(), Value::Str(Text::empty(alloc))) else {
        unreachable!();
    };
    let (removed, left) = hash.remove_all(fields);
    match left {
        Some(hash) => {
            keyspace.replace(key.as_slice(), Value::Hash(hash));
        }
        None => {
            keyspace.take(key.as_slice());
        }
    }
    Ok(count_reply(removed))
}

/// `HSETNX key field value`: sets the field where it isn't there; 1 where it was set, 0 where the field was there; an
/// error where the key holds a value of another type.
///
/// Memory is taken only for a field that isn't there. <https://redis.io/docs/latest/commands/hsetnx/>
#[tactic(auto, using(keyspace::proofs::Changes::changes))]
pub(crate) fn hsetnx<K: Keyspace>(
    alloc: Global,
    keyspace: &mut K,
    key: Text,
    field: Text,
    value: Text,
) -> Result<Reply, Starved>
    requires { IsTrue (K.covered key) }
    ensures done { Does (at_key key (hsetnx_step field value))
        (K.contents keyspace.old) (K.contents keyspace.new) result }
    ensures starves { OnErr result
        (IsSome (pairs_there (map.get (K.contents keyspace.old) key))
        × (field_value (some_pairs (map.get (K.contents keyspace.old) key)) field ≡ None)) }
{
    match keyspace.look(key.as_slice()) {
        None => {}
        Some(Value::Hash(hash)) => {
            if hash.has(field.as_slice()) {
                return Ok(truth_reply(false));
            }
        }
        Some(_) => return Ok(wrong_type_reply()),
    }
    set_field(alloc, keyspace, key, field, value)?;
    Ok(truth_reply(true))
}

/// `HSET key field value [field value ..]`: sets the fields one after another, and says how many were new. A field that
/// is there keeps its place; an error where the key holds a value of another type.
///
/// All fields are set, or none where there is no memory. <https://redis.io/docs/latest/commands/hset/>
pub(crate) fn hset<K: Keyspace>(
    alloc: Global,
    keyspace: &mut K,
    key: Text,
    pairs: Pairs,
) -> Result<Reply, Starved>
    requires { IsTrue (K.covered key) }
    ensures done { Does (at_key key (hset_step pairs))
        (K.contents keyspace.old) (K.contents keyspace.new) result }
    ensures starves { OnErr result (IsSome (pairs_there (map.get (K.contents keyspace.old) key))) }
{
    set_fields(alloc, keyspace, key, pairs, SetAnswer::Added)
}

/// `HMSET key field value [field value ..]`: as HSET, and answers `OK`. <https://redis.io/docs/latest/commands/hmset/>
pub(crate) fn hmset<K: Keyspace>(
    alloc: Global,
    keyspace: &mut K,
    key: Text,
    pairs: Pairs,
) -> Result<Reply, Starved>
    requires { IsTrue (K.covered key) }
    ensures done { Does (at_key key (hmset_step pairs))
        (K.contents keyspace.old) (K.contents keyspace.new) result }
    ensures starves { OnErr result (IsSome (pairs_there (map.get (K.contents keyspace.old) key))) }
{
    set_fields(alloc, keyspace, key, pairs, SetAnswer::Done)
}

/// What is answered where fields were set.
#[derive(Clone, Copy)]
enum SetAnswer {
    /// How many were new.
    Added,

    /// `OK`.
    Done,
}

impl SetAnswer {
    /// The reply where so many fields were new.
    fn reply(self, added: usize) -> Reply
        ensures { content result ≡ set_answer self added }
    {
        match self {
            SetAnswer::Added => count_reply(added),
            SetAnswer::Done => ok_reply(),
        }
    }
}

/// Sets the fields one after another, all of them, or none where there is no memory.
#[tactic(auto, using(keyspace::proofs::Changes::changes))]
fn set_fields<K: Keyspace>(
    alloc: Global,
    keyspace: &mut K,
    key: Text,
    pairs: Pairs,
    answer: SetAnswer,
) -> Result<Reply, Starved>
    requires { IsTrue (K.covered key) }
    ensures done { Does (at_key key (changes_hash (set_change (set_answer answer) pairs)))
        (K.contents keyspace.old) (K.contents keyspace.new) result }
    ensures starves { OnErr result (IsSome (pairs_there (map.get (K.contents keyspace.old) key))) }
{
    match keyspace.look_mut(key.as_slice()) {
        None => set_new_hash(alloc, keyspace, key, pairs, answer),
        Some(value) => set_in_place(value, pairs, answer),
    }
}

/// Sets the fields of a hash where it lies, all of them, or none where there is no memory.
fn set_in_place(value: &mut Value, pairs: Pairs, answer: SetAnswer) -> Result<Reply, Starved>
    ensures done { Changes (changes_hash (set_change (set_answer answer) pairs)) value.old value.new result }
    ensures starves { OnErr result (IsSome (pairs_there (Some value.old))) }
{
    let Value::Hash(hash) = value else {
        return Ok(wrong_type_reply());
    };
    let added = hash.insert_all(pairs)?;
    Ok(answer.reply(added))
}

/// Sets the fields of a hash that isn't there.
#[tactic(auto, using(keyspace::proofs::Changes::changes))]
fn set_new_hash<K: Keyspace>(
    alloc: Global,
    keyspace: &mut K,
    key: Text,
    pairs: Pairs,
    answer: SetAnswer,
) -> Result<Reply, Starved>
    requires covered { IsTrue (K.covered key) }
    requires absent { map.get (K.contents keyspace.old) key ≡ None }
    ensures done { Does (at_key key (changes_hash (set_change (set_answer answer) pairs)))
        (K.contents keyspace.old) (K.contents keyspace.new) result }
{
    let Some(hash) = HashValue::from_pairs(alloc, keyspace.hasher(), pairs)? else {
        return Ok(answer.reply(0));
    };
    let added = hash.len();
    let Ok(_) = keyspace.put(key.into_vec(), Value::Hash(hash)) else {
        return Err(Starved);
    };
    Ok(answer.reply(added))
}

/// Sets one field of a hash, which may be missing.
#[tactic(auto, using(keyspace::proofs::Changes::changes))]
pub(crate) fn set_field<K: Keyspace>(
    alloc: Global,
    keyspace: &mut K,
    key: Text,
    field: Text,
    value: Text,
) -> Result<(), Starved>
    requires covered { IsTrue (K.covered key) }
    requires hash { IsSome (pairs_there (map.get (K.contents keyspace.old) key)) }
    ensures ok { OnOk result (K.contents keyspace.new ≡ set (K.contents keyspace.old) key
        (hash_value (with_field (some_pairs (map.get (K.contents keyspace.old) key)) field value))) }
    ensures err { OnErr result (K.contents keyspace.new ≡ K.contents keyspace.old) }
{
    match keyspace.look_mut(key.as_slice()) {
        None => set_first_field(alloc, keyspace, key, field, value),
        Some(there) => set_there(there, field, value),
    }
}

/// Sets one field of a hash where it lies; nothing changes where there is no memory.
fn set_there(there: &mut Value, field: Text, value: Text) -> Result<(), Starved>
    requires { IsSome (pairs_there (Some there.old)) }
    ensures ok { OnOk result (Some there.new ≡ hash_value (with_field (some_pairs (Some there.old)) field value)) }
    ensures err { OnErr result (there.new ≡ there.old) }
{
    let Value::Hash(hash) = there else {
        unreachable!();
    };
    hash.insert(field, value)?;
    Ok(())
}

/// Puts a hash of one field at a key that isn't there.
#[tactic(auto, using(keyspace::proofs::Changes::changes))]
fn set_first_field<K: Keyspace>(
    alloc: Global,
    keyspace: &mut K,
    key: Text,
    field: Text,
    value: Text,
) -> Result<(), Starved>
    requires covered { IsTrue (K.covered key) }
    requires absent { map.get (K.contents keyspace.old) key ≡ None }
    ensures ok { OnOk result (K.contents keyspace.new ≡ set (K.contents keyspace.old) key
        (hash_value (with_field (some_pairs (map.get (K.contents keyspace.old) key)) field value))) }
    ensures err { OnErr result (K.contents keyspace.new ≡ K.contents keyspace.old) }
{
    let hash = hash_of_one(alloc, keyspace.hasher(), field, value)?;
    let Ok(_) = keyspace.put(key.into_vec(), Value::Hash(hash)) else {
        return Err(Starved);
    };
    Ok(())
}

/// A hash of one field, which hashes its fields by `hasher`.
fn hash_of_one(
    alloc: Global,
    hasher: TextHasher,
    field: Text,
    value: Text,
) -> Result<HashValue, AllocError>
    ensures { IfOk result (λ hash. hash ≡ with_field [] field value) }
{
    let mut turns = Vec::with_capacity(alloc, 2)?;
    turns.push_reserved(field.into_vec());
    turns.push_reserved(value.into_vec());
    let Some(hash) = HashValue::from_pairs(alloc, hasher, Pairs::from_turns(turns))? else {
        unreachable!();
    };
    Ok(hash)
}
