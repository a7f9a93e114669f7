//! HLEN, HGET, HEXISTS and HSTRLEN: what a hash says of itself or of one field.

ghost use Rattle.std.specs.Prelude.{IsTrue, IsSome, IsOk, OnErr};
ghost use Rattle.std.specs.FinMap as map;
ghost use Rattle.command_cases.specs.Case.{Does, at_key};
ghost use Rattle.hash_commands.specs.HashCommand.{looks_at_hash, hlen_answer, hget_answer, hexists_answer, hstrlen_answer, some_pairs};
ghost use Rattle.values.specs.HashValue.{field_value};

use command_cases::{Starved, count_reply, truth_reply, wrong_type_reply};
use keyspace::Keyspace;
use resp::Reply;
use std::alloc::Global;
use texts::Text;
use values::Value;

/// `HLEN key`: the number of fields; an error where the key holds a value of another type.
///
/// It takes no memory. <https://redis.io/docs/latest/commands/hlen/>
#[tactic(auto, using(keyspace::proofs::Changes::changes))]
pub(crate) fn hlen<K: Keyspace>(_alloc: Global, keyspace: &K, key: Text) -> Result<Reply, Starved>
    requires { IsTrue (K.covered key) }
    ensures done { Does (at_key key (looks_at_hash hlen_answer))
        (K.contents keyspace.now) (K.contents keyspace.now) result }
    ensures answers { IsOk result }
{
    match keyspace.look(key.as_slice()) {
        None => Ok(count_reply(0)),
        Some(Value::Hash(hash)) => Ok(count_reply(hash.len())),
        Some(_) => Ok(wrong_type_reply()),
    }
}

/// `HGET key field`: the value of the field, or null; an error where the key holds a value of another type.
///
/// The value is copied once, into the reply. <https://redis.io/docs/latest/commands/hget/>
#[tactic(auto, using(keyspace::proofs::Changes::changes, resp::proofs::Contents::content_of))]
pub(crate) fn hget<K: Keyspace>(
    alloc: Global,
    keyspace: &K,
    key: Text,
    field: Text,
) -> Result<Reply, Starved>
    requires { IsTrue (K.covered key) }
    ensures done { Does (at_key key (looks_at_hash (hget_answer field)))
        (K.contents keyspace.now) (K.contents keyspace.now) result }
    ensures starves { OnErr result (IsSome (field_value (some_pairs (map.get (K.contents keyspace.now) key)) field)) }
{
    match keyspace.look(key.as_slice()) {
        None => Ok(Reply::Null),
        Some(Value::Hash(hash)) => match hash.get(field.as_slice()) {
            None => Ok(Reply::Null),
            Some(value) => {
                let copy = Text::copy_of(alloc, value)?;
                Ok(Reply::Bulk(copy.into_vec()))
            }
        },
        Some(_) => Ok(wrong_type_reply()),
    }
}

/// `HEXISTS key field`: whether the field is there; an error where the key holds a value of another type.
///
/// It takes no memory. <https://redis.io/docs/latest/commands/hexists/>
#[tactic(auto, using(keyspace::proofs::Changes::changes))]
pub(crate) fn hexists<K: Keyspace>(
    _alloc: Global,
    keyspace: &K,
    key: Text,
    field: Text,
) -> Result<Reply, Starved>
    requires { IsTrue (K.covered key) }
    ensures done { Does (at_key key (looks_at_hash (hexists_answer field)))
        (K.contents keyspace.now) (K.contents keyspace.now) result }
    ensures answers { IsOk result }
{
    match keyspace.look(key.as_slice()) {
        None => Ok(truth_reply(false)),
        Some(Value::Hash(hash)) => Ok(truth_reply(hash.has(field.as_slice()))),
        Some(_) => Ok(wrong_type_reply()),
    }
}

/// `HSTRLEN key field`: the length of the field's value, 0 where it is missing; an error where the key holds a value of
/// another type.
///
/// It takes no memory. <https://redis.io/docs/latest/commands/hstrlen/>
#[tactic(auto, using(keyspace::proofs::Changes::changes))]
pub(crate) fn hstrlen<K: Keyspace>(
    _alloc: Global,
    keyspace: &K,
    key: Text,
    field: Text,
) -> Result<Reply, Starved>
    requires { IsTrue (K.covered key) }
    ensures done { Does (at_key key (looks_at_hash (hstrlen_answer field)))
        (K.contents keyspace.now) (K.contents keyspace.now) result }
    ensures answers { IsOk result }
{
    match keyspace.look(key.as_slice()) {
        None => Ok(count_reply(0)),
        Some(Value::Hash(hash)) => match hash.get(field.as_slice()) {
            None => Ok(count_reply(0)),
            Some(value) => Ok(count_reply(value.len())),
        },
        Some(_) => Ok(wrong_type_reply()),
    }
}
