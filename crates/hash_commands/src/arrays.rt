//! HKEYS, HVALS, HGETALL and HMGET: many texts of a hash in one reply.
//!
//! The room for the reply is taken first, in one buffer, and each text is copied once.

ghost use Rattle.std.specs.Prelude.{◌≡◌, ◌<◌, ◌⊎◌, IsTrue, IsSome, IfOk, OnErr, length};
ghost use Rattle.std.specs.FinMap as map;
ghost use Rattle.std.specs.Option.{option_copied};
ghost use Rattle.command_cases.specs.Case.{Does, at_key};
ghost use Rattle.hash_commands.specs.HashCommand.{looks_at_hash, hkeys_answer, hvals_answer, hgetall_answer, hmget_answer};
ghost use Rattle.hash_commands.specs.HashCommand.{some_pairs, pairs_there, found_pairs};
ghost use Rattle.resp.specs.Content.{content};
ghost use Rattle.values.specs.HashValue.{field_value};

use command_cases::{Starved, wrong_type_reply};
use keyspace::Keyspace;
use resp::{BulkTexts, Reply, bulk_size};
use std::alloc::{AllocError, Global};
use texts::{Text, Texts};
use values::{HashValue, Value};

/// `HKEYS key`: the fields, in order of insertion; an error where the key holds a value of another type.
/// <https://redis.io/docs/latest/commands/hkeys/>
#[tactic(auto, using(keyspace::proofs::Changes::changes, resp::proofs::Contents::content_of))]
pub(crate) fn hkeys<K: Keyspace>(alloc: Global, keyspace: &K, key: Text) -> Result<Reply, Starved>
    requires { IsTrue (K.covered key) }
    ensures done { Does (at_key key (looks_at_hash hkeys_answer))
        (K.contents keyspace.now) (K.contents keyspace.now) result }
    ensures starves { OnErr result (0 < length (some_pairs (map.get (K.contents keyspace.now) key))) }
{
    match keyspace.look(key.as_slice()) {
        None => Ok(Reply::Array(Vec::new(alloc))),
        Some(Value::Hash(hash)) => Ok(fields_reply(alloc, hash)?),
        Some(_) => Ok(wrong_type_reply()),
    }
}

/// `HVALS key`: the values, in order of insertion; an error where the key holds a value of another type.
/// <https://redis.io/docs/latest/commands/hvals/>
#[tactic(auto, using(keyspace::proofs::Changes::changes, resp::proofs::Contents::content_of))]
pub(crate) fn hvals<K: Keyspace>(alloc: Global, keyspace: &K, key: Text) -> Result<Reply, Starved>
    requires { IsTrue (K.covered key) }
    ensures done { Does (at_key key (looks_at_hash hvals_answer))
        (K.contents keyspace.now) (K.contents keyspace.now) result }
    ensures starves { OnErr result (0 < length (some_pairs (map.get (K.contents keyspace.now) key))) }
{
    match keyspace.look(key.as_slice()) {
        None => Ok(Reply::Array(Vec::new(alloc))),
        Some(Value::Hash(hash)) => Ok(values_reply(alloc, hash)?),
        Some(_) => Ok(wrong_type_reply()),
    }
}

/// `HGETALL key`: the fields and their values by turns, in order of insertion; an error where the key holds a value of
/// another type. <https://redis.io/docs/latest/commands/hgetall/>
#[tactic(auto, using(keyspace::proofs::Changes::changes, resp::proofs::Contents::content_of))]
pub(crate) fn hgetall<K: Keyspace>(alloc: Global, keyspace: &K, key: Text) -> Result<Reply, Starved>
    requires { IsTrue (K.covered key) }
    ensures done { Does (at_key key (looks_at_hash hgetall_answer))
        (K.contents keyspace.now) (K.contents keyspace.now) result }
    ensures starves { OnErr result (0 < length (some_pairs (map.get (K.contents keyspace.now) key))) }
{
    match keyspace.look(key.as_slice()) {
        None => Ok(Reply::Array(Vec::new(alloc))),
        Some(Value::Hash(hash)) => Ok(pairs_reply(alloc, hash)?),
        Some(_) => Ok(wrong_type_reply()),
    }
}

/// `HMGET key field [field ..]`: the value of each field, or null, in order of the words; an error where the key holds
/// a value of another type. <https://redis.io/docs/latest/commands/hmget/>
#[tactic(auto, using(keyspace::proofs::Changes::changes))]
pub(crate) fn hmget<K: Keyspace>(
    alloc: Global,
    keyspace: &K,
    key: Text,
    fields: Texts,
) -> Result<Reply, Starved>
    requires { IsTrue (K.covered key) }
    ensures done { Does (at_key key (looks_at_hash (hmget_answer fields)))
        (K.contents keyspace.now) (K.contents keyspace.now) result }
    ensures starves { OnErr result (IsSome (pairs_there (map.get (K.contents keyspace.now) key))) }
{
    match keyspace.look(key.as_slice()) {
        None => Ok(each_value_reply(alloc, None, &fields)?),
        Some(Value::Hash(hash)) => Ok(each_value_reply(alloc, Some(hash), &fields)?),
        Some(_) => Ok(wrong_type_reply()),
    }
}

/// The fields of a hash, copied.
#[tactic(auto, using(resp::proofs::Contents::content_of))]
fn fields_reply(alloc: Global, hash: &HashValue) -> Result<Reply, AllocError>
    ensures copied { IfOk result (λ reply. content reply ≡ hkeys_answer hash.now) }
    ensures starves { OnErr result (0 < length hash.now) }
{
    let (size, _) = text_sizes(hash);
    let mut texts = BulkTexts::with_room(alloc, size)?;
    for place in 0..hash.len() {
        let Some((field, _)) = hash.pair(place) else {
            unreachable!();
        };
        texts.push(field)?;
    }
    Ok(Reply::Bulks(texts))
}

/// The values of a hash, copied.
#[tactic(auto, using(resp::proofs::Contents::content_of))]
fn values_reply(alloc: Global, hash: &HashValue) -> Result<Reply, AllocError>
    ensures copied { IfOk result (λ reply. content reply ≡ hvals_answer hash.now) }
    ensures starves { OnErr result (0 < length hash.now) }
{
    let (_, size) = text_sizes(hash);
    let mut texts = BulkTexts::with_room(alloc, size)?;
    for place in 0..hash.len() {
        let Some((_, value)) = hash.pair(place) else {
            unreachable!();
        };
        texts.push(value)?;
    }
    Ok(Reply::Bulks(texts))
}

/// The fields of a hash and their values by turns, copied.
#[tactic(auto, using(resp::proofs::Contents::content_of))]
fn pairs_reply(alloc: Global, hash: &HashValue) -> Result<Reply, AllocError>
    ensures copied { IfOk result (λ reply. content reply ≡ hgetall_answer hash.now) }
    ensures starves { OnErr result (0 < length hash.now) }
{
    let (fields, values) = text_sizes(hash);
    let mut texts = BulkTexts::with_room(alloc, fields.saturating_add(values))?;
    for place in 0..hash.len() {
        let Some((field, value)) = hash.pair(place) else {
            unreachable!();
        };
        texts.push(field)?;
        texts.push(value)?;
    }
    Ok(Reply::Bulks(texts))
}

/// The number of bytes of the fields' texts, and that of the values', or the greatest number; 0 where there are none.
fn text_sizes(hash: &HashValue) -> (usize, usize)
    ensures { (0 < result.0) ⊎ (0 < result.1) → 0 < length hash.now }
{
    let mut fields: usize = 0;
    let mut values: usize = 0;
    for place in 0..hash.len() {
        if let Some((field, value)) = hash.pair(place) {
            fields = fields.saturating_add(bulk_size(field));
            values = values.saturating_add(bulk_size(value));
        }
    }
    (fields, values)
}

/// The value of each of these fields, copied, or null; a hash that is missing has none.
#[tactic(auto, using(resp::proofs::Contents::content_of))]
fn each_value_reply(
    alloc: Global,
    hash: Option<&HashValue>,
    fields: &Texts,
) -> Result<Reply, AllocError>
    ensures { IfOk result (λ reply. content reply ≡ hmget_answer fields.now (found_pairs (option_copied hash.entry))) }
{
    let mut found = Vec::with_capacity(alloc, fields.len())?;
    for field in fields.as_slice() {
        found.push(value_of(hash, field.as_slice()))?;
    }
    Ok(Reply::Bulks(BulkTexts::copy_of(alloc, found.as_slice())?))
}

/// The value of a field; a hash that is missing has none.
fn value_of<'a>(hash: Option<&'a HashValue>, field: &[u8]) -> Option<&'a [u8]>
    ensures { option_copied result ≡ field_value (found_pairs (option_copied hash.entry)) field.now }
{
    match hash {
        None => None,
        Some(hash) => hash.get(field),
    }
}
