//! GET, SET and SETNX.

ghost use Rattle.std.specs.Prelude.{◌≡◌, ◌<◌, IsTrue, None, Some, false, OnErr};
ghost use Rattle.std.specs.FinMap as map;
ghost use Rattle.command_cases.specs.Case.{Does, at_key};
ghost use Rattle.resp.specs.Content.{content};
ghost use Rattle.string_commands.specs.StringCommand.{get_step, set_step, setnx_step, is_admitted, room};
ghost use Rattle.values.specs.declared.Value.TheVariants as kind;

use command_cases::{Starved, ok_reply, truth_reply, wrong_type_reply};
use command_table::Condition;
use keyspace::Keyspace;
use resp::Reply;
use std::alloc::Global;
use texts::Text;
use values::Value;

/// `GET key`: the string at the key, or null; an error where the key holds a value of another type.
///
/// The string is copied once, into the reply. <https://redis.io/docs/latest/commands/get/>
#[tactic(auto, using(keyspace::proofs::Changes::changes, resp::proofs::Contents::content_of))]
pub(crate) fn get<K: Keyspace>(alloc: Global, keyspace: &K, key: Text) -> Result<Reply, Starved>
    requires { IsTrue (K.covered key) }
    ensures done { Does (at_key key get_step)
        (K.contents keyspace.now) (K.contents keyspace.now) result }
    ensures starves { OnErr result (1 < room (map.get (K.contents keyspace.now) key)) }
{
    match keyspace.look(key.as_slice()) {
        None => Ok(Reply::Null),
        Some(Value::Str(text)) => {
            let copy = Text::copy_of(alloc, text.as_slice())?;
            Ok(Reply::Bulk(copy.into_vec()))
        }
        Some(_) => Ok(wrong_type_reply()),
    }
}

/// `SET key value [NX | XX]`: puts the string at the key, in place of a value of any type; null where the condition
/// forbids it.
///
/// A string that is as long is written over, in its own memory; else the value is stored as it was handed in. Memory is
/// taken only for a key that isn't there. <https://redis.io/docs/latest/commands/set/>
#[tactic(auto, using(keyspace::proofs::Changes::changes, resp::proofs::Contents::content_of))]
pub(crate) fn set<K: Keyspace>(
    _alloc: Global,
    keyspace: &mut K,
    key: Text,
    value: Text,
    condition: Condition,
) -> Result<Reply, Starved>
    requires { IsTrue (K.covered key) }
    ensures done { Does (at_key key (set_step value condition))
        (K.contents keyspace.old) (K.contents keyspace.new) result }
    ensures starves { OnErr result
        ((map.get (K.contents keyspace.old) key ≡ None) × IsTrue (is_admitted condition false)) }
{
    match keyspace.look_mut(key.as_slice()) {
        Some(there) => Ok(set_there(there, value, condition)),
        None => {
            if !is_admitted(condition, false) {
                return Ok(Reply::Null);
            }
            let Ok(_) = keyspace.put(key.into_vec(), Value::Str(value)) else {
                return Err(Starved);
            };
            Ok(ok_reply())
        }
    }
}

/// Whether a SET under this condition takes place, by whether the key is there.
fn is_admitted(condition: Condition, there: bool) -> bool
    ensures { result ≡ is_admitted condition there }
{
    match condition {
        Condition::Always => true,
        Condition::IfAbsent => !there,
        Condition::IfPresent => there,
    }
}

/// Puts the string of a SET in the place of a value, unless the condition forbids it.
#[tactic(auto, using(resp::proofs::Contents::content_of))]
fn set_there(there: &mut Value, value: Text, condition: Condition) -> Reply
    ensures { (Some there.new, content result) ≡ set_step value condition (Some there.old) }
{
    if !is_admitted(condition, true) {
        return Reply::Null;
    }
    write_over(there, value);
    ok_reply()
}

/// Puts a string in the place of a value. It takes no memory: a string that is as long is written over.
fn write_over(there: &mut Value, value: Text)
    ensures { there.new ≡ kind.Str value }
{
    match there {
        Value::Str(text) if text.len() == value.len() => {
            let Ok(()) = text.set(value.as_slice()) else {
                unreachable!();
            };
        }
        _ => *there = Value::Str(value),
    }
}

/// `SETNX key value`: puts the string at the key where it isn't there; 1 where it was put, 0 where the key has a value
/// of any type.
///
/// Memory is taken only for a key that isn't there. <https://redis.io/docs/latest/commands/setnx/>
#[tactic(auto, using(keyspace::proofs::Changes::changes))]
pub(crate) fn setnx<K: Keyspace>(
    _alloc: Global,
    keyspace: &mut K,
    key: Text,
    value: Text,
) -> Result<Reply, Starved>
    requires { IsTrue (K.covered key) }
    ensures done { Does (at_key key (setnx_step value))
        (K.contents keyspace.old) (K.contents keyspace.new) result }
    ensures starves { OnErr result (map.get (K.contents keyspace.old) key ≡ None) }
{
    if keyspace.look(key.as_slice()).is_some() {
        return Ok(truth_reply(false));
    }
    match keyspace.put(key.into_vec(), Value::Str(value)) {
        Ok(_) => Ok(truth_reply(true)),
        Err(_) => Err(Starved),
    }
}
