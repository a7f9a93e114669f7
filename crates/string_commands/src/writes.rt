//! APPEND and SETRANGE, which write into a string.

ghost use Rattle.std.specs.Prelude.{◌≡◌, ◌+◌, nat_le, None, Some, IsTrue, OnErr};
ghost use Rattle.std.specs.FinMap as map;
ghost use Rattle.command_cases.specs.Case.{Does, at_key};
ghost use Rattle.command_cases.specs.Changes.{Changes};
ghost use Rattle.resp.specs.Content.{content};
ghost use Rattle.string_commands.specs.StringCommand.{at_string, append_string, setrange_string, setrange_step, Grows};
ghost use Rattle.string_commands.specs.StringCommand.{too_long, bad_offset};

use command_cases::{Starved, count_reply, wrong_type_reply};
use keyspace::Keyspace;
use resp::{ErrorText, Reply};
use std::alloc::Global;
use texts::Text;
use values::Value;

/// The greatest length of a string that is written into.
const GREATEST_LENGTH: usize = 536870912;

/// `APPEND key tail`: puts the tail behind the string, and gives the new length; a missing key counts as the empty
/// string. An error where the key holds a value of another type, and where the string would be longer than 536,870,912
/// bytes.
///
/// Memory is taken only for a key that isn't there, and where the string gets longer.
/// <https://redis.io/docs/latest/commands/append/>
#[tactic(auto, using(keyspace::proofs::Changes::changes, resp::proofs::Contents::content_of))]
pub(crate) fn append<K: Keyspace>(
    _alloc: Global,
    keyspace: &mut K,
    key: Text,
    tail: Text,
) -> Result<Reply, Starved>
    requires { IsTrue (K.covered key) }
    ensures done { Does (at_key key (at_string (append_string tail)))
        (K.contents keyspace.old) (K.contents keyspace.new) result }
    ensures starves { OnErr result (Grows (at_string (append_string tail)) (map.get (K.contents keyspace.old) key)) }
{
    match keyspace.look_mut(key.as_slice()) {
        None => put_tail(keyspace, key, tail),
        Some(value) => extend(value, tail.as_slice()),
    }
}

/// `SETRANGE key offset value`: writes the value over the string, from the offset on, and gives the new length. What
/// then lies between the string's old end and the offset becomes zero bytes. A missing key counts as the empty string;
/// an empty value changes nothing. An error where the offset is below 0, before the key is looked at; where the key
/// holds a value of another type; and where the value would end behind 536,870,912 bytes.
///
/// Memory is taken only for a key that isn't there, and where the string gets longer.
/// <https://redis.io/docs/latest/commands/setrange/>
#[tactic(auto, using(keyspace::proofs::Changes::changes, resp::proofs::Contents::content_of))]
pub(crate) fn setrange<K: Keyspace>(
    alloc: Global,
    keyspace: &mut K,
    key: Text,
    offset: i64,
    value: Text,
) -> Result<Reply, Starved>
    requires { IsTrue (K.covered key) }
    ensures done { Does (at_key key (setrange_step offset value))
        (K.contents keyspace.old) (K.contents keyspace.new) result }
    ensures starves { OnErr result (Grows (setrange_step offset value) (map.get (K.contents keyspace.old) key)) }
{
    match usize::try_from(offset) {
        Ok(offset) => set_from(alloc, keyspace, key, offset, value),
        Err(_) => Ok(bad_offset_reply()),
    }
}

/// Writes the value over the string at a key, from a place on.
#[tactic(auto, using(keyspace::proofs::Changes::changes, resp::proofs::Contents::content_of))]
fn set_from<K: Keyspace>(
    alloc: Global,
    keyspace: &mut K,
    key: Text,
    offset: usize,
    value: Text,
) -> Result<Reply, Starved>
    requires { IsTrue (K.covered key) }
    ensures done { Does (at_key key (at_string (setrange_string offset value)))
        (K.contents keyspace.old) (K.contents keyspace.new) result }
    ensures starves { OnErr result
        (Grows (at_string (setrange_string offset value)) (map.get (K.contents keyspace.old) key)) }
{
    match keyspace.look_mut(key.as_slice()) {
        None => put_padded(alloc, keyspace, key, offset, value.as_slice()),
        Some(there) => write_over(there, offset, value.as_slice()),
    }
}

/// Whether a string may be as long as both numbers say together.
fn is_short(one: usize, other: usize) -> bool
    ensures { result ≡ nat_le (one + other) GREATEST_LENGTH }
{
    other <= GREATEST_LENGTH && one <= GREATEST_LENGTH - other
}

/// That a string would be longer than a string may be.
#[tactic(auto, using(resp::proofs::Contents::content_of))]
fn too_long_reply() -> Reply
    ensures { content result ≡ too_long }
{
    Reply::Error(ErrorText::Fixed("ERR string exceeds maximum allowed size"))
}

/// That an offset lies before the string.
#[tactic(auto, using(resp::proofs::Contents::content_of))]
fn bad_offset_reply() -> Reply
    ensures { content result ≡ bad_offset }
{
    Reply::Error(ErrorText::Fixed("ERR offset is out of range"))
}

/// Puts the tail of an APPEND at a key that isn't there.
#[tactic(auto, using(keyspace::proofs::Changes::changes, resp::proofs::Contents::content_of))]
fn put_tail<K: Keyspace>(keyspace: &mut K, key: Text, tail: Text) -> Result<Reply, Starved>
    requires covered { IsTrue (K.covered key) }
    requires absent { map.get (K.contents keyspace.old) key ≡ None }
    ensures done { Does (at_key key (at_string (append_string tail)))
        (K.contents keyspace.old) (K.contents keyspace.new) result }
    ensures starves { OnErr result (Grows (at_string (append_string tail)) (map.get (K.contents keyspace.old) key)) }
{
    let length = tail.len();
    if !is_short(0, length) {
        return Ok(too_long_reply());
    }
    let Ok(_) = keyspace.put(key.into_vec(), Value::Str(tail)) else {
        return Err(Starved);
    };
    Ok(count_reply(length))
}

/// Puts the value of a SETRANGE, behind zero bytes up to its offset, at a key that isn't there.
#[tactic(auto, using(keyspace::proofs::Changes::changes, resp::proofs::Contents::content_of))]
fn put_padded<K: Keyspace>(
    alloc: Global,
    keyspace: &mut K,
    key: Text,
    offset: usize,
    value: &[u8],
) -> Result<Reply, Starved>
    requires covered { IsTrue (K.covered key) }
    requires absent { map.get (K.contents keyspace.old) key ≡ None }
    ensures done { Does (at_key key (at_string (setrange_string offset value.now)))
        (K.contents keyspace.old) (K.contents keyspace.new) result }
    ensures starves { OnErr result
        (Grows (at_string (setrange_string offset value.now)) (map.get (K.contents keyspace.old) key)) }
{
    if value.len() == 0 {
        return Ok(count_reply(0));
    }
    if !is_short(offset, value.len()) {
        return Ok(too_long_reply());
    }
    let mut text = Text::empty(alloc);
    text.write_at(offset, value)?;
    let length = text.len();
    let Ok(_) = keyspace.put(key.into_vec(), Value::Str(text)) else {
        return Err(Starved);
    };
    Ok(count_reply(length))
}

/// Puts the tail of an APPEND behind a string where it lies, and gives the new length.
#[tactic(auto, using(resp::proofs::Contents::content_of))]
fn extend(value: &mut Value, tail: &[u8]) -> Result<Reply, Starved>
    ensures done { Changes (at_string (append_string tail.now)) value.old value.new result }
    ensures starves { OnErr result (Grows (at_string (append_string tail.now)) (Some value.old)) }
{
    let Value::Str(text) = value else {
        return Ok(wrong_type_reply());
    };
    if !is_short(text.len(), tail.len()) {
        return Ok(too_long_reply());
    }
    text.append(tail)?;
    Ok(count_reply(text.len()))
}

/// Writes the bytes of a SETRANGE over a string where it lies, from a place on, and gives the new length.
#[tactic(auto, using(resp::proofs::Contents::content_of))]
fn write_over(value: &mut Value, offset: usize, bytes: &[u8]) -> Result<Reply, Starved>
    ensures done { Changes (at_string (setrange_string offset bytes.now)) value.old value.new result }
    ensures starves { OnErr result (Grows (at_string (setrange_string offset bytes.now)) (Some value.old)) }
{
    let Value::Str(text) = value else {
        return Ok(wrong_type_reply());
    };
    if bytes.len() == 0 {
        return Ok(count_reply(text.len()));
    }
    if !is_short(offset, bytes.len()) {
        return Ok(too_long_reply());
    }
    text.write_at(offset, bytes)?;
    Ok(count_reply(text.len()))
}
