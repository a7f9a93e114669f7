//! INCR, DECR, INCRBY and DECRBY: numbers that are stored as their texts.

ghost use Rattle.std.specs.Prelude.{◌≡◌, pos, negsuc, Some, None, IsTrue, OnErr};
ghost use Rattle.std.specs.FinMap as map;
ghost use Rattle.command_cases.specs.Case.{Does, at_key};
ghost use Rattle.command_cases.specs.Changes.{Changes};
ghost use Rattle.resp.specs.Content.{content};
ghost use Rattle.string_commands.specs.StringCommand.{incrby_step, decrby_step, no_number, Grows};

use command_cases::{Starved, would_overflow_reply, wrong_type_reply};
use integers::{SumFault, add_to, number_text, set_number};
use keyspace::Keyspace;
use resp::{ErrorText, Reply};
use std::alloc::Global;
use texts::Text;
use values::Value;

/// `INCR key`: as INCRBY with 1. <https://redis.io/docs/latest/commands/incr/>
pub(crate) fn incr<K: Keyspace>(
    alloc: Global,
    keyspace: &mut K,
    key: Text,
) -> Result<Reply, Starved>
    requires { IsTrue (K.covered key) }
    ensures done { Does (at_key key (incrby_step (pos 1)))
        (K.contents keyspace.old) (K.contents keyspace.new) result }
    ensures starves { OnErr result (Grows (incrby_step (pos 1)) (map.get (K.contents keyspace.old) key)) }
{
    incrby(alloc, keyspace, key, 1)
}

/// `DECR key`: as INCRBY with -1. <https://redis.io/docs/latest/commands/decr/>
pub(crate) fn decr<K: Keyspace>(
    alloc: Global,
    keyspace: &mut K,
    key: Text,
) -> Result<Reply, Starved>
    requires { IsTrue (K.covered key) }
    ensures done { Does (at_key key (incrby_step (negsuc 0)))
        (K.contents keyspace.old) (K.contents keyspace.new) result }
    ensures starves { OnErr result (Grows (incrby_step (negsuc 0)) (map.get (K.contents keyspace.old) key)) }
{
    incrby(alloc, keyspace, key, -1)
}

/// `INCRBY key by`: adds to the number that the string says, and gives the sum; a missing key counts as 0. An error
/// where the key holds a value of another type, where its string is no integer, and where the sum doesn't fit 64 bits
/// with sign.
///
/// Memory is taken only for a key that isn't there, and where the sum's text is longer than the string.
/// <https://redis.io/docs/latest/commands/incrby/>
#[tactic(auto, using(keyspace::proofs::Changes::changes, resp::proofs::Contents::content_of))]
pub(crate) fn incrby<K: Keyspace>(
    alloc: Global,
    keyspace: &mut K,
    key: Text,
    by: i64,
) -> Result<Reply, Starved>
    requires { IsTrue (K.covered key) }
    ensures done { Does (at_key key (incrby_step by))
        (K.contents keyspace.old) (K.contents keyspace.new) result }
    ensures starves { OnErr result (Grows (incrby_step by) (map.get (K.contents keyspace.old) key)) }
{
    match keyspace.look_mut(key.as_slice()) {
        None => put_number(alloc, keyspace, key, by),
        Some(value) => change_number(value, by),
    }
}

/// `DECRBY key by`: as INCRBY with the opposite number. The least number of 64 bits has none: it is refused before the
/// key is looked at. <https://redis.io/docs/latest/commands/decrby/>
#[tactic(auto, using(keyspace::proofs::Changes::changes))]
pub(crate) fn decrby<K: Keyspace>(
    alloc: Global,
    keyspace: &mut K,
    key: Text,
    by: i64,
) -> Result<Reply, Starved>
    requires { IsTrue (K.covered key) }
    ensures done { Does (at_key key (decrby_step by))
        (K.contents keyspace.old) (K.contents keyspace.new) result }
    ensures starves { OnErr result (Grows (decrby_step by) (map.get (K.contents keyspace.old) key)) }
{
    match by.checked_neg() {
        Some(by) => incrby(alloc, keyspace, key, by),
        None => Ok(would_overflow_reply()),
    }
}

/// Why a string has no number for its key, as a reply.
#[tactic(auto, using(resp::proofs::Contents::content_of))]
fn no_number_reply(fault: SumFault) -> Reply
    ensures { content result ≡ no_number fault }
{
    match fault {
        SumFault::NotInteger => Reply::Error(ErrorText::Fixed(
            "ERR value is not an integer or out of range",
        )),
        SumFault::Overflow => would_overflow_reply(),
    }
}

/// Puts a number at a key that isn't there, and answers it.
#[tactic(auto, using(keyspace::proofs::Changes::changes, resp::proofs::Contents::content_of))]
fn put_number<K: Keyspace>(
    alloc: Global,
    keyspace: &mut K,
    key: Text,
    number: i64,
) -> Result<Reply, Starved>
    requires covered { IsTrue (K.covered key) }
    requires absent { map.get (K.contents keyspace.old) key ≡ None }
    ensures done { Does (at_key key (incrby_step number))
        (K.contents keyspace.old) (K.contents keyspace.new) result }
{
    let text = number_text(alloc, number)?;
    let Ok(_) = keyspace.put(key.into_vec(), Value::Str(text)) else {
        return Err(Starved);
    };
    Ok(Reply::Int(number))
}

/// Adds to the number that a string says, where it lies, and answers the sum.
#[tactic(auto, using(resp::proofs::Contents::content_of))]
fn change_number(value: &mut Value, by: i64) -> Result<Reply, Starved>
    ensures done { Changes (incrby_step by) value.old value.new result }
    ensures starves { OnErr result (Grows (incrby_step by) (Some value.old)) }
{
    let Value::Str(text) = value else {
        return Ok(wrong_type_reply());
    };
    match add_to(text.as_slice(), by) {
        Ok(sum) => {
            set_number(text, sum)?;
            Ok(Reply::Int(sum))
        }
        Err(fault) => Ok(no_number_reply(fault)),
    }
}
