//! HINCRBY: numbers that are stored as their texts.

ghost use Rattle.std.specs.Prelude.{◌≡◌, IsTrue, IsSome, IsOk, OnErr};
ghost use Rattle.std.specs.FinMap as map;
ghost use Rattle.command_cases.specs.Case.{Does, at_key};
ghost use Rattle.hash_commands.specs.HashCommand.{hincrby_step, no_number, pairs_there, some_pairs};
ghost use Rattle.integers.specs.Sum.{stored_sum};
ghost use Rattle.resp.specs.Content.{content};
ghost use Rattle.values.specs.HashValue.{field_value};

use crate::changes::set_field;
use command_cases::{Starved, would_overflow_reply, wrong_type_reply};
use integers::{SumFault, add_to, number_text};
use keyspace::Keyspace;
use resp::{ErrorText, Reply};
use std::alloc::Global;
use texts::Text;
use values::{HashValue, Value};

/// `HINCRBY key field by`: adds to the number that the field's value says, and gives the sum; a missing field counts as 0. An error
/// where the key holds a value of another type, where the field's value is no integer, and where the sum doesn't fit 64 bits with
/// sign.
///
/// Memory is taken for the text of the sum, and for a field that isn't there.
/// <https://redis.io/docs/latest/commands/hincrby/>
#[tactic(auto, using(keyspace::proofs::Changes::changes, resp::proofs::Contents::content_of))]
pub(crate) fn hincrby<K: Keyspace>(
    alloc: Global,
    keyspace: &mut K,
    key: Text,
    field: Text,
    by: i64,
) -> Result<Reply, Starved>
    requires { IsTrue (K.covered key) }
    ensures done { Does (at_key key (hincrby_step field by))
        (K.contents keyspace.old) (K.contents keyspace.new) result }
    ensures starves { OnErr result
        (IsSome (pairs_there (map.get (K.contents keyspace.old) key))
        × IsOk (stored_sum (field_value (some_pairs (map.get (K.contents keyspace.old) key)) field) by)) }
{
    let sum = match keyspace.look(key.as_slice()) {
        None => by,
        Some(Value::Hash(hash)) => match add_to_field(hash, field.as_slice(), by) {
            Ok(sum) => sum,
            Err(fault) => return Ok(no_number_reply(fault)),
        },
        Some(_) => return Ok(wrong_type_reply()),
    };
    let text = number_text(alloc, sum)?;
    set_field(alloc, keyspace, key, field, text)?;
    Ok(Reply::Int(sum))
}

/// The number of a field and another one together; a missing field counts as 0.
fn add_to_field(hash: &HashValue, field: &[u8], by: i64) -> Result<i64, SumFault>
    ensures { result ≡ stored_sum (field_value hash.now field.now) by }
{
    match hash.get(field) {
        Some(value) => add_to(value, by),
        None => Ok(by),
    }
}

/// Why a field has no number, as a reply.
#[tactic(auto, using(resp::proofs::Contents::content_of))]
fn no_number_reply(fault: SumFault) -> Reply
    ensures { content result ≡ no_number fault }
{
    match fault {
        SumFault::NotInteger => Reply::Error(ErrorText::Fixed("ERR hash value is not an integer")),
        SumFault::Overflow => would_overflow_reply(),
    }
}
