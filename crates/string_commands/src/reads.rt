//! STRLEN and GETRANGE, which change nothing.

ghost use Rattle.std.specs.Prelude.{◌≡◌, IsTrue, IsSome, IsOk, IfOk, OnErr};
ghost use Rattle.std.specs.FinMap as map;
ghost use Rattle.command_cases.specs.Case.{Does, at_key};
ghost use Rattle.integers.specs.Range.{range_items};
ghost use Rattle.string_commands.specs.StringCommand.{at_string, strlen_string, getrange_string};

use command_cases::{Starved, count_reply, wrong_type_reply};
use integers::range_of;
use keyspace::Keyspace;
use resp::Reply;
use std::alloc::{AllocError, Global};
use texts::Text;
use values::Value;

/// `STRLEN key`: the number of bytes of the string at the key, 0 where it is missing. It takes no memory.
/// <https://redis.io/docs/latest/commands/strlen/>
#[tactic(auto, using(keyspace::proofs::Changes::changes, resp::proofs::Contents::content_of))]
pub(crate) fn strlen<K: Keyspace>(_alloc: Global, keyspace: &K, key: Text) -> Result<Reply, Starved>
    requires { IsTrue (K.covered key) }
    ensures done { Does (at_key key (at_string strlen_string))
        (K.contents keyspace.now) (K.contents keyspace.now) result }
    ensures answers { IsOk result }
{
    Ok(match keyspace.look(key.as_slice()) {
        None => count_reply(0),
        Some(Value::Str(text)) => count_reply(text.len()),
        Some(_) => wrong_type_reply(),
    })
}

/// `GETRANGE key start end`: the bytes of the string from start to end, both included, each of which counts from the
/// end below 0.
///
/// They are copied once, into the reply. <https://redis.io/docs/latest/commands/getrange/>
#[tactic(auto, using(keyspace::proofs::Changes::changes, resp::proofs::Contents::content_of))]
pub(crate) fn getrange<K: Keyspace>(
    alloc: Global,
    keyspace: &K,
    key: Text,
    start: i64,
    end: i64,
) -> Result<Reply, Starved>
    requires { IsTrue (K.covered key) }
    ensures done { Does (at_key key (at_string (getrange_string start end)))
        (K.contents keyspace.now) (K.contents keyspace.now) result }
    ensures starves { OnErr result (IsSome (map.get (K.contents keyspace.now) key)) }
{
    match keyspace.look(key.as_slice()) {
        None => Ok(Reply::Bulk(Text::empty(alloc).into_vec())),
        Some(Value::Str(text)) => {
            let copy = copy_range(alloc, text, start, end)?;
            Ok(Reply::Bulk(copy.into_vec()))
        }
        Some(_) => Ok(wrong_type_reply()),
    }
}

/// The bytes of the string from start to end.
fn copy_range(alloc: Global, text: &Text, start: i64, end: i64) -> Result<Text, AllocError>
    ensures copied { IfOk result (λ copy. copy ≡ range_items start end text.now) }
{
    let bytes = text.as_slice();
    let (from, to) = range_of(start, end, bytes.len());
    Text::copy_of(alloc, &bytes[from..to])
}
