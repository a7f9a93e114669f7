//! GETSET and GETDEL, which move the string that was there into the reply.

ghost use Rattle.std.specs.Prelude.{◌≡◌, IsTrue, IsOk, OnErr, None};
ghost use Rattle.std.specs.FinMap as map;
ghost use Rattle.command_cases.specs.Case.{Does, at_key};
ghost use Rattle.string_commands.specs.StringCommand.{at_string, getset_string, getdel_string};

use command_cases::{Starved, wrong_type_reply};
use keyspace::Keyspace;
use resp::Reply;
use std::alloc::Global;
use texts::Text;
use values::Value;

/// `GETSET key value`: puts the string at the key, and gives the string that was there, or null; an error where the key
/// holds a value of another type.
///
/// Neither string is copied. Memory is taken only for a key that isn't there.
/// <https://redis.io/docs/latest/commands/getset/>
#[tactic(auto, using(keyspace::proofs::Changes::changes, resp::proofs::Contents::content_of))]
pub(crate) fn getset<K: Keyspace>(
    _alloc: Global,
    keyspace: &mut K,
    key: Text,
    value: Text,
) -> Result<Reply, Starved>
    requires { IsTrue (K.covered key) }
    ensures done { Does (at_key key (at_string (getset_string value)))
        (K.contents keyspace.old) (K.contents keyspace.new) result }
    ensures starves { OnErr result (map.get (K.contents keyspace.old) key ≡ None) }
{
    match keyspace.look(key.as_slice()) {
        None => {
            let Ok(_) = keyspace.put(key.into_vec(), Value::Str(value)) else {
                return Err(Starved);
            };
            Ok(Reply::Null)
        }
        Some(Value::Str(_)) => {
            let Value::Str(before) = keyspace.replace(key.as_slice(), Value::Str(value)) else {
                unreachable!();
            };
            Ok(Reply::Bulk(before.into_vec()))
        }
        Some(_) => Ok(wrong_type_reply()),
    }
}

/// `GETDEL key`: removes the key, and gives the string that was there, or null; an error where the key holds a value of
/// another type.
///
/// The string is not copied, and no memory is taken. <https://redis.io/docs/latest/commands/getdel/>
#[tactic(auto, using(keyspace::proofs::Changes::changes, resp::proofs::Contents::content_of))]
pub(crate) fn getdel<K: Keyspace>(
    _alloc: Global,
    keyspace: &mut K,
    key: Text,
) -> Result<Reply, Starved>
    requires { IsTrue (K.covered key) }
    ensures done { Does (at_key key (at_string getdel_string))
        (K.contents keyspace.old) (K.contents keyspace.new) result }
    ensures answers { IsOk result }
{
    match keyspace.look(key.as_slice()) {
        None => Ok(Reply::Null),
        Some(Value::Str(_)) => {
            let Some(Value::Str(before)) = keyspace.take(key.as_slice()) else {
                unreachable!();
            };
            Ok(Reply::Bulk(before.into_vec()))
        }
        Some(_) => Ok(wrong_type_reply()),
    }
}
