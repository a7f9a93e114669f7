//! DEL and RENAME.

ghost use Rattle.std.specs.Prelude.{◌≡◌, All, IsTrue, IsSome, IsOk, OnErr, None};
ghost use Rattle.std.specs.FinMap as map;
ghost use Rattle.std.specs.Str.{bytes_eq};
ghost use Rattle.command_cases.specs.Case.{Does};
ghost use Rattle.command_cases.specs.Shapes.{at_two};
ghost use Rattle.key_commands.specs.KeyCommand.{del_case, rename_step};

use command_cases::{Starved, count_reply, no_such_key_reply, ok_reply};
use keyspace::Keyspace;
use resp::Reply;
use std::alloc::Global;
use texts::{Text, Texts};
use values::Value;

/// `DEL key [key ..]`: removes the keys, and says how many were there. A key that is named twice is one key.
///
/// It takes no memory. <https://redis.io/docs/latest/commands/del/>
pub(crate) fn del<K: Keyspace>(
    _alloc: Global,
    keyspace: &mut K,
    keys: Texts,
) -> Result<Reply, Starved>
    requires { All (λ key. IsTrue (K.covered key)) keys }
    ensures done { Does (del_case keys)
        (K.contents keyspace.old) (K.contents keyspace.new) result }
    ensures answers { IsOk result }
{
    let mut removed: usize = 0;
    for key in keys.as_slice() {
        if keyspace.take(key.as_slice()).is_some() {
            removed += 1;
        }
    }
    Ok(count_reply(removed))
}

/// `RENAME key newkey`: moves the value to the new key, in place of a value of any type; an error where the key is
/// missing.
///
/// The key keeps its place, with the empty string, until the new one has the value. So where there is no memory for the
/// new key, the value goes back. Memory is taken only for a key that isn't there.
/// <https://redis.io/docs/latest/commands/rename/>
#[tactic(auto, using(keyspace::proofs::Changes::changes, command_cases::proofs::Beside::beside))]
pub(crate) fn rename<K: Keyspace>(
    alloc: Global,
    keyspace: &mut K,
    from: Text,
    to: Text,
) -> Result<Reply, Starved>
    requires from { IsTrue (K.covered from) }
    requires to { IsTrue (K.covered to) }
    ensures done { Does (at_two from to (rename_step (bytes_eq from to)))
        (K.contents keyspace.old) (K.contents keyspace.new) result }
    ensures starves { OnErr result
        (IsSome (map.get (K.contents keyspace.old) from) × (map.get (K.contents keyspace.old) to ≡ None)) }
{
    if keyspace.look(from.as_slice()).is_none() {
        return Ok(no_such_key_reply());
    }
    if from.as_slice() == to.as_slice() {
        return Ok(ok_reply());
    }
    let value = keyspace.replace(from.as_slice(), Value::Str(Text::empty(alloc)));
    if let Err((_, value)) = keyspace.put(to.into_vec(), value) {
        keyspace.replace(from.as_slice(), value);
        return Err(Starved);
    }
    keyspace.take(from.as_slice());
    Ok(ok_reply())
}
