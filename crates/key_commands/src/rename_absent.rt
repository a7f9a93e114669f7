//! RENAMENX.

ghost use Rattle.std.specs.Prelude.{◌≡◌, IsTrue, IsSome, OnErr, None};
ghost use Rattle.std.specs.FinMap as map;
ghost use Rattle.std.specs.Str.{bytes_eq};
ghost use Rattle.command_cases.specs.Case.{Does};
ghost use Rattle.command_cases.specs.Shapes.{at_two};
ghost use Rattle.key_commands.specs.KeyCommand.{renamenx_step};

use command_cases::{Starved, no_such_key_reply, truth_reply};
use keyspace::Keyspace;
use resp::Reply;
use std::alloc::Global;
use texts::Text;
use values::Value;

/// `RENAMENX key newkey`: moves the value to the new key where that isn't there, and says whether it did; an error
/// where the key is missing. Equal names are a new key that is there.
///
/// The value is held as RENAME holds it. Memory is taken only where the value moves.
/// <https://redis.io/docs/latest/commands/renamenx/>
#[tactic(auto, using(keyspace::proofs::Changes::changes, command_cases::proofs::Beside::beside))]
pub(crate) fn renamenx<K: Keyspace>(
    alloc: Global,
    keyspace: &mut K,
    from: Text,
    to: Text,
) -> Result<Reply, Starved>
    requires from { IsTrue (K.covered from) }
    requires to { IsTrue (K.covered to) }
    ensures done { Does (at_two from to (renamenx_step (bytes_eq from to)))
        (K.contents keyspace.old) (K.contents keyspace.new) result }
    ensures starves { OnErr result
        (IsSome (map.get (K.contents keyspace.old) from) × (map.get (K.contents keyspace.old) to ≡ None)) }
{
    if keyspace.look(from.as_slice()).is_none() {
        return Ok(no_such_key_reply());
    }
    if from.as_slice() == to.as_slice() {
        return Ok(truth_reply(false));
    }
    if keyspace.look(to.as_slice()).is_some() {
        return Ok(truth_reply(false));
    }
    let value = keyspace.replace(from.as_slice(), Value::Str(Text::empty(alloc)));
    if let Err((_, value)) = keyspace.put(to.into_vec(), value) {
        keyspace.replace(from.as_slice(), value);
        return Err(Starved);
    }
    keyspace.take(from.as_slice());
    Ok(truth_reply(true))
}
