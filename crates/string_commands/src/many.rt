//! MGET.

ghost use Rattle.std.specs.Prelude.{◌≡◌, All, IsTrue};
ghost use Rattle.command_cases.specs.Case.{Does};
ghost use Rattle.command_cases.specs.Shapes.{at_each};
ghost use Rattle.string_commands.specs.StringCommand.{mget_reply, string_or_null};
ghost use Rattle.std.specs.FinMap as map;
ghost use Rattle.std.specs.Option.{option_copied};
ghost use Rattle.resp.specs.Content.{text_or_null};

use command_cases::Starved;
use keyspace::Keyspace;
use resp::{BulkTexts, Reply};
use std::alloc::Global;
use texts::Texts;
use values::Value;

/// `MGET key [key ..]`: the string at each key, or null where the key is missing or holds a value of another type.
///
/// Each string is copied once, into the reply. <https://redis.io/docs/latest/commands/mget/>
pub(crate) fn mget<K: Keyspace>(alloc: Global, keyspace: &K, keys: Texts) -> Result<Reply, Starved>
    requires { All (λ key. IsTrue (K.covered key)) keys }
    ensures done { Does (at_each keys mget_reply)
        (K.contents keyspace.now) (K.contents keyspace.now) result }
{
    let mut found = Vec::with_capacity(alloc, keys.len())?;
    for key in keys.as_slice() {
        let Ok(()) = found.push(string_at(keyspace, key.as_slice())) else {
            return Err(Starved);
        };
    }
    Ok(Reply::Bulks(BulkTexts::copy_of(alloc, found.as_slice())?))
}

/// The string at the key, if there is one.
fn string_at<'a, K: Keyspace>(keyspace: &'a K, key: &[u8]) -> Option<&'a [u8]>
    requires { IsTrue (K.covered key.now) }
    ensures { text_or_null (option_copied result) ≡ string_or_null (map.get (K.contents keyspace.now) key.now) }
{
    match keyspace.look(key) {
        Some(Value::Str(text)) => Some(text.as_slice()),
        Some(_) | None => None,
    }
}
