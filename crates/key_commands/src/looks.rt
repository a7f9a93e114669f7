//! EXISTS and TYPE, which change nothing.

ghost use Rattle.std.specs.Prelude.{All, IsTrue, IsOk};
ghost use Rattle.command_cases.specs.Case.{Does, at_key};
ghost use Rattle.key_commands.specs.KeyCommand.{exists_case, type_step};

use command_cases::{Starved, count_reply};
use keyspace::Keyspace;
use resp::Reply;
use std::alloc::Global;
use texts::{Text, Texts};

/// `EXISTS key [key ..]`: how many words name a key that is there. A key that is named twice counts twice.
///
/// It takes no memory. <https://redis.io/docs/latest/commands/exists/>
pub(crate) fn exists<K: Keyspace>(
    _alloc: Global,
    keyspace: &K,
    keys: Texts,
) -> Result<Reply, Starved>
    requires { All (λ key. IsTrue (K.covered key)) keys }
    ensures done { Does (exists_case keys)
        (K.contents keyspace.now) (K.contents keyspace.now) result }
    ensures answers { IsOk result }
{
    let mut there: usize = 0;
    for key in keys.as_slice() {
        if keyspace.look(key.as_slice()).is_some() {
            there += 1;
        }
    }
    Ok(count_reply(there))
}

/// `TYPE key`: the name of the type of the value at the key, or `none`. It takes no memory.
/// <https://redis.io/docs/latest/commands/type/>
#[tactic(auto, using(keyspace::proofs::Changes::changes, resp::proofs::Contents::content_of))]
pub(crate) fn type_of<K: Keyspace>(
    _alloc: Global,
    keyspace: &K,
    key: Text,
) -> Result<Reply, Starved>
    requires { IsTrue (K.covered key) }
    ensures done { Does (at_key key type_step)
        (K.contents keyspace.now) (K.contents keyspace.now) result }
    ensures answers { IsOk result }
{
    Ok(Reply::Simple(match keyspace.look(key.as_slice()) {
        None => "none",
        Some(value) => value.type_name(),
    }))
}
