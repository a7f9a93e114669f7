//! SCARD and SISMEMBER: what a set says of itself or of one member.

ghost use Rattle.std.specs.Prelude.{IsTrue, IsOk};
ghost use Rattle.command_cases.specs.Case.{Does, at_key};
ghost use Rattle.set_commands.specs.SetCommand.{looks_at_set, scard_answer, sismember_answer};

use command_cases::{Starved, count_reply, truth_reply, wrong_type_reply};
use keyspace::Keyspace;
use resp::Reply;
use std::alloc::Global;
use texts::Text;
use values::Value;

/// `SCARD key`: the number of members; an error where the key holds a value of another type.
///
/// It takes no memory. <https://redis.io/docs/latest/commands/scard/>
#[tactic(auto, using(keyspace::proofs::Changes::changes))]
pub(crate) fn scard<K: Keyspace>(_alloc: Global, keyspace: &K, key: Text) -> Result<Reply, Starved>
    requires { IsTrue (K.covered key) }
    ensures done { Does (at_key key (looks_at_set scard_answer))
        (K.contents keyspace.now) (K.contents keyspace.now) result }
    ensures answers { IsOk result }
{
    match keyspace.look(key.as_slice()) {
        None => Ok(count_reply(0)),
        Some(Value::Set(set)) => Ok(count_reply(set.len())),
        Some(_) => Ok(wrong_type_reply()),
    }
}

/// `SISMEMBER key member`: whether it is a member; an error where the key holds a value of another type.
///
/// It takes no memory. <https://redis.io/docs/latest/commands/sismember/>
#[tactic(auto, using(keyspace::proofs::Changes::changes))]
pub(crate) fn sismember<K: Keyspace>(
    _alloc: Global,
    keyspace: &K,
    key: Text,
    member: Text,
) -> Result<Reply, Starved>
    requires { IsTrue (K.covered key) }
    ensures done { Does (at_key key (looks_at_set (sismember_answer member)))
        (K.contents keyspace.now) (K.contents keyspace.now) result }
    ensures answers { IsOk result }
{
    match keyspace.look(key.as_slice()) {
        None => Ok(truth_reply(false)),
        Some(Value::Set(set)) => Ok(truth_reply(set.has(member.as_slice()))),
        Some(_) => Ok(wrong_type_reply()),
    }
}
