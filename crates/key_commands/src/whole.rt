//! DBSIZE and FLUSHALL, which are for all keys.

ghost use Rattle.std.specs.Prelude.{◌≡◌, IsOk};
ghost use Rattle.command_cases.specs.Case.{Does};
ghost use Rattle.key_commands.specs.KeyCommand.{dbsize_case, flushall_case};

use command_cases::{Starved, ok_reply};
use keyspace::Keyspace;
use resp::Reply;
use std::alloc::Global;

/// `DBSIZE`: the number of keys. It takes no memory. <https://redis.io/docs/latest/commands/dbsize/>
#[tactic(auto, using(resp::proofs::Contents::content_of))]
pub(crate) fn dbsize<K: Keyspace>(_alloc: Global, keyspace: &K) -> Result<Reply, Starved>
    ensures done { Does dbsize_case
        (K.contents keyspace.now) (K.contents keyspace.now) result }
    ensures answers { IsOk result }
{
    Ok(Reply::Int(keyspace.size()))
}

/// `FLUSHALL`: removes all keys. It takes no memory. <https://redis.io/docs/latest/commands/flushall/>
pub(crate) fn flushall<K: Keyspace>(_alloc: Global, keyspace: &mut K) -> Result<Reply, Starved>
    ensures done { Does flushall_case
        (K.contents keyspace.old) (K.contents keyspace.new) result }
    ensures answers { IsOk result }
{
    keyspace.clear();
    Ok(ok_reply())
}
