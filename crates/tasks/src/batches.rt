//! A batch over a keyspace that covers its keys.
//!
//! A command outside a list is run as `execute` runs it. The members of an EXEC are run in turn, each on the map
//! that those before it left, and each place of the reply tells how its member fared: one that answers by an error keeps
//! none of the others from being run, and one for which there is no memory changes nothing and says so.

ghost use Rattle.std.specs.Prelude.{◌≡◌, All, IsTrue, IfOk, OnErr};
ghost use Rattle.resp.specs.Content.{content};
ghost use Rattle.tasks.specs.Batch.{BatchTakesMemory, DoesBatch, StarvesRightly};
ghost use Rattle.tasks.specs.Keys.{batch_keys};

use crate::commands::execute;
use crate::members::run_members;
use command_cases::Starved;
use keyspace::Keyspace;
use resp::Reply;
use sessions::Batch;
use std::alloc::Global;

/// Runs a batch: a command outside a list, or the members of an EXEC in turn. The keyspace has to cover each of its keys.
///
/// The members of these numbers, which count from 1, are skipped: they change nothing, and answer `ERR out of memory`. So
/// does a member for which there is no memory, and the others are run all the same. A command outside a list has no
/// members.
///
/// `Starved` comes only of a command outside a list that takes memory, or where there is no memory for the array of the
/// replies, which is taken before a member is run; the keyspace then has the contents that it had before.
pub fn execute_batch<K: Keyspace>(
    alloc: Global,
    keyspace: &mut K,
    batch: Batch,
    skip: &[usize],
) -> Result<Reply, Starved>
    requires { All (λ key. IsTrue (K.covered key)) (batch_keys batch) }
    ensures done { DoesBatch batch (K.contents keyspace.old) (K.contents keyspace.new) result }
    ensures members { IfOk result (λ reply. StarvesRightly skip.now batch (K.contents keyspace.old) (content reply)) }
    ensures starves { OnErr result (BatchTakesMemory batch (K.contents keyspace.old)) }
{
    match batch {
        Batch::Plain(command) => execute(alloc, keyspace, command),
        Batch::Exec(members) => {
            let room = Vec::with_capacity(alloc, members.len())?;
            Ok(Reply::Array(run_members(alloc, keyspace, members, skip, room)))
        }
    }
}
