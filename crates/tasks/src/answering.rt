//! A batch run for a reply that is kept beside its text.

ghost use Rattle.std.specs.Prelude.{◌≡◌, ◌≤◌, ◌+◌, ◌*◌, ◌∷◌, ◌++◌, All, IsTrue, IfOk, OnErr, vec_len, vec_capacity};
ghost use Rattle.std.specs.Fmt.{decimal};
ghost use Rattle.tasks.specs.BatchAnswer.{AnswerStarvesRightly, BatchAnswerTakesMemory};
ghost use Rattle.tasks.specs.Batch.{DoesBatch};
ghost use Rattle.tasks.specs.Keys.{batch_keys};
ghost use Rattle.tasks.specs.CommandAnswer.{reply_of};
ghost use Rattle.groups.specs.Skips.{parts_of};
ghost use Rattle.resp.specs.Ascii.{asterisk};
ghost use Rattle.resp.specs.Content.{content};
ghost use Rattle.resp.specs.Text.{crlf};
ghost use Rattle.resp.specs.declared.answered.TheConstants.{LONG};

use crate::answered_members::answer_members;
use crate::command_answers::answer;
use command_cases::Starved;
use groups::{RequestId, SkipId};
use itoa::Buffer;
use keyspace::Keyspace;
use resp::{Answered, LONG, Reply};
use sessions::Batch;
use std::alloc::{AllocError, Global};

/// The greatest length of the line that begins the text of an array.
const HEAD: usize = 23;

/// Runs the batch of the request `id` as `execute_batch` does, and gives its reply with its text where that is long; with the
/// reply of an EXEC its text in any case. The keyspace has to cover each of its keys.
///
/// The members of this request that are among the names to be skipped change nothing, and answer `ERR out of memory`. So does a
/// member for which there is no memory, be it for its run or for a text of more than 128 bytes, and the others are run all
/// the same.
///
/// `Starved` comes only of a command outside a list that takes memory, or whose reply is long, or where there is no memory for
/// the array of the replies of an EXEC and for 128 bytes of text a member, which is taken before a member is run; the
/// keyspace then has the contents that it had before.
pub fn answer_batch<K: Keyspace>(
    alloc: Global,
    keyspace: &mut K,
    batch: Batch,
    id: RequestId,
    skip: &[SkipId],
) -> Result<Answered, Starved>
    requires { All (λ key. IsTrue (K.covered key)) (batch_keys batch) }
    ensures done { DoesBatch batch (K.contents keyspace.old) (K.contents keyspace.new) (reply_of result) }
    ensures members { IfOk result (λ answered.
        AnswerStarvesRightly (parts_of skip.now id) batch (K.contents keyspace.old) (content answered.reply)) }
    ensures starves { OnErr result (BatchAnswerTakesMemory batch (K.contents keyspace.old)) }
{
    match batch {
        Batch::Plain(command) => answer(alloc, keyspace, command),
        Batch::Exec(members) => {
            let count = members.len();
            let room = Vec::with_capacity(alloc, count)?;
            let mut text = begin_array(alloc, count)?;
            let replies = answer_members(alloc, keyspace, members, id, skip, room, &mut text);
            let reply = Reply::Array(replies);
            let answered = Answered { reply, text };
            Ok(answered)
        }
    }
}

/// The line that begins the text of an array of so many replies, with room behind it for 128 bytes a reply.
fn begin_array(alloc: Global, count: usize) -> Result<Vec<u8>, AllocError>
    ensures line { IfOk result (λ text. text.items ≡ asterisk ∷ decimal count ++ crlf) }
    ensures room { IfOk result (λ text. vec_len text + LONG * count ≤ vec_capacity text) }
{
    let texts = LONG.checked_mul(count).ok_or(AllocError)?;
    let size = texts.checked_add(HEAD).ok_or(AllocError)?;
    let mut text = Vec::with_capacity(alloc, size)?;
    text.push_reserved(b'*');
    text.extend_from_slice(Buffer::new().format(count).as_bytes())?;
    text.extend_from_slice(b"\r\n")?;
    Ok(text)
}
