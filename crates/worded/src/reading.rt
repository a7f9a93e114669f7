//! Reading a batch of the words that say it.

ghost use Rattle.std.specs.Prelude.{◌≡◌, Ok, IfOk, IfErr, drop};
ghost use Rattle.sessions.specs.Member.{IsKeyedMember};
ghost use Rattle.worded.specs.Faults.{IsFaultOf};
ghost use Rattle.worded.specs.Reading.{as_exec, batch_reading, member_in, members_in};

use super::fault::WordedFault;
use command_table::{Refusal, read};
use packing::take_words;
use resp::Request;
use sessions::{Batch, Member, Members, member_of};
use std::alloc::Global;

/// The batch that the words say: a command's own say it, and those of an EXEC have the words of a member in each word behind
/// its name. `Refused` tells why they say none; `Memory`, that there was none for the members.
pub fn read_batch(alloc: Global, words: Request) -> Result<Batch, WordedFault>
    ensures read { IfOk result (λ batch. batch_reading words ≡ Ok batch) }
    ensures fault { IfErr result (IsFaultOf (batch_reading words)) }
{
    // `len` is called for its clause that there is a word.
    let _words = words.len();
    if words.word(0) == b"exec".as_slice() {
        return read_exec(alloc, &words);
    }
    match read(words) {
        Ok(command) => Ok(Batch::Plain(command)),
        Err(refusal) => Err(WordedFault::Refused(refusal)),
    }
}

/// The members that the words behind a name say, of which there is one at least.
fn read_exec(alloc: Global, words: &Request) -> Result<Batch, WordedFault>
    ensures read { IfOk result (λ batch. as_exec (members_in (drop 1 words.now)) ≡ Ok batch) }
    ensures fault { IfErr result (IsFaultOf (as_exec (members_in (drop 1 words.now)))) }
{
    let mut members = Vec::with_capacity(alloc, words.len())?;
    for place in 1..words.len() {
        let member = read_member(alloc, words.word(place))?;
        members.push_reserved(member);
    }
    match Members::new(members) {
        Some(members) => Ok(Batch::Exec(members)),
        None => Err(WordedFault::Refused(Refusal::Unknown)),
    }
}

/// The member whose words lie packed in this one.
fn read_member(alloc: Global, word: &[u8]) -> Result<Member, WordedFault>
    ensures read { IfOk result (λ member. member_in word.now ≡ Ok member) }
    ensures keyed { IfOk result IsKeyedMember }
    ensures fault { IfErr result (IsFaultOf (member_in word.now)) }
{
    let (words, _) = take_words(alloc, word)?;
    if words.is_empty() {
        return Err(WordedFault::Refused(Refusal::Unknown));
    }
    match member_of(read(Request::from_words(words))) {
        Ok(member) => Ok(member),
        Err(refusal) => Err(WordedFault::Refused(refusal)),
    }
}
