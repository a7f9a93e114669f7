//! A batch with the words that say it.

ghost use Rattle.std.specs.Prelude.{◌≡◌, ◌≢◌, ◌≤◌, length, Ok, IfOk, IfErr, vec_capacity};
ghost use Rattle.packing.specs.Codes.{words_code};
ghost use Rattle.command_table.specs.Keyed.{IsKeyed};
ghost use Rattle.command_table.specs.Reading.{reading};
ghost use Rattle.sessions.specs.declared.batch.Batch.TheVariants.{Plain, Exec};
ghost use Rattle.worded.specs.Faults.{IsFault};
ghost use Rattle.worded.specs.declared.fault.WordedFault.TheVariants.{Memory};
ghost use Rattle.worded.specs.Reading.{batch_reading, IsPlain};

use super::fault::WordedFault;
use command_table::read;
use packing::PackedRequest;
use resp::Request;
use sessions::{Batch, Members};
use std::alloc::Global;

/// A batch, and the words that say it, in one buffer. Contracts see both; they are never other words than are read as this
/// batch.
#[derive(Drop)]
pub struct Worded {
    words: PackedRequest,
    batch: Batch,
    pub ghost says: { batch_reading words ≡ Ok batch },
}

impl Worded {
    /// The command that the words say, with a copy of them. `Refused` tells why the table refuses them; `Memory`, that
    /// there was none for the copy, which is made before they are read.
    pub fn read(alloc: Global, words: Request) -> Result<Self, WordedFault>
        ensures words { IfOk result (λ asked. asked.words ≡ words) }
        ensures plain { IfOk result (λ asked. IsPlain words asked.batch) }
        ensures fault { IfErr result (IsFault words) }
    {
        Worded::read_into(Vec::new(alloc), words)
    }

    /// The same, with the copy in a buffer that was used before: it takes no memory where there is room in it.
    // Inlined, so that the command is moved fewer times.
    #[inline(always)]
    pub fn read_into(buffer: Vec<u8>, words: Request) -> Result<Self, WordedFault>
        ensures words { IfOk result (λ asked. asked.words ≡ words) }
        ensures plain { IfOk result (λ asked. IsPlain words asked.batch) }
        ensures fault { IfErr result (IsFault words) }
        ensures room { length (words_code words) ≤ vec_capacity buffer → IfErr result (λ fault. fault ≢ Memory) }
    {
        let Ok(copy) = PackedRequest::copy_into(buffer, &words) else {
            return Err(WordedFault::Memory);
        };
        match read(words) {
            Ok(command) => Ok(Worded {
                words: copy,
                batch: Batch::Plain(command),
            }),
            Err(refusal) => Err(WordedFault::Refused(refusal)),
        }
    }

    /// The members of an EXEC, with the words that say them. It takes no memory.
    pub fn of_members(words: PackedRequest, members: Members) -> Self
        requires { batch_reading words ≡ Ok (Exec members) }
        ensures words { result.words ≡ words }
        ensures batch { result.batch ≡ Exec members }
    {
        Worded {
            words,
            batch: Batch::Exec(members),
        }
    }

    /// The words, left in place.
    pub fn words(&self) -> &PackedRequest
        ensures { result.now ≡ self.now.words }
    {
        &self.words
    }

    /// The batch, left in place.
    pub fn batch(&self) -> &Batch
        ensures { result.now ≡ self.now.batch }
    {
        &self.batch
    }

    /// The words and the batch, each for itself. It takes no memory.
    pub fn into_parts(self) -> (PackedRequest, Batch)
        ensures words { result.0 ≡ self.words }
        ensures batch { result.1 ≡ self.batch }
    {
        let Worded { words, batch } = self;
        (words, batch)
    }
}
