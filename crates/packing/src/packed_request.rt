//! A copy of a request in one buffer.

ghost use Rattle.std.specs.Prelude.{◌≡◌, ◌∷◌, ◌≤◌, length, IsOk, IfOk, OnOk, map, vec_capacity};
ghost use Rattle.packing.specs.Codes.{words_code, WordsFit};
ghost use Rattle.std.specs.List.{AllByRecursion};

use crate::number::{number_size, put_bytes, put_number};
use crate::packed_list::PackedList;
use crate::words::{put_words, words_size, write_words};
use resp::Request;
use std::alloc::{AllocError, Global};
use std::marker::Model;

/// A copy of a request's words in one buffer of their size. Contracts see the list of the words.
#[derive(Drop)]
pub struct PackedRequest {
    bytes: Vec<u8>,
}

impl Model for PackedRequest {
    ghost use Rattle.std.specs.Prelude.{◌≡◌, ℕ, List};
    ghost use Rattle.packing.specs.Codes.{words_at, words_code, WordsFit};

    ghost Value = { List (List ℕ) };

    ghost view = { λ w. (words_at w.bytes.items).0 };

    ghost invariant = { λ w. (w.bytes.items ≡ words_code (words_at w.bytes.items).0)
        × WordsFit (words_at w.bytes.items).0 };
}

impl PackedRequest {
    /// A copy of the words; `AllocError` where there is no memory for it.
    pub fn copy_of(alloc: Global, words: &Request) -> Result<Self, AllocError>
        ensures { IfOk result (λ copy. copy ≡ words.now) }
    {
        PackedRequest::copy_into(Vec::new(alloc), words)
    }

    /// A copy of the words in a buffer that was used before, which takes no memory where there is room in it; `AllocError`
    /// where there is none for it.
    // Inlined, since most words are few and short.
    #[inline(always)]
    pub fn copy_into(buffer: Vec<u8>, words: &Request) -> Result<Self, AllocError>
        ensures copied { IfOk result (λ copy. copy ≡ words.now) }
        ensures room { length (words_code words.now) ≤ vec_capacity buffer → IsOk result }
    {
        let Some(size) = words_size(words) else {
            return Err(AllocError);
        };
        let mut bytes = buffer;
        if bytes.capacity() < size {
            bytes.clear();
            bytes.reserve_exact(size)?;
        }
        if bytes.len() < size {
            bytes.resize(size, 0)?;
        }
        bytes.truncate(size);
        write_words(words, bytes.as_mut_slice());
        Ok(PackedRequest { bytes })
    }

    /// The buffer in which the words lie, for other words.
    pub fn into_buffer(self) -> Vec<u8>
        ensures { result.items ≡ words_code self }
    {
        self.bytes
    }

    /// A word of this name, and behind it for each request of the list one word, in which its words lie: their code. The only
    /// error is want of memory. A caller learns that the words of each request can lie in memory.
    pub fn of_list(alloc: Global, name: &[u8], list: &PackedList) -> Result<Self, AllocError>
        ensures made { IfOk result (λ made. made ≡ name.now ∷ map words_code list.now) }
        ensures fit { OnOk result (AllByRecursion WordsFit list.now) }
    {
        let count = list.len() as u64 + 1;
        let behind = list.as_bytes();
        let head = number_size(count) + number_size(name.len() as u64);
        let Some(size) = name.len().checked_add(head) else {
            return Err(AllocError);
        };
        let Some(size) = size.checked_add(behind.len()) else {
            return Err(AllocError);
        };
        let mut bytes = Vec::with_capacity(alloc, size)?;
        put_number(count, &mut bytes);
        put_number(name.len() as u64, &mut bytes);
        put_bytes(name, &mut bytes);
        put_bytes(behind, &mut bytes);
        Ok(PackedRequest { bytes })
    }

    /// A copy of them; `AllocError` where there is no memory for it.
    pub fn try_clone(&self) -> Result<Self, AllocError>
        ensures { IfOk result (λ copy. copy ≡ self.now) }
    {
        let bytes = Vec::from_slice(*self.bytes.allocator(), self.bytes.as_slice())?;
        Ok(PackedRequest { bytes })
    }

    /// The bytes in which the words lie: their code.
    pub fn as_bytes(&self) -> &[u8]
        ensures code { result.now ≡ words_code self.now }
        ensures fit { WordsFit self.now }
    {
        self.bytes.as_slice()
    }
}
