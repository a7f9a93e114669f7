//! The words of a request in one buffer.

ghost use Rattle.std.specs.Prelude.{◌≡◌, [], length, ◌<◌, ◌≤◌, slice_get, Some, IfOk, OnOk, OnErr, vec_len, vec_capacity};
ghost use Rattle.packing.specs.Packed.{ArePacked};

use crate::growth::grow;
use crate::number::take_number;
use crate::words::{put_words, take_word, words_size};
use resp::Request;
use std::alloc::{AllocError, Global};
use std::marker::Model;

/// A buffer of more bytes than these is given back as soon as words come that need fewer.
const KEPT_BUFFER: usize = 64 * 1024;

/// The words of a request in one buffer, which is used again for those of the next one; but a large one is given back
/// after the words that needed it. Contracts see the list of the words: none at first.
#[derive(Drop)]
pub struct PackedWords {
    bytes: Vec<u8>,
}

impl Model for PackedWords {
    ghost use Rattle.std.specs.Prelude.{ℕ, List};
    ghost use Rattle.packing.specs.Codes.{words_at};
    ghost use Rattle.packing.specs.Packed.{ArePacked};

    ghost Value = { List (List ℕ) };

    ghost view = { λ w. (words_at w.bytes.items).0 };

    ghost invariant = { λ w. ArePacked (words_at w.bytes.items).0 w.bytes.items };
}

impl PackedWords {
    /// No words. It takes no memory.
    pub fn new(alloc: Global) -> Self
        ensures { result ≡ [] }
    {
        PackedWords {
            bytes: Vec::new(alloc),
        }
    }

    /// A copy of the request's words takes the place of those before. The only error is want of memory, which changes
    /// nothing.
    pub fn set(&mut self, words: &Request) -> Result<(), AllocError>
        ensures set { OnOk result (self.new ≡ words.now) }
        ensures unchanged { OnErr result (self.new ≡ self.old) }
    {
        let Some(size) = words_size(words) else {
            return Err(AllocError);
        };
        make_room(&mut self.bytes, size)?;
        put_words(words, &mut self.bytes);
        Ok(())
    }

    /// A copy of the words; `AllocError` where there is no memory for it.
    pub fn try_clone(&self) -> Result<Self, AllocError>
        ensures { IfOk result (λ copy. copy ≡ self.now) }
    {
        let bytes = Vec::from_slice(*self.bytes.allocator(), self.bytes.as_slice())?;
        Ok(PackedWords { bytes })
    }

    /// How many words there are.
    #[allow(clippy::len_without_is_empty)]
    pub fn len(&self) -> usize
        ensures { result ≡ length self.now }
    {
        take_number(self.bytes.as_slice()).0 as usize
    }

    /// The word at this place, counted from 0. It is found in as many steps.
    pub fn word(&self, place: usize) -> &[u8]
        requires { place < length self.now }
        ensures { slice_get self.now place ≡ Some result.now }
    {
        let mut rest = take_number(self.bytes.as_slice()).1;
        for _ in 0..place {
            rest = take_word(rest).1;
        }
        take_word(rest).0
    }

    /// The bytes in which the words lie.
    pub fn as_bytes(&self) -> &[u8]
        ensures { ArePacked self.now result.now }
    {
        self.bytes.as_slice()
    }
}

/// Empties the buffer, with room for so many bytes in it. The only error is want of memory, and then it is as it was.
fn make_room(bytes: &mut Vec<u8>, size: usize) -> Result<(), AllocError>
    ensures none { OnOk result ((bytes.new.items ≡ []) × (vec_len bytes.new ≡ 0)) }
    ensures room { OnOk result (size ≤ vec_capacity bytes.new) }
    ensures unchanged { OnErr result (bytes.new.items ≡ bytes.old.items) }
{
    if size < KEPT_BUFFER && KEPT_BUFFER < bytes.capacity() {
        if let Ok(smaller) = Vec::with_capacity(*bytes.allocator(), size) {
            *bytes = smaller;
            return Ok(());
        }
    }
    grow(bytes, size.saturating_sub(bytes.len()))?;
    bytes.clear();
    Ok(())
}
