//! The words of some requests in one buffer.

ghost use Rattle.std.specs.Prelude.{◌≡◌, ◌+◌, ◌<◌, ◌≤◌, ◌^◌, ◌++◌, ◌∷◌, [], ℕ, List, length, OnOk, OnErr, vec_len, vec_capacity};
ghost use Rattle.packing.specs.Codes.{WordFits, words_code};
ghost use Rattle.packing.specs.Lists.{AreLists, ListFits, list_code, lists_size};

use crate::growth::grow;
use crate::number::{number_size, put_number};
use crate::words::{put_words, words_size};
use resp::Request;
use std::alloc::{AllocError, Global};
use std::marker::Model;

/// The words of some requests, one request behind another in one buffer. Contracts see the list of the lists of words:
/// none at first.
#[derive(Drop)]
pub struct PackedList {
    count: usize,
    bytes: Vec<u8>,
}

impl Model for PackedList {
    ghost use Rattle.std.specs.Prelude.{ℕ, List};
    ghost use Rattle.packing.specs.Lists.{lists_in, AreLists};

    ghost Value = { List (List (List ℕ)) };

    ghost view = { λ l. lists_in l.count l.bytes.items };

    ghost invariant = { λ l. AreLists (lists_in l.count l.bytes.items) l.count l.bytes.items };
}

impl PackedList {
    /// No request. It takes no memory.
    pub fn new(alloc: Global) -> Self
        ensures { result ≡ [] }
    {
        PackedList {
            count: 0,
            bytes: Vec::new(alloc),
        }
    }

    /// How many requests there are.
    #[allow(clippy::len_without_is_empty)]
    pub fn len(&self) -> usize
        ensures number { result ≡ length self.now }
        ensures small { result < 2 ^ 63 }
    {
        self.count
    }

    /// Adds a copy of the request's words behind the others. The only error is want of memory, which changes nothing.
    pub fn push(&mut self, words: &Request) -> Result<(), AllocError>
        ensures pushed { OnOk result (self.new ≡ self.old ++ words.now ∷ []) }
        ensures unchanged { OnErr result (self.new ≡ self.old) }
    {
        put_list(words, &mut self.bytes)?;
        self.count += 1;
        Ok(())
    }

    /// How many bytes the requests take, which is the place at which the next one begins.
    pub fn size(&self) -> usize
        ensures { result ≡ lists_size self.now }
    {
        self.bytes.len()
    }

    /// Takes back the last request, which begins at this place. It takes no memory.
    pub fn take_back(&mut self, place: usize)
        requires { (front : List (List (List ℕ))) × (last : List (List ℕ)) × (self.old ≡ front ++ last ∷ []) × (place ≡ lists_size front) }
        ensures { (front : List (List (List ℕ))) (last : List (List ℕ)) → self.old ≡ front ++ last ∷ [] → self.new ≡ front }
    {
        self.bytes.truncate(place);
        self.count -= 1;
    }

    /// The bytes in which the requests lie.
    pub(crate) fn as_bytes(&self) -> &[u8]
        ensures { AreLists self.now (length self.now) result.now }
    {
        self.bytes.as_slice()
    }
}

/// Appends a copy of the words, as one word. The only error is want of memory, and then the bytes are as they were.
fn put_list(words: &Request, out: &mut Vec<u8>) -> Result<(), AllocError>
    ensures items { OnOk result (out.new.items ≡ out.old.items ++ list_code words.now) }
    ensures fits { OnOk result (ListFits words.now) }
    ensures unchanged { OnErr result (out.new.items ≡ out.old.items) }
{
    let Some(size) = words_size(words) else {
        return Err(AllocError);
    };
    let Some(whole) = size.checked_add(number_size(size as u64)) else {
        return Err(AllocError);
    };
    grow(out, whole)?;
    put_number(size as u64, out);
    put_words(words, out);
    Ok(())
}
