//! The first word of a request, which names a command.
//!
//! Every request has one, and most have few bytes: these lie in the request itself, so that a name takes no memory.

ghost use Rattle.std.specs.Prelude.{◌≡◌, ◌<◌, ◌≤◌, length, map, take, IfOk, OnErr};
ghost use Rattle.std.specs.Char.{to_ascii_lowercase};
ghost use Rattle.resp.specs.declared.name.TheConstants.{INLINE_BYTES};

use std::alloc::{AllocError, Global};
use std::marker::Model;

/// A name of at most so many bytes takes no memory. No command's is longer.
pub const INLINE_BYTES: usize = 16;

/// The first word of a request: any bytes. Contracts see them; where they lie is private.
#[derive(Drop)]
pub struct Name {
    place: Place,
}

/// Where the bytes of a name lie.
#[derive(Drop)]
enum Place {
    /// Inside the name; what comes after the first `len` counts for nothing.
    Inline {
        len: usize,
        bytes: [u8; INLINE_BYTES],
    },

    /// In memory of their own.
    Heap(Vec<u8>),
}

impl Model for Name {
    ghost use Rattle.texts.specs.Texts.{Bytes};
    ghost use Rattle.resp.specs.Names.{bytes_at, IsWithin};

    ghost Value = { Bytes };

    ghost view = { λ n. bytes_at n.place };

    ghost invariant = { λ n. IsWithin n.place };
}

impl Name {
    /// A copy of these bytes; `AllocError` where there is no memory for it. Few bytes take none.
    #[inline]
    pub fn copy_of(alloc: Global, bytes: &[u8]) -> Result<Self, AllocError>
        ensures copied { IfOk result (λ name. name ≡ bytes.now) }
        ensures long { OnErr result (INLINE_BYTES < length bytes.now) }
    {
        if bytes.len() <= INLINE_BYTES {
            return Ok(Name::inline(bytes));
        }
        let copy = Vec::from_slice(alloc, bytes)?;
        Ok(Name {
            place: Place::Heap(copy),
        })
    }

    /// The name with these bytes. It takes no memory: that of few bytes is given back, and that of many kept.
    pub fn of_word(word: Vec<u8>) -> Self
        ensures { result ≡ word.items }
    {
        if word.len() <= INLINE_BYTES {
            return Name::inline(word.as_slice());
        }
        Name {
            place: Place::Heap(word),
        }
    }

    /// The name with these few bytes.
    #[inline]
    fn inline(bytes: &[u8]) -> Self
        requires { length bytes.now ≤ INLINE_BYTES }
        ensures { result ≡ bytes.now }
    {
        let len = bytes.len();
        let mut inside = [0; INLINE_BYTES];
        inside[..len].copy_from_slice(bytes);
        Name {
            place: Place::Inline { len, bytes: inside },
        }
    }

    /// The bytes, to be read.
    #[inline]
    pub fn as_slice(&self) -> &[u8]
        ensures { result.now ≡ self.now }
    {
        match &self.place {
            Place::Inline { len, bytes } => &bytes[..*len],
            Place::Heap(bytes) => bytes.as_slice(),
        }
    }

    /// The name in lower case: ASCII letters alone have a case. It takes no memory.
    #[inline]
    pub fn into_lower_case(self) -> Self
        ensures { result ≡ map to_ascii_lowercase self }
    {
        let place = match self.place {
            Place::Inline { len, bytes } => Place::Inline {
                len,
                bytes: short_lower_case(len, bytes),
            },
            Place::Heap(bytes) => Place::Heap(long_lower_case(bytes)),
        };
        Name { place }
    }
}

/// The first so many bytes in lower case, before the others.
#[inline(always)]
fn short_lower_case(len: usize, mut bytes: [u8; INLINE_BYTES]) -> [u8; INLINE_BYTES]
    requires { len ≤ INLINE_BYTES }
    ensures { take len result ≡ map to_ascii_lowercase (take len bytes) }
{
    bytes[..len].make_ascii_lowercase();
    bytes
}

/// The bytes of a long name in lower case.
fn long_lower_case(mut bytes: Vec<u8>) -> Vec<u8>
    ensures { result.items ≡ map to_ascii_lowercase bytes.items }
{
    bytes.make_ascii_lowercase();
    bytes
}
