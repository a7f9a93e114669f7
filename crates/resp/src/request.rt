//! A request: the words that a client sends, the first of which names a command.
//!
//! RESP2 sends a request as an array of bulk strings. The decoder makes requests, and the table of commands reads them.

ghost use Rattle.std.specs.Prelude.{◌≡◌, ◌<◌, ◌∷◌, length, map, slice_get, Some, IfOk};
ghost use Rattle.texts.specs.Texts.{texts_of};

use crate::name::Name;
use std::alloc::{AllocError, Global};
use std::marker::Model;

/// A request: at least one word, each a byte string. Contracts see the list of its words; how they lie in memory is
/// private.
#[derive(Drop)]
pub struct Request {
    name: Name,
    words: Vec<Vec<u8>>,
}

impl Model for Request {
    ghost use Rattle.std.specs.Prelude.{List, ◌∷◌};
    ghost use Rattle.texts.specs.Texts.{Bytes, texts_of};

    ghost Value = { List Bytes };

    ghost view = { λ r. r.name ∷ texts_of r.words.items };
}

impl Request {
    /// The request of a name, which is its first word, and the words behind it. It takes no memory.
    pub fn new(name: Name, words: Vec<Vec<u8>>) -> Self
        ensures { result ≡ name ∷ texts_of words.items }
    {
        Request { name, words }
    }

    /// The request of these words, of which there is at least one. It takes no memory.
    pub fn from_words(mut words: Vec<Vec<u8>>) -> Self
        requires { 0 < length words.items }
        ensures { result ≡ texts_of words.items }
    {
        let name = Name::of_word(words.remove(0));
        Request { name, words }
    }

    /// The request of a copy of these words, of which there is at least one; `AllocError` where there is no memory for
    /// it.
    pub fn copy_of(alloc: Global, words: &[&[u8]]) -> Result<Self, AllocError>
        requires { 0 < length words.now }
        ensures copied { IfOk result (λ r. r ≡ map (λ w. w.now) words.now) }
    {
        let [first, rest @ ..] = words else {
            unreachable!();
        };
        let name = Name::copy_of(alloc, first)?;
        let words = copies_of_borrowed(alloc, rest)?;
        Ok(Request { name, words })
    }

    /// A copy of the request; `AllocError` where there is no memory for it.
    pub fn try_clone(&self, alloc: Global) -> Result<Self, AllocError>
        ensures copied { IfOk result (λ r. r ≡ self.now) }
    {
        let name = Name::copy_of(alloc, self.name.as_slice())?;
        let words = copies_of(alloc, self.words.as_slice())?;
        Ok(Request { name, words })
    }

    /// The number of words, which is at least one.
    #[allow(clippy::len_without_is_empty)]
    pub fn len(&self) -> usize
        ensures number { result ≡ length self.now }
        ensures some { 0 < result }
    {
        self.words.len() + 1
    }

    /// The word at place `i`, counted from 0.
    pub fn word(&self, i: usize) -> &[u8]
        requires { i < length self.now }
        ensures { slice_get self.now i ≡ Some result.now }
    {
        if i == 0 {
            self.name.as_slice()
        } else {
            self.words[i - 1].as_slice()
        }
    }

    /// The name and the words behind it, given back with the memory that they lie in.
    pub fn into_parts(self) -> (Name, Vec<Vec<u8>>)
        ensures { result.0 ∷ texts_of result.1.items ≡ self }
    {
        let Request { name, words } = self;
        (name, words)
    }
}

/// Copies of these words, in their order.
fn copies_of_borrowed(alloc: Global, words: &[&[u8]]) -> Result<Vec<Vec<u8>>, AllocError>
    ensures { IfOk result (λ copies. texts_of copies.items ≡ map (λ w. w.now) words.now) }
{
    let mut copies = Vec::with_capacity(alloc, words.len())?;
    for word in words {
        copies.push(Vec::from_slice(alloc, word)?)?;
    }
    Ok(copies)
}

/// Copies of these words, in their order.
fn copies_of(alloc: Global, words: &[Vec<u8>]) -> Result<Vec<Vec<u8>>, AllocError>
    ensures { IfOk result (λ copies. texts_of copies.items ≡ texts_of words.now) }
{
    let mut copies = Vec::with_capacity(alloc, words.len())?;
    for word in words {
        copies.push(Vec::from_slice(alloc, word.as_slice())?)?;
    }
    Ok(copies)
}
