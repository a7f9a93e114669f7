//! Words, and the words of a request.

ghost use Rattle.std.specs.Prelude.{◌≡◌, ◌+◌, ◌≤◌, ◌<◌, ◌^◌, ◌++◌, length, vec_len, vec_capacity, MatchOption, IfOk};
ghost use Rattle.texts.specs.Texts.{texts_of};
ghost use Rattle.packing.specs.Codes.{word_code, word_at, words_code, words_at, WordFits, WordsFit};

use crate::number::{number_size, put_bytes, put_number, take_number, write_bytes, write_number};
use resp::Request;
use std::alloc::{AllocError, Global};

/// How many bytes the words take; `None` where that is 2^64 or more.
#[inline(always)]
pub fn words_size(words: &Request) -> Option<usize>
    ensures { MatchOption result (2 ^ 64 ≤ length (words_code words.now))
        (λ size. (size ≡ length (words_code words.now)) × WordsFit words.now) }
{
    let mut size = number_size(words.len() as u64);
    for place in 0..words.len() {
        let word = words.word(place);
        size = size.checked_add(word_size(word))?;
    }
    Some(size)
}

/// How many bytes a word takes.
#[tactic(auto, using(crate::specs::CodeLaws::word_sizes))]
fn word_size(word: &[u8]) -> usize
    ensures size { result ≡ length (word_code word.now) }
    ensures fits { WordFits word.now }
{
    number_size(word.len() as u64) + word.len()
}

/// Appends the words, for which there is room.
pub fn put_words(words: &Request, out: &mut Vec<u8>)
    requires { vec_len out.old + length (words_code words.now) ≤ vec_capacity out.old }
    ensures items { out.new.items ≡ out.old.items ++ words_code words.now }
    ensures len { vec_len out.new ≡ vec_len out.old + length (words_code words.now) }
    ensures capacity { vec_capacity out.old ≤ vec_capacity out.new }
{
    put_number(words.len() as u64, out);
    for place in 0..words.len() {
        let word = words.word(place);
        put_number(word.len() as u64, out);
        put_bytes(word, out);
    }
}

/// Writes the words over these bytes, which are as many: what is appended is looked at for room each time, and here none is needed.
// Inlined, since most words are few and short.
#[inline(always)]
pub(crate) fn write_words(words: &Request, out: &mut [u8])
    requires { length out.old ≡ length (words_code words.now) }
    ensures { out.new ≡ words_code words.now }
{
    let mut at = write_number(words.len() as u64, out, 0);
    for place in 0..words.len() {
        let word = words.word(place);
        at = write_number(word.len() as u64, out, at);
        at = write_bytes(word, out, at);
    }
}

/// The word at the front of the bytes, and the bytes behind it. Bytes that no word begins give some word too.
#[tactic(auto, unfolding(crate::specs::Codes::word_at))]
pub fn take_word(bytes: &[u8]) -> (&[u8], &[u8])
    ensures word { result.0.now ≡ (word_at bytes.now).0 }
    ensures rest { result.1.now ≡ (word_at bytes.now).1 }
{
    let (length, rest) = take_number(bytes);
    rest.split_at(length.min(rest.len() as u64) as usize)
}

/// A copy of the words at the front of the bytes, and the bytes behind them; `AllocError` where there is no memory
/// for it. Bytes that no words begin give some words too.
#[tactic(auto, unfolding(crate::specs::Codes::words_at))]
pub fn take_words(alloc: Global, bytes: &[u8]) -> Result<(Vec<Vec<u8>>, &[u8]), AllocError>
    ensures words { IfOk result (λ r. texts_of r.0.items ≡ (words_at bytes.now).0) }
    ensures rest { IfOk result (λ r. r.1.now ≡ (words_at bytes.now).1) }
{
    let (count, mut rest) = take_number(bytes);
    let mut words = Vec::with_capacity(alloc, count as usize)?;
    for _ in 0..count {
        let (word, more) = take_word(rest);
        words.push(Vec::from_slice(alloc, word)?)?;
        rest = more;
    }
    Ok((words, rest))
}
