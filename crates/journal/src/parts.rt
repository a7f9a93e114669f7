//! The parts of a trace's lines: numbers, words and names. Each is read in whole, and takes as many steps as it has
//! bytes.

ghost use Rattle.std.specs.Prelude.{◌≡◌, Some, IfOk, IfSome, option_map};
ghost use Rattle.journal.specs.TraceText.{number_in, word_in, cut_at, id_in, member_of, skip_in};
ghost use Rattle.journal.specs.Names.{IsNumbered};

use groups::{ConnId, RequestId, SkipId};
use hex::FromHexError;
use itoa::Buffer;
use std::alloc::{AllocError, Global};

/// What stands before the first such byte, and what behind it, if there is one.
#[tactic(auto, unfolding(crate::specs::TraceText::cut_at))]
pub fn cut_at(bytes: &[u8], byte: u8) -> (&[u8], Option<&[u8]>)
    ensures before { result.0.now ≡ (cut_at byte bytes.now).0 }
    ensures behind { option_map (λ r. r.now) result.1 ≡ (cut_at byte bytes.now).1 }
{
    for (i, b) in bytes.iter().enumerate() {
        if *b == byte {
            return (&bytes[..i], Some(&bytes[i + 1..]));
        }
    }
    (bytes, None)
}

/// The number below 2^64 whose decimal this is.
#[tactic(auto, unfolding(crate::specs::TraceText::number_in))]
pub fn number_in(text: &[u8]) -> Option<u64>
    ensures { result ≡ number_in text.now }
{
    let mut number: u64 = 0;
    for digit in text {
        let worth = u64::from(digit.saturating_sub(b'0'));
        number = number.wrapping_mul(10).wrapping_add(worth);
    }
    // What it was read of is its decimal only if nothing was lost.
    if Buffer::new().format(number).as_bytes() == text {
        Some(number)
    } else {
        None
    }
}

/// The word that this is in hexadecimal; `AllocError` where there is no memory for it.
#[tactic(auto, unfolding(crate::specs::TraceText::word_in))]
pub fn word_in(alloc: Global, text: &[u8]) -> Result<Option<Vec<u8>>, AllocError>
    ensures { IfOk result (λ r. option_map (λ w. w.items) r ≡ word_in text.now) }
{
    if text.is_empty() {
        return Ok(None);
    }
    if text == b"-".as_slice() {
        return Ok(Some(Vec::new(alloc)));
    }
    match hex::decode(alloc, text) {
        Ok(word) => Ok(Some(word)),
        Err(FromHexError::OutOfMemory) => Err(AllocError),
        Err(_) => Ok(None),
    }
}

/// The id that this is: a number, a dot and a number.
#[tactic(auto, unfolding(crate::specs::TraceText::id_in, crate::specs::TraceText::id_of))]
fn id_in(text: &[u8]) -> Option<RequestId>
    ensures { result ≡ id_in text.now }
{
    let (conn, seq) = cut_at(text, b'.');
    let conn = number_in(conn)?;
    let seq = number_in(seq?)?;
    Some(RequestId {
        conn: ConnId(conn),
        seq,
    })
}

/// The name that this is in a text of this version: a request's id, and of a member another dot and its number.
#[tactic(auto, unfolding(crate::specs::TraceText::skip_in, crate::specs::TraceText::id_of))]
pub fn skip_in(version: u64, text: &[u8]) -> Option<SkipId>
    ensures name { result ≡ skip_in version text.now }
    ensures numbered { IfSome result IsNumbered }
{
    if version < 3 {
        return id_in(text).map(SkipId::Whole);
    }
    let (conn, rest) = cut_at(text, b'.');
    let (seq, number) = cut_at(rest?, b'.');
    let id = RequestId {
        conn: ConnId(number_in(conn)?),
        seq: number_in(seq)?,
    };
    match number {
        None => Some(SkipId::Whole(id)),
        Some(number) => member_of(id, number_in(number)?),
    }
}

/// The member of this number, which counts from 1.
fn member_of(id: RequestId, number: u64) -> Option<SkipId>
    ensures name { result ≡ member_of id (Some number) }
    ensures numbered { IfSome result IsNumbered }
{
    if number == 0 {
        None
    } else {
        Some(SkipId::Part(id, number))
    }
}
