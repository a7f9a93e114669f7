//! What one executed request came to.

ghost use Rattle.std.specs.Prelude.{◌≡◌, ◌<◌, length, slice_get, Some, IfOk};
ghost use Rattle.journal.specs.Codes.{row_of, RowIsIn};
ghost use Rattle.journal.specs.LongRows.{text_or, whole};

use super::codes::take_id;
use super::long_rows::LongRow;
use groups::{GroupId, RequestId, Stamp};
use packing::{take_number, take_word, take_words};
use resp::Request;
use std::alloc::{AllocError, Global};
use std::marker::Model;

/// What an executed request came to, lent by the rows: its id, its final stamp, its words, and the bytes that its
/// client got.
#[derive(Drop)]
pub struct Row<'a> {
    id: RequestId,
    stamp: Stamp,
    words: &'a [u8],
    reply: &'a [u8],
}

impl<'a> Model for Row<'a> {
    ghost use Rattle.journal.specs.Views.{RowView};

    ghost Value = { RowView };

    ghost use Rattle.packing.specs.Codes.{words_at};
    ghost use Rattle.journal.specs.Codes.{RowWords};

    ghost view = { λ r. record { id = r.id; stamp = r.stamp; words = (words_at r.words.now).0; reply = r.reply.now } };

    ghost invariant = { λ r. RowWords (words_at r.words.now).0 r.words.now };
}

/// The row that lies in these bytes.
pub(super) fn row_of(bytes: &[u8]) -> Row<'_>
    requires { RowIsIn (row_of bytes.now) bytes.now }
    ensures { result ≡ row_of bytes.now }
{
    let (id, rest) = take_id(bytes);
    let (clock, rest) = take_number(rest);
    let (group, rest) = take_number(rest);
    let (size, rest) = take_number(rest);
    let (words, reply) = rest.split_at(size as usize);
    let stamp = Stamp {
        clock,
        group: GroupId::new(group as u8),
    };
    Row {
        id,
        stamp,
        words,
        reply,
    }
}

/// The text, or the packed reply where there is none.
fn text_or<'a>(text: &'a [u8], reply: &'a [u8]) -> &'a [u8]
    ensures { result.now ≡ text_or text.now reply.now }
{
    if text.is_empty() { reply } else { text }
}

impl<'a> Row<'a> {
    /// The packed row with its long parts.
    pub(super) fn with_long(self, long: &'a LongRow) -> Row<'a>
        ensures { result ≡ whole self.entry (Some long.now) }
    {
        let Row {
            id,
            stamp,
            words: _,
            reply,
        } = self;
        let reply = text_or(long.text.as_slice(), reply);
        let words = long.words.as_bytes();
        Row {
            id,
            stamp,
            words,
            reply,
        }
    }

    /// The request's id.
    pub fn id(&self) -> RequestId
        ensures { result ≡ self.now.id }
    {
        self.id
    }

    /// Its final stamp.
    pub fn stamp(&self) -> &Stamp
        ensures { result.now ≡ self.now.stamp }
    {
        &self.stamp
    }

    /// How many words it has: at least one.
    pub fn word_count(&self) -> usize
        ensures count { result ≡ length self.now.words }
        ensures some { 0 < result }
    {
        take_number(self.words).0 as usize
    }

    /// The word at this place, counted from 0. It is found in as many steps.
    pub fn word(&self, place: usize) -> &'a [u8]
        requires { place < length self.now.words }
        ensures { slice_get self.now.words place ≡ Some result.now }
    {
        let mut rest = take_number(self.words).1;
        for _ in 0..place {
            rest = take_word(rest).1;
        }
        take_word(rest).0
    }

    /// A copy of the request; `AllocError` where there is no memory for it.
    pub fn request(&self, alloc: Global) -> Result<Request, AllocError>
        ensures { IfOk result (λ request. request ≡ self.now.words) }
    {
        let (words, _) = take_words(alloc, self.words)?;
        Ok(Request::from_words(words))
    }

    /// The text of its reply, as its client got it.
    pub fn reply(&self) -> &'a [u8]
        ensures { result.now ≡ self.now.reply }
    {
        self.reply
    }
}
