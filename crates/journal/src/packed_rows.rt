//! Rows in few bytes, one behind another.

ghost use Rattle.std.specs.Prelude.{◌≡◌, ◌+◌, ◌≤◌, ◌<◌, ◌++◌, [], ◌∷◌, length, slice_get, OnOk, vec_len, vec_capacity};
ghost use Rattle.resp.specs.Content.{content};
ghost use Rattle.resp.specs.Text.{text};
ghost use Rattle.packing.specs.Codes.{words_at};
ghost use Rattle.journal.specs.Views.{row_view};
ghost use Rattle.journal.specs.LongRows.{packed_reply};
ghost use Rattle.journal.specs.Codes.{end_before, head_code, HeadFits, RowWords};

use super::codes::{GREATEST_HEAD, put_head};
use super::row::{Row, row_of};
use groups::{RequestId, Stamp};
use packing::{grow, put_bytes};
use resp::{Reply, write_reply};
use std::alloc::{AllocError, Global};
use std::marker::Model;

/// One empty word, as words are packed. It stands where a row's words lie beside the packed rows.
const NO_WORDS: [u8; 2] = [1, 0];

/// Rows in few bytes, one behind another. Contracts see the list of them, and for how many bytes and for how many rows
/// there is room.
#[derive(Drop)]
pub(super) struct PackedRows {
    bytes: Vec<u8>,
    ends: Vec<usize>,
}

impl Model for PackedRows {
    ghost use Rattle.std.specs.Prelude.{◌-◌, vec_len, vec_capacity};
    ghost use Rattle.journal.specs.Views.{PackedView};
    ghost use Rattle.journal.specs.Codes.{rows_in, AreRows};

    ghost Value = { PackedView };

    ghost view = { λ r. record {
      rows = rows_in r.bytes.items r.ends.items;
      bytes = vec_capacity r.bytes - vec_len r.bytes;
      ends = vec_capacity r.ends - vec_len r.ends;
    } };

    ghost invariant = { λ r. AreRows (rows_in r.bytes.items r.ends.items) r.bytes.items r.ends.items };
}

impl PackedRows {
    /// No row. It takes no memory.
    pub(super) fn new(alloc: Global) -> Self
        ensures { result.rows ≡ [] }
    {
        PackedRows {
            bytes: Vec::new(alloc),
            ends: Vec::new(alloc),
        }
    }

    /// How many rows there are.
    pub(super) fn len(&self) -> usize
        ensures { result ≡ length self.now.rows }
    {
        self.ends.len()
    }

    /// Takes the room for so many rows, of so many bytes together. The only error is want of memory; the rows stay.
    pub(super) fn reserve(&mut self, count: usize, size: usize) -> Result<(), AllocError>
        ensures rows { self.new.rows ≡ self.old.rows }
        ensures bytes { OnOk result (size ≤ self.new.bytes) }
        ensures ends { OnOk result (count ≤ self.new.ends) }
    {
        grow(&mut self.ends, count)?;
        grow(&mut self.bytes, size)
    }

    /// Adds a row behind the others, for which there is room: the bytes of its words and the text of its reply.
    pub(super) fn push(&mut self, id: RequestId, stamp: &Stamp, words: &[u8], reply: &Reply)
        requires words { RowWords (words_at words.now).0 words.now }
        requires size { GREATEST_HEAD + length words.now + length (text (content reply.now)) ≤ self.old.bytes }
        requires place { 0 < self.old.ends }
        ensures pushed { self.new.rows ≡ self.old.rows
            ++ row_view id stamp.now (words_at words.now).0 (text (content reply.now)) ∷ [] }
        ensures bytes { self.old.bytes ≤ self.new.bytes + (GREATEST_HEAD + length words.now + length (text (content reply.now))) }
        ensures ends { self.old.ends ≤ self.new.ends + 1 }
    {
        put_request(id, stamp, words, &mut self.bytes);
        let Ok(()) = write_reply(reply, &mut self.bytes) else {
            unreachable!();
        };
        self.ends.push_reserved(self.bytes.len());
    }

    /// Adds a row behind the others, for which there is room, of which the words lie elsewhere, and the reply's text too
    /// where that has a block.
    pub(super) fn push_without_words(
        &mut self,
        id: RequestId,
        stamp: &Stamp,
        reply: &Reply,
        block: &[u8],
    )
        requires size { GREATEST_HEAD + length NO_WORDS + length (packed_reply block.now (text (content reply.now))) ≤ self.old.bytes }
        requires place { 0 < self.old.ends }
        ensures pushed { self.new.rows ≡ self.old.rows
            ++ row_view id stamp.now (words_at NO_WORDS).0 (packed_reply block.now (text (content reply.now))) ∷ [] }
        ensures bytes { self.old.bytes ≤ self.new.bytes
            + (GREATEST_HEAD + length NO_WORDS + length (packed_reply block.now (text (content reply.now)))) }
        ensures ends { self.old.ends ≤ self.new.ends + 1 }
    {
        if block.is_empty() {
            self.push(id, stamp, NO_WORDS.as_slice(), reply);
        } else {
            self.push_without_reply(id, stamp, NO_WORDS.as_slice());
        }
    }

    /// Adds a row with an empty reply behind the others, for which there is room.
    fn push_without_reply(&mut self, id: RequestId, stamp: &Stamp, words: &[u8])
        requires words { RowWords (words_at words.now).0 words.now }
        requires size { GREATEST_HEAD + length words.now ≤ self.old.bytes }
        requires place { 0 < self.old.ends }
        ensures pushed { self.new.rows ≡ self.old.rows ++ row_view id stamp.now (words_at words.now).0 [] ∷ [] }
        ensures bytes { self.old.bytes ≤ self.new.bytes + (GREATEST_HEAD + length words.now) }
        ensures ends { self.old.ends ≤ self.new.ends + 1 }
    {
        put_request(id, stamp, words, &mut self.bytes);
        self.ends.push_reserved(self.bytes.len());
    }

    /// The row at this place, counted from 0.
    pub(super) fn row(&self, place: usize) -> Option<Row<'_>>
        ensures { result ≡ slice_get self.now.rows place }
    {
        if place >= self.ends.len() {
            return None;
        }
        let start = end_of(self.ends.as_slice(), place);
        let end = end_of(self.ends.as_slice(), place + 1);
        let (_, rest) = self.bytes.as_slice().split_at(start);
        let size = end - start;
        let (bytes, _) = rest.split_at(size);
        Some(row_of(bytes))
    }
}

/// Appends what a row has before its reply, for which there is room.
fn put_request(id: RequestId, stamp: &Stamp, words: &[u8], out: &mut Vec<u8>)
    requires { vec_len out.old + (GREATEST_HEAD + length words.now) ≤ vec_capacity out.old }
    ensures items { out.new.items ≡ out.old.items ++ (head_code id stamp.now (length words.now) ++ words.now) }
    ensures fits { HeadFits id stamp.now }
    ensures len { vec_len out.new ≤ vec_len out.old + (GREATEST_HEAD + length words.now) }
    ensures capacity { vec_capacity out.old ≤ vec_capacity out.new }
{
    put_head(id, stamp, words.len(), out);
    put_bytes(words, out);
}

/// Where the first `count` rows end.
fn end_of(ends: &[usize], count: usize) -> usize
    requires { count ≤ length ends.now }
    ensures { result ≡ end_before ends.now count }
{
    if count == 0 { 0 } else { ends[count - 1] }
}
