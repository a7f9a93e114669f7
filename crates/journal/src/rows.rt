//! What each executed request came to, kept for good.

ghost use Rattle.std.specs.Prelude.{◌≡◌, ◌+◌, ◌≤◌, ◌<◌, ◌++◌, [], ◌∷◌, length, slice_get, OnOk};
ghost use Rattle.resp.specs.Content.{content};
ghost use Rattle.resp.specs.Text.{text};
ghost use Rattle.journal.specs.Views.{row_view};

use super::codes::GREATEST_HEAD;
use super::long_rows::{LONG_WORDS, LongRow, long_at};
use super::packed_rows::PackedRows;
use super::row::Row;
use groups::{RequestId, Stamp};
use packing::{PackedRequest, grow};
use resp::{Answered, LONG, Reply};
use std::alloc::{AllocError, Global};
use std::marker::Model;

/// The greatest number of bytes that a row takes among the packed ones: words and texts that are longer lie beside them.
const GREATEST_ROW: usize = GREATEST_HEAD + LONG_WORDS + LONG;

/// The rows of what was executed, in the order in which they were added. Contracts see the list of them, and how many
/// more fit without memory.
///
/// Rows lie one behind another in few bytes. Words of more than 128 bytes, and a reply's text that has a block of its
/// own, lie beside them, in the buffers in which they came.
#[derive(Drop)]
pub struct Rows {
    packed: PackedRows,
    long: Vec<LongRow>,
    room: usize,
}

impl Model for Rows {
    ghost use Rattle.std.specs.Prelude.{length};
    ghost use Rattle.journal.specs.Views.{RowsView};
    ghost use Rattle.journal.specs.LongRows.{all_whole, HasRoom, Ascend};

    ghost Value = { RowsView };

    ghost view = { λ r. record { rows = all_whole r.long.items 0 r.packed.rows; room = r.room } };

    ghost invariant = { λ r. record {
      ascend : Ascend r.long.items 0 (length r.packed.rows);
      room : HasRoom r.packed r.long r.room;
    } };
}

impl Rows {
    /// No row. It takes no memory.
    pub fn new(alloc: Global) -> Self
        ensures { result.rows ≡ [] }
    {
        Rows {
            packed: PackedRows::new(alloc),
            long: Vec::new(alloc),
            room: 0,
        }
    }

    /// How many rows there are.
    #[allow(clippy::len_without_is_empty)]
    pub fn len(&self) -> usize
        ensures { result ≡ length self.now.rows }
    {
        self.packed.len()
    }

    /// Takes the room for `count` more rows. The only error is want of memory, which leaves the rows as they were.
    pub fn reserve(&mut self, count: usize) -> Result<(), AllocError>
        ensures rows { self.new.rows ≡ self.old.rows }
        ensures room { OnOk result (count ≤ self.new.room) }
    {
        if count <= self.room {
            return Ok(());
        }
        let Some(size) = count.checked_mul(GREATEST_ROW) else {
            return Err(AllocError);
        };
        self.room = 0;
        grow(&mut self.long, count)?;
        self.packed.reserve(count, size)?;
        self.room = count;
        Ok(())
    }

    /// Adds a row behind the others, for which there is room: the words, and the reply's text. Where this text lies in a
    /// block, the block itself is kept, and so is the buffer of long words. The reply is given back.
    pub fn push(
        &mut self,
        id: RequestId,
        stamp: &Stamp,
        words: PackedRequest,
        answered: Answered,
    ) -> Reply
        requires room { 0 < self.old.room }
        ensures pushed { self.new.rows ≡ self.old.rows ++ row_view id stamp.now words (text (content answered.reply)) ∷ [] }
        ensures room { self.old.room ≤ self.new.room + 1 }
        ensures reply { result ≡ answered.reply }
    {
        let Answered { reply, text } = answered;
        self.room -= 1;
        if text.is_empty() && words.as_bytes().len() <= LONG_WORDS {
            self.packed.push(id, stamp, words.as_bytes(), &reply);
            return reply;
        }
        let place = self.packed.len();
        self.packed
            .push_without_words(id, stamp, &reply, text.as_slice());
        self.long.push_reserved(LongRow { place, words, text });
        reply
    }

    /// The row at this place, counted from 0.
    pub fn row(&self, place: usize) -> Option<Row<'_>>
        ensures { result ≡ slice_get self.now.rows place }
    {
        let row = match self.packed.row(place) {
            Some(row) => row,
            None => return None,
        };
        match long_at(self.long.as_slice(), place) {
            Some(long) => Some(row.with_long(long)),
            None => Some(row),
        }
    }
}
