//! Bulk strings and nulls, kept as the text that a reply of them has.
//!
//! A reply of many bulk strings is made in one buffer, in place of one for each of them.

ghost use Rattle.std.specs.Prelude.{◌≡◌, ◌<◌, ◌^◌, ◌∷◌, ◌++◌, [], ℕ, List, Option, Some, None, IfOk, OnOk, OnErr};
ghost use Rattle.std.specs.Prelude.{◌≤◌, drop, length, map, take};
ghost use Rattle.std.specs.List.{flat_map};
ghost use Rattle.std.specs.Option.{option_copied};
ghost use Rattle.resp.specs.Bulks.{bulk_text, bulk_at, length_on};

use crate::size::bulk_size;
use crate::write::put_bulk;
use std::alloc::{AllocError, Global};
use std::marker::Model;

/// The length of the text of a null.
const NULL_SIZE: usize = 5;

/// Bulk strings and nulls, one after another. Contracts see their list.
#[derive(Drop)]
pub struct BulkTexts {
    count: usize,
    text: Vec<u8>,
}

impl Model for BulkTexts {
    ghost use Rattle.std.specs.Prelude.{◌≡◌, ℕ, List, Option};
    ghost use Rattle.std.specs.List.{flat_map};
    ghost use Rattle.resp.specs.Bulks.{bulk_text, bulks_at};

    ghost Value = { List (Option (List ℕ)) };

    ghost view = { λ b. bulks_at b.count b.text.items };

    ghost invariant = { λ b. b.text.items ≡ flat_map bulk_text (bulks_at b.count b.text.items) };
}

impl BulkTexts {
    /// None as yet, with room for texts of this size in all. The only error is want of memory for it; a size of 0 takes
    /// none.
    pub fn with_room(alloc: Global, size: usize) -> Result<Self, AllocError>
        ensures none { IfOk result (λ texts. texts ≡ []) }
        ensures starves { OnErr result (0 < size) }
    {
        let text = Vec::with_capacity(alloc, size)?;
        Ok(BulkTexts { count: 0, text })
    }

    /// Copies of these in one buffer of just their size; null for none. The only error is want of memory.
    pub fn copy_of(alloc: Global, items: &[Option<&[u8]>]) -> Result<Self, AllocError>
        ensures { IfOk result (λ texts. texts ≡ map option_copied items.now) }
    {
        let mut texts = BulkTexts::with_room(alloc, texts_size(items))?;
        for item in items {
            match item {
                Some(bytes) => texts.push(bytes)?,
                None => texts.push_null()?,
            }
        }
        Ok(texts)
    }

    /// Adds a copy of these bytes as a bulk string. The only error is want of memory, where there is no room for it.
    #[inline(always)]
    pub fn push(&mut self, bytes: &[u8]) -> Result<(), AllocError>
        ensures ok { OnOk result (self.new ≡ self.old ++ Some bytes.now ∷ []) }
        ensures err { OnErr result (self.new ≡ self.old) }
    {
        put_bulk(bytes, &mut self.text)?;
        self.count += 1;
        Ok(())
    }

    /// These, and copies of the items as bulk strings behind them. The only error is want of memory, where there is no room for them; all
    /// are then gone.
    pub fn with_all(self, items: &[Vec<u8>]) -> Result<Self, AllocError>
        ensures { IfOk result (λ texts. texts ≡ self ++ map (λ item. Some item.items) items.now) }
    {
        let BulkTexts {
            mut count,
            mut text,
        } = self;
        for item in items {
            put_bulk(item.as_slice(), &mut text)?;
            count += 1;
        }
        Ok(BulkTexts { count, text })
    }

    /// Adds a null. The only error is want of memory, where there is no room for it.
    fn push_null(&mut self) -> Result<(), AllocError>
        ensures ok { OnOk result (self.new ≡ self.old ++ None ∷ []) }
        ensures err { OnErr result (self.new ≡ self.old) }
    {
        self.text.extend_from_slice(b"$-1\r\n")?;
        self.count += 1;
        Ok(())
    }

    /// A copy of them; `AllocError` where there is no memory for it.
    pub fn try_clone(&self, alloc: Global) -> Result<Self, AllocError>
        ensures { IfOk result (λ copy. copy ≡ self.now) }
    {
        let text = Vec::from_slice(alloc, self.text.as_slice())?;
        Ok(BulkTexts {
            count: self.count,
            text,
        })
    }

    /// How many there are.
    #[allow(clippy::len_without_is_empty)]
    pub fn len(&self) -> usize
        ensures { result ≡ length self.now }
    {
        self.count
    }

    /// The first of them, at most so many, in a list of their own; none for a null. The only error is want of memory.
    pub fn first(&self, alloc: Global, most: usize) -> Result<Vec<Option<&[u8]>>, AllocError>
        ensures { IfOk result (λ items. map option_copied items.items ≡ take most self.now) }
    {
        let count = most.min(self.count);
        let mut items = Vec::with_capacity(alloc, count)?;
        let mut texts = self.text.as_slice();
        for _ in 0..count {
            let (item, behind) = bulk_of(texts);
            items.push(item)?;
            texts = behind;
        }
        Ok(items)
    }

    /// Their texts, one behind another.
    pub fn as_bytes(&self) -> &[u8]
        ensures { result.now ≡ flat_map bulk_text self.now }
    {
        self.text.as_slice()
    }
}

/// The number of bytes of the texts of these, null for none, or the greatest number.
fn texts_size(items: &[Option<&[u8]>]) -> usize {
    let mut size: usize = 0;
    for item in items {
        let more = match item {
            Some(bytes) => bulk_size(bytes),
            None => NULL_SIZE,
        };
        size = size.saturating_add(more);
    }
    size
}

/// The first of these texts, none for a null, and the texts behind it.
#[tactic(auto, unfolding(crate::specs::Bulks::bulk_at))]
fn bulk_of(texts: &[u8]) -> (Option<&[u8]>, &[u8])
    requires { (item : Option (List ℕ)) × (behind : List ℕ) × (texts.now ≡ bulk_text item ++ behind) }
    ensures { (option_copied result.0, result.1.now) ≡ bulk_at texts.now }
{
    if texts[1] == b'-' {
        return (None, &texts[NULL_SIZE..]);
    }
    let (size, rest) = length_of(&texts[1..]);
    let (bytes, rest) = rest.split_at(size);
    (Some(bytes), behind_line_end(rest))
}

/// The bytes behind a line's end.
fn behind_line_end(bytes: &[u8]) -> &[u8]
    requires { 2 ≤ length bytes.now }
    ensures { result.now ≡ drop 2 bytes.now }
{
    let (_, behind) = bytes.split_at(2);
    behind
}

/// The length that a bulk string's line says, and the bytes behind that line.
#[tactic(auto, unfolding(crate::specs::Bulks::length_on))]
fn length_of(line: &[u8]) -> (usize, &[u8])
    requires { (n : ℕ) × (behind : List ℕ) × (n < 2 ^ 64) × (length_on 0 line.now ≡ (Some n, behind)) }
    ensures { (Some result.0, result.1.now) ≡ length_on 0 line.now }
{
    let mut size: usize = 0;
    for (place, byte) in line.iter().enumerate() {
        if *byte == b'\r' {
            let (_, behind) = line.split_at((place + 2).min(line.len()));
            return (size, behind);
        }
        size = size * 10 + usize::from(byte.saturating_sub(b'0'));
    }
    unreachable!();
}
