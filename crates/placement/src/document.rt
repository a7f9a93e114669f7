//! What a placement document says, read off the data of its TOML text: the number of shards, and ranges of slots with
//! the shard that each goes to. The format is this project's own. A table is made of it.

ghost use Rattle.std.specs.Prelude.{◌≡◌, option_map, IfOk, IfSome, All};
ghost use Rattle.toml.specs.Data.{get_member};
ghost use Rattle.toml.specs.View.{view, items_view, array_view, table_view};
ghost use Rattle.placement.specs.Document.{IsRange, size, integer_at, number_at, array_at, range_in, range_of};
ghost use Rattle.placement.specs.Document.{ranges_of, document_of};

use crate::slots::SLOTS;
use std::alloc::{AllocError, Global};
use std::marker::Model;
use toml::Value;
use toml::value::Array;

/// The slots from `from` to `to`, both of them too, and the shard that the document gives them.
#[derive(Clone, Copy)]
pub struct Range {
    pub from: usize,
    pub to: usize,
    pub shard: i64,
}

/// What a placement document says, whether or not its shards are there and its ranges fit together.
#[derive(Drop)]
pub struct Document {
    shards: i64,
    ranges: Vec<Range>,
}

impl Model for Document {
    ghost use Rattle.std.specs.Prelude.{All};
    ghost use Rattle.placement.specs.Document.{Document, IsRange};

    ghost Value = { Document };

    ghost view = { λ d. record { shards = d.shards; ranges = d.ranges.items } };

    ghost invariant = { λ d. All IsRange d.ranges.items };
}

impl Document {
    /// The number of shards that it says, which may be any integer.
    pub fn shards(&self) -> i64
        ensures { result ≡ self.now.shards }
    {
        self.shards
    }

    /// Its ranges, in their order.
    pub fn ranges(&self) -> &[Range]
        ensures value { result.now ≡ self.now.ranges }
        ensures in_range { All IsRange result.now }
    {
        self.ranges.as_slice()
    }
}

/// What the data of a TOML document says, where it has the shape of a placement document.
pub fn document_of(alloc: Global, table: &toml::Table) -> Result<Option<Document>, AllocError>
    ensures { IfOk result (λ document. document ≡ document_of (table_view table.now)) }
{
    if size_of_table(table) != 2 {
        return Ok(None);
    }
    let Some(shards) = integer_at(table, "shards") else {
        return Ok(None);
    };
    let Some(items) = array_at(table, "range") else {
        return Ok(None);
    };
    match ranges_of(alloc, items.as_slice())? {
        Some(ranges) => Ok(Some(Document { shards, ranges })),
        None => Ok(None),
    }
}

// The ranges that these values say, where each says one.
fn ranges_of(alloc: Global, values: &[Value]) -> Result<Option<Vec<Range>>, AllocError>
    ensures value { IfOk result (λ o. option_map (λ rs. rs.items) o ≡ ranges_of (items_view values.now)) }
    ensures in_range { IfOk result (λ o. IfSome o (λ rs. All IsRange rs.items)) }
{
    let mut ranges = Vec::with_capacity(alloc, values.len())?;
    for value in values {
        match range_of(value) {
            Some(range) => ranges.push(range)?,
            None => return Ok(None),
        }
    }
    Ok(Some(ranges))
}

// The range that a value says.
fn range_of(value: &Value) -> Option<Range>
    ensures value { result ≡ range_of (view value.now) }
    ensures in_range { IfSome result IsRange }
{
    range_in(value.as_table()?)
}

// The range that a table says.
fn range_in(table: &toml::Table) -> Option<Range>
    ensures value { result ≡ range_in (table_view table.now) }
    ensures in_range { IfSome result IsRange }
{
    if size_of_table(table) != 3 {
        return None;
    }
    let from = number_at(table, "from")?;
    let to = number_at(table, "to")?;
    let shard = integer_at(table, "shard")?;
    if from <= to && to < SLOTS as u64 {
        Some(Range {
            from: from as usize,
            to: to as usize,
            shard,
        })
    } else {
        None
    }
}

// The integer that a table has under a key, if it isn't negative.
fn number_at(table: &toml::Table, key: &str) -> Option<u64>
    ensures { result ≡ number_at key.now (table_view table.now) }
{
    u64::try_from(integer_at(table, key)?).ok()
}

// The integer that a table has under a key.
fn integer_at(table: &toml::Table, key: &str) -> Option<i64>
    ensures { result ≡ integer_at key.now (table_view table.now) }
{
    value_at(table, key)?.as_integer()
}

// The value that a table has under a key.
fn value_at<'a>(table: &'a toml::Table, key: &str) -> Option<&'a Value>
    ensures { option_map (λ value. view value.now) result
        ≡ get_member key.now (table_view table.now) }
{
    table.get(key)
}

// The array that a table has under a key.
fn array_at<'a>(table: &'a toml::Table, key: &str) -> Option<&'a Array>
    ensures { option_map (λ items. array_view items.now) result
        ≡ array_at key.now (table_view table.now) }
{
    value_at(table, key)?.as_array()
}

// How many keys a table has.
fn size_of_table(table: &toml::Table) -> usize
    ensures { result ≡ size (table_view table.now) }
{
    table.len()
}
