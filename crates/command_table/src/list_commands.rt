//! Commands on lists.

ghost use Rattle.std.specs.Prelude.{◌≡◌, ◌+◌, ◌<◌, ◌≤◌, length, Err, unwrap_or, IsTrue};
ghost use Rattle.command_table.specs.declared.refusal.Refusal.TheVariants.{Unknown};
ghost use Rattle.command_table.specs.Held.{told_held};
ghost use Rattle.command_table.specs.ListCommands.{list_command_told, list_rows, side_of, end_of};
ghost use Rattle.command_table.specs.ListCommands.{llen_row, lpop_row, rpop_row, lpush_row, rpush_row, lpushx_row, rpushx_row};
ghost use Rattle.command_table.specs.ListCommands.{lindex_row, lset_row, lrange_row, ltrim_row, lrem_row};
ghost use Rattle.command_table.specs.ListCommands.{linsert_row, lmove_row, rpoplpush_row};
ghost use Rattle.command_table.specs.CommandRow.{reading_among};
ghost use Rattle.command_table.specs.RowHeads.{admits_at, reading_at};
ghost use Rattle.command_table.specs.Words.{texts_of};

use crate::arity::Arity;
use crate::command::Command;
use crate::command_rows;
use crate::refusal::Refusal;
use crate::row_heads::{RowHead, place_of};
use crate::rows::{head_rows, keys_of_span, read_rows, told_rows};
use crate::told::{Keys, Told};
use crate::words::{first_and_rest, integer_word, is_word, only_word, two_words};
use texts::{End, Text, Texts};

/// A command on lists.
#[derive(Drop)]
pub enum ListCommand {
    /// `LLEN key`: the length of the list.
    Llen {
        key: Text,
    },

    /// `LPOP key`: takes the item at the head.
    Lpop {
        key: Text,
    },

    /// `RPOP key`: takes the item at the tail.
    Rpop {
        key: Text,
    },

    /// `LPUSH key item [item ..]`: pushes the items at the head in turn.
    Lpush {
        key: Text,
        items: Texts,
    },

    /// `RPUSH key item [item ..]`: pushes the items at the tail in turn.
    Rpush {
        key: Text,
        items: Texts,
    },

    /// `LPUSHX key item [item ..]`: as LPUSH where the key is there.
    Lpushx {
        key: Text,
        items: Texts,
    },

    /// `RPUSHX key item [item ..]`: as RPUSH where the key is there.
    Rpushx {
        key: Text,
        items: Texts,
    },

    /// `LINDEX key place`: the item at the place.
    Lindex {
        key: Text,
        place: i64,
    },

    /// `LSET key place item`: puts the item in the place of the one that is there.
    Lset {
        key: Text,
        place: i64,
        item: Text,
    },

    /// `LRANGE key start end`: the items from the start to the end.
    Lrange {
        key: Text,
        start: i64,
        end: i64,
    },

    /// `LTRIM key start end`: keeps the items from the start to the end.
    Ltrim {
        key: Text,
        start: i64,
        end: i64,
    },

    /// `LREM key count item`: removes items that are equal to this one.
    Lrem {
        key: Text,
        count: i64,
        item: Text,
    },

    /// `LINSERT key BEFORE|AFTER pivot item`: inserts the item beside the first one that is equal to the pivot.
    Linsert {
        key: Text,
        side: Side,
        pivot: Text,
        item: Text,
    },

    /// `LMOVE source destination LEFT|RIGHT LEFT|RIGHT`: moves an item from one end, `taken`, to another, `put`.
    Lmove {
        from: Text,
        to: Text,
        taken: End,
        put: End,
    },

    /// `RPOPLPUSH source destination`: moves the item at the tail of one list to the head of another.
    Rpoplpush {
        from: Text,
        to: Text,
    },
}

/// A side of an item of a list.
#[derive(Clone, Copy, Debug, PartialEq, Eq)]
pub enum Side {
    /// Towards the head.
    Before,

    /// Towards the tail.
    After,
}

impl ListCommand {
    /// What is told of the command.
    pub(crate) fn told(&self) -> Told<'_>
        ensures { told_held result ≡ list_command_told self.now }
    {
        command_rows!(lists, told_rows, ListCommand, self)
    }
}

/// The heads of the rows.
const HEADS: &[RowHead] = command_rows!(lists, head_rows,);

/// Reads the words after a name by the row that has it; a name that none of these rows has is unknown.
pub(crate) fn read_list_command(name: &[u8], words: Vec<Vec<u8>>) -> Result<Command, Refusal>
    ensures { result ≡ unwrap_or (reading_among list_rows name.now (texts_of words.items)) (Err Unknown) }
{
    let place = match place_of(HEADS, name, words.len() + 1) {
        Ok(place) => place,
        Err(refused) => return Err(refused),
    };
    read_list_row(place, words)
}

/// Reads the words after a name by the row at this place, which takes as many.
fn read_list_row(place: usize, words: Vec<Vec<u8>>) -> Result<Command, Refusal>
    requires there { place < length list_rows }
    requires taken { IsTrue (admits_at list_rows place (length words.items + 1)) }
    ensures { result ≡ reading_at list_rows place (texts_of words.items) }
{
    command_rows!(lists, read_rows, place, words)
}

/// `LLEN key`.
fn read_llen(words: Vec<Vec<u8>>) -> Result<Command, Refusal>
    requires { length words.items ≡ 1 }
    ensures { result ≡ llen_row.reading (texts_of words.items) }
{
    let key = only_word(words);
    Ok(Command::List(ListCommand::Llen { key }))
}

/// `LPOP key`.
fn read_lpop(words: Vec<Vec<u8>>) -> Result<Command, Refusal>
    requires { length words.items ≡ 1 }
    ensures { result ≡ lpop_row.reading (texts_of words.items) }
{
    let key = only_word(words);
    Ok(Command::List(ListCommand::Lpop { key }))
}

/// `RPOP key`.
fn read_rpop(words: Vec<Vec<u8>>) -> Result<Command, Refusal>
    requires { length words.items ≡ 1 }
    ensures { result ≡ rpop_row.reading (texts_of words.items) }
{
    let key = only_word(words);
    Ok(Command::List(ListCommand::Rpop { key }))
}

/// `LPUSH key item [item ..]`.
fn read_lpush(words: Vec<Vec<u8>>) -> Result<Command, Refusal>
    requires { 2 ≤ length words.items }
    ensures { result ≡ lpush_row.reading (texts_of words.items) }
{
    let (key, items) = first_and_rest(words);
    Ok(Command::List(ListCommand::Lpush { key, items }))
}

/// `RPUSH key item [item ..]`.
fn read_rpush(words: Vec<Vec<u8>>) -> Result<Command, Refusal>
    requires { 2 ≤ length words.items }
    ensures { result ≡ rpush_row.reading (texts_of words.items) }
{
    let (key, items) = first_and_rest(words);
    Ok(Command::List(ListCommand::Rpush { key, items }))
}

/// `LPUSHX key item [item ..]`.
fn read_lpushx(words: Vec<Vec<u8>>) -> Result<Command, Refusal>
    requires { 2 ≤ length words.items }
    ensures { result ≡ lpushx_row.reading (texts_of words.items) }
{
    let (key, items) = first_and_rest(words);
    Ok(Command::List(ListCommand::Lpushx { key, items }))
}

/// `RPUSHX key item [item ..]`.
fn read_rpushx(words: Vec<Vec<u8>>) -> Result<Command, Refusal>
    requires { 2 ≤ length words.items }
    ensures { result ≡ rpushx_row.reading (texts_of words.items) }
{
    let (key, items) = first_and_rest(words);
    Ok(Command::List(ListCommand::Rpushx { key, items }))
}

/// `LINDEX key place`.
fn read_lindex(words: Vec<Vec<u8>>) -> Result<Command, Refusal>
    requires { length words.items ≡ 2 }
    ensures { result ≡ lindex_row.reading (texts_of words.items) }
{
    let place = integer_word(words[1].as_slice())?;
    let (key, _) = two_words(words);
    Ok(Command::List(ListCommand::Lindex { key, place }))
}

/// `LSET key place item`.
fn read_lset(mut words: Vec<Vec<u8>>) -> Result<Command, Refusal>
    requires { length words.items ≡ 3 }
    ensures { result ≡ lset_row.reading (texts_of words.items) }
{
    let place = integer_word(words[1].as_slice())?;
    let item = Text::from(words.pop().unwrap());
    let (key, _) = two_words(words);
    Ok(Command::List(ListCommand::Lset { key, place, item }))
}

/// `LRANGE key start end`.
fn read_lrange(mut words: Vec<Vec<u8>>) -> Result<Command, Refusal>
    requires { length words.items ≡ 3 }
    ensures { result ≡ lrange_row.reading (texts_of words.items) }
{
    let start = integer_word(words[1].as_slice())?;
    let end = integer_word(words[2].as_slice())?;
    words.truncate(1);
    let key = only_word(words);
    Ok(Command::List(ListCommand::Lrange { key, start, end }))
}

/// `LTRIM key start end`.
fn read_ltrim(mut words: Vec<Vec<u8>>) -> Result<Command, Refusal>
    requires { length words.items ≡ 3 }
    ensures { result ≡ ltrim_row.reading (texts_of words.items) }
{
    let start = integer_word(words[1].as_slice())?;
    let end = integer_word(words[2].as_slice())?;
    words.truncate(1);
    let key = only_word(words);
    Ok(Command::List(ListCommand::Ltrim { key, start, end }))
}

/// `LREM key count item`.
fn read_lrem(mut words: Vec<Vec<u8>>) -> Result<Command, Refusal>
    requires { length words.items ≡ 3 }
    ensures { result ≡ lrem_row.reading (texts_of words.items) }
{
    let count = integer_word(words[1].as_slice())?;
    let item = Text::from(words.pop().unwrap());
    let (key, _) = two_words(words);
    Ok(Command::List(ListCommand::Lrem { key, count, item }))
}

/// `LINSERT key BEFORE|AFTER pivot item`.
fn read_linsert(mut words: Vec<Vec<u8>>) -> Result<Command, Refusal>
    requires { length words.items ≡ 4 }
    ensures { result ≡ linsert_row.reading (texts_of words.items) }
{
    let side = read_side(words[1].as_slice())?;
    let item = Text::from(words.pop().unwrap());
    let pivot = Text::from(words.pop().unwrap());
    let (key, _) = two_words(words);
    Ok(Command::List(ListCommand::Linsert {
        key,
        side,
        pivot,
        item,
    }))
}

/// `LMOVE source destination LEFT|RIGHT LEFT|RIGHT`.
fn read_lmove(mut words: Vec<Vec<u8>>) -> Result<Command, Refusal>
    requires { length words.items ≡ 4 }
    ensures { result ≡ lmove_row.reading (texts_of words.items) }
{
    let taken = read_end(words[2].as_slice())?;
    let put = read_end(words[3].as_slice())?;
    words.truncate(2);
    let (from, to) = two_words(words);
    Ok(Command::List(ListCommand::Lmove {
        from,
        to,
        taken,
        put,
    }))
}

/// `RPOPLPUSH source destination`.
fn read_rpoplpush(words: Vec<Vec<u8>>) -> Result<Command, Refusal>
    requires { length words.items ≡ 2 }
    ensures { result ≡ rpoplpush_row.reading (texts_of words.items) }
{
    let (from, to) = two_words(words);
    Ok(Command::List(ListCommand::Rpoplpush { from, to }))
}

/// The side that the word names.
fn read_side(word: &[u8]) -> Result<Side, Refusal>
    ensures { result ≡ side_of word.now }
{
    if is_word(word, b"before") {
        Ok(Side::Before)
    } else if is_word(word, b"after") {
        Ok(Side::After)
    } else {
        Err(Refusal::Syntax)
    }
}

/// The end that the word names.
fn read_end(word: &[u8]) -> Result<End, Refusal>
    ensures { result ≡ end_of word.now }
{
    if is_word(word, b"left") {
        Ok(End::Head)
    } else if is_word(word, b"right") {
        Ok(End::Tail)
    } else {
        Err(Refusal::Syntax)
    }
}
