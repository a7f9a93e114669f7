//! Commands on strings.

ghost use Rattle.std.specs.Prelude.{◌≡◌, ◌+◌, ◌<◌, ◌≤◌, length, Err, unwrap_or, IsTrue};
ghost use Rattle.command_table.specs.declared.refusal.Refusal.TheVariants.{Unknown};
ghost use Rattle.command_table.specs.Held.{told_held};
ghost use Rattle.command_table.specs.StringCommands.{string_command_told, string_rows, get_row, set_row, setnx_row, getset_row, getdel_row};
ghost use Rattle.command_table.specs.StringCommands.{mget_row, strlen_row, getrange_row};
ghost use Rattle.command_table.specs.StringCommands.{incr_row, decr_row, incrby_row, decrby_row, append_row, setrange_row, mset_row};
ghost use Rattle.command_table.specs.StringCommands.{msetnx_row};
ghost use Rattle.command_table.specs.StringCommands.{options_condition, is_option};
ghost use Rattle.command_table.specs.CommandRow.{reading_among};
ghost use Rattle.command_table.specs.RowHeads.{admits_at, reading_at};
ghost use Rattle.command_table.specs.Words.{texts_of};
ghost use Rattle.std.specs.List.{list_all};

use crate::arity::Arity;
use crate::command::Command;
use crate::command_rows;
use crate::refusal::{CommandName, Refusal};
use crate::row_heads::{RowHead, place_of};
use crate::rows::{head_rows, keys_of_span, read_rows, told_rows};
use crate::told::{Keys, Told};
use crate::words::{has_word, integer_word, is_word, only_word, three_words, two_words};
use texts::{Pairs, Text, Texts};

/// A command on strings.
#[derive(Drop)]
pub enum StringCommand {
    /// `GET key`: the string at the key.
    Get {
        key: Text,
    },

    /// `SET key value [NX | XX]`: puts the value at the key.
    Set {
        key: Text,
        value: Text,
        condition: Condition,
    },

    /// `SETNX key value`: puts the value at the key where it isn't there.
    Setnx {
        key: Text,
        value: Text,
    },

    /// `GETSET key value`: puts the value at the key, and gives the string that was there.
    Getset {
        key: Text,
        value: Text,
    },

    /// `GETDEL key`: removes the key, and gives the string that was there.
    Getdel {
        key: Text,
    },

    /// `MGET key [key ..]`: the strings at the keys.
    Mget {
        keys: Texts,
    },

    /// `STRLEN key`: the length of the string at the key.
    Strlen {
        key: Text,
    },

    /// `GETRANGE key start end`: the bytes of the string from start to end.
    Getrange {
        key: Text,
        start: i64,
        end: i64,
    },

    /// `INCR key`: adds 1 to the number that the string says.
    Incr {
        key: Text,
    },

    /// `DECR key`: takes 1 from it.
    Decr {
        key: Text,
    },

    /// `INCRBY key by`: adds a number to it.
    Incrby {
        key: Text,
        by: i64,
    },

    /// `DECRBY key by`: takes a number from it.
    Decrby {
        key: Text,
        by: i64,
    },

    /// `APPEND key tail`: puts the tail behind the string.
    Append {
        key: Text,
        tail: Text,
    },

    /// `SETRANGE key offset value`: writes the value over the string, from the offset on.
    Setrange {
        key: Text,
        offset: i64,
        value: Text,
    },

    /// `MSET key value [key value ..]`: puts each value at its key.
    Mset {
        pairs: Pairs,
    },

    /// `MSETNX key value [key value ..]`: puts each value at its key, where none of the keys is there.
    Msetnx {
        pairs: Pairs,
    },
}

/// When a SET takes place.
#[derive(Clone, Copy, Debug, PartialEq, Eq)]
pub enum Condition {
    Always,

    /// `NX`: only where the key is not there.
    IfAbsent,

    /// `XX`: only where the key is there.
    IfPresent,
}

impl StringCommand {
    /// What is told of the command.
    pub(crate) fn told(&self) -> Told<'_>
        ensures { told_held result ≡ string_command_told self.now }
    {
        command_rows!(strings, told_rows, StringCommand, self)
    }
}

/// The heads of the rows.
const HEADS: &[RowHead] = command_rows!(strings, head_rows,);

/// Reads the words after a name by the row that has it; a name that none of these rows has is unknown.
pub(crate) fn read_string_command(name: &[u8], words: Vec<Vec<u8>>) -> Result<Command, Refusal>
    ensures { result ≡ unwrap_or (reading_among string_rows name.now (texts_of words.items)) (Err Unknown) }
{
    let place = match place_of(HEADS, name, words.len() + 1) {
        Ok(place) => place,
        Err(refused) => return Err(refused),
    };
    read_string_row(place, words)
}

/// Reads the words after a name by the row at this place, which takes as many.
fn read_string_row(place: usize, words: Vec<Vec<u8>>) -> Result<Command, Refusal>
    requires there { place < length string_rows }
    requires taken { IsTrue (admits_at string_rows place (length words.items + 1)) }
    ensures { result ≡ reading_at string_rows place (texts_of words.items) }
{
    command_rows!(strings, read_rows, place, words)
}

/// `GET key`.
fn read_get(words: Vec<Vec<u8>>) -> Result<Command, Refusal>
    requires { length words.items ≡ 1 }
    ensures { result ≡ get_row.reading (texts_of words.items) }
{
    let key = only_word(words);
    Ok(Command::Str(StringCommand::Get { key }))
}

/// `SET key value [NX | XX]`.
fn read_set(mut words: Vec<Vec<u8>>) -> Result<Command, Refusal>
    requires { 2 ≤ length words.items }
    ensures { result ≡ set_row.reading (texts_of words.items) }
{
    let condition = read_condition(&words[2..])?;
    words.truncate(2);
    let (key, value) = two_words(words);
    Ok(Command::Str(StringCommand::Set {
        key,
        value,
        condition,
    }))
}

/// `SETNX key value`.
fn read_setnx(words: Vec<Vec<u8>>) -> Result<Command, Refusal>
    requires { length words.items ≡ 2 }
    ensures { result ≡ setnx_row.reading (texts_of words.items) }
{
    let (key, value) = two_words(words);
    Ok(Command::Str(StringCommand::Setnx { key, value }))
}

/// `GETSET key value`.
fn read_getset(words: Vec<Vec<u8>>) -> Result<Command, Refusal>
    requires { length words.items ≡ 2 }
    ensures { result ≡ getset_row.reading (texts_of words.items) }
{
    let (key, value) = two_words(words);
    Ok(Command::Str(StringCommand::Getset { key, value }))
}

/// `GETDEL key`.
fn read_getdel(words: Vec<Vec<u8>>) -> Result<Command, Refusal>
    requires { length words.items ≡ 1 }
    ensures { result ≡ getdel_row.reading (texts_of words.items) }
{
    let key = only_word(words);
    Ok(Command::Str(StringCommand::Getdel { key }))
}

/// `MGET key [key ..]`.
fn read_mget(words: Vec<Vec<u8>>) -> Result<Command, Refusal>
    ensures { result ≡ mget_row.reading (texts_of words.items) }
{
    let keys = Texts::from(words);
    Ok(Command::Str(StringCommand::Mget { keys }))
}

/// `STRLEN key`.
fn read_strlen(words: Vec<Vec<u8>>) -> Result<Command, Refusal>
    requires { length words.items ≡ 1 }
    ensures { result ≡ strlen_row.reading (texts_of words.items) }
{
    let key = only_word(words);
    Ok(Command::Str(StringCommand::Strlen { key }))
}

/// `GETRANGE key start end`.
fn read_getrange(words: Vec<Vec<u8>>) -> Result<Command, Refusal>
    requires { length words.items ≡ 3 }
    ensures { result ≡ getrange_row.reading (texts_of words.items) }
{
    let (key, start, end) = three_words(words);
    let start = integer_word(start.as_slice())?;
    let end = integer_word(end.as_slice())?;
    Ok(Command::Str(StringCommand::Getrange { key, start, end }))
}

/// `INCR key`.
fn read_incr(words: Vec<Vec<u8>>) -> Result<Command, Refusal>
    requires { length words.items ≡ 1 }
    ensures { result ≡ incr_row.reading (texts_of words.items) }
{
    let key = only_word(words);
    Ok(Command::Str(StringCommand::Incr { key }))
}

/// `DECR key`.
fn read_decr(words: Vec<Vec<u8>>) -> Result<Command, Refusal>
    requires { length words.items ≡ 1 }
    ensures { result ≡ decr_row.reading (texts_of words.items) }
{
    let key = only_word(words);
    Ok(Command::Str(StringCommand::Decr { key }))
}

/// `INCRBY key by`.
fn read_incrby(words: Vec<Vec<u8>>) -> Result<Command, Refusal>
    requires { length words.items ≡ 2 }
    ensures { result ≡ incrby_row.reading (texts_of words.items) }
{
    let (key, by) = two_words(words);
    let by = integer_word(by.as_slice())?;
    Ok(Command::Str(StringCommand::Incrby { key, by }))
}

/// `DECRBY key by`.
fn read_decrby(words: Vec<Vec<u8>>) -> Result<Command, Refusal>
    requires { length words.items ≡ 2 }
    ensures { result ≡ decrby_row.reading (texts_of words.items) }
{
    let (key, by) = two_words(words);
    let by = integer_word(by.as_slice())?;
    Ok(Command::Str(StringCommand::Decrby { key, by }))
}

/// `APPEND key tail`.
fn read_append(words: Vec<Vec<u8>>) -> Result<Command, Refusal>
    requires { length words.items ≡ 2 }
    ensures { result ≡ append_row.reading (texts_of words.items) }
{
    let (key, tail) = two_words(words);
    Ok(Command::Str(StringCommand::Append { key, tail }))
}

/// `SETRANGE key offset value`.
fn read_setrange(words: Vec<Vec<u8>>) -> Result<Command, Refusal>
    requires { length words.items ≡ 3 }
    ensures { result ≡ setrange_row.reading (texts_of words.items) }
{
    let (key, offset, value) = three_words(words);
    let offset = integer_word(offset.as_slice())?;
    Ok(Command::Str(StringCommand::Setrange { key, offset, value }))
}

/// `MSET key value [key value ..]`.
fn read_mset(words: Vec<Vec<u8>>) -> Result<Command, Refusal>
    ensures { result ≡ mset_row.reading (texts_of words.items) }
{
    if words.len() % 2 != 0 {
        return Err(Refusal::Arity(CommandName::of("mset")));
    }
    let pairs = Pairs::from_turns(words);
    Ok(Command::Str(StringCommand::Mset { pairs }))
}

/// `MSETNX key value [key value ..]`.
fn read_msetnx(words: Vec<Vec<u8>>) -> Result<Command, Refusal>
    ensures { result ≡ msetnx_row.reading (texts_of words.items) }
{
    if words.len() % 2 != 0 {
        return Err(Refusal::Arity(CommandName::of("msetnx")));
    }
    let pairs = Pairs::from_turns(words);
    Ok(Command::Str(StringCommand::Msetnx { pairs }))
}

/// The condition that the options of SET state.
fn read_condition(options: &[Vec<u8>]) -> Result<Condition, Refusal>
    ensures { result ≡ options_condition (texts_of options.now) }
{
    if !are_options(options) {
        return Err(Refusal::Syntax);
    }
    match (has_word(options, b"nx"), has_word(options, b"xx")) {
        (false, false) => Ok(Condition::Always),
        (true, false) => Ok(Condition::IfAbsent),
        (false, true) => Ok(Condition::IfPresent),
        (true, true) => Err(Refusal::Syntax),
    }
}

/// Whether each of these words is an option of SET.
fn are_options(words: &[Vec<u8>]) -> bool
    ensures { result ≡ list_all is_option (texts_of words.now) }
{
    words.iter().all(|w| is_word(w, b"nx") || is_word(w, b"xx"))
}
