//! Commands on hashes.

ghost use Rattle.std.specs.Prelude.{◌≡◌, ◌+◌, ◌<◌, ◌≤◌, length, Err, unwrap_or, IsTrue};
ghost use Rattle.command_table.specs.declared.refusal.Refusal.TheVariants.{Unknown};
ghost use Rattle.command_table.specs.HashCommands.{hash_command_told, hash_rows, whole_pairs, hlen_row, hget_row, hexists_row, hstrlen_row};
ghost use Rattle.command_table.specs.HashCommands.{hkeys_row, hvals_row, hgetall_row, hmget_row, hdel_row, hsetnx_row, hset_row, hmset_row};
ghost use Rattle.command_table.specs.HashCommands.{hincrby_row};
ghost use Rattle.command_table.specs.Held.{told_held};
ghost use Rattle.command_table.specs.CommandRow.{reading_among};
ghost use Rattle.command_table.specs.RowHeads.{admits_at, reading_at};
ghost use Rattle.command_table.specs.Words.{texts_of};

use crate::arity::Arity;
use crate::command::Command;
use crate::command_rows;
use crate::refusal::{CommandName, Refusal};
use crate::row_heads::{RowHead, place_of};
use crate::rows::{head_rows, keys_of_span, read_rows, told_rows};
use crate::told::{Keys, Told};
use crate::words::{first_and_rest, integer_word, only_word, three_words, two_words};
use texts::{Pairs, Text, Texts};

/// A command on hashes.
#[derive(Drop)]
pub enum HashCommand {
    /// `HLEN key`: the number of fields.
    Hlen { key: Text },

    /// `HGET key field`: the value of the field.
    Hget { key: Text, field: Text },

    /// `HEXISTS key field`: whether the field is there.
    Hexists { key: Text, field: Text },

    /// `HSTRLEN key field`: the length of the field's value.
    Hstrlen { key: Text, field: Text },

    /// `HKEYS key`: the fields.
    Hkeys { key: Text },

    /// `HVALS key`: the values.
    Hvals { key: Text },

    /// `HGETALL key`: the fields and their values by turns.
    Hgetall { key: Text },

    /// `HMGET key field [field ..]`: the value of each field.
    Hmget { key: Text, fields: Texts },

    /// `HDEL key field [field ..]`: removes the fields.
    Hdel { key: Text, fields: Texts },

    /// `HSETNX key field value`: sets the field where it isn't there.
    Hsetnx { key: Text, field: Text, value: Text },

    /// `HSET key field value [field value ..]`: sets the fields.
    Hset { key: Text, pairs: Pairs },

    /// `HMSET key field value [field value ..]`: sets the fields.
    Hmset { key: Text, pairs: Pairs },

    /// `HINCRBY key field by`: adds a number to the one that the field's value says.
    Hincrby { key: Text, field: Text, by: i64 },
}

impl HashCommand {
    /// What is told of the command.
    pub(crate) fn told(&self) -> Told<'_>
        ensures { told_held result ≡ hash_command_told self.now }
    {
        command_rows!(hashes, told_rows, HashCommand, self)
    }
}

/// The heads of the rows.
const HEADS: &[RowHead] = command_rows!(hashes, head_rows,);

/// Reads the words after a name by the row that has it; a name that none of these rows has is unknown.
pub(crate) fn read_hash_command(name: &[u8], words: Vec<Vec<u8>>) -> Result<Command, Refusal>
    ensures { result ≡ unwrap_or (reading_among hash_rows name.now (texts_of words.items)) (Err Unknown) }
{
    let place = match place_of(HEADS, name, words.len() + 1) {
        Ok(place) => place,
        Err(refused) => return Err(refused),
    };
    read_hash_row(place, words)
}

/// Reads the words after a name by the row at this place, which takes as many.
fn read_hash_row(place: usize, words: Vec<Vec<u8>>) -> Result<Command, Refusal>
    requires there { place < length hash_rows }
    requires taken { IsTrue (admits_at hash_rows place (length words.items + 1)) }
    ensures { result ≡ reading_at hash_rows place (texts_of words.items) }
{
    command_rows!(hashes, read_rows, place, words)
}

/// `HLEN key`.
fn read_hlen(words: Vec<Vec<u8>>) -> Result<Command, Refusal>
    requires { length words.items ≡ 1 }
    ensures { result ≡ hlen_row.reading (texts_of words.items) }
{
    let key = only_word(words);
    Ok(Command::Hash(HashCommand::Hlen { key }))
}

/// `HGET key field`.
fn read_hget(words: Vec<Vec<u8>>) -> Result<Command, Refusal>
    requires { length words.items ≡ 2 }
    ensures { result ≡ hget_row.reading (texts_of words.items) }
{
    let (key, field) = two_words(words);
    Ok(Command::Hash(HashCommand::Hget { key, field }))
}

/// `HEXISTS key field`.
fn read_hexists(words: Vec<Vec<u8>>) -> Result<Command, Refusal>
    requires { length words.items ≡ 2 }
    ensures { result ≡ hexists_row.reading (texts_of words.items) }
{
    let (key, field) = two_words(words);
    Ok(Command::Hash(HashCommand::Hexists { key, field }))
}

/// `HSTRLEN key field`.
fn read_hstrlen(words: Vec<Vec<u8>>) -> Result<Command, Refusal>
    requires { length words.items ≡ 2 }
    ensures { result ≡ hstrlen_row.reading (texts_of words.items) }
{
    let (key, field) = two_words(words);
    Ok(Command::Hash(HashCommand::Hstrlen { key, field }))
}

/// `HKEYS key`.
fn read_hkeys(words: Vec<Vec<u8>>) -> Result<Command, Refusal>
    requires { length words.items ≡ 1 }
    ensures { result ≡ hkeys_row.reading (texts_of words.items) }
{
    let key = only_word(words);
    Ok(Command::Hash(HashCommand::Hkeys { key }))
}

/// `HVALS key`.
fn read_hvals(words: Vec<Vec<u8>>) -> Result<Command, Refusal>
    requires { length words.items ≡ 1 }
    ensures { result ≡ hvals_row.reading (texts_of words.items) }
{
    let key = only_word(words);
    Ok(Command::Hash(HashCommand::Hvals { key }))
}

/// `HGETALL key`.
fn read_hgetall(words: Vec<Vec<u8>>) -> Result<Command, Refusal>
    requires { length words.items ≡ 1 }
    ensures { result ≡ hgetall_row.reading (texts_of words.items) }
{
    let key = only_word(words);
    Ok(Command::Hash(HashCommand::Hgetall { key }))
}

/// `HMGET key field [field ..]`.
fn read_hmget(words: Vec<Vec<u8>>) -> Result<Command, Refusal>
    requires { 2 ≤ length words.items }
    ensures { result ≡ hmget_row.reading (texts_of words.items) }
{
    let (key, fields) = first_and_rest(words);
    Ok(Command::Hash(HashCommand::Hmget { key, fields }))
}

/// `HDEL key field [field ..]`.
fn read_hdel(words: Vec<Vec<u8>>) -> Result<Command, Refusal>
    requires { 2 ≤ length words.items }
    ensures { result ≡ hdel_row.reading (texts_of words.items) }
{
    let (key, fields) = first_and_rest(words);
    Ok(Command::Hash(HashCommand::Hdel { key, fields }))
}

/// `HSETNX key field value`.
fn read_hsetnx(words: Vec<Vec<u8>>) -> Result<Command, Refusal>
    requires { length words.items ≡ 3 }
    ensures { result ≡ hsetnx_row.reading (texts_of words.items) }
{
    let (key, field, value) = three_words(words);
    Ok(Command::Hash(HashCommand::Hsetnx { key, field, value }))
}

/// `HSET key field value [field value ..]`.
fn read_hset(words: Vec<Vec<u8>>) -> Result<Command, Refusal>
    requires { 3 ≤ length words.items }
    ensures { result ≡ hset_row.reading (texts_of words.items) }
{
    let (key, rest) = first_and_rest(words);
    match in_pairs(rest) {
        Some(pairs) => Ok(Command::Hash(HashCommand::Hset { key, pairs })),
        None => Err(Refusal::Arity(CommandName::of("hset"))),
    }
}

/// `HMSET key field value [field value ..]`.
fn read_hmset(words: Vec<Vec<u8>>) -> Result<Command, Refusal>
    requires { 3 ≤ length words.items }
    ensures { result ≡ hmset_row.reading (texts_of words.items) }
{
    let (key, rest) = first_and_rest(words);
    match in_pairs(rest) {
        Some(pairs) => Ok(Command::Hash(HashCommand::Hmset { key, pairs })),
        None => Err(Refusal::Arity(CommandName::of("hmset"))),
    }
}

/// `HINCRBY key field by`.
fn read_hincrby(words: Vec<Vec<u8>>) -> Result<Command, Refusal>
    requires { length words.items ≡ 3 }
    ensures { result ≡ hincrby_row.reading (texts_of words.items) }
{
    let (key, field, by) = three_words(words);
    let by = integer_word(by.as_slice())?;
    Ok(Command::Hash(HashCommand::Hincrby { key, field, by }))
}

/// The words two by two; `None` where one is left over.
fn in_pairs(words: Texts) -> Option<Pairs>
    ensures { result ≡ whole_pairs words }
{
    let words = words.into_vec();
    if words.len() % 2 != 0 {
        return None;
    }
    Some(Pairs::from_turns(words))
}
