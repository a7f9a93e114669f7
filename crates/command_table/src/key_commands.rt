//! Commands on keys of any type.

ghost use Rattle.std.specs.Prelude.{◌≡◌, ◌+◌, ◌<◌, length, Err, unwrap_or, IsTrue};
ghost use Rattle.command_table.specs.declared.refusal.Refusal.TheVariants.{Unknown};
ghost use Rattle.command_table.specs.Held.{told_held};
ghost use Rattle.command_table.specs.KeyCommands.{key_command_told, key_rows, del_row, unlink_row, exists_row, type_row, rename_row};
ghost use Rattle.command_table.specs.KeyCommands.{renamenx_row, dbsize_row, flushall_reading};
ghost use Rattle.command_table.specs.CommandRow.{reading_among};
ghost use Rattle.command_table.specs.RowHeads.{admits_at, reading_at};
ghost use Rattle.command_table.specs.Words.{texts_of};

use crate::arity::Arity;
use crate::command::Command;
use crate::command_rows;
use crate::refusal::Refusal;
use crate::row_heads::{RowHead, place_of};
use crate::rows::{head_rows, keys_of_span, read_rows, told_rows};
use crate::told::{Keys, Told};
use crate::words::{is_word, only_word, two_words};
use texts::{Text, Texts};

/// A command on keys of any type.
#[derive(Drop)]
pub enum KeyCommand {
    /// `DEL key [key ..]`: removes the keys.
    Del { keys: Texts },

    /// `UNLINK key [key ..]`: removes the keys, as DEL does.
    Unlink { keys: Texts },

    /// `EXISTS key [key ..]`: how many of these words name a key that is there.
    Exists { keys: Texts },

    /// `TYPE key`: the name of the type of the key's value.
    TypeOf { key: Text },

    /// `RENAME key newkey`: moves the value of the key to the new one.
    Rename { from: Text, to: Text },

    /// `RENAMENX key newkey`: moves the value of the key to the new one, where that isn't there.
    Renamenx { from: Text, to: Text },

    /// `DBSIZE`: the number of keys.
    Dbsize,

    /// `FLUSHALL [ASYNC | SYNC]`: removes all keys.
    Flushall,
}

impl KeyCommand {
    /// What is told of the command.
    pub(crate) fn told(&self) -> Told<'_>
        ensures { told_held result ≡ key_command_told self.now }
    {
        command_rows!(keys, told_rows, KeyCommand, self)
    }
}

/// The heads of the rows.
const HEADS: &[RowHead] = command_rows!(keys, head_rows,);

/// Reads the words after a name by the row that has it; a name that none of these rows has is unknown.
pub(crate) fn read_key_command(name: &[u8], words: Vec<Vec<u8>>) -> Result<Command, Refusal>
    ensures { result ≡ unwrap_or (reading_among key_rows name.now (texts_of words.items)) (Err Unknown) }
{
    let place = match place_of(HEADS, name, words.len() + 1) {
        Ok(place) => place,
        Err(refused) => return Err(refused),
    };
    read_key_row(place, words)
}

/// Reads the words after a name by the row at this place, which takes as many.
fn read_key_row(place: usize, words: Vec<Vec<u8>>) -> Result<Command, Refusal>
    requires there { place < length key_rows }
    requires taken { IsTrue (admits_at key_rows place (length words.items + 1)) }
    ensures { result ≡ reading_at key_rows place (texts_of words.items) }
{
    command_rows!(keys, read_rows, place, words)
}

/// `DEL key [key ..]`.
fn read_del(words: Vec<Vec<u8>>) -> Result<Command, Refusal>
    ensures { result ≡ del_row.reading (texts_of words.items) }
{
    let keys = Texts::from(words);
    Ok(Command::Key(KeyCommand::Del { keys }))
}

/// `RENAME key newkey`.
fn read_rename(words: Vec<Vec<u8>>) -> Result<Command, Refusal>
    requires { length words.items ≡ 2 }
    ensures { result ≡ rename_row.reading (texts_of words.items) }
{
    let (from, to) = two_words(words);
    Ok(Command::Key(KeyCommand::Rename { from, to }))
}

/// `UNLINK key [key ..]`.
fn read_unlink(words: Vec<Vec<u8>>) -> Result<Command, Refusal>
    ensures { result ≡ unlink_row.reading (texts_of words.items) }
{
    let keys = Texts::from(words);
    Ok(Command::Key(KeyCommand::Unlink { keys }))
}

/// `EXISTS key [key ..]`.
fn read_exists(words: Vec<Vec<u8>>) -> Result<Command, Refusal>
    ensures { result ≡ exists_row.reading (texts_of words.items) }
{
    let keys = Texts::from(words);
    Ok(Command::Key(KeyCommand::Exists { keys }))
}

/// `TYPE key`.
fn read_type(words: Vec<Vec<u8>>) -> Result<Command, Refusal>
    requires { length words.items ≡ 1 }
    ensures { result ≡ type_row.reading (texts_of words.items) }
{
    let key = only_word(words);
    Ok(Command::Key(KeyCommand::TypeOf { key }))
}

/// `RENAMENX key newkey`.
fn read_renamenx(words: Vec<Vec<u8>>) -> Result<Command, Refusal>
    requires { length words.items ≡ 2 }
    ensures { result ≡ renamenx_row.reading (texts_of words.items) }
{
    let (from, to) = two_words(words);
    Ok(Command::Key(KeyCommand::Renamenx { from, to }))
}

/// `DBSIZE`.
fn read_dbsize(words: Vec<Vec<u8>>) -> Result<Command, Refusal>
    ensures { result ≡ dbsize_row.reading (texts_of words.items) }
{
    let _ = words;
    Ok(Command::Key(KeyCommand::Dbsize))
}

/// `FLUSHALL [ASYNC | SYNC]`.
fn read_flushall(words: Vec<Vec<u8>>) -> Result<Command, Refusal>
    ensures { result ≡ flushall_reading (texts_of words.items) }
{
    match words.as_slice() {
        [] => Ok(Command::Key(KeyCommand::Flushall)),
        [word] if is_word(word, b"async") || is_word(word, b"sync") => {
            Ok(Command::Key(KeyCommand::Flushall))
        }
        _ => Err(Refusal::Syntax),
    }
}
