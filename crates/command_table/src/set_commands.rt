//! Commands on sets.

ghost use Rattle.std.specs.Prelude.{◌≡◌, ◌+◌, ◌<◌, ◌≤◌, length, Err, unwrap_or, IsTrue};
ghost use Rattle.command_table.specs.declared.refusal.Refusal.TheVariants.{Unknown};
ghost use Rattle.command_table.specs.Held.{told_held};
ghost use Rattle.command_table.specs.CommandRow.{reading_among};
ghost use Rattle.command_table.specs.RowHeads.{admits_at, reading_at};
ghost use Rattle.command_table.specs.SetCommands.{set_command_told, set_rows};
ghost use Rattle.command_table.specs.SetCommands.{sadd_row, srem_row, sismember_row, smismember_row, scard_row, smembers_row};
ghost use Rattle.command_table.specs.SetCommands.{smove_row, sinter_row, sunion_row, sdiff_row};
ghost use Rattle.command_table.specs.SetCommands.{sinterstore_row, sunionstore_row, sdiffstore_row};
ghost use Rattle.command_table.specs.Words.{texts_of};

use crate::arity::Arity;
use crate::command::Command;
use crate::command_rows;
use crate::refusal::Refusal;
use crate::row_heads::{RowHead, place_of};
use crate::rows::{head_rows, keys_of_span, read_rows, told_rows};
use crate::told::{Keys, Told};
use crate::words::{first_and_rest, only_word, three_words, two_words};
use texts::{Text, Texts};

/// A command on sets.
#[derive(Drop)]
pub enum SetCommand {
    /// `SADD key member [member ..]`: adds the members.
    Sadd { key: Text, members: Texts },

    /// `SREM key member [member ..]`: removes the members.
    Srem { key: Text, members: Texts },

    /// `SISMEMBER key member`: whether it is a member.
    Sismember { key: Text, member: Text },

    /// `SMISMEMBER key member [member ..]`: whether each is a member.
    Smismember { key: Text, members: Texts },

    /// `SCARD key`: the number of members.
    Scard { key: Text },

    /// `SMEMBERS key`: the members.
    Smembers { key: Text },

    /// `SMOVE source destination member`: moves the member.
    Smove { from: Text, to: Text, member: Text },

    /// `SINTER key [key ..]`: the members that are in each set.
    Sinter { keys: Texts },

    /// `SUNION key [key ..]`: the members of all sets.
    Sunion { keys: Texts },

    /// `SDIFF key [key ..]`: the members of the first set that are in no other.
    Sdiff { keys: Texts },

    /// `SINTERSTORE target key [key ..]`: stores what SINTER answers.
    Sinterstore { target: Text, sources: Texts },

    /// `SUNIONSTORE target key [key ..]`: stores what SUNION answers.
    Sunionstore { target: Text, sources: Texts },

    /// `SDIFFSTORE target key [key ..]`: stores what SDIFF answers.
    Sdiffstore { target: Text, sources: Texts },
}

impl SetCommand {
    /// What is told of the command.
    pub(crate) fn told(&self) -> Told<'_>
        ensures { told_held result ≡ set_command_told self.now }
    {
        command_rows!(sets, told_rows, SetCommand, self)
    }
}

/// The heads of the rows.
const HEADS: &[RowHead] = command_rows!(sets, head_rows,);

/// Reads the words after a name by the row that has it; a name that none of these rows has is unknown.
pub(crate) fn read_set_command(name: &[u8], words: Vec<Vec<u8>>) -> Result<Command, Refusal>
    ensures { result ≡ unwrap_or (reading_among set_rows name.now (texts_of words.items)) (Err Unknown) }
{
    let place = match place_of(HEADS, name, words.len() + 1) {
        Ok(place) => place,
        Err(refused) => return Err(refused),
    };
    read_set_row(place, words)
}

/// Reads the words after a name by the row at this place, which takes as many.
fn read_set_row(place: usize, words: Vec<Vec<u8>>) -> Result<Command, Refusal>
    requires there { place < length set_rows }
    requires taken { IsTrue (admits_at set_rows place (length words.items + 1)) }
    ensures { result ≡ reading_at set_rows place (texts_of words.items) }
{
    command_rows!(sets, read_rows, place, words)
}

/// `SADD key member [member ..]`.
fn read_sadd(words: Vec<Vec<u8>>) -> Result<Command, Refusal>
    requires { 2 ≤ length words.items }
    ensures { result ≡ sadd_row.reading (texts_of words.items) }
{
    let (key, members) = first_and_rest(words);
    Ok(Command::Set(SetCommand::Sadd { key, members }))
}

/// `SREM key member [member ..]`.
fn read_srem(words: Vec<Vec<u8>>) -> Result<Command, Refusal>
    requires { 2 ≤ length words.items }
    ensures { result ≡ srem_row.reading (texts_of words.items) }
{
    let (key, members) = first_and_rest(words);
    Ok(Command::Set(SetCommand::Srem { key, members }))
}

/// `SISMEMBER key member`.
fn read_sismember(words: Vec<Vec<u8>>) -> Result<Command, Refusal>
    requires { length words.items ≡ 2 }
    ensures { result ≡ sismember_row.reading (texts_of words.items) }
{
    let (key, member) = two_words(words);
    Ok(Command::Set(SetCommand::Sismember { key, member }))
}

/// `SMISMEMBER key member [member ..]`.
fn read_smismember(words: Vec<Vec<u8>>) -> Result<Command, Refusal>
    requires { 2 ≤ length words.items }
    ensures { result ≡ smismember_row.reading (texts_of words.items) }
{
    let (key, members) = first_and_rest(words);
    Ok(Command::Set(SetCommand::Smismember { key, members }))
}

/// `SCARD key`.
fn read_scard(words: Vec<Vec<u8>>) -> Result<Command, Refusal>
    requires { length words.items ≡ 1 }
    ensures { result ≡ scard_row.reading (texts_of words.items) }
{
    let key = only_word(words);
    Ok(Command::Set(SetCommand::Scard { key }))
}

/// `SMEMBERS key`.
fn read_smembers(words: Vec<Vec<u8>>) -> Result<Command, Refusal>
    requires { length words.items ≡ 1 }
    ensures { result ≡ smembers_row.reading (texts_of words.items) }
{
    let key = only_word(words);
    Ok(Command::Set(SetCommand::Smembers { key }))
}

/// `SMOVE source destination member`.
fn read_smove(words: Vec<Vec<u8>>) -> Result<Command, Refusal>
    requires { length words.items ≡ 3 }
    ensures { result ≡ smove_row.reading (texts_of words.items) }
{
    let (from, to, member) = three_words(words);
    Ok(Command::Set(SetCommand::Smove { from, to, member }))
}

/// `SINTER key [key ..]`.
fn read_sinter(words: Vec<Vec<u8>>) -> Result<Command, Refusal>
    ensures { result ≡ sinter_row.reading (texts_of words.items) }
{
    let keys = Texts::from(words);
    Ok(Command::Set(SetCommand::Sinter { keys }))
}

/// `SUNION key [key ..]`.
fn read_sunion(words: Vec<Vec<u8>>) -> Result<Command, Refusal>
    ensures { result ≡ sunion_row.reading (texts_of words.items) }
{
    let keys = Texts::from(words);
    Ok(Command::Set(SetCommand::Sunion { keys }))
}

/// `SDIFF key [key ..]`.
fn read_sdiff(words: Vec<Vec<u8>>) -> Result<Command, Refusal>
    ensures { result ≡ sdiff_row.reading (texts_of words.items) }
{
    let keys = Texts::from(words);
    Ok(Command::Set(SetCommand::Sdiff { keys }))
}

/// `SINTERSTORE target key [key ..]`.
fn read_sinterstore(words: Vec<Vec<u8>>) -> Result<Command, Refusal>
    requires { 2 ≤ length words.items }
    ensures { result ≡ sinterstore_row.reading (texts_of words.items) }
{
    let (target, sources) = first_and_rest(words);
    Ok(Command::Set(SetCommand::Sinterstore { target, sources }))
}

/// `SUNIONSTORE target key [key ..]`.
fn read_sunionstore(words: Vec<Vec<u8>>) -> Result<Command, Refusal>
    requires { 2 ≤ length words.items }
    ensures { result ≡ sunionstore_row.reading (texts_of words.items) }
{
    let (target, sources) = first_and_rest(words);
    Ok(Command::Set(SetCommand::Sunionstore { target, sources }))
}

/// `SDIFFSTORE target key [key ..]`.
fn read_sdiffstore(words: Vec<Vec<u8>>) -> Result<Command, Refusal>
    requires { 2 ≤ length words.items }
    ensures { result ≡ sdiffstore_row.reading (texts_of words.items) }
{
    let (target, sources) = first_and_rest(words);
    Ok(Command::Set(SetCommand::Sdiffstore { target, sources }))
}
