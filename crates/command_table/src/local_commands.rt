//! Commands that look at no key.

ghost use Rattle.std.specs.Prelude.{◌≡◌, ◌+◌, ◌<◌, length, Err, unwrap_or, IsTrue};
ghost use Rattle.command_table.specs.declared.refusal.Refusal.TheVariants.{Unknown};
ghost use Rattle.command_table.specs.Held.{told_held};
ghost use Rattle.command_table.specs.LocalCommands.{local_command_told, local_rows, ping_reading, echo_row};
ghost use Rattle.command_table.specs.CommandRow.{reading_among};
ghost use Rattle.command_table.specs.RowHeads.{admits_at, reading_at};
ghost use Rattle.command_table.specs.Words.{texts_of};

use crate::arity::Arity;
use crate::command::Command;
use crate::command_rows;
use crate::refusal::{CommandName, Refusal};
use crate::row_heads::{RowHead, place_of};
use crate::rows::{head_rows, keys_of_span, read_rows, told_rows};
use crate::told::{Keys, Told};
use crate::words::only_word;
use texts::Text;

/// A command that looks at no key.
#[derive(Drop)]
pub enum LocalCommand {
    /// `PING [word]`: the word, or `PONG`.
    Ping { word: Option<Text> },

    /// `ECHO word`: the word.
    Echo { word: Text },
}

impl LocalCommand {
    /// What is told of the command.
    pub(crate) fn told(&self) -> Told<'_>
        ensures { told_held result ≡ local_command_told self.now }
    {
        command_rows!(local, told_rows, LocalCommand, self)
    }
}

/// The heads of the rows.
const HEADS: &[RowHead] = command_rows!(local, head_rows,);

/// Reads the words after a name by the row that has it; a name that none of these rows has is unknown.
pub(crate) fn read_local_command(name: &[u8], words: Vec<Vec<u8>>) -> Result<Command, Refusal>
    ensures { result ≡ unwrap_or (reading_among local_rows name.now (texts_of words.items)) (Err Unknown) }
{
    let place = match place_of(HEADS, name, words.len() + 1) {
        Ok(place) => place,
        Err(refused) => return Err(refused),
    };
    read_local_row(place, words)
}

/// Reads the words after a name by the row at this place, which takes as many.
fn read_local_row(place: usize, words: Vec<Vec<u8>>) -> Result<Command, Refusal>
    requires there { place < length local_rows }
    requires taken { IsTrue (admits_at local_rows place (length words.items + 1)) }
    ensures { result ≡ reading_at local_rows place (texts_of words.items) }
{
    command_rows!(local, read_rows, place, words)
}

/// `PING [word]`.
fn read_ping(mut words: Vec<Vec<u8>>) -> Result<Command, Refusal>
    ensures { result ≡ ping_reading (texts_of words.items) }
{
    if words.len() > 1 {
        return Err(Refusal::Arity(CommandName::of("ping")));
    }
    let word = match words.pop() {
        Some(word) => Some(Text::from(word)),
        None => None,
    };
    Ok(Command::Local(LocalCommand::Ping { word }))
}

/// `ECHO word`.
fn read_echo(words: Vec<Vec<u8>>) -> Result<Command, Refusal>
    requires { length words.items ≡ 1 }
    ensures { result ≡ echo_row.reading (texts_of words.items) }
{
    let word = only_word(words);
    Ok(Command::Local(LocalCommand::Echo { word }))
}
