//! Why a request cannot be read as a command.

ghost use Rattle.std.specs.Prelude.{◌≡◌};
ghost use Rattle.resp.specs.Content.{error_text};
ghost use Rattle.command_table.specs.Refusal.{refusal_text};

use resp::ErrorText;
use std::fmt;
use std::marker::Model;
use thiserror::Error;

/// The name of a command of the table, in lower case. Contracts see its bytes.
#[derive(Debug, Drop)]
pub struct CommandName {
    text: &'static str,
}

impl Model for CommandName {
    ghost use Rattle.std.specs.Prelude.{ℕ, List};

    ghost Value = { List ℕ };

    ghost view = { λ n. n.text.now };
}

impl CommandName {
    /// The name that is written so.
    pub(crate) fn of(text: &'static str) -> Self
        ensures { result ≡ text.now }
    {
        CommandName { text }
    }

    /// The name's text.
    pub fn as_str(&self) -> &'static str
        ensures { result.now ≡ self.now }
    {
        self.text
    }
}

impl fmt::Display for CommandName {
    ghost use Rattle.std.specs.Prelude.{Some};

    ghost output = { λ name. Some name };

    fn fmt<W: fmt::Write>(&self, f: &mut fmt::Formatter<W>) -> fmt::Result {
        f.write_str(self.text)
    }
}

/// Why a request cannot be read as a command. Nothing was changed, and nothing was looked at but the request's words.
/// Each reason has its number, from 1.
#[derive(Debug, Drop, Error)]
pub enum Refusal {
    /// 1: no command has this name.
    #[error("ERR unknown command")]
    Unknown,

    /// 2: the command of this name takes another number of words.
    #[error("ERR wrong number of arguments for '{0}' command")]
    Arity(CommandName),

    /// 3: a word is none of the command's options, or contradicts another one.
    #[error("ERR syntax error")]
    Syntax,

    /// 4: a word that should be an integer isn't one that fits 64 bits.
    #[error("ERR value is not an integer or out of range")]
    NotInteger,

    /// 5: there is no memory to read the request. `read` takes none; a caller that copies a request first may answer
    /// it.
    #[error("ERR out of memory")]
    Memory,
}

impl Refusal {
    /// The text of the error that answers the request. It takes no memory.
    pub fn text(&self) -> ErrorText
        ensures { error_text result ≡ refusal_text self.now }
    {
        match self {
            Refusal::Unknown => ErrorText::Fixed("ERR unknown command"),
            Refusal::Arity(name) => ErrorText::Arity(name.as_str()),
            Refusal::Syntax => ErrorText::Fixed("ERR syntax error"),
            Refusal::NotInteger => ErrorText::Fixed("ERR value is not an integer or out of range"),
            Refusal::Memory => ErrorText::Fixed("ERR out of memory"),
        }
    }
}
