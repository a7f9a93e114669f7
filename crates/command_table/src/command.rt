//! A command that was read, and what is told of it: its name, its keys, and whether it is for all keys.

ghost use Rattle.std.specs.Prelude.{◌≡◌};
ghost use Rattle.command_table.specs.Command.{told_of, name_of, keys_of, is_whole};
ghost use Rattle.command_table.specs.Held.{keys_held, told_held};
ghost use Rattle.command_table.specs.Telling.{named, is_all};

use crate::hash_commands::HashCommand;
use crate::key_commands::KeyCommand;
use crate::list_commands::ListCommand;
use crate::local_commands::LocalCommand;
use crate::set_commands::SetCommand;
use crate::string_commands::StringCommand;
use crate::told::{Keys, Told};

/// A command with the words that it was given, as `read` makes it. Contracts compare commands by the bytes of their
/// words.
#[derive(Drop)]
pub enum Command {
    /// On keys of any type.
    Key(KeyCommand),

    /// On strings.
    Str(StringCommand),

    /// On lists.
    List(ListCommand),

    /// On hashes.
    Hash(HashCommand),

    /// On sets.
    Set(SetCommand),

    /// On no key.
    Local(LocalCommand),
}

/// What the row of the command's family tells of it.
fn told(command: &Command) -> Told<'_>
    ensures { told_held result ≡ told_of command.now }
{
    match command {
        Command::Key(command) => command.told(),
        Command::Str(command) => command.told(),
        Command::List(command) => command.told(),
        Command::Hash(command) => command.told(),
        Command::Set(command) => command.told(),
        Command::Local(command) => command.told(),
    }
}

/// The command's name, in lower case.
pub fn name(command: &Command) -> &'static str
    ensures { result.now ≡ name_of command.now }
{
    told(command).name
}

/// The keys that the command names, in order of its words, repeats kept; or that it is for all keys there are. It takes no memory.
pub fn keys_of(command: &Command) -> Keys<'_>
    ensures named { named (keys_held result) ≡ keys_of command.now }
    ensures whole { is_all (keys_held result) ≡ is_whole command.now }
{
    told(command).keys
}
