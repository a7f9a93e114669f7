//! How a request is read as a command.
//!
//! The name is looked for first, then the words are counted, then the words behind the name are read from left to
//! right; no key is looked at. The rows are the Redis command reference's; that order is this project's own, since
//! releases of Redis differ. Whoever has a request from the decoder, or from words of its own, calls `read`.

ghost use Rattle.std.specs.Prelude.{◌≡◌, Err, IfOk, unwrap_or};
ghost use Rattle.command_table.specs.declared.refusal.Refusal.TheVariants.{Unknown};
ghost use Rattle.command_table.specs.Keyed.{IsKeyed};
ghost use Rattle.command_table.specs.Reading.{reading, rows, IsTold};
ghost use Rattle.command_table.specs.CommandRow.{reading_among};
ghost use Rattle.command_table.specs.Words.{texts_of};

use crate::command::Command;
use crate::family::{Family, family_of};
use crate::hash_commands::read_hash_command;
use crate::key_commands::read_key_command;
use crate::list_commands::read_list_command;
use crate::local_commands::read_local_command;
use crate::refusal::Refusal;
use crate::set_commands::read_set_command;
use crate::string_commands::read_string_command;
use resp::Request;

/// The command that the request's words say, the first of which is its name in any mix of upper and lower case.
///
/// Errors, in the order in which they are looked for: `Unknown`, no command has the name; `Arity`, it takes another
/// number of words; `Syntax` and `NotInteger`, a word behind the name is none that may stand there. The words are moved
/// into the command with the memory that they lie in. No memory is taken, so `Memory` is never answered.
pub fn read(request: Request) -> Result<Command, Refusal>
    ensures reading { result ≡ reading request }
    ensures told { IfOk result (λ command. IsTold request command) }
    ensures keyed { IfOk result IsKeyed }
{
    let (name, words) = request.into_parts();
    let name = name.into_lower_case();
    read_by_row(name.as_slice(), words)
}

/// Reads the words behind a name in lower case by the rows of its family.
// Inlined, so that the command is moved once.
#[inline(always)]
fn read_by_row(name: &[u8], words: Vec<Vec<u8>>) -> Result<Command, Refusal>
    ensures { result ≡ unwrap_or (reading_among rows name.now (texts_of words.items)) (Err Unknown) }
{
    match family_of(name) {
        Family::Local => read_local_command(name, words),
        Family::Key => read_key_command(name, words),
        Family::Str => read_string_command(name, words),
        Family::List => read_list_command(name, words),
        Family::Hash => read_hash_command(name, words),
        Family::Set => read_set_command(name, words),
    }
}
