//! The table of commands: which commands there are, how a request is read as one of them, and which of its words are
//! keys.
//!
//! The rows stand once, in `command_rows!`, by the Redis command reference: a command's name, how many words it takes,
//! and where its keys stand among them. `read` makes a command of a request; the bodies of the commands are in the
//! crates above, which dispatch by the same rows.
#![tactic(auto)]

mod arity;
mod command;
mod family;
mod hash_commands;
mod key_commands;
mod list_commands;
mod local_commands;
mod reading;
mod refusal;
mod row_heads;
mod rows;
mod set_commands;
mod string_commands;
mod told;
mod words;

pub use command::{Command, keys_of, name};
pub use hash_commands::HashCommand;
pub use key_commands::KeyCommand;
pub use list_commands::{ListCommand, Side};
pub use local_commands::LocalCommand;
pub use reading::read;
pub use refusal::{CommandName, Refusal};
pub use set_commands::SetCommand;
pub use string_commands::{Condition, StringCommand};
pub use told::Keys;
