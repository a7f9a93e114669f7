//! PING and ECHO.

ghost use Rattle.std.specs.Prelude.{◌≡◌};
ghost use Rattle.tasks.specs.LocalCommand.{local_reply, ping_reply};
ghost use Rattle.resp.specs.Content.{BulkText, content};

use command_table::{LocalCommand, command_rows};
use resp::Reply;
use texts::Text;

macro_rules! local_rows {
    ([$command:expr] $((
        $name:literal, $arity:ident($number:literal), $span:tt, $variant:ident { $($field:ident),* }, $read:ident, $body:ident
    ),)*) => {
        match $command {
            $(LocalCommand::$variant { $($field),* } => $body($($field),*),)*
        }
    };
}

/// Answers a command that looks at no key. It takes no memory: a word that is sent back is the one that came.
pub fn local(command: LocalCommand) -> Reply
    ensures { content result ≡ local_reply command }
{
    command_rows!(local, local_rows, command)
}

/// `PING [word]`: the word, or `PONG`. <https://redis.io/docs/latest/commands/ping/>
#[tactic(auto, using(resp::proofs::Contents::content_of))]
fn ping(word: Option<Text>) -> Reply
    ensures { content result ≡ ping_reply word }
{
    match word {
        None => Reply::Simple("PONG"),
        Some(word) => Reply::Bulk(word.into_vec()),
    }
}

/// `ECHO word`: the word. <https://redis.io/docs/latest/commands/echo/>
#[tactic(auto, using(resp::proofs::Contents::content_of))]
fn echo(word: Text) -> Reply
    ensures { content result ≡ BulkText word }
{
    Reply::Bulk(word.into_vec())
}
