//! Whether a reply says that there was no memory.

ghost use Rattle.std.specs.Prelude.{◌≡◌, codes};
ghost use Rattle.std.specs.Str.{bytes_eq};
ghost use Rattle.tasks.specs.Starved.{is_want};
ghost use Rattle.resp.specs.Content.{content, error_text};

use resp::{ErrorText, Reply};

/// Whether the reply is `ERR out of memory`, by which a member of an EXEC tells that it starved.
#[tactic(auto, using(resp::proofs::Contents::content_of))]
pub fn is_want_reply(reply: &Reply) -> bool
    ensures { result ≡ is_want (content reply.now) }
{
    match reply {
        Reply::Error(line) => is_want_line(line),
        Reply::Simple(_) | Reply::Int(_) | Reply::Bulk(_) | Reply::Null => false,
        Reply::Array(_) | Reply::Bulks(_) => false,
    }
}

/// Whether an error says so.
fn is_want_line(line: &ErrorText) -> bool
    ensures { result ≡ bytes_eq (error_text line.now) (codes "ERR out of memory") }
{
    match line {
        ErrorText::Fixed(text) => text.as_bytes() == b"ERR out of memory".as_slice(),
        ErrorText::Arity(_) => false,
    }
}
