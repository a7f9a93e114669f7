//! What a session answers by itself. None takes memory to make.

ghost use Rattle.std.specs.Prelude.{◌≡◌};
ghost use Rattle.resp.specs.Content.{content};
ghost use Rattle.sessions.specs.Replies.{queued, nested, exec_alone, discard_alone, aborted, no_replies, refused};

use command_table::Refusal;
use resp::{ErrorText, Reply};
use std::alloc::Global;

/// A member was added to the list.
pub(crate) fn queued_reply() -> Reply
    ensures { content result ≡ queued }
{
    Reply::Simple("QUEUED")
}

/// That MULTI came within a list.
pub(crate) fn nested_reply() -> Reply
    ensures { content result ≡ nested }
{
    Reply::Error(ErrorText::Fixed("ERR MULTI calls can not be nested"))
}

/// That EXEC came without a list.
pub(crate) fn exec_alone_reply() -> Reply
    ensures { content result ≡ exec_alone }
{
    Reply::Error(ErrorText::Fixed("ERR EXEC without MULTI"))
}

/// That DISCARD came without a list.
pub(crate) fn discard_alone_reply() -> Reply
    ensures { content result ≡ discard_alone }
{
    Reply::Error(ErrorText::Fixed("ERR DISCARD without MULTI"))
}

/// That the list was spoilt, and is dropped.
pub(crate) fn aborted_reply() -> Reply
    ensures { content result ≡ aborted }
{
    Reply::Error(ErrorText::Fixed("EXECABORT Transaction discarded because of previous errors."))
}

/// The replies of no members.
pub(crate) fn no_replies_reply(alloc: Global) -> Reply
    ensures { content result ≡ no_replies }
{
    Reply::Array(Vec::new(alloc))
}

/// Why words are no command, or no member.
pub(crate) fn refused_reply(refusal: &Refusal) -> Reply
    ensures { content result ≡ refused refusal.now }
{
    Reply::Error(refusal.text())
}
