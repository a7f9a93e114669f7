//! Replies that many commands give. None takes memory to make.

ghost use Rattle.std.specs.Prelude.{◌≡◌};
ghost use Rattle.command_cases.specs.Replies.{ok, count, truth, wrong_type, no_such_key, would_overflow};
ghost use Rattle.resp.specs.Content.{content};

use resp::{ErrorText, Reply};

/// The greatest number that an integer reply says; it stands for all above too.
pub const GREATEST_COUNT: usize = 9223372036854775807;

/// `OK`: done, and nothing more to say.
pub fn ok_reply() -> Reply
    ensures { content result ≡ ok }
{
    Reply::Simple("OK")
}

/// The number of something as a reply: an integer reply goes up to 9223372036854775807, and stands for all above too.
pub fn count_reply(number: usize) -> Reply
    ensures { content result ≡ count number }
{
    Reply::Int(i64::try_from(number).unwrap_or(i64::MAX))
}

/// Whether something is so: the integer 1 or 0.
pub fn truth_reply(so: bool) -> Reply
    ensures { content result ≡ truth so }
{
    Reply::Int(if so { 1 } else { 0 })
}

/// That a key holds a value of another kind than the command is for.
pub fn wrong_type_reply() -> Reply
    ensures { content result ≡ wrong_type }
{
    Reply::Error(ErrorText::Fixed(
        "WRONGTYPE Operation against a key holding the wrong kind of value",
    ))
}

/// That a key that the command needs is missing.
pub fn no_such_key_reply() -> Reply
    ensures { content result ≡ no_such_key }
{
    Reply::Error(ErrorText::Fixed("ERR no such key"))
}

/// That a sum doesn't fit 64 bits with sign.
pub fn would_overflow_reply() -> Reply
    ensures { content result ≡ would_overflow }
{
    Reply::Error(ErrorText::Fixed("ERR increment or decrement would overflow"))
}
