//! How long the text of a reply is, before it is written.
//!
//! Whoever keeps a text in a block of its own takes a block of just this size by it.

ghost use Rattle.std.specs.Prelude.{◌≡◌, ◌^◌, ◌<◌, ◌≤◌, ◌+◌, ◌∷◌, ◌++◌, ℕ, length};
ghost use Rattle.std.specs.Option.{SomeIff};
ghost use Rattle.std.specs.Fmt.{decimal};
ghost use Rattle.resp.specs.Ascii.{minus};
ghost use Rattle.resp.specs.Content.{BulkText, content, error_text};
ghost use Rattle.resp.specs.Text.{crlf, text};

use crate::reply::{ErrorText, Reply};
use itoa::Buffer;

/// The number of bytes of the reply's text; `None` where it is too large for a `usize`. It takes no memory.
#[tactic(auto, using(crate::proofs::Texts::text_of))]
pub fn text_size(reply: &Reply) -> Option<usize>
    ensures { SomeIff result (length (text (content reply.now)) < 2 ^ 64) (length (text (content reply.now))) }
{
    match reply {
        Reply::Simple(line) => Some(line_size(line.as_bytes())),
        Reply::Error(line) => Some(error_size(line)),
        Reply::Int(n) => Some(line_size(Buffer::new().format(*n).as_bytes())),
        Reply::Bulk(bytes) => Some(bulk_size(bytes)),
        Reply::Null => Some(5),
        Reply::Array(replies) => {
            let mut size = length_size(replies.len());
            for reply in replies {
                size = size.checked_add(text_size(reply)?)?;
            }
            Some(size)
        }
        Reply::Bulks(texts) => length_size(texts.len()).checked_add(texts.as_bytes().len()),
    }
}

/// The number of bytes of the text of a reply of these bytes as a bulk string.
pub fn bulk_size(bytes: &[u8]) -> usize
    ensures { result ≡ length (text (BulkText bytes.now)) }
{
    length_size(bytes.len()) + bytes.len() + 2
}

/// The number of bytes of an error's line.
fn error_size(line: &ErrorText) -> usize
    ensures { result ≡ length (minus ∷ error_text line.now ++ crlf) }
{
    match line {
        ErrorText::Fixed(line) => line_size(line.as_bytes()),
        ErrorText::Arity(name) => name.len() + 47,
    }
}

/// The number of bytes of a line: the byte that says its kind, the text, and the line's end.
fn line_size(line: &[u8]) -> usize
    ensures { (kind : ℕ) → result ≡ length (kind ∷ line.now ++ crlf) }
{
    line.len() + 3
}

/// The number of bytes of the line that says how long a bulk string or an array is.
fn length_size(number: usize) -> usize
    ensures size { (kind : ℕ) → result ≡ length (kind ∷ decimal number ++ crlf) }
    ensures small { result ≤ 23 }
{
    digit_count(number) + 3
}

/// The number of digits of a number.
#[tactic(auto, using(crate::proofs::Sizes::one_digit, crate::proofs::Sizes::two_digits))]
pub(crate) fn digit_count(number: usize) -> usize
    ensures count { result ≡ length (decimal number) }
    ensures few { result ≤ 20 }
{
    if number < 10 {
        1
    } else if number < 100 {
        2
    } else {
        long_digit_count(number)
    }
}

/// The same of any number.
#[inline(never)]
fn long_digit_count(number: usize) -> usize
    ensures count { result ≡ length (decimal number) }
    ensures few { result ≤ 20 }
{
    Buffer::new().format(number).len()
}
