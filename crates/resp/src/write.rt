//! The bytes of a reply, appended to what is to be sent.
//!
//! Lines end with CR LF; a bulk string and an array begin with their length, as the RESP2 specification says. Whoever
//! serves a connection gathers replies in one buffer by `write_reply`.

ghost use Rattle.std.specs.Prelude.{◌≡◌, ◌<◌, ◌≤◌, ◌+◌, ◌∷◌, ◌++◌, ℕ, List, length, vec_len, vec_capacity, OnOk, OnErr};
ghost use Rattle.std.specs.Fmt.{decimal};
ghost use Rattle.resp.specs.Ascii.{dollar, minus};
ghost use Rattle.resp.specs.Content.{content, error_text};
ghost use Rattle.resp.specs.Text.{crlf, text};

use crate::reply::{ErrorText, Reply};
use crate::size::digit_count;
use itoa::Buffer;
use std::alloc::AllocError;

/// Appends the reply's text. With `AllocError`, where the room of `out` is less than all of it needs and there is no
/// memory for more, `out` is as it was.
pub fn write_reply(reply: &Reply, out: &mut Vec<u8>) -> Result<(), AllocError>
    ensures ok { OnOk result (out.new.items ≡ out.old.items ++ text (content reply.now)) }
    ensures err { OnErr result (out.new.items ≡ out.old.items) }
    ensures capacity { vec_capacity out.old ≤ vec_capacity out.new }
    ensures full { OnErr result (vec_capacity out.old < vec_len out.old + length (text (content reply.now))) }
{
    let start = out.len();
    let written = put(reply, out);
    if written.is_err() {
        out.truncate(start);
    }
    written
}

/// Appends the reply's text, or a part of it where there is no memory for all.
#[tactic(auto, using(crate::proofs::Texts::text_of))]
fn put(reply: &Reply, out: &mut Vec<u8>) -> Result<(), AllocError>
    ensures ok { OnOk result (out.new.items ≡ out.old.items ++ text (content reply.now)) }
    ensures err { OnErr result ((more : List ℕ) × (out.new.items ≡ out.old.items ++ more)) }
    ensures capacity { vec_capacity out.old ≤ vec_capacity out.new }
    ensures full { OnErr result (vec_capacity out.old < vec_len out.old + length (text (content reply.now))) }
{
    match reply {
        Reply::Simple(line) => put_line(b'+', line.as_bytes(), out)?,
        Reply::Error(line) => put_error(line, out)?,
        Reply::Int(n) => put_line(b':', Buffer::new().format(*n).as_bytes(), out)?,
        Reply::Bulk(bytes) => put_bulk(bytes, out)?,
        Reply::Null => out.extend_from_slice(b"$-1\r\n")?,
        Reply::Array(replies) => {
            put_length(b'*', replies.len(), out)?;
            for reply in replies {
                put(reply, out)?;
            }
        }
        Reply::Bulks(texts) => {
            put_length(b'*', texts.len(), out)?;
            out.extend_from_slice(texts.as_bytes())?;
        }
    }
    Ok(())
}

fn put_error(line: &ErrorText, out: &mut Vec<u8>) -> Result<(), AllocError>
    ensures ok { OnOk result (out.new.items ≡ out.old.items ++ minus ∷ error_text line.now ++ crlf) }
    ensures err { OnErr result ((more : List ℕ) × (out.new.items ≡ out.old.items ++ more)) }
    ensures capacity { vec_capacity out.old ≤ vec_capacity out.new }
    ensures full { OnErr result (vec_capacity out.old < vec_len out.old + length (minus ∷ error_text line.now ++ crlf)) }
{
    match line {
        ErrorText::Fixed(line) => put_line(b'-', line.as_bytes(), out)?,
        ErrorText::Arity(name) => {
            out.extend_from_slice(b"-ERR wrong number of arguments for '")?;
            out.extend_from_slice(name.as_bytes())?;
            out.extend_from_slice(b"' command\r\n")?;
        }
    }
    Ok(())
}

/// Appends a line: the byte that says its kind, and the text.
fn put_line(kind: u8, line: &[u8], out: &mut Vec<u8>) -> Result<(), AllocError>
    ensures ok { OnOk result (out.new.items ≡ out.old.items ++ kind ∷ line.now ++ crlf) }
    ensures err { OnErr result ((more : List ℕ) × (out.new.items ≡ out.old.items ++ more)) }
    ensures capacity { vec_capacity out.old ≤ vec_capacity out.new }
    ensures full { OnErr result (vec_capacity out.old < vec_len out.old + length (kind ∷ line.now ++ crlf)) }
{
    out.reserve(line.len() + 3)?;
    out.push_reserved(kind);
    out.extend_from_slice(line)?;
    put_line_end(out);
    Ok(())
}

/// Appends a bulk string: the line that says how long it is, and its bytes on a line of their own. With `AllocError`
/// nothing is appended.
// Inlined, since a reply of many is made by as many calls.
#[inline(always)]
pub(crate) fn put_bulk(bytes: &[u8], out: &mut Vec<u8>) -> Result<(), AllocError>
    ensures ok { OnOk result (out.new.items ≡ out.old.items ++ dollar ∷ decimal (length bytes.now) ++ crlf ++ bytes.now ++ crlf) }
    ensures err { OnErr result (out.new.items ≡ out.old.items) }
    ensures capacity { vec_capacity out.old ≤ vec_capacity out.new }
    ensures full { OnErr result (vec_capacity out.old
        < vec_len out.old + length (dollar ∷ decimal (length bytes.now) ++ crlf ++ bytes.now ++ crlf)) }
{
    out.reserve(digit_count(bytes.len()) + bytes.len() + 5)?;
    put_bulk_line(bytes.len(), out);
    put_bytes(bytes, out);
    put_line_end(out);
    Ok(())
}

/// Appends the line that says how long a bulk string is, for which there is room.
// Most have few bytes: the line of these is put at once, its digits without a buffer.
#[tactic(auto, using(crate::proofs::Sizes::one_digit, crate::proofs::Sizes::two_digits))]
#[inline(always)]
fn put_bulk_line(number: usize, out: &mut Vec<u8>)
    requires { vec_len out.old + length (decimal number) + 3 ≤ vec_capacity out.old }
    ensures items { out.new.items ≡ out.old.items ++ dollar ∷ decimal number ++ crlf }
    ensures len { vec_len out.new ≡ vec_len out.old + length (decimal number) + 3 }
    ensures capacity { vec_capacity out.old ≤ vec_capacity out.new }
{
    if number < 10 {
        put_bytes(&[b'$', b'0' + number as u8, b'\r', b'\n'], out);
    } else if number < 100 {
        let tens = b'0' + (number / 10) as u8;
        let ones = b'0' + (number % 10) as u8;
        put_bytes(&[b'$', tens, ones, b'\r', b'\n'], out);
    } else {
        put_long_line(number, out);
    }
}

/// The same of any length.
#[inline(never)]
fn put_long_line(number: usize, out: &mut Vec<u8>)
    requires { vec_len out.old + length (decimal number) + 3 ≤ vec_capacity out.old }
    ensures items { out.new.items ≡ out.old.items ++ dollar ∷ decimal number ++ crlf }
    ensures len { vec_len out.new ≡ vec_len out.old + length (decimal number) + 3 }
    ensures capacity { vec_capacity out.old ≤ vec_capacity out.new }
{
    out.push_reserved(b'$');
    put_bytes(Buffer::new().format(number).as_bytes(), out);
    put_line_end(out);
}

/// Appends these bytes, for which there is room.
fn put_bytes(bytes: &[u8], out: &mut Vec<u8>)
    requires { vec_len out.old + length bytes.now ≤ vec_capacity out.old }
    ensures items { out.new.items ≡ out.old.items ++ bytes.now }
    ensures len { vec_len out.new ≡ vec_len out.old + length bytes.now }
    ensures capacity { vec_capacity out.old ≤ vec_capacity out.new }
{
    let _ = out.extend_from_slice(bytes);
}

/// Appends CR LF, for which there is room.
fn put_line_end(out: &mut Vec<u8>)
    requires { vec_len out.old + 2 ≤ vec_capacity out.old }
    ensures items { out.new.items ≡ out.old.items ++ crlf }
    ensures len { vec_len out.new ≡ vec_len out.old + 2 }
    ensures capacity { vec_capacity out.new ≡ vec_capacity out.old }
{
    out.push_reserved(b'\r');
    out.push_reserved(b'\n');
}

/// Appends the line that says how long a bulk string or an array is.
fn put_length(kind: u8, number: usize, out: &mut Vec<u8>) -> Result<(), AllocError>
    ensures ok { OnOk result (out.new.items ≡ out.old.items ++ kind ∷ decimal number ++ crlf) }
    ensures err { OnErr result ((more : List ℕ) × (out.new.items ≡ out.old.items ++ more)) }
    ensures capacity { vec_capacity out.old ≤ vec_capacity out.new }
    ensures full { OnErr result (vec_capacity out.old < vec_len out.old + length (kind ∷ decimal number ++ crlf)) }
{
    put_line(kind, Buffer::new().format(number).as_bytes(), out)
}
