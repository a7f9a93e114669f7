//! The labels of words and replies, in printable ASCII: other bytes, and the backslash, are `\xNN`.

ghost use Rattle.std.specs.Prelude.{◌<◌};

use picture_shapes::{ELLIPSIS, Piece, cut, put_pieces};
use resp::{BulkTexts, Reply, Request, write_reply};
use std::alloc::{AllocError, Global};

/// How many words of a request, and items of an array, a label has.
const MOST: usize = 8;

/// How many characters of a word a label has.
pub(super) const SHORT: usize = 12;

/// How many characters of a word a title has.
pub(super) const LONG: usize = 32;

/// How many characters of a bulk string a label has.
const BULK: usize = 24;

/// The label of a null.
const NIL: &[u8] = b"nil";

/// The label of a request's words, each cut to so many characters.
pub(super) fn words_label(
    alloc: Global,
    words: &Request,
    each: usize,
) -> Result<Vec<u8>, AllocError> {
    let mut label = Vec::new(alloc);
    for place in 0..words.len().min(MOST) {
        if place > 0 {
            label.push(b' ')?;
        }
        put_word(alloc, words.word(place), each, &mut label)?;
    }
    if words.len() > MOST {
        label.extend_from_slice(&[b' ', ELLIPSIS])?;
    }
    Ok(label)
}

/// The label of a request that runs a list of so many members.
pub(super) fn list_label(alloc: Global, members: u64) -> Result<Vec<u8>, AllocError> {
    let mut label = Vec::new(alloc);
    put_pieces(&[Piece::Text(b"exec "), Piece::Number(members)], &mut label)?;
    Ok(label)
}

/// The title of such a request.
pub(super) fn list_title(alloc: Global, members: u64) -> Result<Vec<u8>, AllocError> {
    let mut title = Vec::new(alloc);
    put_pieces(
        &[Piece::Text(b"exec, members: "), Piece::Number(members)],
        &mut title,
    )?;
    Ok(title)
}

/// Appends a word, cut to so many characters; quoted where it is empty or has a blank.
fn put_word(alloc: Global, word: &[u8], each: usize, out: &mut Vec<u8>) -> Result<(), AllocError> {
    let shown = shown(alloc, word, each)?;
    if word.is_empty() || word.contains(&b' ') {
        return put_quoted(shown.as_slice(), out);
    }
    out.extend_from_slice(shown.as_slice())
}

/// Appends a text between quotation marks.
fn put_quoted(text: &[u8], out: &mut Vec<u8>) -> Result<(), AllocError> {
    out.extend_from_slice(b"\"")?;
    out.extend_from_slice(text)?;
    out.extend_from_slice(b"\"")
}

/// The bytes in printable ASCII, cut to so many characters.
fn shown(alloc: Global, bytes: &[u8], room: usize) -> Result<Vec<u8>, AllocError> {
    let mut shown = Vec::new(alloc);
    for byte in bytes {
        if shown.len() > room {
            break;
        }
        put_byte(*byte, &mut shown)?;
    }
    cut(&mut shown, room)?;
    Ok(shown)
}

/// Appends a byte in printable ASCII.
fn put_byte(byte: u8, out: &mut Vec<u8>) -> Result<(), AllocError> {
    if byte >= b' ' && byte <= b'~' && byte != b'\\' {
        out.push(byte)?;
        return Ok(());
    }
    out.extend_from_slice(&[b'\\', b'x', digit(byte / 16), digit(byte % 16)])
}

/// A digit of a number to the base 16.
fn digit(value: u8) -> u8
    requires { value < 16 }
{
    if value < 10 {
        b'0' + value
    } else {
        b'A' + (value - 10)
    }
}

/// The label of a reply.
pub(super) fn reply_label(alloc: Global, reply: &Reply) -> Result<Vec<u8>, AllocError> {
    let mut label = Vec::new(alloc);
    put_reply(alloc, reply, &mut label)?;
    Ok(label)
}

/// Appends the label of a reply.
fn put_reply(alloc: Global, reply: &Reply, out: &mut Vec<u8>) -> Result<(), AllocError> {
    match reply {
        Reply::Simple(_) | Reply::Int(_) => put_line(alloc, reply, 1, out),
        Reply::Error(_) => put_line(alloc, reply, 0, out),
        Reply::Bulk(bytes) => put_text(alloc, bytes.as_slice(), out),
        Reply::Null => out.extend_from_slice(NIL),
        Reply::Array(replies) => {
            out.extend_from_slice(b"[")?;
            for (place, reply) in replies.iter().enumerate() {
                if place >= MOST {
                    break;
                }
                if place > 0 {
                    out.push(b' ')?;
                }
                put_reply(alloc, reply, out)?;
            }
            put_end(replies.len(), out)
        }
        Reply::Bulks(texts) => put_texts(alloc, texts, out),
    }
}

/// Appends the label of an array of bulk strings and nulls.
fn put_texts(alloc: Global, texts: &BulkTexts, out: &mut Vec<u8>) -> Result<(), AllocError> {
    out.extend_from_slice(b"[")?;
    let first = texts.first(alloc, MOST)?;
    for (place, text) in first.iter().enumerate() {
        if place > 0 {
            out.push(b' ')?;
        }
        match text {
            Some(bytes) => put_text(alloc, bytes, out)?,
            None => out.extend_from_slice(NIL)?,
        }
    }
    put_end(texts.len(), out)
}

/// Appends the label of a bulk string.
fn put_text(alloc: Global, bytes: &[u8], out: &mut Vec<u8>) -> Result<(), AllocError> {
    put_quoted(shown(alloc, bytes, BULK)?.as_slice(), out)
}

/// Appends the end of the label of an array of so many items.
fn put_end(items: usize, out: &mut Vec<u8>) -> Result<(), AllocError> {
    if items > MOST {
        out.extend_from_slice(&[b' ', ELLIPSIS])?;
    }
    out.extend_from_slice(b"]")
}

/// Appends the line of a reply of one line, but for so many bytes of its beginning, and its end.
fn put_line(
    alloc: Global,
    reply: &Reply,
    start: usize,
    out: &mut Vec<u8>,
) -> Result<(), AllocError> {
    let mut line = Vec::new(alloc);
    write_reply(reply, &mut line)?;
    let end = line.len().saturating_sub(2);
    match line.as_slice().get(start..end) {
        Some(text) => out.extend_from_slice(text),
        None => Ok(()),
    }
}
