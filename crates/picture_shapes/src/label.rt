//! Labels: a character a byte. Printable ASCII stands for itself, and three bytes beyond it for signs.

ghost use Rattle.std.specs.Prelude.{◌≡◌, ◌++◌, OnOk, IfOk, decimal};
ghost use Rattle.picture_shapes.specs.Labels.{piece_text, text_of, cut_label};

use groups::{RequestId, Stamp};
use itoa::Buffer;
use std::alloc::{AllocError, Global};

/// The byte that stands for an ellipsis.
pub const ELLIPSIS: u8 = 0x80;

/// The byte that stands for a dot at middle height.
pub const MIDDLE_DOT: u8 = 0x81;

/// The byte that stands for an arrow to the right.
pub const ARROW: u8 = 0x82;

/// A piece of a text.
#[derive(Clone, Copy)]
pub enum Piece<'a> {
    Text(&'a [u8]),
    /// In decimal digits.
    Number(u64),
    /// A connection and the number of a request there, with a dot between them.
    Id(RequestId),
    /// A clock and a group, in parentheses.
    Stamp(Stamp),
}

/// Appends the text of these pieces. With `AllocError` a part of it may stand there.
pub fn put_pieces(pieces: &[Piece<'_>], out: &mut Vec<u8>) -> Result<(), AllocError>
    ensures { OnOk result (out.new.items ≡ out.old.items ++ text_of pieces.now) }
{
    for piece in pieces {
        put_piece(piece, out)?;
    }
    Ok(())
}

/// Appends the text of a piece.
fn put_piece(piece: &Piece<'_>, out: &mut Vec<u8>) -> Result<(), AllocError>
    ensures { OnOk result (out.new.items ≡ out.old.items ++ piece_text piece.now) }
{
    match piece {
        Piece::Text(bytes) => out.extend_from_slice(bytes),
        Piece::Number(number) => put_number(*number, out),
        Piece::Id(id) => {
            put_number(id.conn.0, out)?;
            out.push(b'.')?;
            put_number(id.seq, out)
        }
        Piece::Stamp(stamp) => {
            out.push(b'(')?;
            put_number(stamp.clock, out)?;
            out.push(b',')?;
            put_number(u64::from(stamp.group.number()), out)?;
            out.extend_from_slice(b")")
        }
    }
}

/// Appends a number in decimal digits.
fn put_number(number: u64, out: &mut Vec<u8>) -> Result<(), AllocError>
    ensures { OnOk result (out.new.items ≡ out.old.items ++ decimal number) }
{
    out.extend_from_slice(Buffer::new().format(number).as_bytes())
}

/// The text of these pieces.
pub(super) fn text(alloc: Global, pieces: &[Piece<'_>]) -> Result<Vec<u8>, AllocError>
    ensures { IfOk result (λ text. text.items ≡ text_of pieces.now) }
{
    let mut text = Vec::new(alloc);
    put_pieces(pieces, &mut text)?;
    Ok(text)
}

/// Cuts the label to this many characters: what is cut ends with an ellipsis, and one character is no label.
pub fn cut(label: &mut Vec<u8>, room: usize) -> Result<(), AllocError>
    ensures { OnOk result (label.new.items ≡ cut_label room label.old.items) }
{
    if label.len() <= room {
        return Ok(());
    }
    if room < 2 {
        label.clear();
        return Ok(());
    }
    label.truncate(room - 1);
    label.push(ELLIPSIS)?;
    Ok(())
}
