//! The text of a picture, piece by piece.

ghost use Rattle.std.specs.Prelude.{◌≡◌, ◌++◌, [], OnOk};
ghost use Rattle.std.specs.List.{flat_map};
ghost use Rattle.std.specs.Io.KnownBytes.{Appends, Keeps, append_known};
ghost use Rattle.picture_shapes.specs.Svg.{element, head_text, shapes_of, svg_text, tail_text};

use crate::element::{put_element, put_escaped};
use crate::legend::LEGEND;
use crate::style::STYLE;
use crate::{Picture, Piece, Shape, put_pieces};
use std::alloc::{AllocError, Global};
use std::io::Write;

/// Why a picture's text wasn't written; a part of it may have been.
#[derive(Clone, Copy)]
pub enum SvgFault {
    /// No memory was left for a piece of it.
    Memory,

    /// A write failed.
    Write,
}

impl From<AllocError> for SvgFault {
    fn from(_error: AllocError) -> SvgFault {
        SvgFault::Memory
    }
}

/// About how many bytes of a picture's text are in memory at once.
const PIECE: usize = 64 * 1024;

/// What begins a picture, up to its width.
const OPENING: &str = "<svg xmlns=\"http://www.w3.org/2000/svg\" width=\"";

/// What stands between a picture's size and its description: a title.
const HEADING: &str = "\" role=\"img\" aria-labelledby=\"t d\">\n\
<title id=\"t\">shardkv: a run in space and time</title>\n<desc id=\"d\">";

/// Writes the picture as SVG, by pieces of some 64 KiB. With an error a part of it may have been written.
pub fn write_svg<W: Write>(alloc: Global, picture: &Picture, writer: &mut W) -> Result<(), SvgFault>
    ensures { OnOk result (Appends (W.contents writer.old) (W.contents writer.new) (svg_text picture.now)) }
{
    let mut piece = Vec::with_capacity(alloc, PIECE)?;
    put_head(OPENING, HEADING, STYLE, picture, &mut piece)?;
    send_all(picture, &mut piece, writer)?;
    put_tail(LEGEND, picture.legend, &mut piece)?;
    send(writer, &mut piece)
}

/// Appends what stands before the shapes: this, the size, this, the description, and this style.
#[tactic(auto, unfolding(crate::specs::Svg::head_text))]
fn put_head<'a>(
    opening: &'a str,
    heading: &'a str,
    style: &str,
    picture: &Picture,
    out: &mut Vec<u8>,
) -> Result<(), AllocError>
    ensures { OnOk result (out.new.items ≡ out.old.items ++ head_text opening.now heading.now style.now picture.now) }
{
    let (width, height) = (picture.width, picture.height);
    let size = [
        Piece::Text(opening.as_bytes()),
        Piece::Number(width),
        Piece::Text(b"\" height=\""),
        Piece::Number(height),
        Piece::Text(b"\" viewBox=\"0 0 "),
        Piece::Number(width),
        Piece::Text(b" "),
        Piece::Number(height),
        Piece::Text(heading.as_bytes()),
    ];
    put_pieces(&size, out)?;
    put_escaped(picture.description.as_slice(), out)?;
    out.extend_from_slice(b"</desc>\n")?;
    out.extend_from_slice(style.as_bytes())
}

/// Appends what stands behind the shapes: this legend, at this place.
#[tactic(auto, unfolding(crate::specs::Svg::tail_text))]
fn put_tail(legend: &str, y: u64, out: &mut Vec<u8>) -> Result<(), AllocError>
    ensures { OnOk result (out.new.items ≡ out.old.items ++ tail_text legend.now y) }
{
    let tail = [
        Piece::Text(b"<g transform=\"translate(0,"),
        Piece::Number(y),
        Piece::Text(b")\">\n"),
        Piece::Text(legend.as_bytes()),
        Piece::Text(b"</g>\n</svg>\n"),
    ];
    put_pieces(&tail, out)
}

/// Writes what was put and the elements of the picture's shapes, but for the end of it, which is left put.
fn send_all<W: Write>(
    picture: &Picture,
    piece: &mut Vec<u8>,
    writer: &mut W,
) -> Result<(), SvgFault>
    ensures { OnOk result (Appends (append_known (W.contents writer.old) piece.old.items)
        (append_known (W.contents writer.new) piece.new.items) (flat_map element (shapes_of picture.now))) }
{
    send_shapes(picture.ground.as_slice(), piece, writer)?;
    send_shapes(picture.bands.as_slice(), piece, writer)?;
    send_shapes(picture.arrows.as_slice(), piece, writer)?;
    send_shapes(picture.bars.as_slice(), piece, writer)?;
    send_shapes(picture.marks.as_slice(), piece, writer)?;
    send_shapes(picture.labels.as_slice(), piece, writer)?;
    Ok(())
}

/// Writes what was put and the elements of these shapes, but for the end of it, which is left put.
fn send_shapes<W: Write>(
    shapes: &[Shape],
    piece: &mut Vec<u8>,
    writer: &mut W,
) -> Result<(), SvgFault>
    ensures { OnOk result (Appends (append_known (W.contents writer.old) piece.old.items)
        (append_known (W.contents writer.new) piece.new.items) (flat_map element shapes.now)) }
{
    for shape in shapes {
        put_element(shape, piece)?;
        send_if_full(writer, piece)?;
    }
    Ok(())
}

/// Writes what was put where it is a piece.
fn send_if_full<W: Write>(writer: &mut W, piece: &mut Vec<u8>) -> Result<(), SvgFault>
    ensures { OnOk result (Keeps (append_known (W.contents writer.old) piece.old.items)
        (append_known (W.contents writer.new) piece.new.items)) }
{
    if piece.len() < PIECE {
        return Ok(());
    }
    send(writer, piece)
}

/// Writes what was put, of which nothing is left put.
fn send<W: Write>(writer: &mut W, piece: &mut Vec<u8>) -> Result<(), SvgFault>
    ensures sent { OnOk result (Appends (W.contents writer.old) (W.contents writer.new) piece.old.items) }
    ensures empty { OnOk result (piece.new.items ≡ []) }
{
    let Ok(()) = writer.write_all(piece.as_slice()) else {
        return Err(SvgFault::Write);
    };
    piece.clear();
    Ok(())
}
