//! The text of a shape: an element of SVG.

ghost use Rattle.std.specs.Prelude.{◌≡◌, ◌++◌, OnOk};
ghost use Rattle.std.specs.List.{flat_map};
ghost use Rattle.picture_shapes.specs.Svg.{character, class_text, element, inside_text, path_text, place_text, tag};

use crate::{ARROW, ELLIPSIS, Form, MIDDLE_DOT, Path, Piece, Shape, put_pieces};
use std::alloc::AllocError;

/// Appends a shape's element, and LF.
pub(super) fn put_element(shape: &Shape, out: &mut Vec<u8>) -> Result<(), AllocError>
    ensures { OnOk result (out.new.items ≡ out.old.items ++ element shape.now) }
{
    let form = shape.form();
    out.extend_from_slice(b"<")?;
    out.extend_from_slice(tag(&form))?;
    put_class(shape, out)?;
    put_place(&form, out)?;
    put_inside(&form, shape.words(), out)
}

/// The name of a form's element.
fn tag(form: &Form) -> &'static [u8]
    ensures { result.now ≡ tag form.now }
{
    match form {
        Form::Rect { .. } => b"rect",
        Form::Disc { .. } => b"circle",
        Form::Line(_) => b"polyline",
        Form::Area(_) => b"polygon",
        Form::Text { .. } => b"text",
    }
}

/// Appends a shape's class: its name, its colour, if there is one, and whether its request starved.
fn put_class(shape: &Shape, out: &mut Vec<u8>) -> Result<(), AllocError>
    ensures { OnOk result (out.new.items ≡ out.old.items ++ class_text shape.now) }
{
    let starved: &[u8] = if shape.starved() { b" bad" } else { b"" };
    out.extend_from_slice(b" class=\"")?;
    out.extend_from_slice(shape.name().as_bytes())?;
    if let Some(number) = shape.colour() {
        put_pieces(&[Piece::Text(b" c"), Piece::Number(u64::from(number))], out)?;
    }
    out.extend_from_slice(starved)?;
    out.extend_from_slice(b"\" ")
}

/// Appends where a form is.
fn put_place(form: &Form, out: &mut Vec<u8>) -> Result<(), AllocError>
    ensures { OnOk result (out.new.items ≡ out.old.items ++ place_text form.now) }
{
    match form {
        Form::Rect {
            x,
            y,
            width,
            height,
        } => put_pieces(
            &[
                Piece::Text(b"x=\""),
                Piece::Number(*x),
                Piece::Text(b"\" y=\""),
                Piece::Number(*y),
                Piece::Text(b"\" width=\""),
                Piece::Number(*width),
                Piece::Text(b"\" height=\""),
                Piece::Number(*height),
                Piece::Text(b"\""),
            ],
            out,
        ),
        Form::Disc { x, y, radius } => put_pieces(
            &[
                Piece::Text(b"cx=\""),
                Piece::Number(*x),
                Piece::Text(b"\" cy=\""),
                Piece::Number(*y),
                Piece::Text(b"\" r=\""),
                Piece::Number(*radius),
                Piece::Text(b"\""),
            ],
            out,
        ),
        Form::Line(path) | Form::Area(path) => put_path(path, out),
        Form::Text { x, y } => put_pieces(
            &[
                Piece::Text(b"x=\""),
                Piece::Number(*x),
                Piece::Text(b"\" y=\""),
                Piece::Number(*y),
                Piece::Text(b"\""),
            ],
            out,
        ),
    }
}

/// Appends the points of a path.
fn put_path(path: &Path, out: &mut Vec<u8>) -> Result<(), AllocError>
    ensures { OnOk result (out.new.items ≡ out.old.items ++ path_text path.now) }
{
    match path {
        Path::Two(first, second) => put_pieces(
            &[
                Piece::Text(b"points=\""),
                Piece::Number(first.x),
                Piece::Text(b","),
                Piece::Number(first.y),
                Piece::Text(b" "),
                Piece::Number(second.x),
                Piece::Text(b","),
                Piece::Number(second.y),
                Piece::Text(b"\""),
            ],
            out,
        ),
        Path::Three(first, second, third) => put_pieces(
            &[
                Piece::Text(b"points=\""),
                Piece::Number(first.x),
                Piece::Text(b","),
                Piece::Number(first.y),
                Piece::Text(b" "),
                Piece::Number(second.x),
                Piece::Text(b","),
                Piece::Number(second.y),
                Piece::Text(b" "),
                Piece::Number(third.x),
                Piece::Text(b","),
                Piece::Number(third.y),
                Piece::Text(b"\""),
            ],
            out,
        ),
        Path::Four(first, second, third, fourth) => put_pieces(
            &[
                Piece::Text(b"points=\""),
                Piece::Number(first.x),
                Piece::Text(b","),
                Piece::Number(first.y),
                Piece::Text(b" "),
                Piece::Number(second.x),
                Piece::Text(b","),
                Piece::Number(second.y),
                Piece::Text(b" "),
                Piece::Number(third.x),
                Piece::Text(b","),
                Piece::Number(third.y),
                Piece::Text(b" "),
                Piece::Number(fourth.x),
                Piece::Text(b","),
                Piece::Number(fourth.y),
                Piece::Text(b"\""),
            ],
            out,
        ),
    }
}

/// Appends the words within an element, its end, and LF: the words of a text stand there, and those of another shape are
/// its title.
fn put_inside(form: &Form, words: &[u8], out: &mut Vec<u8>) -> Result<(), AllocError>
    ensures { OnOk result (out.new.items ≡ out.old.items ++ inside_text form.now words.now) }
{
    if let Form::Text { .. } = form {
        out.extend_from_slice(b">")?;
        put_escaped(words, out)?;
        return out.extend_from_slice(b"</text>\n");
    }
    if words.is_empty() {
        return out.extend_from_slice(b"/>\n");
    }
    out.extend_from_slice(b"><title>")?;
    put_escaped(words, out)?;
    let end = [
        Piece::Text(b"</title></"),
        Piece::Text(tag(form)),
        Piece::Text(b">\n"),
    ];
    put_pieces(&end, out)
}

/// Appends a label's characters.
pub(super) fn put_escaped(words: &[u8], out: &mut Vec<u8>) -> Result<(), AllocError>
    ensures { OnOk result (out.new.items ≡ out.old.items ++ flat_map character words.now) }
{
    for byte in words {
        put_character(*byte, out)?;
    }
    Ok(())
}

/// Appends a character of a label: what means something to XML as its entity, a sign by its number, and a byte that is
/// no character as the sign of that.
fn put_character(byte: u8, out: &mut Vec<u8>) -> Result<(), AllocError>
    ensures { OnOk result (out.new.items ≡ out.old.items ++ character byte) }
{
    match byte {
        b'&' => out.extend_from_slice(b"&amp;"),
        b'<' => out.extend_from_slice(b"&lt;"),
        b'>' => out.extend_from_slice(b"&gt;"),
        b'"' => out.extend_from_slice(b"&quot;"),
        ELLIPSIS => out.extend_from_slice(b"&#8230;"),
        MIDDLE_DOT => out.extend_from_slice(b"&#183;"),
        ARROW => out.extend_from_slice(b"&#8594;"),
        b' '..=b'~' => Ok(out.push(byte)?),
        _ => out.extend_from_slice(b"&#65533;"),
    }
}
