//! Shapes: what a picture is drawn of.

ghost use Rattle.std.specs.Prelude.{◌≡◌, ◌++◌, [], ◌∷◌, ◌≤◌, ◌<◌, ◌^◌, None, Some, false, OnOk};
ghost use Rattle.picture_shapes.specs.Labels.{text_of};
ghost use Rattle.picture_shapes.specs.Shapes.{shape_of, bar_form, line_form, head_form, diamond_form, colour_of};

use crate::label::{Piece, put_pieces};
use std::alloc::AllocError;
use std::marker::Model;

/// A point, counted from the left and from the top.
#[derive(Clone, Copy)]
pub struct Point {
    pub x: u64,
    pub y: u64,
}

/// Some points, one after another.
#[derive(Clone, Copy)]
pub enum Path {
    Two(Point, Point),
    Three(Point, Point, Point),
    Four(Point, Point, Point, Point),
}

/// What a shape is, and where.
#[derive(Clone, Copy)]
pub enum Form {
    Rect {
        x: u64,
        y: u64,
        width: u64,
        height: u64,
    },
    Disc {
        x: u64,
        y: u64,
        radius: u64,
    },
    Line(Path),
    Area(Path),
    Text {
        x: u64,
        y: u64,
    },
}

/// How a shape looks: the name that the style knows, the colour of its request, and whether that starved.
#[derive(Clone, Copy)]
pub(super) struct Look {
    pub(super) name: &'static str,
    pub(super) colour: Option<u8>,
    pub(super) starved: bool,
}

/// A shape: how it looks, what it is, and its words. The words of a text are what stands there, those of another shape
/// its title. Contracts see the bytes of its name and of its words.
#[derive(Drop)]
pub struct Shape {
    look: Look,
    form: Form,
    words: Vec<u8>,
}

impl Model for Shape {
    ghost use Rattle.picture_shapes.specs.Shapes.{ShapeView};

    ghost Value = { ShapeView };

    ghost view = { λ s. record {
      name = s.look.name.now;
      colour = s.look.colour;
      starved = s.look.starved;
      form = s.form;
      words = s.words.items;
    } };
}

impl Shape {
    /// The name that the style knows.
    pub fn name(&self) -> &'static str
        ensures { result.now ≡ self.now.name }
    {
        self.look.name
    }

    /// The colour of its request, from 0 to 5; none where it is of no request.
    pub fn colour(&self) -> Option<u8>
        ensures { result ≡ self.now.colour }
    {
        self.look.colour
    }

    /// Whether it is of a request that starved.
    pub fn starved(&self) -> bool
        ensures { result ≡ self.now.starved }
    {
        self.look.starved
    }

    /// What it is, and where.
    pub fn form(&self) -> Form
        ensures { result ≡ self.now.form }
    {
        self.form
    }

    /// Its words.
    pub fn words(&self) -> &[u8]
        ensures { result.now ≡ self.now.words }
    {
        self.words.as_slice()
    }
}

/// Appends the shape that looks so, is this, and has the text of these pieces as its words.
pub(super) fn put_shape(
    shapes: &mut Vec<Shape>,
    look: Look,
    form: Form,
    pieces: &[Piece<'_>],
) -> Result<(), AllocError>
    ensures { OnOk result (shapes.new.items
        ≡ shapes.old.items ++ shape_of look.name.now look.colour look.starved form (text_of pieces.now) ∷ []) }
{
    let mut words = Vec::new(*shapes.allocator());
    put_pieces(pieces, &mut words)?;
    shapes.push(Shape { look, form, words })?;
    Ok(())
}

/// How many colours requests have, one after another.
const COLOURS: usize = 6;

impl Look {
    /// That of this name.
    pub(super) fn plain(name: &'static str) -> Self
        ensures name { result.name.now ≡ name.now }
        ensures colour { result.colour ≡ None }
        ensures starved { result.starved ≡ false }
    {
        Look {
            name,
            colour: None,
            starved: false,
        }
    }

    /// That of this name, in the colour of the request with this number.
    pub(super) fn of(name: &'static str, number: usize) -> Self
        ensures name { result.name.now ≡ name.now }
        ensures colour { result.colour ≡ Some (colour_of number) }
        ensures starved { result.starved ≡ false }
    {
        Look {
            name,
            colour: Some((number % COLOURS) as u8),
            starved: false,
        }
    }

    /// The same, of a request that starved where it did.
    pub(super) fn starved_where(self, starved: bool) -> Self {
        Look { starved, ..self }
    }
}

/// A bar between two places, so high.
pub(super) fn bar(x0: u64, y: u64, x1: u64, height: u64) -> Form
    ensures { result ≡ bar_form x0 y x1 height }
{
    Form::Rect {
        x: x0,
        y,
        width: x1.saturating_sub(x0),
        height,
    }
}

/// A line between two points.
pub(super) fn line(x0: u64, y0: u64, x1: u64, y1: u64) -> Form
    ensures { result ≡ line_form x0 y0 x1 y1 }
{
    Form::Line(Path::Two(Point { x: x0, y: y0 }, Point { x: x1, y: y1 }))
}

/// The head of an arrow that comes to this place from the height of its base.
pub(super) fn head(x: u64, y: u64, base: u64) -> Form
    requires left { 4 ≤ x }
    requires right { x < 2 ^ 63 }
    ensures { result ≡ head_form x y base }
{
    Form::Area(Path::Three(
        Point { x, y },
        Point { x: x - 4, y: base },
        Point { x: x + 4, y: base },
    ))
}

/// A square on its tip, round this point.
pub(super) fn diamond(x: u64, y: u64) -> Form
    requires left { 6 ≤ x }
    requires above { 6 ≤ y }
    requires right { x < 2 ^ 63 }
    requires below { y < 2 ^ 63 }
    ensures { result ≡ diamond_form x y }
{
    Form::Area(Path::Four(
        Point { x, y: y - 6 },
        Point { x: x + 6, y },
        Point { x, y: y + 6 },
        Point { x: x - 6, y },
    ))
}
