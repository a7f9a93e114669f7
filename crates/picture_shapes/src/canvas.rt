//! What a picture is drawn on: its ground, the bars on its connections and layers, and its labels. Want of memory is kept
//! until the end, so that what is drawn needn't look at it.

use crate::label::{Piece, cut, text};
use crate::shape::{Form, Look, Shape, put_shape};
use std::alloc::{AllocError, Global};

/// How wide a character of the usual size is.
pub(super) const CHARACTER: u64 = 7;

/// How wide a small character is.
pub(super) const SMALL: u64 = 6;

/// Three lists of shapes, and whether there was memory for all of them.
#[derive(Drop)]
pub(super) struct Canvas {
    pub(super) alloc: Global,
    pub(super) ground: Vec<Shape>,
    pub(super) bars: Vec<Shape>,
    pub(super) labels: Vec<Shape>,
    pub(super) state: Result<(), AllocError>,
}

impl Canvas {
    /// Nothing is drawn.
    pub(super) fn new(alloc: Global) -> Self {
        Canvas {
            alloc,
            ground: Vec::new(alloc),
            bars: Vec::new(alloc),
            labels: Vec::new(alloc),
            state: Ok(()),
        }
    }

    /// Keeps that there was no memory.
    fn keep(&mut self, put: Result<(), AllocError>) {
        if put.is_err() {
            self.state = put;
        }
    }

    /// Draws a shape without words on the ground.
    pub(super) fn ground(&mut self, look: Look, form: Form) {
        let put = put_shape(&mut self.ground, look, form, &[]);
        self.keep(put);
    }

    /// Draws a shape with these words among the bars.
    pub(super) fn bar(&mut self, look: Look, form: Form, words: &[Piece<'_>]) {
        let put = put_shape(&mut self.bars, look, form, words);
        self.keep(put);
    }

    /// Writes a label.
    pub(super) fn write(&mut self, look: Look, x: u64, y: u64, words: &[Piece<'_>]) {
        let put = put_shape(&mut self.labels, look, Form::Text { x, y }, words);
        self.keep(put);
    }

    /// Writes a label of characters that are so wide where it ends at or before this place.
    pub(super) fn write_within(
        &mut self,
        look: Look,
        (x, y): (u64, u64),
        words: &[Piece<'_>],
        end: u64,
        width: u64,
    ) {
        match text(self.alloc, words) {
            Ok(label) => {
                if width.saturating_mul(label.len() as u64) <= end.saturating_sub(x) {
                    self.write(look, x, y, &[Piece::Text(label.as_slice())]);
                }
            }
            Err(error) => self.state = Err(error),
        }
    }

    /// Writes the first label, and the rest behind a space, in this many characters. The first is never cut: it stands
    /// alone where there is no room for two more characters, or not at all.
    pub(super) fn write_cut(
        &mut self,
        look: Look,
        (x, y): (u64, u64),
        first: &[Piece<'_>],
        rest: &[Piece<'_>],
        room: u64,
    ) {
        match cut_after(self.alloc, first, rest, room as usize) {
            Ok(label) => {
                if !label.is_empty() {
                    self.write(look, x, y, &[Piece::Text(label.as_slice())]);
                }
            }
            Err(error) => self.state = Err(error),
        }
    }
}

/// The first label, and the rest behind a space, in this many characters.
fn cut_after(
    alloc: Global,
    first: &[Piece<'_>],
    rest: &[Piece<'_>],
    room: usize,
) -> Result<Vec<u8>, AllocError> {
    let mut label = text(alloc, first)?;
    let mut rest = text(alloc, rest)?;
    if label.len() > room {
        label.clear();
    } else if room - label.len() > 2 {
        cut(&mut rest, room - label.len() - 1)?;
        if !rest.is_empty() && !label.is_empty() {
            label.extend_from_slice(b" ")?;
        }
        label.extend_from_slice(rest.as_slice())?;
    }
    Ok(label)
}

/// How many characters that are so wide have room between two places, but for this much.
pub(super) fn room_between(x0: u64, x1: u64, margin: u64, width: u64) -> u64 {
    x1.saturating_sub(x0).saturating_sub(margin) / width.max(1)
}
