//! The facts of a run, to its picture.

ghost use Rattle.std.specs.Prelude.{IfOk};
ghost use Rattle.picture_shapes.specs.Drawn.{IsPictureOf};

use crate::arrows::arrows_of;
use crate::bands::bands_of;
use crate::canvas::Canvas;
use crate::facts::RunFacts;
use crate::frame::Frame;
use crate::heading::draw_heading;
use crate::lanes::{draw_connections, draw_groups, draw_steps};
use crate::layers::{draw_layers, draw_replies};
use crate::marks::marks_of;
use crate::packets::draw_packets;
use crate::receipts::{label_deliveries, label_receipts};
use crate::requests::draw_requests;
use crate::shape::Shape;
use std::alloc::{AllocError, Global};

/// A picture: its size, where its legend begins, what it says in words, and its shapes in six lists. What is drawn later
/// covers what was drawn before: the ground, then the bands of layers, arrows, the bars of requests and connections, the
/// marks of receipts and deliveries, and labels.
#[derive(Drop)]
pub struct Picture {
    pub width: u64,
    pub height: u64,
    pub legend: u64,
    pub description: Vec<u8>,
    pub ground: Vec<Shape>,
    pub bands: Vec<Shape>,
    pub arrows: Vec<Shape>,
    pub bars: Vec<Shape>,
    pub marks: Vec<Shape>,
    pub labels: Vec<Shape>,
}

/// The picture of the steps from the first to before the last of these, as far as the run has them. The only error is
/// want of memory.
pub fn picture_of(
    alloc: Global,
    run: &RunFacts,
    from: usize,
    to: usize,
) -> Result<Picture, AllocError>
    ensures { IfOk result (IsPictureOf run.now from to) }
{
    let frame = Frame::new(alloc, run, from, to)?;
    let bands = bands_of(alloc, run, &frame)?;
    let arrows = arrows_of(alloc, run, &frame)?;
    let marks = marks_of(alloc, run, &frame)?;
    let mut canvas = Canvas::new(alloc);
    draw_all(alloc, run, &frame, &mut canvas);
    let description = draw_heading(alloc, run, &frame, &mut canvas)?;
    let Canvas {
        alloc: _,
        ground,
        bars,
        labels,
        state,
    } = canvas;
    state?;
    let bottom = frame.below(run.groups);
    Ok(Picture {
        width: frame.width(),
        height: bottom + 132,
        legend: bottom + 14,
        description,
        ground,
        bands,
        arrows,
        bars,
        marks,
        labels,
    })
}

/// Draws the ground, the bars and the labels.
fn draw_all(alloc: Global, run: &RunFacts, frame: &Frame, canvas: &mut Canvas) {
    draw_steps(run, frame, canvas);
    draw_groups(run, frame, canvas);
    draw_connections(run.connections.as_slice(), frame, canvas);
    draw_requests(run.requests.as_slice(), frame, canvas);
    draw_layers(run.layers.as_slice(), frame, canvas);
    draw_replies(run.replies.as_slice(), frame, canvas);
    draw_packets(alloc, run.packets.as_slice(), frame, canvas);
    label_receipts(run.receipts.as_slice(), frame, canvas);
    label_deliveries(run.deliveries.as_slice(), frame, canvas);
}
