//! The arrows of a picture: the line of each request to its groups, the way of each reply, and the line of each packet.

ghost use Rattle.std.specs.Prelude.{◌≡◌, ◌++◌, OnOk, IfOk};
ghost use Rattle.std.specs.List.{flat_map};
ghost use Rattle.picture_shapes.specs.Arrows.{arrows_of, backs_of, drops_of, lines_of};

use crate::facts::{PacketFacts, ReplyFacts, RequestFacts, RunFacts};
use crate::frame::Frame;
use crate::label::Piece;
use crate::shape::{Form, Look, Shape, line, put_shape};
use crate::titles::packet_title;
use crate::ways::way_of;
use std::alloc::{AllocError, Global};

/// The arrows of a run within a frame.
pub(super) fn arrows_of(
    alloc: Global,
    run: &RunFacts,
    frame: &Frame,
) -> Result<Vec<Shape>, AllocError>
    ensures { IfOk result (λ arrows. arrows.items ≡ arrows_of frame.now run.now) }
{
    let mut arrows = Vec::new(alloc);
    put_drops(run.requests.as_slice(), frame, &mut arrows)?;
    put_backs(run.replies.as_slice(), frame, &mut arrows)?;
    put_lines(alloc, run.packets.as_slice(), frame, &mut arrows)?;
    Ok(arrows)
}

/// Appends the lines from the requests to their groups.
fn put_drops(
    requests: &[RequestFacts],
    frame: &Frame,
    arrows: &mut Vec<Shape>,
) -> Result<(), AllocError>
    ensures { OnOk result (arrows.new.items ≡ arrows.old.items ++ flat_map (drops_of frame.now) requests.now) }
{
    for request in requests {
        put_drop(request, frame, arrows)?;
    }
    Ok(())
}

/// Appends the line from a connection to its groups, where the request goes to any within the window.
fn put_drop(
    request: &RequestFacts,
    frame: &Frame,
    arrows: &mut Vec<Shape>,
) -> Result<(), AllocError>
    ensures { OnOk result (arrows.new.items ≡ arrows.old.items ++ drops_of frame.now request.now) }
{
    let Some(row) = frame.row(request.asked.id.conn) else {
        return Ok(());
    };
    if !frame.shows(request.submit) || request.is_answered_at_once() {
        return Ok(());
    }
    let x = frame.x(request.submit);
    let look = Look::of("drop", request.asked.number);
    put_shape(arrows, look, line(x, row + 24, x, frame.gate()), &[])
}

/// Appends the ways of the replies.
fn put_backs(
    replies: &[ReplyFacts],
    frame: &Frame,
    arrows: &mut Vec<Shape>,
) -> Result<(), AllocError>
    ensures { OnOk result (arrows.new.items ≡ arrows.old.items ++ flat_map (backs_of frame.now) replies.now) }
{
    for reply in replies {
        put_back(reply, frame, arrows)?;
    }
    Ok(())
}

/// Appends the way of a reply from its layer to its connection, where it goes there within the window.
fn put_back(reply: &ReplyFacts, frame: &Frame, arrows: &mut Vec<Shape>) -> Result<(), AllocError>
    ensures { OnOk result (arrows.new.items ≡ arrows.old.items ++ backs_of frame.now reply.now) }
{
    let Some(row) = frame.row(reply.asked.id.conn) else {
        return Ok(());
    };
    if !frame.shows(reply.step) {
        return Ok(());
    }
    let x = frame.x(reply.step);
    let look = Look::of("back", reply.asked.number);
    put_shape(arrows, look, line(x, frame.strip(), x, row + 31), &[])
}

/// Appends the lines of the packets that are under way within the window.
fn put_lines(
    alloc: Global,
    packets: &[PacketFacts],
    frame: &Frame,
    arrows: &mut Vec<Shape>,
) -> Result<(), AllocError>
    ensures { OnOk result (arrows.new.items ≡ arrows.old.items ++ flat_map (lines_of frame.now) packets.now) }
{
    for packet in packets {
        put_line(alloc, packet, frame, arrows)?;
    }
    Ok(())
}

/// Appends the line of a packet that is under way within the window.
fn put_line(
    alloc: Global,
    packet: &PacketFacts,
    frame: &Frame,
    arrows: &mut Vec<Shape>,
) -> Result<(), AllocError>
    ensures { OnOk result (arrows.new.items ≡ arrows.old.items ++ lines_of frame.now packet.now) }
{
    if packet.sent >= frame.to() || frame.is_past(packet.received) {
        return Ok(());
    }
    let title = packet_title(alloc, packet)?;
    let look = Look::of("packet", packet.asked.number);
    let form = Form::Line(way_of(packet, frame));
    put_shape(arrows, look, form, &[Piece::Text(title.as_slice())])
}
