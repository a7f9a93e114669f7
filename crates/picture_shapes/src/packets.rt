//! Packets that are under way behind the window: a mark at the right edge, and the id of each.

use crate::canvas::Canvas;
use crate::facts::PacketFacts;
use crate::frame::Frame;
use crate::label::{ELLIPSIS, Piece};
use crate::shape::{Form, Look, Path, Point};
use crate::titles::packet_title;
use std::alloc::Global;

/// How many ids stand one below another where packets are under way behind the window.
const WAITING: u8 = 3;

/// The packets that are under way behind the window.
pub(super) fn draw_packets(
    alloc: Global,
    packets: &[PacketFacts],
    frame: &Frame,
    canvas: &mut Canvas,
) {
    let mut waiting = [0u8; 64];
    for packet in packets {
        if packet.sent < frame.to() && frame.is_behind(packet.received) {
            let place = usize::from(packet.to.number());
            draw_waiting(alloc, packet, waiting[place], frame, canvas);
            waiting[place] = waiting[place].saturating_add(1).min(WAITING + 1);
        }
    }
}

/// The mark of a packet that isn't received within the window, and its id behind it, below so many others.
fn draw_waiting(
    alloc: Global,
    packet: &PacketFacts,
    others: u8,
    frame: &Frame,
    canvas: &mut Canvas,
) {
    let (x, y) = (frame.end(), frame.line(packet.to));
    let above = Point { x: x - 5, y: y - 5 };
    let below = Point { x: x - 5, y: y + 5 };
    let chevron = Form::Line(Path::Three(above, Point { x, y }, below));
    let look = Look::of("edge", packet.asked.number);
    match packet_title(alloc, packet) {
        Ok(title) => canvas.bar(look, chevron, &[Piece::Text(title.as_slice())]),
        Err(error) => canvas.state = Err(error),
    }
    let label = if others < WAITING {
        Piece::Id(packet.asked.id)
    } else {
        Piece::Text(&[ELLIPSIS])
    };
    if others <= WAITING {
        let y = y + 4 + 11 * u64::from(others);
        canvas.write(Look::plain("small"), x + 6, y, &[label]);
    }
}
