//! The way of a packet: from where it is sent to its group, or to the right edge.

ghost use Rattle.std.specs.Prelude.{◌≡◌, ◌<◌, ◌≤◌, ◌^◌};
ghost use Rattle.picture_shapes.specs.Ways.{way_of, path_through, leaving, coming, source_of, is_from_above};

use crate::facts::PacketFacts;
use crate::frame::Frame;
use crate::shape::{Path, Point};

/// How far before its receipt, and behind its sending, a packet's line bends.
const BEND: u64 = 18;

/// The points of a packet's line.
pub(super) fn way_of(packet: &PacketFacts, frame: &Frame) -> Path
    ensures { result ≡ way_of frame.now packet.now }
{
    let first = Point {
        x: frame.x(packet.sent),
        y: source_of(packet, frame),
    };
    let last = Point {
        x: frame.x_or_end(packet.received),
        y: frame.line(packet.to),
    };
    path_through(first, leaving(packet, frame), coming(packet, frame), last)
}

/// The path through these points.
fn path_through(first: Point, second: Option<Point>, third: Option<Point>, last: Point) -> Path
    ensures { result ≡ path_through first second third last }
{
    match (second, third) {
        (None, None) => Path::Two(first, last),
        (Some(second), None) => Path::Three(first, second, last),
        (None, Some(third)) => Path::Three(first, third, last),
        (Some(second), Some(third)) => Path::Four(first, second, third, last),
    }
}

/// The line that a packet comes from.
fn source_of(packet: &PacketFacts, frame: &Frame) -> u64
    ensures value { result ≡ source_of frame.now packet.now }
    ensures least { 102 ≤ result }
    ensures most { result < 2 ^ 39 }
{
    match packet.from {
        Some(group) => frame.line(group),
        None => frame.gate(),
    }
}

/// Whether a packet comes from above.
pub(super) fn is_from_above(packet: &PacketFacts) -> bool
    ensures { result ≡ is_from_above packet.now }
{
    match packet.from {
        Some(group) => group.number() < packet.to.number(),
        None => true,
    }
}

/// Where a proposal that is sent within the window leaves the line that it comes from.
fn leaving(packet: &PacketFacts, frame: &Frame) -> Option<Point>
    ensures { result ≡ leaving frame.now packet.now }
{
    if packet.from.is_none() || packet.sent < frame.from() {
        return None;
    }
    let (x, source) = (frame.x(packet.sent), source_of(packet, frame));
    let y = if is_from_above(packet) {
        source + BEND
    } else {
        source - BEND
    };
    Some(Point { x, y })
}

/// Where a packet that is received within the window comes to its group.
fn coming(packet: &PacketFacts, frame: &Frame) -> Option<Point>
    ensures { result ≡ coming frame.now packet.now }
{
    if !frame.shows_some(packet.received) {
        return None;
    }
    let (x, target) = (frame.x_or_end(packet.received), frame.line(packet.to));
    let y = if is_from_above(packet) {
        target - BEND
    } else {
        target + BEND
    };
    Some(Point { x, y })
}
