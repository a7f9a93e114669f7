//! The labels of receipts and deliveries, where there is room before the next one of the lane.

use crate::canvas::{CHARACTER, Canvas, SMALL};
use crate::facts::{DeliveryFacts, ReceiptFacts};
use crate::frame::Frame;
use crate::label::Piece;
use crate::shape::Look;
use groups::Stamp;

/// The labels of the receipts within the window, the latest first.
pub(super) fn label_receipts(receipts: &[ReceiptFacts], frame: &Frame, canvas: &mut Canvas) {
    let mut next = [frame.last(); 64];
    for receipt in receipts.iter().rev() {
        if frame.shows(receipt.step) {
            let place = usize::from(receipt.packet.to.number());
            label_receipt(receipt, next[place].saturating_sub(4), frame, canvas);
            next[place] = frame.x(receipt.step);
        }
    }
}

/// The id of a packet that came, its floor or the stamp that it carries, and the clock after it, before this place.
fn label_receipt(receipt: &ReceiptFacts, end: u64, frame: &Frame, canvas: &mut Canvas) {
    let packet = &receipt.packet;
    let (x, y) = (frame.x(receipt.step) + 6, frame.line(packet.to));
    let clock = packet.clock;
    let id = [Piece::Id(packet.asked.id)];
    canvas.write_within(Look::plain("id"), (x, y - 21), &id, end, CHARACTER);
    let small = Look::plain("small");
    if let Some(group) = packet.from {
        let stamp = [Piece::Stamp(Stamp { clock, group })];
        canvas.write_within(small, (x, y - 9), &stamp, end, SMALL);
    } else if clock > 0 {
        let floor = [Piece::Text(b">"), Piece::Number(clock)];
        canvas.write_within(small, (x, y - 9), &floor, end, SMALL);
    }
    let look = Look::plain(if receipt.rose { "clock up" } else { "clock" });
    let clock = [Piece::Number(receipt.clock)];
    canvas.write_within(look, (x, y + 14), &clock, end, CHARACTER);
}

/// The labels of the first and the last delivery of each receipt within the window, the latest first.
pub(super) fn label_deliveries(deliveries: &[DeliveryFacts], frame: &Frame, canvas: &mut Canvas) {
    let mut next = [frame.last(); 64];
    for delivery in deliveries.iter().rev() {
        if frame.shows(delivery.step) {
            let place = usize::from(delivery.group.number());
            if delivery.place == 0 || delivery.place == delivery.last {
                label_delivery(delivery, next[place].saturating_sub(7), frame, canvas);
            }
            if delivery.place == 0 {
                next[place] = frame.x(delivery.step);
            }
        }
    }
}

/// The id and the final stamp of a delivery, before this place.
fn label_delivery(delivery: &DeliveryFacts, end: u64, frame: &Frame, canvas: &mut Canvas) {
    let below = if delivery.place == 0 { 0 } else { 13 };
    let x = frame.x(delivery.step) + 9;
    let y = frame.line(delivery.group) + 30 + below;
    let words = [
        Piece::Id(delivery.asked.id),
        Piece::Text(b" "),
        Piece::Stamp(delivery.stamp),
    ];
    canvas.write_within(Look::plain("mark"), (x, y), &words, end, CHARACTER);
}
