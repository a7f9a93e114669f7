//! The marks of receipts and deliveries.

ghost use Rattle.std.specs.Prelude.{◌≡◌, ◌++◌, ◌∷◌, [], ◌<◌, ◌^◌, OnOk, IfOk};
ghost use Rattle.std.specs.List.{flat_map};
ghost use Rattle.picture_shapes.specs.Marks.{delivery_marks, disc_mark, disc_name, marks_of, receipt_marks, share_of};

use crate::facts::{DeliveryFacts, ReceiptFacts, RunFacts};
use crate::frame::Frame;
use crate::label::Piece;
use crate::shape::{Form, Look, Shape, diamond, head, put_shape};
use crate::titles::carried;
use crate::ways::is_from_above;
use groups::GroupId;
use std::alloc::{AllocError, Global};

/// How high the deliveries of one receipt are together.
const DELIVERIES: u64 = 13;

/// The marks of a run within a frame.
pub(super) fn marks_of(
    alloc: Global,
    run: &RunFacts,
    frame: &Frame,
) -> Result<Vec<Shape>, AllocError>
    ensures { IfOk result (λ marks. marks.items ≡ marks_of frame.now run.now) }
{
    let mut marks = Vec::new(alloc);
    put_receipts(alloc, run.receipts.as_slice(), frame, &mut marks)?;
    put_deliveries(run.deliveries.as_slice(), frame, &mut marks)?;
    Ok(marks)
}

/// Appends the marks of the receipts within the window.
fn put_receipts(
    alloc: Global,
    receipts: &[ReceiptFacts],
    frame: &Frame,
    marks: &mut Vec<Shape>,
) -> Result<(), AllocError>
    ensures { OnOk result (marks.new.items ≡ marks.old.items ++ flat_map (receipt_marks frame.now) receipts.now) }
{
    for receipt in receipts {
        put_receipt(alloc, receipt, frame, marks)?;
    }
    Ok(())
}

/// Appends the head of a packet's line and the disc of its receipt, if that is within the window.
fn put_receipt(
    alloc: Global,
    receipt: &ReceiptFacts,
    frame: &Frame,
    marks: &mut Vec<Shape>,
) -> Result<(), AllocError>
    ensures { OnOk result (marks.new.items ≡ marks.old.items ++ receipt_marks frame.now receipt.now) }
{
    if !frame.shows(receipt.step) {
        return Ok(());
    }
    let packet = &receipt.packet;
    let (x, y) = (frame.x(receipt.step), frame.line(packet.to));
    let head = if is_from_above(packet) {
        head(x, y - 5, y - 13)
    } else {
        head(x, y + 5, y + 13)
    };
    put_shape(marks, Look::of("head", packet.asked.number), head, &[])?;
    put_disc(alloc, receipt, x, y, marks)
}

/// Appends the disc of a receipt.
fn put_disc(
    alloc: Global,
    receipt: &ReceiptFacts,
    x: u64,
    y: u64,
    marks: &mut Vec<Shape>,
) -> Result<(), AllocError>
    ensures { OnOk result (marks.new.items ≡ marks.old.items ++ disc_mark x y receipt.now ∷ []) }
{
    let packet = &receipt.packet;
    let name = disc_name(packet.from);
    let carried = carried(alloc, packet)?;
    put_shape(
        marks,
        Look::of(name, packet.asked.number),
        Form::Disc { x, y, radius: 5 },
        &[
            Piece::Text(b"step "),
            Piece::Number(receipt.step as u64),
            Piece::Text(b": "),
            Piece::Text(carried.as_slice()),
            Piece::Text(b" comes to group "),
            Piece::Number(u64::from(packet.to.number())),
            Piece::Text(b"; clock "),
            Piece::Number(receipt.clock),
        ],
    )
}

/// The name of the disc of a packet from this group, or from none.
fn disc_name(from: Option<GroupId>) -> &'static str
    ensures { result.now ≡ disc_name from }
{
    match from {
        None => "start",
        Some(_) => "told",
    }
}

/// Appends the marks of the deliveries within the window.
fn put_deliveries(
    deliveries: &[DeliveryFacts],
    frame: &Frame,
    marks: &mut Vec<Shape>,
) -> Result<(), AllocError>
    ensures { OnOk result (marks.new.items ≡ marks.old.items ++ flat_map (delivery_marks frame.now) deliveries.now) }
{
    for delivery in deliveries {
        put_delivery(delivery, frame, marks)?;
    }
    Ok(())
}

/// Appends the diamond of a delivery, if that is within the window.
fn put_delivery(
    delivery: &DeliveryFacts,
    frame: &Frame,
    marks: &mut Vec<Shape>,
) -> Result<(), AllocError>
    ensures { OnOk result (marks.new.items ≡ marks.old.items ++ delivery_marks frame.now delivery.now) }
{
    if !frame.shows(delivery.step) {
        return Ok(());
    }
    let y = frame.line(delivery.group) + 26 + share_of(delivery.place, delivery.last);
    put_shape(
        marks,
        Look::of("done", delivery.asked.number),
        diamond(frame.x(delivery.step), y),
        &[
            Piece::Text(b"step "),
            Piece::Number(delivery.step as u64),
            Piece::Text(b": group "),
            Piece::Number(u64::from(delivery.group.number())),
            Piece::Text(b" delivers "),
            Piece::Id(delivery.asked.id),
            Piece::Text(b" "),
            Piece::Stamp(delivery.stamp),
        ],
    )
}

/// How far below the first of those that a group delivers at a step the one at a place is.
pub(super) fn share_of(place: u32, last: u32) -> u64
    ensures value { result ≡ share_of place last }
    ensures most { result < 2 ^ 36 }
{
    if last == 0 {
        return 0;
    }
    u64::from(place) * DELIVERIES / u64::from(last)
}
