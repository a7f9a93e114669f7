//! What is said of packets, where a browser shows it at the pointer.

ghost use Rattle.std.specs.Prelude.{◌≡◌, IfOk};
ghost use Rattle.picture_shapes.specs.Ways.{carried, packet_title, receipt_said};

use crate::facts::PacketFacts;
use crate::label::{Piece, text};
use groups::Stamp;
use std::alloc::{AllocError, Global};

/// What a packet carries.
pub(super) fn carried(alloc: Global, packet: &PacketFacts) -> Result<Vec<u8>, AllocError>
    ensures { IfOk result (λ words. words.items ≡ carried packet.now) }
{
    let (id, clock) = (packet.asked.id, packet.clock);
    match packet.from {
        None => text(
            alloc,
            &[
                Piece::Text(b"Start of "),
                Piece::Id(id),
                Piece::Text(b", floor "),
                Piece::Number(clock),
                Piece::Text(b","),
            ],
        ),
        Some(group) => text(
            alloc,
            &[
                Piece::Text(b"proposal "),
                Piece::Stamp(Stamp { clock, group }),
                Piece::Text(b" for "),
                Piece::Id(id),
            ],
        ),
    }
}

/// When a packet is received, if ever.
fn received(alloc: Global, received: Option<usize>) -> Result<Vec<u8>, AllocError>
    ensures { IfOk result (λ words. words.items ≡ receipt_said received) }
{
    match received {
        Some(step) => text(
            alloc,
            &[
                Piece::Text(b", received at step "),
                Piece::Number(step as u64),
            ],
        ),
        None => text(alloc, &[Piece::Text(b", under way")]),
    }
}

/// What is said of a packet.
pub(super) fn packet_title(alloc: Global, packet: &PacketFacts) -> Result<Vec<u8>, AllocError>
    ensures { IfOk result (λ words. words.items ≡ packet_title packet.now) }
{
    let carried = carried(alloc, packet)?;
    let received = received(alloc, packet.received)?;
    text(
        alloc,
        &[
            Piece::Text(carried.as_slice()),
            Piece::Text(b" to group "),
            Piece::Number(u64::from(packet.to.number())),
            Piece::Text(b", sent at step "),
            Piece::Number(packet.sent as u64),
            Piece::Text(received.as_slice()),
        ],
    )
}
