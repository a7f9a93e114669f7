//! The bytes of a packet: a row of numbers, eight bytes each. They say to which group it goes, which request of which connection
//! it is about, and then for a Start a 0, the floor and the groups, for a Proposal a 1, the clock and the group that proposes.

ghost use Rattle.std.specs.Prelude.{◌<◌, length, IfSome};

use groups::{ConnId, GroupId, Groups, RequestId};
use skeen_core::{Body, Packet};
use std::alloc::{AllocError, Global};

const START: u64 = 0;

const PROPOSAL: u64 = 1;

/// The bytes of a packet.
pub(crate) fn bytes_of(alloc: Global, packet: &Packet) -> Result<Vec<u8>, AllocError> {
    let mut bytes = Vec::new(alloc);
    put(u64::from(packet.to.number()), &mut bytes)?;
    put(packet.id.conn.0, &mut bytes)?;
    put(packet.id.seq, &mut bytes)?;
    match packet.body {
        Body::Start { floor, groups } => {
            put(START, &mut bytes)?;
            put(floor, &mut bytes)?;
            for group in groups.iter() {
                put(u64::from(group.number()), &mut bytes)?;
            }
        }
        Body::Proposal { from, clock } => {
            put(PROPOSAL, &mut bytes)?;
            put(clock, &mut bytes)?;
            put(u64::from(from.number()), &mut bytes)?;
        }
    }
    Ok(bytes)
}

fn put(number: u64, bytes: &mut Vec<u8>) -> Result<(), AllocError> {
    bytes.extend_from_slice(&number.to_le_bytes())
}

/// The packet of these bytes, if they are those of one.
pub(crate) fn packet_of(bytes: &[u8]) -> Option<Packet> {
    let (to, rest) = take(bytes)?;
    let (conn, rest) = take(rest)?;
    let (seq, rest) = take(rest)?;
    let (kind, rest) = take(rest)?;
    let (number, rest) = take(rest)?;
    let groups = groups_of(rest)?;
    let body = match kind {
        START => Body::Start {
            floor: number,
            groups,
        },
        PROPOSAL => Body::Proposal {
            from: groups.alone()?,
            clock: number,
        },
        _ => return None,
    };
    Some(Packet {
        to: group_of(to)?,
        id: RequestId {
            conn: ConnId(conn),
            seq,
        },
        body,
    })
}

/// The number at the front, and the bytes behind it.
fn take(bytes: &[u8]) -> Option<(u64, &[u8])>
    ensures { IfSome result (λ r. length r.1.now < length bytes.now) }
{
    match bytes {
        [a, b, c, d, e, f, g, h, rest @ ..] => {
            Some((u64::from_le_bytes([*a, *b, *c, *d, *e, *f, *g, *h]), rest))
        }
        _ => None,
    }
}

/// The group of this number, if there can be one.
fn group_of(number: u64) -> Option<GroupId> {
    if number < 64 {
        Some(GroupId::new(number as u8))
    } else {
        None
    }
}

/// The groups whose numbers these bytes are.
fn groups_of(bytes: &[u8]) -> Option<Groups> {
    let mut groups = Groups::empty();
    let mut rest = bytes;
    while !rest.is_empty() {
        let (number, more) = take(rest)?;
        groups = groups.with(group_of(number)?);
        rest = more;
    }
    Some(groups)
}
