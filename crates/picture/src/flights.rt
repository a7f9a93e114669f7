//! Packets from their sending to their receipt.

ghost use Rattle.std.specs.Prelude.{◌≡◌, ◌∷◌, [], List, drop, length, map, OnOk};
ghost use Rattle.picture.specs.Flights.{IsFlying, Lands, Sends, arrival_in, kept_at, landed_at};
ghost use Rattle.picture.specs.Run.{clock_in, flight_of, source_in};
ghost use Rattle.skeen_core.specs.declared.packet.Packet.{Packet};
ghost use Rattle.system.specs.Reads.{packets_of};

use groups::{ConnId, GroupId, RequestId};
use journal::Step;
use picture_shapes::{Asked, PacketFacts};
use skeen_core::{Body, Packet};
use std::alloc::{AllocError, Global};
use std::collections::VecDeque;
use system::System;

/// The packets that were sent, in the order of their sending, and the places of those that are under way.
#[derive(Drop)]
pub(super) struct Flights {
    pub(super) packets: Vec<PacketFacts>,
    under_way: VecDeque<usize>,
}

impl Flights {
    /// None was sent.
    pub(super) fn new(alloc: Global) -> Self
        ensures packets { result.packets.items ≡ [] }
        ensures flying { IsFlying result [] }
    {
        Flights {
            packets: Vec::new(alloc),
            under_way: VecDeque::new(alloc),
        }
    }

    /// The packet at this place of those under way, if one arrives, is received at this step, and answered.
    pub(super) fn land(&mut self, step: usize, arrival: Option<usize>) -> Option<PacketFacts>
        ensures { Lands step arrival self.old self.new result }
    {
        let place = arrival?;
        let number = self.under_way.remove(place)?;
        let landed = landed(self.packets.get(number)?, step);
        self.packets[number] = landed;
        Some(landed)
    }

    /// The packets of the system from this place on were sent at this step.
    pub(super) fn send(
        &mut self,
        step: usize,
        from: usize,
        last: &[Option<usize>],
        system: &System,
    ) -> Result<(), AllocError>
        ensures { OnOk result (Sends step self.old (map flight_of (drop from (packets_of system.now))) self.new) }
    {
        for place in from..system.packets() {
            let Some(packet) = system.packet(place) else {
                unreachable!()
            };
            self.push(step, packet, last)?;
        }
        Ok(())
    }

    /// A packet was sent.
    fn push(
        &mut self,
        step: usize,
        packet: &Packet,
        last: &[Option<usize>],
    ) -> Result<(), AllocError>
        ensures { OnOk result (Sends step self.old (flight_of packet.now ∷ []) self.new) }
    {
        let number = self.packets.len();
        let (from, clock) = carried_by(packet);
        self.packets.push(PacketFacts {
            asked: asked(last, packet.id),
            from,
            to: packet.to,
            clock,
            sent: step,
            received: None,
        })?;
        self.under_way.push_back(number)?;
        Ok(())
    }
}

/// The place of the packet that a step brings to its group.
pub(super) fn arrival_in(step: &Step) -> Option<usize>
    ensures { result ≡ arrival_in step.now }
{
    match step {
        Step::Deliver { place } => Some(*place as usize),
        _ => None,
    }
}

/// How many of so many packets are left where the one at this place arrives.
pub(super) fn kept_at(arrival: Option<usize>, packets: usize) -> usize
    ensures { (ps : List Packet) → length ps ≡ packets → length (kept_at arrival ps) ≡ result }
{
    match arrival {
        Some(place) if place < packets => packets - 1,
        _ => packets,
    }
}

/// The same packet, received at this step.
fn landed(packet: &PacketFacts, step: usize) -> PacketFacts
    ensures { result ≡ landed_at step packet.now }
{
    let mut landed = *packet;
    landed.received = Some(step);
    landed
}

/// The group that a packet comes from, if any, and its floor or the clock that it proposes.
fn carried_by(packet: &Packet) -> (Option<GroupId>, u64)
    ensures from { result.0 ≡ source_in packet.now.body }
    ensures clock { result.1 ≡ clock_in packet.now.body }
{
    match &packet.body {
        Body::Start { floor, groups: _ } => (None, *floor),
        Body::Proposal { from, clock } => (Some(*from), *clock),
    }
}

/// A request with its number. A connection has one request under way at a time, its last one.
pub(super) fn asked(last: &[Option<usize>], id: RequestId) -> Asked
    ensures { result.id ≡ id }
{
    let number = match last_of(last, id.conn) {
        Some(number) => number,
        None => 0,
    };
    Asked { id, number }
}

/// Where the facts of a connection lie: connections are numbered from 1.
pub(super) fn place_of(conn: ConnId) -> usize {
    conn.0.saturating_sub(1) as usize
}

/// The place of a connection's last request.
pub(super) fn last_of(last: &[Option<usize>], conn: ConnId) -> Option<usize> {
    match last.get(place_of(conn)) {
        Some(Some(number)) => Some(*number),
        _ => None,
    }
}
