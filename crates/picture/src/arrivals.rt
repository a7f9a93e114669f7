//! Packets that come to their groups, and what these deliver then.

ghost use Rattle.std.specs.Prelude.{◌≡◌, ◌++◌, ◌∷◌, [], drop, map, OnOk};
ghost use Rattle.picture.specs.Arrivals.{delivery_in, delivery_of, receipt_in};
ghost use Rattle.picture.specs.Notes.{Arrives, arriving_in, receipt_noted};
ghost use Rattle.system.specs.Reads.{queues_of};

use crate::flights::asked;
use groups::GroupId;
use picture_shapes::{DeliveryFacts, PacketFacts, ReceiptFacts};
use skeen_core::Delivered;
use std::alloc::{AllocError, Global};
use system::System;

/// The receipts and the deliveries of a run.
#[derive(Drop)]
pub(super) struct Arrivals {
    pub(super) receipts: Vec<ReceiptFacts>,
    pub(super) deliveries: Vec<DeliveryFacts>,
}

/// A packet that is to come, the clock of its group, and how many requests that group has delivered that aren't taken.
#[derive(Clone, Copy)]
pub(super) struct Arriving {
    packet: PacketFacts,
    clock: u64,
    queued: usize,
}

impl Arriving {
    /// The packet is to come to its group in this system.
    pub(super) fn of(packet: PacketFacts, system: &System) -> Self
        ensures { result ≡ arriving_in system.now packet }
    {
        Arriving {
            packet,
            clock: system.clock(packet.to),
            queued: system.queued(packet.to),
        }
    }
}

impl Arrivals {
    /// There is none.
    pub(super) fn new(alloc: Global) -> Self
        ensures receipts { result.receipts.items ≡ [] }
        ensures deliveries { result.deliveries.items ≡ [] }
    {
        Arrivals {
            receipts: Vec::new(alloc),
            deliveries: Vec::new(alloc),
        }
    }

    /// The packet came at this step, and this is the system behind it.
    pub(super) fn come(
        &mut self,
        step: usize,
        arriving: &Arriving,
        last: &[Option<usize>],
        system: &System,
    ) -> Result<(), AllocError>
        ensures { OnOk result (Arrives step arriving.now system.now self.old self.new) }
    {
        self.receipts.push(receipt(step, arriving, system))?;
        self.deliver(step, arriving.packet.to, arriving.queued, last, system)?;
        Ok(())
    }

    /// What the group has delivered from this place on it delivered at this step.
    fn deliver(
        &mut self,
        step: usize,
        group: GroupId,
        from: usize,
        last: &[Option<usize>],
        system: &System,
    ) -> Result<(), AllocError>
        ensures receipts { self.new.receipts ≡ self.old.receipts }
        ensures deliveries { OnOk result (map delivery_in self.new.deliveries.items
            ≡ map delivery_in self.old.deliveries.items ++ map (delivery_of step group) (drop from (queues_of system.now group))) }
    {
        let end = place_in(system.queued(group).saturating_sub(from).saturating_sub(1));
        for place in from..system.queued(group) {
            let Some(request) = system.delivered(group, place) else {
                unreachable!()
            };
            let at = place_in(place.saturating_sub(from));
            self.push(step, group, request, (at, end), last)?;
        }
        Ok(())
    }

    /// The group delivered this request, at the first of these places; the last of its deliveries has the second.
    fn push(
        &mut self,
        step: usize,
        group: GroupId,
        request: &Delivered,
        places: (u32, u32),
        last: &[Option<usize>],
    ) -> Result<(), AllocError>
        ensures receipts { self.new.receipts ≡ self.old.receipts }
        ensures deliveries { OnOk result (map delivery_in self.new.deliveries.items
            ≡ map delivery_in self.old.deliveries.items ++ delivery_of step group request.now ∷ []) }
    {
        self.deliveries.push(DeliveryFacts {
            step,
            group,
            asked: asked(last, request.id),
            stamp: request.stamp,
            place: places.0,
            last: places.1,
        })?;
        Ok(())
    }
}

/// The receipt of a packet that came at this step.
fn receipt(step: usize, arriving: &Arriving, system: &System) -> ReceiptFacts
    ensures { receipt_in result ≡ receipt_noted step arriving.now system.now }
{
    let clock = system.clock(arriving.packet.to);
    ReceiptFacts {
        step,
        packet: arriving.packet,
        clock,
        rose: arriving.clock < clock,
    }
}

/// A place among what a group delivers at a step; those from 2^32 on stand at the last one before it.
fn place_in(place: usize) -> u32 {
    place.min(u32::MAX as usize) as u32
}
