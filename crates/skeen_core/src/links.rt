//! The packets under way, in order of sending. Which one is taken out next is the caller's choice.
ghost use Rattle.std.specs.Prelude.{◌≡◌, ◌+◌, ◌≤◌, ◌<◌, ◌++◌, [], ◌∷◌, length, remove, slice_get, ◌==◌, OnOk, OnErr, IsOk};
ghost use Rattle.std.specs.Prelude.{option_copied};

use super::packet::Packet;
use std::alloc::{AllocError, Global};
use std::collections::VecDeque;
use std::marker::Model;

/// The packets under way. A contract sees them as a list, oldest first, and beside it how many more fit without memory.
#[derive(Drop)]
pub struct Links {
    packets: VecDeque<Packet>,
}

impl Model for Links {
    ghost use Rattle.std.specs.Prelude.{◌-◌};
    ghost use Rattle.std.specs.VecDeque.{deque_len, deque_capacity};
    ghost use Rattle.skeen_core.specs.Links.{UnderWay};

    ghost Value = { UnderWay };

    ghost view = { λ l. record { packets = l.packets.items; room = deque_capacity l.packets - deque_len l.packets } };
}

impl Links {
    /// No packet is under way.
    pub fn new(alloc: Global) -> Self
        ensures { result.packets ≡ [] }
    {
        Links {
            packets: VecDeque::new(alloc),
        }
    }

    /// How many packets are under way.
    pub fn len(&self) -> usize
        ensures { result ≡ length self.now.packets }
    {
        self.packets.len()
    }

    /// Whether none is under way.
    pub fn is_empty(&self) -> bool
        ensures { result ≡ (length self.now.packets == 0) }
    {
        self.packets.is_empty()
    }

    /// Takes the room for `count` more packets. The only error is want of memory, which changes nothing.
    #[inline]
    pub fn reserve(&mut self, count: usize) -> Result<(), AllocError>
        ensures packets { self.new.packets ≡ self.old.packets }
        ensures room { OnOk result (count ≤ self.new.room) }
        ensures room_kept { self.old.room ≤ self.new.room }
        ensures succeeds { count ≤ self.old.room → IsOk result }
        ensures unchanged { OnErr result (self.new ≡ self.old) }
    {
        if count <= self.packets.capacity() - self.packets.len() {
            return Ok(());
        }
        self.grow(count)
    }

    // The same where it doesn't fit: a call, so that what mostly fits is inlined.
    #[inline(never)]
    fn grow(&mut self, count: usize) -> Result<(), AllocError>
        ensures packets { self.new.packets ≡ self.old.packets }
        ensures room { OnOk result (count ≤ self.new.room) }
        ensures room_kept { self.old.room ≤ self.new.room }
        ensures unchanged { OnErr result (self.new ≡ self.old) }
    {
        // The room at least doubles, so that sends one by one copy each packet a few times only.
        self.packets.reserve_exact(count.max(self.packets.len()))
    }

    /// Sends a packet: it stands behind all that are under way. It can't fail where there is room, and want of memory
    /// changes nothing.
    pub fn send(&mut self, packet: Packet) -> Result<(), AllocError>
        ensures sent { OnOk result (self.new.packets ≡ self.old.packets ++ packet ∷ []) }
        ensures room { OnOk result (self.old.room ≤ self.new.room + 1) }
        ensures succeeds { 0 < self.old.room → IsOk result }
        ensures unchanged { OnErr result (self.new ≡ self.old) }
    {
        self.reserve(1)?;
        self.packets.push_back_reserved(Packet { ..packet });
        Ok(())
    }

    /// The packet at place `place`, counted from 0 in order of sending.
    pub fn packet(&self, place: usize) -> Option<&Packet>
        ensures { option_copied result ≡ slice_get self.now.packets place }
    {
        self.packets.get(place)
    }

    /// Takes out the packet at place `place`, counted from 0 in order of sending; those behind it close up. It takes no
    /// memory.
    pub fn take(&mut self, place: usize) -> Option<Packet>
        ensures taken { result ≡ slice_get self.old.packets place }
        ensures rest { self.new.packets ≡ remove self.old.packets place }
        ensures room { self.old.room ≤ self.new.room }
    {
        self.packets.remove(place)
    }
}
