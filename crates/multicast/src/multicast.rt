//! The groups, their packets and their queues, as one.

ghost use Rattle.std.specs.Prelude.{◌≡◌, ℕ, ◌+◌, ◌<◌, ◌≤◌, ◌++◌, [], ◌∷◌, length, slice_get, true, option_copied, Some, IfOk, IfErr, OnOk};
ghost use Rattle.std.specs.Prelude.{OnErr, IsOk, IsSome, IsTrue, ◌↔◌, IfSome, IfNone, false};
ghost use Rattle.std.specs.FinMap.{get, len};
ghost use Rattle.groups.specs.GroupSet.{has};
ghost use Rattle.delivery.specs.Queues.{queue_of, room_of, IsSound};
ghost use Rattle.delivery.specs.Ready.{IsReady, IsLayer};
ghost use Rattle.skeen_core.specs.Group.{fresh, new_group};
ghost use Rattle.skeen_core.specs.declared.packet.Packet.{Packet};
ghost use Rattle.skeen_core.specs.declared.packet.Delivered.{Delivered};
ghost use Rattle.multicast.specs.Multicast.{at, group_of, sends_at_most, IsSame, IsWhole, Begins, MayAppendAll, MayBeDelivered, Delivers};
ghost use Rattle.multicast.specs.Multicast.{Repeats, LosesLayer, Passes, IsAlone, AreSettled};
ghost use Rattle.skeen_core.specs.declared.coming.TheConstants.{GREATEST_CLOCK};
ghost use Rattle.skeen_core.specs.declared.packet.Body.{Body};

use delivery::Queues;
use groups::{GroupId, Groups, RequestId, Stamp};
use skeen_core::{Body, Delivered, Group, Links, Packet};
use std::alloc::{AllocError, Global};
use std::marker::Model;
use thiserror::Error;

/// Why no packet came, or none was repeated. Nothing was changed. Each reason has its number, from 1.
#[derive(Clone, Copy, Debug, Drop, Error)]
pub enum DeliverFault {
    /// 1: no packet is at this place.
    #[error("no packet is at this place")]
    NoPacket,

    /// 2: there was no memory.
    #[error("out of memory")]
    Memory,
}

/// The groups of all shards, the packets under way between them, and the queue of each group. Contracts see the groups
/// by their numbers, the packets in order of sending, the queues oldest first, and how many more packets fit without
/// memory.
#[derive(Drop)]
pub struct Multicast {
    alloc: Global,
    groups: Vec<Group>,
    links: Links,
    queues: Queues,
}

impl Model for Multicast {
    ghost use Rattle.std.specs.Coded.{codes};
    ghost use Rattle.skeen_core.specs.Kept.{group_code};
    ghost use Rattle.multicast.specs.Multicast.{MulticastView, IsKept};

    ghost Value = { MulticastView };

    ghost coded = { Prim.hlevel (codes, group_code) };

    ghost view = { λ m. record { groups = m.groups.items; packets = m.links.packets; queues = m.queues.queues; room = m.links.room } };

    ghost invariant = { λ m. IsKept m.groups.items m.queues.queues };
}

impl Multicast {
    /// The first `count` groups, at most 64: each is new, no packet is under way, and the queues are empty. The only
    /// error is want of memory.
    pub fn new(alloc: Global, count: u8) -> Result<Self, AllocError>
        requires { count ≤ 64 }
        ensures count { IfOk result (λ m. length m.groups ≡ count) }
        ensures fresh { IfOk result (λ m. (g : ℕ) → group_of m.groups g ≡ fresh) }
        ensures none { IfOk result (λ m. m.packets ≡ []) }
        ensures empty { IfOk result (λ m. (g : ℕ) → queue_of m.queues g ≡ []) }
    {
        let queues = Queues::new(alloc, count)?;
        let groups = new_groups(alloc, count)?;
        Ok(Multicast {
            alloc,
            groups,
            links: Links::new(alloc),
            queues,
        })
    }

    /// How many groups there are.
    pub fn count(&self) -> u8
        ensures count { result ≡ length self.now.groups }
        ensures whole { IsWhole self.now.groups self.now.queues }
    {
        self.groups.len() as u8
    }

    /// The packet at this place of those under way, counted from 0 in order of sending.
    pub fn packet(&self, place: usize) -> Option<&Packet>
        ensures { option_copied result ≡ slice_get self.now.packets place }
    {
        self.links.packet(place)
    }

    /// How many packets are under way.
    pub fn packets(&self) -> usize
        ensures { result ≡ length self.now.packets }
    {
        self.links.len()
    }

    /// Takes the room for `count` more packets. The only error is want of memory, which is wanted only where there is less; nothing but
    /// the room changes.
    pub fn reserve(&mut self, count: usize) -> Result<(), AllocError>
        ensures same { IsSame self.old self.new }
        ensures room { OnOk result (count ≤ self.new.room) }
        ensures succeeds { count ≤ self.old.room → IsOk result }
    {
        self.links.reserve(count)
    }

    /// A request begins: each of its groups is sent a Start, in ascending order. There is room for them.
    pub fn start(&mut self, id: RequestId, floor: u64, groups: Groups)
        requires { length groups ≤ self.old.room }
        ensures { Begins self.old id floor groups self.new }
    {
        for group in groups.iter() {
            let start = Packet {
                to: group,
                id,
                body: Body::Start { floor, groups },
            };
            let Ok(()) = self.links.send(start) else {
                unreachable!()
            };
        }
    }

    /// A request begins. Where it is alone at each of its groups, all its packets come, its groups deliver it, and it is taken out as a
    /// layer of its own: what comes of it is known, and no packet is sent and nothing is queued for that. None where it isn't alone; or
    /// where it addresses several groups, one of which has delivered none of its connection before, or where there is no memory for the
    /// first one of a connection: then nothing changes.
    ///
    /// No packet is under way, and no request is ready. The Start of the request may come to each of its groups.
    #[inline]
    pub fn pass(&mut self, id: RequestId, floor: u64, groups: Groups) -> Option<Delivered>
        requires no_packet { self.old.packets ≡ [] }
        requires none_ready { (d : Delivered) → ¬ IsReady (queue_of self.old.queues) d }
        requires comes { (g : ℕ) → has groups g ≡ true → MayBeDelivered self.old (record { to = g; id = id; body = Body.Start floor groups }) }
        ensures passed { IfSome result (λ d. Passes self.old id floor groups d self.new) }
        ensures named { IfSome result (λ d. d.id ≡ id) }
        ensures unchanged { IfNone result (self.new ≡ self.old) }
    {
        if groups.len() == 0 {
            return None;
        }
        let stamp = settle_at_once(&mut self.groups, &self.queues, id, floor, groups)?;
        Some(Delivered { id, stamp, groups })
    }

    /// The packet at this place comes to its group: what the group sends goes behind all packets, and what it delivers
    /// behind its queue. A refusal changes nothing but the room.
    ///
    /// The packet may come to its group, and what that group delivers then may be appended to its queue.
    pub fn deliver(&mut self, place: usize) -> Result<(), DeliverFault>
        requires { (p : Packet) → slice_get self.old.packets place ≡ Some p → MayBeDelivered self.old p }
        ensures delivers { OnOk result (Delivers self.old place self.new) }
        ensures no_packet { IfErr result (λ e. e ≡ DeliverFault.NoPacket → length self.old.packets ≤ place) }
        ensures there { IfErr result (λ e. e ≡ DeliverFault.Memory → place < length self.old.packets) }
        ensures unchanged { OnErr result (IsSame self.old self.new) }
    {
        let Some(packet) = self.links.packet(place) else {
            return Err(DeliverFault::NoPacket);
        };
        let packet = Packet { ..*packet };
        let to = packet.to;
        if !make_room(&self.groups, &mut self.links, &mut self.queues, &packet) {
            return Err(DeliverFault::Memory);
        }
        let group = &mut self.groups[usize::from(to.number())];
        let Ok((sent, delivered)) = group.receive(self.alloc, packet) else {
            return Err(DeliverFault::Memory);
        };
        let _ = self.links.take(place);
        send_all(&mut self.links, sent);
        append_all(&mut self.queues, to, delivered);
        Ok(())
    }

    /// A link repeats the packet at this place: a copy of it goes behind all packets. A refusal changes nothing but the
    /// room.
    pub fn repeat(&mut self, place: usize) -> Result<(), DeliverFault>
        ensures repeats { OnOk result (Repeats self.old place self.new) }
        ensures no_packet { IfErr result (λ e. e ≡ DeliverFault.NoPacket → length self.old.packets ≤ place) }
        ensures there { IfErr result (λ e. e ≡ DeliverFault.Memory → place < length self.old.packets) }
        ensures unchanged { OnErr result (IsSame self.old self.new) }
    {
        let Some(packet) = self.links.packet(place) else {
            return Err(DeliverFault::NoPacket);
        };
        let copy = Packet { ..*packet };
        let Ok(()) = self.links.send(copy) else {
            return Err(DeliverFault::Memory);
        };
        Ok(())
    }

    /// All requests that are ready or lined up, ascending by their stamps. The only error is want of memory; where none
    /// is ready none is wanted.
    pub fn ready(&self) -> Result<Vec<Delivered>, AllocError>
        ensures layer { IfOk result (λ layer. IsLayer (queue_of self.now.queues) layer.items) }
        ensures succeeds { ((d : Delivered) → ¬ IsReady (queue_of self.now.queues) d) → IsOk result }
        ensures sound { IsSound (queue_of self.now.queues) }
    {
        self.queues.ready(self.alloc)
    }

    /// Whether some request is ready. It takes no memory.
    pub fn has_ready(&self) -> bool
        ensures { IsTrue result ↔ ((d : Delivered) × IsReady (queue_of self.now.queues) d) }
    {
        self.queues.has_ready()
    }

    /// Takes a layer out of the queues. It takes no memory. What `ready` says of the queues holds of them.
    pub fn lose_layer(&mut self, layer: &[Delivered])
        requires sound { IsSound (queue_of self.old.queues) }
        requires layer { IsLayer (queue_of self.old.queues) layer.now }
        ensures { LosesLayer self.old layer.now self.new }
    {
        self.queues.pop_all(layer);
    }

    /// The clock of a group. A group that isn't there has the clock of a new one.
    pub fn clock(&self, group: GroupId) -> u64
        ensures { result ≡ (group_of self.now.groups group).clock }
    {
        match self.groups.get(usize::from(group.number())) {
            Some(group) => group.clock(),
            None => 0,
        }
    }

    /// The request at this place of those that the group has delivered and no layer has taken, counted from 0 from the
    /// oldest.
    pub fn delivered(&self, group: GroupId, place: usize) -> Option<&Delivered>
        ensures { option_copied result ≡ slice_get (queue_of self.now.queues group) place }
    {
        self.queues.delivered(group, place)
    }

    /// How many requests the group has delivered that no layer has taken.
    pub fn queued(&self, group: GroupId) -> usize
        ensures { result ≡ length (queue_of self.now.queues group) }
    {
        self.queues.queued(group)
    }
}

/// The first groups, each new.
fn new_groups(alloc: Global, count: u8) -> Result<Vec<Group>, AllocError>
    requires { count ≤ 64 }
    ensures count { IfOk result (λ groups. length groups.items ≡ count) }
    ensures fresh { IfOk result (λ groups. (g : ℕ) → g < length groups.items
        → slice_get groups.items g ≡ Some (new_group g)) }
{
    let mut groups = Vec::with_capacity(alloc, usize::from(count))?;
    for number in 0..count {
        push_new(&mut groups, alloc, GroupId::new(number))?;
    }
    Ok(groups)
}

/// Puts the new group of this number behind the others.
fn push_new(groups: &mut Vec<Group>, alloc: Global, id: GroupId) -> Result<(), AllocError>
    ensures { OnOk result (groups.new.items ≡ groups.old.items ++ new_group id ∷ []) }
{
    groups.push(Group::new(alloc, id))?;
    Ok(())
}

/// Takes the room for what the packet's group may send and deliver when it comes; whether there was memory for it.
fn make_room(groups: &Vec<Group>, links: &mut Links, queues: &mut Queues, packet: &Packet) -> bool
    requires there { packet.now.to < length groups.now.items }
    requires queue { packet.now.to < length queues.old.queues }
    ensures packets { links.new.packets ≡ links.old.packets }
    ensures queues { queues.new.queues ≡ queues.old.queues }
    ensures sends { result ≡ true → sends_at_most packet.now.body ≤ links.new.room }
    ensures delivers { result ≡ true → len (group_of groups.now.items packet.now.to).started + 1 ≤ room_of queues.new.rooms packet.now.to }
{
    let sends = match &packet.body {
        Body::Start { floor: _, groups } => groups.len(),
        Body::Proposal { .. } => 0,
    };
    let delivers = groups[usize::from(packet.to.number())].started() + 1;
    links.reserve(sends).is_ok() && queues.reserve(packet.to, delivers).is_ok()
}

/// Sends these packets, for which there is room.
fn send_all(links: &mut Links, sent: Vec<Packet>)
    requires { length sent.items ≤ links.old.room }
    ensures { links.new.packets ≡ links.old.packets ++ sent.items }
{
    for packet in sent {
        let Ok(()) = links.send(packet) else {
            unreachable!()
        };
    }
}

/// Puts these requests behind the group's queue, for which there is room.
fn append_all(queues: &mut Queues, group: GroupId, delivered: Vec<Delivered>)
    requires there { group < length queues.old.queues }
    requires may_append { MayAppendAll (queue_of queues.old.queues) group delivered.items }
    requires room { length delivered.items ≤ room_of queues.old.rooms group }
    ensures count { length queues.new.queues ≡ length queues.old.queues }
    ensures appended { (g : ℕ)
        → queue_of queues.new.queues g ≡ at (queue_of queues.old.queues) group (queue_of queues.old.queues group ++ delivered.items) g }
{
    for request in delivered {
        let Ok(()) = queues.append(group, request) else {
            unreachable!()
        };
    }
}

/// Each of these groups delivers the request, where it is alone there, at the greatest stamp that they would propose for it. None where
/// it isn't alone, or where one of several has delivered none of its connection before, or where there is no memory for the first one of
/// a connection; nothing changes then.
#[inline]
fn settle_at_once(
    groups: &mut Vec<Group>,
    queues: &Queues,
    id: RequestId,
    floor: u64,
    addressed: Groups,
) -> Option<Stamp>
    requires there { (g : ℕ) → has addressed g ≡ true → g < length groups.old.items }
    requires clocks { (g : ℕ) → has addressed g ≡ true → (group_of groups.old.items g).clock ≤ GREATEST_CLOCK }
    requires floor { (g : ℕ) → has addressed g ≡ true → floor ≤ GREATEST_CLOCK }
    ensures alone { IfSome result (IsAlone groups.old.items queues.now.queues id floor addressed) }
    ensures settled { IfSome result (λ s. AreSettled groups.old.items id s.clock addressed groups.new.items) }
    ensures unchanged { IfNone result (groups.new.items ≡ groups.old.items) }
{
    if let Some(group) = addressed.alone() {
        return settle_at(groups, queues, id, floor, group);
    }
    let (stamp, are_known) = greatest_offer(groups, queues, id, floor, addressed)?;
    if !are_known {
        return None;
    }
    settle_all(groups, id, stamp.clock, addressed);
    Some(stamp)
}

/// The same of one group, which looks the connection up once.
#[inline]
fn settle_at(
    groups: &mut Vec<Group>,
    queues: &Queues,
    id: RequestId,
    floor: u64,
    group: GroupId,
) -> Option<Stamp>
    requires there { group < length groups.old.items }
    requires clock { (group_of groups.old.items group).clock ≤ GREATEST_CLOCK }
    requires floor { floor ≤ GREATEST_CLOCK }
    ensures alone { IfSome result (IsAlone groups.old.items queues.now.queues id floor (group ∷ [])) }
    ensures settled { IfSome result (λ s. AreSettled groups.old.items id s.clock (group ∷ []) groups.new.items) }
    ensures unchanged { IfNone result (groups.new.items ≡ groups.old.items) }
{
    if queues.queued(group) != 0 {
        return None;
    }
    let clock = groups[usize::from(group.number())].pass(id, floor)?;
    Some(Stamp { clock, group })
}

/// The greatest stamp that its groups would propose for a request that is alone, if it is; and whether each of them has delivered an
/// earlier one of its connection.
#[inline]
fn greatest_offer(
    groups: &Vec<Group>,
    queues: &Queues,
    id: RequestId,
    floor: u64,
    addressed: Groups,
) -> Option<(Stamp, bool)>
    requires there { (g : ℕ) → has addressed g ≡ true → g < length groups.now.items }
    requires clocks { (g : ℕ) → has addressed g ≡ true → (group_of groups.now.items g).clock ≤ GREATEST_CLOCK }
    requires floor { (g : ℕ) → has addressed g ≡ true → floor ≤ GREATEST_CLOCK }
    ensures alone { IfSome result (λ it. IsAlone groups.now.items queues.now.queues id floor addressed it.0) }
    ensures known { IfSome result (λ it. it.1 ≡ true → (g : ℕ) → has addressed g ≡ true
        → IsSome (get (group_of groups.now.items g).reached id.conn.0)) }
{
    let mut greatest = Stamp {
        clock: 0,
        group: GroupId::new(0),
    };
    let mut are_known = true;
    for group in addressed.iter() {
        if queues.queued(group) != 0 {
            return None;
        }
        let (clock, is_known) = groups[usize::from(group.number())].offer(id, floor)?;
        are_known &= is_known;
        let proposed = Stamp { clock, group };
        if greatest < proposed {
            greatest = proposed;
        }
    }
    Some((greatest, are_known))
}

/// Each of these groups delivers the request, which is alone there, at a stamp of this clock.
#[inline]
fn settle_all(groups: &mut Vec<Group>, id: RequestId, clock: u64, addressed: Groups)
    requires there { (g : ℕ) → has addressed g ≡ true → g < length groups.old.items }
    requires known { (g : ℕ) → has addressed g ≡ true → IsSome (get (group_of groups.old.items g).reached id.conn.0) }
    requires low { (g : ℕ) → has addressed g ≡ true → (group_of groups.old.items g).clock ≤ clock }
    ensures { AreSettled groups.old.items id clock addressed groups.new.items }
{
    // `len` is called for its clause that each group is there once.
    let _ = addressed.len();
    for group in addressed.iter() {
        let Ok(()) = groups[usize::from(group.number())].settle(id, clock) else {
            unreachable!()
        };
    }
}
