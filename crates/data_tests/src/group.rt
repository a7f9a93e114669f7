//! What happens packet by packet, with the clocks worked out by hand from the rule.

use crate::watched::{Name, Watched, request};
use groups::{GroupId, Groups, Stamp};
use skeen_core::{Body, Delivered, Links, Packet};
use std::alloc::{AllocError, Global};
use std::test::Fail;
use test_support::{holds, same, same_count, same_number};

/// Groups: the first of them, and the end.
pub(crate) type Set = (u8, u8);

/// A packet to the group of the first number, about the request of this name.
#[derive(Clone, Copy)]
pub(crate) enum Told {
    /// The request begins, with this floor and these groups.
    Start(u8, Name, u64, Set),

    /// A group proposes a stamp with this clock.
    Proposal(u8, Name, u8, u64),
}

/// A request that is delivered: its name, the clock and the group of its final stamp, and its groups.
type Goes = (Name, u64, u8, Set);

/// What a packet must lead to: what the group sends and delivers, its clock, and how many requests it keeps.
type Wanted<'a> = (&'a [Told], &'a [Goes], u64, usize);

/// A packet in words, the packet, and what it must lead to.
pub(crate) type Step<'a> = (&'a str, Told, Wanted<'a>);

/// A packet in words, the place from which it is taken, and what it must lead to.
type Row<'a> = (&'a str, usize, Wanted<'a>);

pub(crate) const BOTH: Set = (0, 2);

pub(crate) const ALONE: Set = (0, 1);

const ALL: Set = (0, 64);

/// The group of this number, which is at most 63.
fn group_of(number: u8) -> GroupId {
    GroupId::new(number.min(63))
}

fn groups_of(set: Set) -> Groups {
    let (first, end) = set;
    let mut groups = Groups::empty();
    for number in first..end {
        groups = groups.with(group_of(number));
    }
    groups
}

fn body_of(told: Told) -> Body {
    match told {
        Told::Start(_, _, floor, set) => Body::Start {
            floor,
            groups: groups_of(set),
        },
        Told::Proposal(_, _, from, clock) => Body::Proposal {
            from: group_of(from),
            clock,
        },
    }
}

pub(crate) fn packet_of(told: Told) -> Packet {
    let (to, name) = match told {
        Told::Start(to, name, _, _) => (to, name),
        Told::Proposal(to, name, _, _) => (to, name),
    };
    Packet {
        to: group_of(to),
        id: request(name),
        body: body_of(told),
    }
}

fn delivered_of(goes: Goes) -> Delivered {
    let (name, clock, group, set) = goes;
    Delivered {
        id: request(name),
        stamp: Stamp {
            clock,
            group: group_of(group),
        },
        groups: groups_of(set),
    }
}

/// These packets are sent.
fn are_sent(name: &str, sent: &[Packet], wanted: &[Told]) -> Result<(), Fail> {
    same_count(name, sent.len(), wanted.len())?;
    for (packet, told) in sent.iter().zip(wanted) {
        same(name, packet, &packet_of(*told))?;
    }
    Ok(())
}

/// These requests are delivered.
fn are_delivered(name: &str, delivered: &[Delivered], wanted: &[Goes]) -> Result<(), Fail> {
    same_count(name, delivered.len(), wanted.len())?;
    for (request, goes) in delivered.iter().zip(wanted) {
        same(name, request, &delivered_of(*goes))?;
    }
    Ok(())
}

/// This packet is sent, and no other.
fn is_sent(sent: &[Packet], wanted: Told) -> Result<(), Fail> {
    same_count("packets", sent.len(), 1)?;
    match sent.first() {
        Some(packet) => same("a packet", packet, &packet_of(wanted)),
        None => Err("no packet".into()),
    }
}

/// This request is delivered, and no other.
fn is_delivered(delivered: &[Delivered], wanted: Goes) -> Result<(), Fail> {
    same_count("deliveries", delivered.len(), 1)?;
    match delivered.first() {
        Some(request) => same("a delivery", request, &delivered_of(wanted)),
        None => Err("no delivery".into()),
    }
}

/// Hands the packet to the group and looks at what it does.
fn step(
    name: &str,
    alloc: Global,
    group: &mut Watched,
    packet: Packet,
    wanted: Wanted,
) -> Result<(), Fail> {
    let (sends, delivers, clock, kept) = wanted;
    group.receive(name, alloc, packet)?;
    are_sent(name, &group.sent, sends)?;
    are_delivered(name, &group.delivered, delivers)?;
    group.shows(name, clock, kept)
}

/// Hands the packets of these rows to the group in turn.
pub(crate) fn step_each(alloc: Global, group: &mut Watched, rows: &[Step]) -> Result<(), Fail> {
    for row in rows {
        let (name, told, wanted) = *row;
        step(name, alloc, group, packet_of(told), wanted)?;
    }
    Ok(())
}

/// Two groups and the packets between them.
#[derive(Drop)]
struct Pair {
    links: Links,
    zero: Watched,
    one: Watched,
}

impl Pair {
    fn new(alloc: Global) -> Self {
        Pair {
            links: Links::new(alloc),
            zero: Watched::new(alloc, GroupId::new(0)),
            one: Watched::new(alloc, GroupId::new(1)),
        }
    }

    /// Takes out the packet at this place, hands it to its group, and sends what that one sends.
    fn deliver(&mut self, alloc: Global, row: &Row) -> Result<(), Fail> {
        let (name, place, wanted) = *row;
        let packet = self.links.take(place).ok_or("no packet at that place")?;
        if packet.to.number() == 0 {
            hand(name, alloc, &mut self.links, &mut self.zero, packet, wanted)
        } else {
            hand(name, alloc, &mut self.links, &mut self.one, packet, wanted)
        }
    }

    /// Delivers the packets of these rows in turn.
    fn deliver_each(&mut self, alloc: Global, rows: &[Row]) -> Result<(), Fail> {
        for row in rows {
            self.deliver(alloc, row)?;
        }
        Ok(())
    }

    /// Sends the first packets, and delivers those of the rows in turn, behind which none is left.
    fn follow(&mut self, alloc: Global, first: &[Told], rows: &[Row]) -> Result<(), Fail> {
        begin(&mut self.links, first)?;
        self.deliver_each(alloc, rows)?;
        holds("no packet is left", self.links.is_empty())
    }
}

/// Hands the packet to the group, looks at what it does, and sends what it sends.
fn hand(
    name: &str,
    alloc: Global,
    links: &mut Links,
    group: &mut Watched,
    packet: Packet,
    wanted: Wanted,
) -> Result<(), Fail> {
    step(name, alloc, group, packet, wanted)?;
    send_all(links, &group.sent)
}

/// Sends a packet. Where memory is refused nothing has changed, and it is sent again.
fn send(links: &mut Links, packet: Packet) -> Result<(), Fail> {
    let len = links.len();
    if links.send(Packet { ..packet }).is_err() {
        same_count("packets", links.len(), len)?;
        links.send(packet)?;
    }
    Ok(())
}

/// Sends packets in turn.
pub(crate) fn send_all(links: &mut Links, packets: &[Packet]) -> Result<(), Fail> {
    for packet in packets {
        send(links, *packet)?;
    }
    Ok(())
}

/// Sends the first packets in turn.
fn begin(links: &mut Links, first: &[Told]) -> Result<(), Fail> {
    for told in first {
        send(links, packet_of(*told))?;
    }
    Ok(())
}

/// The only requests of their connections.
pub(crate) const A: Name = (1, 1);

pub(crate) const B: Name = (2, 1);

pub(crate) const C: Name = (3, 1);

#[rattlefmt::skip]
pub(crate) const ONE_GROUP: [Step; 5] = [
    ("Start a", Told::Start(0, A, 0, BOTH), (&[Told::Proposal(1, A, 0, 1)], &[], 1, 1)),
    ("Start a again", Told::Start(0, A, 0, BOTH), (&[], &[], 1, 1)),
    ("Start b", Told::Start(0, B, 0, ALONE), (&[], &[], 2, 2)),
    ("a's proposal", Told::Proposal(0, A, 1, 5), (&[], &[(B, 2, 0, ALONE), (A, 5, 1, BOTH)], 5, 0)),
    ("Start c", Told::Start(0, C, 7, ALONE), (&[], &[(C, 8, 0, ALONE)], 8, 0)),
];

#[test]
fn one_group_packet_by_packet(rt: HostRuntime) -> Result<(), Fail> {
    let mut group = Watched::new(rt.alloc(), GroupId::new(0));
    step_each(rt.alloc(), &mut group, &ONE_GROUP)
}

const TWO_STARTS: [Told; 4] = [
    Told::Start(0, A, 0, BOTH),
    Told::Start(1, A, 0, BOTH),
    Told::Start(0, B, 0, BOTH),
    Told::Start(1, B, 0, BOTH),
];

const IN_ORDER: [Goes; 2] = [(B, 2, 0, BOTH), (A, 2, 1, BOTH)];

#[rattlefmt::skip]
const CROSSING: [Row; 8] = [
    ("Start a at 0", 0, (&[Told::Proposal(1, A, 0, 1)], &[], 1, 1)),
    ("Start b at 1", 2, (&[Told::Proposal(0, B, 1, 1)], &[], 1, 1)),
    ("Start b at 0", 1, (&[Told::Proposal(1, B, 0, 2)], &[], 2, 2)),
    ("Start a at 1", 0, (&[Told::Proposal(0, A, 1, 2)], &[], 2, 2)),
    ("a's proposal at 1", 0, (&[], &[], 2, 2)),
    ("b's proposal at 0", 0, (&[], &[], 2, 2)),
    ("b's proposal at 1", 0, (&[], &IN_ORDER, 2, 0)),
    ("a's proposal at 0", 0, (&[], &IN_ORDER, 2, 0)),
];

#[test]
fn crossing_requests_come_in_one_order(rt: HostRuntime) -> Result<(), Fail> {
    let mut pair = Pair::new(rt.alloc());
    pair.follow(rt.alloc(), &TWO_STARTS, &CROSSING)
}

const ONE_START: [Told; 2] = [Told::Start(0, A, 0, BOTH), Told::Start(1, A, 0, BOTH)];

#[rattlefmt::skip]
const BEFORE_ITS_START: [Row; 4] = [
    ("Start at 0", 0, (&[Told::Proposal(1, A, 0, 1)], &[], 1, 1)),
    ("the proposal at 1", 1, (&[], &[], 0, 1)),
    ("Start at 1", 0, (&[Told::Proposal(0, A, 1, 1)], &[(A, 1, 1, BOTH)], 1, 0)),
    ("the proposal at 0", 0, (&[], &[(A, 1, 1, BOTH)], 1, 0)),
];

#[test]
fn a_proposal_may_come_before_its_start(rt: HostRuntime) -> Result<(), Fail> {
    let mut pair = Pair::new(rt.alloc());
    pair.follow(rt.alloc(), &ONE_START, &BEFORE_ITS_START)
}

#[rattlefmt::skip]
const FLOOR: [Step; 1] = [("a Start with a floor", Told::Start(1, A, 5, (1, 2)), (&[], &[(A, 6, 1, (1, 2))], 6, 0))];

#[test]
fn a_floor_lifts_the_proposal(rt: HostRuntime) -> Result<(), Fail> {
    let mut group = Watched::new(rt.alloc(), GroupId::new(1));
    step_each(rt.alloc(), &mut group, &FLOOR)
}

/// Requests whose connections and numbers are far from those of others.
const FAR: Name = (1 << 40, 1 << 41);

const FARTHEST: Name = (u64::MAX, 1);

#[rattlefmt::skip]
const FAR_APART: [Step; 4] = [
    ("Start far", Told::Start(0, FAR, 1 << 42, ALONE), (&[], &[(FAR, (1 << 42) + 1, 0, ALONE)], (1 << 42) + 1, 0)),
    ("Start far again", Told::Start(0, FAR, 1 << 43, ALONE), (&[], &[], (1 << 42) + 1, 0)),
    ("Start farthest", Told::Start(0, FARTHEST, 0, ALONE), (&[], &[(FARTHEST, (1 << 42) + 2, 0, ALONE)], (1 << 42) + 2, 0)),
    ("Start a", Told::Start(0, A, 0, ALONE), (&[], &[(A, (1 << 42) + 3, 0, ALONE)], (1 << 42) + 3, 0)),
];

#[test]
fn requests_may_be_far_apart(rt: HostRuntime) -> Result<(), Fail> {
    let mut group = Watched::new(rt.alloc(), GroupId::new(0));
    step_each(rt.alloc(), &mut group, &FAR_APART)
}

/// The proposals of group 0 to all others.
fn told_to_63(alloc: Global) -> Result<Vec<Told>, AllocError> {
    let mut told = Vec::new(alloc);
    for to in 1..64u8 {
        told.push(Told::Proposal(to, A, 0, 1))?;
    }
    Ok(told)
}

#[test]
fn a_start_for_64_groups_is_told_to_63(rt: HostRuntime) -> Result<(), Fail> {
    let told = told_to_63(rt.alloc())?;
    let mut group = Watched::new(rt.alloc(), GroupId::new(0));
    let start = packet_of(Told::Start(0, A, 0, ALL));
    step(
        "a Start for all",
        rt.alloc(),
        &mut group,
        start,
        (&told, &[], 1, 1),
    )
}

/// The Start of a connection's request comes to an idle group, which delivers it.
fn goes_at_once(alloc: Global, group: &mut Watched, conn: u64) -> Result<(), Fail> {
    let start = packet_of(Told::Start(0, (conn, 1), 0, ALONE));
    group.receive("a Start", alloc, start)?;
    same_count("packets", group.sent.len(), 0)?;
    is_delivered(&group.delivered, ((conn, 1), conn, 0, ALONE))?;
    group.shows("a Start", conn, 0)?;
    same_count("started requests", group.group.started(), 0)?;
    same_number("looks", group.group.looks(), 1)
}

fn each_goes_at_once(alloc: Global, group: &mut Watched) -> Result<(), Fail> {
    same_number("looks before the first packet", group.group.looks(), 0)?;
    for conn in 1..5 {
        goes_at_once(alloc, group, conn)?;
    }
    Ok(())
}

#[test]
fn a_start_at_an_idle_group_is_delivered_at_once(rt: HostRuntime) -> Result<(), Fail> {
    let mut group = Watched::new(rt.alloc(), GroupId::new(0));
    each_goes_at_once(rt.alloc(), &mut group)
}

/// The Start of a connection's request comes, which then waits, as all before it.
fn is_open(alloc: Global, group: &mut Watched, conn: u64) -> Result<(), Fail> {
    let start = packet_of(Told::Start(0, (conn, 1), 0, BOTH));
    group.receive("a Start", alloc, start)?;
    is_sent(&group.sent, Told::Proposal(1, (conn, 1), 0, conn))?;
    same_count("deliveries", group.delivered.len(), 0)?;
    group.shows("a Start", conn, conn as usize)
}

/// Gives group 0 the Starts of 100 requests of two groups, which wait for the other one's proposals. Its own are 1 to 100.
fn open_100(alloc: Global, group: &mut Watched) -> Result<(), Fail> {
    for conn in 1..101 {
        is_open(alloc, group, conn)?;
    }
    same_count("started requests", group.group.started(), 100)
}

/// The other group's proposal for a request comes, whose clock is the request's own.
fn is_answered(alloc: Global, group: &mut Watched, conn: u64) -> Result<(), Fail> {
    let answer = packet_of(Told::Proposal(0, (conn, 1), 1, conn));
    group.receive("a proposal", alloc, answer)
}

/// Proposals come for all requests but the oldest one, the newest first, and nothing is delivered.
fn newer_wait(alloc: Global, group: &mut Watched) -> Result<(), Fail> {
    for newer in 0..99 {
        is_answered(alloc, group, 100 - newer)?;
        same_count("deliveries", group.delivered.len(), 0)?;
        holds("no more than two are looked at", group.group.looks() <= 2)?;
    }
    Ok(())
}

/// All 100 requests are delivered.
fn all_go(delivered: &[Delivered]) -> Result<(), Fail> {
    same_count("deliveries", delivered.len(), 100)?;
    for (request, conn) in delivered.iter().zip(1..101) {
        same(
            "a delivery",
            request,
            &delivered_of(((conn, 1), conn, 1, BOTH)),
        )?;
    }
    Ok(())
}

/// The proposal for the oldest of 100 requests lets all go.
fn oldest_lets_go(alloc: Global, group: &mut Watched) -> Result<(), Fail> {
    is_answered(alloc, group, 1)?;
    all_go(&group.delivered)?;
    holds("no more than 102 are looked at", group.group.looks() <= 102)?;
    group.shows("the end", 100, 0)
}

fn wait_and_go(alloc: Global, group: &mut Watched) -> Result<(), Fail> {
    open_100(alloc, group)?;
    newer_wait(alloc, group)?;
    oldest_lets_go(alloc, group)
}

#[test]
fn the_oldest_of_100_lets_all_go(rt: HostRuntime) -> Result<(), Fail> {
    let mut group = Watched::new(rt.alloc(), GroupId::new(0));
    wait_and_go(rt.alloc(), &mut group)
}

/// Proposals come for all requests, the oldest first, and each lets its own go.
fn each_goes(alloc: Global, group: &mut Watched) -> Result<(), Fail> {
    for conn in 1..101 {
        is_answered(alloc, group, conn)?;
        is_delivered(&group.delivered, ((conn, 1), conn, 1, BOTH))?;
        holds("no more than three are looked at", group.group.looks() <= 3)?;
    }
    Ok(())
}

fn go_one_by_one(alloc: Global, group: &mut Watched) -> Result<(), Fail> {
    open_100(alloc, group)?;
    each_goes(alloc, group)?;
    group.shows("the end", 100, 0)
}

#[test]
fn each_of_100_goes_where_the_oldest_is_first(rt: HostRuntime) -> Result<(), Fail> {
    let mut group = Watched::new(rt.alloc(), GroupId::new(0));
    go_one_by_one(rt.alloc(), &mut group)
}

/// The packet at this place is the Start of this connection's request; it is taken, and so many are left.
fn takes(links: &mut Links, place: usize, conn: u64, left: usize) -> Result<(), Fail> {
    let start = packet_of(Told::Start(0, (conn, 1), 0, BOTH));
    same("the packet at a place", &links.packet(place), &Some(&start))?;
    same("the packet taken out", &links.take(place), &Some(start))?;
    same_count("packets left", links.len(), left)
}

const STARTS: [Told; 4] = [
    Told::Start(0, (1, 1), 0, BOTH),
    Told::Start(0, (2, 1), 0, BOTH),
    Told::Start(0, (3, 1), 0, BOTH),
    Told::Start(0, (4, 1), 0, BOTH),
];

/// Places from which packets are taken, the connections of those, and how many are left.
const TAKEN: [(usize, u64, usize); 4] = [(1, 2, 3), (1, 3, 2), (1, 4, 1), (0, 1, 0)];

fn takes_each(links: &mut Links) -> Result<(), Fail> {
    for (place, conn, left) in TAKEN {
        takes(links, place, conn, left)?;
    }
    holds("no packet is left", links.take(0).is_none())
}

/// Takes room for four packets, once more where there was no memory.
fn reserves(links: &mut Links) -> Result<(), Fail> {
    if links.reserve(4).is_err() {
        links.reserve(4)?;
    }
    Ok(())
}

fn sends_and_takes(links: &mut Links) -> Result<(), Fail> {
    reserves(links)?;
    begin(links, &STARTS)?;
    takes_each(links)
}

#[test]
fn links_keep_the_order_of_sending(rt: HostRuntime) -> Result<(), Fail> {
    sends_and_takes(&mut Links::new(rt.alloc()))
}
