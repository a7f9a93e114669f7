//! Groups beside plain ones that search: random requests of three groups, whose packets come in any order and more than
//! once, lead to the same packets, deliveries and clocks.

use crate::group::send_all;
use crate::plain_group::PlainGroup;
use crate::watched::{Watched, request};
use groups::{GroupId, Groups, RequestId};
use skeen_core::{Body, Links, Packet};
use std::alloc::{AllocError, Global};
use std::test::Fail;
use test_support::{Dice, same, same_count, same_number};

/// How many histories are made, and how often a request begins, or a packet is repeated or comes, in each before the rest
/// of its packets come.
const HISTORIES: usize = 2_000;

const STEPS: usize = 30;

/// How many connections ask.
const CONNECTIONS: usize = 6;

/// When a connection's next request may begin.
#[derive(Clone, Copy, PartialEq)]
enum Order {
    /// Once its last one was delivered by all its groups.
    OneByOne,

    /// At any time: a group that delivers it before the last one leaves that one out from then on.
    Any,
}

/// A group, and the plain one beside it.
#[derive(Drop)]
struct Both {
    group: Watched,
    plain: PlainGroup,
}

impl Both {
    fn new(alloc: Global, id: GroupId) -> Self {
        Both {
            group: Watched::new(alloc, id),
            plain: PlainGroup::new(alloc, id),
        }
    }

    /// A packet comes to both, which do the same.
    fn receive(&mut self, alloc: Global, packet: Packet) -> Result<(), Fail> {
        self.plain.receive(&packet)?;
        self.group.receive("a packet", alloc, packet)?;
        self.agree()
    }

    /// Both sent and delivered the same for the last packet, and are at the same clock.
    fn agree(&self) -> Result<(), Fail> {
        let (group, plain) = (&self.group, &self.plain);
        same("packets", &group.sent.as_slice(), &plain.sent.as_slice())?;
        same(
            "deliveries",
            &group.delivered.as_slice(),
            &plain.delivered.as_slice(),
        )?;
        group.shows("clock and kept requests", plain.clock(), plain.kept())
    }

    /// Nothing is kept.
    fn is_empty(&self) -> Result<(), Fail> {
        same_count("kept at the end", self.group.group.kept(), 0)
    }
}

/// The last request of a connection, and what the next one may be.
#[derive(Clone, Copy)]
struct Asked {
    id: RequestId,
    groups: Groups,

    /// The least number that the next one may have.
    next: u64,
}

impl Asked {
    /// Nothing was asked.
    fn nothing() -> Self {
        Asked {
            id: request((0, 0)),
            groups: Groups::empty(),
            next: 0,
        }
    }
}

/// Three groups, the plain ones beside them, and the packets between them.
#[derive(Drop)]
struct Beside {
    links: Links,
    zero: Both,
    one: Both,
    two: Both,

    /// The last request of each connection.
    asked: [Asked; CONNECTIONS],

    /// All packets that came, in order.
    came: Vec<Packet>,
}

impl Beside {
    fn new(alloc: Global) -> Self {
        Beside {
            links: Links::new(alloc),
            zero: Both::new(alloc, GroupId::new(0)),
            one: Both::new(alloc, GroupId::new(1)),
            two: Both::new(alloc, GroupId::new(2)),
            asked: [Asked::nothing(); CONNECTIONS],
            came: Vec::new(alloc),
        }
    }

    /// How many packets are under way.
    fn under_way(&self) -> u64 {
        self.links.len() as u64
    }

    /// The plain group of this number.
    fn plain(&self, group: GroupId) -> &PlainGroup {
        match group.number() {
            0 => &self.zero.plain,
            1 => &self.one.plain,
            _ => &self.two.plain,
        }
    }

    /// Whether the last request of a connection was delivered by all its groups.
    fn is_idle(&self, asked: &Asked) -> bool {
        for group in asked.groups.iter() {
            if !self.plain(group).is_past(asked.id) {
                return false;
            }
        }
        true
    }

    /// The next request of a connection begins, with some of the groups.
    fn begin(&mut self, dice: &mut Dice, conn: u64, step: u64) -> Result<(), Fail> {
        let groups = some_groups(dice);
        let floor = dice.below(4).saturating_add(step / 4);
        let asked = self.asked.get_mut(conn as usize).ok_or("no connection")?;
        let number = asked.next.saturating_add(dice.below(2));
        let id = request((conn, number));
        let next = number.saturating_add(1);
        *asked = Asked { id, groups, next };
        send_starts(&mut self.links, id, floor, groups)?;
        Ok(())
    }

    /// The packet at this place is sent once more.
    fn repeat(&mut self, place: u64) -> Result<(), Fail> {
        let packet = self.links.packet(place as usize).ok_or("no packet")?;
        let copy = *packet;
        self.links.send(copy)?;
        Ok(())
    }

    /// The packet at this place comes to its group and to the plain one.
    fn deliver(&mut self, alloc: Global, place: u64) -> Result<(), Fail> {
        let packet = self
            .links
            .take(place as usize)
            .ok_or("no packet at that place")?;
        self.came.push(Packet { ..packet })?;
        self.hand(alloc, packet)
    }

    /// The packet comes to its group and to the plain one, and what is sent is under way.
    fn hand(&mut self, alloc: Global, packet: Packet) -> Result<(), Fail> {
        match packet.to.number() {
            0 => hand(alloc, &mut self.links, &mut self.zero, packet),
            1 => hand(alloc, &mut self.links, &mut self.one, packet),
            _ => hand(alloc, &mut self.links, &mut self.two, packet),
        }
    }

    /// A packet comes, or is repeated, if one is under way.
    fn comes_or_is_repeated(&mut self, alloc: Global, dice: &mut Dice) -> Result<(), Fail> {
        let under_way = self.under_way();
        if under_way == 0 {
            return Ok(());
        }
        let place = dice.below(under_way);
        if dice.below(6) == 0 {
            self.repeat(place)
        } else {
            self.deliver(alloc, place)
        }
    }

    /// Whether the next request of this connection may begin.
    fn may_begin(&self, conn: u64, order: Order) -> bool {
        match self.asked.get(conn as usize) {
            Some(asked) => order == Order::Any || self.is_idle(asked),
            None => false,
        }
    }

    /// A request begins, or a packet comes or is repeated.
    fn goes_on(
        &mut self,
        alloc: Global,
        dice: &mut Dice,
        order: Order,
        step: u64,
    ) -> Result<(), Fail> {
        let conn = dice.below(CONNECTIONS as u64);
        let begins = dice.below(self.under_way().saturating_add(6)) < 3;
        if begins && self.may_begin(conn, order) {
            self.begin(dice, conn, step)
        } else {
            self.comes_or_is_repeated(alloc, dice)
        }
    }

    /// Requests begin, and packets come and are repeated.
    fn begins_and_comes(
        &mut self,
        alloc: Global,
        dice: &mut Dice,
        order: Order,
    ) -> Result<(), Fail> {
        for step in 0..STEPS as u64 {
            self.goes_on(alloc, dice, order, step)?;
        }
        Ok(())
    }

    /// All packets come.
    fn comes(&mut self, alloc: Global, dice: &mut Dice) -> Result<(), Fail> {
        for _ in 0..STEPS * 9 {
            let under_way = self.under_way();
            if under_way == 0 {
                break;
            }
            self.deliver(alloc, dice.below(under_way))?;
        }
        Ok(())
    }

    /// All packets that came come once more, the last one first, and nothing is sent.
    fn comes_again(&mut self, alloc: Global) -> Result<(), Fail> {
        for _ in 0..self.came.len() {
            let packet = self.came.pop().ok_or("no packet came")?;
            self.hand(alloc, packet)?;
        }
        same_count("packets at the end", self.links.len(), 0)
    }

    /// Nothing is kept.
    fn is_empty(&self) -> Result<(), Fail> {
        self.zero.is_empty()?;
        self.one.is_empty()?;
        self.two.is_empty()
    }

    /// Requests begin and packets come, then all packets come, and then each once more.
    fn history(&mut self, alloc: Global, dice: &mut Dice, order: Order) -> Result<(), Fail> {
        self.begins_and_comes(alloc, dice, order)?;
        self.comes(alloc, dice)?;
        self.comes_again(alloc)
    }

    /// A history in which a connection's requests go one by one. Nothing is kept at its end.
    fn one_by_one(&mut self, alloc: Global, dice: &mut Dice) -> Result<(), Fail> {
        self.history(alloc, dice, Order::OneByOne)?;
        self.is_empty()
    }
}

/// A packet comes to both, and what is sent is under way.
fn hand(alloc: Global, links: &mut Links, both: &mut Both, packet: Packet) -> Result<(), Fail> {
    both.receive(alloc, packet)?;
    send_all(links, &both.group.sent)
}

/// Each of three groups, or not.
fn some_groups(dice: &mut Dice) -> Groups {
    let mut groups = Groups::empty();
    for number in 0..3u8 {
        if dice.below(2) == 0 {
            groups = groups.with(GroupId::new(number));
        }
    }
    groups
}

/// Sends the Starts of a request.
fn send_starts(
    links: &mut Links,
    id: RequestId,
    floor: u64,
    groups: Groups,
) -> Result<(), AllocError> {
    for to in groups.iter() {
        let body = Body::Start { floor, groups };
        links.send(Packet { to, id, body })?;
    }
    Ok(())
}

fn one_by_one(alloc: Global, dice: &mut Dice) -> Result<(), Fail> {
    let mut beside = Beside::new(alloc);
    beside.one_by_one(alloc, dice)
}

/// A history in which a connection's requests begin at any time.
fn in_any_order(alloc: Global, dice: &mut Dice) -> Result<(), Fail> {
    let mut beside = Beside::new(alloc);
    beside.history(alloc, dice, Order::Any)
}

#[test]
fn groups_do_what_those_do_that_search(rt: HostRuntime) -> Result<(), Fail> {
    let mut dice = Dice::new(0x9E37_79B9_7F4A_7C15);
    for _ in 0..HISTORIES {
        one_by_one(rt.alloc(), &mut dice)?;
    }
    Ok(())
}

#[test]
fn groups_leave_out_what_those_do_that_search(rt: HostRuntime) -> Result<(), Fail> {
    let mut dice = Dice::new(0xD1B5_4A32_D192_ED03);
    for _ in 0..HISTORIES {
        in_any_order(rt.alloc(), &mut dice)?;
    }
    Ok(())
}
