//! The rule of one group of three as a plain program, which looks through all that it keeps for the request at the least
//! place, and through all that it delivered for what is past: what a `Group` is compared with.

use groups::{GroupId, Groups, RequestId, Stamp};
use skeen_core::{Body, Delivered, Packet};
use std::alloc::{AllocError, Global};

/// A request of which the group has heard.
#[derive(Clone, Copy)]
struct Heard {
    id: RequestId,

    /// Its groups, once its Start has come.
    groups: Option<Groups>,

    /// The clock of each group's proposal.
    proposals: [Option<u64>; 3],
}

impl Heard {
    /// The proposal of a group.
    fn proposal(&self, group: GroupId) -> Option<Stamp> {
        let proposed = self.proposals.get(usize::from(group.number()))?;
        match *proposed {
            Some(clock) => Some(Stamp { clock, group }),
            None => None,
        }
    }

    /// A group proposes this clock. What it proposed before stands.
    fn hear(&mut self, group: GroupId, clock: u64) {
        if let Some(proposed) = self.proposals.get_mut(usize::from(group.number())) {
            if proposed.is_none() {
                *proposed = Some(clock);
            }
        }
    }

    /// The greatest proposal, if the request has started and each of its groups has made one.
    fn final_stamp(&self) -> Option<Stamp> {
        let groups = self.groups?;
        let mut greatest = None;
        for group in groups.iter() {
            greatest = greatest.max(Some(self.proposal(group)?));
        }
        greatest
    }

    /// Where it stands at this group, if it has started: at its final stamp if that is known, else at the own proposal.
    fn place(&self, me: GroupId) -> Option<Stamp> {
        if self.groups.is_none() {
            return None;
        }
        match self.final_stamp() {
            Some(stamp) => Some(stamp),
            None => self.proposal(me),
        }
    }
}

/// A group that keeps a list.
#[derive(Drop)]
pub(crate) struct PlainGroup {
    me: GroupId,
    clock: u64,
    heard: Vec<Heard>,

    /// All that it has delivered.
    past: Vec<RequestId>,

    /// What it sent for the last packet.
    pub(crate) sent: Vec<Packet>,

    /// What it delivered for the last packet.
    pub(crate) delivered: Vec<Delivered>,
}

impl PlainGroup {
    pub(crate) fn new(alloc: Global, me: GroupId) -> Self {
        PlainGroup {
            me,
            clock: 0,
            heard: Vec::new(alloc),
            past: Vec::new(alloc),
            sent: Vec::new(alloc),
            delivered: Vec::new(alloc),
        }
    }

    pub(crate) fn clock(&self) -> u64 {
        self.clock
    }

    /// Of how many requests it has heard that it hasn't delivered.
    pub(crate) fn kept(&self) -> usize {
        self.heard.len()
    }

    /// Whether it has delivered this request of its connection, or a later one.
    pub(crate) fn is_past(&self, id: RequestId) -> bool {
        for past in &self.past {
            if past.conn == id.conn && past.seq >= id.seq {
                return true;
            }
        }
        false
    }

    /// A packet comes. One of a request that is past does nothing.
    pub(crate) fn receive(&mut self, packet: &Packet) -> Result<(), AllocError> {
        self.sent.clear();
        self.delivered.clear();
        if self.is_past(packet.id) {
            return Ok(());
        }
        let place = self.place_of(packet.id)?;
        match packet.body {
            Body::Start { floor, groups } => self.start(place, floor, groups)?,
            Body::Proposal { from, clock } => self.hear(place, from, clock),
        }
        self.settle();
        self.deliver()
    }

    /// The place of a request in the list, to which it is added if it isn't there.
    fn place_of(&mut self, id: RequestId) -> Result<usize, AllocError> {
        for (place, request) in self.heard.iter().enumerate() {
            if request.id == id {
                return Ok(place);
            }
        }
        let place = self.heard.len();
        self.heard.push(Heard {
            id,
            groups: None,
            proposals: [None; 3],
        })?;
        Ok(place)
    }

    fn hear(&mut self, place: usize, from: GroupId, clock: u64) {
        if let Some(request) = self.heard.get_mut(place) {
            request.hear(from, clock);
        }
    }

    /// The request at this place begins, unless it has begun.
    fn start(&mut self, place: usize, floor: u64, groups: Groups) -> Result<(), AllocError> {
        let me = self.me;
        let clock = self.clock.max(floor).saturating_add(1);
        let Some(request) = self.heard.get_mut(place) else {
            return Ok(());
        };
        if request.groups.is_some() {
            return Ok(());
        }
        request.groups = Some(groups);
        request.hear(me, clock);
        self.clock = clock;
        let id = request.id;
        self.tell(id, clock, groups)
    }

    /// Tells the other groups of the own proposal.
    fn tell(&mut self, id: RequestId, clock: u64, groups: Groups) -> Result<(), AllocError> {
        let from = self.me;
        for to in groups.iter() {
            if to != from {
                let body = Body::Proposal { from, clock };
                self.sent.push(Packet { to, id, body })?;
            }
        }
        Ok(())
    }

    /// The clock is at least that of each final stamp.
    fn settle(&mut self) {
        for request in &self.heard {
            if let Some(stamp) = request.final_stamp() {
                self.clock = self.clock.max(stamp.clock);
            }
        }
    }

    /// The place in the list of the request that stands at the least place.
    fn least(&self) -> Option<usize> {
        let mut least: Option<(Stamp, usize)> = None;
        for (place, request) in self.heard.iter().enumerate() {
            if let Some(stamp) = request.place(self.me) {
                if is_before(&stamp, &least) {
                    least = Some((stamp, place));
                }
            }
        }
        match least {
            Some((_, place)) => Some(place),
            None => None,
        }
    }

    /// Takes out the request at the least place again and again, until that one has no final stamp.
    fn deliver(&mut self) -> Result<(), AllocError> {
        for _ in 0..self.heard.len() {
            if !self.deliver_least()? {
                break;
            }
        }
        Ok(())
    }

    /// Takes out the request at the least place, if it has its final stamp. Whether it has.
    fn deliver_least(&mut self) -> Result<bool, AllocError> {
        let Some(place) = self.least() else {
            return Ok(false);
        };
        let Some(request) = self.heard.get(place) else {
            return Ok(false);
        };
        let (id, groups, stamp) = (request.id, request.groups, request.final_stamp());
        let (Some(groups), Some(stamp)) = (groups, stamp) else {
            return Ok(false);
        };
        self.delivered.push(Delivered { id, stamp, groups })?;
        self.past.push(id)?;
        self.heard.remove(place);
        Ok(true)
    }
}

/// Whether the stamp is before the least one so far, if there is one.
fn is_before(stamp: &Stamp, least: &Option<(Stamp, usize)>) -> bool {
    match least {
        Some((other, _)) => stamp < other,
        None => true,
    }
}
