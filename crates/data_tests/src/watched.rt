//! A group of the multicast, beside what it sent and delivered for the last packet.

use groups::{ConnId, GroupId, RequestId};
use skeen_core::{Delivered, Group, Packet};
use std::alloc::Global;
use std::test::Fail;
use test_support::{holds, same_count, same_number};

/// A connection, and the number of a request of it.
pub(crate) type Name = (u64, u64);

/// The request of this name.
pub(crate) fn request(name: Name) -> RequestId {
    let (conn, seq) = name;
    RequestId {
        conn: ConnId(conn),
        seq,
    }
}

/// A group, and what came of the last packet.
#[derive(Drop)]
pub(crate) struct Watched {
    pub(crate) group: Group,

    /// What it sent for the last packet.
    pub(crate) sent: Vec<Packet>,

    /// What it delivered for the last packet.
    pub(crate) delivered: Vec<Delivered>,
}

impl Watched {
    /// A group to which no packet came.
    pub(crate) fn new(alloc: Global, id: GroupId) -> Self {
        Watched {
            group: Group::new(alloc, id),
            sent: Vec::new(alloc),
            delivered: Vec::new(alloc),
        }
    }

    /// It has this clock and keeps so many requests.
    pub(crate) fn shows(&self, name: &str, clock: u64, kept: usize) -> Result<(), Fail> {
        same_number(name, self.group.clock(), clock)?;
        same_count(name, self.group.kept(), kept)
    }

    /// A packet comes. Where memory is refused nothing has changed, and it comes again. Of its started requests the group
    /// looks at those that it delivers, and at two more at most.
    pub(crate) fn receive(
        &mut self,
        name: &str,
        alloc: Global,
        packet: Packet,
    ) -> Result<(), Fail> {
        let (clock, kept) = (self.group.clock(), self.group.kept());
        if !self.receives(name, alloc, &packet)? {
            self.shows(name, clock, kept)?;
            let received = self.receives(name, alloc, &packet)?;
            holds(name, received)?;
        }
        self.looks_at_few(name)
    }

    /// Hands the group a packet, which may come. Whether there was memory for it.
    fn receives(&mut self, name: &str, alloc: Global, packet: &Packet) -> Result<bool, Fail> {
        holds(name, self.group.may_come(packet))?;
        match self.group.receive(alloc, *packet) {
            Ok((sent, delivered)) => {
                self.sent = sent;
                self.delivered = delivered;
                Ok(true)
            }
            Err(_) => Ok(false),
        }
    }

    /// In its last receipt it looked at the requests that it delivered, and at two more at most.
    fn looks_at_few(&self, name: &str) -> Result<(), Fail> {
        let (looks, delivered) = (self.group.looks(), self.delivered.len() as u64);
        holds(
            name,
            delivered <= looks && looks <= delivered.saturating_add(2),
        )
    }
}
