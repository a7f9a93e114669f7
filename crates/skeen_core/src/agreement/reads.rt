//! What can be read of a group.
ghost use Rattle.std.specs.Prelude.{◌≡◌, ◌<◌, ◌^◌, ◌↔◌, IsTrue};
ghost use Rattle.std.specs.FinMap.{len};
ghost use Rattle.skeen_core.specs.Group.{MayCome, BodyMayCome, CountsKept};
ghost use Rattle.skeen_core.specs.Proposals.{agrees};

use super::Agreement;
use crate::coming::GREATEST_CLOCK;
use crate::heard::clock_of;
use crate::packet::{Body, Packet};
use groups::RequestId;

impl Agreement {
    /// The group's clock: at least that of every stamp that it proposed or settled.
    pub fn clock(&self) -> u64
        ensures { result ≡ self.now.state.clock }
    {
        self.clock
    }

    /// How many requests have started and are not yet delivered.
    pub fn started(&self) -> usize
        ensures count { result ≡ len self.now.state.started }
        ensures small { result < 2 ^ 63 }
    {
        self.pending.len()
    }

    /// How many requests the group keeps: those that have started, and those that haven't but of which a proposal came.
    pub fn kept(&self) -> usize
        ensures { CountsKept self.now.state result }
    {
        self.proposals.len()
    }

    /// How many of its started requests the group looked at in its last receipt, each counted once: those that it
    /// delivered, and two more at most. 0 before the first receipt; one that is refused for want of memory doesn't
    /// count.
    pub fn looks(&self) -> u64
        ensures { result ≡ self.now.looks }
    {
        self.looks
    }

    /// Whether the packet may come: whether `receive` can be called with it. It looks at each request that is kept, so
    /// it is for callers that can't prove the condition.
    pub fn may_come(&self, packet: &Packet) -> bool
        ensures { IsTrue result ↔ MayCome self.now.me self.now.state packet.now }
    {
        packet.to == self.id
            && self.clock <= GREATEST_CLOCK
            && self.body_may_come(packet.id, &packet.body)
    }

    fn body_may_come(&self, id: RequestId, body: &Body) -> bool
        ensures { IsTrue result ↔ BodyMayCome self.now.me self.now.state id body.now }
    {
        match body {
            Body::Start { floor, groups } => groups.contains(self.id) && *floor <= GREATEST_CLOCK,
            Body::Proposal { from, clock } => {
                *from != self.id
                    && *clock <= GREATEST_CLOCK
                    && self.proposals.is_single(id, *from, *clock)
                    && agrees(clock_of(self.proposals.of(id), *from), *clock)
            }
        }
    }
}

/// Whether the clock is that one, if it is known.
fn agrees(known: Option<u64>, clock: u64) -> bool
    ensures { result ≡ agrees known clock }
{
    match known {
        Some(known) => known == clock,
        None => true,
    }
}
