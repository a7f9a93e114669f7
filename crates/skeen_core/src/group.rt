//! One group: what it does with the packets that come to it. The system hands it each packet that is for it, sends what
//! it sends, and puts what it delivers in its queue.
ghost use Rattle.std.specs.Prelude.{◌≡◌, ◌+◌, ◌≤◌, ◌<◌, ◌^◌, ◌↔◌, true, IsOk, IsSome, IsTrue, length, IfOk, OnErr, OnOk, IfSome, IfNone};
ghost use Rattle.std.specs.FinMap.{get, len};
ghost use Rattle.skeen_core.specs.Group.{fresh, MayCome, Receives, CountsKept};
ghost use Rattle.skeen_core.specs.Offers.{Offers, settled};
ghost use Rattle.skeen_core.specs.declared.coming.TheConstants.{GREATEST_CLOCK};

use super::agreement::Agreement;
use super::packet::{Delivered, Packet};
use super::reached::Reached;
use groups::{GroupId, RequestId};
use std::alloc::{AllocError, Global};
use std::marker::Model;

/// One group of the multicast. A contract sees its number, its clock, the started requests with their groups, the
/// proposals that it has, how far it has got with each connection's requests, and how many of its started requests the
/// last receipt looked at.
#[derive(Drop)]
pub struct Group {
    agreement: Agreement,
    reached: Reached,
}

impl Model for Group {
    ghost use Rattle.skeen_core.specs.Group.{GroupView};
    ghost use Rattle.skeen_core.specs.Kept.{group_code};

    ghost Value = { GroupView };

    ghost coded = { group_code };

    ghost view = { λ g. record {
      me = g.agreement.me;
      state = record g.agreement.state { reached = g.reached.numbers };
      looks = g.agreement.looks;
    } };
}

impl Group {
    /// The group of this number: its clock is 0, it keeps no request, and none is past.
    pub fn new(alloc: Global, id: GroupId) -> Self
        ensures me { result.me ≡ id }
        ensures fresh { result.state ≡ fresh }
        ensures looks { result.looks ≡ 0 }
    {
        Group {
            agreement: Agreement::new(alloc, id),
            reached: Reached::new(alloc),
        }
    }

    /// Receives a packet: gives the packets that the group sends, in order, and the requests that it delivers,
    /// ascending by their final stamps. A packet of a request that is past changes nothing: this request of its
    /// connection, or a later one, was delivered. The only error is want of memory, and it changes nothing.
    ///
    /// The packet is for this group. A Start names this group. A Proposal comes from another group, and its stamp is
    /// that of no other request's proposal that the group has, and the same as that of the one it has from there for
    /// this request, if it has one. No clock, here or in the packet, is above 2^62.
    ///
    /// It sends fewer packets than the request of a Start has groups, and delivers at most one request more than
    /// `started` says. Of the started requests it looks at those that it delivers, and at two more at most.
    pub fn receive(
        &mut self,
        alloc: Global,
        packet: Packet,
    ) -> Result<(Vec<Packet>, Vec<Delivered>), AllocError>
        requires { MayCome self.old.me self.old.state packet }
        ensures me { self.new.me ≡ self.old.me }
        ensures rule { IfOk result (λ out. Receives self.old.me self.old.state packet.id packet.body
            out.0.items out.1.items self.new.state) }
        ensures few { IfOk result (λ out. length out.1.items ≤ len self.old.state.started + 1) }
        ensures looks { IfOk result (λ out. (length out.1.items ≤ self.new.looks)
            × (self.new.looks ≤ length out.1.items + 2)) }
        ensures unchanged { OnErr result (self.new ≡ self.old) }
    {
        if self.reached.is_past(packet.id) {
            self.agreement.rest();
            return Ok((Vec::new(alloc), Vec::new(alloc)));
        }
        self.reached.reserve(self.agreement.started() + 1)?;
        let (sent, delivered) = self.agreement.receive(alloc, packet)?;
        self.reached.deliver_all(delivered.as_slice());
        Ok((sent, delivered))
    }

    /// The clock that the group would propose for a request, where no request has started, and nothing of this one came before; and
    /// whether an earlier one of its connection was delivered.
    #[inline]
    pub fn offer(&self, id: RequestId, floor: u64) -> Option<(u64, bool)>
        requires clock { self.now.state.clock ≤ GREATEST_CLOCK }
        requires floor { floor ≤ GREATEST_CLOCK }
        ensures offers { IfSome result (λ it. Offers self.now.state id floor it.0) }
        ensures known { IfSome result (λ it. it.1 ≡ true → IsSome (get self.now.state.reached id.conn.0)) }
    {
        let is_known = self.reached.is_known(id)?;
        let clock = self.agreement.offer(id, floor)?;
        Some((clock, is_known))
    }

    /// A request that is alone is delivered at a stamp of this clock, which is at least the group's. The only error is want of memory,
    /// which is wanted only where no earlier one of its connection was delivered, and it changes nothing.
    #[inline]
    pub fn settle(&mut self, id: RequestId, clock: u64) -> Result<(), AllocError>
        requires { self.old.state.clock ≤ clock }
        ensures me { self.new.me ≡ self.old.me }
        ensures settled { OnOk result (self.new.state ≡ settled self.old.state id clock) }
        ensures unchanged { OnErr result (self.new ≡ self.old) }
        ensures succeeds { IsSome (get self.old.state.reached id.conn.0) → IsOk result }
    {
        self.reached.put(id)?;
        self.agreement.raise(clock);
        Ok(())
    }

    /// A request that is alone is delivered at the clock that the group would propose for it, where no request has started, and nothing
    /// of this one came before. None else, or where there is no memory for the first one of its connection; nothing changes then.
    #[inline]
    pub fn pass(&mut self, id: RequestId, floor: u64) -> Option<u64>
        requires clock { self.old.state.clock ≤ GREATEST_CLOCK }
        requires floor { floor ≤ GREATEST_CLOCK }
        ensures me { self.new.me ≡ self.old.me }
        ensures offers { IfSome result (Offers self.old.state id floor) }
        ensures settled { IfSome result (λ clock. self.new.state ≡ settled self.old.state id clock) }
        ensures unchanged { IfNone result (self.new ≡ self.old) }
    {
        let clock = self.agreement.offer(id, floor)?;
        if !self.reached.pass(id) {
            return None;
        }
        self.agreement.raise(clock);
        Some(clock)
    }

    /// The group's clock: at least that of every stamp that it proposed or settled.
    pub fn clock(&self) -> u64
        ensures { result ≡ self.now.state.clock }
    {
        self.agreement.clock()
    }

    /// How many requests have started and are not yet delivered.
    pub fn started(&self) -> usize
        ensures count { result ≡ len self.now.state.started }
        ensures small { result < 2 ^ 63 }
    {
        self.agreement.started()
    }

    /// How many requests the group keeps: those that have started, and those that haven't but of which a proposal came.
    pub fn kept(&self) -> usize
        ensures { CountsKept self.now.state result }
    {
        self.agreement.kept()
    }

    /// How many of its started requests the group looked at in its last receipt, each counted once: those that it
    /// delivered, and two more at most. 0 before the first receipt; one that is refused for want of memory doesn't
    /// count.
    pub fn looks(&self) -> u64
        ensures { result ≡ self.now.looks }
    {
        self.agreement.looks()
    }

    /// Whether the packet may come: whether `receive` can be called with it. It looks at each request that is kept, so
    /// it is for callers that can't prove the condition.
    pub fn may_come(&self, packet: &Packet) -> bool
        ensures { IsTrue result ↔ MayCome self.now.me self.now.state packet.now }
    {
        self.agreement.may_come(packet)
    }
}
