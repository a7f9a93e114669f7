//! How a group agrees with others on the stamps of requests, and what it may deliver then: all of a group but how far it has
//! got with each connection.
ghost use Rattle.std.specs.Prelude.{◌≡◌, ℕ, ◌+◌, ◌≤◌, ◌<◌, ◌⊎◌, [], length, Some, None, IfOk, OnErr, IfSome, MatchOption};
ghost use Rattle.std.specs.FinMap.{get, len};
ghost use Rattle.groups.specs.declared.request.RequestId.{RequestId};
ghost use Rattle.groups.specs.Stamp.{final, place_by};
ghost use Rattle.skeen_core.specs.Group.{fresh, heard, lift, next_clock, MayCome, BodyMayCome, Agrees, IsReceipt};
ghost use Rattle.skeen_core.specs.Heard.{clock_of, with_heard};
ghost use Rattle.skeen_core.specs.declared.coming.TheConstants.{GREATEST_CLOCK};

use super::heard::{Heard, clock_of, final_stamp, missing};
use super::packet::{Body, Delivered, Packet};
use super::pending::{Pending, enter, lower, settle, waiting};
use super::proposals::Proposals;
use super::tell::tell;
use groups::{GroupId, Groups, RequestId, Stamp};
use std::alloc::{AllocError, Global};
use std::collections::BTreeMap;
use std::marker::Model;

mod reads;

/// A group that hears all packets. A contract sees its number, its clock, the started requests with their groups, the
/// proposals that it has, and how many of its started requests the last receipt looked at.
#[derive(Drop)]
pub struct Agreement {
    id: GroupId,
    clock: u64,
    pending: BTreeMap<Stamp, Pending>,
    proposals: Proposals,
    looks: u64,
}

impl Model for Agreement {
    ghost use Rattle.skeen_core.specs.Group.{GroupView};
    ghost use Rattle.skeen_core.specs.Kept.{group_code, state_of, IsKept};

    ghost Value = { GroupView };

    ghost coded = { group_code };

    ghost view = { λ g. record {
      me = g.id;
      state = state_of g.clock g.pending.entries g.proposals;
      looks = g.looks;
    } };

    ghost invariant = { λ g. IsKept g.id g.clock g.pending.entries g.proposals };
}

impl Agreement {
    /// The group of this number: its clock is 0, and it keeps no request.
    pub fn new(alloc: Global, id: GroupId) -> Self
        ensures me { result.me ≡ id }
        ensures fresh { result.state ≡ fresh }
        ensures looks { result.looks ≡ 0 }
    {
        Agreement {
            id,
            clock: 0,
            pending: BTreeMap::new(alloc),
            proposals: Proposals::new(alloc),
            looks: 0,
        }
    }

    /// Receives a packet, as `Group::receive` does where the request isn't past.
    pub fn receive(
        &mut self,
        alloc: Global,
        packet: Packet,
    ) -> Result<(Vec<Packet>, Vec<Delivered>), AllocError>
        requires { MayCome self.old.me self.old.state packet }
        ensures me { self.new.me ≡ self.old.me }
        ensures rule { IfOk result (λ out. Agrees self.old.me self.old.state packet.id packet.body
            out.0.items out.1.items self.new.state) }
        ensures few { IfOk result (λ out. length out.1.items ≤ len self.old.state.started + 1) }
        ensures looks { IfOk result (λ out. (length out.1.items ≤ self.new.looks)
            × (self.new.looks ≤ length out.1.items + 2)) }
        ensures unchanged { OnErr result (self.new ≡ self.old) }
    {
        let Packet { to: _, id, body } = packet;
        match body {
            Body::Start { floor, groups } => self.start(alloc, id, floor, groups),
            Body::Proposal { from, clock } => {
                let delivered = self.hear(alloc, id, Heard { from, clock })?;
                Ok((Vec::new(alloc), delivered))
            }
        }
    }

    /// The clock that the group would propose for a request, where no request has started and nothing of this one came before.
    #[inline]
    pub fn offer(&self, id: RequestId, floor: u64) -> Option<u64>
        requires clock { self.now.state.clock ≤ GREATEST_CLOCK }
        requires floor { floor ≤ GREATEST_CLOCK }
        ensures none_started { IfSome result (λ clock. (i : RequestId) → get self.now.state.started i ≡ None) }
        ensures unheard { IfSome result (λ clock. (g : ℕ) → heard self.now.state id g ≡ None) }
        ensures clock { IfSome result (λ clock. clock ≡ next_clock self.now.state floor) }
    {
        if !self.pending.is_empty() || !self.proposals.of(id).is_empty() {
            return None;
        }
        Some(floor.max(self.clock) + 1)
    }

    /// The clock is raised to that of a request that is delivered, the only one that was looked at.
    #[inline]
    pub fn raise(&mut self, clock: u64)
        requires { self.old.state.clock ≤ clock }
        ensures me { self.new.me ≡ self.old.me }
        ensures raised { self.new.state ≡ record self.old.state { clock = clock } }
    {
        self.clock = clock;
        self.looks = 1;
    }

    /// The last receipt looked at no request.
    pub fn rest(&mut self)
        ensures me { self.new.me ≡ self.old.me }
        ensures state { self.new.state ≡ self.old.state }
        ensures looks { self.new.looks ≡ 0 }
    {
        self.looks = 0;
    }

    /// A request begins. If it is new, the group proposes a stamp for it and tells the other groups. Where the other
    /// groups have all proposed and no request is before it, it is delivered at once, and nothing of it is kept.
    fn start(
        &mut self,
        alloc: Global,
        id: RequestId,
        floor: u64,
        groups: Groups,
    ) -> Result<(Vec<Packet>, Vec<Delivered>), AllocError>
        requires clock { self.old.state.clock ≤ GREATEST_CLOCK }
        requires body { BodyMayCome self.old.me self.old.state id (Body.Start floor groups) }
        ensures done { IfOk result (λ out. IsReceipt self.old id (Body.Start floor groups) out.0.items out.1.items self.new) }
        ensures unchanged { OnErr result (self.new ≡ self.old) }
    {
        let me = self.id;
        let list = self.proposals.of(id);
        if clock_of(list, me).is_some() {
            self.looks = 0;
            return Ok((Vec::new(alloc), Vec::new(alloc)));
        }
        let clock = self.clock.max(floor) + 1;
        let own = Heard { from: me, clock };
        let final_stamp = final_stamp(list, &own, groups);
        let missing = missing(list, &own, groups);
        let sent = tell(alloc, me, id, clock, groups)?;
        let Some(stamp) = at_once(&self.pending, &final_stamp) else {
            let place = place_by(&final_stamp, &own);
            let request = Pending {
                id,
                groups,
                missing,
            };
            enter(
                &mut self.pending,
                &mut self.proposals,
                alloc,
                place,
                request,
                own,
            )?;
            self.clock = lifted(clock, &final_stamp);
            self.looks = 1;
            return Ok((sent, Vec::new(alloc)));
        };
        let mut delivered = Vec::with_capacity(alloc, 1)?;
        delivered.push_reserved(Delivered { id, stamp, groups });
        self.proposals.forget(id);
        self.clock = lifted(clock, &final_stamp);
        self.looks = 1;
        Ok((sent, delivered))
    }

    /// A proposal comes. Where it is the last one that its request waited for, the group may deliver.
    fn hear(
        &mut self,
        alloc: Global,
        id: RequestId,
        last: Heard,
    ) -> Result<Vec<Delivered>, AllocError>
        requires body { BodyMayCome self.old.me self.old.state id (Body.Proposal last.from last.clock) }
        ensures done { IfOk result (λ ds. IsReceipt self.old id (Body.Proposal last.from last.clock) [] ds.items self.new) }
        ensures unchanged { OnErr result (self.new ≡ self.old) }
    {
        let list = self.proposals.of(id);
        if clock_of(list, last.from).is_some() {
            self.looks = 0;
            return Ok(Vec::new(alloc));
        }
        let own = clock_of(list, self.id);
        let Some((place, request)) = waiting(&self.pending, self.id, own, id, last.from) else {
            self.proposals.add(alloc, id, last)?;
            self.looks = u64::from(own.is_some());
            return Ok(Vec::new(alloc));
        };
        let Some(stamp) = final_once(list, &last, &request) else {
            self.proposals.add(alloc, id, last)?;
            lower(&mut self.pending, &place);
            self.looks = 1;
            return Ok(Vec::new(alloc));
        };
        let least = stamp.clock;
        let delivered = settle(
            &mut self.pending,
            &mut self.proposals,
            alloc,
            place,
            stamp,
            request,
            last,
        )?;
        self.clock = self.clock.max(least);
        self.looks = delivered.len() as u64 + stayed(&self.pending, &stamp);
        Ok(delivered)
    }
}

/// The clock, at least that of the final stamp, if it is known.
fn lifted(clock: u64, final_stamp: &Option<Stamp>) -> u64
    ensures { result ≡ lift clock final_stamp.now }
{
    match final_stamp {
        Some(stamp) => clock.max(stamp.clock),
        None => clock,
    }
}

/// The final stamp of a request, if it is known and no request is before it.
fn at_once(pending: &BTreeMap<Stamp, Pending>, final_stamp: &Option<Stamp>) -> Option<Stamp>
    ensures { MatchOption result ((final_stamp.now ≡ None) ⊎ (0 < length pending.now.entries))
        (λ s. (final_stamp.now ≡ Some s) × (pending.now.entries ≡ [])) }
{
    match final_stamp {
        Some(stamp) if pending.is_empty() => Some(Stamp { ..*stamp }),
        _ => None,
    }
}

/// Where a request stands: at its final stamp if that is known, else at the group's own proposal.
fn place_by(final_stamp: &Option<Stamp>, own: &Heard) -> Stamp
    ensures { result ≡ place_by final_stamp.now (record { clock = own.now.clock; group = own.now.from }) }
{
    match final_stamp {
        Some(stamp) => Stamp { ..*stamp },
        None => Stamp {
            clock: own.clock,
            group: own.from,
        },
    }
}

/// The final stamp of a request that waits for the proposal `last`, if no other one is missing.
fn final_once(list: &[Heard], last: &Heard, request: &Pending) -> Option<Stamp>
    ensures many { 1 < request.now.missing → result ≡ None }
    ensures few { request.now.missing ≤ 1 → result ≡ final (with_heard last.now (clock_of list.now)) request.now.groups }
{
    if request.missing > 1 {
        return None;
    }
    final_stamp(list, last, request.groups)
}

/// How many of the first request and the one at this place are left.
fn stayed(pending: &BTreeMap<Stamp, Pending>, stamp: &Stamp) -> u64
    ensures { result ≤ 2 }
{
    match pending.first_key_value() {
        Some((first, _)) => 1 + u64::from(first < stamp),
        None => 0,
    }
}
