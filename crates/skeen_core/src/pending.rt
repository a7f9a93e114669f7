//! The requests that have started, by their places: a settled one stands at its final stamp, any other at the group's
//! own proposal. Those that are delivered stand in front.
ghost use Rattle.std.specs.Prelude.{◌≡◌, ◌+◌, ◌-◌, ◌<◌, ◌≤◌, ◌++◌, ◌⊎◌, false, length, Some, None, IsSome, IfOk, OnOk, OnErr};
ghost use Rattle.std.specs.BTreeMap.{insert_entry};
ghost use Rattle.std.specs.FinMap.{insert, get};
ghost use Rattle.std.specs.Vec.{vec_capacity};
ghost use Rattle.groups.specs.Stamp.{stamp_lt};
ghost use Rattle.skeen_core.specs.Pending.{stamp_cmp, at, first_is_settled, room_for, stays_first, waiting, front, behind};
ghost use Rattle.skeen_core.specs.Pending.{settled, Moves, moved, forgotten};
ghost use Rattle.skeen_core.specs.declared.pending.Pending.{Pending};

use super::heard::Heard;
use super::packet::Delivered;
use super::proposals::Proposals;
use groups::{GroupId, Groups, RequestId, Stamp};
use std::alloc::{AllocError, Global};
use std::collections::BTreeMap;

/// A request that has started, and how many of its groups have proposed nothing. It is settled where none is missing.
#[derive(Clone, Copy)]
pub struct Pending {
    pub id: RequestId,
    pub groups: Groups,
    pub missing: u64,
}

/// How many go once the request at this place is settled at `stamp`, at most: it and the settled ones right behind it,
/// if it is the first. Beside it, whether it stays the first at `stamp`.
fn room_for(pending: &BTreeMap<Stamp, Pending>, place: &Stamp, stamp: &Stamp) -> (usize, bool)
    ensures room { result.0 ≡ room_for place.now pending.now.entries }
    ensures stays { result.1 ≡ stays_first place.now stamp.now pending.now.entries }
{
    let mut entries = pending.iter();
    let Some((first, _)) = entries.next() else {
        return (0, false);
    };
    if first != place {
        return (0, false);
    }
    let Some((second, next)) = entries.next() else {
        return (1, true);
    };
    let stays = stamp < second;
    if next.missing > 0 {
        return (1, stays);
    }
    let mut room = 2;
    for (_, request) in entries {
        if request.missing > 0 {
            break;
        }
        room += 1;
    }
    (room, stays)
}

/// The request, with its place, if it has started and waits for a proposal of the group `from`. `own` is the proposal
/// of the group `me` for it.
pub fn waiting(
    pending: &BTreeMap<Stamp, Pending>,
    me: GroupId,
    own: Option<u64>,
    id: RequestId,
    from: GroupId,
) -> Option<(Stamp, Pending)>
    ensures { result ≡ waiting me own id from pending.now.entries }
{
    let place = Stamp {
        clock: own?,
        group: me,
    };
    let request = *pending.get(&place)?;
    if request.id == id && request.groups.contains(from) {
        Some((place, request))
    } else {
        None
    }
}

/// One proposal less is missing of the request at this place.
pub fn lower(pending: &mut BTreeMap<Stamp, Pending>, place: &Stamp)
    requires { (p : Pending) × (at pending.old.entries place.now ≡ Some p) × (0 < p.missing) }
    ensures { (p : Pending) → at pending.old.entries place.now ≡ Some p
        → Moves place.now place.now (record p { missing = p.missing - 1 }) pending.old.entries pending.new.entries }
{
    if let Some(request) = pending.get_mut(place) {
        request.missing -= 1;
    }
}

/// The request stands at this place too, and this proposal for it has come. The only error is want of memory, and it
/// changes nothing.
pub fn enter(
    pending: &mut BTreeMap<Stamp, Pending>,
    proposals: &mut Proposals,
    alloc: Global,
    place: Stamp,
    request: Pending,
    last: Heard,
) -> Result<(), AllocError>
    requires free { at pending.old.entries place ≡ None }
    requires single { get proposals.old (record { id = request.id; from = last.from }) ≡ None }
    ensures moves { OnOk result (Moves place place request pending.old.entries pending.new.entries) }
    ensures entered { OnOk result (pending.new.entries ≡ insert_entry stamp_cmp pending.old.entries place request) }
    ensures added { OnOk result (proposals.new ≡ insert proposals.old (record { id = request.id; from = last.from }) last.clock) }
    ensures pending_kept { OnErr result (pending.new.entries ≡ pending.old.entries) }
    ensures proposals_kept { OnErr result (proposals.new ≡ proposals.old) }
{
    let id = request.id;
    pending.insert(Stamp { ..place }, request)?;
    if let Err(error) = proposals.add(alloc, id, last) {
        let _ = pending.remove(&place);
        return Err(error);
    }
    Ok(())
}

/// The request at `own`, the group's own proposal for it, is settled by the proposal `last`: it enters the place of its
/// final stamp before it leaves the old one. The only error is want of memory, and it changes nothing.
fn move_settled(
    pending: &mut BTreeMap<Stamp, Pending>,
    proposals: &mut Proposals,
    alloc: Global,
    own: Stamp,
    stamp: Stamp,
    request: Pending,
    last: Heard,
) -> Result<(), AllocError>
    requires there { IsSome (at pending.old.entries own) }
    requires free { (stamp ≡ own) ⊎ (at pending.old.entries stamp ≡ None) }
    requires single { get proposals.old (record { id = request.id; from = last.from }) ≡ None }
    ensures moves { OnOk result (Moves own stamp (settled request) pending.old.entries pending.new.entries) }
    ensures moved { OnOk result (pending.new.entries ≡ moved own stamp (settled request) pending.old.entries) }
    ensures added { OnOk result (proposals.new ≡ insert proposals.old (record { id = request.id; from = last.from }) last.clock) }
    ensures pending_kept { OnErr result (pending.new.entries ≡ pending.old.entries) }
    ensures proposals_kept { OnErr result (proposals.new ≡ proposals.old) }
{
    let settled = Pending {
        missing: 0,
        ..request
    };
    if stamp == own {
        proposals.add(alloc, settled.id, last)?;
        let _ = pending.insert(own, settled);
    } else {
        enter(pending, proposals, alloc, stamp, settled, last)?;
        let _ = pending.remove(&own);
    }
    Ok(())
}

/// Whether there is a first request and it is settled.
fn first_is_settled(pending: &BTreeMap<Stamp, Pending>) -> bool
    ensures { result ≡ first_is_settled pending.now.entries }
{
    match pending.first_key_value() {
        Some((_, request)) => request.missing == 0,
        None => false,
    }
}

/// Takes the settled requests in front out, and forgets their proposals.
fn pop_settled(
    pending: &mut BTreeMap<Stamp, Pending>,
    proposals: &mut Proposals,
    delivered: &mut Vec<Delivered>,
)
    requires { length delivered.old.items + length (front pending.old.entries) ≤ vec_capacity delivered.old }
    ensures delivered { delivered.new.items ≡ delivered.old.items ++ front pending.old.entries }
    ensures pending { pending.new.entries ≡ behind pending.old.entries }
    ensures proposals { proposals.new ≡ forgotten (front pending.old.entries) proposals.old }
{
    while first_is_settled(pending) {
        let Some((stamp, request)) = pending.pop_first() else {
            break;
        };
        proposals.forget(request.id);
        delivered.push_reserved(Delivered {
            id: request.id,
            stamp,
            groups: request.groups,
        });
    }
}

/// The request at `own`, the group's own proposal for it, is settled by the proposal `last`, and the settled requests in
/// front are taken out. One that stays the first at its final stamp is taken out from where it stands. The only error is
/// want of memory, and it changes nothing.
pub fn settle(
    pending: &mut BTreeMap<Stamp, Pending>,
    proposals: &mut Proposals,
    alloc: Global,
    own: Stamp,
    stamp: Stamp,
    request: Pending,
    last: Heard,
) -> Result<Vec<Delivered>, AllocError>
    requires there { at pending.old.entries own ≡ Some request }
    requires free { (stamp ≡ own) ⊎ (at pending.old.entries stamp ≡ None) }
    requires not_below { stamp_lt stamp own ≡ false }
    requires single { get proposals.old (record { id = request.id; from = last.from }) ≡ None }
    requires few { length (front (moved own stamp (settled request) pending.old.entries)) ≤ room_for own pending.old.entries }
    ensures moves { OnOk result (Moves own stamp (settled request) pending.old.entries
        (moved own stamp (settled request) pending.old.entries)) }
    ensures delivered { IfOk result (λ ds. ds.items ≡ front (moved own stamp (settled request) pending.old.entries)) }
    ensures pending { OnOk result (pending.new.entries ≡ behind (moved own stamp (settled request) pending.old.entries)) }
    ensures proposals { OnOk result (proposals.new
        ≡ forgotten (front (moved own stamp (settled request) pending.old.entries))
        (insert proposals.old (record { id = request.id; from = last.from }) last.clock)) }
    ensures pending_kept { OnErr result (pending.new.entries ≡ pending.old.entries) }
    ensures proposals_kept { OnErr result (proposals.new ≡ proposals.old) }
{
    let (room, stays) = room_for(pending, &own, &stamp);
    let mut delivered = Vec::with_capacity(alloc, room)?;
    if stays {
        let _ = pending.pop_first();
        proposals.forget(request.id);
        delivered.push_reserved(Delivered {
            id: request.id,
            stamp,
            groups: request.groups,
        });
        pop_settled(pending, proposals, &mut delivered);
        return Ok(delivered);
    }
    move_settled(pending, proposals, alloc, own, stamp, request, last)?;
    pop_settled(pending, proposals, &mut delivered);
    Ok(delivered)
}
