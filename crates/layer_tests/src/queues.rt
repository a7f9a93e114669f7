//! Two requests of which the second waits behind the first, and the room for them.
ghost use Rattle.std.specs.Prelude.{◌≡◌, ℕ, ◌<◌, [], true, false, length, IfOk, OnOk};
ghost use Rattle.groups.specs.GroupSet.{has};
ghost use Rattle.groups.specs.Request.{same_id};
ghost use Rattle.groups.specs.Stamp.{stamp_lt};
ghost use Rattle.delivery.specs.Queues.{queue_of};

use delivery::Queues;
use groups::{ConnId, GroupId, Groups, RequestId, Stamp};
use skeen_core::Delivered;
use std::alloc::{AllocError, Global};
use std::test::Fail;
use test_support::holds;

/// The only request of a connection, delivered at the stamp (`conn`, 0).
fn request(conn: u64, groups: Groups) -> Delivered
    ensures { result ≡ record {
      id = record { conn = record { 0 = conn }; seq = 1 };
      stamp = record { clock = conn; group = 0 };
      groups = groups;
    } }
{
    Delivered {
        id: RequestId {
            conn: ConnId(conn),
            seq: 1,
        },
        stamp: Stamp {
            clock: conn,
            group: GroupId::new(0),
        },
        groups,
    }
}

/// Group 0 delivers the first and then the second, and group 1 the second. No group has delivered anything yet.
fn fill(queues: &mut Queues, first: &Delivered, second: &Delivered) -> Result<(), AllocError>
    requires two { length queues.old.queues ≡ 2 }
    requires none { (g : ℕ) → queue_of queues.old.queues g ≡ [] }
    requires first { has first.now.groups 0 ≡ true }
    requires second { has second.now.groups 0 ≡ true }
    requires second_elsewhere { has second.now.groups 1 ≡ true }
    requires order { stamp_lt first.now.stamp second.now.stamp ≡ true }
    requires differ { same_id first.now.id second.now.id ≡ false }
    ensures { OnOk result (length queues.new.queues ≡ 2) }
{
    queues.append(GroupId::new(0), *first)?;
    queues.append(GroupId::new(0), *second)?;
    queues.append(GroupId::new(1), *second)?;
    Ok(())
}

/// Group 0 has delivered the first and then the second, and group 1 the second.
fn filled(alloc: Global, first: &Delivered, second: &Delivered) -> Result<Queues, AllocError>
    requires first { has first.now.groups 0 ≡ true }
    requires second { has second.now.groups 0 ≡ true }
    requires second_elsewhere { has second.now.groups 1 ≡ true }
    requires order { stamp_lt first.now.stamp second.now.stamp ≡ true }
    requires differ { same_id first.now.id second.now.id ≡ false }
    ensures { IfOk result (λ q. length q.queues ≡ 2) }
{
    let mut queues = Queues::new(alloc, 2)?;
    fill(&mut queues, first, second)?;
    Ok(queues)
}

/// Two empty queues, with room for what they are filled with.
fn with_room(alloc: Global) -> Result<Queues, AllocError>
    ensures two { IfOk result (λ q. length q.queues ≡ 2) }
    ensures none { IfOk result (λ q. (g : ℕ) → queue_of q.queues g ≡ []) }
{
    let mut queues = Queues::new(alloc, 2)?;
    queues.reserve(GroupId::new(0), 2)?;
    queues.reserve(GroupId::new(1), 1)?;
    Ok(queues)
}

/// The group's queue is headed by this request, or empty.
fn is_head(queues: &Queues, line: &str, number: u8, want: Option<&Delivered>) -> Result<(), Fail>
    requires { number < 64 }
{
    holds(line, queues.head(GroupId::new(number)) == want)
}

/// A request is ready, and these are the heads.
fn are_headed(queues: &Queues, first: &Delivered, second: &Delivered) -> Result<(), Fail> {
    holds("a request is ready", queues.has_ready())?;
    is_head(queues, "the head of group 0", 0, Some(first))?;
    is_head(queues, "the head of group 1", 1, Some(second))
}

/// The layer is this request alone.
fn is_one(layer: &[Delivered], want: &Delivered) -> bool {
    layer == [*want].as_slice()
}

/// The layer is this request alone, and is taken.
#[tactic(auto, using(delivery::proofs::Layers::layers_can_be_popped))]
fn takes_one(alloc: Global, queues: &mut Queues, line: &str, want: &Delivered) -> Result<(), Fail>
    ensures { length queues.new.queues ≡ length queues.old.queues }
{
    let layer = queues.ready(alloc)?;
    queues.pop_all(layer.as_slice());
    holds(line, is_one(layer.as_slice(), want))
}

/// Nothing is left.
fn are_empty(alloc: Global, queues: &Queues) -> Result<(), Fail> {
    holds("none is ready", !queues.has_ready())?;
    is_head(queues, "no head of group 0", 0, None)?;
    let layer = queues.ready(alloc)?;
    holds("an empty layer", layer.is_empty())
}

/// The first is taken, and then the second.
fn take_both(
    alloc: Global,
    queues: &mut Queues,
    first: &Delivered,
    second: &Delivered,
) -> Result<(), Fail>
    requires { length queues.old.queues ≡ 2 }
{
    takes_one(alloc, queues, "the first alone", first)?;
    takes_one(alloc, queues, "the second alone", second)?;
    are_empty(alloc, queues)?;
    queues.reserve(GroupId::new(1), 3)?;
    Ok(())
}

#[test]
fn a_request_waits_until_it_heads_all_its_queues(rt: HostRuntime) -> Result<(), Fail> {
    let one = Groups::empty().with(GroupId::new(0));
    let first = request(1, one);
    let second = request(2, one.with(GroupId::new(1)));
    let mut queues = filled(rt.alloc(), &first, &second)?;
    are_headed(&queues, &first, &second)?;
    is_head(&queues, "no head of group 2", 2, None)?;
    take_both(rt.alloc(), &mut queues, &first, &second)
}

/// Two empty queues with room, also where an allocation failed once.
fn with_room_at_last(alloc: Global) -> Result<Queues, AllocError>
    ensures two { IfOk result (λ q. length q.queues ≡ 2) }
    ensures none { IfOk result (λ q. (g : ℕ) → queue_of q.queues g ≡ []) }
{
    match with_room(alloc) {
        Ok(queues) => Ok(queues),
        Err(_) => with_room(alloc),
    }
}

/// Meant to be run with each allocation failing in turn: none is made where there is room.
#[test]
fn what_has_room_is_appended(rt: HostRuntime) -> Result<(), Fail> {
    let one = Groups::empty().with(GroupId::new(0));
    let first = request(1, one);
    let second = request(2, one.with(GroupId::new(1)));
    let mut queues = with_room_at_last(rt.alloc())?;
    let appended = fill(&mut queues, &first, &second).is_ok();
    holds("all are appended", appended)?;
    are_headed(&queues, &first, &second)
}
