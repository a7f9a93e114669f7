//! How many of its queues each request heads: the ready ones, which head all of theirs, and the counts of the others.
ghost use Rattle.std.specs.Prelude.{◌≡◌, ℕ, ◌+◌, ◌<◌, ◌≤◌, true, length, OnOk, IsOk, vec_len, vec_capacity};
ghost use Rattle.groups.specs.GroupSet.{has, IsGroupSet};
ghost use Rattle.skeen_core.specs.declared.packet.Delivered.{Delivered};
ghost use Rattle.delivery.specs.declared.heads.Heading.{Heading};
ghost use Rattle.delivery.specs.Queues.{requests_of, queue_of, IsSound};
ghost use Rattle.delivery.specs.Heads.{AreCounted, but, count_before, placed, place_of, without, counted, ready_after, partly_after};

use super::queue::Queue;
use groups::{Groups, RequestId, Stamp};
use skeen_core::Delivered;
use std::alloc::AllocError;

/// A request that heads some of its queues and not all, by its id, and how many.
#[derive(Clone, Copy, Debug)]
pub struct Heading {
    pub id: RequestId,
    pub count: usize,
}

/// How many of these stand before the first with a greater stamp.
fn count_before(requests: &[Delivered], stamp: Stamp) -> usize
    ensures { result ≡ count_before stamp requests.now }
{
    for (place, request) in requests.iter().enumerate() {
        if stamp < request.stamp {
            return place;
        }
    }
    requests.len()
}

/// Puts the request among these, which ascend by their stamps. The only error is want of memory; where there is room it
/// can't fail.
#[tactic(auto, using(crate::proofs::Placed::count_within))]
pub fn put_in(requests: &mut Vec<Delivered>, request: Delivered) -> Result<(), AllocError>
    ensures items { OnOk result (requests.new.items ≡ placed request requests.old.items) }
    ensures succeeds { vec_len requests.old < vec_capacity requests.old → IsOk result }
    ensures capacity { vec_len requests.old < vec_capacity requests.old → vec_capacity requests.new ≡ vec_capacity requests.old }
{
    let place = count_before(requests.as_slice(), request.stamp);
    requests.insert(place, request)?;
    Ok(())
}

/// How many of these stand before the request of that id.
fn place_among(requests: &[Delivered], id: RequestId) -> usize
    ensures { result ≡ place_of (λ (d : Delivered). d.id) id requests.now }
{
    for (place, request) in requests.iter().enumerate() {
        if request.id == id {
            return place;
        }
    }
    requests.len()
}

/// Takes the request of that id out, if it is there.
pub fn take_ready(ready: &mut Vec<Delivered>, id: RequestId)
    ensures items { ready.new.items ≡ without (λ (d : Delivered). d.id) id ready.old.items }
    ensures capacity { vec_capacity ready.new ≡ vec_capacity ready.old }
{
    let place = place_among(ready.as_slice(), id);
    if place < ready.len() {
        let _ = ready.remove(place);
    }
}

/// How many of these stand before the one of that id.
fn place_counted(partly: &[Heading], id: RequestId) -> usize
    ensures { result ≡ place_of (λ (h : Heading). h.id) id partly.now }
{
    for (place, heading) in partly.iter().enumerate() {
        if heading.id == id {
            return place;
        }
    }
    partly.len()
}

/// Takes the request of that id out, if it is there, and gives its count, else 0.
fn take_count(partly: &mut Vec<Heading>, id: RequestId) -> usize
    ensures count { result ≡ counted partly.old.items id }
    ensures items { partly.new.items ≡ without (λ (h : Heading). h.id) id partly.old.items }
    ensures capacity { vec_capacity partly.new ≡ vec_capacity partly.old }
{
    let place = place_counted(partly.as_slice(), id);
    if place < partly.len() {
        partly.remove(place).count
    } else {
        0
    }
}

/// Counts one more queue that the request heads. Once it heads all of its queues it is ready.
fn count_head(ready: &mut Vec<Delivered>, partly: &mut Vec<Heading>, request: &Delivered)
    requires ready_room { length ready.old.items < vec_capacity ready.old }
    requires partly_room { length partly.old.items < vec_capacity partly.old }
    requires not_all { counted partly.old.items request.now.id < length request.now.groups }
    ensures ready { ready.new.items ≡ ready_after partly.old.items request.now ready.old.items }
    ensures partly { partly.new.items ≡ partly_after partly.old.items request.now }
    ensures ready_capacity { vec_capacity ready.new ≡ vec_capacity ready.old }
    ensures partly_capacity { vec_capacity partly.new ≡ vec_capacity partly.old }
    ensures set { IsGroupSet request.now.groups }
{
    let all = request.groups.len();
    let count = take_count(partly, request.id) + 1;
    if count == all {
        let _ = put_in(ready, *request);
    } else {
        partly.push_reserved(Heading {
            id: request.id,
            count,
        });
    }
}

/// Counts the heads of these groups' queues, which were not counted yet. It takes no memory, since the lists have room
/// for as many requests as there are queues.
pub fn count_heads(
    queues: &[Queue],
    ready: &mut Vec<Delivered>,
    partly: &mut Vec<Heading>,
    groups: Groups,
)
    requires within { (g : ℕ) → has groups g ≡ true → g < length queues.now }
    requires sound { IsSound (queue_of (requests_of queues.now)) }
    requires counted { AreCounted (but groups (queue_of (requests_of queues.now))) ready.old.items partly.old.items }
    requires ready_room { length queues.now ≤ vec_capacity ready.old }
    requires partly_room { length queues.now ≤ vec_capacity partly.old }
    ensures counted { AreCounted (queue_of (requests_of queues.now)) ready.new.items partly.new.items }
    ensures ready_capacity { vec_capacity ready.new ≡ vec_capacity ready.old }
    ensures partly_capacity { vec_capacity partly.new ≡ vec_capacity partly.old }
{
    // A set has each group once: its length says so, and no head may be counted twice here.
    let _ = groups.len();
    for group in groups.iter() {
        if let Some(head) = queues[usize::from(group.number())].head() {
            count_head(ready, partly, head);
        }
    }
}
