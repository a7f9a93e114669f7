//! The queues of all groups, and the layer of the requests that are ready or lined up.
ghost use Rattle.std.specs.Prelude.{◌≡◌, ◌≢◌, ℕ, ◌+◌, ◌<◌, ◌≤◌, ◌++◌, [], ◌∷◌, true, cond, drop, length, slice_set, IfOk, OnOk, OnErr};
ghost use Rattle.std.specs.Prelude.{IsOk, IsTrue, ◌↔◌, option_copied, slice_get};
ghost use Rattle.groups.specs.GroupSet.{has};
ghost use Rattle.skeen_core.specs.declared.packet.Delivered.{Delivered};
ghost use Rattle.delivery.specs.Ready.{IsReady, IsLayer};
ghost use Rattle.delivery.specs.Queues.{queue_of, room_of, requests_of, rooms_of, MayAppend, IsSound};
ghost use Rattle.delivery.specs.Taking.{popped, popped_all, Poppable};
ghost use Rattle.delivery.specs.Heads.{head_of};

use super::heads::{Heading, count_heads, take_ready};
use super::queue::Queue;
use super::runs::{append_runs, count_runs, sort_by_stamp};
use groups::{GroupId, Groups};
use skeen_core::Delivered;
use std::alloc::{AllocError, Global};
use std::marker::Model;

/// One queue a group, of what it has delivered and no layer has taken yet. A contract sees the queues as lists, oldest
/// first, and beside them how many more requests fit into each without memory.
///
/// It keeps the requests that are ready, ascending by their stamps, and of each other request at the head of a queue how
/// many it heads. Both lists have room for as many requests as there are queues.
#[derive(Drop)]
pub struct Queues {
    queues: Vec<Queue>,
    ready: Vec<Delivered>,
    partly: Vec<Heading>,
}

impl Model for Queues {
    ghost use Rattle.std.specs.Prelude.{vec_capacity};
    ghost use Rattle.delivery.specs.Queues.{QueuesView, requests_of, rooms_of};
    ghost use Rattle.delivery.specs.Heads.{AreKept};

    ghost Value = { QueuesView };

    ghost view = { λ q. record { queues = requests_of q.queues.items; rooms = rooms_of q.queues.items } };

    ghost invariant = { λ q.
        AreKept (requests_of q.queues.items) q.ready.items q.partly.items (vec_capacity q.ready) (vec_capacity q.partly) };
}

impl Queues {
    /// The queues of the first `groups` groups, at most 64, without requests. The only error is want of memory.
    pub fn new(alloc: Global, groups: u8) -> Result<Self, AllocError>
        requires { groups ≤ 64 }
        ensures groups { IfOk result (λ q. length q.queues ≡ groups) }
        ensures empty { IfOk result (λ q. (g : ℕ) → queue_of q.queues g ≡ []) }
    {
        let mut queues = Vec::with_capacity(alloc, usize::from(groups))?;
        let ready = Vec::with_capacity(alloc, usize::from(groups))?;
        let partly = Vec::with_capacity(alloc, usize::from(groups))?;
        for _ in 0..groups {
            queues.push(Queue::new(alloc))?;
        }
        Ok(Queues {
            queues,
            ready,
            partly,
        })
    }

    /// The request at the head of the group's queue. A group without a queue has none.
    pub fn head(&self, group: GroupId) -> Option<&Delivered>
        ensures { option_copied result ≡ head_of (queue_of self.now.queues group) }
    {
        self.queues.get(usize::from(group.number()))?.head()
    }

    /// Takes the room for `count` more requests of a group. The only error is want of memory, which changes nothing.
    pub fn reserve(&mut self, group: GroupId, count: usize) -> Result<(), AllocError>
        requires { group < length self.old.queues }
        ensures queues { self.new.queues ≡ self.old.queues }
        ensures room { OnOk result (count ≤ room_of self.new.rooms group) }
        ensures rooms_kept { (g : ℕ) → room_of self.old.rooms g ≤ room_of self.new.rooms g }
        ensures succeeds { count ≤ room_of self.old.rooms group → IsOk result }
        ensures unchanged { OnErr result (self.new ≡ self.old) }
    {
        let queue = &mut self.queues[usize::from(group.number())];
        queue.reserve(count)
    }

    /// The group delivers the request: it stands behind all others in that queue. It can't fail where there is room,
    /// and want of memory changes nothing.
    ///
    /// The group is one of the request's. The request's stamp is above that of the last one in that queue, and no other
    /// request in the queues has it. Where the request stands in a queue already, it has the same stamp and groups
    /// there.
    pub fn append(&mut self, group: GroupId, request: Delivered) -> Result<(), AllocError>
        requires group { group < length self.old.queues }
        requires may_append { MayAppend (queue_of self.old.queues) group request }
        ensures appended { OnOk result (self.new.queues
            ≡ slice_set self.old.queues group (queue_of self.old.queues group ++ request ∷ [])) }
        ensures room { OnOk result (room_of self.old.rooms group ≤ room_of self.new.rooms group + 1) }
        ensures rooms_kept { (g : ℕ) → g ≢ group → room_of self.old.rooms g ≤ room_of self.new.rooms g }
        ensures succeeds { 0 < room_of self.old.rooms group → IsOk result }
        ensures unchanged { OnErr result (self.new ≡ self.old) }
    {
        let queue = &mut self.queues[usize::from(group.number())];
        let was_empty = queue.head().is_none();
        queue.append(request)?;
        if was_empty {
            let groups = Groups::empty().with(group);
            count_heads(&self.queues, &mut self.ready, &mut self.partly, groups);
        }
        Ok(())
    }

    /// The layer: all requests that are ready or lined up, ascending by their stamps. The only error is want of memory;
    /// where none is ready no memory is wanted.
    pub fn ready(&self, alloc: Global) -> Result<Vec<Delivered>, AllocError>
        ensures layer { IfOk result (λ layer. IsLayer (queue_of self.now.queues) layer.items) }
        ensures succeeds { ((d : Delivered) → ¬ IsReady (queue_of self.now.queues) d) → IsOk result }
        ensures sound { IsSound (queue_of self.now.queues) }
    {
        let count = count_runs(&self.queues, &self.ready);
        let mut layer = Vec::with_capacity(alloc, count)?;
        if count == self.ready.len() {
            // Nothing is lined up behind a head.
            layer.extend_from_slice(self.ready.as_slice())?;
            return Ok(layer);
        }
        append_runs(&self.queues, &self.ready, &mut layer)?;
        sort_by_stamp(&mut layer);
        Ok(layer)
    }

    /// Whether some request is ready. It takes no memory.
    pub fn has_ready(&self) -> bool
        ensures { IsTrue result ↔ ((d : Delivered) × IsReady (queue_of self.now.queues) d) }
    {
        !self.ready.is_empty()
    }

    /// Takes a request that is ready out of all its queues. It takes no memory.
    pub fn pop(&mut self, request: &Delivered)
        requires { IsReady (queue_of self.old.queues) request.now }
        ensures popped { queue_of self.new.queues ≡ popped request.now (queue_of self.old.queues) }
        ensures groups { length self.new.queues ≡ length self.old.queues }
        ensures rooms_kept { (g : ℕ) → room_of self.old.rooms g ≤ room_of self.new.rooms g }
    {
        take_ready(&mut self.ready, request.id);
        pop_heads(&mut self.queues, request.groups);
        count_heads(
            &self.queues,
            &mut self.ready,
            &mut self.partly,
            request.groups,
        );
    }

    /// Takes these requests out of all their queues, one after another. Each is ready when its turn comes, as those of
    /// a layer are. It takes no memory.
    pub fn pop_all(&mut self, requests: &[Delivered])
        requires { Poppable (queue_of self.old.queues) requests.now }
        ensures popped { queue_of self.new.queues ≡ popped_all requests.now (queue_of self.old.queues) }
        ensures groups { length self.new.queues ≡ length self.old.queues }
        ensures rooms_kept { (g : ℕ) → room_of self.old.rooms g ≤ room_of self.new.rooms g }
    {
        for request in requests {
            self.pop(request);
        }
    }

    /// The request at this place of the group's queue, counted from 0 from the oldest. A group without a queue has none.
    pub fn delivered(&self, group: GroupId, place: usize) -> Option<&Delivered>
        ensures { option_copied result ≡ slice_get (queue_of self.now.queues group) place }
    {
        self.queues.get(usize::from(group.number()))?.get(place)
    }

    /// How many requests the group's queue has. A group without a queue has none.
    pub fn queued(&self, group: GroupId) -> usize
        ensures { result ≡ length (queue_of self.now.queues group) }
    {
        match self.queues.get(usize::from(group.number())) {
            Some(queue) => queue.len(),
            None => 0,
        }
    }
}

/// Takes the head out of the queue of each of these groups.
#[tactic(auto, using(crate::proofs::HeadsGone::gone_place))]
fn pop_heads(queues: &mut [Queue], groups: Groups)
    requires { (g : ℕ) → has groups g ≡ true → g < length queues.old }
    ensures popped { (g : ℕ) → queue_of (requests_of queues.new) g
        ≡ cond (has groups g) (drop 1 (queue_of (requests_of queues.old) g)) (queue_of (requests_of queues.old) g) }
    ensures rooms_kept { (g : ℕ) → room_of (rooms_of queues.old) g ≤ room_of (rooms_of queues.new) g }
{
    // A set has each group once: its length says so, and no group may lose two requests here.
    let _ = groups.len();
    for group in groups.iter() {
        queues[usize::from(group.number())].pop();
    }
}
