//! The queue of one group.
ghost use Rattle.std.specs.Prelude.{◌≡◌, ◌+◌, ◌<◌, ◌≤◌, ◌++◌, [], ◌∷◌, drop, length, OnOk, OnErr, IsOk, option_copied, slice_get};
ghost use Rattle.delivery.specs.Heads.{head_of};
ghost use Rattle.delivery.specs.Runs.{run};

use skeen_core::Delivered;
use std::alloc::{AllocError, Global};
use std::collections::VecDeque;
use std::marker::Model;

/// What a group has delivered and no layer has taken yet. A contract sees the requests, oldest first, and how many more
/// fit without memory.
#[derive(Drop)]
pub struct Queue {
    requests: VecDeque<Delivered>,
}

impl Model for Queue {
    ghost use Rattle.std.specs.Prelude.{◌-◌};
    ghost use Rattle.std.specs.VecDeque.{deque_len, deque_capacity};
    ghost use Rattle.delivery.specs.Queues.{QueueView};

    ghost Value = { QueueView };

    ghost view = { λ q. record {
      requests = q.requests.items;
      room =
          deque_capacity q.requests - deque_len q.requests;
    } };
}

impl Queue {
    /// A queue without requests.
    pub fn new(alloc: Global) -> Self
        ensures { result.requests ≡ [] }
    {
        Queue {
            requests: VecDeque::new(alloc),
        }
    }

    /// The oldest request.
    pub fn head(&self) -> Option<&Delivered>
        ensures { option_copied result ≡ head_of self.now.requests }
    {
        self.requests.front()
    }

    /// How many requests in front address one group alone.
    pub fn run_len(&self) -> usize
        ensures { result ≡ length (run self.now.requests) }
    {
        self.requests
            .iter()
            .take_while(|request| request.groups.len() == 1)
            .count()
    }

    /// Puts the requests in front that address one group alone behind these. The only error is want of memory.
    pub fn append_run(&self, requests: &mut Vec<Delivered>) -> Result<(), AllocError>
        ensures { OnOk result (requests.new.items ≡ requests.old.items ++ run self.now.requests) }
    {
        for request in self.requests.iter() {
            if request.groups.len() != 1 {
                break;
            }
            requests.push(*request)?;
        }
        Ok(())
    }

    /// Takes the room for `count` more requests. The only error is want of memory, which changes nothing.
    pub fn reserve(&mut self, count: usize) -> Result<(), AllocError>
        ensures requests { self.new.requests ≡ self.old.requests }
        ensures room { OnOk result (count ≤ self.new.room) }
        ensures room_kept { self.old.room ≤ self.new.room }
        ensures succeeds { count ≤ self.old.room → IsOk result }
        ensures unchanged { OnErr result (self.new ≡ self.old) }
    {
        let len = self.requests.len();
        if count <= self.requests.capacity() - len {
            return Ok(());
        }
        // The room at least doubles, so that requests that come one by one are copied a few times only.
        self.requests.reserve_exact(count.max(len))
    }

    /// Puts the request behind all others. It can't fail where there is room, and want of memory changes nothing.
    pub fn append(&mut self, request: Delivered) -> Result<(), AllocError>
        ensures appended { OnOk result (self.new.requests ≡ self.old.requests ++ request ∷ []) }
        ensures room { OnOk result (self.old.room ≤ self.new.room + 1) }
        ensures succeeds { 0 < self.old.room → IsOk result }
        ensures unchanged { OnErr result (self.new ≡ self.old) }
    {
        self.reserve(1)?;
        self.requests.push_back_reserved(Delivered { ..request });
        Ok(())
    }

    /// Takes the oldest request out, if there is one. It takes no memory.
    pub fn pop(&mut self)
        ensures requests { self.new.requests ≡ drop 1 self.old.requests }
        ensures room { self.old.room ≤ self.new.room }
    {
        let _ = self.requests.pop_front();
    }

    /// The request at this place, counted from 0 from the oldest.
    pub fn get(&self, place: usize) -> Option<&Delivered>
        ensures { option_copied result ≡ slice_get self.now.requests place }
    {
        self.requests.get(place)
    }

    /// How many requests there are.
    pub fn len(&self) -> usize
        ensures { result ≡ length self.now.requests }
    {
        self.requests.len()
    }
}
