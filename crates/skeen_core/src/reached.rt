//! How far a group has got with each connection's requests.
ghost use Rattle.std.specs.Prelude.{◌≡◌, ◌+◌, ◌≤◌, ◌<◌, false, true, length, max, IfSome, IsOk, IsSome, OnErr, OnOk};
ghost use Rattle.std.specs.FinMap.{empty, get, insert};
ghost use Rattle.skeen_core.specs.Group.{or_zero, is_up_to, reached_by};

use super::packet::Delivered;
use groups::{ConnId, RequestId};
use std::alloc::{AllocError, Global};
use std::collections::HashMap;
use std::marker::Model;

/// By connection, the greatest number of a request that the group has delivered. A contract sees these numbers, and for
/// how many more connections there is room. They are kept for good, and found by hashing.
#[derive(Drop)]
pub struct Reached {
    numbers: HashMap<u64, u64>,
}

impl Model for Reached {
    ghost use Rattle.std.specs.FinMap.{from_entries};
    ghost use Rattle.std.specs.HashMap.{spare};
    ghost use Rattle.skeen_core.specs.Reached.{ReachedView, reached_code};

    ghost Value = { ReachedView };

    ghost coded = { reached_code };

    ghost view = { λ r. record { numbers = from_entries r.numbers.entries; room = spare r.numbers } };
}

impl Reached {
    /// Nothing is delivered.
    pub fn new(alloc: Global) -> Self
        ensures { result.numbers ≡ empty }
    {
        Reached {
            numbers: HashMap::new(alloc),
        }
    }

    /// The greatest number of this connection's requests that was delivered, if one was.
    fn number(&self, conn: ConnId) -> Option<u64>
        ensures { result ≡ get self.now.numbers conn.0 }
    {
        self.numbers.get(&conn.0).copied()
    }

    /// Whether this request of its connection, or a later one, was delivered.
    pub fn is_past(&self, id: RequestId) -> bool
        ensures { result ≡ is_up_to (get self.now.numbers id.conn.0) id.seq }
    {
        match self.number(id.conn) {
            Some(number) => id.seq <= number,
            None => false,
        }
    }

    /// Whether one of its connection's requests was delivered, where none that is as late was.
    pub fn is_known(&self, id: RequestId) -> Option<bool>
        ensures later { IfSome result (λ known. is_up_to (get self.now.numbers id.conn.0) id.seq ≡ false) }
        ensures known { IfSome result (λ known. known ≡ true → IsSome (get self.now.numbers id.conn.0)) }
    {
        match self.number(id.conn) {
            Some(number) => { if id.seq <= number { None } else { Some(true) } }
            None => Some(false),
        }
    }

    /// Takes the room for so many more connections. The only error is want of memory; nothing but the room changes.
    pub fn reserve(&mut self, count: usize) -> Result<(), AllocError>
        ensures numbers { self.new.numbers ≡ self.old.numbers }
        ensures room { OnOk result (count ≤ self.new.room) }
    {
        self.numbers.reserve(count)
    }

    /// The request is delivered. There is room.
    pub fn deliver(&mut self, id: RequestId)
        requires { 0 < self.old.room }
        ensures numbers { self.new.numbers
            ≡ insert self.old.numbers id.conn.0 (max (or_zero (get self.old.numbers id.conn.0)) id.seq) }
        ensures room { self.old.room ≤ self.new.room + 1 }
    {
        let Ok(()) = self.put(id) else { unreachable!() };
    }

    /// The request is delivered. The only error is want of memory, which is wanted only where none of its connection was delivered and
    /// there is no room; nothing but the room changes then.
    pub fn put(&mut self, id: RequestId) -> Result<(), AllocError>
        ensures numbers { OnOk result (self.new.numbers
            ≡ insert self.old.numbers id.conn.0 (max (or_zero (get self.old.numbers id.conn.0)) id.seq)) }
        ensures room { OnOk result (self.old.room ≤ self.new.room + 1) }
        ensures unchanged { OnErr result (self.new.numbers ≡ self.old.numbers) }
        ensures succeeds { 0 < self.old.room → IsOk result }
        ensures succeeds_again { IsSome (get self.old.numbers id.conn.0) → IsOk result }
    {
        if let Some(number) = self.numbers.get_mut(&id.conn.0) {
            *number = (*number).max(id.seq);
            return Ok(());
        }
        self.put_first(id)
    }

    /// The request is delivered where none of its connection that is as late was; whether it is. It isn't either where it is the first
    /// of its connection and there is no memory for it. Nothing but the room changes then.
    #[inline]
    pub fn pass(&mut self, id: RequestId) -> bool
        ensures later { result ≡ true → is_up_to (get self.old.numbers id.conn.0) id.seq ≡ false }
        ensures numbers { result ≡ true → self.new.numbers
            ≡ insert self.old.numbers id.conn.0 (max (or_zero (get self.old.numbers id.conn.0)) id.seq) }
        ensures unchanged { result ≡ false → self.new.numbers ≡ self.old.numbers }
    {
        if let Some(number) = self.numbers.get_mut(&id.conn.0) {
            if id.seq <= *number {
                return false;
            }
            *number = id.seq;
            return true;
        }
        let Ok(()) = self.put_first(id) else {
            return false;
        };
        true
    }

    // The same for the first of its connection: a call, as it comes once a connection.
    #[inline(never)]
    fn put_first(&mut self, id: RequestId) -> Result<(), AllocError>
        ensures numbers { OnOk result (self.new.numbers ≡ insert self.old.numbers id.conn.0 id.seq) }
        ensures room { OnOk result (self.old.room ≤ self.new.room + 1) }
        ensures unchanged { OnErr result (self.new.numbers ≡ self.old.numbers) }
        ensures succeeds { 0 < self.old.room → IsOk result }
    {
        let Ok(_) = self.numbers.insert(id.conn.0, id.seq) else {
            return Err(AllocError);
        };
        Ok(())
    }

    /// These requests are delivered. There is room for each.
    pub fn deliver_all(&mut self, delivered: &[Delivered])
        requires { length delivered.now ≤ self.old.room }
        ensures { self.new.numbers ≡ reached_by self.old.numbers delivered.now }
    {
        for request in delivered {
            self.deliver(request.id);
        }
    }
}
