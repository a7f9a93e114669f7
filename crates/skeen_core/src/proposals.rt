//! The proposals that a group has, by request.
ghost use Rattle.std.specs.Prelude.{◌≡◌, ◌↔◌, IsTrue, ℕ, not, Some, None, OnOk, OnErr};
ghost use Rattle.std.specs.FinMap.{empty, get, insert, retain_keys};
ghost use Rattle.groups.specs.Request.{same_id};
ghost use Rattle.groups.specs.declared.request.RequestId.{RequestId};
ghost use Rattle.skeen_core.specs.Heard.{clock_of};
ghost use Rattle.skeen_core.specs.Proposals.{CountsNamed, is_clock, are_single};

use super::heard::{Heard, HeardList, clock_of};
use groups::{GroupId, RequestId};
use std::alloc::{AllocError, Global};
use std::collections::HashMap;
use std::marker::Model;

/// The proposals that a group has, its own among them. A contract sees the clocks by request and group. They are found
/// by hashing, so that a packet costs the same however many requests are open.
#[derive(Drop)]
pub struct Proposals {
    lists: HashMap<RequestId, HeardList>,
}

impl Model for Proposals {
    ghost use Rattle.std.specs.Coded.{coded_ℕ};
    ghost use Rattle.std.specs.FinMap.{FinMap, code, from_entries};
    ghost use Rattle.std.specs.Prelude.{ℕ};
    ghost use Rattle.groups.specs.Request.{source_cmp};
    ghost use Rattle.skeen_core.specs.Proposals.{source_code, clocks_of, AreLists};

    ghost Value = { FinMap source_cmp ℕ };

    ghost coded = { code source_code coded_ℕ };

    ghost view = { λ p. from_entries (clocks_of p.lists.entries) };

    ghost invariant = { λ p. AreLists p.lists.entries };
}

impl Proposals {
    /// No proposal.
    pub fn new(alloc: Global) -> Self
        ensures { result ≡ empty }
    {
        Proposals {
            lists: HashMap::new(alloc),
        }
    }

    /// Those for the request.
    pub fn of(&self, id: RequestId) -> &[Heard]
        ensures { (g : ℕ) → clock_of result.now g ≡ get self.now (record { id = id; from = g }) }
    {
        match self.lists.get(&id) {
            Some(list) => list.as_slice(),
            None => &[],
        }
    }

    /// A proposal for the request has come, and none from that group before. The only error is want of memory, and it
    /// changes nothing.
    pub fn add(&mut self, alloc: Global, id: RequestId, proposal: Heard) -> Result<(), AllocError>
        requires { get self.old (record { id = id; from = proposal.from }) ≡ None }
        ensures added { OnOk result (self.new ≡ insert self.old (record { id = id; from = proposal.from }) proposal.clock) }
        ensures unchanged { OnErr result (self.new ≡ self.old) }
    {
        if let Some(list) = self.lists.get_mut(&id) {
            return list.push(proposal);
        }
        let list = HeardList::with_one(alloc, proposal)?;
        self.lists.insert(id, list)?;
        Ok(())
    }

    /// The request is delivered: its proposals are forgotten.
    pub fn forget(&mut self, id: RequestId)
        ensures { self.new ≡ retain_keys self.old (λ s. not (same_id id s.id)) }
    {
        let _ = self.lists.remove(&id);
    }

    /// For how many requests there are proposals.
    pub fn len(&self) -> usize
        ensures { CountsNamed self.now result }
    {
        self.lists.len()
    }

    /// Whether no other request has a proposal of this stamp. It looks at each request, so it is for callers that can't
    /// prove it.
    pub fn is_single(&self, id: RequestId, from: GroupId, clock: u64) -> bool
        ensures { IsTrue result ↔ ((i : RequestId) → get self.now (record { id = i; from = from }) ≡ Some clock → i ≡ id) }
    {
        are_single(&self.lists, id, from, clock)
    }
}

/// Whether none of these but the request's own has that proposal.
fn are_single(
    lists: &HashMap<RequestId, HeardList>,
    id: RequestId,
    from: GroupId,
    clock: u64,
) -> bool
    ensures { result ≡ are_single id from clock lists.now.entries }
{
    for (other, list) in lists {
        if *other != id && is_clock(clock_of(list.as_slice(), from), clock) {
            return false;
        }
    }
    true
}

fn is_clock(known: Option<u64>, clock: u64) -> bool
    ensures { result ≡ is_clock known clock }
{
    match known {
        Some(known) => known == clock,
        None => false,
    }
}
