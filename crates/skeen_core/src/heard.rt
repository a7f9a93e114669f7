//! The proposals for one request, in a list in order of coming, which is searched from the front.
ghost use Rattle.std.specs.Prelude.{◌≡◌, ◌++◌, [], ◌∷◌, IfOk, OnOk, OnErr};
ghost use Rattle.groups.specs.GroupSet.{IsAscending};
ghost use Rattle.groups.specs.Stamp.{final};
ghost use Rattle.skeen_core.specs.Heard.{clock_of, with_heard, missing};

use groups::{GroupId, Groups, Stamp};
use std::alloc::{AllocError, Global};
use std::marker::Model;

/// A proposal: the clock that the group `from` proposed.
#[derive(Clone, Copy)]
pub struct Heard {
    pub from: GroupId,
    pub clock: u64,
}

/// The proposals for one request. A contract sees them in order of coming.
#[derive(Drop)]
pub struct HeardList {
    proposals: Vec<Heard>,
}

impl Model for HeardList {
    ghost use Rattle.std.specs.Prelude.{List};
    ghost use Rattle.skeen_core.specs.declared.heard.Heard.{Heard};

    ghost Value = { List Heard };

    ghost view = { λ l. l.proposals.items };
}

impl HeardList {
    /// A list of one proposal. The only error is want of memory.
    pub fn with_one(alloc: Global, proposal: Heard) -> Result<Self, AllocError>
        ensures { IfOk result (λ list. list ≡ proposal ∷ []) }
    {
        let mut proposals = Vec::new(alloc);
        proposals.push(proposal)?;
        Ok(HeardList { proposals })
    }

    /// Puts a proposal behind the others. The only error is want of memory, and it changes nothing.
    pub fn push(&mut self, proposal: Heard) -> Result<(), AllocError>
        ensures pushed { OnOk result (self.new ≡ self.old ++ proposal ∷ []) }
        ensures unchanged { OnErr result (self.new ≡ self.old) }
    {
        self.proposals.push(proposal)?;
        Ok(())
    }

    pub fn as_slice(&self) -> &[Heard]
        ensures { result.now ≡ self.now }
    {
        self.proposals.as_slice()
    }
}

/// The clock that the group `from` proposed, if that has come.
pub fn clock_of(list: &[Heard], from: GroupId) -> Option<u64>
    ensures { result ≡ clock_of list.now from }
{
    for proposal in list {
        if from == proposal.from {
            return Some(proposal.clock);
        }
    }
    None
}

/// The same once the proposal `last` has come too.
fn clock_with(list: &[Heard], last: &Heard, from: GroupId) -> Option<u64>
    ensures { result ≡ with_heard last.now (clock_of list.now) from }
{
    if from == last.from {
        Some(last.clock)
    } else {
        clock_of(list, from)
    }
}

/// The greatest of the proposals of these groups, if each has come once `last` has come too.
pub fn final_stamp(list: &[Heard], last: &Heard, groups: Groups) -> Option<Stamp>
    ensures { result ≡ final (with_heard last.now (clock_of list.now)) groups }
{
    let mut greatest = Stamp {
        clock: 0,
        group: GroupId::new(0),
    };
    for group in groups.iter() {
        let proposed = Stamp {
            clock: clock_with(list, last, group)?,
            group,
        };
        if greatest < proposed {
            greatest = proposed;
        }
    }
    Some(greatest)
}

/// How many of these groups have proposed nothing once `last` has come too.
pub fn missing(list: &[Heard], last: &Heard, groups: Groups) -> u64
    ensures count { result ≡ missing (with_heard last.now (clock_of list.now)) groups }
    ensures ascending { IsAscending groups }
{
    let mut count = groups.len() as u64;
    for group in groups.iter() {
        if clock_with(list, last, group).is_some() {
            count -= 1;
        }
    }
    count
}
