//! The value of a key that is a set.

ghost use Rattle.std.specs.Prelude.{◌≡◌, ◌+◌, ◌<◌, [], length, not};
ghost use Rattle.std.specs.Prelude.{false, IfOk, OnOk, OnErr};
ghost use Rattle.values.specs.ListValue.{nonempty};
ghost use Rattle.values.specs.SetValue.{IsAscending, is_member, members_seen};
ghost use Rattle.values.specs.SetValue.{with_member, without_member, with_members, without_members};

use crate::items::{Items, LeastMembers, Rest};
use crate::member_table::{
    MemberTable, ascending, contains, give_back, insert, insert_each, order, remove, remove_each,
};
use hashed_texts::TextHasher;
use indexmap::IndexSet;
use std::alloc::{AllocError, Global};
use std::marker::Model;
use texts::{Text, Texts};

/// A set of at least one byte string. Contracts see the list of its members, ascending by their bytes.
///
/// A member is looked up, inserted and removed in constant time on average. The members lie in any order until one is
/// asked for: `members` takes time for sorting them, unless `order` did so and none was inserted or removed since.
#[derive(Drop)]
pub struct SetValue {
    members: Box<MemberTable>,

    /// Whether the members ascend as they lie in the table.
    is_ordered: bool,
}

impl Model for SetValue {
    ghost use Rattle.std.specs.Prelude.{List, ◌<◌, IsTrue, length};
    ghost use Rattle.texts.specs.Texts.{Bytes};
    ghost use Rattle.values.specs.SetValue.{IsAscending, members_seen};

    ghost Value = { List Bytes };

    ghost view = { λ s. members_seen s.members.value.keys };

    ghost invariant = { λ s. (0 < length s.members.value.keys)
        × (IsTrue s.is_ordered → IsAscending s.members.value.keys) };
}

impl SetValue {
    /// The set of these members, which may come in any order and more than once; `None` where there are none. No string
    /// is copied. It hashes its members by `hasher`, whatever is done to it later.
    ///
    /// `AllocError` where there is no memory for it.
    #[tactic(auto, using(crate::proofs::MembersSeen::members))]
    pub fn from_members(
        alloc: Global,
        hasher: TextHasher,
        members: Texts,
    ) -> Result<Option<Self>, AllocError>
        ensures made { IfOk result (λ set. set ≡ nonempty (with_members [] members)) }
        ensures ascending { IsAscending members → IfOk result (λ set. set ≡ nonempty members) }
    {
        let members = members.into_vec();
        let room = members.len();
        let mut table: MemberTable = IndexSet::with_capacity_and_hasher(alloc, room, hasher)?;
        insert_each(&mut table, members);
        let Ok(members) = Box::new(alloc, table) else {
            return Err(AllocError);
        };
        Ok(at_least_one(members))
    }

    /// The number of members.
    #[tactic(auto, using(crate::proofs::MembersSeen::seen))]
    pub fn len(&self) -> usize
        ensures len { result ≡ length self.now }
        ensures some { 0 < result }
        ensures ascending { IsAscending self.now }
    {
        self.members.len()
    }

    /// Whether the string is a member.
    pub fn has(&self, member: &[u8]) -> bool
        ensures { result ≡ is_member self.now member.now }
    {
        contains(&self.members, member)
    }

    /// The members in ascending order, to be read one after another.
    ///
    /// Where they don't lie in order and there is no memory for a list of them, each is looked for among all of them when
    /// it is read. To read them all then takes time for the square of their number.
    #[tactic(auto, using(crate::proofs::MembersAfter::read))]
    pub fn members(&self, alloc: Global) -> Items<'_>
        ensures { result ≡ self.now }
    {
        if self.is_ordered {
            let keys = self.members.iter();
            return Items {
                value: None,
                rest: Rest::Keys(keys),
            };
        }
        let Ok(members) = ascending(alloc, &self.members) else {
            let least = LeastMembers {
                keys: self.members.as_slice(),
                after: None,
            };
            return Items {
                value: None,
                rest: Rest::Least(least),
            };
        };
        Items {
            value: None,
            rest: Rest::Members(members.into_iter()),
        }
    }

    /// The members in any order, to be read one after another. It takes no memory.
    pub fn in_any_order(&self) -> Items<'_>
        ensures { with_members [] result ≡ self.now }
    {
        Items {
            value: None,
            rest: Rest::Keys(self.members.iter()),
        }
    }

    /// Puts the members in order as they lie in memory, so that `members` has not to sort them.
    ///
    /// `AllocError` where there is no memory for that. The set is the same, whichever comes.
    #[tactic(auto, using(crate::proofs::MembersSeen::seen))]
    pub fn order(&mut self) -> Result<(), AllocError>
        ensures same { self.new ≡ self.old }
        ensures some { 0 < length self.new }
    {
        if self.is_ordered {
            return Ok(());
        }
        order(&mut self.members)?;
        self.is_ordered = true;
        Ok(())
    }

    /// Inserts a member, and says whether it was new.
    ///
    /// `AllocError`, and no change, where there is no memory for a new one.
    #[tactic(auto, using(crate::proofs::MembersSeen::seen))]
    pub fn insert(&mut self, member: Text) -> Result<bool, AllocError>
        ensures added { IfOk result (λ added. added ≡ not (is_member self.old member)) }
        ensures ok { OnOk result (self.new ≡ with_member self.old member) }
        ensures some { 0 < length self.new }
        ensures absent { OnErr result (is_member self.old member ≡ false) }
        ensures err { OnErr result (self.new ≡ self.old) }
    {
        self.is_ordered = false;
        insert(&mut self.members, member.into_vec())
    }

    /// Inserts these members, all of them, and gives how many were new; or inserts none, and `AllocError`. No string is
    /// copied.
    #[tactic(auto, using(crate::proofs::MembersSeen::seen))]
    pub fn insert_all(&mut self, members: Texts) -> Result<usize, AllocError>
        ensures ok { OnOk result (self.new ≡ with_members self.old members) }
        ensures some { 0 < length self.new }
        ensures added { IfOk result (λ added. length self.new ≡ length self.old + added) }
        ensures err { OnErr result (self.new ≡ self.old) }
    {
        let members = members.into_vec();
        let before = self.members.len();
        self.members.reserve(members.len())?;
        self.is_ordered = false;
        insert_each(&mut self.members, members);
        Ok(self.members.len() - before)
    }

    /// Removes a member, and gives what is left. It takes no memory.
    pub fn remove(self, member: &[u8]) -> Option<Self>
        ensures { result ≡ nonempty (without_member self member.now) }
    {
        let SetValue { mut members, .. } = self;
        remove(&mut members, member);
        at_least_one(members)
    }

    /// Removes these members, and gives how many were there and what is left. It takes no memory.
    #[tactic(auto, using(crate::proofs::MembersSeen::seen))]
    pub fn remove_all(self, members: &Texts) -> (usize, Option<Self>)
        ensures left { result.1 ≡ nonempty (without_members self members.now) }
        ensures removed { result.0 + length (without_members self members.now) ≡ length self }
    {
        let SetValue {
            members: mut there,
            ..
        } = self;
        let before = there.len();
        remove_each(&mut there, members.as_slice());
        (before - there.len(), at_least_one(there))
    }
}

/// These members as a set, if there are any, in a table that is not much too large for them.
#[tactic(auto, using(crate::proofs::MembersSeen::seen))]
fn at_least_one(mut members: Box<MemberTable>) -> Option<SetValue>
    ensures { result ≡ nonempty (members_seen members.value.keys) }
{
    if members.is_empty() {
        None
    } else {
        give_back(&mut members);
        Some(SetValue {
            members,
            is_ordered: false,
        })
    }
}
