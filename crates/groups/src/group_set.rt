//! A set of groups in one word. The bit of a group's number is 1 where the group is in the set.
ghost use Rattle.std.specs.Prelude.{◌≡◌, ◌≢◌, ℕ, ◌<◌, ◌≤◌, ◌^◌, List, [], ◌∷◌, ◌==◌, length, true, MatchOption, IsTrue, ◌↔◌};
ghost use Rattle.groups.specs.GroupSet.{has, with_group, chosen, IsGroupSet};

use super::group_id::GroupId;
use super::iter::Iter;
use std::marker::Model;

/// Some of the 64 groups. A contract sees their numbers, ascending, each once.
#[derive(Clone, Copy, Debug)]
pub struct Groups {
    bits: u64,
}

impl Model for Groups {
    ghost use Rattle.std.specs.Prelude.{ℕ, List, ◌<◌, ◌^◌};
    ghost use Rattle.std.proofs.Common.{ap};
    ghost use Rattle.groups.specs.BitLaws.{number_of-ones};
    ghost use Rattle.groups.specs.Bits.{ones_of, number_of};

    ghost Value = { List ℕ };

    ghost view = { λ r. ones_of r.bits };

    ghost invariant = { λ r. r.bits < 2 ^ 64 };

    ghost inverse = { λ gs. record { bits = number_of gs } };

    ghost inverse_ok = { λ r h. ap (λ n. record { bits = n }) (number_of-ones r.bits h) };
}

impl Groups {
    /// No group.
    pub fn empty() -> Self
        ensures { result ≡ [] }
    {
        Groups { bits: 0 }
    }

    /// The first `count` groups, at most 64.
    pub fn all(count: u8) -> Self
        requires { count ≤ 64 }
        ensures { result ≡ chosen (λ _. true) 0 count }
    {
        if count == 64 {
            Groups { bits: u64::MAX }
        } else {
            Groups {
                bits: (1 << count) - 1,
            }
        }
    }

    /// These groups and `group`.
    pub fn with(self, group: GroupId) -> Self
        ensures { result ≡ with_group self group }
    {
        Groups {
            bits: self.bits | 1 << group.number(),
        }
    }

    /// Whether `group` is one of them.
    pub fn contains(&self, group: GroupId) -> bool
        ensures { result ≡ has self.now group }
    {
        self.bits >> group.number() & 1 == 1
    }

    /// How many groups there are, at most 64.
    pub fn len(&self) -> usize
        ensures count { result ≡ length self.now }
        ensures at_most_64 { result ≤ 64 }
        ensures set { IsGroupSet self.now }
    {
        self.bits.count_ones() as usize
    }

    /// Whether there is none.
    pub fn is_empty(&self) -> bool
        ensures { result ≡ (length self.now == 0) }
    {
        self.bits == 0
    }

    /// The group, if there is one and no other.
    pub fn alone(&self) -> Option<GroupId>
        ensures { MatchOption result (length self.now ≢ 1) (λ g. self.now ≡ g ∷ []) }
    {
        let mut rest = *self;
        let first = rest.pop_first()?;
        if rest.is_empty() { Some(first) } else { None }
    }

    /// The least group, if there is one, is taken out.
    pub fn pop_first(&mut self) -> Option<GroupId>
        ensures { MatchOption result ((self.old ≡ []) × (self.new ≡ [])) (λ g. self.old ≡ g ∷ self.new) }
    {
        if self.bits == 0 {
            return None;
        }
        let lowest = self.bits.trailing_zeros();
        self.bits &= !(1 << lowest);
        Some(GroupId::new(lowest as u8))
    }
}

impl PartialEq for Groups {
    ghost use Rattle.std.specs.Prelude.{nat_eq};
    ghost use Rattle.std.specs.Cmp.Lexicographic.{pointwise, nat_list_eq_equiv};
    ghost use Rattle.std.specs.Cmp.{partial_equiv_from_equiv};

    ghost eq = { pointwise nat_eq };

    ghost laws = { partial_equiv_from_equiv nat_list_eq_equiv };

    fn eq(&self, other: &Self) -> bool
        ensures same { result ≡ pointwise nat_eq self.now other.now }
        ensures equal { IsTrue result ↔ (self.now ≡ other.now) }
    {
        self.bits == other.bits
    }
}

impl Eq for Groups {
    ghost use Rattle.std.specs.Cmp.Lexicographic.{nat_list_eq_equiv};

    ghost laws = { nat_list_eq_equiv };
}
