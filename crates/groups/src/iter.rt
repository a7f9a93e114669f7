//! The walk over a set of groups, from the least on.
ghost use Rattle.std.specs.Prelude.{◌≡◌};
ghost use Rattle.std.specs.Iterator.{YieldsFirst, item_count};

use super::group_id::GroupId;
use super::group_set::Groups;
use std::marker::Model;

/// The groups of a set that are still to come, ascending. A contract sees their numbers.
#[derive(Clone, Copy)]
pub struct Iter {
    rest: Groups,
}

impl Model for Iter {
    ghost use Rattle.std.specs.Prelude.{ℕ, List};

    ghost Value = { List ℕ };

    ghost view = { λ i. i.rest };

    ghost inverse = { λ gs. record { rest = gs } };
}

impl Groups {
    /// The groups from the least on.
    pub fn iter(&self) -> Iter
        ensures { result ≡ self.now }
    {
        Iter { rest: *self }
    }
}

impl Iterator for Iter {
    type Item = GroupId;

    ghost next_gives = { YieldsFirst (λ i. i) };

    ghost remaining = { item_count (λ i. i) };

    fn next(&mut self) -> Option<GroupId> {
        self.rest.pop_first()
    }
}
