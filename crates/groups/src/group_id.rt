//! The number of a group. Made by placement, which reads it from a table, and by tests.
ghost use Rattle.std.specs.Prelude.{◌≡◌, ℕ, ◌<◌};

use std::marker::Model;

/// One group, by its number, which is below 64. A contract sees the number.
#[derive(Clone, Copy, Debug, PartialEq, Eq, PartialOrd, Ord, Hash)]
pub struct GroupId {
    number: u8,
}

impl Model for GroupId {
    ghost Value = { ℕ };

    ghost view = { λ g. g.number };

    ghost invariant = { λ g. g.number < 64 };

    ghost inverse = { λ n. record { number = n } };
}

impl GroupId {
    /// The group of this number.
    pub fn new(number: u8) -> Self
        requires { number < 64 }
        ensures { result ≡ number }
    {
        GroupId { number }
    }

    /// Its number, which is below 64.
    pub fn number(self) -> u8
        ensures same { result ≡ self }
        ensures below_64 { result < 64 }
    {
        self.number
    }
}
