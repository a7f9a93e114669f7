// A part of a history that was seen.
ghost use Rattle.std.specs.Prelude.{◌≡◌, ◌≤◌, length};
ghost use mathlib.Core.List.{IsPrefix};

use crate::laws::{Law, Naming};
use crate::tokens::Reached;
use std::marker::{Model, PhantomData};

/// A beginning of the history that was seen. It has no bytes and can go to any thread. Contracts see it as its entries.
#[derive(Drop)]
pub struct Part<L: Law, J: Naming> {
    pub(crate) seen: Reached<L::Entry>,
    pub(crate) of: PhantomData<J>,
}

impl<L: Law, J: Naming> Model for Part<L, J> {
    ghost use Rattle.std.specs.Prelude.{◌≡◌, List};

    ghost Value = { List L.Entry };

    ghost view = { λ p. p.seen.list };

    ghost invariant = { λ p. (p.seen.name ≡ J.name) × L.legal p.seen.list };
}

impl<L: Law, J: Naming> Part<L, J> {
    /// It does nothing: its contract says that what was seen is legal.
    pub fn is_legal(&self)
        ensures { L.legal self.now }
    {
        let _ = &self.seen;
    }

    /// The same part once more.
    pub fn again(&self) -> Part<L, J>
        ensures { result ≡ self.now }
    {
        Part {
            seen: self.seen.again(),
            of: PhantomData,
        }
    }

    /// A part that begins with both: what both have seen is of one list.
    pub fn with(&self, other: &Part<L, J>) -> Part<L, J>
        ensures this { IsPrefix self.now result }
        ensures that { IsPrefix other.now result }
    {
        let mut seen = self.seen.again();
        seen.learn(&other.seen);
        Part {
            seen,
            of: PhantomData,
        }
    }

    /// It does nothing: its contract says that of two parts the shorter one begins the longer one.
    pub fn begins(&self, longer: &Part<L, J>)
        requires { length self.now ≤ length longer.now }
        ensures { IsPrefix self.now longer.now }
    {
        let _both = self.with(longer);
    }
}
