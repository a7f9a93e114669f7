// A list that no memory keeps: the right to add to it, and what was seen of it. Neither has bytes.
ghost use Rattle.std.specs.Prelude.{◌≡◌, ℕ, List, [], ◌++◌};
ghost use mathlib.Core.List.{IsPrefix};
ghost use base.Stored.{coded_list};
ghost use denote.Sharing.{said};
ghost use Rattle.history.specs.Kept.{latest_owns, reached_owns};
ghost use Rattle.history.specs.Orders.{IsLonger};

use crate::laws::SaysAll;
use std::marker::{Model, PhantomData};

/// The only right to add to a list. Contracts see the list's name, and all of it.
pub struct Latest<E> {
    marker: PhantomData<E>,
    pub ghost name: { ℕ },
    pub ghost list: { List E } by { coded_list E.code },
}

impl<E> Model for Latest<E> {
    ghost also_owns = { λ l. latest_owns E.row.coded.code l.name l.list };
}

/// The list of this name begins so.
pub struct Reached<E> {
    marker: PhantomData<E>,
    pub ghost name: { ℕ },
    pub ghost list: { List E } by { coded_list E.code },
}

impl<E> Model for Reached<E> {
    ghost also_owns = { λ r. reached_owns E.row.coded.code r.name r.list };

    ghost also_shares = { λ r _ κ. said (reached_owns E.row.coded.code r.name r.list) κ };
}

impl<E> Latest<E> {
    /// A list of its own, which is empty, and what was seen of it.
    pub fn new() -> (Latest<E>, Reached<E>)
        ensures { (result.0.list ≡ []) × (result.1.list ≡ []) × (result.1.name ≡ result.0.name) }
    {
        (
            Latest {
                marker: PhantomData,
            },
            Reached {
                marker: PhantomData,
            },
        )
    }

    /// Adds what `M` says of the value. Whatever was seen stands before it; what comes back has seen all.
    pub fn add<X, M: SaysAll<X, E>>(&mut self, about: &X, seen: &Reached<E>) -> Reached<E>
        requires { seen.now.name ≡ self.old.name }
        ensures { (self.new.name ≡ self.old.name) × (self.new.list ≡ self.old.list ++ M.entries about.now)
            × IsPrefix seen.now.list self.old.list × (result.name ≡ self.old.name) × (result.list ≡ self.old.list ++ M.entries about.now) }
    {
        Reached {
            marker: PhantomData,
        }
    }
}

impl<E> Reached<E> {
    /// The same once more.
    pub fn again(&self) -> Reached<E>
        ensures { result ≡ self.now }
    {
        Reached {
            marker: PhantomData,
        }
    }

    /// Afterwards it has seen what both have seen, which is what one of them has.
    pub fn learn(&mut self, other: &Reached<E>)
        requires { other.now.name ≡ self.old.name }
        ensures { (self.new.name ≡ self.old.name) × IsLonger self.old.list other.now.list self.new.list }
    {}
}

impl<E> Drop for Latest<E> {
    fn drop(self) {
        let Self { marker: _ } = self;
    }
}

impl<E> Drop for Reached<E> {
    fn drop(self) {
        let Self { marker: _ } = self;
    }
}

unsafe impl<E> Send for Latest<E> {}

unsafe impl<E> Send for Reached<E> {}

unsafe impl<E> Sync for Reached<E> {}
