// The one who writes a history.
ghost use Rattle.std.specs.Prelude.{◌≡◌, [], ◌∷◌, ◌++◌};
ghost use mathlib.Core.List.{IsPrefix};

use crate::laws::{Alone, Law, Naming, Says, SaysAll};
use crate::part::Part;
use crate::tokens::{Latest, Reached};
use std::marker::{Model, PhantomData};

/// An empty history, which isn't named yet. Contracts see it as what names it.
#[derive(Drop)]
pub struct Unnamed<L: Law> {
    latest: Latest<L::Entry>,
    seen: Reached<L::Entry>,
}

impl<L: Law> Model for Unnamed<L> {
    ghost use Rattle.std.specs.Prelude.{◌≡◌, []};
    ghost use Rattle.history.specs.Names.{Name, name_coded};

    ghost Value = { Name };

    ghost coded = { name_coded };

    ghost view = { λ u. u.latest.name };

    ghost invariant = { λ u. (u.latest.list ≡ []) × (u.seen.list ≡ []) × (u.seen.name ≡ u.latest.name) × L.legal [] };
}

impl<L: Law> Unnamed<L> {
    /// Opens a history. It has no error.
    pub fn open() -> Unnamed<L>
        requires { L.legal [] }
    {
        let (latest, seen) = Latest::new();
        Unnamed { latest, seen }
    }

    /// The writer of this history, under its name.
    pub fn named<J: Naming>(self) -> Writer<L, J>
        requires { self ≡ J.name }
        ensures { result ≡ [] }
    {
        let Unnamed { latest, seen } = self;
        Writer {
            latest,
            seen,
            of: PhantomData,
        }
    }
}

/// The only one who adds to a history. It has no bytes, whatever was written. Contracts see it as all of its entries.
#[derive(Drop)]
pub struct Writer<L: Law, J: Naming> {
    latest: Latest<L::Entry>,
    seen: Reached<L::Entry>,
    of: PhantomData<J>,
}

impl<L: Law, J: Naming> Model for Writer<L, J> {
    ghost use Rattle.std.specs.Prelude.{◌≡◌, List};

    ghost Value = { List L.Entry };

    ghost view = { λ w. w.latest.list };

    ghost invariant = { λ w. (w.latest.name ≡ J.name) × (w.seen.name ≡ J.name) × (w.seen.list ≡ w.latest.list) × L.legal w.latest.list };
}

impl<L: Law, J: Naming> Writer<L, J> {
    /// It does nothing: its contract says that what was written is legal.
    pub fn is_legal(&self)
        ensures { L.legal self.now }
    {
        let _ = &self.seen;
    }

    /// All that was written, as a part that was seen.
    pub fn part(&self) -> Part<L, J>
        ensures { result ≡ self.now }
    {
        Part {
            seen: self.seen.again(),
            of: PhantomData,
        }
    }

    /// Adds the entry that `M` says of the value at hand, which is dropped. It can't fail: nobody else has added an entry
    /// meanwhile.
    pub fn write<X: Drop, M: Says<X, L::Entry>>(&mut self, about: X)
        requires { L.legal (self.old ++ M.entry about ∷ []) }
        ensures { self.new ≡ self.old ++ M.entry about ∷ [] }
    {
        let part = self.part();
        self.write_behind::<X, M>(about, &part);
    }

    /// The same; and whatever is in the part, whoever saw it, stands before the entry.
    pub fn write_behind<X: Drop, M: Says<X, L::Entry>>(&mut self, about: X, part: &Part<L, J>)
        requires { L.legal (self.old ++ M.entry about ∷ []) }
        ensures written { self.new ≡ self.old ++ M.entry about ∷ [] }
        ensures before { IsPrefix part.now self.old }
    {
        self.write_all_behind::<X, Alone<M>>(about, part);
    }

    /// Adds all entries that `M` says of the value at hand, which is dropped.
    pub fn write_all<X: Drop, M: SaysAll<X, L::Entry>>(&mut self, about: X)
        requires { L.legal (self.old ++ M.entries about) }
        ensures { self.new ≡ self.old ++ M.entries about }
    {
        let part = self.part();
        self.write_all_behind::<X, M>(about, &part);
    }

    /// The same; and whatever is in the part, whoever saw it, stands before the entries.
    pub fn write_all_behind<X: Drop, M: SaysAll<X, L::Entry>>(
        &mut self,
        about: X,
        part: &Part<L, J>,
    )
        requires { L.legal (self.old ++ M.entries about) }
        ensures written { self.new ≡ self.old ++ M.entries about }
        ensures before { IsPrefix part.now self.old }
    {
        self.seen = self.latest.add::<X, M>(&about, &part.seen);
    }
}
