//! A list of names of requests and of members of requests.

ghost use Rattle.std.specs.Prelude.{◌≡◌};
ghost use Rattle.journal.specs.Names.{AreNumbered};

use groups::SkipId;
use std::marker::Model;

/// Some requests, and members of requests, by their names. Contracts see the list. Members are numbered from 1.
#[derive(Drop)]
pub struct SkipIds {
    names: Vec<SkipId>,
}

impl Model for SkipIds {
    ghost use Rattle.std.specs.Prelude.{List};
    ghost use Rattle.groups.specs.declared.skip_id.SkipId.{SkipId};
    ghost use Rattle.journal.specs.Names.{AreNumbered};

    ghost Value = { List SkipId };

    ghost view = { λ l. l.names.items };

    ghost invariant = { λ l. AreNumbered l.names.items };
}

impl SkipIds {
    /// These names. It takes no memory.
    pub fn new(names: Vec<SkipId>) -> Self
        requires { AreNumbered names.items }
        ensures { result ≡ names.items }
    {
        SkipIds { names }
    }

    /// The names, to be read one after another.
    pub fn as_slice(&self) -> &[SkipId]
        ensures names { result.now ≡ self.now }
        ensures numbered { AreNumbered self.now }
    {
        self.names.as_slice()
    }

    /// The names, given back with the memory that they lie in.
    pub fn into_vec(self) -> Vec<SkipId>
        ensures names { result.items ≡ self }
        ensures numbered { AreNumbered result.items }
    {
        self.names
    }
}
