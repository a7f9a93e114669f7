//! What came of a layer, sealed.

ghost use Rattle.std.specs.Prelude.{◌≡◌, []};
ghost use Rattle.serial_store.specs.Rans.{EndsIn};

use crate::law::{Serial, Tabled};
use history::{Naming, Part};
use layer_planner::Job;
use layer_results::Done;
use std::marker::Model;

/// What came of a layer that a store ran, with its number among the store's layers, and the part of the store's history that ends
/// with it. A store alone makes one. Contracts see all three.
#[derive(Drop)]
pub struct Ran<T: Tabled, J: Naming> {
    pub(crate) number: u64,
    pub(crate) done: Done,
    pub(crate) runs: Part<Serial<T>, J>,
    // The layer's list of jobs, emptied, where it was of one request.
    pub(crate) jobs: Vec<Job>,
}

impl<T: Tabled, J: Naming> Model for Ran<T, J> {
    ghost use Rattle.std.specs.Coded.{codes};
    ghost use Rattle.std.specs.Prelude.{◌≡◌, []};
    ghost use Rattle.resp.specs.contracts.reply.Reply as reply;
    ghost use Rattle.serial_store.specs.Rans.{RanView, EndsIn};

    ghost Value = { RanView };

    ghost coded = { Prim.hlevel (codes, reply.the_row.coded) };

    ghost view = { λ r. record { done = r.done; number = r.number; runs = r.runs } };

    ghost invariant = { λ r. EndsIn (record { done = r.done; number = r.number; runs = r.runs }) × (r.jobs.items ≡ []) };
}

impl<T: Tabled, J: Naming> Ran<T, J> {
    /// What came of the layer.
    pub fn done(&self) -> &Done
        ensures { result.now ≡ self.now.done }
    {
        &self.done
    }

    /// How many layers were run before it.
    pub fn number(&self) -> u64
        ensures { result ≡ self.now.number }
    {
        self.number
    }

    /// The part of the store's history that ends with it, once more.
    pub fn runs(&self) -> Part<Serial<T>, J>
        ensures { result ≡ self.now.runs }
    {
        self.runs.again()
    }

    /// What came of the layer, the part that ends with it, and an empty list of jobs: that of a layer of one request, to be used again.
    pub fn into_parts(self) -> (Done, Part<Serial<T>, J>, Vec<Job>)
        ensures done { result.0 ≡ self.done }
        ensures runs { result.1 ≡ self.runs }
        ensures jobs { result.2.items ≡ [] }
    {
        let Ran {
            number: _number,
            done,
            runs,
            jobs,
        } = self;
        (done, runs, jobs)
    }

    /// It does nothing: its contract says that what came of the layer is the last in the part, behind as many as its number says.
    pub fn holds(&self)
        ensures { EndsIn self.now }
    {
        let _ = &self.runs;
    }
}
