//! What names a cluster, of which one is made.

ghost use Rattle.std.specs.Prelude.{◌≡◌, ◌+◌, ◌≤◌, []};
ghost use Rattle.journal.specs.declared.trace.TheConstants.{GREATEST_STEPS};

use cluster::{Leading, RunsOf, Server, StepsOf};
use history::{Unnamed, Writer};
use serial_store::{Serial, Tabled};
use std::sync::ledger::Blank;

/// A ledger, and histories of steps and of a store's layers, which no type stands for yet. In neither anything is written.
#[derive(Drop)]
pub struct Blanks<T: Tabled> {
    pub blank: Blank,
    pub steps: Unnamed<Leading<T>>,
    pub runs: Unnamed<Serial<T>>,
}

impl<T: Tabled> Blanks<T> {
    /// Those of a cluster that makes so many steps at most: its ledger has a part more.
    pub fn open(max_steps: u64) -> Self
        requires few { max_steps ≤ GREATEST_STEPS }
        ensures { result.blank.parts ≡ max_steps + 1 }
    {
        Blanks {
            blank: Blank::new(max_steps + 1),
            steps: Unnamed::<Leading<T>>::open(),
            runs: Unnamed::<Serial<T>>::open(),
        }
    }

    /// The same, under their names.
    pub fn named<L: Server>(self) -> Names<T, L>
        requires name { self.blank.name ≡ L.name }
        requires parts { self.blank.parts ≡ L.parts }
        requires steps { self.steps ≡ L.steps }
        requires runs { self.runs ≡ L.runs }
        ensures blank { result.blank ≡ self.blank }
        ensures steps { result.steps ≡ [] }
        ensures runs { result.runs ≡ [] }
    {
        let Blanks { blank, steps, runs } = self;
        Names {
            blank,
            steps: steps.named::<StepsOf<L>>(),
            runs: runs.named::<RunsOf<L>>(),
        }
    }
}

/// What names a cluster: its ledger, and the writers of the histories of its steps and of its store's layers.
#[derive(Drop)]
pub struct Names<T: Tabled, L: Server> {
    pub blank: Blank,
    pub steps: Writer<Leading<T>, StepsOf<L>>,
    pub runs: Writer<Serial<T>, RunsOf<L>>,
}
