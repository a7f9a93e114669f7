//! What goes from one lock to the other, sealed: a layer that was handed out, and what came of it; and a piece of the trace. No other
//! module makes one.

ghost use Rattle.std.specs.Prelude.{◌≡◌, ◌++◌, length};
ghost use Rattle.std.specs.List.{AllByRecursion};
ghost use Rattle.journal.specs.Codes.{StepFits};

use super::names::{Leading, RunsOf, Server, StepsOf};
use history::Part;
use journal::{Steps, Trace};
use layer_planner::Layer;
use layer_results::{Done, DoneRow};
use serial_store::Tabled;
use std::marker::Model;

/// A layer that was handed out, with its number, and the part of the steps whose Take with this number handed it out. Contracts see
/// all three.
#[derive(Drop)]
pub struct Taken<T: Tabled, L: Server> {
    pub(super) layer: Layer,
    pub(super) number: u64,
    pub(super) told: Part<Leading<T>, StepsOf<L>>,
    // Room for what comes of one request.
    pub(super) rows: Vec<DoneRow>,
}

impl<T: Tabled, L: Server> Model for Taken<T, L> {
    ghost use Rattle.std.specs.Coded.{codes};
    ghost use Rattle.cluster.specs.Sealed.{TakenView, IsTaken};

    ghost Value = { TakenView };

    ghost coded = { Prim.hlevel (codes) };

    ghost view = { λ t. record { layer = t.layer; number = t.number; told = t.told } };

    ghost invariant = { λ t. IsTaken T.table (record { layer = t.layer; number = t.number; told = t.told }) };
}

impl<T: Tabled, L: Server> Taken<T, L> {
    /// The requests.
    pub fn layer(&self) -> &Layer
        ensures { result.now ≡ self.now.layer }
    {
        &self.layer
    }
}

/// What came of a layer that was handed out, and parts of both histories: that of the steps has handed the layer out, and that of the
/// store ends with what came of it. Contracts see these and the layer's number.
#[derive(Drop)]
pub struct Ran<T: Tabled, L: Server> {
    pub(super) told: Part<Leading<T>, StepsOf<L>>,
    pub(super) ran: serial_store::Ran<T, RunsOf<L>>,
}

impl<T: Tabled, L: Server> Model for Ran<T, L> {
    ghost use Rattle.std.specs.Coded.{codes};
    ghost use Rattle.resp.specs.contracts.reply.Reply as reply;
    ghost use Rattle.cluster.specs.Sealed.{RanView, IsRan};

    ghost Value = { RanView };

    ghost coded = { Prim.hlevel (codes, reply.the_row.coded) };

    ghost view = { λ r. record { done = r.ran.done; number = r.ran.number; told = r.told; ran = r.ran.runs } };

    ghost invariant = { λ r. IsRan T.table (record { done = r.ran.done; number = r.ran.number; told = r.told; ran = r.ran.runs }) };
}

impl<T: Tabled, L: Server> Ran<T, L> {
    /// What came of the requests.
    pub fn done(&self) -> &Done
        ensures { result.now ≡ self.now.done }
    {
        self.ran.done()
    }
}

/// A piece of the trace: steps that were made since the one before it, how many those before it have, and the part of the history that
/// it ends. Contracts see all three.
#[derive(Drop)]
pub struct Piece<T: Tabled, L: Server> {
    pub(super) told: Part<Leading<T>, StepsOf<L>>,
    pub(super) from: u64,
    pub(super) steps: Trace,
    // How many steps there are in all.
    pub(super) made: u64,
}

impl<T: Tabled, L: Server> Model for Piece<T, L> {
    ghost use Rattle.std.specs.Prelude.{◌≡◌, length};
    ghost use Rattle.cluster.specs.Pieces.{PieceView, IsPiece};

    ghost Value = { PieceView };

    ghost view = { λ p. record { told = p.told; from = p.from; steps = p.steps.steps } };

    ghost invariant = { λ p. IsPiece (record { told = p.told; from = p.from; steps = p.steps.steps }) × (p.made ≡ length p.told) };
}

impl<T: Tabled, L: Server> Piece<T, L> {
    /// How many steps the pieces before it have.
    pub fn from(&self) -> u64
        ensures { result ≡ self.now.from }
    {
        self.from
    }

    /// How many steps there are with its own.
    pub fn count(&self) -> u64
        ensures { result ≡ length self.now.told }
    {
        self.made
    }

    /// Its steps. A caller learns that their numbers, words and names lie in memory.
    pub fn steps(&self) -> Steps<'_>
        ensures steps { result ≡ self.now.steps }
        ensures fit { AllByRecursion StepFits self.now.steps }
    {
        self.steps.steps()
    }

    /// The part of the history that it ends.
    pub fn told(&self) -> Part<Leading<T>, StepsOf<L>>
        ensures { result ≡ self.now.told }
    {
        self.told.again()
    }

    /// It does nothing: its contract says that the first piece has all steps that it ends.
    pub fn is_first(&self)
        requires { self.now.from ≡ 0 }
        ensures { self.now.told ≡ self.now.steps }
    {
        let _ = &self.told;
    }

    /// It does nothing: its contract says that the piece follows the part that has as many steps as the pieces before it.
    pub fn follows(&self, seen: &Part<Leading<T>, StepsOf<L>>)
        requires { length seen.now ≡ self.now.from }
        ensures { self.now.told ≡ seen.now ++ self.now.steps }
    {
        seen.begins(&self.told);
    }
}
