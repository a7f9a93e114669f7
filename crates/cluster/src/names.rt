//! What names a server, and which lists of its steps are legal.

use groups::ConnId;
use history::{Law, Naming, Says, SaysAll};
use journal::Step;
use layer_results::Done;
use serial_store::Tabled;
use std::marker::{Brand, PhantomData};
use std::snapshot::Snapshot;
use std::sync::ledger::Ledger;

/// Which server it is: its ledger, the history of its steps, and that of its store's layers. Whoever makes one passes `Brand`, and
/// picks the names there.
pub trait Server: Ledger {
    ghost use Rattle.history.specs.Names.{Name};

    ghost steps: { Name };

    ghost runs: { Name };
}

impl Server for Brand {
    ghost use Rattle.history.specs.Names.{no_name};

    ghost steps = { no_name };

    ghost runs = { no_name };
}

/// The name of the history of a server's steps.
pub struct StepsOf<L> {
    of: PhantomData<L>,
}

impl<L: Server> Naming for StepsOf<L> {
    ghost name = { L.steps };
}

/// The name of the history of its store's layers.
pub struct RunsOf<L> {
    of: PhantomData<L>,
}

impl<L: Server> Naming for RunsOf<L> {
    ghost name = { L.runs };
}

/// The law of steps, of which there is no value: they lead to a world, where keys lie by this table.
pub struct Leading<T> {
    of: PhantomData<T>,
}

impl<T: Tabled> Law for Leading<T> {
    ghost use Rattle.world.specs.Steps.{opening, Leads};
    ghost use Rattle.world.specs.World.{World};

    type Entry = Step;

    ghost legal = { λ steps. (w : World) × Leads T.table opening steps w };
}

/// What is written of a step that is gone.
pub struct ItsStep;

impl Says<Snapshot<Step>, Step> for ItsStep {
    ghost entry = { λ made. made.value };
}

/// What is written of a request that is handed out at once, by its packets: each came, the oldest then, and it was taken.
pub struct ItsPass;

impl SaysAll<usize, Step> for ItsPass {
    ghost use Rattle.std.specs.Prelude.{[], ◌∷◌, ◌++◌};
    ghost use Rattle.cluster.specs.Passing.{arrivals};
    ghost use Rattle.journal.specs.declared.step.Step.TheVariants.{Take};

    ghost entries = { λ packets. arrivals packets ++ Take ∷ [] };
}

/// What is written of what came of a layer, which is gone: its Run, with what starved there, and its Settle.
pub struct ItsSettle;

impl SaysAll<Snapshot<Done>, Step> for ItsSettle {
    ghost use Rattle.std.specs.Prelude.{[], ◌∷◌};
    ghost use Rattle.journal.specs.declared.step.Step.TheVariants.{Run, Settle};
    ghost use Rattle.layer_results.specs.Results.{names_of};

    ghost entries = { λ done. Run (names_of done.value) ∷ Settle ∷ [] };
}

/// What is written of what came of a layer that is settled and collected at once: its Run, with what starved there, its Settle, and a
/// Collect of this connection.
pub struct ItsFinish;

impl SaysAll<(Snapshot<Done>, ConnId), Step> for ItsFinish {
    ghost use Rattle.std.specs.Prelude.{[], ◌∷◌};
    ghost use Rattle.journal.specs.declared.step.Step.TheVariants.{Run, Settle, Collect};
    ghost use Rattle.layer_results.specs.Results.{names_of};

    ghost entries = { λ it. Run (names_of it.0.value) ∷ Settle ∷ Collect it.1 ∷ [] };
}
