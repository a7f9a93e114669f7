//! What a thread that brings work on has in its hand, and how a layer that is there is run. No other module tells that a layer
//! was refused for good.

ghost use Rattle.std.specs.Prelude.{◌≡◌, true, IsTrue, ◌↔◌};
ghost use Rattle.shared_cluster.specs.Hands.{IsBrought};
ghost use Rattle.shared_cluster.specs.declared.hand.Hand.{Hand};

use cluster::{Ran, RunsOf, Server, Taken, run_taken};
use serial_store::{SerialStore, Tabled};
use shard_workers::{Gate, Workers};

/// What a thread that brings work on has in its hand. It doesn't return before its hand is free, since no other thread can run
/// or settle what is there.
#[derive(Drop)]
pub(crate) enum Hand<A, B> {
    /// Nothing.
    Free,
    /// A layer that was taken, and isn't run.
    Taken(A),
    /// What came of the layer, which isn't settled.
    HasRun(B),
}

/// The hand of a thread that brings work on of this cluster.
pub(crate) type HandOf<T, L> = Hand<Taken<T, L>, Ran<T, L>>;

impl<A, B> Hand<A, B> {
    /// Whether nothing is in it.
    pub fn is_free(&self) -> bool
        ensures { IsTrue result ↔ (self.now ≡ Hand.Free) }
    {
        matches!(self, Hand::Free)
    }

    /// Whether what came of a layer is in it.
    pub fn has_run(&self) -> bool
        ensures { result ≡ true → (came : B) × (self.now ≡ Hand.HasRun came) }
    {
        matches!(self, Hand::HasRun(_))
    }
}

/// That the store refused a layer for good: its turn was another, it is stale, or a worker could not be started, now or
/// earlier. It can't be made up, since only running a layer gives it.
#[derive(Drop)]
pub(crate) struct Broken {
    seen: (),
}

/// What running a layer came to.
#[derive(Drop)]
pub(crate) enum Run<A, B> {
    /// It was run, and this came of it.
    Handed(B),
    /// There was no memory, and nothing has changed.
    Starved(A),
    /// It was refused for good.
    Refused(Broken),
}

/// What running a layer of this cluster came to.
pub(crate) type RunOf<T, L> = Run<Taken<T, L>, Ran<T, L>>;

/// Runs a layer in a store, which is lawful, and seals what came of it.
pub(crate) fn bring_to<T: Tabled, L: Server, W: Workers>(
    store: &mut SerialStore<T, RunsOf<L>>,
    layer: Taken<T, L>,
    workers: &W,
    gate: &(dyn Gate + Sync),
) -> RunOf<T, L>
    ensures { IsBrought T.table (W.may_refuse workers.now) layer result }
{
    store.lawful();
    match run_taken(store, layer, workers, gate) {
        Ok(ran) => Run::Handed(ran),
        Err(Some(layer)) => Run::Starved(layer),
        Err(None) => Run::Refused(Broken { seen: () }),
    }
}
