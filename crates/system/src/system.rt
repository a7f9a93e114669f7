//! The system.

ghost use Rattle.std.specs.Prelude.{Bool, false, ◌≡◌, ◌<◌, ◌≤◌, ◌++◌, length, IfOk, IfErr, OnOk, OnErr, IfSome, IfNone, IsTrue};
ghost use Rattle.std.specs.Prelude.{◌↔◌, option_copied};
ghost use Rattle.system.specs.System.{IsNew, IsStep, MayGoOn, IsAdmitted, IsRefused, IsQuiet, ObeysOneThread};
ghost use Rattle.system.specs.Reads.{table_of, failed, maps_of, contents_of, rows_of, starved_of, packets_of, queues_of};
ghost use Rattle.system.specs.Reads.{progress_of};
ghost use Rattle.system.specs.Reads.{waiting_for};
ghost use Rattle.system.specs.Reads.{clock_of, layer_of};
ghost use Rattle.std.specs.Prelude.{slice_get};
ghost use Rattle.system.specs.Laws.{ShowsSome, OfItsWorlds, OthersKeepStill, CollectedOnce, CollectsItsOwn};
ghost use Rattle.world_laws.specs.Order.{FinalsAgree, FinalsDiffer, ConnectionsRise, GroupsAreOfTasks, PacketsAreAddressed};
ghost use Rattle.world_laws.specs.Order.{LogsAreAddressed, ReadyInWords, LinedUpInWords, EndedOnce, EndedAsSubmitted, TouchingInStampOrder};
ghost use Rattle.shards.specs.Joined.{HasOwnKeys};
ghost use Rattle.system.specs.Runs.{Runs};
ghost use Rattle.system.specs.Endings.{EachHasEnded, SomeMayBeMade, TurnsAreFew};
ghost use Rattle.delivery.specs.Ready.{IsReady};
ghost use Rattle.dumps.specs.Dump.{dump_text};
ghost use Rattle.journal.specs.declared.step.Step.{Step};
ghost use Rattle.skeen_core.specs.declared.packet.Delivered.{Delivered};
ghost use Rattle.journal.specs.declared.trace.TheConstants.{GREATEST_STEPS};

use super::effect::Effect;
use super::fault::StepFault;
use super::halves::Halves;
use super::stage::{Progress, Stage};
use back::Back;
use front::Front;
use groups::{ConnId, GroupId, SkipId};
use hashed_texts::TextHasher;
use journal::{Rows, Step};
use layer_planner::Job;
use placement::Table;
use router::Outcome;
use shard_workers::{Gate, Workers};
use skeen_core::{Delivered, Packet};
use std::alloc::{AllocError, Global};
use std::marker::Model;
use world_laws::{collecting_of_outcomes, order_of_requests};

/// A store on several shards as one machine. Contracts see how many steps were made, how many may be, and what the
/// halves show.
///
/// For some history of as many steps, which its effects give, it shows the world of that history; but not once a
/// worker's start was refused.
#[derive(Drop)]
pub struct System {
    alloc: Global,
    max_steps: u64,
    steps: u64,
    halves: Halves,
}

impl Model for System {
    ghost use Rattle.std.specs.Coded.{codes};
    ghost use Rattle.resp.specs.contracts.reply.Reply as reply;
    ghost use Rattle.shard_exec.specs.StoreStates.{state_code};
    ghost use Rattle.skeen_core.specs.Kept.{group_code};
    ghost use Rattle.system.specs.System.{SystemView, IsSystem};

    ghost Value = { SystemView };

    ghost coded = { Prim.hlevel (codes, reply.the_row.coded, group_code, state_code) };

    ghost view = { λ s. record { max_steps = s.max_steps; steps = s.steps; halves = s.halves } };

    ghost invariant = { λ s. IsSystem (record { max_steps = s.max_steps; steps = s.steps; halves = s.halves }) };
}

impl System {
    /// A system in which nothing has happened, whose keys lie as the table says. All is hashed with the fixed seed. The
    /// only error is want of memory.
    pub fn new(alloc: Global, table: Table, max_steps: u64) -> Result<Self, AllocError>
        requires some { 1 ≤ max_steps }
        requires few { max_steps ≤ GREATEST_STEPS }
        ensures { IfOk result (IsNew table max_steps) }
    {
        System::with_hasher(alloc, table, max_steps, TextHasher::Fixed)
    }

    /// A system in which nothing has happened, each of whose shards hashes its keys, and the members and fields of their
    /// values, by a copy of `hasher`. The only error is want of memory.
    pub fn with_hasher(
        alloc: Global,
        table: Table,
        max_steps: u64,
        hasher: TextHasher,
    ) -> Result<Self, AllocError>
        requires some { 1 ≤ max_steps }
        requires few { max_steps ≤ GREATEST_STEPS }
        ensures { IfOk result (IsNew table max_steps) }
    {
        let front = Front::new(alloc, table)?;
        let back = Back::new(alloc, table, hasher)?;
        front.holds();
        let halves = Halves {
            front,
            back,
            stage: Stage::Free,
            starved: Vec::new(alloc),
        };
        Ok(System {
            alloc,
            max_steps,
            steps: 0,
            halves,
        })
    }

    /// Makes a step and answers what it came to.
    ///
    /// Where the system showed the world of a history, it now shows the world of that history and this step.
    /// `StepFault` says why a step isn't made; then all is as before, but that room may have been taken, and but for a
    /// refused start of a worker: the system makes no step any more. With workers that start no thread that never
    /// happens.
    #[inline(always)]
    pub fn step<W: Workers>(
        &mut self,
        step: Step,
        workers: &W,
        gate: &(dyn Gate + Sync),
    ) -> Result<Effect, StepFault>
        ensures made { IfOk result (λ effect. IsStep self.old step effect self.new) }
        ensures refused { IfErr result (λ fault. IsRefused (W.may_refuse workers.now) self.old step fault self.new) }
        ensures one_thread { ObeysOneThread self.new }
    {
        if let Some(fault) = self.stopped() {
            return Err(fault);
        }
        match self.halves.make(self.alloc, step, workers, gate) {
            Ok(effect) => {
                self.steps += 1;
                Ok(effect)
            }
            Err(fault) => Err(fault),
        }
    }

    /// Makes the steps one after another, up to the first that isn't made. It answers the effect of each that was, and
    /// why the next one wasn't.
    ///
    /// Where the system showed the world of a history, it now shows the world of that history and the steps that were
    /// made. The replies and the contents are those of one thread that runs the executed requests, sorted by their
    /// final stamps, on one map. Where there is no memory for the list of effects no step is made; the fault is Memory.
    pub fn run<W: Workers>(
        &mut self,
        steps: Vec<Step>,
        workers: &W,
        gate: &(dyn Gate + Sync),
    ) -> (Vec<Effect>, Option<StepFault>)
        ensures runs { Runs (W.may_refuse workers.now) self.old steps.items result.0.items result.1 self.new }
        ensures one_thread { ObeysOneThread self.new }
    {
        let mut effects = Vec::new(self.alloc);
        if effects.reserve(steps.len()).is_err() {
            let Some(fault) = self.stopped() else {
                return (effects, Some(StepFault::Memory));
            };
            return (effects, Some(fault));
        }
        for step in steps {
            match self.step(step, workers, gate) {
                Ok(effect) => effects.push_reserved(effect),
                Err(fault) => return (effects, Some(fault)),
            }
        }
        (effects, None)
    }

    /// Why no step is made any more, if none is.
    fn stopped(&self) -> Option<StepFault>
        ensures some { IfSome result (λ fault. (may_refuse : Bool) (step : Step) → IsRefused may_refuse self.now step fault self.now) }
        ensures none { IfNone result (MayGoOn self.now) }
    {
        if self.halves.back.has_failed() {
            return Some(StepFault::Failed);
        }
        if self.steps == self.max_steps {
            return Some(StepFault::Exhausted);
        }
        None
    }

    /// Why the step is refused as things are: no step is made any more, or it has a fault of its own. Where it is refused for
    /// neither, `step` makes it, or answers `Memory`, or `Failed` of a worker's start. It takes no memory.
    pub fn refuses(&self, step: &Step) -> Option<StepFault>
        ensures some { IfSome result (λ fault. IsRefused false self.now step.now fault self.now) }
        ensures none { IfNone result (IsAdmitted self.now step.now) }
    {
        match self.stopped() {
            Some(fault) => Some(fault),
            None => self.halves.own_fault(step),
        }
    }

    /// How many steps were made.
    pub fn steps(&self) -> u64
        ensures { result ≡ self.now.steps }
    {
        self.steps
    }

    /// Whether a worker could not be started once: then no step is made any more.
    pub fn has_failed(&self) -> bool
        ensures { result ≡ failed self.now }
    {
        self.halves.back.has_failed()
    }

    /// How far the layer is that is under way: which of Take, Run and Settle may come next.
    pub fn progress(&self) -> Progress
        ensures { result ≡ progress_of self.now }
    {
        match &self.halves.stage {
            Stage::Free => Progress::Free,
            Stage::Taken(_) => Progress::Taken,
            Stage::HasRun(_) => Progress::HasRun,
        }
    }

    /// How many packets are under way.
    pub fn packets(&self) -> usize
        ensures { result ≡ length (packets_of self.now) }
    {
        self.halves.front.packets()
    }

    /// The rows of what was executed, in the order of execution.
    pub fn rows(&self) -> &Rows
        ensures { result.now.rows ≡ rows_of self.now }
    {
        self.halves.back.rows()
    }

    /// The names of what starved, in the order in which the turns came: of requests, and of members of requests that were
    /// executed.
    pub fn starved(&self) -> &[SkipId]
        ensures { result.now ≡ starved_of self.now }
    {
        self.halves.starved.as_slice()
    }

    /// Appends the dump of the map that the shards hold together: a line for each key, ascending by bytes.
    ///
    /// With `AllocError`, where there is no memory for it, `out` is as it was.
    pub fn dump(&self, out: &mut Vec<u8>) -> Result<(), AllocError>
        ensures ok { OnOk result (out.new.items ≡ out.old.items ++ dump_text (contents_of self.now)) }
        ensures err { OnErr result (out.new.items ≡ out.old.items) }
    {
        self.halves.back.dump(out)
    }

    /// Whether some request is ready: it stands at the head of the queue of each of its groups, and a Take would take it.
    /// It takes no memory.
    pub fn has_ready(&self) -> bool
        ensures { IsTrue result ↔ ((d : Delivered) × IsReady (queues_of self.now) d) }
    {
        self.halves.front.has_ready()
    }

    /// Whether nothing is under way: no packet, no layer, and no request that is ready. It takes no memory.
    pub fn quiet(&self) -> bool
        ensures { IsTrue result ↔ IsQuiet self.now }
    {
        let Stage::Free = &self.halves.stage else {
            return false;
        };
        if self.halves.front.packets() != 0 {
            return false;
        }
        !self.halves.front.has_ready()
    }

    /// It does nothing: its contract says that what is under way can be brought to an end.
    ///
    /// Where the system is quiet each request that was submitted to groups was executed or starved. Where it isn't, one
    /// of Deliver(0), Take, Run and Settle is made by `step`, or refused as `Exhausted`, `Memory` or `Failed` alone;
    /// `progress` tells which. And of these four there are never more steps than k * k + 3 for each submitted request
    /// of k groups.
    pub fn ends(&self)
        ensures ended { IsQuiet self.now → EachHasEnded self.now }
        ensures goes_on { ¬ IsQuiet self.now → SomeMayBeMade (progress_of self.now) self.now }
        ensures bounded { TurnsAreFew self.now }
    {
        let _ = &self.halves;
    }

    /// It does nothing: its contract says what holds of each history that may have led here, and of the world that it
    /// gives.
    ///
    /// There is one, unless a worker's start was refused; and each shard has only keys that the table places on it. All
    /// groups that know a request's final stamp know the same one, no two requests have the same, and a connection's
    /// rise. Where two requests touch, the one with the smaller stamp was executed first. A request ends once, as it was
    /// submitted, and its outcome is collected once, by its own connection. Packets, and what groups deliver, are of
    /// requests of these groups alone, which are those of their commands; a step changes the group alone that it brings
    /// a packet to. Ready is what each of a request's groups has delivered behind nothing that isn't taken; and lined up
    /// what the one group that it addresses has delivered behind only such of them as address that group alone.
    pub fn order(&self)
        ensures shows { ShowsSome self.now }
        ensures own_keys { HasOwnKeys (table_of self.now) (maps_of self.now) }
        ensures finals_agree { OfItsWorlds FinalsAgree self.now }
        ensures finals_differ { OfItsWorlds FinalsDiffer self.now }
        ensures connections_rise { OfItsWorlds ConnectionsRise self.now }
        ensures touching { OfItsWorlds TouchingInStampOrder self.now }
        ensures ended_once { OfItsWorlds EndedOnce self.now }
        ensures ended_as_submitted { OfItsWorlds EndedAsSubmitted self.now }
        ensures groups { OfItsWorlds GroupsAreOfTasks self.now }
        ensures packets { OfItsWorlds PacketsAreAddressed self.now }
        ensures delivered { OfItsWorlds LogsAreAddressed self.now }
        ensures ready { OfItsWorlds ReadyInWords self.now }
        ensures lined_up { OfItsWorlds LinedUpInWords self.now }
        ensures others { OthersKeepStill self.now }
        ensures collected_once { CollectedOnce self.now }
        ensures collects_own { CollectsItsOwn self.now }
    {
        order_of_requests();
        collecting_of_outcomes();
        let _ = self.halves.back.table();
    }

    /// The outcome that waits for a connection, left in place. It takes no memory.
    pub fn waits(&self, conn: ConnId) -> Option<&Outcome>
        ensures { option_copied result ≡ waiting_for self.now conn.0 }
    {
        self.halves.front.waits(conn)
    }

    /// The packet at this place of those under way, counted from 0 in order of sending.
    pub fn packet(&self, place: usize) -> Option<&Packet>
        ensures { option_copied result ≡ slice_get (packets_of self.now) place }
    {
        self.halves.front.packet(place)
    }

    /// The clock of a group. A group that isn't there has the clock of a new one.
    pub fn clock(&self, group: GroupId) -> u64
        ensures { result ≡ clock_of self.now group }
    {
        self.halves.front.clock(group)
    }

    /// The request at this place of those that the group has delivered and no layer has taken, counted from 0 from the
    /// oldest.
    pub fn delivered(&self, group: GroupId, place: usize) -> Option<&Delivered>
        ensures { option_copied result ≡ slice_get (queues_of self.now group) place }
    {
        self.halves.front.delivered(group, place)
    }

    /// How many requests the group has delivered that no layer has taken.
    pub fn queued(&self, group: GroupId) -> usize
        ensures { result ≡ length (queues_of self.now group) }
    {
        self.halves.front.queued(group)
    }

    /// The requests of the layer that was taken and is to be run, in their order; none where none is.
    pub fn layer(&self) -> &[Job]
        ensures { result.now ≡ layer_of self.now }
    {
        match &self.halves.stage {
            Stage::Taken(layer) => layer.jobs(),
            _ => &[],
        }
    }
}
