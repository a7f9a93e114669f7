//! A front beside the history of its steps.

ghost use Rattle.std.specs.Prelude.{◌≡◌, ℕ, ◌+◌, ◌≤◌, ◌<◌, ◌++◌, ◌∷◌, true, false, List, [], length, IfOk, IfErr, OnOk, OnErr};
ghost use Rattle.std.specs.Prelude.{IfSome, IfNone, None};
ghost use mathlib.Core.List.{IsPrefix};
ghost use Rattle.cluster.specs.Counting.{all_executed, all_starved, as_word};
ghost use Rattle.cluster.specs.Histories.{kept_for, IsLawful, IsMade, IsUnchanged, IsFault, IsUnanswered};
ghost use Rattle.cluster.specs.Layers.{HandsOut, IsSettled, IsSettleFault};
ghost use Rattle.cluster.specs.Passing.{HasPassed};
ghost use Rattle.cluster.specs.Pieces.{HandsOn as HandsPieceOn};
ghost use Rattle.cluster.specs.declared.ordered.TheConstants.{STEPS_PASSED};
ghost use Rattle.cluster.specs.Traces.{HasRoom, KeepsRoom, IsNotWhole, place_of};
ghost use Rattle.cluster.specs.Turns.{Delivers, IsTurnFault};
ghost use Rattle.cluster.specs.declared.fault.StepFault.{StepFault};
ghost use Rattle.front.specs.Making.{effect_shown};
ghost use Rattle.front.specs.Passing.{packets_in};
ghost use Rattle.front.specs.Refusing.{WantsMemory};
ghost use Rattle.groups.specs.declared.request.ConnId.{ConnId};
ghost use Rattle.journal.specs.Codes.{step_size};
ghost use Rattle.journal.specs.declared.step.Step.{Step};
ghost use Rattle.journal.specs.declared.trace.TheConstants.{GREATEST_STEPS};
ghost use Rattle.order_laws.specs.Runs.{LeavesLayers};
ghost use Rattle.world.specs.Steps.{Made};

use super::counting::{executed_in, starved_in};
use super::fault::StepFault;
use super::names::{ItsPass, ItsSettle, ItsStep, Leading, RunsOf, Server, StepsOf};
use super::pick::Pick;
use super::sealed::{Piece, Ran, Taken};
use super::tape::{
    PACKETS_PASSED, SIZE_PASSED, Tape, hand_on, place, push_keeping, push_passed, push_run,
    take_back,
};
use front::{Effect, Front};
use groups::{ConnId, RequestId};
use history::{Itself, Part, Writer};
use journal::{Step, Trace};
use layer_planner::Layer;
use layer_results::{Done, DoneRow};
use placement::Table;
use resp::Request;
use serial_store::{Serial, Tabled};
use std::alloc::{AllocError, Global};
use std::marker::Model;
use std::mem;
use std::snapshot::Snapshot;

/// How many steps are kept back for a layer that is out: its Run and its Settle.
const KEPT_BACK: u64 = 2;

/// How many steps submit a request and hand it out at once, at most: its Submit, a Deliver for each of its packets, and its Take.
const STEPS_PASSED: u64 = PACKETS_PASSED as u64 + 2;

/// What comes of a request that may be handed out at once: its id, the steps up to its Submit, and its layer if it was.
type PassedOf<T, L> = (RequestId, Part<Leading<T>, StepsOf<L>>, Option<Taken<T, L>>);

/// A front, the history of its steps, and the part of the store's history that it was told; and the trace, where one is kept. Contracts
/// see all of these: the front shows the world to which its steps lead, and what was run there is what the store ran first.
#[derive(Drop)]
pub(super) struct History<T: Tabled, L: Server> {
    pub(super) alloc: Global,
    pub(super) front: Front,
    pub(super) told: Writer<Leading<T>, StepsOf<L>>,
    pub(super) ran: Part<Serial<T>, RunsOf<L>>,
    pub(super) max_steps: u64,
    pub(super) trace: Option<Tape>,
    pub(super) executed: u64,
    pub(super) starved: u64,
    // Room for what comes of one request.
    pub(super) rows: Vec<DoneRow>,
}

impl<T: Tabled, L: Server> Model for History<T, L> {
    ghost use Rattle.std.specs.Coded.{codes};
    ghost use Rattle.resp.specs.contracts.reply.Reply as reply;
    ghost use Rattle.skeen_core.specs.Kept.{group_code};
    ghost use Rattle.std.specs.Prelude.{◌≡◌};
    ghost use Rattle.cluster.specs.Counting.{all_executed, all_starved, as_word};
    ghost use Rattle.cluster.specs.Histories.{HistoryView, IsHistory};

    ghost Value = { HistoryView };

    ghost coded = { Prim.hlevel (codes, reply.the_row.coded, group_code) };

    ghost view = { λ h. record { front = h.front; max_steps = h.max_steps; steps = h.told; ran = h.ran; trace = h.trace } };

    ghost invariant = { λ h. IsHistory T.table
        (record { front = h.front; max_steps = h.max_steps; steps = h.told; ran = h.ran; trace = h.trace })
        × (h.executed ≡ as_word (all_executed h.ran)) × (h.starved ≡ as_word (all_starved h.ran)) };
}

impl<T: Tabled, L: Server> History<T, L> {
    /// No step was made. Keys lie as the table says. Steps are kept as a trace where `keeps` says so. The only error is want of memory.
    pub fn new(
        alloc: Global,
        table: Table,
        max_steps: u64,
        keeps: bool,
        told: Writer<Leading<T>, StepsOf<L>>,
        ran: Part<Serial<T>, RunsOf<L>>,
    ) -> Result<Self, AllocError>
        requires some { 1 ≤ max_steps }
        requires few { max_steps ≤ GREATEST_STEPS }
        requires table { table ≡ T.table }
        requires told { told ≡ [] }
        requires ran { ran ≡ [] }
        ensures steps { IfOk result (λ h. h.steps ≡ []) }
        ensures ran { IfOk result (λ h. h.ran ≡ []) }
        ensures max_steps { IfOk result (λ h. h.max_steps ≡ max_steps) }
        ensures table { IfOk result (λ h. h.front.table ≡ table) }
    {
        let front = Front::new(alloc, table)?;
        let trace = if keeps {
            Some(Tape {
                sent: 0,
                rest: Trace::new(alloc, max_steps),
            })
        } else {
            None
        };
        Ok(History {
            alloc,
            front,
            told,
            ran,
            max_steps,
            trace,
            executed: 0,
            starved: 0,
            rows: Vec::new(alloc),
        })
    }

    /// The front.
    pub fn front(&self) -> &Front
        ensures { result.now ≡ self.now.front }
    {
        &self.front
    }

    /// The trace, where one is kept of which nothing was handed on.
    pub fn trace(&self) -> Option<&Trace>
        ensures max_steps { IfSome result (λ trace. trace.now.max ≡ self.now.max_steps) }
        ensures steps { IfSome result (λ trace. trace.now.steps ≡ self.now.steps) }
        ensures none { IfNone result (IsNotWhole self.now.trace) }
    {
        let Some(tape) = &self.trace else {
            return None;
        };
        if tape.sent != 0 {
            return None;
        }
        Some(&tape.rest)
    }

    /// At most how many steps may be made, where a trace is kept.
    pub fn trace_max(&self) -> Option<u64>
        ensures max { IfSome result (λ max. max ≡ self.now.max_steps) }
        ensures least { IfSome result (λ max. 1 ≤ max) }
        ensures greatest { IfSome result (λ max. max ≤ GREATEST_STEPS) }
        ensures none { IfNone result (self.now.trace ≡ None) }
    {
        match &self.trace {
            Some(tape) => Some(tape.rest.max()),
            None => None,
        }
    }

    /// How many bytes the steps take that are kept of the trace.
    pub fn trace_size(&self) -> usize
        ensures { result ≡ place_of self.now.trace }
    {
        place(&self.trace)
    }

    /// Hands on a piece of the trace: the steps that are kept of it. Behind them none is kept, and room for so many bytes. Where no
    /// trace is kept there is no piece. The only error is want of memory, which changes nothing.
    pub fn hand_on(&mut self, kept: usize) -> Result<Option<Piece<T, L>>, AllocError>
        ensures handed { IfOk result (λ piece. IfSome piece (λ p. HandsPieceOn self.old p self.new)) }
        ensures none { IfOk result (λ piece. IfNone piece ((self.old.trace ≡ None) × (self.new ≡ self.old))) }
        ensures room { OnOk result (HasRoom kept self.new.trace) }
        ensures same { self.new ≡ record self.old { trace = self.new.trace } }
        ensures unchanged { OnErr result (self.new ≡ self.old) }
    {
        let made = self.count();
        let told = self.told.part();
        let Some((from, steps)) = hand_on(self.alloc, &mut self.trace, made, kept)? else {
            return Ok(None);
        };
        Ok(Some(Piece {
            told,
            from,
            steps,
            made,
        }))
    }

    /// Keeps no trace any more.
    pub fn forget_trace(&mut self)
        ensures { self.new ≡ record self.old { trace = None } }
    {
        self.trace = None;
    }

    /// All steps so far, as a part that was seen.
    pub fn part(&self) -> Part<Leading<T>, StepsOf<L>>
        ensures { result ≡ self.now.steps }
    {
        self.told.part()
    }

    /// What came of each layer that was settled, as a part that was seen.
    pub fn ran(&self) -> &Part<Serial<T>, RunsOf<L>>
        ensures { result.now ≡ self.now.ran }
    {
        &self.ran
    }

    /// How many requests of the layers that were settled were executed.
    pub fn executed(&self) -> u64
        ensures { result ≡ as_word (all_executed self.now.ran) }
    {
        self.executed
    }

    /// How many of them starved as a whole, and how many members of those that were executed.
    pub fn starved(&self) -> u64
        ensures { result ≡ as_word (all_starved self.now.ran) }
    {
        self.starved
    }

    /// It does nothing: its contract says what the history is.
    pub fn lawful(&self)
        ensures lawful { IsLawful self.now }
        ensures table { self.now.front.table ≡ T.table }
        ensures within { length self.now.steps ≤ self.now.max_steps }
        ensures few { self.now.max_steps ≤ GREATEST_STEPS }
        ensures layers { self.now.front.layers ≡ length self.now.ran }
    {
        let _ = &self.front;
    }

    /// How many steps were made.
    pub fn count(&self) -> u64
        ensures { result ≡ length self.now.steps }
    {
        self.front.steps() + self.front.layers()
    }

    /// Whether as many steps were made as may be, but for those that are kept back for a layer that is out.
    pub fn is_exhausted(&self) -> bool
        ensures all { result ≡ true → self.now.max_steps ≤ length self.now.steps + kept_for self.now.front.out }
        ensures left { result ≡ false → length self.now.steps + kept_for self.now.front.out < self.now.max_steps }
    {
        let kept = if self.front.is_out() { KEPT_BACK } else { 0 };
        self.max_steps <= self.count() + kept
    }

    /// Why a step isn't made for which there was no memory: what else refuses it comes first.
    #[cold]
    pub fn refusal(&self, step: &Step) -> StepFault
        requires { LeavesLayers step.now }
        ensures { IsFault self.now step.now result }
    {
        if self.is_exhausted() {
            return StepFault::Exhausted;
        }
        match self.front.own_fault(step) {
            Some(fault) => StepFault::from(fault),
            None => StepFault::Memory,
        }
    }

    /// The fault that a step has of its own, if it has one, where one more may be made.
    pub fn own_fault(&self, step: &Step) -> Option<StepFault>
        requires plain { LeavesLayers step.now }
        requires left { length self.now.steps + kept_for self.now.front.out < self.now.max_steps }
        ensures fault { IfSome result (IsFault self.now step.now) }
        ensures wants { IfSome result (λ fault. fault ≡ StepFault.Memory → WantsMemory step.now) }
    {
        match self.front.own_fault(step) {
            Some(fault) => Some(StepFault::from(fault)),
            None => None,
        }
    }

    /// Makes a step that hands no layer out and settles none, behind all that is in the part, and puts it into the trace, where room
    /// for so many bytes is kept.
    // Inlined as far down as the step is looked at, since each caller knows which step it makes.
    #[inline(always)]
    pub fn make(
        &mut self,
        step: Step,
        kept: usize,
        behind: &Part<Leading<T>, StepsOf<L>>,
    ) -> Result<Effect, StepFault>
        requires { LeavesLayers step }
        ensures made { IfOk result (λ effect. IsMade self.old step (effect_shown effect) self.new) }
        ensures behind { OnOk result (IsPrefix behind.now self.old.steps) }
        ensures room { OnOk result (HasRoom kept self.new.trace) }
        ensures fault { IfErr result (IsFault self.old step) }
        ensures unchanged { OnErr result (IsUnchanged self.old self.new) }
        ensures room_back { OnErr result (KeepsRoom self.old.trace self.new.trace) }
        ensures wants { HasRoom (step_size step + kept) self.old.trace → IfErr result (λ fault. fault ≡ StepFault.Memory → WantsMemory step) }
    {
        if self.is_exhausted() {
            return Err(StepFault::Exhausted);
        }
        let place = place(&self.trace);
        let Ok(()) = push_keeping(&mut self.trace, &step, kept) else {
            return Err(self.refusal(&step));
        };
        let made = Snapshot::of(&step);
        match self.front.make(step) {
            Ok(effect) => {
                self.told
                    .write_behind::<Snapshot<Step>, ItsStep>(made, behind);
                Ok(effect)
            }
            Err(fault) => {
                take_back(&mut self.trace, place);
                Err(StepFault::from(fault))
            }
        }
    }

    /// Whether a request may be handed out at once: steps are left for that, and for the Run and the Settle of its layer.
    pub fn may_pass(&self) -> bool
        ensures { result ≡ true → length self.now.steps + STEPS_PASSED + 1 < self.now.max_steps }
    {
        self.lawful();
        self.count() + STEPS_PASSED + 1 < self.max_steps
    }

    /// Makes the Submit of a connection, behind all that is in the part; and where nothing is before its request, the steps that hand it
    /// out as a layer of its own. Gives the request's id, the part that ends with its Submit, and that layer. Room for so many bytes is
    /// kept in the trace.
    pub fn pass(
        &mut self,
        conn: ConnId,
        words: Request,
        kept: usize,
        behind: &Part<Leading<T>, StepsOf<L>>,
    ) -> Result<PassedOf<T, L>, StepFault>
        requires { length self.old.steps + STEPS_PASSED + 1 < self.old.max_steps }
        ensures passed { IfOk result (λ it. HasPassed self.old conn words it.0 it.1 it.2 self.new) }
        ensures behind { OnOk result (IsPrefix behind.now self.old.steps) }
        ensures room { OnOk result (HasRoom kept self.new.trace) }
        ensures fault { IfErr result (IsFault self.old (Step.Submit conn words)) }
        ensures unchanged { OnErr result (IsUnchanged self.old self.new) }
        ensures room_back { OnErr result (KeepsRoom self.old.trace self.new.trace) }
    {
        let place = place(&self.trace);
        let step = Step::Submit { conn, words };
        let Some(room) = kept.checked_add(SIZE_PASSED) else {
            return Err(self.refusal(&step));
        };
        let Ok(()) = push_keeping(&mut self.trace, &step, room) else {
            return Err(self.refusal(&step));
        };
        let made = Snapshot::of(&step);
        let (conn, words) = parts_of(step);
        let (id, layer) = match self.front.pass(conn, words) {
            Ok(passed) => passed,
            Err(fault) => {
                take_back(&mut self.trace, place);
                return Err(StepFault::from(fault));
            }
        };
        self.told
            .write_behind::<Snapshot<Step>, ItsStep>(made, behind);
        let seen = self.told.part();
        let Some(layer) = layer else {
            return Ok((id, seen, None));
        };
        let packets = packets_of(&layer);
        push_passed(&mut self.trace, packets, kept);
        self.told.write_all::<usize, ItsPass>(packets);
        let taken = Taken {
            layer,
            number: self.front.layers(),
            told: self.told.part(),
            rows: mem::replace(&mut self.rows, Vec::new(self.alloc)),
        };
        Ok((id, seen, Some(taken)))
    }

    /// Makes a step that answers nothing: a packet comes, or a connection is closed.
    #[inline(always)]
    pub fn make_unanswered(&mut self, step: Step, kept: usize) -> Result<(), StepFault>
        requires { IsUnanswered step }
        ensures made { OnOk result (IsMade self.old step Made self.new) }
        ensures room { OnOk result (HasRoom kept self.new.trace) }
        ensures fault { IfErr result (IsFault self.old step) }
        ensures unchanged { OnErr result (IsUnchanged self.old self.new) }
        ensures room_back { OnErr result (KeepsRoom self.old.trace self.new.trace) }
        ensures wants { HasRoom (step_size step + kept) self.old.trace → IfErr result (λ fault. fault ≡ StepFault.Memory → WantsMemory step) }
    {
        let all = self.told.part();
        let effect = match self.make(step, kept, &all) {
            Ok(effect) => effect,
            Err(fault) => return Err(fault),
        };
        let Effect::Made = effect else { unreachable!() };
        Ok(())
    }

    /// Takes all requests that are ready or lined up as the next layer, and hands them out to be run, sealed. Room for so many bytes is
    /// kept in the trace.
    pub fn take(&mut self, kept: usize) -> Result<Taken<T, L>, StepFault>
        ensures taken { IfOk result (λ taken. HandsOut self.old taken self.new) }
        ensures fault { IfErr result (IsFault self.old Step.Take) }
        ensures unchanged { OnErr result (IsUnchanged self.old self.new) }
        ensures room { HasRoom kept self.old.trace → HasRoom kept self.new.trace }
    {
        if self.max_steps <= self.count() + KEPT_BACK {
            return Err(StepFault::Exhausted);
        }
        let place = place(&self.trace);
        let Ok(()) = push_keeping(&mut self.trace, &Step::Take, kept) else {
            return Err(self.take_refusal());
        };
        match self.front.take() {
            Ok(layer) => {
                self.told.write::<Step, Itself>(Step::Take);
                Ok(Taken {
                    layer,
                    number: self.front.layers(),
                    told: self.told.part(),
                    rows: mem::replace(&mut self.rows, Vec::new(self.alloc)),
                })
            }
            Err(fault) => {
                take_back(&mut self.trace, place);
                Err(StepFault::from(fault))
            }
        }
    }

    /// Why no layer is taken for whose step there was no memory, though one more may be made: what else refuses it comes first.
    #[cold]
    fn take_refusal(&self) -> StepFault
        requires { length self.now.steps + 2 < self.now.max_steps }
        ensures { IsFault self.now Step.Take result }
    {
        match self.front.take_fault() {
            Some(fault) => StepFault::from(fault),
            None => StepFault::Memory,
        }
    }

    /// Settles what came of the layer that is out: its Run, with what starved, and its Settle are made. Room for so many bytes is kept in
    /// the trace. An error gives back what came of it.
    ///
    /// What is compared is the layer's number alone. Without a trace it takes no memory.
    pub fn settle(&mut self, ran: Ran<T, L>, kept: usize) -> Result<(), (Ran<T, L>, StepFault)>
        ensures settled { OnOk result (IsSettled self.old ran.done self.new) }
        ensures fault { IfErr result (λ back. (back.0 ≡ ran) × IsSettleFault self.old ran back.1) }
        ensures unchanged { OnErr result (IsUnchanged self.old self.new) }
        ensures room { HasRoom kept self.old.trace → HasRoom kept self.new.trace }
    {
        if !self.front.is_out() || ran.ran.number() != self.front.layers() {
            return Err((ran, StepFault::NoLayer));
        }
        let Ok(()) = push_run(self.alloc, &mut self.trace, ran.ran.done(), kept) else {
            return Err((ran, StepFault::Memory));
        };
        let Ran { told, ran } = ran;
        let all_told = told.with(&self.told.part());
        all_told.is_legal();
        let (done, runs, _jobs) = ran.into_parts();
        let _all_ran = runs.with(&self.ran);
        runs.is_legal();
        let came = Snapshot::of(&done);
        self.executed = self.executed.saturating_add(executed_in(done.rows()));
        self.starved = self.starved.saturating_add(starved_in(&done));
        self.front.settle(done);
        self.told.write_all::<Snapshot<Done>, ItsSettle>(came);
        let Ok(()) = push_keeping(&mut self.trace, &Step::Settle, kept) else {
            unreachable!()
        };
        self.ran = runs;
        Ok(())
    }

    /// Makes the Deliver of the packet that is picked, if one is under way. Says whether one was. Room for so many bytes is
    /// kept in the trace.
    pub fn turn<P: Pick>(&mut self, pick: &P, kept: usize) -> Result<bool, StepFault>
        ensures made { IfOk result (λ made. made ≡ true → Delivers (P.picks pick.now) self.old self.new) }
        ensures none { IfOk result (λ made. made ≡ false → self.old.front.multicast.packets ≡ []) }
        ensures unmade { IfOk result (λ made. made ≡ false → self.new ≡ self.old) }
        ensures refused { IfErr result (IsTurnFault self.old) }
        ensures unchanged { OnErr result (IsUnchanged self.old self.new) }
        ensures room { HasRoom kept self.old.trace → HasRoom kept self.new.trace }
    {
        self.lawful();
        let packets = self.front.packets();
        if packets == 0 {
            return Ok(false);
        }
        let place = pick.pick(packets) as u64;
        match self.make_unanswered(Step::Deliver { place }, kept) {
            Ok(()) => Ok(true),
            Err(fault) => Err(fault),
        }
    }
}

/// The connection and the words of a Submit.
fn parts_of(step: Step) -> (ConnId, Request)
    requires { (conn : ConnId) × (words : List (List ℕ)) × (step ≡ Step.Submit conn words) }
    ensures { step ≡ Step.Submit result.0 result.1 }
{
    match step {
        Step::Submit { conn, words } => (conn, words),
        _ => unreachable!(),
    }
}

/// How many packets the request of a layer of one has.
fn packets_of(layer: &Layer) -> usize
    ensures { result ≡ packets_in layer.now }
{
    match layer.jobs().first() {
        Some(job) => job.groups.len() * job.groups.len(),
        None => 0,
    }
}
