//! The cluster, its seats and what they are answered. No other module makes or changes a seat or a sealed reply.

ghost use Rattle.std.specs.Prelude.{◌≡◌, ◌≤◌, ◌<◌, ◌+◌, [], ◌⊎◌, false, length, true, Some, None};
ghost use Rattle.std.specs.Prelude.{IfOk, IfErr, OnOk, OnErr, IfSome, IfNone, IsTrue, ◌↔◌};
ghost use mathlib.Core.List.{IsPrefix};
ghost use Rattle.cluster.specs.Answers.{IsReplied};
ghost use Rattle.cluster.specs.Clusters.{IsNew, SameBook, last_id, IsCollectFault, CanCollect, StaysOpen};
ghost use Rattle.cluster.specs.Counting.{all_executed, all_starved, as_word};
ghost use Rattle.cluster.specs.Endings.{IsCloseFault, IsRight};
ghost use Rattle.cluster.specs.Finishing.{Finishes, IsFloorOf};
ghost use Rattle.cluster.specs.Histories.{kept_for, IsLawful, IsMade, IsUnchanged, IsFault};
ghost use Rattle.cluster.specs.Layers.{HandsOut, IsSettled, IsSettleFault};
ghost use Rattle.cluster.specs.Outcomes.{IsAbove, raised};
ghost use Rattle.cluster.specs.Submits.{submits, IsSaid};
ghost use Rattle.cluster.specs.Pieces.{HandsOn as HandsPieceOn};
ghost use Rattle.cluster.specs.Traces.{HasRoom, IsNotWhole, place_of};
ghost use Rattle.cluster.specs.Passing.{Passes};
ghost use Rattle.cluster.specs.Turns.{Delivers, IsTurnFault};
ghost use Rattle.cluster.specs.declared.fault.StepFault.{StepFault};
ghost use Rattle.front.specs.Looking.{IsQuiet};
ghost use Rattle.journal.specs.declared.step.Step.{Step};
ghost use Rattle.journal.specs.declared.trace.TheConstants.{GREATEST_STEPS};
ghost use Rattle.router.specs.Router.{waiting};
ghost use Rattle.serial_store.specs.Stores as stores;
ghost use Rattle.front.specs.Connections.{outcome_shown};
ghost use Rattle.world.specs.Steps.{Opened, Submitted, Collected, Made};

use super::closing::Closing;
use super::fault::StepFault;
use super::finishing::only_row;
use super::names::{Leading, RunsOf, Server, StepsOf};
use super::ordered::History;
use super::pick::Pick;
use super::sealed::{Piece, Ran, Taken};
use front::{Effect, Front};
use groups::{ConnId, RequestId, Stamp};
use history::{Part, Writer};
use journal::{Step, Trace};
use layer_results::DoneRow;
use placement::Table;
use resp::{Reply, Request};
use router::Outcome;
use serial_store::{Serial, SerialStore, Tabled};
use std::alloc::{AllocError, Global};
use std::marker::Model;
use std::sync::ledger::{Blank, Book, Share};
use thiserror::Error;

/// How many bytes a Close takes in the trace at most.
const GREATEST_CLOSE: usize = 10;

/// For how many bytes there is room in the trace beyond those that are there when a request is let in, so that the steps by
/// which the requests under way come to their end find theirs without memory, as long as they are no more than that.
const BYTES_AHEAD: usize = 64 * 1024;

/// The right to one connection of a cluster. Contracts see its connection, its floor, how many requests it has submitted, the number
/// of the last one, and the steps that it has seen. It goes to its own cluster alone, of whose history it has a part.
#[derive(Drop)]
pub struct Seat<T: Tabled, L: Server> {
    conn: ConnId,
    floor: u64,
    count: u64,
    last: u64,
    share: Share<L>,
    seen: Part<Leading<T>, StepsOf<L>>,
}

impl<T: Tabled, L: Server> Model for Seat<T, L> {
    ghost use Rattle.std.specs.Prelude.{◌≡◌};
    ghost use Rattle.cluster.specs.Clusters.{SeatView};

    ghost Value = { SeatView };

    ghost view = { λ s. record { conn = s.conn; floor = s.floor; count = s.count; last = s.last; seen = s.seen } };

    ghost invariant = { λ s. (s.share.amount ≡ s.count) × (s.share.parts ≡ 1) };
}

impl<T: Tabled, L: Server> Seat<T, L> {
    /// Its connection.
    pub fn conn(&self) -> ConnId
        ensures { result ≡ self.now.conn }
    {
        self.conn
    }

    /// The clock of the final stamp of its last request that addressed a group, or 0. Each later one has a greater
    /// stamp.
    pub fn floor(&self) -> u64
        ensures { result ≡ self.now.floor }
    {
        self.floor
    }

    /// How many requests it has submitted.
    pub fn count(&self) -> u64
        ensures { result ≡ self.now.count }
    {
        self.count
    }

    /// The steps that it has seen, as a part of the history of all: it has no bytes.
    pub fn seen(&self) -> Part<Leading<T>, StepsOf<L>>
        ensures { result ≡ self.now.seen }
    {
        self.seen.again()
    }

    /// Sees what another has seen too: its next request is submitted behind all of that.
    pub fn learn(&mut self, part: &Part<Leading<T>, StepsOf<L>>)
        ensures own { IsPrefix self.old.seen self.new.seen }
        ensures other { IsPrefix part.now self.new.seen }
        ensures rest { self.new ≡ record self.old { seen = self.new.seen } }
    {
        self.seen = self.seen.with(part);
    }
}

/// The reply of what a seat collected. It can't be made up on its way: only a cluster makes one, and who has it can't
/// change it.
#[derive(Drop)]
pub struct SealedReply {
    reply: Reply,
}

impl SealedReply {
    /// The reply.
    pub fn open(self) -> Reply
        ensures { result ≡ self.reply }
    {
        self.reply
    }
}

/// Why a cluster isn't closed. Nothing was changed. Where several apply it is the first.
#[derive(Clone, Copy, Debug, Drop, PartialEq, Eq, Error)]
pub enum CloseFault {
    /// Not as many seats stood as sat.
    #[error("a seat has not stood")]
    SeatsOut,

    /// A packet is under way, a layer is not settled, or a request is ready.
    #[error("a request is under way")]
    NotQuiet,

    /// The store has run other layers than those that were settled.
    #[error("the layers that were settled are not those of the store")]
    Disagree,
}

/// A front with the history of its steps, and the book of its seats.
///
/// The front shows the world of the history. The book of the ledger is the number of Submits there, and each seat's share of it is the
/// number of its own.
#[derive(Drop)]
pub struct Cluster<T: Tabled, L: Server> {
    history: History<T, L>,
    book: Book<L>,
    pool: Share<L>,
    requests: u64,
    sat: u64,
    stood: u64,
    // Of the trace's room, what is kept for the Closes of those who haven't stood.
    kept: usize,
}

impl<T: Tabled, L: Server> Model for Cluster<T, L> {
    ghost use Rattle.std.specs.Coded.{codes};
    ghost use Rattle.resp.specs.contracts.reply.Reply as reply;
    ghost use Rattle.skeen_core.specs.Kept.{group_code};
    ghost use Rattle.cluster.specs.Clusters.{ClusterView, IsCluster, KeepsCloses};

    ghost Value = { ClusterView };

    ghost coded = { Prim.hlevel (codes, reply.the_row.coded, group_code) };

    ghost view = { λ c. record { history = c.history; book = c.book.total; sat = c.sat; stood = c.stood; back = c.pool.amount } };

    ghost invariant = { λ c. IsCluster L.parts c.pool.parts c.requests
        (record { history = c.history; book = c.book.total; sat = c.sat; stood = c.stood; back = c.pool.amount })
        × KeepsCloses c.kept
        (record { history = c.history; book = c.book.total; sat = c.sat; stood = c.stood; back = c.pool.amount }) };
}

impl<T: Tabled, L: Server> Cluster<T, L> {
    /// A cluster without seats, of which no step was made and `max_steps` at most are. Keys lie as the table says. Its steps are kept as
    /// a trace where `keeps` says so. The only error is want of memory.
    ///
    /// The blank ledger has more parts than steps are ever made, so each seat gets one.
    pub fn new(
        alloc: Global,
        table: Table,
        max_steps: u64,
        keeps: bool,
        blank: Blank,
        told: Writer<Leading<T>, StepsOf<L>>,
        ran: Part<Serial<T>, RunsOf<L>>,
    ) -> Result<Self, AllocError>
        requires name { blank.name ≡ L.name }
        requires parts { blank.parts ≡ L.parts }
        requires enough { max_steps < blank.parts }
        requires some { 1 ≤ max_steps }
        requires few { max_steps ≤ GREATEST_STEPS }
        requires table { table ≡ T.table }
        requires told { told ≡ [] }
        requires ran { ran ≡ [] }
        ensures { IfOk result (IsNew table max_steps) }
    {
        let history = History::new(alloc, table, max_steps, keeps, told, ran)?;
        let (book, pool) = blank.open::<L>();
        Ok(Cluster {
            history,
            book,
            pool,
            requests: 0,
            sat: 0,
            stood: 0,
            kept: 0,
        })
    }

    /// Opens a connection, and gives the seat that has it. The errors are `Exhausted` and `Memory`; they change
    /// nothing but room.
    pub fn sit(&mut self) -> Result<Seat<T, L>, StepFault>
        ensures opened { IfOk result (λ seat. IsMade self.old.history Step.Open (Opened seat.conn.0) self.new.history) }
        ensures seat { IfOk result (λ seat. seat
            ≡ record { conn = seat.conn; floor = 0; count = 0; last = 0; seen = self.new.history.steps }) }
        ensures sat { OnOk result (self.new.sat ≡ self.old.sat + 1) }
        ensures book { SameBook self.old self.new }
        ensures refused { IfErr result (IsFault self.old.history Step.Open) }
        ensures unchanged { OnErr result (IsUnchanged self.old.history self.new.history × (self.new.sat ≡ self.old.sat)) }
    {
        self.history.lawful();
        let Some(kept) = self.kept.checked_add(GREATEST_CLOSE) else {
            return Err(self.sit_refusal());
        };
        let all = self.history.part();
        let effect = match self.history.make(Step::Open, kept, &all) {
            Ok(effect) => effect,
            Err(fault) => return Err(fault),
        };
        let Effect::Opened(conn) = effect else {
            unreachable!()
        };
        self.sat += 1;
        self.kept = kept;
        Ok(Seat {
            conn,
            floor: 0,
            count: 0,
            last: 0,
            share: self.pool.split_off(1, 0),
            seen: self.history.part(),
        })
    }

    /// Why no seat is given where there is no memory for one: what else refuses it comes first.
    #[cold]
    pub fn sit_refusal(&self) -> StepFault
        ensures { IsFault self.now.history Step.Open result }
    {
        self.history.refusal(&Step::Open)
    }

    /// Why the seat's submit isn't made where there is no memory for it: what else refuses it comes first.
    #[cold]
    pub fn submit_refusal(&self, seat: &Seat<T, L>, words: Request) -> StepFault
        ensures { IsFault self.now.history (Step.Submit seat.now.conn words) result }
    {
        let conn = seat.conn;
        self.history.refusal(&Step::Submit { conn, words })
    }

    /// Submits a request of these words, and gives its id. Whatever the seat has seen lies before that step, and then it has seen it.
    ///
    /// The errors change nothing but room. They are the first that applies of `Exhausted`, `NoConn` where the seat's connection isn't
    /// open, `Busy` where it hasn't collected its last outcome, and `Memory`.
    pub fn submit(&mut self, seat: &mut Seat<T, L>, words: Request) -> Result<RequestId, StepFault>
        ensures submitted { IfOk result (λ id.
            IsMade self.old.history (Step.Submit seat.old.conn words) (Submitted id) self.new.history) }
        ensures behind { OnOk result (IsPrefix seat.old.seen self.old.history.steps) }
        ensures said { IfOk result (λ id. IsSaid self.new.history.steps id words) }
        ensures seat { IfOk result (λ id. seat.new
            ≡ record seat.old { count = seat.old.count + 1; last = id.seq; seen = self.new.history.steps }) }
        ensures own { IfOk result (λ id. id ≡ last_id seat.new) }
        ensures book { OnOk result (self.new.book ≡ self.old.book + 1) }
        ensures rest { (self.new.sat ≡ self.old.sat) × (self.new.stood ≡ self.old.stood) × (self.new.back ≡ self.old.back) }
        ensures refused { IfErr result (IsFault self.old.history (Step.Submit seat.old.conn words)) }
        ensures unchanged { OnErr result (IsUnchanged self.old.history self.new.history × (self.new.book ≡ self.old.book)
            × (seat.new ≡ seat.old)) }
    {
        self.history.lawful();
        let id = match make_submit(&mut self.history, seat.conn, words, self.kept, &seat.seen) {
            Ok(id) => id,
            Err(fault) => return Err(fault),
        };
        let seen = self.history.part();
        book_request(&mut self.book, &mut self.requests, seat, id, seen);
        Ok(id)
    }

    /// Submits a request of these words, as `submit` does. Where nothing is under way, a request that is alone is brought to its groups
    /// and taken as a layer of its own, which is handed out, as by `turn` and `take`: the seat has seen its Submit alone.
    ///
    /// The errors are those of `submit`, and change nothing but room.
    pub fn pass(
        &mut self,
        seat: &mut Seat<T, L>,
        words: Request,
    ) -> Result<Option<Taken<T, L>>, StepFault>
        ensures passed { IfOk result (λ taken. Passes self.old.history seat.old words taken self.new.history seat.new) }
        ensures book { OnOk result (self.new.book ≡ self.old.book + 1) }
        ensures rest { (self.new.sat ≡ self.old.sat) × (self.new.stood ≡ self.old.stood) × (self.new.back ≡ self.old.back) }
        ensures refused { IfErr result (IsFault self.old.history (Step.Submit seat.old.conn words)) }
        ensures unchanged { OnErr result (IsUnchanged self.old.history self.new.history × (self.new.book ≡ self.old.book)
            × (seat.new ≡ seat.old)) }
    {
        self.history.lawful();
        if !self.history.may_pass() {
            return match self.submit(seat, words) {
                Ok(_id) => Ok(None),
                Err(fault) => Err(fault),
            };
        }
        let kept = self.kept.saturating_add(BYTES_AHEAD);
        let (id, seen, taken) = match self.history.pass(seat.conn, words, kept, &seat.seen) {
            Ok(passed) => passed,
            Err(fault) => return Err(fault),
        };
        book_request(&mut self.book, &mut self.requests, seat, id, seen);
        Ok(taken)
    }

    /// Makes a turn: the Deliver of the packet that is picked. Says whether one was made; none is where no packet is under way.
    ///
    /// The errors are `Exhausted` and, where a packet is under way, `Memory`. They change nothing but room.
    pub fn turn<P: Pick>(&mut self, pick: &P) -> Result<bool, StepFault>
        ensures made { IfOk result (λ made. made ≡ true → Delivers (P.picks pick.now) self.old.history self.new.history) }
        ensures none { IfOk result (λ made. made ≡ false → self.old.history.front.multicast.packets ≡ []) }
        ensures unmade { IfOk result (λ made. made ≡ false → self.new.history ≡ self.old.history) }
        ensures rest { SameBook self.old self.new × (self.new.sat ≡ self.old.sat) }
        ensures refused { IfErr result (IsTurnFault self.old.history) }
        ensures unchanged { OnErr result (IsUnchanged self.old.history self.new.history) }
    {
        self.history.turn(pick, self.kept)
    }

    /// Takes all requests that are ready or lined up as the next layer, and hands them out to be run, sealed. Until what came of them is
    /// settled no other layer is taken, and two steps are kept back for their Run and their Settle.
    ///
    /// The errors change nothing but room. They are the first that applies of `Exhausted`, where no three steps more may be
    /// made, `InFlight` where a layer is out, `NoLayer` where no request is ready, and `Memory`.
    pub fn take(&mut self) -> Result<Taken<T, L>, StepFault>
        ensures taken { IfOk result (λ taken. HandsOut self.old.history taken self.new.history) }
        ensures rest { SameBook self.old self.new × (self.new.sat ≡ self.old.sat) }
        ensures refused { IfErr result (IsFault self.old.history Step.Take) }
        ensures unchanged { OnErr result (IsUnchanged self.old.history self.new.history) }
    {
        self.history.take(self.kept)
    }

    /// Settles what came of the layer that is out: each of its requests gets its outcome, and its Run and its Settle are made. What is
    /// compared is the layer's number alone.
    ///
    /// The errors change nothing but room, and give back what came of it. They are `NoLayer`, no layer is out or another one, and
    /// `Memory`, where a trace is kept. Steps are always left for it.
    pub fn settle(&mut self, ran: Ran<T, L>) -> Result<(), (Ran<T, L>, StepFault)>
        ensures settled { OnOk result (IsSettled self.old.history ran.done self.new.history) }
        ensures rest { SameBook self.old self.new × (self.new.sat ≡ self.old.sat) }
        ensures refused { IfErr result (λ back. (back.0 ≡ ran) × IsSettleFault self.old.history ran back.1) }
        ensures unchanged { OnErr result (IsUnchanged self.old.history self.new.history) }
    {
        self.history.settle(ran, self.kept)
    }

    /// Collects the reply of the seat's last request, if its outcome is there; else no step is made.
    ///
    /// The errors change nothing but room. They are the first that applies of `Exhausted`, `NoConn` where the seat's connection isn't
    /// open, or the outcome isn't that of its last request or has a stamp that isn't above the seat's floor, and `Memory`.
    pub fn collect(&mut self, seat: &mut Seat<T, L>) -> Result<Option<SealedReply>, StepFault>
        ensures none { IfOk result (λ reply. IfNone reply (waiting self.old.history.front.router seat.old.conn.0 ≡ None)) }
        ensures unasked { IfOk result (λ reply. IfNone reply ((self.new ≡ self.old) × (seat.new ≡ seat.old))) }
        ensures replied { IfOk result (λ reply. IfSome reply (λ r. IsReplied self.old.history seat.old r.reply self.new.history seat.new)) }
        ensures rest { SameBook self.old self.new × (self.new.sat ≡ self.old.sat) }
        ensures refused { IfErr result (IsCollectFault self.old.history seat.old) }
        ensures unchanged { OnErr result (IsUnchanged self.old.history self.new.history × (seat.new ≡ seat.old)) }
    {
        self.history.lawful();
        let some = match awaits(&self.history, seat) {
            Ok(some) => some,
            Err(fault) => return Err(fault),
        };
        if !some {
            return Ok(None);
        }
        let outcome = match take_outcome(&mut self.history, seat, self.kept) {
            Ok(outcome) => outcome,
            Err(fault) => return Err(fault),
        };
        let reply = outcome.reply;
        Ok(Some(SealedReply { reply }))
    }

    /// Settles what came of the layer that is out, as `settle` does, and collects the reply, as `collect` does, where the layer is the
    /// seat's last request alone, which has one. Else nothing changes but room, and what came of it is given back: also where there is
    /// no memory for the trace, where one is kept, and where one of the two calls would be refused.
    #[inline]
    pub fn finish(
        &mut self,
        seat: &mut Seat<T, L>,
        ran: Ran<T, L>,
    ) -> Result<SealedReply, Ran<T, L>>
        ensures finished { IfOk result (λ sealed.
            Finishes self.old.history ran.done seat.old sealed.reply self.new.history seat.new) }
        ensures rest { SameBook self.old self.new × (self.new.sat ≡ self.old.sat) }
        ensures given { IfErr result (λ back. back ≡ ran) }
        ensures unchanged { OnErr result (IsUnchanged self.old.history self.new.history × (seat.new ≡ seat.old)) }
    {
        let Some(floor) = floor_of(seat, ran.done().rows()) else {
            return Err(ran);
        };
        let reply = match self.history.finish(ran, self.kept, &seat.seen) {
            Ok(reply) => reply,
            Err(ran) => return Err(ran),
        };
        seat.floor = floor;
        seat.seen = self.history.part();
        Ok(SealedReply { reply })
    }

    /// Takes a seat back, and closes its connection. What it has under way still runs, and its outcome is dropped.
    /// Where the Close is refused, since no step may be made or the connection isn't open, the history gains none. Memory for
    /// it in the trace was taken when the seat sat.
    pub fn stand(&mut self, seat: Seat<T, L>)
        ensures stood { self.new.stood ≡ self.old.stood + 1 }
        ensures back { self.new.back ≡ self.old.back + seat.count }
        ensures rest { (self.new.book ≡ self.old.book) × (self.new.sat ≡ self.old.sat) }
        ensures closed { IsMade self.old.history (Step.Close seat.conn) Made self.new.history
            ⊎ StaysOpen seat.conn self.old.history self.new.history }
    {
        let Seat { conn, share, .. } = seat;
        self.history.lawful();
        self.pool.merge(share);
        self.kept -= GREATEST_CLOSE;
        close(&mut self.history, conn, self.kept);
        self.stood += 1;
    }

    /// What is told of the cluster when it is closed beside its store: all seats have stood, nothing is under way, and as many layers
    /// were settled as the store has run. It takes no memory and changes nothing.
    pub fn closing(&mut self, store: &SerialStore<T, RunsOf<L>>) -> Result<Closing, CloseFault>
        ensures seats { OnOk result (self.old.stood ≡ self.old.sat) }
        ensures share { OnOk result (self.old.back ≡ self.old.book) }
        ensures quiet { OnOk result (IsQuiet self.old.history.front) }
        ensures lawful { OnOk result (IsLawful self.old.history) }
        ensures store { OnOk result (stores.IsLawful T.table store.now.store store.now.runs) }
        ensures right { OnOk result (IsRight self.old.history store.now) }
        ensures requests { IfOk result (λ closing. closing.requests ≡ submits self.old.history.steps) }
        ensures executed { IfOk result (λ closing. closing.executed ≡ as_word (all_executed self.old.history.ran)) }
        ensures starved { IfOk result (λ closing. closing.starved ≡ as_word (all_starved self.old.history.ran)) }
        ensures refused { IfErr result (IsCloseFault self.old store.now) }
        ensures same { self.new ≡ self.old }
    {
        if self.stood != self.sat {
            return Err(CloseFault::SeatsOut);
        }
        self.history.lawful();
        let front = self.history.front();
        if !front.quiet() {
            return Err(CloseFault::NotQuiet);
        }
        if front.layers() != store.count() {
            return Err(CloseFault::Disagree);
        }
        front.holds();
        self.history.ran().begins(&store.part());
        store.lawful();
        let closing = Closing {
            requests: self.requests,
            executed: self.history.executed(),
            starved: self.history.starved(),
        };
        self.book.audit(&mut self.pool);
        Ok(closing)
    }

    /// How many requests were submitted.
    pub fn requests(&self) -> u64
        ensures { result ≡ submits self.now.history.steps }
    {
        self.requests
    }

    /// How many steps were made.
    pub fn count(&self) -> u64
        ensures { result ≡ length self.now.history.steps }
    {
        self.history.count()
    }

    /// How many requests of the layers that were settled starved as a whole, and how many members of those that were executed.
    pub fn starved(&self) -> u64
        ensures { result ≡ as_word (all_starved self.now.history.ran) }
    {
        self.history.starved()
    }

    /// The trace, where one is kept of which nothing was handed on: all steps that were made.
    pub fn trace(&self) -> Option<&Trace>
        ensures max_steps { IfSome result (λ trace. trace.now.max ≡ self.now.history.max_steps) }
        ensures steps { IfSome result (λ trace. trace.now.steps ≡ self.now.history.steps) }
        ensures none { IfNone result (IsNotWhole self.now.history.trace) }
    {
        self.history.trace()
    }

    /// At most how many steps may be made, where a trace is kept.
    pub fn trace_max(&self) -> Option<u64>
        ensures max { IfSome result (λ max. max ≡ self.now.history.max_steps) }
        ensures least { IfSome result (λ max. 1 ≤ max) }
        ensures greatest { IfSome result (λ max. max ≤ GREATEST_STEPS) }
        ensures none { IfNone result (self.now.history.trace ≡ None) }
    {
        self.history.trace_max()
    }

    /// How many bytes the steps take that are kept of the trace.
    pub fn trace_size(&self) -> usize
        ensures { result ≡ place_of self.now.history.trace }
    {
        self.history.trace_size()
    }

    /// Hands on a piece of the trace: the steps that were made since the piece before, which are kept no longer. Where no trace is kept
    /// there is no piece. The only error is want of memory, which changes nothing.
    pub fn hand_on(&mut self) -> Result<Option<Piece<T, L>>, AllocError>
        ensures handed { IfOk result (λ piece. IfSome piece (λ p. HandsPieceOn self.old.history p self.new.history)) }
        ensures none { IfOk result (λ piece. IfNone piece ((self.old.history.trace ≡ None) × (self.new ≡ self.old))) }
        ensures rest { SameBook self.old self.new × (self.new.sat ≡ self.old.sat) }
        ensures unchanged { OnErr result (self.new ≡ self.old) }
    {
        hand_on(&mut self.history, self.kept)
    }

    /// Keeps no trace any more.
    pub fn forget_trace(&mut self)
        ensures history { self.new.history ≡ record self.old.history { trace = None } }
        ensures rest { SameBook self.old self.new × (self.new.sat ≡ self.old.sat) }
    {
        self.history.forget_trace();
    }

    /// The front, to be looked at.
    pub fn front(&self) -> &Front
        ensures { result.now ≡ self.now.history.front }
    {
        self.history.front()
    }

    /// Whether no seat may do anything any more: as many steps were made as may be, but for the two that are kept back while a
    /// layer is out.
    pub fn is_exhausted(&self) -> bool
        ensures all { result ≡ true → self.now.history.max_steps ≤ length self.now.history.steps + kept_for self.now.history.front.out }
        ensures left { result ≡ false → length self.now.history.steps + kept_for self.now.history.front.out < self.now.history.max_steps }
    {
        self.history.is_exhausted()
    }

    /// It does nothing: its contract says that the cluster is lawful.
    pub fn lawful(&self)
        ensures lawful { IsLawful self.now.history }
        ensures table { self.now.history.front.table ≡ T.table }
        ensures book { self.now.book ≡ submits self.now.history.steps }
    {
        self.history.lawful();
    }
}

/// Books a request of the seat, which has this id: the seat has seen the steps up to its Submit.
#[inline(always)]
fn book_request<T: Tabled, L: Server>(
    book: &mut Book<L>,
    requests: &mut u64,
    seat: &mut Seat<T, L>,
    id: RequestId,
    seen: Part<Leading<T>, StepsOf<L>>,
)
    requires counted { requests.old ≡ book.old.total }
    requires few { requests.old ≤ GREATEST_STEPS }
    ensures book { book.new.total ≡ book.old.total + 1 }
    ensures requests { requests.new ≡ requests.old + 1 }
    ensures seat { seat.new ≡ record seat.old { count = seat.old.count + 1; last = id.seq; seen = seen } }
{
    book.add(&mut seat.share, 1);
    book.audit(&mut seat.share);
    *requests += 1;
    seat.count += 1;
    seat.last = id.seq;
    seat.seen = seen;
}

/// Makes the Submit of the connection's next request, behind all that is in the part. Behind it the trace keeps room for so
/// many bytes, and for those of the steps that bring it on. An error changes nothing.
fn make_submit<T: Tabled, L: Server>(
    history: &mut History<T, L>,
    conn: ConnId,
    words: Request,
    kept: usize,
    behind: &Part<Leading<T>, StepsOf<L>>,
) -> Result<RequestId, StepFault>
    ensures made { IfOk result (λ id. IsMade history.old (Step.Submit conn words) (Submitted id) history.new) }
    ensures behind { OnOk result (IsPrefix behind.now history.old.steps) }
    ensures conn { IfOk result (λ id. id.conn ≡ conn) }
    ensures said { IfOk result (λ id. IsSaid history.new.steps id words) }
    ensures fault { IfErr result (IsFault history.old (Step.Submit conn words)) }
    ensures unchanged { OnErr result (IsUnchanged history.old history.new) }
    ensures room { HasRoom kept history.old.trace → HasRoom kept history.new.trace }
{
    let kept = kept.saturating_add(BYTES_AHEAD);
    let effect = match history.make(Step::Submit { conn, words }, kept, behind) {
        Ok(effect) => effect,
        Err(fault) => return Err(fault),
    };
    let Effect::Submitted(id) = effect else {
        unreachable!()
    };
    Ok(id)
}

/// Hands on a piece of the trace. Behind it there is room for so many bytes, and for those of the steps that bring on what is under way.
fn hand_on<T: Tabled, L: Server>(
    history: &mut History<T, L>,
    kept: usize,
) -> Result<Option<Piece<T, L>>, AllocError>
    ensures handed { IfOk result (λ piece. IfSome piece (λ p. HandsPieceOn history.old p history.new)) }
    ensures none { IfOk result (λ piece. IfNone piece ((history.old.trace ≡ None) × (history.new ≡ history.old))) }
    ensures same { history.new ≡ record history.old { trace = history.new.trace } }
    ensures room { HasRoom kept history.old.trace → HasRoom kept history.new.trace }
    ensures unchanged { OnErr result (history.new ≡ history.old) }
{
    history.hand_on(kept.saturating_add(BYTES_AHEAD))
}

/// Whether an outcome waits for the seat, which it can collect.
fn awaits<T: Tabled, L: Server>(
    history: &History<T, L>,
    seat: &Seat<T, L>,
) -> Result<bool, StepFault>
    ensures none { IfOk result (λ some. some ≡ false → waiting history.now.front.router seat.now.conn.0 ≡ None) }
    ensures some { IfOk result (λ some. some ≡ true → CanCollect history.now seat.now) }
    ensures refused { IfErr result (IsCollectFault history.now seat.now) }
{
    if history.is_exhausted() {
        return Err(StepFault::Exhausted);
    }
    let Some(outcome) = history.front().waits(seat.conn) else {
        return match history.own_fault(&Step::Collect { conn: seat.conn }) {
            Some(fault) => Err(fault),
            None => Ok(false),
        };
    };
    if outcome.id.seq != seat.last {
        return Err(StepFault::NoConn);
    }
    if !is_above(&outcome.stamp, seat.floor) {
        return Err(StepFault::NoConn);
    }
    Ok(true)
}

/// Collects the outcome that waits for the seat, and raises the seat's floor.
#[inline(always)]
fn take_outcome<T: Tabled, L: Server>(
    history: &mut History<T, L>,
    seat: &mut Seat<T, L>,
    kept: usize,
) -> Result<Outcome, StepFault>
    requires { CanCollect history.old seat.old }
    ensures taken { IfOk result (λ outcome. IsReplied history.old seat.old outcome.reply history.new seat.new) }
    ensures refused { IfErr result (IsCollectFault history.old seat.old) }
    ensures unchanged { OnErr result (IsUnchanged history.old history.new × (seat.new ≡ seat.old)) }
    ensures room { HasRoom kept history.old.trace → HasRoom kept history.new.trace }
{
    history.lawful();
    let effect = match history.make(Step::Collect { conn: seat.conn }, kept, &seat.seen) {
        Ok(effect) => effect,
        Err(fault) => return Err(fault),
    };
    let Effect::Collected(collected) = effect else {
        unreachable!()
    };
    let Some(outcome) = collected else {
        unreachable!()
    };
    raise(&mut seat.floor, &outcome.stamp);
    seat.seen = history.part();
    Ok(outcome)
}

/// The clock of the stamp of the seat's last request, where these are its row alone, and the clock is above the seat's floor.
fn floor_of<T: Tabled, L: Server>(seat: &Seat<T, L>, rows: &[DoneRow]) -> Option<u64>
    ensures { IfSome result (IsFloorOf seat.now rows.now) }
{
    let row = only_row(rows)?;
    if row.id.conn != seat.conn || row.id.seq != seat.last || row.stamp.clock <= seat.floor {
        return None;
    }
    Some(row.stamp.clock)
}

/// Closes a connection. Where its Close is refused nothing changes.
fn close<T: Tabled, L: Server>(history: &mut History<T, L>, conn: ConnId, kept: usize)
    requires { HasRoom (kept + GREATEST_CLOSE) history.old.trace }
    ensures room { HasRoom kept history.new.trace }
    ensures closed { IsMade history.old (Step.Close conn) Made history.new ⊎ StaysOpen conn history.old history.new }
{
    match history.make_unanswered(Step::Close { conn }, kept) {
        Ok(()) => {}
        Err(_fault) => return,
    }
}

/// Whether a stamp's clock is above the floor.
fn is_above(stamp: &Option<Stamp>, floor: u64) -> bool
    ensures { IsTrue result ↔ IsAbove stamp.now floor }
{
    match stamp {
        None => true,
        Some(stamp) => floor < stamp.clock,
    }
}

/// Raises the floor to the clock of a stamp.
fn raise(floor: &mut u64, stamp: &Option<Stamp>)
    ensures { floor.new ≡ raised stamp.now floor.old }
{
    if let Some(stamp) = stamp {
        *floor = stamp.clock;
    }
}
