//! A cluster under two locks, for any number of threads: the front with its seats under the one, the store under the other.
//!
//! What a call does to the cluster no clause can say, since the cluster is another one each time the lock is taken. But all that seats
//! have seen are beginnings of one history of steps. A clause says of an answer that it is the one which the seat's own request gets in
//! the world of that history.
//!
//! Who sleeps, and who wakes him:
//!
//! - A seat whose request another thread brings on sleeps at its place in `done`, and an asking thread that finds nothing to do
//!   while another hand has the layer at its place in `idle`. Who settles the layer wakes the seats of all whose outcomes come
//!   with it.
//! - A request that was ready beside that layer, or stands behind it, has its asking thread asleep in `idle`, or waits for a
//!   thread that drives. So who settles wakes, where a request is ready, of the seats at the heads of the queues those that
//!   sleep there, and who drives: one of these requests is ready, and whoever brings it on takes all that are.
//! - Who drives or carries sleeps at `work` or `packets` where there is nothing to do. Who asks of a driver wakes both; a thread
//!   that makes its own turns brings its own packets, and wakes no one. Once it is shut, each layer that is settled wakes both,
//!   since it may be the last.
//! - Where no turn is made any more, who meets it first wakes all, and each is told so in his turn: then no layer is taken, and
//!   no one goes to sleep beside one.
//!
//! Each looks under the front's lock whether he has something to do before he goes to sleep, and each is woken after the change
//! under that lock, so no call is missed.

ghost use Rattle.std.specs.Prelude.{◌≡◌, ◌≤◌, ◌<◌, [], IfOk, IfErr, IfSome, IfNone, OnErr, OnSome};
ghost use Rattle.shared_cluster.specs.Asks.{IsNewSeat, IsSitFault, IsStopped};
ghost use Rattle.shared_cluster.specs.Closings.{IsClosed, IsCloseFault, IsWritten};
ghost use Rattle.shared_cluster.specs.Hands.{IsFound, IsBrought, Begins, Brings, HasSettled, Settles, Advances, HasTurned};
ghost use Rattle.shared_cluster.specs.declared.hand.Hand.{Hand};
ghost use Rattle.journal.specs.declared.trace.TheConstants.{GREATEST_STEPS};

use crate::fault::FaultKind;
use crate::hand::{Hand, HandOf, Run, RunOf, bring_to};
use crate::held::{AskFault, AtRest, CloseFault, Held, Next, RESERVE, Unsettled};
use crate::names::Names;
use crate::sight::Sight;
use crate::streams::TraceStream;
use cluster::{Closing, Cluster, Pick, Piece, Ran, RunsOf, Seat, Server, Taken};
use groups::{ConnId, GroupId};
use hashed_texts::TextHasher;
use layer_results::Done;
use placement::Table;
use serial_store::{SerialStore, Tabled};
use server_waiting::{Pause, Turnstile, Waiting};
use shard_workers::{Gate, Workers};
use std::alloc::{AllocError, Global};
use std::mem;
use std::sync::atomic::{AtomicBool, Ordering};
use std::sync::{Condvar, Mutex, Wait};
use std::time::Clock;

/// How many packets are brought to their groups in one holding of the lock at most.
const PACKETS: usize = 16;

/// A cluster under two locks. A holding of the front's makes the steps of one call, none or several, one after the other; a Run is one
/// holding of the store's. No one waits for one while he holds the other, but in `close`, which takes the front's first.
#[derive(Drop)]
pub struct Shared<T: Tabled, L: Server> {
    pub(crate) front: Mutex<Held<T, L>>,
    pub(crate) store: Mutex<SerialStore<T, RunsOf<L>>>,
    // A request waits for who drives, or the cluster is shut.
    pub(crate) work: Condvar,
    // A packet may be under way for who carries, or the cluster is shut.
    pub(crate) packets: Condvar,
    // Outcomes went to seats that wait for them, or no turn is made any more.
    pub(crate) done: Waiting,
    // The same for seats whose threads make their own turns; or a layer may be taken.
    pub(crate) idle: Waiting,
    pub(crate) turnstile: Turnstile,
    // Whoever asks waits until a piece of the trace was handed on.
    pub(crate) behind: AtomicBool,
}

/// How the turns go on.
#[derive(Clone, Copy, Debug, PartialEq, Eq)]
pub(crate) enum Turn {
    /// One was made; `settled` where outcomes went to their connections.
    Made { settled: bool },
    /// None was made for want of memory.
    Starved,
    /// There is nothing to do for this hand.
    Quiet,
}

impl<T: Tabled, L: Server> Shared<T, L> {
    /// A cluster without seats, which has made no step and makes `max_steps` at most. Keys lie as the table says, and each shard hashes
    /// them, and what lies at them, by a copy of `hasher`. Its steps are kept as a trace where `keeps` says so. The only error is want of
    /// memory.
    pub fn new(
        alloc: Global,
        table: Table,
        max_steps: u64,
        keeps: bool,
        hasher: TextHasher,
        names: Names<T, L>,
    ) -> Result<Self, AllocError>
        requires name { names.blank.name ≡ L.name }
        requires parts { names.blank.parts ≡ L.parts }
        requires enough { max_steps < names.blank.parts }
        requires some { 1 ≤ max_steps }
        requires few { max_steps ≤ GREATEST_STEPS }
        requires table { table ≡ T.table }
        requires steps { names.steps ≡ [] }
        requires runs { names.runs ≡ [] }
    {
        let Names { blank, steps, runs } = names;
        let ran = runs.part();
        let store = SerialStore::new(alloc, table, hasher, runs)?;
        let cluster = Cluster::new(alloc, table, max_steps, keeps, blank, steps, ran)?;
        let reserve = Vec::with_capacity(alloc, RESERVE)?;
        Ok(Shared {
            front: Mutex::new(Held {
                cluster,
                shut: false,
                stopped: false,
                reserve,
            }),
            store: Mutex::new(store),
            work: Condvar::new(),
            packets: Condvar::new(),
            done: Waiting::new(),
            idle: Waiting::new(),
            turnstile: Turnstile::new(),
            behind: AtomicBool::new(false),
        })
    }

    /// Opens a connection, and gives the seat that has it. It may wait for the lock.
    pub fn sit<R: Wait>(&self, rt: &R) -> Result<Seat<T, L>, AskFault>
        ensures seat { IfOk result IsNewSeat }
        ensures refused { IfErr result IsSitFault }
    {
        self.front.lock(rt).sit()
    }

    /// Makes turns until it is found shut and nothing under way. A turn for which there is no memory is tried again.
    ///
    /// It ends by `Exhausted` where no more steps may be made, and by `Failed` where a layer was refused for good, as where a
    /// worker could not be started.
    pub fn drive<P: Pick, W: Workers, R: Wait + Clock>(
        &self,
        rt: &R,
        pick: &P,
        workers: &W,
        gate: &(dyn Gate + Sync),
    ) -> Result<AtRest, AskFault>
        ensures { IfErr result IsStopped }
    {
        let mut pause = Pause::new();
        let mut hand: HandOf<T, L> = Hand::Free;
        for _ in rt.forever() {
            match self.drive_once(rt, &mut hand, pick, workers, gate, &mut pause) {
                Ok(None) => {}
                Ok(Some(rest)) => return Ok(rest),
                Err(fault) => {
                    self.wake_all();
                    return Err(fault);
                }
            }
        }
        unreachable!()
    }

    /// Brings packets to their groups, beside who brings on layers, until it is found shut and nothing under way. A packet for
    /// which there is no memory is tried again.
    ///
    /// It ends by the same errors as `drive`.
    pub fn carry<P: Pick, R: Wait + Clock>(&self, rt: &R, pick: &P) -> Result<AtRest, AskFault>
        ensures { IfErr result IsStopped }
    {
        let mut pause = Pause::new();
        for _ in rt.forever() {
            match self.carry_once(rt, pick, &mut pause) {
                Ok(None) => {}
                Ok(Some(rest)) => return Ok(rest),
                Err(fault) => {
                    self.wake_all();
                    return Err(fault);
                }
            }
        }
        unreachable!()
    }

    /// Shuts the cluster: no one sits or asks any more.
    pub fn shut<R: Wait>(&self, rt: &R) {
        self.front.lock(rt).shut();
        self.wake_workers();
    }

    /// Lets others make their own turns: after `ask_turning` nobody else does so before this seat rests or stands. To be called
    /// before its thread waits for anything but this cluster.
    pub fn rest<R: Wait>(&self, rt: &R, seat: &Seat<T, L>) {
        self.turnstile.leave(rt, seat.conn());
    }

    /// Takes a seat back, which rests then, and closes its connection. What it has under way still runs, and its outcome is dropped.
    pub fn stand<R: Wait>(&self, rt: &R, seat: Seat<T, L>) {
        self.rest(rt, &seat);
        self.front.lock(rt).stand(seat);
    }

    /// Appends the text of the trace, where one is kept of which nothing was handed on, and says whether it is. With `AllocError`,
    /// where there is no memory for all of it, `out` is as it was.
    pub fn write_trace<R: Wait>(&self, rt: &R, out: &mut Vec<u8>) -> Result<bool, AllocError>
        ensures written { IfOk result (λ kept. IsWritten out.old.items kept out.new.items) }
        ensures unchanged { OnErr result (out.new.items ≡ out.old.items) }
    {
        self.front.lock(rt).write_trace(out)
    }

    /// The text of the trace, to be made in pieces, where one is kept.
    pub fn trace_stream<R: Wait>(&self, rt: &R) -> Option<TraceStream<T, L>>
        ensures { IfSome result (λ stream. stream.steps ≡ []) }
    {
        self.front.lock(rt).trace_stream()
    }

    /// Keeps no trace any more.
    pub fn forget_trace<R: Wait>(&self, rt: &R) {
        self.front.lock(rt).forget_trace();
        self.behind.store(false, Ordering::Relaxed);
    }

    /// Hands on a piece of the trace, where one is kept.
    pub(crate) fn hand_on<R: Wait>(&self, rt: &R) -> Result<Option<Piece<T, L>>, AllocError> {
        let handed = self.front.lock(rt).hand_on();
        self.behind.store(false, Ordering::Relaxed);
        handed
    }

    /// Has who asks next wait where much is kept of the trace.
    pub(crate) fn note_trace(&self, held: &Held<T, L>) {
        if held.is_behind() {
            self.behind.store(true, Ordering::Relaxed);
        }
    }

    /// Waits while so much is kept of the trace that it is to be handed on first.
    pub(crate) fn wait_for_trace<R: Wait + Clock>(&self, rt: &R) {
        let mut pause = Pause::new();
        for _ in rt.forever() {
            if !self.behind.load(Ordering::Relaxed) {
                return;
            }
            pause.sleep(rt);
        }
    }

    /// How many requests were submitted so far.
    pub fn requests<R: Wait>(&self, rt: &R) -> u64 {
        self.front.lock(rt).requests()
    }

    /// How far it is.
    pub fn sight<R: Wait>(&self, rt: &R) -> Sight {
        self.front.lock(rt).sight()
    }

    /// How many keys its store has, or 9223372036854775807 where there are more. It waits where a layer is run.
    pub fn keys<R: Wait>(&self, rt: &R) -> i64 {
        self.store.lock(rt).size()
    }

    /// What is told of the cluster when it is closed: all seats have stood, nothing is under way, and the store has run the layers that
    /// were settled. It changes nothing.
    pub fn close<R: Wait>(&self, rt: &R) -> Result<Closing, CloseFault>
        ensures closed { IfOk result (IsClosed T.table) }
        ensures refused { IfErr result IsCloseFault }
    {
        let mut held = self.front.lock(rt);
        let store = self.store.lock(rt);
        held.close(&store)
    }

    /// Makes a turn, or waits for one to be there to be made; or says that it was found at rest.
    fn drive_once<P: Pick, W: Workers, R: Wait + Clock>(
        &self,
        rt: &R,
        hand: &mut HandOf<T, L>,
        pick: &P,
        workers: &W,
        gate: &(dyn Gate + Sync),
        pause: &mut Pause,
    ) -> Result<Option<AtRest>, AskFault>
        ensures free { IfOk result (λ rest. OnSome rest ((hand.old ≡ Hand.Free) × (hand.new ≡ Hand.Free))) }
        ensures goes_on { IfOk result (λ rest. IfNone rest (HasTurned T.table hand.old hand.new)) }
        ensures refused { IfErr result IsStopped }
        ensures let_go { OnErr result (hand.new ≡ Hand.Free) }
    {
        let turn = match self.advance(rt, hand, pick, workers, gate) {
            Ok(turn) => turn,
            Err(fault) => return Err(fault),
        };
        match turn {
            Turn::Made { .. } => {
                pause.end();
                Ok(None)
            }
            Turn::Starved => {
                pause.sleep(rt);
                Ok(None)
            }
            Turn::Quiet => {
                pause.end();
                Ok(self.rest_or_wait(rt))
            }
        }
    }

    /// Says that it was found at rest, if so; else waits for work, where there is none.
    fn rest_or_wait<R: Wait>(&self, rt: &R) -> Option<AtRest> {
        let held = self.front.lock(rt);
        let rest = held.at_rest();
        if rest.is_none() && !held.has_work() {
            drop(self.work.wait(rt, held));
        }
        rest
    }

    /// Brings a packet to its group, or waits for one to be under way; or says that it was found at rest.
    fn carry_once<P: Pick, R: Wait + Clock>(
        &self,
        rt: &R,
        pick: &P,
        pause: &mut Pause,
    ) -> Result<Option<AtRest>, AskFault>
        ensures { IfErr result IsStopped }
    {
        let mut held = self.front.lock(rt);
        match held.deliver(pick) {
            Ok(Next::Starved) => {
                drop(held);
                pause.sleep(rt);
                return Ok(None);
            }
            Ok(Next::Quiet) => {
                if let Some(rest) = held.at_rest() {
                    return Ok(Some(rest));
                }
                drop(self.packets.wait(rt, held));
            }
            Ok(_) => {}
            Err(fault) => return Err(fault),
        }
        pause.end();
        Ok(None)
    }

    /// Makes the first of these that is there to be made, if one is: what came of the hand's layer is settled, the layer is run,
    /// the next one is taken, a packet comes to its group. What is in the hand stays there until it is settled; but where a turn
    /// is refused the hand is free.
    pub(crate) fn advance<P: Pick, W: Workers, R: Wait>(
        &self,
        rt: &R,
        hand: &mut HandOf<T, L>,
        pick: &P,
        workers: &W,
        gate: &(dyn Gate + Sync),
    ) -> Result<Turn, AskFault>
        ensures made { IfOk result (λ turn. Advances T.table (P.picks pick.now) (W.may_refuse workers.now) hand.old turn hand.new) }
        ensures refused { IfErr result IsStopped }
        ensures free { OnErr result (hand.new ≡ Hand.Free) }
    {
        match mem::replace(hand, Hand::Free) {
            Hand::HasRun(ran) => self.settle(rt, hand, ran),
            Hand::Taken(layer) => self.run(rt, hand, layer, workers, gate),
            Hand::Free => self.begin(rt, hand, pick),
        }
    }

    /// Tells what came of the layer, which stays in the hand where there is no memory for it.
    fn settle<R: Wait>(
        &self,
        rt: &R,
        hand: &mut HandOf<T, L>,
        ran: Ran<T, L>,
    ) -> Result<Turn, AskFault>
        ensures made { IfOk result (λ turn. Settles ran hand.old turn hand.new) }
        ensures refused { IfErr result IsStopped }
        ensures free { OnErr result (hand.new ≡ hand.old) }
    {
        let mut held = self.front.lock(rt);
        // They come to the lock once it is let go.
        self.wake_outcomes(ran.done());
        let left = match self.settle_or_retry(&mut held, ran) {
            Ok(left) => left,
            Err(fault) => return Err(fault),
        };
        match left {
            Some(ran) => {
                *hand = Hand::HasRun(ran);
                Ok(Turn::Starved)
            }
            None => Ok(Turn::Made { settled: true }),
        }
    }

    /// Tells what came of the layer. Where there is no memory for that it is tried once more, with what is kept back, and else given
    /// back.
    pub(crate) fn settle_or_retry(
        &self,
        held: &mut Held<T, L>,
        ran: Ran<T, L>,
    ) -> Result<Option<Ran<T, L>>, AskFault>
        ensures settled { IfOk result (λ left. IfNone left (HasSettled ran)) }
        ensures given { IfOk result (λ left. IfSome left (λ given. given ≡ ran)) }
        ensures refused { IfErr result IsStopped }
    {
        let left = match self.settle_once(held, ran) {
            Ok(left) => left,
            Err(fault) => return Err(fault),
        };
        match left {
            Some(ran) => self.settle_once(held, ran),
            None => Ok(None),
        }
    }

    /// Tells what came of the layer, and wakes who may bring on what is ready then; or gives it back where there is no memory.
    fn settle_once(
        &self,
        held: &mut Held<T, L>,
        ran: Ran<T, L>,
    ) -> Result<Option<Ran<T, L>>, AskFault>
        ensures settled { IfOk result (λ left. IfNone left (HasSettled ran)) }
        ensures given { IfOk result (λ left. IfSome left (λ given. given ≡ ran)) }
        ensures refused { IfErr result IsStopped }
    {
        let unsettled = match held.settle(ran) {
            Ok(()) => {
                self.note_trace(held);
                self.wake_next(held);
                return Ok(None);
            }
            Err(unsettled) => unsettled,
        };
        let ran = match unsettled {
            Unsettled::Starved(ran) => ran,
            Unsettled::Foreign(fault) => return Err(fault),
        };
        Ok(Some(ran))
    }

    /// Runs the layer, and has what came of it in the hand. Where there is no memory for that, the layer stays there.
    fn run<W: Workers, R: Wait>(
        &self,
        rt: &R,
        hand: &mut HandOf<T, L>,
        layer: Taken<T, L>,
        workers: &W,
        gate: &(dyn Gate + Sync),
    ) -> Result<Turn, AskFault>
        ensures made { IfOk result (λ turn. Brings T.table (W.may_refuse workers.now) layer turn hand.new) }
        ensures refused { IfErr result IsStopped }
        ensures free { OnErr result (hand.new ≡ hand.old) }
    {
        let run = self.run_or_retry(rt, layer, workers, gate);
        match run {
            Run::Handed(ran) => {
                *hand = Hand::HasRun(ran);
                Ok(Turn::Made { settled: false })
            }
            Run::Starved(layer) => {
                *hand = Hand::Taken(layer);
                Ok(Turn::Starved)
            }
            Run::Refused(why) => Err(self.front.lock(rt).stop(why)),
        }
    }

    /// Runs the layer. Where there is no memory for that it is tried once more, with what is kept back.
    fn run_or_retry<W: Workers, R: Wait>(
        &self,
        rt: &R,
        layer: Taken<T, L>,
        workers: &W,
        gate: &(dyn Gate + Sync),
    ) -> RunOf<T, L>
        ensures { IsBrought T.table (W.may_refuse workers.now) layer result }
    {
        let run = self.run_in_store(rt, layer, workers, gate);
        match run {
            Run::Starved(layer) => self.run_in_store(rt, layer, workers, gate),
            run => run,
        }
    }

    /// Runs the layer, under the store's lock alone. Where there is no memory for it, what is kept back is let go.
    pub(crate) fn run_in_store<W: Workers, R: Wait>(
        &self,
        rt: &R,
        layer: Taken<T, L>,
        workers: &W,
        gate: &(dyn Gate + Sync),
    ) -> RunOf<T, L>
        ensures { IsBrought T.table (W.may_refuse workers.now) layer result }
    {
        let mut store = self.store.lock(rt);
        let run = bring_to(&mut store, layer, workers, gate);
        drop(store);
        if let Run::Starved(_) = &run {
            self.front.lock(rt).let_reserve_go();
        }
        run
    }

    /// Takes the next layer into the hand, which is free; else brings a packet to its group.
    fn begin<P: Pick, R: Wait>(
        &self,
        rt: &R,
        hand: &mut HandOf<T, L>,
        pick: &P,
    ) -> Result<Turn, AskFault>
        ensures made { IfOk result (λ turn. Begins (P.picks pick.now) hand.old turn hand.new) }
        ensures refused { IfErr result IsStopped }
        ensures free { OnErr result (hand.new ≡ hand.old) }
    {
        let found = match self.find(rt, pick) {
            Ok(found) => found,
            Err(fault) => return Err(fault),
        };
        match found {
            Next::Taken(layer) => {
                *hand = Hand::Taken(layer);
                Ok(Turn::Made { settled: false })
            }
            Next::Delivered => Ok(Turn::Made { settled: false }),
            Next::Starved => Ok(Turn::Starved),
            Next::Quiet => Ok(Turn::Quiet),
        }
    }

    /// Looks for what there is to be done, in one holding of the lock.
    fn find<P: Pick, R: Wait>(&self, rt: &R, pick: &P) -> Result<Next<Taken<T, L>>, AskFault>
        ensures made { IfOk result (IsFound (P.picks pick.now)) }
        ensures refused { IfErr result IsStopped }
    {
        self.turn_or_retry(&mut self.front.lock(rt), pick)
    }

    /// Brings packets to their groups until the next layer is taken, or some were brought and the lock is due. Where there is no
    /// memory for one it is tried once more, with what is kept back.
    pub(crate) fn turn_or_retry<P: Pick>(
        &self,
        held: &mut Held<T, L>,
        pick: &P,
    ) -> Result<Next<Taken<T, L>>, AskFault>
        ensures made { IfOk result (IsFound (P.picks pick.now)) }
        ensures refused { IfErr result IsStopped }
    {
        let mut found = match turn_once(held, pick) {
            Ok(found) => found,
            Err(fault) => return Err(fault),
        };
        for _ in 0..PACKETS {
            found = match found {
                Next::Delivered => match turn_once(held, pick) {
                    Ok(next) => next,
                    Err(fault) => return Err(fault),
                },
                Next::Starved => return turn_once(held, pick),
                last => return Ok(last),
            };
        }
        Ok(found)
    }

    /// Wakes the seats of all whose outcomes come with this.
    // Inlined, as is the next, since mostly no one waits.
    #[inline(always)]
    pub(crate) fn wake_outcomes(&self, done: &Done) {
        if self.done.is_empty() && self.idle.is_empty() {
            return;
        }
        for row in done.rows() {
            self.wake_seat(row.id.conn);
        }
    }

    /// Wakes the seat of this connection, if it waits.
    fn wake_seat(&self, conn: ConnId) {
        self.done.wake(conn);
        self.idle.wake(conn);
    }

    /// Wakes, behind a Settle, those who may bring on what is ready now: who drives, and the seats of the requests at the heads
    /// of the queues, one of which is ready. Where it is shut it may have been the last one.
    #[inline(always)]
    pub(crate) fn wake_next(&self, held: &Held<T, L>) {
        let front = held.cluster.front();
        if held.shut {
            self.wake_workers();
        }
        if !front.has_ready() {
            return;
        }
        self.work.notify_all();
        if self.idle.is_empty() {
            return;
        }
        for group in 0..front.table().shards() {
            if let Some(request) = front.delivered(GroupId::new(group), 0) {
                self.idle.wake(request.id.conn);
            }
        }
    }

    /// Wakes who drives and who carries.
    pub(crate) fn wake_workers(&self) {
        self.work.notify_all();
        self.packets.notify_all();
    }

    /// Wakes all, since no turn is made any more.
    pub(crate) fn wake_all(&self) {
        self.wake_workers();
        self.done.wake_all();
        self.idle.wake_all();
    }
}

/// Takes the next layer, or brings a packet to its group.
fn turn_once<T: Tabled, L: Server, P: Pick>(
    held: &mut Held<T, L>,
    pick: &P,
) -> Result<Next<Taken<T, L>>, AskFault>
    ensures made { IfOk result (IsFound (P.picks pick.now)) }
    ensures refused { IfErr result IsStopped }
{
    held.turn(pick)
}
