//! What the front's lock guards: a cluster, whether it is shut, and whether it is stopped. No other module makes a fault of an
//! ask or of a close.

ghost use Rattle.std.specs.Prelude.{◌≡◌, ◌<◌, ◌+◌, ◌⊎◌, true, false, [], None, OnErr, OnOk, IfOk, IfErr, IfSome, IfNone, OnSome, IsTrue, ◌↔◌};
ghost use Rattle.resp.specs.Content.{content};
ghost use Rattle.shared_cluster.specs.Asks.{is_listed, IsSeated, Submits, Replies, RefusesSit, RefusesSubmit, RefusesCollect};
ghost use Rattle.shared_cluster.specs.Asks.{told_in, RefusesAsk, RefusesTurn};
ghost use Rattle.shared_cluster.specs.Closings.{Closes, RefusesClose, Writes, IsSight};
ghost use Rattle.shared_cluster.specs.Turning.{GoesOn, Carries, Takes, MayTake, PassesOn, RefusesSettle, Finishes, StaysSo, IsNotThere};
ghost use Rattle.shared_cluster.specs.Turning.{IsAtRest};
ghost use Rattle.cluster.specs.Clusters.{StaysOpen};
ghost use Rattle.cluster.specs.Histories.{IsLawful, IsMade, IsFault};
ghost use Rattle.cluster.specs.Layers.{IsSettled};
ghost use Rattle.cluster.specs.Pieces.{HandsOn};
ghost use Rattle.cluster.specs.Submits.{submits};
ghost use Rattle.cluster.specs.Traces.{place_of};
ghost use Rattle.shared_cluster.specs.declared.held.TheConstants.{TRACE_AHEAD};
ghost use Rattle.journal.specs.declared.step.Step.{Step};
ghost use Rattle.router.specs.Router.{waiting};
ghost use Rattle.world.specs.Steps.{Made};

use crate::fault::{AskStep, CloseKind, FaultKind, lasting, of_cluster, told, told_in};
use crate::hand::Broken;
use crate::sight::Sight;
use crate::streams::TraceStream;
use cluster::{
    Closing, Cluster, Pick, Piece, Ran, RunsOf, SealedReply, Seat, Server, StepFault, Taken,
};
use groups::ConnId;
use journal::write_trace;
use resp::Request;
use serial_store::{SerialStore, Tabled};
use sessions::is_control;
use std::alloc::AllocError;
use thiserror::Error;

/// Why a request isn't answered, or a seat isn't given: the kind of fault, and the step that was not made. It can't be
/// made up, since only what the lock guards makes one, where a step is refused.
#[derive(Debug, Drop, PartialEq, Eq, Error)]
#[error("{kind}")]
pub struct AskFault {
    kind: FaultKind,
    step: AskStep,
}

impl AskFault {
    /// The kind of fault.
    pub fn kind(&self) -> FaultKind
        ensures { result ≡ self.now.kind }
    {
        self.kind
    }

    /// The step that was not made.
    pub fn step(&self) -> AskStep
        ensures { result ≡ self.now.step }
    {
        self.step
    }
}

/// Why a cluster isn't closed. Nothing was changed. It can't be made up, since only what the lock guards makes one, where a close
/// is refused.
#[derive(Debug, Drop, PartialEq, Eq, Error)]
#[error("{kind}")]
pub struct CloseFault {
    kind: CloseKind,
}

impl CloseFault {
    /// The kind of fault.
    pub fn kind(&self) -> CloseKind
        ensures { result ≡ self.now.kind }
    {
        self.kind
    }
}

/// How much is kept back for turns that find no memory.
pub(crate) const RESERVE: usize = 256 * 1024;

/// So many bytes of the trace may be kept before whoever asks waits until they were handed on.
const TRACE_AHEAD: usize = 256 * 1024;

/// A cluster, whether it is shut: then no one sits or asks any more; and whether it is stopped, since a layer was refused for
/// good: then no step is made any more, but for the Closes of connections.
///
/// Beside it memory is kept back. A turn that finds none lets it go, so that what is under way comes to its end; and no
/// one sits or submits before it is taken again.
#[derive(Drop)]
pub(crate) struct Held<T: Tabled, L: Server> {
    pub cluster: Cluster<T, L>,
    pub shut: bool,
    pub stopped: bool,
    pub reserve: Vec<u8>,
}

/// That a cluster was found shut, and nothing under way in it. It can't be made up, since only what the lock guards gives it.
#[derive(Debug, Drop, PartialEq, Eq)]
pub struct AtRest {
    seen: (),
}

/// What was found to be done by a hand that is free.
#[derive(Drop)]
pub(crate) enum Next<A> {
    /// The next layer was taken.
    Taken(A),
    /// A packet came to its group.
    Delivered,
    /// Nothing was done for want of memory.
    Starved,
    /// There is no packet under way, and no layer that could be taken.
    Quiet,
}

/// Why what came of a layer isn't settled.
#[derive(Drop)]
pub(crate) enum Unsettled<B> {
    /// There was no memory for it: it is given back.
    Starved(B),
    /// It isn't what came of the layer that is out. All stops.
    Foreign(AskFault),
}

impl<T: Tabled, L: Server> Held<T, L> {
    /// Opens a connection, and gives the seat that has it.
    pub fn sit(&mut self) -> Result<Seat<T, L>, AskFault>
        ensures seat { IfOk result (λ seat. IsSeated self.old.cluster.history seat self.new.cluster.history) }
        ensures refused { IfErr result (RefusesSit self.old.shut self.old.stopped self.old.cluster.history) }
        ensures stays { OnErr result (StaysSo self.old.cluster self.new.cluster) }
        ensures shut { self.new.shut ≡ self.old.shut }
        ensures stopped { self.new.stopped ≡ self.old.stopped }
    {
        let step = AskStep::Sit;
        if self.shut {
            return Err(AskFault {
                kind: FaultKind::Closed,
                step,
            });
        }
        if self.stopped {
            return Err(AskFault {
                kind: FaultKind::Failed,
                step,
            });
        }
        self.cluster.lawful();
        if self.is_short() {
            return Err(AskFault {
                kind: told(self.cluster.sit_refusal()),
                step,
            });
        }
        match self.cluster.sit() {
            Ok(seat) => {
                self.cluster.lawful();
                Ok(seat)
            }
            Err(fault) => Err(AskFault {
                kind: told(fault),
                step,
            }),
        }
    }

    /// Submits a request of these words.
    pub fn submit(&mut self, seat: &mut Seat<T, L>, words: Request) -> Result<(), AskFault>
        ensures made { OnOk result (Submits self.old.cluster.history seat.old words self.new.cluster.history seat.new) }
        ensures refused { IfErr result (RefusesSubmit self.old.shut self.old.stopped self.old.cluster.history seat.old words) }
        ensures unchanged { OnErr result (seat.new ≡ seat.old) }
        ensures stays { OnErr result (StaysSo self.old.cluster self.new.cluster) }
        ensures shut { self.new.shut ≡ self.old.shut }
        ensures stopped { self.new.stopped ≡ self.old.stopped }
    {
        let step = AskStep::Submit(seat.conn(), seat.count());
        let (words, listed) = match self.admit(seat, words) {
            Ok(admitted) => admitted,
            Err(kind) => return Err(AskFault { kind, step }),
        };
        match self.cluster.submit(seat, words) {
            Ok(_) => Ok(()),
            Err(fault) => Err(refused(step, listed, fault)),
        }
    }

    /// Submits a request of these words. Where it came to its group and was taken at once, the layer that it is is handed out.
    pub fn pass(
        &mut self,
        seat: &mut Seat<T, L>,
        words: Request,
    ) -> Result<Option<Taken<T, L>>, AskFault>
        ensures made { IfOk result (λ taken.
            PassesOn self.old.cluster.history seat.old words taken self.new.cluster.history seat.new) }
        ensures refused { IfErr result (RefusesSubmit self.old.shut self.old.stopped self.old.cluster.history seat.old words) }
        ensures unchanged { OnErr result (seat.new ≡ seat.old) }
        ensures stays { OnErr result (StaysSo self.old.cluster self.new.cluster) }
        ensures shut { self.new.shut ≡ self.old.shut }
        ensures stopped { self.new.stopped ≡ self.old.stopped }
    {
        let step = AskStep::Submit(seat.conn(), seat.count());
        let (words, listed) = match self.admit(seat, words) {
            Ok(admitted) => admitted,
            Err(kind) => return Err(AskFault { kind, step }),
        };
        match self.cluster.pass(seat, words) {
            Ok(taken) => Ok(taken),
            Err(fault) => Err(refused(step, listed, fault)),
        }
    }

    /// Gives the words of a request back that may be submitted, with whether an open list is to have them; or says why it isn't
    /// submitted.
    // Inlined, so that the words are moved once.
    #[inline(always)]
    fn admit(&mut self, seat: &Seat<T, L>, words: Request) -> Result<(Request, bool), FaultKind>
        ensures words { IfOk result (λ admitted. admitted.0 ≡ words) }
        ensures listed { IfOk result (λ admitted. admitted.1 ≡ is_listed self.old.cluster.history seat.now.conn words) }
        ensures lives { OnOk result ((self.old.shut ≡ false) × (self.old.stopped ≡ false) × IsLawful self.old.cluster.history) }
        ensures refused { IfErr result (RefusesAsk self.old.shut self.old.stopped self.old.cluster.history
            (told_in (is_listed self.old.cluster.history seat.now.conn words))
            (IsFault self.old.cluster.history (Step.Submit seat.now.conn words))) }
        ensures same { (self.new.cluster ≡ self.old.cluster) × (self.new.shut ≡ self.old.shut) × (self.new.stopped ≡ self.old.stopped) }
    {
        if self.shut {
            return Err(FaultKind::Closed);
        }
        if self.stopped {
            return Err(FaultKind::Failed);
        }
        self.cluster.lawful();
        let listed = self.is_listed(seat.conn(), &words);
        if self.is_short() {
            return Err(told_in(listed, self.cluster.submit_refusal(seat, words)));
        }
        Ok((words, listed))
    }

    /// Whether the connection's list is open, and the request is none of MULTI, EXEC and DISCARD.
    fn is_listed(&self, conn: ConnId, words: &Request) -> bool
        ensures { result ≡ is_listed self.now.cluster.history conn words.now }
    {
        // `len` is called for its clause that there is a word.
        let _count = words.len();
        self.cluster.front().has_list(conn) && !is_control(words.word(0))
    }

    /// Takes the memory again that is kept back for turns, where it was let go. Says whether there is none.
    fn is_short(&mut self) -> bool
        ensures { (self.new.cluster ≡ self.old.cluster) × (self.new.shut ≡ self.old.shut) × (self.new.stopped ≡ self.old.stopped) }
    {
        self.reserve.capacity() < RESERVE && self.reserve.reserve(RESERVE).is_err()
    }

    /// The reply of the seat's last request, if it is there. A want of memory is no refusal: it is not there yet.
    pub fn collect(&mut self, seat: &mut Seat<T, L>) -> Result<Option<SealedReply>, AskFault>
        ensures answered { IfOk result (λ reply. IfSome reply (λ r.
            Replies T.table self.old.cluster.history seat.old (content r.reply) self.new.cluster.history seat.new)) }
        ensures none { IfOk result (λ reply. IfNone reply (IsLawful self.old.cluster.history
            × IsNotThere self.old.cluster.history seat.old)) }
        ensures unasked { IfOk result (λ reply. IfNone reply (seat.new ≡ seat.old)) }
        ensures still { IfOk result (λ reply. IfNone reply (StaysSo self.old.cluster self.new.cluster)) }
        ensures refused { IfErr result (RefusesCollect self.old.stopped self.old.cluster.history seat.old) }
        ensures unchanged { OnErr result (seat.new ≡ seat.old) }
        ensures stays { OnErr result (StaysSo self.old.cluster self.new.cluster) }
        ensures shut { self.new.shut ≡ self.old.shut }
        ensures stopped { self.new.stopped ≡ self.old.stopped }
    {
        let step = AskStep::Collect(seat.conn(), seat.count());
        if self.stopped {
            return Err(AskFault {
                kind: FaultKind::Failed,
                step,
            });
        }
        self.cluster.lawful();
        match self.cluster.collect(seat) {
            Ok(reply) => Ok(reply),
            Err(fault) => match lasting(fault) {
                Some(kind) => Err(AskFault { kind, step }),
                None => Ok(None),
            },
        }
    }

    /// Whether turns are made, and no outcome waits for the connection.
    pub fn has_no_outcome(&self, conn: ConnId) -> bool
        ensures { result ≡ true → IsLawful self.now.cluster.history × (waiting self.now.cluster.history.front.router conn.0 ≡ None) }
    {
        self.cluster.lawful();
        !self.stopped && self.cluster.front().waits(conn).is_none()
    }

    /// Takes the next layer, if a request is ready and none is out; else brings a packet to its group, if one is under way.
    pub fn turn<P: Pick>(&mut self, pick: &P) -> Result<Next<Taken<T, L>>, AskFault>
        ensures made { IfOk result (GoesOn (P.picks pick.now) self.old.cluster.history self.new.cluster.history) }
        ensures lawful { OnOk result (IsLawful self.old.cluster.history) }
        ensures refused { IfErr result (RefusesTurn self.old.stopped self.old.cluster.history) }
        ensures stays { OnErr result (StaysSo self.old.cluster self.new.cluster) }
        ensures shut { self.new.shut ≡ self.old.shut }
        ensures stopped { self.new.stopped ≡ self.old.stopped }
    {
        if self.may_take() {
            return self.take();
        }
        self.deliver(pick)
    }

    /// Whether a layer could be taken: a request is ready, and none is out.
    fn may_take(&self) -> bool
        ensures { IsTrue result ↔ MayTake self.now.cluster.history }
    {
        let front = self.cluster.front();
        if front.is_out() {
            return false;
        }
        front.has_ready()
    }

    /// Takes the next layer.
    fn take(&mut self) -> Result<Next<Taken<T, L>>, AskFault>
        requires { MayTake self.old.cluster.history }
        ensures made { IfOk result (Takes self.old.cluster.history self.new.cluster.history) }
        ensures lawful { OnOk result (IsLawful self.old.cluster.history) }
        ensures refused { IfErr result (RefusesTurn self.old.stopped self.old.cluster.history) }
        ensures stays { OnErr result (StaysSo self.old.cluster self.new.cluster) }
        ensures shut { self.new.shut ≡ self.old.shut }
        ensures stopped { self.new.stopped ≡ self.old.stopped }
    {
        let step = AskStep::Turn;
        if self.stopped {
            return Err(AskFault {
                kind: FaultKind::Failed,
                step,
            });
        }
        self.cluster.lawful();
        match self.cluster.take() {
            Ok(layer) => Ok(Next::Taken(layer)),
            Err(fault) => match lasting(fault) {
                Some(kind) => Err(AskFault { kind, step }),
                None => {
                    self.let_reserve_go();
                    Ok(Next::Starved)
                }
            },
        }
    }

    /// Brings a packet to its group, if one is under way.
    pub fn deliver<P: Pick>(&mut self, pick: &P) -> Result<Next<Taken<T, L>>, AskFault>
        ensures made { IfOk result (Carries (P.picks pick.now) self.old.cluster.history self.new.cluster.history) }
        ensures lawful { OnOk result (IsLawful self.old.cluster.history) }
        ensures refused { IfErr result (RefusesTurn self.old.stopped self.old.cluster.history) }
        ensures stays { OnErr result (StaysSo self.old.cluster self.new.cluster) }
        ensures shut { self.new.shut ≡ self.old.shut }
        ensures stopped { self.new.stopped ≡ self.old.stopped }
    {
        let step = AskStep::Turn;
        if self.stopped {
            return Err(AskFault {
                kind: FaultKind::Failed,
                step,
            });
        }
        self.cluster.lawful();
        match self.cluster.turn(pick) {
            Ok(true) => Ok(Next::Delivered),
            Ok(false) => Ok(Next::Quiet),
            Err(fault) => match lasting(fault) {
                Some(kind) => Err(AskFault { kind, step }),
                None => {
                    self.let_reserve_go();
                    Ok(Next::Starved)
                }
            },
        }
    }

    /// Tells what came of the layer that is out. What isn't that stops all.
    pub fn settle(&mut self, ran: Ran<T, L>) -> Result<(), Unsettled<Ran<T, L>>>
        ensures settled { OnOk result (IsSettled self.old.cluster.history ran.done self.new.cluster.history) }
        ensures lawful { IsLawful self.old.cluster.history }
        ensures refused { IfErr result (RefusesSettle self.old.cluster.history ran) }
        ensures stays { OnErr result (StaysSo self.old.cluster self.new.cluster) }
        ensures shut { self.new.shut ≡ self.old.shut }
        ensures stopped { OnOk result (self.new.stopped ≡ self.old.stopped) }
    {
        self.cluster.lawful();
        match self.cluster.settle(ran) {
            Ok(()) => Ok(()),
            Err((ran, StepFault::Memory)) => {
                self.let_reserve_go();
                Err(Unsettled::Starved(ran))
            }
            Err(_) => {
                self.stopped = true;
                Err(Unsettled::Foreign(AskFault {
                    kind: FaultKind::Failed,
                    step: AskStep::Turn,
                }))
            }
        }
    }

    /// Tells what came of the layer that is out, and collects the reply, where the layer is the seat's last request alone. Else what
    /// came of it is given back, and nothing has changed but room.
    #[inline]
    pub fn finish(
        &mut self,
        seat: &mut Seat<T, L>,
        ran: Ran<T, L>,
    ) -> Result<SealedReply, Ran<T, L>>
        ensures finished { IfOk result (λ sealed. Finishes T.table self.old.cluster.history ran seat.old (content sealed.reply)
            self.new.cluster.history seat.new) }
        ensures lawful { OnOk result (IsLawful self.old.cluster.history) }
        ensures given { IfErr result (λ back. back ≡ ran) }
        ensures unchanged { OnErr result (seat.new ≡ seat.old) }
        ensures stays { OnErr result (StaysSo self.old.cluster self.new.cluster) }
        ensures shut { self.new.shut ≡ self.old.shut }
        ensures stopped { self.new.stopped ≡ self.old.stopped }
    {
        if self.stopped {
            return Err(ran);
        }
        self.cluster.lawful();
        match self.cluster.finish(seat, ran) {
            Ok(sealed) => Ok(sealed),
            Err(ran) => Err(ran),
        }
    }

    /// Stops all, since a layer was refused for good, and says how a turn is refused from now on.
    pub fn stop(&mut self, _why: Broken) -> AskFault
        ensures refused { RefusesTurn self.new.stopped self.old.cluster.history result }
        ensures cluster { self.new.cluster ≡ self.old.cluster }
        ensures shut { self.new.shut ≡ self.old.shut }
        ensures stopped { self.new.stopped ≡ true }
    {
        self.stopped = true;
        AskFault {
            kind: FaultKind::Failed,
            step: AskStep::Turn,
        }
    }

    /// That it is shut and nothing is under way, if so.
    pub fn at_rest(&self) -> Option<AtRest>
        ensures rests { OnSome result (IsAtRest self.now.shut self.now.cluster.history) }
        ensures goes_on { IfNone result (¬ IsAtRest self.now.shut self.now.cluster.history) }
    {
        if self.shut && self.cluster.front().quiet() {
            return Some(AtRest { seen: () });
        }
        None
    }

    /// Whether a packet is under way, or no turn is made any more: whoever brings packets has something to do.
    pub fn has_packets(&self) -> bool {
        self.stopped || self.cluster.front().packets() != 0
    }

    /// Whether a packet is under way, a layer could be taken, or no turn is made any more: a hand that is free has something to
    /// do.
    pub fn has_work(&self) -> bool {
        self.has_packets() || self.may_take()
    }

    /// Whether a connection can do no more than wait until another hand has settled the layer that it has.
    pub fn waits_for_layer(&self, conn: ConnId) -> bool {
        let front = self.cluster.front();
        front.is_out() && !self.has_work() && front.waits(conn).is_none()
    }

    /// Gives back what is kept back for turns.
    pub fn let_reserve_go(&mut self)
        ensures { (self.new.cluster ≡ self.old.cluster) × (self.new.shut ≡ self.old.shut) × (self.new.stopped ≡ self.old.stopped) }
    {
        self.reserve = Vec::new(*self.reserve.allocator());
    }

    /// How many requests were submitted.
    pub fn requests(&self) -> u64
        ensures { result ≡ submits self.now.cluster.history.steps }
    {
        self.cluster.requests()
    }

    /// How far it is.
    pub fn sight(&self) -> Sight
        ensures { IsSight self.now.cluster.history result }
    {
        Sight {
            requests: self.cluster.requests(),
            steps: self.cluster.count(),
            starved: self.cluster.starved(),
        }
    }

    /// Shuts: no one sits or asks any more.
    pub fn shut(&mut self)
        ensures shut { self.new.shut ≡ true }
        ensures stopped { self.new.stopped ≡ self.old.stopped }
        ensures rest { self.new.cluster ≡ self.old.cluster }
    {
        self.shut = true;
    }

    /// Takes a seat back, and closes its connection, where a step may be made and there is memory for it.
    pub fn stand(&mut self, seat: Seat<T, L>)
        ensures stood { self.new.cluster.stood ≡ self.old.cluster.stood + 1 }
        ensures back { self.new.cluster.back ≡ self.old.cluster.back + seat.count }
        ensures closed { IsMade self.old.cluster.history (Step.Close seat.conn) Made self.new.cluster.history
            ⊎ StaysOpen seat.conn self.old.cluster.history self.new.cluster.history }
        ensures shut { self.new.shut ≡ self.old.shut }
        ensures stopped { self.new.stopped ≡ self.old.stopped }
    {
        self.cluster.stand(seat);
    }

    /// What is told of the cluster when it is closed beside this store.
    pub fn close(&mut self, store: &SerialStore<T, RunsOf<L>>) -> Result<Closing, CloseFault>
        ensures closed { IfOk result (Closes T.table self.old.cluster store.now) }
        ensures refused { IfErr result (λ fault. RefusesClose self.old.stopped self.old.cluster store.now fault.kind) }
        ensures same { self.new ≡ self.old }
    {
        if self.stopped || store.has_failed() {
            return Err(CloseFault {
                kind: CloseKind::Failed,
            });
        }
        self.cluster.lawful();
        match self.cluster.closing(store) {
            Ok(closing) => Ok(closing),
            Err(fault) => Err(CloseFault {
                kind: of_cluster(fault),
            }),
        }
    }

    /// Appends the text of the trace, where one is kept of which nothing was handed on, and says whether it is.
    pub fn write_trace(&self, out: &mut Vec<u8>) -> Result<bool, AllocError>
        ensures written { IfOk result (λ kept. Writes self.now.cluster.history out.old.items kept out.new.items) }
        ensures unchanged { OnErr result (out.new.items ≡ out.old.items) }
    {
        self.cluster.lawful();
        let Some(trace) = self.cluster.trace() else {
            return Ok(false);
        };
        write_trace(trace, out)?;
        Ok(true)
    }

    /// The text of the trace, to be made in pieces, where one is kept.
    pub fn trace_stream(&self) -> Option<TraceStream<T, L>>
        ensures max { IfSome result (λ stream. stream.max ≡ self.now.cluster.history.max_steps) }
        ensures steps { IfSome result (λ stream. stream.steps ≡ []) }
        ensures none { IfNone result (self.now.cluster.history.trace ≡ None) }
    {
        match self.cluster.trace_max() {
            Some(max) => Some(TraceStream::new(max)),
            None => None,
        }
    }

    /// Hands on a piece of the trace, where one is kept. The only error is want of memory, which changes nothing.
    pub fn hand_on(&mut self) -> Result<Option<Piece<T, L>>, AllocError>
        ensures handed { IfOk result (λ piece. IfSome piece (λ p. HandsOn self.old.cluster.history p self.new.cluster.history)) }
        ensures none { IfOk result (λ piece. IfNone piece (self.old.cluster.history.trace ≡ None)) }
        ensures unchanged { OnErr result (self.new ≡ self.old) }
        ensures rest { (self.new.shut ≡ self.old.shut) × (self.new.stopped ≡ self.old.stopped) }
    {
        self.cluster.hand_on()
    }

    /// Keeps no trace any more.
    pub fn forget_trace(&mut self)
        ensures none { self.new.cluster.history.trace ≡ None }
        ensures rest { (self.new.shut ≡ self.old.shut) × (self.new.stopped ≡ self.old.stopped) }
    {
        self.cluster.forget_trace();
    }

    /// Whether so much is kept of the trace that whoever asks waits until it was handed on.
    pub fn is_behind(&self) -> bool
        ensures { IsTrue result ↔ (TRACE_AHEAD < place_of self.now.cluster.history.trace) }
    {
        self.cluster.trace_size() > TRACE_AHEAD
    }
}

/// Why a submit isn't made that the cluster refuses, of a request in an open list or of another one.
fn refused(step: AskStep, listed: bool, fault: StepFault) -> AskFault
    ensures { (result.step ≡ step) × (result.kind ≡ told_in listed fault) }
{
    AskFault {
        kind: told_in(listed, fault),
        step,
    }
}
