//! What a thread that asks does, beside one that drives the cluster, or making the turns itself.

ghost use Rattle.std.specs.Prelude.{◌≡◌, ◌⊎◌, true, IfOk, IfErr, IfSome, IfNone, OnOk, OnErr, OnSome};
ghost use Rattle.resp.specs.Content.{content};
ghost use Rattle.shared_cluster.specs.Asks.{HasSubmitted, IsCollected, IsReplied, IsSubmitFault, IsCollectFault, IsAskFault};
ghost use Rattle.shared_cluster.specs.Hands.{HasTurned, HoldsRun, IsUncollected, LooksInVain, HasBegun, Answers, Gives};
ghost use Rattle.shared_cluster.specs.declared.hand.Hand.{Hand};

use crate::hand::{Hand, HandOf, Run};
use crate::held::{AskFault, Held, Next};
use crate::long_work::takes_long;
use crate::shared::{Shared, Turn};
use cluster::{First, Ran, SealedReply, Seat, Server, Taken};
use groups::ConnId;
use resp::Request;
use serial_store::Tabled;
use server_waiting::Pause;
use shard_workers::{InTurn, OpenGate};
use std::mem;
use std::num::NonZeroUsize;
use std::sync::Wait;
use std::time::Clock;

/// What came of a request in the holding of the lock in which it was submitted.
#[derive(Drop)]
pub(crate) enum Begun<A, B> {
    /// Its reply was there at once.
    Replied(SealedReply),
    /// It is under way, and this is in the hand of who asks.
    Waits(Hand<A, B>),
}

/// The same of a request of this cluster.
pub(crate) type BegunOf<T, L> = Begun<Taken<T, L>, Ran<T, L>>;

/// What came of settling.
#[derive(Drop)]
pub(crate) enum Settled<B> {
    /// There was no memory for it: it is given back.
    Starved(B),
    /// It was settled, and this was there for who settled it.
    Gives(Option<SealedReply>),
}

impl<T: Tabled, L: Server> Shared<T, L> {
    /// Submits a request of these words, and waits until another thread that drives the cluster has brought what came of it. It gives
    /// the reply, sealed.
    pub fn ask<R: Wait + Clock>(
        &self,
        rt: &R,
        seat: &mut Seat<T, L>,
        words: Request,
    ) -> Result<SealedReply, AskFault>
        ensures replied { IfOk result (λ r. IsReplied T.table seat.old words (content r.reply) seat.new) }
        ensures refused { IfErr result (λ fault. IsAskFault seat.old words fault seat.new) }
    {
        match self.submit(rt, seat, words) {
            Ok(()) => {
                self.wake_workers();
                self.wait(rt, seat)
            }
            Err(fault) => Err(fault),
        }
    }

    /// Submits a request of these words, and makes turns until what came of it is there. It gives the reply alone, as it was
    /// collected. Each turn brings the oldest packet on, or a layer with one worker. Other threads that ask so wait until this
    /// seat rests or stands.
    pub fn ask_turning<R: Wait + Clock>(
        &self,
        rt: &R,
        seat: &mut Seat<T, L>,
        words: Request,
    ) -> Result<SealedReply, AskFault>
        ensures replied { IfOk result (λ r. IsReplied T.table seat.old words (content r.reply) seat.new) }
        ensures refused { IfErr result (λ fault. IsAskFault seat.old words fault seat.new) }
    {
        self.turnstile.enter(rt, seat.conn());
        match self.submit_and_begin(rt, seat, words) {
            Ok(Begun::Replied(reply)) => Ok(reply),
            Ok(Begun::Waits(Hand::Taken(taken))) => self.run_until_replied(rt, seat, taken),
            Ok(Begun::Waits(hand)) => self.turn_until_replied(rt, seat, hand),
            Err(fault) => Err(fault),
        }
    }

    /// Submits a request of these words.
    fn submit<R: Wait>(&self, rt: &R, seat: &mut Seat<T, L>, words: Request) -> Result<(), AskFault>
        ensures submitted { OnOk result (HasSubmitted seat.old words seat.new) }
        ensures refused { IfErr result (IsSubmitFault seat.old words) }
        ensures unchanged { OnErr result (seat.new ≡ seat.old) }
    {
        self.front.lock(rt).submit(seat, words)
    }

    /// Submits a request of these words, and gives what came of it where it is there at once, as that of a refused one is; else brings
    /// packets to their groups until the next layer is taken. All in one holding of the lock.
    fn submit_and_begin<R: Wait>(
        &self,
        rt: &R,
        seat: &mut Seat<T, L>,
        words: Request,
    ) -> Result<BegunOf<T, L>, AskFault>
        ensures begun { IfOk result (λ begun. Answers T.table seat.old words begun seat.new) }
        ensures refused { IfErr result (λ fault. IsAskFault seat.old words fault seat.new) }
    {
        self.submit_or_begin(&mut self.front.lock(rt), seat, words)
    }

    /// The same behind the lock.
    fn submit_or_begin(
        &self,
        held: &mut Held<T, L>,
        seat: &mut Seat<T, L>,
        words: Request,
    ) -> Result<BegunOf<T, L>, AskFault>
        ensures begun { IfOk result (λ begun. Answers T.table seat.old words begun seat.new) }
        ensures refused { IfErr result (λ fault. IsAskFault seat.old words fault seat.new) }
    {
        match held.pass(seat, words) {
            Ok(Some(taken)) => return Ok(Begun::Waits(Hand::Taken(taken))),
            Ok(None) => self.note_trace(held),
            Err(fault) => return Err(fault),
        }
        match self.collect_or_begin(held, seat) {
            Ok(begun) => Ok(begun),
            Err(fault) => {
                self.wake_all();
                Err(fault)
            }
        }
    }

    /// Collects what came of the seat's last request, where it is there; else begins with the next layer.
    fn collect_or_begin(
        &self,
        held: &mut Held<T, L>,
        seat: &mut Seat<T, L>,
    ) -> Result<BegunOf<T, L>, AskFault>
        ensures begun { IfOk result (λ begun. HasBegun T.table seat.old begun seat.new) }
        ensures refused { IfErr result (IsCollectFault seat.old) }
        ensures unchanged { OnErr result (seat.new ≡ seat.old) }
    {
        match collect_there(held, seat) {
            Ok(Some(reply)) => return Ok(Begun::Replied(reply)),
            Ok(None) => {}
            Err(fault) => return Err(fault),
        }
        match self.turn_or_retry(held, &First) {
            Ok(Next::Taken(layer)) => Ok(Begun::Waits(Hand::Taken(layer))),
            Ok(_) => Ok(Begun::Waits(Hand::Free)),
            Err(fault) => Err(fault),
        }
    }

    /// Waits until what came of the seat's last request is there.
    fn wait<R: Wait + Clock>(&self, rt: &R, seat: &mut Seat<T, L>) -> Result<SealedReply, AskFault>
        ensures replied { IfOk result (λ r. IsCollected T.table seat.old (content r.reply) seat.new) }
        ensures refused { IfErr result (IsCollectFault seat.old) }
        ensures unchanged { OnErr result (seat.new ≡ seat.old) }
    {
        let mut pause = Pause::new();
        let mut held = self.front.lock(rt);
        for _ in rt.forever() {
            match held.collect(seat) {
                Ok(Some(reply)) => return Ok(reply),
                Ok(None) => {}
                Err(fault) => return Err(fault),
            }
            if held.cluster.front().waits(seat.conn()).is_none() {
                held = self.done.wait(rt, seat.conn(), held);
                continue;
            }
            // There was no memory to collect it.
            drop(held);
            pause.sleep(rt);
            held = self.front.lock(rt);
        }
        unreachable!()
    }

    /// Runs this layer, settles what came of it, and collects what came of the seat's last request, where it is there then. Else turns
    /// are made until it is.
    fn run_until_replied<R: Wait + Clock>(
        &self,
        rt: &R,
        seat: &mut Seat<T, L>,
        taken: Taken<T, L>,
    ) -> Result<SealedReply, AskFault>
        ensures replied { IfOk result (λ r. IsCollected T.table seat.old (content r.reply) seat.new) }
        ensures refused { IfErr result (IsCollectFault seat.old) }
        ensures unchanged { OnErr result (seat.new ≡ seat.old) }
    {
        if takes_long(taken.layer()) {
            return self.turn_from_taken(rt, seat, taken);
        }
        let ran = match self.run_in_store(rt, taken, &InTurn(NonZeroUsize::MIN), &OpenGate) {
            Run::Handed(ran) => ran,
            Run::Starved(taken) => return self.turn_from_taken(rt, seat, taken),
            Run::Refused(why) => {
                let fault = self.front.lock(rt).stop(why);
                self.wake_all();
                return Err(fault);
            }
        };
        match self.settle_then_collect(rt, seat, ran) {
            Ok(Settled::Gives(Some(reply))) => Ok(reply),
            Ok(Settled::Gives(None)) => self.turn_from_free(rt, seat),
            Ok(Settled::Starved(ran)) => self.turn_from_run(rt, seat, ran),
            Err(fault) => {
                self.wake_all();
                Err(fault)
            }
        }
    }

    /// Makes turns, from this layer on, until what came of the seat's last request is there.
    // A call, as are the next two, since it is rare: their caller has no room to fill for a hand.
    #[inline(never)]
    fn turn_from_taken<R: Wait + Clock>(
        &self,
        rt: &R,
        seat: &mut Seat<T, L>,
        taken: Taken<T, L>,
    ) -> Result<SealedReply, AskFault>
        ensures replied { IfOk result (λ r. IsCollected T.table seat.old (content r.reply) seat.new) }
        ensures refused { IfErr result (IsCollectFault seat.old) }
        ensures unchanged { OnErr result (seat.new ≡ seat.old) }
    {
        self.turn_until_replied(rt, seat, Hand::Taken(taken))
    }

    /// The same from what came of a layer.
    #[inline(never)]
    fn turn_from_run<R: Wait + Clock>(
        &self,
        rt: &R,
        seat: &mut Seat<T, L>,
        ran: Ran<T, L>,
    ) -> Result<SealedReply, AskFault>
        ensures replied { IfOk result (λ r. IsCollected T.table seat.old (content r.reply) seat.new) }
        ensures refused { IfErr result (IsCollectFault seat.old) }
        ensures unchanged { OnErr result (seat.new ≡ seat.old) }
    {
        self.turn_until_replied(rt, seat, Hand::HasRun(ran))
    }

    /// The same with a hand that is free.
    #[inline(never)]
    fn turn_from_free<R: Wait + Clock>(
        &self,
        rt: &R,
        seat: &mut Seat<T, L>,
    ) -> Result<SealedReply, AskFault>
        ensures replied { IfOk result (λ r. IsCollected T.table seat.old (content r.reply) seat.new) }
        ensures refused { IfErr result (IsCollectFault seat.old) }
        ensures unchanged { OnErr result (seat.new ≡ seat.old) }
    {
        self.turn_until_replied(rt, seat, Hand::Free)
    }

    /// Makes turns until what came of the seat's last request is there. It is collected by a hand that is free, and looked for at
    /// once where it may wait.
    fn turn_until_replied<R: Wait + Clock>(
        &self,
        rt: &R,
        seat: &mut Seat<T, L>,
        hand: HandOf<T, L>,
    ) -> Result<SealedReply, AskFault>
        ensures replied { IfOk result (λ r. IsCollected T.table seat.old (content r.reply) seat.new) }
        ensures refused { IfErr result (IsCollectFault seat.old) }
        ensures unchanged { OnErr result (seat.new ≡ seat.old) }
    {
        let mut hand = hand;
        let mut may_wait = false;
        let mut pause = Pause::new();
        for _ in rt.forever() {
            match self.turn_or_collect(rt, seat, &mut hand, &mut may_wait, &mut pause) {
                Ok(Some(reply)) => return Ok(reply),
                Ok(None) => {}
                Err(fault) => {
                    self.wake_all();
                    return Err(fault);
                }
            }
        }
        unreachable!()
    }

    /// Collects what came of the seat's last request, or makes a turn where it isn't there or the hand isn't free.
    ///
    /// It is looked for where it may wait: it is there at once, or comes with a Settle. Where another thread made that
    /// Settle it is found once there is nothing to do, or after the next one that is made here.
    fn turn_or_collect<R: Wait + Clock>(
        &self,
        rt: &R,
        seat: &mut Seat<T, L>,
        hand: &mut HandOf<T, L>,
        may_wait: &mut bool,
        pause: &mut Pause,
    ) -> Result<Option<SealedReply>, AskFault>
        ensures replied { IfOk result (λ reply. IfSome reply (λ r. IsCollected T.table seat.old (content r.reply) seat.new)) }
        ensures free { IfOk result (λ reply. OnSome reply (hand.new ≡ Hand.Free)) }
        ensures turned { IfOk result (λ reply. OnSome reply ((hand.old ≡ Hand.Free) ⊎ HasTurned T.table hand.old hand.new)) }
        ensures unasked { IfOk result (λ reply. IfNone reply (seat.new ≡ seat.old)) }
        ensures goes_on { IfOk result (λ reply. IfNone reply (LooksInVain seat.old hand.old hand.new ⊎ HasTurned T.table hand.old hand.new)) }
        ensures refused { IfErr result (IsCollectFault seat.old) }
        ensures unchanged { OnErr result (seat.new ≡ seat.old) }
        ensures let_go { OnErr result (hand.new ≡ Hand.Free) }
    {
        if may_look(*may_wait, hand) {
            *may_wait = false;
            return self.look(rt, seat);
        }
        if hand.has_run() {
            return self.settle_and_collect(rt, seat, hand, pause);
        }
        self.pass(rt, seat.conn(), hand);
        let turn = match self.advance(rt, hand, &First, &InTurn(NonZeroUsize::MIN), &OpenGate) {
            Ok(turn) => turn,
            Err(fault) => return Err(fault),
        };
        *may_wait = turn != Turn::Made { settled: false };
        match turn {
            Turn::Made { .. } => pause.end(),
            Turn::Starved => self.let_others_pass(rt, seat.conn(), pause),
            Turn::Quiet => self.wait_for_layer(rt, seat.conn()),
        }
        Ok(None)
    }

    /// Settles what is in the hand, and collects what came of the seat's last request, if it is there then, in one holding of the lock.
    fn settle_and_collect<R: Wait + Clock>(
        &self,
        rt: &R,
        seat: &mut Seat<T, L>,
        hand: &mut HandOf<T, L>,
        pause: &mut Pause,
    ) -> Result<Option<SealedReply>, AskFault>
        requires { HoldsRun hand.old }
        ensures replied { IfOk result (λ reply. IfSome reply (λ r. IsCollected T.table seat.old (content r.reply) seat.new)) }
        ensures free { IfOk result (λ reply. OnSome reply (hand.new ≡ Hand.Free)) }
        ensures turned { OnOk result (HasTurned T.table hand.old hand.new) }
        ensures unasked { IfOk result (λ reply. IfNone reply (seat.new ≡ seat.old)) }
        ensures refused { IfErr result (IsCollectFault seat.old) }
        ensures unchanged { OnErr result (seat.new ≡ seat.old) }
        ensures let_go { OnErr result (hand.new ≡ Hand.Free) }
    {
        let Hand::HasRun(ran) = mem::replace(hand, Hand::Free) else {
            unreachable!()
        };
        match self.settle_then_collect(rt, seat, ran) {
            Ok(Settled::Starved(ran)) => {
                *hand = Hand::HasRun(ran);
                self.let_others_pass(rt, seat.conn(), pause);
                Ok(None)
            }
            Ok(Settled::Gives(reply)) => {
                pause.end();
                Ok(reply)
            }
            Err(fault) => Err(fault),
        }
    }

    /// Settles what came of a layer, and collects what came of the seat's last request, if it is there then, in one holding of the lock.
    fn settle_then_collect<R: Wait>(
        &self,
        rt: &R,
        seat: &mut Seat<T, L>,
        ran: Ran<T, L>,
    ) -> Result<Settled<Ran<T, L>>, AskFault>
        ensures settled { IfOk result (λ settled. Gives T.table ran seat.old settled seat.new) }
        ensures refused { IfErr result (IsCollectFault seat.old) }
        ensures unchanged { OnErr result (seat.new ≡ seat.old) }
    {
        let mut held = self.front.lock(rt);
        self.wake_outcomes(ran.done());
        self.settle_or_collect(&mut held, seat, ran)
    }

    /// Behind the lock: settles what came of a layer, and then collects what came of the seat's last request, if it is there. Both are
    /// one call where that is the layer.
    fn settle_or_collect(
        &self,
        held: &mut Held<T, L>,
        seat: &mut Seat<T, L>,
        ran: Ran<T, L>,
    ) -> Result<Settled<Ran<T, L>>, AskFault>
        ensures settled { IfOk result (λ settled. Gives T.table ran seat.old settled seat.new) }
        ensures refused { IfErr result (IsCollectFault seat.old) }
        ensures unchanged { OnErr result (seat.new ≡ seat.old) }
    {
        let ran = match held.finish(seat, ran) {
            Ok(reply) => {
                self.note_trace(held);
                self.wake_next(held);
                return Ok(Settled::Gives(Some(reply)));
            }
            Err(ran) => ran,
        };
        self.settle_and_look(held, seat, ran)
    }

    /// The same by a call for each.
    // A call, since it is rare.
    #[inline(never)]
    fn settle_and_look(
        &self,
        held: &mut Held<T, L>,
        seat: &mut Seat<T, L>,
        ran: Ran<T, L>,
    ) -> Result<Settled<Ran<T, L>>, AskFault>
        ensures settled { IfOk result (λ settled. Gives T.table ran seat.old settled seat.new) }
        ensures refused { IfErr result (IsCollectFault seat.old) }
        ensures unchanged { OnErr result (seat.new ≡ seat.old) }
    {
        let left = match self.settle_or_retry(held, ran) {
            Ok(left) => left,
            Err(fault) => return Err(fault),
        };
        match left {
            Some(ran) => Ok(Settled::Starved(ran)),
            None => match collect_there(held, seat) {
                Ok(reply) => Ok(Settled::Gives(reply)),
                Err(fault) => Err(fault),
            },
        }
    }

    /// Collects what came of the seat's last request, if it is there.
    fn look<R: Wait>(&self, rt: &R, seat: &mut Seat<T, L>) -> Result<Option<SealedReply>, AskFault>
        ensures replied { IfOk result (λ reply. IfSome reply (λ r. IsCollected T.table seat.old (content r.reply) seat.new)) }
        ensures none { IfOk result (λ reply. IfNone reply (IsUncollected seat.old)) }
        ensures unasked { IfOk result (λ reply. IfNone reply (seat.new ≡ seat.old)) }
        ensures refused { IfErr result (IsCollectFault seat.old) }
        ensures unchanged { OnErr result (seat.new ≡ seat.old) }
    {
        let mut held = self.front.lock(rt);
        collect_there(&mut held, seat)
    }

    /// Passes the turnstile, to take the next layer or bring a packet on; or leaves it before it runs a layer that takes long, so
    /// that those behind it submit, and the next layer has them all.
    fn pass<R: Wait>(&self, rt: &R, conn: ConnId, hand: &HandOf<T, L>) {
        match hand {
            Hand::Free => self.turnstile.enter(rt, conn),
            Hand::Taken(taken) if takes_long(taken.layer()) => self.turnstile.leave(rt, conn),
            Hand::Taken(_) | Hand::HasRun(_) => {}
        }
    }

    /// Sleeps where there was no memory for a turn, outside the turnstile, so that others are answered and may give
    /// theirs back.
    fn let_others_pass<R: Wait + Clock>(&self, rt: &R, conn: ConnId, pause: &mut Pause) {
        self.turnstile.leave(rt, conn);
        pause.sleep(rt);
        self.turnstile.enter(rt, conn);
    }

    /// Sleeps where there is nothing to do while another hand has the layer, outside the turnstile, so that others submit and
    /// the next layer has them all. Who settles wakes it.
    fn wait_for_layer<R: Wait>(&self, rt: &R, conn: ConnId) {
        self.turnstile.leave(rt, conn);
        let held = self.front.lock(rt);
        if held.waits_for_layer(conn) {
            drop(self.idle.wait(rt, conn, held));
        } else {
            drop(held);
        }
        self.turnstile.enter(rt, conn);
    }
}

/// Whether it may be looked for what came of a seat's request: it may wait, and nothing is in the hand.
fn may_look<A, B>(may_wait: bool, hand: &Hand<A, B>) -> bool
    ensures { result ≡ true → hand.now ≡ Hand.Free }
{
    may_wait && hand.is_free()
}

/// Collects what came of the seat's last request, if it is there.
fn collect_there<T: Tabled, L: Server>(
    held: &mut Held<T, L>,
    seat: &mut Seat<T, L>,
) -> Result<Option<SealedReply>, AskFault>
    ensures replied { IfOk result (λ reply. IfSome reply (λ r. IsCollected T.table seat.old (content r.reply) seat.new)) }
    ensures none { IfOk result (λ reply. IfNone reply (IsUncollected seat.old)) }
    ensures unasked { IfOk result (λ reply. IfNone reply (seat.new ≡ seat.old)) }
    ensures refused { IfErr result (IsCollectFault seat.old) }
    ensures unchanged { OnErr result (seat.new ≡ seat.old) }
{
    if held.has_no_outcome(seat.conn()) {
        return Ok(None);
    }
    held.collect(seat)
}
