//! What stands behind a connection: its seat at the shared cluster.

ghost use Rattle.std.specs.Prelude.{◌≡◌, IfOk, IfErr};
ghost use Rattle.resp.specs.Content.{content};
ghost use Rattle.shared_cluster.specs.Asks.{IsReplied, IsAskFault};

use crate::fault::FaultKind;
use crate::held::AskFault;
use crate::long_work::Asked;
use crate::shared::Shared;
use cluster::{SealedReply, Seat, Server};
use resp::{Reply, Request};
use serial_store::Tabled;
use serving::{Door, DoorFault};
use std::sync::Wait;
use std::time::Clock;

/// Who makes the turns that a request needs.
#[derive(Clone, Copy, Debug, PartialEq, Eq)]
pub enum Turns {
    /// The thread that asks.
    Own,
    /// The thread that asks, but for requests that combine whole sets, EXECs among them: a thread that drives the cluster
    /// makes theirs, with workers that may run several at once.
    Driver,
}

/// A seat at a shared cluster, which asks what its connection requests.
///
/// A request for which there is no memory is answered so, and the connection goes on; but where it was to be a member of
/// an open list, or is refused otherwise, the connection ends.
#[derive(Drop)]
pub struct Desk<'a, T: Tabled, L: Server, R: Wait + Clock> {
    rt: &'a R,
    shared: &'a Shared<T, L>,
    seat: Seat<T, L>,
    turns: Turns,
    asked: Asked,
}

impl<'a, T: Tabled, L: Server, R: Wait + Clock> Desk<'a, T, L, R> {
    /// The desk of this seat, whose requests are brought on by those who make the turns.
    pub fn new(rt: &'a R, shared: &'a Shared<T, L>, seat: Seat<T, L>, turns: Turns) -> Self
        ensures seat { result.seat ≡ seat }
        ensures turns { result.turns ≡ turns }
    {
        Desk {
            rt,
            shared,
            seat,
            turns,
            asked: Asked::nothing(),
        }
    }

    /// Asks, and has those make the turns who are to.
    fn asked(&mut self, request: Request) -> Result<SealedReply, AskFault>
        ensures replied { IfOk result (λ r. IsReplied T.table self.old.seat request (content r.reply) self.new.seat) }
        ensures refused { IfErr result (λ fault. IsAskFault self.old.seat request fault self.new.seat) }
    {
        self.shared.wait_for_trace(self.rt);
        if self.is_for_driver(request.word(0)) {
            self.shared.rest(self.rt, &self.seat);
            return self.shared.ask(self.rt, &mut self.seat, request);
        }
        self.shared.ask_turning(self.rt, &mut self.seat, request)
    }

    /// Whether the turns of a request of this name, which is asked now, are left to the thread that drives.
    fn is_for_driver(&mut self, name: &[u8]) -> bool
        ensures { self.new.seat ≡ self.old.seat }
    {
        self.turns == Turns::Driver && self.asked.combines_sets(name)
    }

    /// The seat, given back.
    pub fn into_seat(self) -> Seat<T, L>
        ensures { result ≡ self.entry.seat }
    {
        self.seat
    }
}

impl<'a, T: Tabled, L: Server, R: Wait + Clock> Door for Desk<'a, T, L, R> {
    ghost use Rattle.shared_cluster.specs.Desks.{Asks};

    type Reason = AskFault;

    ghost asks = { λ old words answer new. Asks T.table old.seat words answer new.seat };

    fn ask(&mut self, request: Request) -> Result<Reply, DoorFault<AskFault>> {
        match self.asked(request) {
            Ok(sealed) => Ok(sealed.open()),
            Err(fault) => match fault.kind() {
                FaultKind::Memory => Err(DoorFault::Memory),
                _ => Err(DoorFault::Ended(fault)),
            },
        }
    }

    fn rest(&self) {
        self.shared.rest(self.rt, &self.seat);
    }
}
