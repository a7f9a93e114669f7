//! A client of the store: what its connection remembers, beside the store on which its requests are run.

ghost use Rattle.std.specs.Prelude.{◌≡◌};
ghost use Rattle.solo.specs.Connection.{Asks};

use crate::fault::ConnectionFault;
use crate::store::Solo;
use resp::{Reply, Request};
use resp_decoder::Ahead;
use serving::{Door, DoorFault};
use sessions::{Ask, Batch, Session};
use std::hash::BuildHasher;

/// A connection's session, and the store.
#[derive(Drop)]
pub(crate) struct Client<'a, S: BuildHasher> {
    pub solo: &'a mut Solo<S>,
    pub session: &'a mut Session,
}

impl<'a, S: BuildHasher> Door for Client<'a, S> {
    type Reason = ConnectionFault;

    ghost asks = { λ old words answer new. (new.solo.ghost_name ≡ old.solo.ghost_name)
        × Asks (old.session.now, old.solo.now) words answer (new.session.now, new.solo.now) };

    fn ask(&mut self, request: Request) -> Result<Reply, DoorFault<ConnectionFault>> {
        if self.session.is_plain(&request) {
            return self.solo.ask_plain(request);
        }
        match self.session.take(self.solo.alloc(), request) {
            Err(_) => Err(DoorFault::Ended(ConnectionFault::NoMemory)),
            Ok(Ask::Now(reply)) => Ok(reply),
            Ok(Ask::Go(Batch::Plain(command))) => self.solo.ask_command(command),
            Ok(Ask::Go(Batch::Exec(members))) => Ok(self.solo.run_batch(Batch::Exec(members), &[])),
        }
    }

    fn expect(&self, ahead: Ahead<'_>) {
        self.solo.read_ahead(ahead);
    }
}
