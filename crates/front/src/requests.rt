//! Requests that are submitted, and packets that come to their groups or are repeated.

ghost use Rattle.std.specs.Prelude.{◌≡◌, ◌≤◌, ◌<◌, length, Some, IfOk, IfErr, OnOk, OnErr};
ghost use Rattle.front.specs.Making.{Makes};
ghost use Rattle.front.specs.Refusing.{IsFault, MayStep};
ghost use Rattle.journal.specs.declared.step.Step.{Step};
ghost use Rattle.multicast.specs.Multicast.{IsSame};
ghost use Rattle.router.specs.Router.{connection};
ghost use Rattle.router.specs.Submitting.{IsRefused, Submits};
ghost use Rattle.router.specs.declared.connection.Connection.{Connection};
ghost use Rattle.router.specs.declared.router.TheConstants.{GREATEST_NUMBER};
ghost use Rattle.world.specs.Steps.{Submitted, Made};

use super::fault::FrontFault;
use super::front::Front;
use groups::{ConnId, RequestId};
use multicast::Multicast;
use placement::Table;
use resp::Request;
use router::{Router, Submission, SubmitFault};

impl Front {
    /// A connection submits a request of these words, and has its id; a Start goes to each of the request's groups.
    ///
    /// Errors, with nothing changed: `NoConn`, the connection isn't open; `Busy`, it hasn't collected the outcome of its last
    /// request; `Memory`.
    // A call, so that `make` is small where it is inlined.
    #[inline(never)]
    pub fn submit(&mut self, conn: ConnId, words: Request) -> Result<RequestId, FrontFault>
        requires { MayStep self.old }
        ensures made { IfOk result (λ id. Makes self.old (Step.Submit conn words) (Submitted id) self.new) }
        ensures refused { IfErr result (IsFault self.old (Step.Submit conn words)) }
        ensures unchanged { OnErr result (self.new ≡ self.old) }
    {
        let sent = submit_with_room(
            &self.table,
            &mut self.router,
            &mut self.multicast,
            conn,
            words,
        )?;
        self.multicast.start(sent.id, sent.floor, sent.groups);
        self.steps += 1;
        Ok(sent.id)
    }

    /// The packet at this place of those under way, counted from 0 in order of sending, comes to its group.
    ///
    /// Errors, with nothing changed: `NoPacket`, no packet is at this place; `Memory`.
    // A call, so that `make` is small where it is inlined.
    #[inline(never)]
    pub fn deliver(&mut self, place: u64) -> Result<(), FrontFault>
        requires { MayStep self.old }
        ensures made { OnOk result (Makes self.old (Step.Deliver place) Made self.new) }
        ensures refused { IfErr result (IsFault self.old (Step.Deliver place)) }
        ensures unchanged { OnErr result (self.new ≡ self.old) }
    {
        self.multicast.deliver(place as usize)?;
        self.steps += 1;
        Ok(())
    }

    /// A link repeats the packet at this place of those under way: a copy of it goes behind all of them.
    ///
    /// Errors, with nothing changed: `NoPacket`, no packet is at this place; `Memory`.
    // A call, so that `make` is small where it is inlined.
    #[inline(never)]
    pub fn repeat(&mut self, place: u64) -> Result<(), FrontFault>
        requires { MayStep self.old }
        ensures made { OnOk result (Makes self.old (Step.Repeat place) Made self.new) }
        ensures refused { IfErr result (IsFault self.old (Step.Repeat place)) }
        ensures unchanged { OnErr result (self.new ≡ self.old) }
    {
        self.multicast.repeat(place as usize)?;
        self.steps += 1;
        Ok(())
    }
}

/// The router submits a request of these words, and there is room for a Start to each of its groups. A refusal changes nothing but the
/// room.
fn submit_with_room(
    table: &Table,
    router: &mut Router,
    multicast: &mut Multicast,
    conn: ConnId,
    words: Request,
) -> Result<Submission, SubmitFault>
    requires { (v : Connection) → connection router.old conn.0 ≡ Some v → v.seq < GREATEST_NUMBER }
    ensures submitted { IfOk result (λ sent. Submits table.now conn.0 words router.old sent router.new) }
    ensures room { IfOk result (λ sent. length sent.groups ≤ multicast.new.room) }
    ensures same { IsSame multicast.old multicast.new }
    ensures refused { IfErr result (IsRefused (connection router.old conn.0)) }
    ensures unchanged { OnErr result (router.new ≡ router.old) }
{
    let groups = usize::from(table.shards());
    let Ok(()) = multicast.reserve(groups) else {
        return Err(unsent(router, conn));
    };
    router.submit(table, conn, words)
}

/// Why a connection submits nothing where there is no memory: what the connection itself is refused for comes first.
pub(super) fn unsent(router: &Router, conn: ConnId) -> SubmitFault
    ensures { IsRefused (connection router.now conn.0) result }
{
    match router.may_submit(conn) {
        Ok(()) => SubmitFault::Memory,
        Err(refused) => refused,
    }
}
