//! The router.

ghost use Rattle.std.specs.Prelude.{◌≡◌, ℕ, ◌==◌, cond, ◌<◌, ◌+◌, [], Some, None, false, true, IfOk, OnOk, OnErr, IfErr, IsSome, OnSome};
ghost use Rattle.std.specs.Prelude.{IfNone, ◌≢◌, option_map, option_copied};
ghost use Rattle.router.specs.Connection.{just_opened, with_standing};
ghost use Rattle.router.specs.Lists.{is_listing, is_open_list};
ghost use Rattle.router.specs.Router.{connection, session_at, is_open, waiting, pending_at, once_closed, once_settled, Changes, Collects, Closes};
ghost use Rattle.router.specs.declared.connection.Standing.{Standing};
ghost use Rattle.router.specs.Submitting.{Submits, IsRefused, IsIdle, IsIdleAt, TellsOf};
ghost use Rattle.router.specs.declared.submission.SubmitFault.{SubmitFault};
ghost use Rattle.router.specs.declared.connection.Connection.{Connection};
ghost use Rattle.placement.specs.Layout.{Layout};
ghost use Rattle.sessions.specs.Control.{control_in};
ghost use Rattle.sessions.specs.Session.{asks};
ghost use Rattle.sessions.specs.declared.session.Session.TheVariants.{Free, Listing};

use super::asking::{answered, ask_plain};
use super::connection::{Connection, Standing};
use super::listed::Listed;
use super::outcome::Outcome;
use super::submission::{NoConn, Submission, SubmitFault};
use groups::{ConnId, Groups, RequestId, Stamp};
use placement::Table;
use resp::Request;
use sessions::{Ask, Batch, Session, is_control};
use std::alloc::{AllocError, Global};
use std::collections::BTreeMap;
use std::marker::Model;
use std::mem;
use worded::Worded;

/// Connections, and the requests of each, are numbered from 1 to this, so that no number passes 64 bits.
pub const GREATEST_NUMBER: u64 = 1 << 62;

/// All connections and their requests. A contract sees how many connections were opened; each connection that is
/// kept: whether it is open, how many requests it has submitted, its floor, and how its request stands; and what each
/// connection remembers of its requests.
///
/// A connection that is closed and has nothing under way leaves nothing behind.
#[derive(Drop)]
pub struct Router {
    pub(super) alloc: Global,
    opened: u64,
    pub(super) kept: BTreeMap<u64, Connection>,
    lists: BTreeMap<u64, Listed>,
}

impl Model for Router {
    ghost use Rattle.std.specs.Coded.{codes};
    ghost use Rattle.resp.specs.contracts.reply.Reply as reply;
    ghost use Rattle.router.specs.Router.{RouterView};

    ghost Value = { RouterView };

    ghost coded = { Prim.hlevel (codes, reply.the_row.coded) };

    ghost view = { λ r. record { opened = r.opened; kept = r.kept.entries; lists = r.lists.entries } };
}

impl Router {
    /// No connection was opened yet.
    pub fn new(alloc: Global) -> Self
        ensures opened { result.opened ≡ 0 }
        ensures none { result.kept ≡ [] }
        ensures sessions { session_at result ≡ λ c. Free }
    {
        Router {
            alloc,
            opened: 0,
            kept: BTreeMap::new(alloc),
            lists: BTreeMap::new(alloc),
        }
    }

    /// Opens the next connection and gives its number. The only error is want of memory, which changes nothing.
    pub fn open(&mut self) -> Result<ConnId, AllocError>
        requires { self.old.opened < GREATEST_NUMBER }
        ensures number { IfOk result (λ c. c.0 ≡ self.old.opened + 1) }
        ensures opened { OnOk result (self.new.opened ≡ self.old.opened + 1) }
        ensures at { OnOk result ((d : ℕ) →
            connection self.new d ≡ cond (d == self.new.opened) (Some just_opened) (connection self.old d)) }
        ensures sessions { session_at self.new ≡ session_at self.old }
        ensures unchanged { OnErr result (self.new ≡ self.old) }
    {
        let number = self.opened + 1;
        let fresh = Connection {
            is_open: true,
            seq: 0,
            floor: 0,
            standing: Standing::Idle,
        };
        match self.kept.insert(number, fresh) {
            Ok(before) => {
                discard(before);
                self.opened = number;
                Ok(ConnId(number))
            }
            Err(refused) => {
                discard(refused);
                Err(AllocError)
            }
        }
    }

    /// A connection submits a request of these words. What it remembers says what comes of them: they have their outcome at
    /// once, or a batch is to be run. One that looks at no key is answered at once and addresses no group, and any other waits
    /// to be taken.
    ///
    /// Errors, with nothing changed: `NoConn`, the connection isn't open; `Busy`, it hasn't collected the outcome of
    /// its last request; `Memory`.
    pub fn submit(
        &mut self,
        table: &Table,
        conn: ConnId,
        words: Request,
    ) -> Result<Submission, SubmitFault>
        requires { (v : Connection) → connection self.old conn.0 ≡ Some v → v.seq < GREATEST_NUMBER }
        ensures submitted { IfOk result (λ s. Submits table.now conn.0 words self.old s self.new) }
        ensures refused { IfErr result (IsRefused (connection self.old conn.0)) }
        ensures unchanged { OnErr result (self.new ≡ self.old) }
    {
        let Idle { seq, floor } = self.idle(conn)?;
        let id = RequestId { conn, seq: seq + 1 };
        let Ok((standing, groups)) = self.ask(table, id, words) else {
            return Err(SubmitFault::Memory);
        };
        self.put(
            conn,
            Connection {
                is_open: true,
                seq: id.seq,
                floor,
                standing,
            },
        );
        Ok(Submission { id, floor, groups })
    }

    /// Whether the connection may submit: it is open and has collected the outcome of its last request. `Busy` and
    /// `NoConn` say why it may not.
    pub fn may_submit(&self, conn: ConnId) -> Result<(), SubmitFault>
        ensures may { OnOk result (IsIdle (connection self.now conn.0)) }
        ensures may_not { IfErr result (λ e. (e ≢ SubmitFault.Memory) × IsRefused (connection self.now conn.0) e) }
    {
        let Idle { seq: _, floor: _ } = self.idle(conn)?;
        Ok(())
    }

    /// Whether requests are added to a list that is open on the connection. It takes no memory.
    pub fn has_list(&self, conn: ConnId) -> bool
        ensures { result ≡ is_listing (session_at self.now conn.0) }
    {
        match self.lists.get(&conn.0) {
            Some(listed) => listed.is_listing(),
            None => false,
        }
    }

    /// The batch of a request that waits to be taken; none where this request doesn't. It takes no memory.
    pub fn batch(&self, id: RequestId) -> Option<&Batch>
        ensures { option_copied result ≡ option_map (λ asked. asked.batch) (pending_at (connection self.now id.conn.0) id.seq) }
    {
        let connection = self.kept.get(&id.conn.0)?;
        match &connection.standing {
            Standing::Waiting(asked) if connection.seq == id.seq => Some(asked.batch()),
            _ => None,
        }
    }

    /// Takes out what a request asks that waits to be taken; none where this request doesn't. It takes no memory.
    pub fn take(&mut self, id: RequestId) -> Option<Worded>
        ensures taken { result ≡ pending_at (connection self.old id.conn.0) id.seq }
        ensures changes { OnSome result ((v : Connection) × (connection self.old id.conn.0 ≡ Some v)
            × Changes self.old self.new id.conn.0 (Some (with_standing v Standing.Taken))) }
        ensures unchanged { IfNone result (self.new ≡ self.old) }
    {
        self.batch(id)?;
        let connection = self.kept.get_mut(&id.conn.0)?;
        let Standing::Waiting(asked) = mem::replace(&mut connection.standing, Standing::Taken)
        else {
            unreachable!()
        };
        Some(asked)
    }

    /// A request that was taken has its outcome. It goes to its connection, whose floor is now the clock of the
    /// request's stamp. Where the connection was closed, the outcome is dropped, and the router forgets the connection.
    /// It takes no memory.
    // Inlined, so that an outcome is moved once.
    #[inline(always)]
    pub fn settle(&mut self, stamp: Stamp, outcome: Outcome)
        requires { (v : Connection) × (connection self.old outcome.id.conn.0 ≡ Some v) }
        ensures { (v : Connection) × (connection self.old outcome.id.conn.0 ≡ Some v)
            × Changes self.old self.new outcome.id.conn.0 (once_settled v stamp.clock outcome) }
    {
        let conn = outcome.id.conn;
        let Some(connection) = self.kept.get_mut(&conn.0) else {
            unreachable!()
        };
        if connection.is_open {
            connection.floor = stamp.clock;
            discard(mem::replace(&mut connection.standing, Standing::Answered(outcome)));
        } else {
            self.forget(conn);
            discard(outcome);
        }
    }

    /// The outcome that waits to be collected, left in place. It takes no memory.
    pub fn waits(&self, conn: ConnId) -> Option<&Outcome>
        ensures { option_copied result ≡ waiting self.now conn.0 }
    {
        match &self.kept.get(&conn.0)?.standing {
            Standing::Answered(outcome) => Some(outcome),
            _ => None,
        }
    }

    /// A connection collects the outcome of its request, if it is there, and may then submit again. It takes no memory.
    // Inlined, so that an outcome is moved once.
    #[inline(always)]
    pub fn collect(&mut self, conn: ConnId) -> Result<Option<Outcome>, NoConn>
        ensures collected { IfOk result (λ given. Collects self.old conn.0 given self.new) }
        ensures refused { OnErr result (is_open (connection self.old conn.0) ≡ false) }
        ensures unchanged { OnErr result (self.new ≡ self.old) }
    {
        let Some(connection) = self.kept.get(&conn.0) else {
            return Err(NoConn);
        };
        if !connection.is_open {
            return Err(NoConn);
        }
        let Standing::Answered(_) = &connection.standing else {
            return Ok(None);
        };
        let Some(connection) = self.kept.get_mut(&conn.0) else {
            unreachable!()
        };
        match mem::replace(&mut connection.standing, Standing::Idle) {
            Standing::Answered(outcome) => Ok(Some(outcome)),
            _ => unreachable!(),
        }
    }

    /// Closes a connection. A request of it that is under way still runs, and its outcome is dropped, as a list is that is
    /// open. It takes no memory.
    pub fn close(&mut self, conn: ConnId) -> Result<(), NoConn>
        ensures closed { OnOk result (Closes self.old conn.0 self.new) }
        ensures refused { OnErr result (is_open (connection self.old conn.0) ≡ false) }
        ensures unchanged { OnErr result (self.new ≡ self.old) }
    {
        if !self.is_open(conn) {
            return Err(NoConn);
        }
        self.shut(conn);
        self.drop_list(conn);
        Ok(())
    }

    /// Whether the connection is open.
    pub fn is_open(&self, conn: ConnId) -> bool
        ensures { result ≡ is_open (connection self.now conn.0) }
    {
        match self.kept.get(&conn.0) {
            Some(connection) => connection.is_open,
            None => false,
        }
    }

    /// What is known of an open connection that may submit.
    pub(super) fn idle(&self, conn: ConnId) -> Result<Idle, SubmitFault>
        ensures idle { IfOk result (IsIdleAt (connection self.now conn.0)) }
        ensures refused { IfErr result (λ e. (e ≢ SubmitFault.Memory) × IsRefused (connection self.now conn.0) e) }
    {
        let Some(connection) = self.kept.get(&conn.0) else {
            return Err(SubmitFault::NoConn);
        };
        if !connection.is_open {
            return Err(SubmitFault::NoConn);
        }
        match &connection.standing {
            Standing::Idle => Ok(Idle {
                seq: connection.seq,
                floor: connection.floor,
            }),
            _ => Err(SubmitFault::Busy),
        }
    }

    /// What comes of a request of these words, and what its connection remembers then. The only error is want of memory,
    /// which changes nothing.
    fn ask(
        &mut self,
        table: &Table,
        id: RequestId,
        words: Request,
    ) -> Result<(Standing, Groups), AllocError>
        ensures opened { self.new.opened ≡ self.old.opened }
        ensures kept { self.new.kept ≡ self.old.kept }
        ensures told { IfOk result (TellsOf table.now id (asks (session_at self.old id.conn.0) words).1) }
        ensures sessions { OnOk result ((d : ℕ) →
            session_at self.new d ≡ cond (d == id.conn.0) (asks (session_at self.old id.conn.0) words).0 (session_at self.old d)) }
        ensures unchanged { OnErr result (self.new ≡ self.old) }
    {
        if self.has_open_list(id.conn) {
            return self.ask_listed(table, id, words);
        }
        // `len` is called for its clause that there is a word.
        let _words = words.len();
        if is_control(words.word(0)) {
            self.ask_control(id, words)
        } else {
            ask_plain(self.alloc, table, id, words)
        }
    }

    /// Whether a list is open on the connection, spoilt or not.
    pub(super) fn has_open_list(&self, conn: ConnId) -> bool
        ensures { result ≡ is_open_list (session_at self.now conn.0) }
    {
        match self.lists.get(&conn.0) {
            Some(listed) => listed.is_open(),
            None => false,
        }
    }

    /// What comes of a request of a connection whose list is open. The only error is want of memory, which changes nothing.
    fn ask_listed(
        &mut self,
        table: &Table,
        id: RequestId,
        words: Request,
    ) -> Result<(Standing, Groups), AllocError>
        requires { is_open_list (session_at self.old id.conn.0) ≡ true }
        ensures opened { self.new.opened ≡ self.old.opened }
        ensures kept { self.new.kept ≡ self.old.kept }
        ensures told { IfOk result (TellsOf table.now id (asks (session_at self.old id.conn.0) words).1) }
        ensures sessions { OnOk result ((d : ℕ) →
            session_at self.new d ≡ cond (d == id.conn.0) (asks (session_at self.old id.conn.0) words).0 (session_at self.old d)) }
        ensures unchanged { OnErr result (self.new ≡ self.old) }
    {
        let Some(listed) = self.lists.get_mut(&id.conn.0) else {
            unreachable!()
        };
        let told = listed.ask(self.alloc, table, id, words)?;
        if !listed.is_open() {
            self.drop_list(id.conn);
        }
        Ok(told)
    }

    /// What comes of a request of one of the three names of a list, of a connection on which none is open. The only error is
    /// want of memory, which changes nothing.
    fn ask_control(
        &mut self,
        id: RequestId,
        words: Request,
    ) -> Result<(Standing, Groups), AllocError>
        requires none { is_open_list (session_at self.old id.conn.0) ≡ false }
        requires control { IsSome (control_in words) }
        ensures opened { self.new.opened ≡ self.old.opened }
        ensures kept { self.new.kept ≡ self.old.kept }
        ensures told { (table : Layout) → IfOk result (TellsOf table id (asks (session_at self.old id.conn.0) words).1) }
        ensures sessions { OnOk result ((d : ℕ) →
            session_at self.new d ≡ cond (d == id.conn.0) (asks (session_at self.old id.conn.0) words).0 (session_at self.old d)) }
        ensures unchanged { OnErr result (self.new ≡ self.old) }
    {
        let mut session = Session::new();
        match session.take(self.alloc, words) {
            Ok(Ask::Now(reply)) => {
                if let Session::Listing(_) = &session {
                    self.open_list(id.conn, session)?;
                }
                Ok((answered(id, reply), Groups::empty()))
            }
            Ok(Ask::Go(_)) => unreachable!(),
            Err(_) => Err(AllocError),
        }
    }

    /// The connection remembers a list without members from now on. The only error is want of memory, which changes nothing.
    fn open_list(&mut self, conn: ConnId, session: Session) -> Result<(), AllocError>
        requires { session ≡ Listing [] }
        ensures opened { self.new.opened ≡ self.old.opened }
        ensures kept { self.new.kept ≡ self.old.kept }
        ensures sessions { OnOk result ((d : ℕ) → session_at self.new d ≡ cond (d == conn.0) (Listing []) (session_at self.old d)) }
        ensures unchanged { OnErr result (self.new ≡ self.old) }
    {
        let listed = Listed::new(self.alloc, session);
        match self.lists.insert(conn.0, listed) {
            Ok(before) => {
                discard(before);
                Ok(())
            }
            Err(refused) => {
                discard(refused);
                Err(AllocError)
            }
        }
    }

    /// A connection that is open is closed, but for its list.
    fn shut(&mut self, conn: ConnId)
        requires { is_open (connection self.old conn.0) ≡ true }
        ensures { (v : Connection) × (connection self.old conn.0 ≡ Some v) × (v.is_open ≡ true)
            × Changes self.old self.new conn.0 (once_closed v) }
    {
        let Some(connection) = self.kept.get_mut(&conn.0) else {
            unreachable!()
        };
        if connection.standing.is_under_way() {
            connection.is_open = false;
        } else {
            self.forget(conn);
        }
    }

    /// The connection remembers no list from now on. It takes no memory.
    fn drop_list(&mut self, conn: ConnId)
        ensures opened { self.new.opened ≡ self.old.opened }
        ensures kept { self.new.kept ≡ self.old.kept }
        ensures sessions { (d : ℕ) → session_at self.new d ≡ cond (d == conn.0) Free (session_at self.old d) }
    {
        discard(self.lists.remove(&conn.0));
    }

    /// Puts this in the place of a connection that is kept, and gives what was there.
    fn replace(&mut self, conn: ConnId, now: Connection) -> Connection
        requires { IsSome (connection self.old conn.0) }
        ensures was { connection self.old conn.0 ≡ Some result }
        ensures changes { Changes self.old self.new conn.0 (Some now) }
    {
        match self.kept.get_mut(&conn.0) {
            Some(connection) => mem::replace(connection, now),
            None => unreachable!(),
        }
    }

    /// Puts this in the place of a connection that is kept.
    pub(super) fn put(&mut self, conn: ConnId, now: Connection)
        requires { IsSome (connection self.old conn.0) }
        ensures { Changes self.old self.new conn.0 (Some now) }
    {
        discard(self.replace(conn, now));
    }

    /// Keeps a connection no longer.
    fn forget(&mut self, conn: ConnId)
        ensures { Changes self.old self.new conn.0 None }
    {
        discard(self.kept.remove(&conn.0));
    }
}

/// What is known of an open connection that may submit: how many requests it has submitted, and its floor.
#[derive(Clone, Copy)]
pub(super) struct Idle {
    pub(super) seq: u64,
    pub(super) floor: u64,
}

/// Lets a value go. What that takes for each kind of command is seen here alone.
pub(super) fn discard<T: Drop>(_value: T) {}
