//! Requests that are submitted and taken at once.

ghost use Rattle.std.specs.Prelude.{◌≡◌, ◌≤◌, ◌<◌, ◌+◌, [], ℕ, List, Some, None, Ok, false, IfOk, IfErr, OnErr, vec_capacity};
ghost use Rattle.command_table.specs.Reading.{reading};
ghost use Rattle.command_table.specs.declared.command.Command.TheVariants.{Local};
ghost use Rattle.command_table.specs.declared.local_commands.LocalCommand.TheVariants.{Ping};
ghost use Rattle.placement.specs.Layout.{Layout};
ghost use Rattle.resp.specs.Content.{content};
ghost use Rattle.router.specs.Connection.{with_standing};
ghost use Rattle.router.specs.Router.{connection, Changes};
ghost use Rattle.router.specs.Submitting.{AreAlone, IsIdleAt, IsRefused, SubmitsAndTakes, TellsOf};
ghost use Rattle.router.specs.declared.connection.Connection.{Connection};
ghost use Rattle.router.specs.declared.connection.Standing.TheVariants.{Answered, Idle as Bare, Taken, Waiting};
ghost use Rattle.router.specs.declared.router.TheConstants.{GREATEST_NUMBER};
ghost use Rattle.sessions.specs.Session.{asks, Go};
ghost use Rattle.sessions.specs.declared.session.Session.TheVariants.{Free};
ghost use Rattle.tasks.specs.AtOnce.{IsKeyedBatch};
ghost use Rattle.tasks.specs.Keys.{looks_at_keys};
ghost use Rattle.tasks.specs.Tasks.{task_groups};
ghost use Rattle.worded.specs.Faults.{IsFault};

use super::asking::{answered, is_ping};
use super::connection::{Connection, Standing};
use super::router::{Idle, Router, discard};
use super::submission::{Submission, SubmitFault};
use command_table::LocalCommand;
use groups::{ConnId, Groups, RequestId};
use placement::Table;
use resp::{Reply, Request};
use sessions::is_control;
use std::mem;
use tasks::{answer_at_once, local, task_groups};
use worded::{Worded, WordedFault};

impl Router {
    /// A connection submits a request of these words, as by `submit`. What it asks is taken, as by `take`, where it waits, and put
    /// into `taken`, in which there is room. The copy of the words lies in the buffer, where one is made: another, without memory,
    /// takes its place.
    ///
    /// The errors are those of `submit`, and change nothing.
    pub fn submit_and_take(
        &mut self,
        table: &Table,
        conn: ConnId,
        words: Request,
        buffer: &mut Vec<u8>,
        taken: &mut Vec<Worded>,
    ) -> Result<Submission, SubmitFault>
        requires few { (v : Connection) → connection self.old conn.0 ≡ Some v → v.seq < GREATEST_NUMBER }
        requires room { (taken.old.items ≡ []) × (1 ≤ vec_capacity taken.old) }
        ensures submitted { IfOk result (λ s. SubmitsAndTakes table.now conn.0 words self.old s taken.new.items self.new) }
        ensures refused { IfErr result (IsRefused (connection self.old conn.0)) }
        ensures unchanged { OnErr result ((self.new ≡ self.old) × (taken.new.items ≡ [])) }
    {
        let idle = self.idle(conn)?;
        // `len` is called for its clause that there is a word.
        let _words = words.len();
        if self.has_open_list(conn) || is_control(words.word(0)) {
            return self.submit_then_take(table, conn, words, taken);
        }
        if is_ping(&words) {
            return Ok(self.answer_ping(conn, idle));
        }
        let buffer = mem::replace(buffer, Vec::new(self.alloc));
        let asked = match Worded::read_into(buffer, words) {
            Ok(asked) => asked,
            Err(fault) => return self.refuse(conn, idle, fault),
        };
        // `shards` is called for its clause that the table is one.
        let _shards = table.shards();
        let groups = task_groups(table, asked.batch());
        if groups.is_empty() {
            return self.answer_keyless(conn, idle, asked);
        }
        let Idle { seq, floor } = idle;
        let id = RequestId { conn, seq: seq + 1 };
        self.hand_over(id);
        taken.push_reserved(asked);
        Ok(Submission { id, floor, groups })
    }

    /// What was taken of a connection's request waits again. It takes no memory.
    pub fn put_back(&mut self, conn: ConnId, asked: Worded)
        requires { (v : Connection) × (connection self.old conn.0 ≡ Some v) }
        ensures { (v : Connection) × (connection self.old conn.0 ≡ Some v)
            × Changes self.old self.new conn.0 (Some (with_standing v (Waiting asked))) }
    {
        let Some(connection) = self.kept.get_mut(&conn.0) else {
            unreachable!()
        };
        discard(mem::replace(&mut connection.standing, Standing::Waiting(asked)));
    }

    /// A request is submitted, and what it asks is taken.
    // A call, since few requests come here: those of a list.
    #[inline(never)]
    fn submit_then_take(
        &mut self,
        table: &Table,
        conn: ConnId,
        words: Request,
        taken: &mut Vec<Worded>,
    ) -> Result<Submission, SubmitFault>
        requires few { (v : Connection) → connection self.old conn.0 ≡ Some v → v.seq < GREATEST_NUMBER }
        requires room { (taken.old.items ≡ []) × (1 ≤ vec_capacity taken.old) }
        ensures submitted { IfOk result (λ s. SubmitsAndTakes table.now conn.0 words self.old s taken.new.items self.new) }
        ensures refused { IfErr result (IsRefused (connection self.old conn.0)) }
        ensures unchanged { OnErr result ((self.new ≡ self.old) × (taken.new.items ≡ [])) }
    {
        let sent = self.submit(table, conn, words)?;
        if let Some(asked) = self.take(sent.id) {
            taken.push_reserved(asked);
        }
        Ok(sent)
    }

    /// PING without a word is answered.
    // A call, as above.
    #[inline(never)]
    fn answer_ping(&mut self, conn: ConnId, idle: Idle) -> Submission
        requires idle { IsIdleAt (connection self.old conn.0) idle }
        requires few { idle.seq < GREATEST_NUMBER }
        ensures { (t : Layout) (words : List (List ℕ)) → AreAlone self.old conn.0 words → reading words ≡ Ok (Local (Ping None))
            → SubmitsAndTakes t conn.0 words self.old result [] self.new }
    {
        self.answer(conn, idle, local(LocalCommand::Ping { word: None }))
    }

    /// Words that can't be read are answered with why. The only error is want of memory.
    // A call, as above.
    #[inline(never)]
    fn refuse(
        &mut self,
        conn: ConnId,
        idle: Idle,
        fault: WordedFault,
    ) -> Result<Submission, SubmitFault>
        requires idle { IsIdleAt (connection self.old conn.0) idle }
        requires few { idle.seq < GREATEST_NUMBER }
        ensures answered { (t : Layout) (words : List (List ℕ)) → AreAlone self.old conn.0 words → IsFault words fault
            → IfOk result (λ s. SubmitsAndTakes t conn.0 words self.old s [] self.new) }
        ensures refused { IfErr result (IsRefused (connection self.old conn.0)) }
        ensures unchanged { OnErr result (self.new ≡ self.old) }
    {
        match fault {
            WordedFault::Refused(refusal) => {
                Ok(self.answer(conn, idle, Reply::Error(refusal.text())))
            }
            WordedFault::Memory => Err(SubmitFault::Memory),
        }
    }

    /// A batch that looks at no key is answered. The only error is want of memory.
    // A call, as above.
    #[inline(never)]
    fn answer_keyless(
        &mut self,
        conn: ConnId,
        idle: Idle,
        asked: Worded,
    ) -> Result<Submission, SubmitFault>
        requires idle { IsIdleAt (connection self.old conn.0) idle }
        requires few { idle.seq < GREATEST_NUMBER }
        requires keyed { IsKeyedBatch asked.batch }
        requires keyless { looks_at_keys asked.batch ≡ false }
        ensures answered { (t : Layout) (words : List (List ℕ)) → AreAlone self.old conn.0 words → (asks Free words).1 ≡ Go asked.batch
            → task_groups t asked.batch ≡ [] → IfOk result (λ s. SubmitsAndTakes t conn.0 words self.old s [] self.new) }
        ensures refused { IfErr result (IsRefused (connection self.old conn.0)) }
        ensures unchanged { OnErr result (self.new ≡ self.old) }
    {
        let (_, batch) = asked.into_parts();
        match answer_at_once(self.alloc, batch) {
            Ok(reply) => Ok(self.answer(conn, idle, reply)),
            Err(_) => Err(SubmitFault::Memory),
        }
    }

    /// The next request of a connection has its outcome at once: this reply.
    fn answer(&mut self, conn: ConnId, idle: Idle, reply: Reply) -> Submission
        requires idle { IsIdleAt (connection self.old conn.0) idle }
        requires few { idle.seq < GREATEST_NUMBER }
        ensures { (t : Layout) (words : List (List ℕ)) → AreAlone self.old conn.0 words
            → TellsOf t result.id (asks Free words).1 (Answered (record { id = result.id; reply = reply; stamp = None }), [])
            → SubmitsAndTakes t conn.0 words self.old result [] self.new }
    {
        let Idle { seq, floor } = idle;
        let id = RequestId { conn, seq: seq + 1 };
        let groups = Groups::empty();
        self.put(
            conn,
            Connection {
                is_open: true,
                seq: id.seq,
                floor,
                standing: answered(id, reply),
            },
        );
        Submission { id, floor, groups }
    }

    /// The next request of an idle connection is out. It takes no memory.
    // Inlined, since it has one caller.
    #[inline(always)]
    fn hand_over(&mut self, id: RequestId)
        requires { (v : Connection) × (connection self.old id.conn.0 ≡ Some v) × (v.standing ≡ Bare) }
        ensures { (v : Connection) × (connection self.old id.conn.0 ≡ Some v) × Changes self.old self.new id.conn.0
            (Some (record { is_open = v.is_open; seq = id.seq; floor = v.floor; standing = Taken })) }
    {
        let Some(connection) = self.kept.get_mut(&id.conn.0) else {
            unreachable!()
        };
        connection.seq = id.seq;
        // Of an idle connection there is nothing to let go.
        mem::forget(mem::replace(&mut connection.standing, Standing::Taken));
    }
}
