//! A cluster beside its store, used by one thread, which follows a script.

use crate::words::{
    MEMORY, Step, at, away, closed, done, fault, first_word, number, number_of, reply_text,
    request_of, word,
};
use cluster::{Cluster, First, Ran, RunsOf, Seat, Server, Taken, run_taken};
use groups::{ConnId, GroupId, Groups, RequestId, Stamp};
use journal::write_trace;
use layer_planner::{Job, Layer};
use serial_store::{SerialStore, Tabled};
use shard_workers::{InTurn, OpenGate};
use std::alloc::Global;
use std::num::NonZeroUsize;
use std::process::Abort;
use worded::Worded;

/// How many turns are made at most until something comes.
const TURNS: u32 = 10_000;

/// The cluster and its store, who sits there, each at the place of its connection's number, and a layer that was handed
/// out, or what came of it.
#[derive(Drop)]
pub(crate) struct Scene<T: Tabled, L: Server> {
    alloc: Global,
    cluster: Cluster<T, L>,
    store: SerialStore<T, RunsOf<L>>,
    seats: Vec<Option<Seat<T, L>>>,
    taken: Vec<Taken<T, L>>,
    ran: Vec<Ran<T, L>>,
    handed: u64,
}

/// What a script leaves: how many requests were handed out where they were submitted, and the trace, which is empty where
/// none is kept.
#[derive(Drop)]
pub(crate) struct Left {
    pub handed: u64,
    pub trace: Vec<u8>,
}

impl<T: Tabled, L: Server> Scene<T, L> {
    /// Nobody sits there yet.
    pub(crate) fn new(
        alloc: Global,
        cluster: Cluster<T, L>,
        store: SerialStore<T, RunsOf<L>>,
    ) -> Self {
        Scene {
            alloc,
            cluster,
            store,
            seats: Vec::new(alloc),
            taken: Vec::new(alloc),
            ran: Vec::new(alloc),
            handed: 0,
        }
    }

    /// Makes the steps, each of which is answered as is wanted. Gives what is left.
    pub(crate) fn follow(mut self, rt: &impl Abort, steps: &[Step]) -> Left {
        for step in steps {
            let answered = self.answer(rt, step.said());
            step.is_answered(rt, answered.as_str());
        }
        let mut trace = Vec::new(self.alloc);
        if let Some(kept) = self.cluster.trace() {
            done(rt, "the trace is written", write_trace(kept, &mut trace));
        }
        Left {
            handed: self.handed,
            trace,
        }
    }

    /// Makes a step, and says what is answered: what came of it, or the name of the fault for which it is refused.
    fn answer(&mut self, rt: &impl Abort, said: &str) -> String {
        let (name, rest) = first_word(said);
        match name {
            "sit" => self.sit(rt),
            "submit" => self.submit(rt, rest),
            "pass" => self.pass(rt, rest),
            "take" => self.take(rt),
            "layer" => self.layer(rt),
            "run" => self.run(rt),
            "settle" => self.settle(rt),
            "finish" => self.finish(rt, rest),
            "end" => self.end(rt, rest),
            "collect" => self.collect(rt, rest),
            "reply" => self.reply(rt, rest),
            "ask" => self.ask(rt, rest),
            "stand" => self.stand(rt, rest),
            "close" => closed(rt, self.alloc, &self.cluster.closing(&self.store)),
            _ => self.count(rt, name, rest),
        }
    }

    /// Makes a step that is answered by a number.
    fn count(&mut self, rt: &impl Abort, name: &str, rest: &str) -> String {
        let count = match name {
            "turn" => u64::from(self.deliver(rt)),
            "drain" => self.drain(rt),
            "bring" => self.bring(rt),
            "rest" => self.rest(rt),
            "stray" => self.stray(rt, number_of(rt, rest) as u64),
            "steps" => self.cluster.count(),
            "packets" => self.cluster.front().packets() as u64,
            "clock" => self.cluster.front().clock(GroupId::new(1)),
            "floor" => at(rt, &mut self.seats, rest).floor(),
            "requests" => at(rt, &mut self.seats, rest).count(),
            _ => panic!(rt; "no step is named {name}"),
        };
        number(rt, self.alloc, count)
    }

    /// Somebody sits: the number of the connection, from 1.
    fn sit(&mut self, rt: &impl Abort) -> String {
        match self.cluster.sit() {
            Ok(seat) => {
                let conn = seat.conn().0;
                done(rt, "a seat is kept", self.seats.push(Some(seat)));
                number(rt, self.alloc, conn)
            }
            Err(why) => fault(rt, self.alloc, &why),
        }
    }

    /// `CONN WORD ..` is submitted: the request's number at its connection.
    fn submit(&mut self, rt: &impl Abort, words: &str) -> String {
        let (conn, words) = first_word(words);
        let request = request_of(rt, self.alloc, words);
        let seat = at(rt, &mut self.seats, conn);
        let id = done(rt, words, self.cluster.submit(seat, request));
        number(rt, self.alloc, id.seq)
    }

    /// `CONN WORD ..` is passed: whether it is handed out, and how many steps that made.
    fn pass(&mut self, rt: &impl Abort, words: &str) -> String {
        let (conn, words) = first_word(words);
        let request = request_of(rt, self.alloc, words);
        let seat = at(rt, &mut self.seats, conn);
        let before = self.cluster.count();
        let place = match done(rt, words, self.cluster.pass(seat, request)) {
            Some(taken) => {
                self.handed = self.handed.saturating_add(1);
                self.hold(rt, taken);
                "out"
            }
            None => "in",
        };
        let made = self.cluster.count().saturating_sub(before);
        done(rt, MEMORY, format!(in self.alloc; "{place} {made}"))
    }

    /// A layer is out, as the only one.
    fn hold(&mut self, rt: &impl Abort, taken: Taken<T, L>) {
        assert!(rt;
            self.taken.is_empty() && self.ran.is_empty(),
            "two layers are out"
        );
        done(rt, "a layer is kept", self.taken.push(taken));
    }

    /// The next layer is taken: how many requests it has.
    fn take(&mut self, rt: &impl Abort) -> String {
        match self.cluster.take() {
            Ok(taken) => {
                let count = taken.layer().len() as u64;
                self.hold(rt, taken);
                number(rt, self.alloc, count)
            }
            Err(why) => fault(rt, self.alloc, &why),
        }
    }

    /// How many requests the layer has that is out, and the first of them: `CONN.SEQ at CLOCK.GROUP`.
    fn layer(&self, rt: &impl Abort) -> String {
        let layer = self.taken.first().expect(rt, "a layer is out").layer();
        let job = layer.jobs().first().expect(rt, "it has a request");
        let (len, conn, seq) = (layer.len(), job.id.conn.0, job.id.seq);
        let (clock, group) = (job.stamp.clock, job.stamp.group.number());
        let text = format!(in self.alloc; "{len}: {conn}.{seq} at {clock}.{group}");
        done(rt, MEMORY, text)
    }

    /// The layer that is out is run: how many requests that has come of; or it is refused for good.
    fn run(&mut self, rt: &impl Abort) -> String {
        let taken = self.taken.pop().expect(rt, "a layer is out");
        match run_taken(
            &mut self.store,
            taken,
            &InTurn(NonZeroUsize::MIN),
            &OpenGate,
        ) {
            Ok(ran) => {
                let count = ran.done().rows().len() as u64;
                done(rt, "what came of it is kept", self.ran.push(ran));
                number(rt, self.alloc, count)
            }
            Err(None) => word(rt, self.alloc, "refused"),
            Err(Some(_)) => panic!(rt; "the layer is given back"),
        }
    }

    /// What came of the layer is settled.
    fn settle(&mut self, rt: &impl Abort) -> String {
        let ran = self.ran.pop().expect(rt, "a layer was run");
        done(rt, "the layer is settled", self.cluster.settle(ran));
        word(rt, self.alloc, "settled")
    }

    /// What came of the layer is settled and collected at a connection by one call: the text of the reply, or that it is
    /// given back.
    fn finish(&mut self, rt: &impl Abort, conn: &str) -> String {
        let ran = self.ran.pop().expect(rt, "a layer was run");
        let seat = at(rt, &mut self.seats, conn);
        match self.cluster.finish(seat, ran) {
            Ok(sealed) => reply_text(rt, self.alloc, sealed.open()),
            Err(ran) => {
                done(rt, "what came of it is kept", self.ran.push(ran));
                word(rt, self.alloc, "given back")
            }
        }
    }

    /// Brings what a connection has asked to its end: where its layer is out it is run, and settled and collected by one call;
    /// else packets come until none is under way, and what is ready then is run and settled. The text of the reply.
    fn end(&mut self, rt: &impl Abort, conn: &str) -> String {
        if self.taken.is_empty() {
            let _packets = self.drain(rt);
            let _layers = self.bring(rt);
            return self.reply(rt, conn);
        }
        let _count = self.run(rt);
        self.finish(rt, conn)
    }

    /// Collects at a connection: the text of the reply, if an outcome is there.
    fn collect(&mut self, rt: &impl Abort, conn: &str) -> String {
        let seat = at(rt, &mut self.seats, conn);
        match done(rt, "collecting", self.cluster.collect(seat)) {
            Some(sealed) => reply_text(rt, self.alloc, sealed.open()),
            None => word(rt, self.alloc, "nothing"),
        }
    }

    /// Makes turns until the connection's outcome is there: the text of its reply.
    fn reply(&mut self, rt: &impl Abort, conn: &str) -> String {
        for _ in 0..TURNS {
            let collected = self.collect(rt, conn);
            if collected.as_str() != "nothing" {
                return collected;
            }
            assert!(rt; self.advance(rt), "no outcome comes");
        }
        panic!(rt; "turns are made on and on")
    }

    /// Submits `CONN WORD ..`, and makes turns until its outcome is there: the text of its reply.
    fn ask(&mut self, rt: &impl Abort, words: &str) -> String {
        let _number = self.submit(rt, words);
        self.reply(rt, first_word(words).0)
    }

    /// Makes a turn: brings a layer through, or else a packet to its group. Says whether there was one.
    fn advance(&mut self, rt: &impl Abort) -> bool {
        self.bring(rt) == 1 || self.deliver(rt)
    }

    /// Brings the oldest packet to its group. Says whether there was one.
    fn deliver(&mut self, rt: &impl Abort) -> bool {
        done(rt, "a packet comes", self.cluster.turn(&First))
    }

    /// Runs and settles the layer that is out, or else the next one that is ready. How many there were.
    fn bring(&mut self, rt: &impl Abort) -> u64 {
        let taken = match self.taken.pop() {
            Some(taken) => taken,
            None if self.cluster.front().has_ready() => done(rt, "taken", self.cluster.take()),
            None => return 0,
        };
        let workers = InTurn(NonZeroUsize::MIN);
        let ran = run_taken(&mut self.store, taken, &workers, &OpenGate);
        let ran = done(rt, "the layer is run", ran);
        done(rt, "the layer is settled", self.cluster.settle(ran));
        1
    }

    /// Packets come until none is under way. How many there were.
    fn drain(&mut self, rt: &impl Abort) -> u64 {
        for count in 0..TURNS {
            if !self.deliver(rt) {
                return u64::from(count);
            }
        }
        panic!(rt; "packets come on and on")
    }

    /// Makes turns until nothing is under way. How many there were.
    fn rest(&mut self, rt: &impl Abort) -> u64 {
        for count in 0..TURNS {
            if !self.advance(rt) {
                return u64::from(count);
            }
        }
        panic!(rt; "turns are made on and on")
    }

    /// Who has this connection stands.
    fn stand(&mut self, rt: &impl Abort, conn: &str) -> String {
        let seat = away(rt, &mut self.seats, conn);
        self.cluster.stand(seat);
        word(rt, self.alloc, "stood")
    }

    /// The store runs a layer of `SET a 2` that no front handed out, as the one of this number. How many it has run then.
    fn stray(&mut self, rt: &impl Abort, number: u64) -> u64 {
        let layer = layer_of_no_front(rt, self.alloc);
        assert!(rt; self.store.may_run(&layer), "it addresses other groups");
        let workers = InTurn(NonZeroUsize::MIN);
        let mut room = Vec::new(self.alloc);
        let ran = self
            .store
            .run(number, layer, &mut room, &[], &workers, &OpenGate);
        assert!(rt; ran.is_ok(), "the layer of no front is run");
        self.store.count()
    }
}

/// A layer of `SET a 2` that no front handed out.
fn layer_of_no_front(rt: &impl Abort, alloc: Global) -> Layer {
    let words = request_of(rt, alloc, "SET a 2");
    let job = Job {
        id: RequestId {
            conn: ConnId(7),
            seq: 1,
        },
        stamp: Stamp {
            clock: 100,
            group: GroupId::new(0),
        },
        groups: Groups::empty().with(GroupId::new(0)),
        asked: done(rt, "it is read", Worded::read(alloc, words)),
    };
    let mut jobs = Vec::new(alloc);
    done(rt, MEMORY, jobs.push(job));
    Layer::gather(jobs).expect(rt, "it is a layer")
}
