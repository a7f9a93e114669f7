//! A thread at a shared cluster, which follows a script.

use crate::words::{
    MEMORY, Step, at, away, closed, done, fault, first_word, number, reply_text, request_of, word,
};
use cluster::{First, Seat, Server};
use resp_decoder::Limits;
use serial_store::Tabled;
use server::serve_desk;
use serving::{Door, ServeFault, Served};
use shard_workers::{InTurn, OpenGate};
use shared_cluster::{AskFault, CloseFault, CloseKind, Desk, Shared, Turns};
use std::alloc::Global;
use std::num::NonZeroUsize;
use std::process::Abort;
use std::sync::Wait;
use std::time::Clock;
use test_support::{NEVER, Sink, Source};

/// What a connection sends, in which pieces it is read and the replies are written, and which read and which write fail.
#[derive(Clone, Copy)]
pub(crate) struct Connection<'a> {
    pub sent: &'a [u8],
    pub piece: usize,
    pub most: usize,
    pub read: usize,
    pub write: usize,
}

impl<'a> Connection<'a> {
    /// A connection that sends nothing.
    pub(crate) const SILENT: Connection<'static> = Connection {
        sent: b"",
        piece: 1,
        most: 1,
        read: NEVER,
        write: NEVER,
    };

    /// A connection that sends this, of which no read and no write fails.
    pub(crate) fn new(sent: &'a [u8], piece: usize) -> Self {
        Connection {
            sent,
            piece,
            most: piece,
            read: NEVER,
            write: NEVER,
        }
    }
}

/// The cluster, who sits there and the desks there, each at the place of its connection's number, and the text that is
/// left: the trace, or the replies to a connection.
#[derive(Drop)]
pub(crate) struct Visit<'a, T: Tabled, L: Server, R: Abort + Wait + Clock> {
    rt: &'a R,
    alloc: Global,
    shared: &'a Shared<T, L>,
    seats: Vec<Option<Seat<T, L>>>,
    desks: Vec<Option<Desk<'a, T, L, R>>>,
    text: Vec<u8>,
}

impl<'a, T: Tabled, L: Server, R: Abort + Wait + Clock> Visit<'a, T, L, R> {
    /// Nobody sits there yet.
    pub(crate) fn new(rt: &'a R, alloc: Global, shared: &'a Shared<T, L>) -> Self {
        Visit {
            rt,
            alloc,
            shared,
            seats: Vec::new(alloc),
            desks: Vec::new(alloc),
            text: Vec::new(alloc),
        }
    }

    /// Makes the steps, each of which is answered as is wanted. Gives the text that is left.
    pub(crate) fn follow(mut self, steps: &[Step], connection: &Connection<'_>) -> Vec<u8> {
        for step in steps {
            let answered = self.answer(step.said(), connection);
            step.is_answered(self.rt, answered.as_str());
        }
        self.text
    }

    /// Makes a step, and says what is answered: what came of it, or the name of the fault for which it is refused.
    fn answer(&mut self, said: &str, connection: &Connection<'_>) -> String {
        let (name, rest) = first_word(said);
        match name {
            "sit" => self.sit(),
            "ask" => self.ask(rest),
            "stand" => self.stand(rest),
            "desk" => self.desk(),
            "at" => self.ask_at(rest),
            "leave" => self.leave(rest),
            "serve" => self.serve(connection),
            "drive" => self.drive(),
            "close" => self.close(),
            "sight" => self.sight(),
            "requests" => number(self.rt, self.alloc, self.requests(rest)),
            _ => word(self.rt, self.alloc, self.done(name, rest)),
        }
    }

    /// Makes a step that is answered by a word.
    fn done(&mut self, name: &str, rest: &str) -> &'static str {
        match name {
            "shut" => self.shut(),
            "keep" => self.keep(rest),
            "trace" => self.trace(),
            "stream" => self.stream(),
            _ => panic!(self.rt; "no step is named {name}"),
        }
    }

    /// Somebody sits: the number of the connection, from 1.
    fn sit(&mut self) -> String {
        match self.shared.sit(self.rt) {
            Ok(seat) => {
                let conn = seat.conn().0;
                done(self.rt, "a seat is kept", self.seats.push(Some(seat)));
                done(self.rt, "it is no desk", self.desks.push(None));
                number(self.rt, self.alloc, conn)
            }
            Err(why) => fault(self.rt, self.alloc, &why.kind()),
        }
    }

    /// Asks `CONN WORD ..` and makes the turns: the text of the reply.
    fn ask(&mut self, words: &str) -> String {
        let (conn, words) = first_word(words);
        let request = request_of(self.rt, self.alloc, words);
        let seat = at(self.rt, &mut self.seats, conn);
        match self.shared.ask_turning(self.rt, seat, request) {
            Ok(sealed) => reply_text(self.rt, self.alloc, sealed.open()),
            Err(why) => fault(self.rt, self.alloc, &why.kind()),
        }
    }

    /// Who has this connection stands.
    fn stand(&mut self, conn: &str) -> String {
        let seat = away(self.rt, &mut self.seats, conn);
        self.shared.stand(self.rt, seat);
        word(self.rt, self.alloc, "stood")
    }

    /// Somebody sits at a desk: the number of the connection, from 1.
    fn desk(&mut self) -> String {
        let seat = done(self.rt, "a seat is given", self.shared.sit(self.rt));
        let conn = seat.conn().0;
        let desk = Desk::new(self.rt, self.shared, seat, Turns::Own);
        done(self.rt, "a desk is kept", self.desks.push(Some(desk)));
        done(self.rt, "it is no seat", self.seats.push(None));
        number(self.rt, self.alloc, conn)
    }

    /// Asks `CONN WORD ..` at a desk, which lets others pass then: the text of the reply.
    fn ask_at(&mut self, words: &str) -> String {
        let (conn, words) = first_word(words);
        let request = request_of(self.rt, self.alloc, words);
        let desk = at(self.rt, &mut self.desks, conn);
        let answer = desk.ask(request);
        desk.rest();
        reply_text(self.rt, self.alloc, done(self.rt, words, answer))
    }

    /// Who has this connection stands, and leaves the desk.
    fn leave(&mut self, conn: &str) -> String {
        let desk = away(self.rt, &mut self.desks, conn);
        self.shared.stand(self.rt, desk.into_seat());
        word(self.rt, self.alloc, "stood")
    }

    /// Serves the connection at a desk of its own, as the server does: how that ended, and how many requests its seat has.
    /// The replies are left.
    fn serve(&mut self, connection: &Connection<'_>) -> String {
        let mut reader = Source::new(connection.sent, connection.piece);
        reader.fails_at = connection.read;
        let mut writer = Sink::new(self.alloc, connection.most);
        writer.fails_at = connection.write;
        let seat = done(self.rt, "a seat is given", self.shared.sit(self.rt));
        let mut desk = Desk::new(self.rt, self.shared, seat, Turns::Own);
        let ended = serve_desk(
            self.alloc,
            Limits::DEFAULT,
            &mut desk,
            &mut reader,
            &mut writer,
        );
        let seat = desk.into_seat();
        let count = seat.count();
        self.shared.stand(self.rt, seat);
        self.text = writer.taken;
        let ended = end_of(ended);
        done(self.rt, MEMORY, format!(in self.alloc; "{ended} {count}"))
    }

    /// Drives the cluster with one worker, until it is at rest.
    fn drive(&mut self) -> String {
        let workers = InTurn(NonZeroUsize::MIN);
        match self.shared.drive(self.rt, &First, &workers, &OpenGate) {
            Ok(_rest) => word(self.rt, self.alloc, "at rest"),
            Err(why) => fault(self.rt, self.alloc, &why.kind()),
        }
    }

    /// Closes the cluster: how it ends, or why it doesn't.
    fn close(&mut self) -> String {
        let ended = self.shared.close(self.rt);
        closed(self.rt, self.alloc, &ended.map_err(kind_of))
    }

    /// How far the cluster is: how many requests were submitted, how many steps made, and how many requests starved.
    fn sight(&mut self) -> String {
        let sight = self.shared.sight(self.rt);
        let (requests, steps, starved) = (sight.requests, sight.steps, sight.starved);
        let text = format!(in self.alloc; "{requests} requests, {steps} steps, {starved} starved");
        done(self.rt, MEMORY, text)
    }

    /// How many requests this connection has; or all, where none is named.
    fn requests(&mut self, conn: &str) -> u64 {
        if conn.is_empty() {
            return self.shared.requests(self.rt);
        }
        at(self.rt, &mut self.seats, conn).count()
    }

    /// Shuts the cluster.
    fn shut(&mut self) -> &'static str {
        self.shared.shut(self.rt);
        "shut"
    }

    /// Puts a word behind the text that is left.
    fn keep(&mut self, word: &str) -> &'static str {
        done(
            self.rt,
            MEMORY,
            self.text.extend_from_slice(word.as_bytes()),
        );
        "kept"
    }

    /// Puts the trace behind the text that is left, if one is kept.
    fn trace(&mut self) -> &'static str {
        let written = self.shared.write_trace(self.rt, &mut self.text);
        if done(self.rt, MEMORY, written) {
            "written"
        } else {
            "none"
        }
    }

    /// Streams the trace, if one is kept: whether that is the text that is left.
    fn stream(&mut self) -> &'static str {
        let Some(mut stream) = self.shared.trace_stream(self.rt) else {
            return "none";
        };
        let mut text = Vec::new(self.alloc);
        done(self.rt, "its head", stream.write_head(&mut text));
        done(
            self.rt,
            "its lines",
            stream.write_next(self.rt, self.shared, &mut text),
        );
        done(self.rt, "its end", stream.write_end(&mut text));
        if text.as_slice() == self.text.as_slice() {
            "the same"
        } else {
            "another"
        }
    }
}

/// Why a cluster isn't closed.
fn kind_of(fault: CloseFault) -> CloseKind {
    fault.kind()
}

/// How serving ended, as a word.
fn end_of(ended: Result<Served, ServeFault<AskFault>>) -> &'static str {
    match ended {
        Ok(Served::End) => "end",
        Ok(Served::Inside) => "inside",
        Ok(Served::Protocol(_)) => "protocol",
        Err(ServeFault::Read) => "read",
        Err(ServeFault::Write) => "write",
        Err(ServeFault::Memory) => "memory",
        Err(ServeFault::Door(_)) => "door",
    }
}
