//! Doors of the tests' own, and what stands before them: an echo, and those that see when a door rests, what it is told, and
//! when its replies are passed on.

use crate::tests::connections::{Outcome, WELL, comes, served_by};
use resp::{Reply, Request};
use resp_decoder::Ahead;
use serving::{Door, DoorFault};
use std::alloc::Global;
use std::cell::Cell;
use std::io;
use std::io::{ErrorKind, Read, Write};
use std::test::Fail;
use test_support::{NEVER, Sink, Source, bytes_of, same, same_count, same_number};

/// Answers a request by its last word. There is no memory for the word `big`, and the word `end` ends the connection.
#[derive(Drop)]
pub(crate) struct Echo {
    pub alloc: Global,
}

impl Door for Echo {
    type Reason = &'static str;

    ghost asks = { λ _ _ _ _. Unit {0} };

    fn ask(&mut self, request: Request) -> Result<Reply, DoorFault<&'static str>> {
        let last = request.word(request.len() - 1);
        match last {
            b"big" => Err(DoorFault::Memory),
            b"end" => Err(DoorFault::Ended("enough")),
            _ => match Vec::from_slice(self.alloc, last) {
                Ok(bytes) => Ok(Reply::Bulk(bytes)),
                Err(_) => Err(DoorFault::Memory),
            },
        }
    }
}

/// Keeps the bytes that it takes back until it is flushed, and says how many it has passed on.
#[derive(Drop)]
struct KeepsBack<'a> {
    taken: Vec<u8>,
    passed_on: &'a Cell<usize>,
}

impl Write for KeepsBack<'_> {
    fn write(&mut self, buf: &[u8]) -> io::Result<usize> {
        self.taken.extend_from_slice(buf)?;
        Ok(buf.len())
    }

    fn flush(&mut self) -> io::Result<()> {
        self.passed_on.set(self.taken.len());
        Ok(())
    }
}

/// Gives the same request a few times, each only once the reply to the one before it has come.
#[derive(Drop)]
struct WaitsForReply<'a> {
    request: &'a [u8],
    reply: usize,
    asked: usize,
    passed_on: &'a Cell<usize>,
}

impl Read for WaitsForReply<'_> {
    fn read(&mut self, buf: &mut [u8]) -> io::Result<usize> {
        let len = self.request.len();
        if self.passed_on.get() != self.asked.saturating_mul(self.reply) || buf.len() < len {
            return Err(ErrorKind::TimedOut.into());
        }
        if self.asked >= 5 {
            return Ok(0);
        }
        self.asked += 1;
        buf[..len].copy_from_slice(self.request);
        Ok(len)
    }
}

/// It ends well behind five requests, whose replies are all passed on.
fn all_came(ended: &Outcome, asked: usize, passed_on: usize) -> Result<(), Fail> {
    same("how it ends", ended, &WELL)?;
    same_count("requests", asked, 5)?;
    same_count("bytes that were passed on", passed_on, 35)
}

/// The request comes five times, each time once the reply to the one before it was passed on.
fn comes_behind_replies(
    alloc: Global,
    request: &[u8],
    passed_on: &Cell<usize>,
) -> Result<(), Fail> {
    let mut reader = WaitsForReply {
        request,
        reply: 7,
        asked: 0,
        passed_on,
    };
    let taken = Vec::new(alloc);
    let mut writer = KeepsBack { taken, passed_on };
    let ended = served_by(alloc, &mut reader, &mut writer, &mut Echo { alloc });
    all_came(&ended, reader.asked, passed_on.get())
}

#[test]
fn each_reply_is_passed_on_before_the_next_read(rt: HostRuntime) -> Result<(), Fail> {
    let request = bytes_of(rt.alloc(), "*1|$1|a|")?;
    comes_behind_replies(rt.alloc(), &request, &Cell::new(0))
}

/// Echoes, and rests where it is told to.
#[derive(Drop)]
struct Rests<'a> {
    echo: Echo,
    at_rest: &'a Cell<bool>,
}

impl Door for Rests<'_> {
    type Reason = &'static str;

    ghost asks = { λ _ _ _ _. Unit {0} };

    fn ask(&mut self, request: Request) -> Result<Reply, DoorFault<&'static str>> {
        self.at_rest.set(false);
        self.echo.ask(request)
    }

    fn rest(&self) {
        self.at_rest.set(true);
    }
}

/// Fails where the door is not at rest.
fn wants_rest(at_rest: &Cell<bool>) -> io::Result<()> {
    if at_rest.get() {
        Ok(())
    } else {
        Err(ErrorKind::TimedOut.into())
    }
}

/// Reads only while the door is at rest.
#[derive(Drop)]
struct RestedSource<'a, 'b> {
    inner: Source<'a>,
    at_rest: &'b Cell<bool>,
}

impl Read for RestedSource<'_, '_> {
    fn read(&mut self, buf: &mut [u8]) -> io::Result<usize> {
        wants_rest(self.at_rest)?;
        self.inner.read(buf)
    }
}

/// Writes only while the door is at rest.
#[derive(Drop)]
struct RestedSink<'a> {
    inner: Sink,
    at_rest: &'a Cell<bool>,
}

impl Write for RestedSink<'_> {
    fn write(&mut self, buf: &[u8]) -> io::Result<usize> {
        wants_rest(self.at_rest)?;
        self.inner.write(buf)
    }

    fn flush(&mut self) -> io::Result<()> {
        wants_rest(self.at_rest)?;
        self.inner.flush()
    }
}

/// The input is answered so where the door rests before each read and each write.
fn comes_rested(
    alloc: Global,
    input: &[u8],
    wanted: &[u8],
    at_rest: &Cell<bool>,
) -> Result<(), Fail> {
    let inner = Source::new(input, 15);
    let mut reader = RestedSource { inner, at_rest };
    let inner = Sink::new(alloc, NEVER);
    let mut writer = RestedSink { inner, at_rest };
    let echo = Echo { alloc };
    let mut door = Rests { echo, at_rest };
    let ended = served_by(alloc, &mut reader, &mut writer, &mut door);
    comes("rests", (&ended, &writer.inner), (&WELL, wanted))
}

#[test]
fn a_door_rests_before_each_read_and_write(rt: HostRuntime) -> Result<(), Fail> {
    let input = bytes_of(rt.alloc(), "*1|$1|a|*1|$1|b|*1|$1|c|")?;
    let wanted = bytes_of(rt.alloc(), "$1|a|$1|b|$1|c|")?;
    comes_rested(rt.alloc(), &input, &wanted, &Cell::new(false))
}

/// Answers each request by more than is gathered at once, and counts how often it is told what comes next, and of how
/// many requests with the second word `b`.
#[derive(Drop)]
struct Told<'a> {
    alloc: Global,
    calls: &'a Cell<u64>,
    requests: &'a Cell<u64>,
}

impl Door for Told<'_> {
    type Reason = &'static str;

    ghost asks = { λ _ _ _ _. Unit {0} };

    fn ask(&mut self, _request: Request) -> Result<Reply, DoorFault<&'static str>> {
        match vec![in self.alloc; b'x'; 70_000] {
            Ok(bytes) => Ok(Reply::Bulk(bytes)),
            Err(_) => Err(DoorFault::Memory),
        }
    }

    fn expect(&self, mut ahead: Ahead<'_>) {
        self.calls.set(self.calls.get().saturating_add(1));
        for _ in 0..100u8 {
            if ahead.next() == Some(b"b".as_slice()) {
                self.requests.set(self.requests.get().saturating_add(1));
            }
        }
    }
}

/// How serving this input by such a door ends.
fn served_told(alloc: Global, input: &[u8], calls: &Cell<u64>, requests: &Cell<u64>) -> Outcome {
    let mut door = Told {
        alloc,
        calls,
        requests,
    };
    let mut reader = Source::new(input, NEVER);
    let mut writer = Sink::new(alloc, NEVER);
    served_by(alloc, &mut reader, &mut writer, &mut door)
}

/// Of 70 requests in one piece the door is told at the first, the 33rd and the 65th.
fn is_told(alloc: Global, input: &[u8]) -> Result<(), Fail> {
    let (calls, requests) = (Cell::new(0), Cell::new(0));
    let ended = served_told(alloc, input, &calls, &requests);
    same("how it ends", &ended, &WELL)?;
    same_number("times", calls.get(), 3)?;
    same_number("requests", requests.get(), 70 + 38 + 6)
}

#[test]
fn a_door_is_told_what_comes_once_for_thirty_two_requests(rt: HostRuntime) -> Result<(), Fail> {
    let input = bytes_of(rt.alloc(), "*2|$1|a|$1|b|")?.repeat(rt.alloc(), 70)?;
    is_told(rt.alloc(), &input)
}
