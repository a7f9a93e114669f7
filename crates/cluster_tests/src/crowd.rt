//! Two threads that ask at a shared cluster, beside one that drives and one that carries. The first layer may be held until
//! the trace shows what goes on meanwhile.

ghost use Rattle.std.specs.Thread.{IsSync};

use crate::words::{MEMORY, Step, done, reply_text, request_of, steps_of};
use cluster::{First, Seat, Server};
use groups::RequestId;
use serial_store::Tabled;
use server::shared_syncs;
use shard_workers::{Gate, InTurn, OpenGate};
use shared_cluster::Shared;
use std::alloc::Global;
use std::num::NonZeroUsize;
use std::process::Abort;
use std::sync::Wait;
use std::sync::atomic::{AtomicBool, Ordering};
use std::thread::{self, Threads, join};
use std::time::{Clock, Duration};

/// For how many turns of one millisecond who waits here does so at most.
const TURNS: u32 = 10_000;

/// How often the gate looks at most, some ten seconds long.
const LOOKS: u32 = 20_000_000;

/// What a test with threads needs of the runtime.
pub(crate) trait Host: Abort + Threads + Wait + Clock + Sync {}

impl<R: Abort + Threads + Wait + Clock + Sync> Host for R {}

/// It does nothing: its contract says that a `&` to the type may go to another thread.
fn syncs<T: Sync>()
    ensures { IsSync T.row }
{}

/// Holds the first request until it is let go. It takes no lock.
#[derive(Drop)]
pub(crate) struct Held {
    entered: AtomicBool,
    is_let_go: AtomicBool,
    missed: AtomicBool,
}

impl Gate for Held {
    fn enter(&self, _id: RequestId) {
        if self.entered.swap(true, Ordering::SeqCst) {
            return;
        }
        for _ in 0..LOOKS {
            if self.is_let_go.load(Ordering::SeqCst) {
                return;
            }
            thread::yield_now();
        }
        self.missed.store(true, Ordering::SeqCst);
    }

    fn leave(&self, _id: RequestId) {}
}

impl Held {
    /// Nothing was held yet.
    pub(crate) fn new() -> Self {
        Held {
            entered: AtomicBool::new(false),
            is_let_go: AtomicBool::new(false),
            missed: AtomicBool::new(false),
        }
    }

    /// A request was held, and let go in time.
    pub(crate) fn was_let_go(&self) -> bool {
        self.entered.load(Ordering::SeqCst) && !self.missed.load(Ordering::SeqCst)
    }

    /// Waits until a request is held.
    fn wait<R: Clock>(&self, rt: &R) {
        for _ in 0..TURNS {
            if self.entered.load(Ordering::SeqCst) {
                return;
            }
            thread::sleep(rt, Duration::from_millis(1));
        }
    }
}

/// What two threads ask, and who makes the turns.
#[derive(Clone, Copy)]
pub(crate) struct Crowd<'a> {
    /// What the first one asks: lines `WORD .. => REPLY`.
    pub one: &'a str,

    /// What the second one asks; where a layer is held, once that is so.
    pub two: &'a str,

    /// Whether a thread drives; else each of them makes the turns for its own requests.
    pub drives: bool,

    /// What holds the first layer, if it is to be held: until the trace shows a packet where `carries`, and else a request.
    pub held: Option<&'a Held>,

    /// Whether a thread brings packets to their groups beside the one that drives.
    pub carries: bool,
}

/// Who drives comes to rest, beside the others.
pub(crate) fn ask_together<T, L, R>(rt: &R, alloc: Global, shared: &Shared<T, L>, crowd: &Crowd<'_>)
where
    T: Tabled + Send + Sync,
    L: Server + Send + Sync,
    R: Host,
{
    shared_syncs::<T, L>();
    syncs::<R>();
    syncs::<Crowd<'_>>();
    join(
        rt,
        move || drive(rt, shared, crowd),
        move || ask_beside_carrier(rt, alloc, shared, crowd),
    );
}

/// Drives the cluster with one worker until it is at rest, where a thread is to do so.
fn drive<T: Tabled, L: Server, R: Host>(rt: &R, shared: &Shared<T, L>, crowd: &Crowd<'_>) {
    if crowd.drives {
        let workers = InTurn(NonZeroUsize::MIN);
        let rest = match crowd.held {
            Some(held) => shared.drive(rt, &First, &workers, held),
            None => shared.drive(rt, &First, &workers, &OpenGate),
        };
        assert!(rt; rest.is_ok(), "the cluster comes to rest");
    }
}

/// Brings packets to their groups until the cluster is at rest, where a thread is to do so.
fn carry<T: Tabled, L: Server, R: Host>(rt: &R, shared: &Shared<T, L>, crowd: &Crowd<'_>) {
    if crowd.carries {
        let rest = shared.carry(rt, &First);
        assert!(rt; rest.is_ok(), "the cluster comes to rest");
    }
}

/// Who carries comes to rest, beside those who ask.
fn ask_beside_carrier<T, L, R>(rt: &R, alloc: Global, shared: &Shared<T, L>, crowd: &Crowd<'_>)
where
    T: Tabled + Send + Sync,
    L: Server + Send + Sync,
    R: Host,
{
    shared_syncs::<T, L>();
    syncs::<R>();
    syncs::<Crowd<'_>>();
    join(
        rt,
        move || carry(rt, shared, crowd),
        move || two_turn(rt, alloc, shared, crowd),
    );
}

/// Both ask, each of which makes the turns for its own where no thread drives; where one does the cluster is shut then.
fn two_turn<T, L, R>(rt: &R, alloc: Global, shared: &Shared<T, L>, crowd: &Crowd<'_>)
where
    T: Tabled + Send + Sync,
    L: Server + Send + Sync,
    R: Host,
{
    shared_syncs::<T, L>();
    syncs::<R>();
    syncs::<Crowd<'_>>();
    join(
        rt,
        move || ask_rows(rt, alloc, shared, crowd.one, crowd.drives),
        move || ask_second(rt, alloc, shared, crowd),
    );
    if crowd.drives {
        shared.shut(rt);
    }
}

/// The second asks, and another thread lets the layer go that is held, if one is to be.
fn ask_second<T, L, R>(rt: &R, alloc: Global, shared: &Shared<T, L>, crowd: &Crowd<'_>)
where
    T: Tabled + Send + Sync,
    L: Server + Send + Sync,
    R: Host,
{
    shared_syncs::<T, L>();
    syncs::<R>();
    syncs::<Crowd<'_>>();
    join(
        rt,
        move || ask_behind(rt, alloc, shared, crowd),
        move || let_go(rt, alloc, shared, crowd),
    );
}

/// The second asks, once a layer is held that is to be.
fn ask_behind<T, L, R>(rt: &R, alloc: Global, shared: &Shared<T, L>, crowd: &Crowd<'_>)
where
    T: Tabled,
    L: Server,
    R: Host,
{
    if let Some(held) = crowd.held {
        held.wait(rt);
    }
    ask_rows(rt, alloc, shared, crowd.two, crowd.drives);
}

/// Asks the lines of a script at a seat of its own, which stands then.
fn ask_rows<T, L, R>(rt: &R, alloc: Global, shared: &Shared<T, L>, script: &str, drives: bool)
where
    T: Tabled,
    L: Server,
    R: Host,
{
    let mut seat = done(rt, "a seat is given", shared.sit(rt));
    for step in &steps_of(rt, alloc, script) {
        ask_row(rt, alloc, shared, &mut seat, step, drives);
    }
    shared.stand(rt, seat);
}

/// Asks at a seat, which lets others pass then.
fn ask_row<T: Tabled, L: Server, R: Host>(
    rt: &R,
    alloc: Global,
    shared: &Shared<T, L>,
    seat: &mut Seat<T, L>,
    step: &Step,
    drives: bool,
) {
    let request = request_of(rt, alloc, step.said());
    let answer = if drives {
        shared.ask(rt, seat, request)
    } else {
        shared.ask_turning(rt, seat, request)
    };
    shared.rest(rt, seat);
    let reply = done(rt, step.said(), answer).open();
    step.is_answered(rt, reply_text(rt, alloc, reply).as_str());
}

/// Lets the layer go that is held, if one is to be, once the trace shows what is to go on meanwhile.
fn let_go<T: Tabled, L: Server, R: Host>(
    rt: &R,
    alloc: Global,
    shared: &Shared<T, L>,
    crowd: &Crowd<'_>,
) {
    let Some(held) = crowd.held else {
        return;
    };
    held.wait(rt);
    for _ in 0..TURNS {
        if is_shown(rt, alloc, shared, crowd.carries) {
            held.is_let_go.store(true, Ordering::SeqCst);
            return;
        }
        thread::sleep(rt, Duration::from_millis(1));
    }
}

/// Whether the trace shows by now that a packet came to its group behind the first Take, or that a second request came in.
fn is_shown<T: Tabled, L: Server, R: Host>(
    rt: &R,
    alloc: Global,
    shared: &Shared<T, L>,
    packet: bool,
) -> bool {
    let mut trace = Vec::new(alloc);
    let written = done(rt, MEMORY, shared.write_trace(rt, &mut trace));
    assert!(rt; written, "a trace is kept");
    let trace = done(rt, "the trace is text", String::from_utf8(trace));
    let wanted = if packet { "\ndeliver " } else { "\nsubmit 2 " };
    match trace.as_str().split_once("\ntake") {
        Some((_, behind)) => behind.contains(wanted),
        None => false,
    }
}
