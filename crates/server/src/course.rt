//! How far a server is, and whether it is to end.

ghost use Rattle.std.specs.Prelude.{◌≡◌};
ghost use Rattle.server.specs.Ends.{IsEndStatus};

use crate::faults::HostFault;
use crate::report::Seen;
use std::sync::atomic::{AtomicBool, AtomicU64, Ordering};
use std::sync::{Condvar, CondvarTimeouts, Mutex, Wait};
use std::time::{Clock, Duration};

/// After how many milliseconds who waits looks again whether the server is to end, and who takes connections is woken once
/// more.
pub(crate) const WAKING: u64 = 100;

/// What is known of a course.
#[derive(Drop)]
struct State {
    // The first fault that was met.
    fault: Option<HostFault>,
    // Someone asked that the server ends.
    is_asked: bool,
    // The trace couldn't be written, which ends nothing.
    has_lost_trace: bool,
    // How many connections were refused, once no more are taken.
    refused: Option<u64>,
}

impl State {
    /// Whether the server is to end.
    fn is_over(&self) -> bool {
        self.is_asked || self.fault.is_some()
    }
}

/// The course of a server. It takes no more connections, and ends, once a fault of the whole is met, which is told on
/// standard error at once and decides the status; or once someone asks that it ends, which is no fault. A trace that can't be written
/// ends nothing; it is told, too, and decides the status where no fault does.
#[derive(Drop)]
pub struct Course {
    state: Mutex<State>,
    changed: Condvar,
    // How many connections are served.
    open: AtomicU64,
    // Whether standard error is a terminal, on which a report takes the place of the one before.
    on_terminal: bool,
    // Whether a report stands there.
    stands: AtomicBool,
}

impl Course {
    /// Nothing has happened yet. It is said whether standard error is a terminal.
    pub fn new(on_terminal: bool) -> Self
        ensures { result.on_terminal ≡ on_terminal }
    {
        Course {
            state: Mutex::new(State {
                fault: None,
                is_asked: false,
                has_lost_trace: false,
                refused: None,
            }),
            changed: Condvar::new(),
            open: AtomicU64::new(0),
            on_terminal,
            stands: AtomicBool::new(false),
        }
    }

    /// Asks that the server ends.
    pub fn ask_end<R: Wait>(&self, rt: &R) {
        self.state.lock(rt).is_asked = true;
        self.changed.notify_all();
    }

    /// The fault that was met.
    pub(crate) fn met<R: Wait>(&self, rt: &R) -> Option<HostFault> {
        self.state.lock(rt).fault
    }

    /// Whether the server is to end.
    pub(crate) fn is_over<R: Wait>(&self, rt: &R) -> bool {
        self.state.lock(rt).is_over()
    }

    /// A fault is met, and told if it is the first.
    pub(crate) fn meet<R: Wait + Eprint>(&self, rt: &R, fault: HostFault) {
        let mut state = self.state.lock(rt);
        if state.fault.is_none() {
            state.fault = Some(fault);
            self.clear(rt);
            let _ = eprintln!(rt; "shardkv-server: {fault}");
            self.changed.notify_all();
        }
    }

    /// The trace can't be written, which is told. The server goes on without.
    pub(crate) fn lose_trace<R: Wait + Eprint>(&self, rt: &R) {
        self.state.lock(rt).has_lost_trace = true;
        self.clear(rt);
        let _ = eprintln!(rt; "shardkv-server: {}", HostFault::Trace);
    }

    /// The program's status: that of the fault that was met, or of a trace that was lost, or 0.
    pub(crate) fn status<R: Wait>(&self, rt: &R) -> u8
        ensures { IsEndStatus result }
    {
        let state = self.state.lock(rt);
        match state.fault {
            Some(fault) => fault.status(),
            None if state.has_lost_trace => HostFault::Trace.status(),
            None => 0,
        }
    }

    /// One more connection is served.
    pub(crate) fn comes(&self) {
        self.open.fetch_add(1, Ordering::Relaxed);
    }

    /// One of the connections isn't served any more.
    pub(crate) fn leaves(&self) {
        self.open.fetch_sub(1, Ordering::Relaxed);
    }

    /// How many connections are served.
    pub(crate) fn connections(&self) -> u64 {
        self.open.load(Ordering::Relaxed)
    }

    /// No more connections are taken, after so many were refused.
    pub(crate) fn end<R: Wait>(&self, rt: &R, refused: u64) {
        self.state.lock(rt).refused = Some(refused);
        self.changed.notify_all();
    }

    /// Waits until something happens, or for so long where it is said; but not where it is to end, and the caller doesn't know. Gives how
    /// many connections were refused, once no more are taken.
    pub(crate) fn wait_within<R: Wait + Clock>(
        &self,
        rt: &R,
        is_over: bool,
        most: Option<Duration>,
    ) -> Option<u64> {
        let state = self.state.lock(rt);
        if state.refused.is_some() || state.is_over() != is_over {
            return state.refused;
        }
        let state = match most {
            Some(most) => self.changed.wait_timeout(rt, state, most).0,
            None => self.changed.wait(rt, state),
        };
        state.refused
    }

    /// Shows a report: on a terminal in the place of the one before, and else as a line.
    pub(crate) fn show<R: Eprint>(&self, rt: &R, seen: &Seen) {
        self.clear(rt);
        if self.on_terminal {
            let _ = eprint!(rt; "shardkv-server: {seen}");
            self.stands.store(true, Ordering::Relaxed);
        } else {
            let _ = eprintln!(rt; "shardkv-server: {seen}");
        }
    }

    /// Takes a report off the terminal, where one stands.
    pub(crate) fn clear<R: Eprint>(&self, rt: &R) {
        if self.stands.swap(false, Ordering::Relaxed) {
            let _ = eprint!(rt; "\r\x1b[K");
        }
    }
}
