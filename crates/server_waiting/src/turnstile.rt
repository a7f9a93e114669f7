//! A turnstile, which one connection passes at a time.

use groups::ConnId;
use std::sync::atomic::{AtomicBool, AtomicU64, Ordering};
use std::sync::{Condvar, Mutex, Wait};
use std::thread;

/// What the turnstile keeps while no one passes. No connection has this number.
const NO_ONE: u64 = 0;

/// How often the one who looks out looks before it goes to sleep.
const LOOKS: u32 = 200;

/// Connections that make their own turns would take the cluster's lock from each other step by step. So one at a time
/// passes: it answers what it has read, and leaves before it reads or writes.
///
/// Of those who wait one looks out for a while, and the others sleep. Who leaves wakes one of them, which looks out next:
/// so the next one is awake when its turn comes, unless that takes longer than it looks.
///
/// It guards nothing. Who passes takes the cluster's lock inside, and no one who holds that lock waits here.
#[derive(Drop)]
pub struct Turnstile {
    /// The number of the connection that passes, or `NO_ONE`.
    passes: AtomicU64,
    /// Whether someone looks out.
    watched: AtomicBool,
    /// Who finds that it can't pass goes to sleep before it gives this up, so that no leave is missed.
    falling_asleep: Mutex<()>,
    left: Condvar,
}

impl Turnstile {
    /// A turnstile that no one passes.
    pub fn new() -> Self {
        Turnstile {
            passes: AtomicU64::new(NO_ONE),
            watched: AtomicBool::new(false),
            falling_asleep: Mutex::new(()),
            left: Condvar::new(),
        }
    }

    /// Waits until no other connection passes, and passes.
    pub fn enter<R: Wait>(&self, rt: &R, conn: ConnId) {
        if self.passes.load(Ordering::Acquire) == conn.0 {
            return;
        }
        for _ in rt.forever() {
            if self.try_enter(conn) || self.look_out(conn) || self.sleep(rt, conn) {
                return;
            }
        }
    }

    /// Leaves, if the connection passes.
    pub fn leave<R: Wait>(&self, rt: &R, conn: ConnId) {
        if self.passes.load(Ordering::Acquire) == conn.0 {
            self.passes.store(NO_ONE, Ordering::Release);
            drop(self.falling_asleep.lock(rt));
            self.left.notify_one();
        }
    }

    /// Passes if no one does. Says whether it does.
    fn try_enter(&self, conn: ConnId) -> bool {
        self.passes
            .compare_exchange(NO_ONE, conn.0, Ordering::AcqRel, Ordering::Acquire)
            .is_ok()
    }

    /// Looks out for the turn to come, for a while, if no other connection does. Says whether it passes.
    fn look_out(&self, conn: ConnId) -> bool {
        if self.watched.swap(true, Ordering::AcqRel) {
            return false;
        }
        let passes = self.look(conn);
        self.watched.store(false, Ordering::Release);
        passes
    }

    /// Looks a number of times whether it may pass. Says whether it does.
    fn look(&self, conn: ConnId) -> bool {
        for _ in 0..LOOKS {
            if self.passes.load(Ordering::Acquire) == NO_ONE && self.try_enter(conn) {
                return true;
            }
            thread::yield_now();
        }
        false
    }

    /// Sleeps until someone leaves, unless it may pass at once. Says whether it does.
    fn sleep<R: Wait>(&self, rt: &R, conn: ConnId) -> bool {
        let awake = self.falling_asleep.lock(rt);
        if self.try_enter(conn) {
            return true;
        }
        drop(self.left.wait(rt, awake));
        false
    }
}
