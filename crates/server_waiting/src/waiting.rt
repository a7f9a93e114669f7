//! Where seats wait for what comes of their requests.

use groups::ConnId;
use std::array;
use std::sync::atomic::{AtomicU64, Ordering};
use std::sync::{Condvar, MutexGuard, Wait};

/// How many places there are to wait at.
const PLACES: u64 = 64;

/// Places for seats that wait: a connection's is its number's rest by [`PLACES`]. So an outcome wakes its own seat, and
/// beside it only those whose connections have the same rest, of which there are none among 64 that came in a row.
///
/// A place guards nothing. What a seat waits for changes under the lock that it lets go of when it goes to sleep, so it
/// misses no call that comes after the change.
#[derive(Drop)]
pub struct Waiting {
    places: [Condvar; PLACES as usize],
    /// How many wait. Who holds the lock that they let go of finds each of them counted.
    seats: AtomicU64,
}

impl Waiting {
    /// Places at which no one waits.
    pub fn new() -> Self {
        Waiting {
            places: array::from_fn(|_| Condvar::new()),
            seats: AtomicU64::new(0),
        }
    }

    /// Waits at the connection's place, and lets the lock go meanwhile. It may end without a call.
    pub fn wait<'b, R: Wait, T>(
        &self,
        rt: &R,
        conn: ConnId,
        guard: MutexGuard<'b, T>,
    ) -> MutexGuard<'b, T> {
        self.seats.fetch_add(1, Ordering::AcqRel);
        let guard = self.places[(conn.0 % PLACES) as usize].wait(rt, guard);
        self.seats.fetch_sub(1, Ordering::AcqRel);
        guard
    }

    /// Whether no one waits.
    pub fn is_empty(&self) -> bool {
        self.seats.load(Ordering::Acquire) == 0
    }

    /// Wakes the seat of this connection, if it waits.
    pub fn wake(&self, conn: ConnId) {
        self.places[(conn.0 % PLACES) as usize].notify_all();
    }

    /// Wakes all.
    pub fn wake_all(&self) {
        for place in &self.places {
            place.notify_all();
        }
    }
}
