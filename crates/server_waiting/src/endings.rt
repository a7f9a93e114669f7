//! The connections that have ended, whose threads are to be joined.

use std::alloc::{AllocError, Global};
use std::collections::BTreeMap;
use std::sync::{Condvar, CondvarTimeouts, Mutex, Wait};
use std::thread::{JoinHandle, Threads};
use std::time::{Clock, Duration};

/// The numbers of the connections that have ended since their threads were joined last. A thread tells of its own end;
/// the one that takes connections joins it.
#[derive(Drop)]
pub struct Endings {
    numbers: Mutex<Vec<u64>>,
    // A connection has ended.
    more: Condvar,
}

impl Endings {
    /// No connection has ended.
    pub fn new(alloc: Global) -> Self {
        Endings {
            numbers: Mutex::new(Vec::new(alloc)),
            more: Condvar::new(),
        }
    }

    /// Takes the room to be told of so many connections.
    pub fn reserve<R: Wait>(&self, rt: &R, connections: usize) -> Result<(), AllocError> {
        self.numbers.lock(rt).reserve(connections)
    }

    /// Tells that the connection of this number has ended. There is room for it.
    pub fn tell<R: Wait>(&self, rt: &R, number: u64) {
        let _ = self.numbers.lock(rt).push(number);
        self.more.notify_all();
    }

    /// Waits for so long at most until a connection has ended.
    pub fn wait_within<R: Wait + Clock>(&self, rt: &R, most: Duration) {
        let numbers = self.numbers.lock(rt);
        if numbers.is_empty() {
            let _ = self.more.wait_timeout(rt, numbers, most);
        }
    }

    /// Joins the threads of the connections that have ended, so that what these took is given back.
    pub fn join<R: Threads + Wait>(&self, rt: &R, threads: &mut BTreeMap<u64, JoinHandle<()>>) {
        let mut numbers = self.numbers.lock(rt);
        for number in numbers.iter() {
            if let Some(thread) = threads.remove(number) {
                thread.join(rt);
            }
        }
        numbers.clear();
    }
}
