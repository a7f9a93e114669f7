//! The connections that are served.

use std::alloc::{AllocError, Global};
use std::collections::BTreeMap;
use std::net::{Shutdown, TcpStream};
use std::sync::{Arc, Mutex, Wait};

/// The streams of the connections that are served, by the numbers of these, so that all can be ended.
#[derive(Drop)]
pub(crate) struct Streams {
    open: Mutex<BTreeMap<u64, Arc<TcpStream>>>,
}

impl Streams {
    /// None is served.
    pub(crate) fn new(alloc: Global) -> Self {
        Streams {
            open: Mutex::new(BTreeMap::new(alloc)),
        }
    }

    /// Puts down the stream of the connection of this number. The only error is want of memory.
    pub(crate) fn put<R: Wait>(
        &self,
        rt: &R,
        number: u64,
        stream: Arc<TcpStream>,
    ) -> Result<(), AllocError> {
        match self.open.lock(rt).insert(number, stream) {
            Ok(_) => Ok(()),
            Err(_) => Err(AllocError),
        }
    }

    /// The connection of this number isn't served any more. Its stream is closed with the last of those that have it.
    pub(crate) fn remove<R: Wait>(&self, rt: &R, number: u64) {
        self.open.lock(rt).remove(&number);
    }

    /// Whether none is served.
    pub(crate) fn is_empty<R: Wait>(&self, rt: &R) -> bool {
        self.open.lock(rt).is_empty()
    }

    /// Shuts one side of all streams, or both.
    pub(crate) fn shut_down<R: Wait>(&self, rt: &R, how: Shutdown) {
        for stream in self.open.lock(rt).values() {
            let _ = stream.shutdown(how);
        }
    }
}
