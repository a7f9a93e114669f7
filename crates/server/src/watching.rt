//! What is seen to beside the connections: the trace, and that the server ends.

use crate::course::{Course, WAKING};
use crate::trace_file::TraceFile;
use cluster::Server;
use serial_store::Tabled;
use shared_cluster::Shared;
use std::io::Write;
use std::net::{Net, SocketAddr, TcpStream};
use std::sync::Wait;
use std::time::{Clock, Duration};

/// How many milliseconds there are at most between two pieces of the trace.
const LONGEST: u64 = 100;

/// What the thread sees to that has started those who serve.
#[derive(Drop)]
pub(crate) struct Watch<'c, 's, F: Write + Drop, T: Tabled, L: Server> {
    pub course: &'c Course,
    // Where the server listens.
    pub address: SocketAddr,
    pub shared: &'s Shared<T, L>,
    // None where none is written, or it was lost.
    pub trace: Option<TraceFile<F, T, L>>,
    // How many milliseconds it is until the next piece of the trace.
    pub pause: u64,
}

impl<F: Write + Drop, T: Tabled, L: Server> Watch<'_, '_, F, T, L> {
    /// Waits until no more connections are taken, and gives how many were refused. Meanwhile the trace is written; and where the
    /// server is to end, the thread that takes connections is woken.
    pub(crate) fn wait_for_end<R: Wait + Net + Clock + Eprint>(&mut self, rt: &R) -> u64 {
        for _ in rt.forever() {
            let is_over = self.course.is_over(rt);
            let piece = self.write_trace(rt);
            let most = if is_over { Some(self.wake(rt)) } else { piece };
            if let Some(refused) = self.course.wait_within(rt, is_over, most) {
                return refused;
            }
        }
        unreachable!()
    }

    /// Wakes the thread that takes connections: one more comes, which it doesn't serve. Gives how long it is until it is woken again.
    fn wake<R: Net>(&self, rt: &R) -> Duration {
        let again = Duration::from_millis(WAKING);
        let _ = TcpStream::connect_timeout(rt, &self.address, again);
        again
    }

    /// Writes the next piece of the trace, where there is a trace, and gives how long it is until the next one. Behind much text that
    /// is not at all, and then longer with each. A trace that can't be written is lost, and none is kept any more.
    fn write_trace<R: Wait + Eprint>(&mut self, rt: &R) -> Option<Duration> {
        let trace = self.trace.as_mut()?;
        match trace.go_on(rt, self.shared) {
            Ok(true) => self.pause = 0,
            Ok(false) => self.pause = self.pause.saturating_mul(2).saturating_add(1).min(LONGEST),
            Err(_) => {
                self.lose_trace(rt);
                return None;
            }
        }
        Some(Duration::from_millis(self.pause))
    }

    /// Writes the trace no more, and none is kept.
    fn lose_trace<R: Wait + Eprint>(&mut self, rt: &R) {
        self.trace = None;
        self.shared.forget_trace(rt);
        self.course.lose_trace(rt);
    }
}
