//! Taking the connections that come to a listener.

use crate::connection::{Service, WITHOUT_MEMORY, say, serve_connection};
use crate::course::{Course, WAKING};
use crate::faults::HostFault;
use crate::streams::Streams;
use cluster::Server;
use cluster_sending::{halves_send, syncs};
use serial_store::Tabled;
use server_waiting::Endings;
use std::collections::BTreeMap;
use std::io::{self, ErrorKind};
use std::net::{Shutdown, TcpListener, TcpStream};
use std::sync::{Arc, Wait};
use std::thread::{self, JoinHandle, Threads};
use std::time::{Clock, Duration, Instant};

// Linux's numbers of the faults by which there is no room for a connection: ENFILE, EMFILE, ENOBUFS and ENOMEM.
const TOO_MANY_IN_SYSTEM: i32 = 23;

const TOO_MANY_OPEN: i32 = 24;

const NO_BUFFERS: i32 = 105;

const NO_MEMORY: i32 = 12;

/// For how many milliseconds a connection that is refused keeps others from being taken.
const SHORTLY: u64 = 5;

/// For how many milliseconds connections may still read what was sent to them once the server ends.
const PATIENCE: u64 = 300;

/// Serves so many connections, each on a thread of its own, and gives how many were refused: there was no memory or no
/// thread for them. A thread that has ended is joined when the next connection comes, or is waited for.
///
/// Once the server is to end no more connections are taken, and those that are served end.
pub(crate) fn serve_connections<T: Tabled + Send + Sync, L: Server + Send + Sync, R>(
    rt: &R,
    listener: &TcpListener,
    connections: u64,
    service: &Service<'_, T, L>,
) -> u64
where
    R: Threads + Wait + AllocGlobal + Eprint + Clock + Sync,
{
    let alloc = rt.alloc();
    let shared = service.shared;
    let turns = service.turns;
    let max_steps = service.max_steps;
    let course = service.course;
    let endings = Endings::new(alloc);
    let endings = &endings;
    let streams = Streams::new(alloc);
    let streams = &streams;
    thread::scope(thread::scope_env(), rt, |scope| {
        halves_send();
        syncs::<R>();
        let mut threads = BTreeMap::new(alloc);
        let mut refused: u64 = 0;
        for number in 0..connections {
            let Some(stream) = accepted(rt, listener, course, endings, &mut threads) else {
                break;
            };
            endings.join(rt, &mut threads);
            let Some(stream) = prepared(rt, endings, threads.len(), streams, number, stream) else {
                refused = refused.saturating_add(1);
                continue;
            };
            let its_stream = Arc::try_clone(&stream);
            let Ok(its_stream) = its_stream else {
                streams.remove(rt, number);
                continue;
            };
            let thread = scope.spawn(move || {
                let service = Service {
                    shared,
                    turns,
                    max_steps,
                    course,
                };
                serve_connection(rt, &service, &its_stream);
                streams.remove(rt, number);
                drop(its_stream);
                endings.tell(rt, number);
            });
            match thread {
                Ok(thread) => {
                    let _ = threads.insert(number, thread);
                }
                Err(_) => {
                    streams.remove(rt, number);
                    say(rt, &stream, "no thread for this connection", SHORTLY);
                    refused = refused.saturating_add(1);
                }
            }
        }
        wait_for_all(rt, course, endings, streams, &mut threads);
        refused
    })
}

/// A connection's stream, where there is the memory that its thread wants; else it is told so, and ends.
fn prepared<R: Wait + AllocGlobal + Clock>(
    rt: &R,
    endings: &Endings,
    threads: usize,
    streams: &Streams,
    number: u64,
    stream: TcpStream,
) -> Option<Arc<TcpStream>> {
    let stream = match Arc::new(rt.alloc(), stream) {
        Ok(stream) => stream,
        Err(refused) => {
            say(rt, &refused.value, WITHOUT_MEMORY, SHORTLY);
            return None;
        }
    };
    if endings.reserve(rt, threads.saturating_add(1)).is_ok()
        && let Ok(another) = Arc::try_clone(&stream)
        && streams.put(rt, number, another).is_ok()
    {
        return Some(stream);
    }
    say(rt, &stream, WITHOUT_MEMORY, SHORTLY);
    None
}

/// Waits until all connections that are served have ended, and ends them where the server is to end.
fn wait_for_all<R: Threads + Wait + Clock>(
    rt: &R,
    course: &Course,
    endings: &Endings,
    streams: &Streams,
    threads: &mut BTreeMap<u64, JoinHandle<()>>,
) {
    for _ in 0..u64::MAX {
        endings.join(rt, threads);
        if streams.is_empty(rt) {
            return;
        }
        if course.is_over(rt) {
            return end_all(rt, endings, streams, threads);
        }
        endings.wait_within(rt, Duration::from_millis(WAKING));
    }
}

/// Ends the connections that are served: nothing more is read of them, and what was sent to them may be read for a short
/// while.
fn end_all<R: Threads + Wait + Clock>(
    rt: &R,
    endings: &Endings,
    streams: &Streams,
    threads: &mut BTreeMap<u64, JoinHandle<()>>,
) {
    streams.shut_down(rt, Shutdown::Read);
    let Ok(start) = Instant::now(rt) else {
        return streams.shut_down(rt, Shutdown::Both);
    };
    let patience = Duration::from_millis(PATIENCE);
    for _ in 0..u64::MAX {
        endings.join(rt, threads);
        let passed = start.elapsed(rt).unwrap_or(patience);
        let left = patience.saturating_sub(passed);
        if streams.is_empty(rt) || left.is_zero() {
            break;
        }
        endings.wait_within(rt, left);
    }
    streams.shut_down(rt, Shutdown::Both);
}

/// The next connection, unless the server is to end. Where the system has no room for it, it waits at
/// the listener until one of those that are served has ended; so who opens many connections keeps others from opening
/// theirs, and ends nothing.
fn accepted<R: Threads + Wait + Eprint + Clock>(
    rt: &R,
    listener: &TcpListener,
    course: &Course,
    endings: &Endings,
    threads: &mut BTreeMap<u64, JoinHandle<()>>,
) -> Option<TcpStream> {
    for _ in 0..u64::MAX {
        let taken = listener.accept();
        if course.is_over(rt) {
            return None;
        }
        let fault = match taken {
            Ok((stream, _)) => return Some(stream),
            Err(fault) => fault,
        };
        if wants_room(&fault) && !threads.is_empty() {
            endings.wait_within(rt, Duration::from_millis(WAKING));
            endings.join(rt, threads);
            continue;
        }
        match fault.kind() {
            ErrorKind::Interrupted | ErrorKind::ConnectionAborted => {}
            _ => {
                course.meet(rt, HostFault::Network);
                return None;
            }
        }
    }
    None
}

/// Whether a connection isn't taken since there are too many, of the process or of the system, or no memory for it.
fn wants_room(fault: &io::Error) -> bool {
    matches!(
        fault.raw_os_error(),
        Some(TOO_MANY_IN_SYSTEM | TOO_MANY_OPEN | NO_BUFFERS | NO_MEMORY)
    )
}
