//! Serving the connections that come to a listener, each on a thread of its own, over one shared cluster.

ghost use Rattle.std.specs.Prelude.{◌≡◌, ◌<◌};
ghost use Rattle.server.specs.Ends.{IsEndStatus};
ghost use Rattle.options.specs.Server.{InRange};

use crate::accepting::serve_connections;
use crate::connection::Service;
use crate::course::Course;
use crate::faults::HostFault;
use crate::report::Report;
use crate::trace_file::TraceFile;
use crate::watching::Watch;
use cluster::{Closing, First, Server};
use cluster_sending::{halves_send, syncs};
use hashed_texts::TextHasher;
use options::server::Options;
use placement::Table;
use serial_store::Tabled;
use shard_crew::Crew;
use shard_workers::{InTurn, OpenGate};
use shared_cluster::{Blanks, Shared, Turns};
use std::hash::RandomState;
use std::io::Write;
use std::marker::Brand;
use std::net::{Net, SocketAddr, TcpListener};
use std::num::NonZeroUsize;
use std::random::RandomSource;
use std::rt::Files;
use std::sync::Wait;
use std::thread::{self, Builder, Threads};
use std::time::Clock;

/// How large the stack is of the threads that bring packets and tell reports: they call nothing that goes deep, and under a limit of
/// address space a stack of the usual 8 MiB would take the place of a connection.
const SMALL_STACK: usize = 256 * 1024;

/// Where a server tells that it listens, and how it has ended.
#[derive(Drop)]
struct Console<'a, W> {
    out: &'a mut W,
    // Where it listens.
    address: SocketAddr,
}

impl<W: Write> Console<'_, W> {
    /// It listens.
    fn tell_listening(&mut self) {
        let _ = writeln!(self.out, "listening {}", self.address);
        let _ = self.out.flush();
    }

    /// It has ended well.
    fn tell_closing(&mut self, closing: &Closing) {
        let _ = writeln!(
            self.out,
            "closed requests={} executed={} starved={}",
            closing.requests(),
            closing.executed(),
            closing.starved()
        );
        let _ = self.out.flush();
    }
}

/// Serves as many connections as the options say, or until the course is asked to end, and gives the program's status.
///
/// `listening ADDRESS` is written to `out` once all that serves stands, and at a good end
/// `closed requests=R executed=E starved=S`. The first fault that the server as a whole meets is told on standard error
/// at once, and decides the status: 4 the network failed, 5 no more steps may be made or a close was refused, 6 the trace's file
/// can't be made, 7 there was no memory, or a thread could not be started. Then no more connections are taken, those
/// that are served end, and so does the trace, which is written meanwhile; so too where it is asked to end, which is a good one.
/// A trace that can't be written on is told at once, and ends nothing; without a fault the status is 6 then.
/// What goes wrong with one connection ends that one alone.
pub fn host<R, W: Write>(
    rt: &R,
    listener: &TcpListener,
    options: &Options<'_>,
    table: Table,
    out: &mut W,
    course: &Course,
) -> u8
where
    R: Threads + Wait + AllocGlobal + Files + RandomSource + Eprint + Net + Clock + Sync,
    requires { InRange options.now }
    ensures { IsEndStatus result }
{
    let Ok(address) = listener.local_addr() else {
        let _ = eprintln!(rt; "shardkv-server: {}", HostFault::Network);
        return HostFault::Network.status();
    };
    let mut console = Console { out, address };
    if let Err(fault) = serve_at::<Brand, R, W>(
        rt,
        listener,
        options,
        table,
        &mut console,
        course,
    ) {
        course.meet(rt, fault);
    }
    course.status(rt)
}

/// Serves all connections, where keys lie as the table says, as a server that gets its names.
fn serve_at<T: Tabled + Send + Sync, R, W: Write>(
    rt: &R,
    listener: &TcpListener,
    options: &Options<'_>,
    table: Table,
    console: &mut Console<'_, W>,
    course: &Course,
) -> Result<(), HostFault>
where
    R: Threads + Wait + AllocGlobal + Files + RandomSource + Eprint + Net + Clock + Sync,
    requires table { table ≡ T.table }
    requires range { InRange options.now }
{
    let blanks: Blanks<T> = Blanks::open(options.max_steps);
    serve_all::<T, Brand, R, W>(rt, listener, options, table, console, blanks, course)
}

/// Serves all connections, closes, writes the trace and tells of it.
fn serve_all<T: Tabled + Send + Sync, L: Server + Send + Sync, R, W: Write>(
    rt: &R,
    listener: &TcpListener,
    options: &Options<'_>,
    table: Table,
    console: &mut Console<'_, W>,
    blanks: Blanks<T>,
    course: &Course,
) -> Result<(), HostFault>
where
    R: Threads + Wait + AllocGlobal + Files + RandomSource + Eprint + Net + Clock + Sync,
    requires table { table ≡ T.table }
    requires name { blanks.blank.name ≡ L.name }
    requires parts { blanks.blank.parts ≡ L.parts }
    requires enough { options.now.max_steps < blanks.blank.parts }
    requires steps { blanks.steps ≡ L.steps }
    requires runs { blanks.runs ≡ L.runs }
    requires range { InRange options.now }
{
    let Ok(keys) = RandomState::new(rt) else {
        return Err(HostFault::Memory);
    };
    let hasher = TextHasher::Random(keys);
    let names = blanks.named::<L>();
    let keeps = options.trace.is_some();
    let shared: Shared<T, L> = Shared::new(
        rt.alloc(),
        table,
        options.max_steps,
        keeps,
        hasher,
        names,
    )?;
    let mut watch = Watch {
        course,
        address: console.address,
        shared: &shared,
        trace: begin_trace(rt, &shared, options.trace)?,
        pause: 0,
    };
    let refused = serve_and_drive(rt, listener, options, console, &mut watch);
    course.clear(rt);
    if refused > 0 {
        let _ = eprintln!(rt; "shardkv-server: connections without memory or a thread: {refused}");
    }
    close_and_tell(rt, console, watch)
}

/// The trace's file with its first lines, where a path is named for it.
fn begin_trace<T: Tabled, L: Server, R: Wait + AllocGlobal + Files>(
    rt: &R,
    shared: &Shared<T, L>,
    path: Option<&str>,
) -> Result<Option<TraceFile<R::File, T, L>>, HostFault> {
    match (path, shared.trace_stream(rt)) {
        (Some(path), Some(stream)) => Ok(Some(TraceFile::create(rt, stream, path)?)),
        _ => Ok(None),
    }
}

/// Closes the cluster, writes the trace to its end and tells of it.
fn close_and_tell<T: Tabled, L: Server, R, W: Write>(
    rt: &R,
    console: &mut Console<'_, W>,
    watch: Watch<'_, '_, R::File, T, L>,
) -> Result<(), HostFault>
where
    R: Wait + Files + Eprint + Clock,
{
    let Watch {
        course,
        shared,
        trace,
        ..
    } = watch;
    let closed = shared.close(rt);
    if let Err(fault) = &closed {
        course.meet(rt, HostFault::Close(fault.kind()));
    }
    if let Some(trace) = trace {
        end_trace(rt, course, shared, trace)?;
    }
    if let Ok(closing) = &closed
        && course.met(rt).is_none()
    {
        console.tell_closing(closing);
    }
    Ok(())
}

/// Writes the trace to its end. One that can't be written is lost, which the course is told; the only fault is want of memory.
fn end_trace<T: Tabled, L: Server, R: Wait + Files + Eprint + Clock>(
    rt: &R,
    course: &Course,
    shared: &Shared<T, L>,
    trace: TraceFile<R::File, T, L>,
) -> Result<(), HostFault> {
    match trace.end(rt, shared) {
        Err(HostFault::Trace) => {
            course.lose_trace(rt);
            Ok(())
        }
        ended => ended,
    }
}

/// Drives the cluster with workers that are threads of their own, which `starter` starts.
fn drive_by_crew<T: Tabled, L: Server, R: Threads + Wait + Eprint + Clock>(
    rt: &R,
    starter: &R,
    service: &Service<'_, T, L>,
    workers: NonZeroUsize,
) {
    let crew = Crew::new(starter, workers);
    if let Err(fault) = service.shared.drive(rt, &First, &crew, &OpenGate) {
        service.meet(rt, &fault);
    }
}

/// Brings packets to their groups, beside the thread that drives the cluster.
fn carry_packets<T: Tabled, L: Server, R: Wait + Eprint + Clock>(
    rt: &R,
    service: &Service<'_, T, L>,
) {
    if let Err(fault) = service.shared.carry(rt, &First) {
        service.meet(rt, &fault);
    }
}

/// Serves all connections, and makes the turns that are left. Gives how many connections were refused.
fn serve_and_drive<T: Tabled + Send + Sync, L: Server + Send + Sync, R, W: Write>(
    rt: &R,
    listener: &TcpListener,
    options: &Options<'_>,
    console: &mut Console<'_, W>,
    watch: &mut Watch<'_, '_, R::File, T, L>,
) -> u64
where
    R: Threads + Wait + AllocGlobal + Files + Eprint + Net + Clock + Sync,
{
    let turns = if options.workers.get() == 1 {
        Turns::Own
    } else {
        Turns::Driver
    };
    let shared = watch.shared;
    let refused = serve_beside_driver(rt, listener, options, turns, console, watch);
    if let Err(fault) = shared.drive(rt, &First, &InTurn(NonZeroUsize::MIN), &OpenGate) {
        let service = Service {
            shared,
            turns,
            max_steps: options.max_steps,
            course: watch.course,
        };
        service.meet(rt, &fault);
    }
    refused
}

/// Serves all connections, and shuts the cluster. A thread of its own takes the connections, so that this one can wake
/// it; with several workers another one drives the cluster, and one brings packets to their groups meanwhile; and one tells reports, if
/// there are any. That it listens is told when these have started. Gives how many connections were refused.
fn serve_beside_driver<T: Tabled + Send + Sync, L: Server + Send + Sync, R, W: Write>(
    rt: &R,
    listener: &TcpListener,
    options: &Options<'_>,
    turns: Turns,
    console: &mut Console<'_, W>,
    watch: &mut Watch<'_, '_, R::File, T, L>,
) -> u64
where
    R: Threads + Wait + AllocGlobal + Files + Eprint + Net + Clock + Sync,
{
    let shared = watch.shared;
    let course = watch.course;
    let workers = options.workers;
    let max_steps = options.max_steps;
    let connections = options.connections;
    let seconds = options.report;
    thread::scope(thread::scope_env(), rt, |scope| {
        halves_send();
        syncs::<R>();
        let drives = turns == Turns::Driver;
        let driver = move || {
            let service = Service {
                shared,
                turns,
                max_steps,
                course,
            };
            drive_by_crew(rt, rt, &service, workers);
        };
        let carrier = move || {
            let service = Service {
                shared,
                turns,
                max_steps,
                course,
            };
            carry_packets(rt, &service);
        };
        let reporter = move || {
            Report::new(rt, seconds, max_steps).tell(rt, course, shared);
        };
        if drives && scope.spawn(driver).is_err() {
            course.meet(rt, HostFault::Thread);
            shared.shut(rt);
            return 0;
        }
        if drives {
            // Where it can't be started, those who make turns bring the packets.
            let builder = Builder::new().stack_size(SMALL_STACK);
            let _ = builder.spawn_scoped(scope, carrier);
        }
        if seconds > 0 {
            // Where it can't be started, no reports are told.
            let builder = Builder::new().stack_size(SMALL_STACK);
            let reporting = builder.spawn_scoped(scope, reporter);
            drop(reporting);
        }
        let taking = scope.spawn(move || {
            let service = Service {
                shared,
                turns,
                max_steps,
                course,
            };
            let refused = serve_connections(rt, listener, connections, &service);
            course.end(rt, refused);
        });
        let refused = if taking.is_ok() {
            console.tell_listening();
            watch.wait_for_end(rt)
        } else {
            course.meet(rt, HostFault::Thread);
            0
        };
        shared.shut(rt);
        refused
    })
}
