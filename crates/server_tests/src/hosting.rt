//! A server over two shards, and clients beside it.

ghost use Rattle.std.specs.Prelude.{IfOk};
ghost use Rattle.options.specs.Server.{InRange};

use crate::clients::{Act, follow};
use options::server::Options;
use placement::Table;
use replay::show;
use server::{Course, host};
use shard_workers::InTurn;
use std::alloc::Global;
use std::fs;
use std::net::{Net, TcpListener, TcpStream};
use std::num::NonZeroUsize;
use std::random::RandomSource;
use std::rt::Files;
use std::sync::Wait;
use std::test::Fail;
use std::thread::{Threads, join};
use std::time::Clock;
use test_support::{
    TWO_SHARDS, as_wanted, holds, last_line, same_bytes, same_number, same_report, same_text,
};

/// What a host and the clients beside it are run on, but for the net.
pub(crate) trait Hosting: Threads
    + Wait
    + AllocGlobal
    + Files
    + RandomSource
    + Eprint
    + Clock
    + Sync {}

impl<R> Hosting for R
where
    R: Threads + Wait + AllocGlobal + Files + RandomSource + Eprint + Clock + Sync,
{}

/// At most how many steps a server makes where a test has no other number.
pub(crate) const MANY: u64 = 1_000_000;

/// Options for tests.
pub(crate) fn options<'a>(
    workers: usize,
    connections: u64,
    max_steps: u64,
    trace: Option<&'a str>,
) -> Result<Options<'a>, Fail>
    ensures { IfOk result InRange }
{
    let workers = match NonZeroUsize::new(workers) {
        Some(number) if workers <= 64 => number,
        _ => return Err("1 to 64 workers".into()),
    };
    if connections == 0 {
        return Err("a connection".into());
    }
    if max_steps == 0 || max_steps > MANY {
        return Err("1 to 1,000,000 steps".into());
    }
    Ok(Options {
        table: "",
        port: 0,
        bind: None,
        workers,
        connections,
        max_steps,
        trace,
        report: 0,
        until_input_ends: false,
    })
}

/// How the host ended: its status, and what it printed.
type Hosted = (u8, Vec<u8>);

/// Hosts at a listener on two shards.
fn hosted<R>(rt: &R, listener: &TcpListener, options: &Options<'_>) -> Hosted
where
    R: Hosting + Net,
    requires { InRange options.now }
{
    let mut printed = Vec::new(rt.alloc());
    let status = match Table::from_toml(rt.alloc(), TWO_SHARDS) {
        Ok(table) => host(
            rt,
            listener,
            options,
            table,
            &mut printed,
            &Course::new(false),
        ),
        Err(_) => 7,
    };
    (status, printed)
}

/// Hosts at a listener on two shards, beside so many clients that act in order. How the host ended, and what `follow`
/// tells of the clients.
fn beside<R>(
    rt: &R,
    listener: &TcpListener,
    options: &Options<'_>,
    clients: usize,
    acts: &[Act<'_>],
) -> (Hosted, Option<String>)
where
    R: Hosting + Net<Listener = TcpListener, Stream = TcpStream>,
    requires { InRange options.now }
{
    let (otherwise, ended) = join(
        rt,
        move || follow(rt, rt.alloc(), listener, clients, acts),
        move ||
            requires { InRange options.now }
        { hosted(rt, listener, options) },
    );
    (ended, otherwise)
}

/// How a host is to end.
#[derive(Clone, Copy)]
pub(crate) enum End<'a> {
    /// By status 0. It told first where it listens, and its last line begins so.
    Well(&'a str),
    /// By status 6, since its trace was lost, and told the same.
    Lost(&'a str),
    /// By this status.
    By(u8),
    /// By this status, and it told where it listens and nothing else.
    Bare(u8),
}

/// Hosts at a listener on two shards, beside so many clients that act in order. All comes out as the acts say, and the
/// host ends so.
fn serve_at<R>(
    rt: &R,
    listener: &TcpListener,
    options: &Options<'_>,
    clients: usize,
    acts: &[Act<'_>],
    end: End<'_>,
) -> Result<(), Fail>
where
    R: Hosting + Net<Listener = TcpListener, Stream = TcpStream>,
    requires { InRange options.now }
{
    let (hosted, otherwise) = beside(rt, listener, options, clients, acts);
    came(rt.alloc(), listener, &hosted, otherwise.as_ref(), end)
}

/// All came out as the acts say, and the host ended so.
fn came(
    alloc: Global,
    listener: &TcpListener,
    hosted: &Hosted,
    otherwise: Option<&String>,
    end: End<'_>,
) -> Result<(), Fail> {
    as_wanted(otherwise)?;
    match end {
        End::Well(last) => ended_telling(alloc, listener, hosted, 0, last),
        End::Lost(last) => ended_telling(alloc, listener, hosted, 6, last),
        End::By(status) => same_status(hosted, status),
        End::Bare(status) => ended_by(alloc, listener, hosted, status),
    }
}

/// The line that a host tells first.
fn first_line(alloc: Global, listener: &TcpListener) -> Result<String, Fail> {
    Ok(format!(in alloc; "listening {}\n", listener.local_addr()?)?)
}

/// A host ended by this status.
fn same_status(hosted: &Hosted, status: u8) -> Result<(), Fail> {
    same_number("the status", u64::from(hosted.0), u64::from(status))
}

/// A host ended by this status, and told where it listens and nothing else.
fn ended_by(
    alloc: Global,
    listener: &TcpListener,
    hosted: &Hosted,
    status: u8,
) -> Result<(), Fail> {
    same_status(hosted, status)?;
    let wanted = first_line(alloc, listener)?;
    same_bytes("what is told", hosted.1.as_slice(), wanted.as_bytes())
}

/// This is told first.
fn tells_first(told: &[u8], first: &str) -> Result<(), Fail> {
    let tells = told.starts_with(first.as_bytes());
    holds("the address is told first", tells)
}

/// A host told first where it listens.
fn tells_address(alloc: Global, listener: &TcpListener, told: &[u8]) -> Result<(), Fail> {
    let first = first_line(alloc, listener)?;
    tells_first(told, first.as_str())
}

/// A host ended by this status. It told first where it listens, and its last line begins so.
fn ended_telling(
    alloc: Global,
    listener: &TcpListener,
    hosted: &Hosted,
    status: u8,
    last: &str,
) -> Result<(), Fail> {
    same_status(hosted, status)?;
    tells_address(alloc, listener, hosted.1.as_slice())?;
    let closed = last_line(hosted.1.as_slice());
    holds(closed, closed.starts_with(last))
}

/// The same at a listener of its own.
pub(crate) fn serve_by<R>(
    rt: &R,
    options: &Options<'_>,
    clients: usize,
    acts: &[Act<'_>],
    end: End<'_>,
) -> Result<(), Fail>
where
    R: Hosting + Net<Listener = TcpListener, Stream = TcpStream>,
    requires { InRange options.now }
{
    let listener = TcpListener::bind(rt, "127.0.0.1:0")?;
    serve_at(rt, &listener, options, clients, acts, end)
}

/// Has so many clients act in order beside a server of so many workers. All comes out as the acts say, and the server
/// ends by status 0 with a last line that begins so.
pub(crate) fn serve_acts<R>(
    rt: &R,
    workers: usize,
    trace: Option<&str>,
    clients: usize,
    acts: &[Act<'_>],
    last: &str,
) -> Result<(), Fail>
where
    R: Hosting + Net<Listener = TcpListener, Stream = TcpStream>,
{
    let options = options(workers, clients as u64, MANY, trace)?;
    serve_by(rt, &options, clients, acts, End::Well(last))
}

/// The trace in this file is replayed: its report agrees, has so many rows, and ends so. The file is removed.
pub(crate) fn replay_trace<R: Wait + AllocGlobal + Files>(
    rt: &R,
    path: &str,
    rows: usize,
    ending: &[u8],
) -> Result<(), Fail> {
    let trace = fs::read(rt, path)?;
    fs::remove_file(rt, path)?;
    replays(rt.alloc(), trace.as_slice(), rows, ending)
}

/// A trace is replayed: its report agrees, has so many rows, and ends so.
pub(crate) fn replays(alloc: Global, trace: &[u8], rows: usize, ending: &[u8]) -> Result<(), Fail> {
    let mut report = Vec::new(alloc);
    let one = InTurn(NonZeroUsize::MIN);
    let status = show(alloc, TWO_SHARDS.as_bytes(), trace, &one, &mut report);
    same_number("the status of the replay", u64::from(status), 0)?;
    same_report(report.as_slice(), rows, ending)
}
