//! Serving one connection.

ghost use Rattle.server.specs.Serving.{ServesDesk};

use crate::course::Course;
use crate::faults::HostFault;
use cluster::Server;
use resp_decoder::Limits;
use serial_store::Tabled;
use serving::{Door, ServeFault, Served, serve};
use shared_cluster::{AskFault, Desk, FaultKind, Shared, Turns};
use std::alloc::Global;
use std::fmt::Display;
use std::io::{ErrorKind, Read, Write};
use std::net::{Shutdown, TcpStream};
use std::sync::Wait;
use std::time::{Clock, Duration, Instant};

/// For how many milliseconds at most what a connection still sends is read and dropped, before it is closed.
const LINGERING: u64 = 300;

/// How many bytes an error line has at most.
const LONGEST_LINE: usize = 128;

/// By what a connection is ended that can't go on for want of memory. It is another line than that of a command that found
/// none: that one changed nothing, while of the request whose reply can't be sent it isn't said.
pub(crate) const WITHOUT_MEMORY: &str = "no memory for this connection";

/// How much of what still comes is read at once.
const DROPPED: usize = 4096;

/// What a connection is served with: the cluster, who makes its turns, and the course of the server, which is told its faults.
#[derive(Drop)]
pub(crate) struct Service<'a, T: Tabled, L: Server> {
    pub shared: &'a Shared<T, L>,
    pub turns: Turns,
    pub max_steps: u64,
    pub course: &'a Course,
}

/// Serves one connection, which is counted meanwhile.
pub(crate) fn serve_connection<T: Tabled, L: Server, R>(
    rt: &R,
    service: &Service<'_, T, L>,
    stream: &TcpStream,
)
where
    R: Wait + AllocGlobal + Eprint + Clock,
{
    service.course.comes();
    let _ = stream.set_nodelay(true);
    serve_seat(rt, service, stream);
    service.course.leaves();
}

/// Serves one connection, at a seat of its own.
fn serve_seat<T: Tabled, L: Server, R>(rt: &R, service: &Service<'_, T, L>, stream: &TcpStream)
where
    R: Wait + AllocGlobal + Eprint + Clock,
{
    let seat = match service.shared.sit(rt) {
        Ok(seat) => seat,
        Err(fault) => return end_by(rt, service, stream, fault),
    };
    let mut desk = Desk::new(rt, service.shared, seat, service.turns);
    let mut reader = stream;
    let mut writer = stream;
    let served = serve_desk(
        rt.alloc(),
        Limits::DEFAULT,
        &mut desk,
        &mut reader,
        &mut writer,
    );
    service.shared.stand(rt, desk.into_seat());
    match served {
        Ok(Served::End | Served::Inside) | Err(ServeFault::Read | ServeFault::Write) => {}
        Ok(Served::Protocol(_)) => linger(rt, stream, Duration::from_millis(LINGERING)),
        Err(ServeFault::Memory) => say(rt, stream, WITHOUT_MEMORY, LINGERING),
        Err(ServeFault::Door(fault)) => end_by(rt, service, stream, fault),
    }
}

/// Serves at a desk what the reader gives, and has the writer take the replies: how each connection of a server is served, over any
/// reader and writer. A request has at most as many words, of as many bytes, as Redis allows by default.
///
/// What was read, asked and written with each outcome is said by `Serves`, and what a request is answered by `Asks`: the outcome of
/// the seat's next request, or that there was no memory for it. With `ServeFault::Door` the desk was refused an ask, by the fault that is
/// given. The desk lets others pass before each read and write, and at the end.
pub fn serve_desk<T: Tabled, L: Server, C: Wait + Clock, R: Read, W: Write>(
    alloc: Global,
    limits: Limits,
    desk: &mut Desk<'_, T, L, C>,
    reader: &mut R,
    writer: &mut W,
) -> Result<Served, ServeFault<AskFault>>
    ensures { ServesDesk T.table desk.old desk.new (λ d. d.seat) limits
        (R.remaining reader.old) (R.remaining reader.new) (W.contents writer.old) (W.contents writer.new) result }
{
    let served = serve(alloc, limits, reader, writer, desk);
    desk.rest();
    served
}

/// Ends a connection by the fault with which it was refused, which may be one of the whole server.
fn end_by<T: Tabled, L: Server, R: Wait + Eprint + Clock>(
    rt: &R,
    service: &Service<'_, T, L>,
    stream: &TcpStream,
    fault: AskFault,
) {
    service.meet(rt, &fault);
    say(rt, stream, fault, LINGERING);
}

impl<T: Tabled, L: Server> Service<'_, T, L> {
    /// A fault of the whole server is met, where an ask or a drive was refused by one.
    pub(crate) fn meet<R: Wait + Eprint>(&self, rt: &R, refused: &AskFault) {
        let fault = match refused.kind() {
            FaultKind::Exhausted => HostFault::Exhausted {
                requests: self.shared.requests(rt),
                steps: self.max_steps,
            },
            FaultKind::Failed => HostFault::Worker,
            FaultKind::Closed | FaultKind::Memory | FaultKind::NoConn | FaultKind::Unlisted => {
                return;
            }
        };
        self.course.meet(rt, fault);
    }
}

/// Ends a connection by an error line, as far as a write is possible within so many milliseconds, for which what it still
/// sends is read and dropped.
pub(crate) fn say<R: Clock, D: Display + Drop>(
    rt: &R,
    stream: &TcpStream,
    why: D,
    milliseconds: u64,
) {
    let most = Duration::from_millis(milliseconds);
    let _ = stream.set_write_timeout(Some(most));
    let mut line = [0; LONGEST_LINE];
    let mut room = line.as_mut_slice();
    if write!(room, "-ERR {why}\r\n").is_ok() {
        let size = LONGEST_LINE.saturating_sub(room.len());
        let mut writer = stream;
        let _ = writer.write_all(&line[..size]);
    }
    linger(rt, stream, most);
}

/// Sends no more, and reads and drops for so long at most what still comes: a stream that is closed with bytes unread is
/// reset, and the client may lose replies that it hasn't read.
fn linger<R: Clock>(rt: &R, stream: &TcpStream, most: Duration) {
    let _ = stream.shutdown(Shutdown::Write);
    let Ok(start) = Instant::now(rt) else {
        return;
    };
    let mut reader = stream;
    let mut dropped = [0; DROPPED];
    for _ in 0..u64::MAX {
        let Ok(passed) = start.elapsed(rt) else {
            return;
        };
        let left = most.saturating_sub(passed);
        if left.is_zero() || stream.set_read_timeout(Some(left)).is_err() {
            return;
        }
        match reader.read(&mut dropped) {
            Ok(0) => return,
            Ok(_) => {}
            Err(fault) => {
                if fault.kind() != ErrorKind::Interrupted {
                    return;
                }
            }
        }
    }
}
