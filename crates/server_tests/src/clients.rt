//! Clients that do one thing after another.

use crate::counting::{are_counted, count_requests};
use std::alloc::{AllocError, Global};
use std::io::{self, ErrorKind, Read, Write};
use std::net::{Net, Shutdown, SocketAddr, TcpListener, TcpStream};
use test_support::{bytes_of, requests_of};

/// What a client does. In a row of bytes `|` stands for CR LF.
#[derive(Clone, Copy)]
pub(crate) enum Does<'a> {
    /// Sends these requests, parted by `; `.
    Asks(&'a str),
    /// Sends these bytes.
    Sends(&'a str),
    /// Waits for so many bytes, which are to be these.
    Gets(&'a str),
    /// Waits for something to be sent, and leaves it unread.
    Sees,
    /// Sends no more, and waits for the end: nothing more is to come.
    Ends,
    /// Waits for the end, which the server makes though the client could send more: nothing more is to come.
    IsEnded,
    /// Closes the connection, whatever is under way and unread.
    Leaves,
    /// Has the listener wait for no one any more. Where it waits already it has one more.
    Unlists,
    /// Sends the requests of so many rounds of counting, of which this is the digit.
    Counts(usize, usize),
    /// Sends no more, and reads the replies to so many rounds of counting.
    IsCounted(usize),
}

/// A client, by its number from 0, and what it does next.
pub(crate) type Act<'a> = (usize, Does<'a>);

/// The connections of the clients, by their numbers; none where a client has left.
type Streams = Vec<Option<TcpStream>>;

/// Has so many clients act in order. A client connects when it first acts, and the numbers say in which order they do.
/// Gives what came of the first act that came out otherwise. At the end the clients that are left connect and leave.
pub(crate) fn follow<R: Net<Stream = TcpStream>>(
    rt: &R,
    alloc: Global,
    listener: &TcpListener,
    clients: usize,
    acts: &[Act<'_>],
) -> Option<String> {
    match listener.local_addr() {
        Ok(address) => follow_at(rt, alloc, listener, address, clients, acts),
        Err(_) => Some(String::new(alloc)),
    }
}

/// The same, at this address.
fn follow_at<R: Net<Stream = TcpStream>>(
    rt: &R,
    alloc: Global,
    listener: &TcpListener,
    address: SocketAddr,
    clients: usize,
    acts: &[Act<'_>],
) -> Option<String> {
    let mut streams = Vec::new(alloc);
    let otherwise = act_each(rt, alloc, listener, address, &mut streams, acts);
    connect_rest(rt, address, streams.len(), clients);
    otherwise
}

/// The clients from this number on connect and leave.
fn connect_rest<R: Net<Stream = TcpStream>>(
    rt: &R,
    address: SocketAddr,
    first: usize,
    clients: usize,
) {
    for _ in first..clients {
        let _ = TcpStream::connect(rt, address);
    }
}

/// Has clients act in order. Gives what came of the first act that came out otherwise.
fn act_each<R: Net<Stream = TcpStream>>(
    rt: &R,
    alloc: Global,
    listener: &TcpListener,
    address: SocketAddr,
    streams: &mut Streams,
    acts: &[Act<'_>],
) -> Option<String> {
    for (place, act) in acts.iter().enumerate() {
        let otherwise = act_one(rt, alloc, listener, address, streams, place, act);
        if otherwise.is_some() {
            return otherwise;
        }
    }
    None
}

/// Has a client act. Gives what came of it, where it came out otherwise.
fn act_one<R: Net<Stream = TcpStream>>(
    rt: &R,
    alloc: Global,
    listener: &TcpListener,
    address: SocketAddr,
    streams: &mut Streams,
    place: usize,
    act: &Act<'_>,
) -> Option<String> {
    let (client, does) = act;
    if let Does::Unlists = does {
        let _ = listener.set_nonblocking(true);
        return None;
    }
    let mut read = Vec::new(alloc);
    match come(rt, alloc, address, streams, *client, does, &mut read) {
        Ok(true) => None,
        Ok(false) => Some(told_read(alloc, place, *client, read.as_slice())),
        Err(fault) => Some(told_fault(alloc, place, *client, &fault)),
    }
}

/// What an act is told by, where what was read isn't what was wanted.
fn told_read(alloc: Global, place: usize, client: usize, read: &[u8]) -> String {
    let read = str::from_utf8(read).unwrap_or("bytes");
    let told = format!(in alloc; "act {place} of client {client}: {read:?}");
    told.unwrap_or(String::new(alloc))
}

/// What an act is told by that failed.
fn told_fault(alloc: Global, place: usize, client: usize, fault: &io::Error) -> String {
    let told = format!(in alloc; "act {place} of client {client}: {fault}");
    told.unwrap_or(String::new(alloc))
}

/// Has a client act, which connects if it is the next one. Whether it came out as it was to.
fn come<R: Net<Stream = TcpStream>>(
    rt: &R,
    alloc: Global,
    address: SocketAddr,
    streams: &mut Streams,
    client: usize,
    does: &Does<'_>,
    read: &mut Vec<u8>,
) -> io::Result<bool> {
    if client == streams.len() {
        connect(rt, address, streams)?;
    }
    match streams.get_mut(client) {
        Some(slot) => act_at(alloc, slot, does, read),
        None => Err(ErrorKind::NotFound.into()),
    }
}

/// The next client connects.
fn connect<R: Net<Stream = TcpStream>>(
    rt: &R,
    address: SocketAddr,
    streams: &mut Streams,
) -> io::Result<()> {
    let stream = TcpStream::connect(rt, address)?;
    streams.push(Some(stream))?;
    Ok(())
}

/// Has the client of this connection act.
fn act_at(
    alloc: Global,
    slot: &mut Option<TcpStream>,
    does: &Does<'_>,
    read: &mut Vec<u8>,
) -> io::Result<bool> {
    if let Does::Leaves = does {
        *slot = None;
        return Ok(true);
    }
    match slot {
        Some(stream) => speak(alloc, stream, does, read),
        None => Err(ErrorKind::NotConnected.into()),
    }
}

/// Whether it came out as it was to.
fn speak(
    alloc: Global,
    stream: &mut TcpStream,
    does: &Does<'_>,
    read: &mut Vec<u8>,
) -> io::Result<bool> {
    match does {
        Does::Asks(requests) => send(stream, requests_of(alloc, requests)),
        Does::Sends(bytes) => send(stream, bytes_of(alloc, bytes)),
        Does::Counts(rounds, digit) => send(stream, count_requests(alloc, *rounds, *digit)),
        Does::Gets(bytes) => gets(alloc, stream, bytes, read),
        Does::Sees => sees(stream),
        Does::Ends => ends(stream, true, read),
        Does::IsEnded => ends(stream, false, read),
        Does::IsCounted(rounds) => is_counted(stream, *rounds, read),
        Does::Leaves | Does::Unlists => Ok(true),
    }
}

/// Sends bytes, if there was memory for them.
fn send(stream: &mut TcpStream, bytes: Result<Vec<u8>, AllocError>) -> io::Result<bool> {
    let bytes = bytes?;
    stream.write_all(bytes.as_slice())?;
    Ok(true)
}

/// Reads as many bytes as stand in a row. Whether they are those.
fn gets(alloc: Global, stream: &TcpStream, row: &str, read: &mut Vec<u8>) -> io::Result<bool> {
    let bytes = bytes_of(alloc, row)?;
    reads(stream, bytes.as_slice(), read)
}

/// Reads as many bytes as these are. Whether they are these.
fn reads(stream: &TcpStream, bytes: &[u8], read: &mut Vec<u8>) -> io::Result<bool> {
    let mut next = stream.take(bytes.len() as u64);
    next.read_to_end(read)?;
    Ok(read.as_slice() == bytes)
}

/// Waits for a byte, and leaves it unread.
fn sees(stream: &TcpStream) -> io::Result<bool> {
    Ok(stream.peek(&mut [0u8; 1])? == 1)
}

/// Reads to the end, where `closes` is so after the stream's own end was sent.
fn read_to_end(stream: &mut TcpStream, closes: bool, read: &mut Vec<u8>) -> io::Result<()> {
    if closes {
        stream.shutdown(Shutdown::Write)?;
    }
    stream.read_to_end(read)?;
    Ok(())
}

/// Reads to the end in the same way. Whether nothing more came.
fn ends(stream: &mut TcpStream, closes: bool, read: &mut Vec<u8>) -> io::Result<bool> {
    read_to_end(stream, closes, read)?;
    Ok(read.is_empty())
}

/// Sends no more, and reads to the end. Whether these were the replies to so many rounds of counting.
fn is_counted(stream: &mut TcpStream, rounds: usize, read: &mut Vec<u8>) -> io::Result<bool> {
    read_to_end(stream, true, read)?;
    Ok(are_counted(rounds, read.as_slice()))
}
