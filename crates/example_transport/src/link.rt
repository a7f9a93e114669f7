//! The way to the other groups, and from them: a socket that sends and receives datagrams.

use crate::datagram::{bytes_of, packet_of};
use skeen_core::Packet;
use std::alloc::Global;
use std::io::{self, ErrorKind};
use std::net::{SocketAddr, UdpSocket};
use std::time::Duration;

/// For how long it is waited for a packet, in milliseconds.
const PATIENCE: u64 = 5;

/// How many bytes of a datagram are read: those of the longest packet, and one more.
const MOST_BYTES: usize = 8 * (5 + 64) + 1;

/// A socket, the addresses of all groups by their numbers, and what comes of the next packet that is sent.
#[derive(Drop)]
pub(crate) struct Link<'a> {
    socket: &'a UdpSocket,
    addresses: &'a [SocketAddr],
    luck: u64,
}

impl<'a> Link<'a> {
    /// The way by this socket. Links of other luck lose other packets.
    pub(crate) fn new(
        socket: &'a UdpSocket,
        addresses: &'a [SocketAddr],
        luck: u64,
    ) -> io::Result<Self> {
        socket.set_read_timeout(Some(Duration::from_millis(PATIENCE)))?;
        Ok(Link {
            socket,
            addresses,
            luck,
        })
    }

    /// Sends a packet to its group, where there is one: none, one or two times.
    pub(crate) fn send(&mut self, alloc: Global, packet: &Packet) -> io::Result<()> {
        let bytes = bytes_of(alloc, packet)?;
        if let Some(address) = self.addresses.get(usize::from(packet.to.number())) {
            for _ in 0..self.times() {
                self.socket.send_to(bytes.as_slice(), *address)?;
            }
        }
        Ok(())
    }

    /// How many times the next packet is sent: 0, 1 or 2, as a series of numbers goes.
    fn times(&mut self) -> u64 {
        self.luck = self
            .luck
            .wrapping_mul(6364136223846793005)
            .wrapping_add(1442695040888963407);
        (self.luck >> 33) % 3
    }

    /// The next packet. None, if none comes for a while, or what comes is no packet.
    pub(crate) fn receive(&self) -> io::Result<Option<Packet>> {
        let mut bytes = [0; MOST_BYTES];
        match self.socket.recv_from(&mut bytes) {
            Ok((length, _)) => Ok(packet_of(&bytes[..length])),
            Err(fault) => match fault.kind() {
                ErrorKind::WouldBlock | ErrorKind::TimedOut | ErrorKind::Interrupted => Ok(None),
                _ => Err(fault),
            },
        }
    }
}
