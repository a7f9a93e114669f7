//! A transport of one's own: three groups of `skeen_core`, a thread each, whose packets go as datagrams over sockets of this
//! machine, where some are lost, some come twice, and none keeps its order.
//!
//! Each group delivers the requests that address it. What two groups have in common they have delivered in one order, which
//! is compared here, and told. The statuses: 0 where all agree, 1 where two don't, 2 where a socket failed, memory was wanting,
//! or a group didn't get all of its requests in time.
#![tactic(auto)]

mod agreement;
mod datagram;
mod link;
mod member;

use crate::agreement::{agree, shared};
use crate::member::take_part;
use groups::GroupId;
use skeen_core::Delivered;
use std::io;
use std::net::{Ipv4Addr, Net, SocketAddr, UdpSocket};
use std::process::ExitCode;
use std::sync::atomic::AtomicU64;
use std::thread::{Threads, map_indices};

/// How many groups there are.
pub(crate) const GROUPS: u8 = 3;

fn main(rt: HostRuntime) -> ExitCode {
    match run(&rt) {
        Ok(true) => ExitCode::from(0),
        Ok(false) => ExitCode::from(1),
        Err(fault) => {
            let _ = eprintln!(rt; "example_transport: {fault}");
            ExitCode::from(2)
        }
    }
}

/// Has all groups take part, and tells what each has delivered, and of any two whether they agree. Whether all do.
fn run<R: Threads + Net + AllocGlobal + Print + Sync>(rt: &R) -> io::Result<bool> {
    let alloc = rt.alloc();
    let mut sockets = Vec::new(alloc);
    let mut addresses = Vec::new(alloc);
    for _ in 0..GROUPS {
        let socket = UdpSocket::bind(rt, SocketAddr::from((Ipv4Addr::LOCALHOST, 0)))?;
        addresses.push(socket.local_addr()?)?;
        sockets.push(socket)?;
    }
    let logs = take_parts(rt, sockets.as_slice(), addresses.as_slice())?;
    tell(rt, logs.as_slice())
}

/// Has the groups at these sockets take part, each in a thread of its own. Gives what each has delivered, in order.
fn take_parts<R: Threads + AllocGlobal + Sync>(
    rt: &R,
    sockets: &[UdpSocket],
    addresses: &[SocketAddr],
) -> io::Result<Vec<Vec<Delivered>>> {
    let alloc = rt.alloc();
    let done = AtomicU64::new(0);
    let parts = map_indices(
        rt,
        alloc,
        sockets.len().min(64),
        &|number| {
            let id = GroupId::new(number as u8);
            take_part(alloc, id, &sockets[number], addresses, &done)
        },
    )?;
    let mut logs = Vec::new(alloc);
    for part in parts {
        logs.push(part?)?;
    }
    Ok(logs)
}

/// Tells how many requests each group has delivered, and of any two whether they agree on those that both have. Whether all do.
fn tell<R: AllocGlobal + Print>(rt: &R, logs: &[Vec<Delivered>]) -> io::Result<bool> {
    let alloc = rt.alloc();
    let mut all_agree = true;
    for (number, log) in logs.iter().enumerate() {
        println!(rt; "group {number} has delivered {} requests", log.len())?;
        for (other, earlier) in logs.iter().enumerate().take(number) {
            let both = shared(alloc, log.as_slice(), earlier.as_slice())?.len();
            if agree(alloc, log.as_slice(), earlier.as_slice())? {
                println!(rt; "it agrees with group {other} on {both} of them")?;
            } else {
                println!(rt; "it differs from group {other} in {both} of them")?;
                all_agree = false;
            }
        }
    }
    Ok(all_agree)
}
