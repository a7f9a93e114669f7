//! `shardkv-server`: serves Redis clients, on 127.0.0.1 unless it is told another address.
//!
//! It reads a placement table, serves so many connections and says how many requests were executed. The statuses: 0 at
//! the end, and for help and the version; 2 where the words are no options; 3 where the table can't be read or is none; 4
//! where the network failed; 5 where no more steps may be made, or the store couldn't be closed; 6 where the trace can't be
//! or wasn't written; 7 where memory was wanting, or a thread couldn't be started. What went wrong is told on standard error.
#![tactic(auto)]

mod input;
mod table_file;

use crate::input::end_with_input;
use crate::table_file::read_table;
use options::server::{Options, read_options};
use options::status_of;
use placement::Table;
use server::{Course, host, try_trace};
use std::fs::Files;
use std::io::IsTerminal;
use std::net::{IpAddr, Ipv4Addr, Net, SocketAddr, TcpListener};
use std::process::ExitCode;
use std::sync::Arc;
use std::{env, io};

/// The program's name.
pub(crate) const PROGRAM: &str = "shardkv-server";

/// Its status where memory was wanting, or a thread couldn't be started.
pub(crate) const MEMORY: u8 = 7;

fn main(rt: HostRuntime) -> ExitCode {
    let words = match words(&rt) {
        Ok(words) => words,
        Err(fault) => {
            let _ = eprintln!(rt; "{PROGRAM}: the words can't be read: {fault}");
            return ExitCode::from(status_of(&fault, 2, MEMORY));
        }
    };
    let options = match read_options(rt.alloc(), words.as_slice()) {
        Ok(options) => options,
        Err(fault) => return ExitCode::from(fault.tell(&rt, PROGRAM, MEMORY)),
    };
    let (table, listener) = match opened(&rt, &options) {
        Ok(both) => both,
        Err(status) => return ExitCode::from(status),
    };
    let course = Arc::new(rt.alloc(), Course::new(rt.stderr().is_terminal()));
    let Ok(course) = course else {
        let _ = eprintln!(rt; "{PROGRAM}: out of memory");
        return ExitCode::from(MEMORY);
    };
    if options.until_input_ends && end_with_input(rt, rt.stdin(), &course).is_err() {
        let _ = eprintln!(rt; "{PROGRAM}: a thread could not be started");
        return ExitCode::from(MEMORY);
    }
    ExitCode::from(host(&rt, &listener, &options, table, &mut rt.stdout(), &course))
}

/// The words on the command line.
fn words<R: env::Env + AllocGlobal>(rt: &R) -> io::Result<Vec<String>> {
    Ok(env::args(rt)?.collect(rt.alloc())?)
}

/// The table of the options' file, and a listener at their address and port, where the trace can be written, if there is to be
/// one. Else what went wrong is told, and its status given.
fn opened<R: Net + Files + AllocGlobal + Eprint>(
    rt: &R,
    options: &Options<'_>,
) -> Result<(Table, R::Listener), u8> {
    let table = read_table(rt, options.table)?;
    if let Some(path) = options.trace
        && let Err(fault) = try_trace(rt, path)
    {
        let _ = eprintln!(rt; "{PROGRAM}: the trace can't be written to {path}: {fault}");
        return Err(status_of(&fault, 6, MEMORY));
    }
    let ip = options.bind.unwrap_or(IpAddr::V4(Ipv4Addr::LOCALHOST));
    let address = SocketAddr::new(ip, options.port);
    match TcpListener::bind(rt, address) {
        Ok(listener) => {
            if !ip.is_loopback() {
                let _ = eprintln!(rt;
                    "{PROGRAM}: no client is asked for a password: who reaches {ip} has the store"
                );
            }
            Ok((table, listener))
        }
        Err(fault) => {
            let _ = eprintln!(rt; "{PROGRAM}: {address} can't be bound: {fault}");
            Err(status_of(&fault, 4, MEMORY))
        }
    }
}
