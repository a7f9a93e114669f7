//! `shardkv-solo`: one store, served on standard input and output.
//!
//! Requests are read from standard input and their replies written to standard output, in RESP2. Of the words on the command
//! line the first one may ask for help or the version; all others are ignored. The statuses: 0 at the end of the input, and
//! for help and the version; 1 after the error line of a fault in the input, or where it ends
//! inside a request; 2 where a read or a write failed; 3 where memory was wanting, for the words, for a request to be read or
//! queued or for a reply. What cannot be told by an error line is told on standard error.
#![tactic(auto)]

#[cfg(test)]
mod tests;

ghost use Rattle.std.specs.Prelude.{◌≡◌, option_map};
ghost use Rattle.shardkv_solo.specs.Status as spec;
ghost use Rattle.shardkv_solo.specs.Words.{asked_by};

use options::VERSION;
use serving::{ServeFault, Served};
use solo::{ConnectionFault, Solo};
use std::hash::{BuildHasherDefault, FoldHasher};
use std::io::{self, ErrorKind, Read, Write};
use std::process::ExitCode;
use std::{env, mem};

/// What help tells.
const HELP: &str =
    "Reads requests in RESP2 on standard input, and writes their replies to standard output.

Usage: shardkv-solo [OPTIONS]

Options:
  -h, --help     Print help
  -V, --version  Print version";

/// What the words on the command line ask for.
#[derive(Clone, Copy, Debug, PartialEq, Eq)]
enum Asked {
    Serving,
    Help,
    Version,
}

fn main(rt: HostRuntime) -> ExitCode {
    let asked = match words(&rt) {
        Ok(words) => purpose(first_word(words.as_slice())),
        Err(fault) if fault.kind() == ErrorKind::OutOfMemory => {
            let _ = eprintln!(rt; "shardkv-solo: out of memory");
            return ExitCode::from(3);
        }
        Err(_) => Asked::Serving,
    };
    let told = match asked {
        Asked::Serving => return ExitCode::from(serve(&rt, &mut rt.stdin(), &mut rt.stdout())),
        Asked::Help => println!(rt; "{HELP}"),
        Asked::Version => println!(rt; "shardkv-solo {VERSION}"),
    };
    match told {
        Ok(()) => ExitCode::from(0),
        Err(_) => ExitCode::from(2),
    }
}

/// The words on the command line.
fn words<R: env::Env + AllocGlobal>(rt: &R) -> io::Result<Vec<String>> {
    Ok(env::args(rt)?.collect(rt.alloc())?)
}

/// The first word behind the program's name, if there is one.
fn first_word(words: &[String]) -> Option<&str> {
    match words.get(1) {
        Some(word) => Some(word.as_str()),
        None => None,
    }
}

/// What this first word asks for.
fn purpose(word: Option<&str>) -> Asked
    ensures { result ≡ asked_by (option_map (λ w. w.now) word.entry) }
{
    let Some(word) = word else {
        return Asked::Serving;
    };
    if word == "--help" || word == "-h" {
        return Asked::Help;
    }
    if word == "--version" || word == "-V" {
        return Asked::Version;
    }
    Asked::Serving
}

/// Serves one store, and gives the status.
fn serve<R, I: Read, O: Write>(rt: &R, input: &mut I, output: &mut O) -> u8
where
    R: AllocGlobal + Eprint,
{
    let mut store = Solo::new(rt.alloc(), BuildHasherDefault::<FoldHasher>::new());
    let served = store.serve(input, output);
    // The process ends: the system takes its memory back whole, and no key is let go one by one before.
    mem::forget(store);
    let _ = match &served {
        Ok(Served::Inside) => eprintln!(rt; "shardkv-solo: input ends inside a request"),
        Ok(_) => Ok(()),
        Err(fault) => eprintln!(rt; "shardkv-solo: {fault}"),
    };
    status_of(served)
}

/// The status for how serving ended.
fn status_of(served: Result<Served, ServeFault<ConnectionFault>>) -> u8
    ensures { result ≡ spec.status_of served }
{
    match served {
        Ok(Served::End) => 0,
        Ok(Served::Protocol(_)) => 1,
        Ok(Served::Inside) => 1,
        Err(ServeFault::Read) => 2,
        Err(ServeFault::Write) => 2,
        Err(ServeFault::Memory) => 3,
        Err(ServeFault::Door(ConnectionFault::NoMemory)) => 3,
    }
}
