//! What the programs that read a trace begin with: their words, and the files of the table and of the trace.

ghost use Rattle.std.specs.Prelude.{◌≡◌, ◌⊎◌, IfErr};

use crate::fault::status_of;
use std::fs::Files;
use std::{env, fs, io};

/// Their status where memory was wanting.
pub const MEMORY: u8 = 6;

/// The words on the command line; else the status.
pub fn words<R: env::Env + AllocGlobal>(rt: &R) -> Result<Vec<String>, u8>
    ensures { IfErr result (λ status. (status ≡ 2) ⊎ (status ≡ MEMORY)) }
{
    match given(rt) {
        Ok(words) => Ok(words),
        Err(fault) => Err(status_of(&fault, 2, MEMORY)),
    }
}

/// What was given on the command line.
fn given<R: env::Env + AllocGlobal>(rt: &R) -> io::Result<Vec<String>> {
    Ok(env::args(rt)?.collect(rt.alloc())?)
}

/// What the files of the table and of the trace hold; else what went wrong is told, and its status given.
pub fn files<R: Files + AllocGlobal + Eprint>(
    rt: &R,
    program: &str,
    table: &str,
    trace: &str,
) -> Result<(Vec<u8>, Vec<u8>), u8>
    ensures { IfErr result (λ status. (status ≡ 3) ⊎ ((status ≡ 7) ⊎ (status ≡ MEMORY))) }
{
    let table = file(rt, program, "table", table, 3)?;
    let trace = file(rt, program, "trace", trace, 7)?;
    Ok((table, trace))
}

/// What a file holds; else it is told that what it is to be can't be read, and the status is this one, or that of want of
/// memory.
fn file<R: Files + AllocGlobal + Eprint>(
    rt: &R,
    program: &str,
    role: &str,
    path: &str,
    status: u8,
) -> Result<Vec<u8>, u8>
    ensures { IfErr result (λ s. (s ≡ status) ⊎ (s ≡ MEMORY)) }
{
    match fs::read(rt, path) {
        Ok(bytes) => Ok(bytes),
        Err(fault) => {
            let _ = eprintln!(rt; "{program}: the {role} {path} can't be read: {fault}");
            Err(status_of(&fault, status, MEMORY))
        }
    }
}
