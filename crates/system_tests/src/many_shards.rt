//! One request of all 64 shards.

use crate::answers::follow;
use crate::tables::{system_of, table_of};
use crate::trouble::Trouble;
use placement::Table;
use shard_crew::Crew;
use shard_workers::{InTurn, Workers};
use std::alloc::Global;
use std::num::NonZeroUsize;
use std::process::Abort;
use std::test::Fail;

/// For each shard a key that lies there, found by trying `0`, `1`, `2` and so on.
fn keys(alloc: Global, table: &Table) -> Result<Vec<String>, Trouble> {
    let mut keys = Vec::new(alloc);
    for shard in 0..64u8 {
        if let Some(key) = key_of(alloc, table, shard)? {
            keys.push(key)?;
        }
    }
    Ok(keys)
}

/// The first of `0`, `1`, `2` and so on that lies on this shard, of 10,000.
fn key_of(alloc: Global, table: &Table, shard: u8) -> Result<Option<String>, Trouble> {
    for number in 0..10_000u32 {
        let key = format!(in alloc; "{number}")?;
        if table.shard_of(key.as_bytes()).number() == shard {
            return Ok(Some(key));
        }
    }
    Ok(None)
}

/// Each key twice, a blank before each word.
fn pairs(alloc: Global, keys: &[String]) -> Result<String, Trouble> {
    let mut pairs = String::new(alloc);
    for key in keys {
        write!(pairs, " {key} {key}")?;
    }
    Ok(pairs)
}

/// Each key, a blank before it.
fn names(alloc: Global, keys: &[String]) -> Result<String, Trouble> {
    let mut names = String::new(alloc);
    for key in keys {
        write!(names, " {key}")?;
    }
    Ok(names)
}

/// Each key as a value that is replied, with `|` for CR LF.
fn values(alloc: Global, keys: &[String]) -> Result<String, Trouble> {
    let mut values = String::new(alloc);
    for key in keys {
        let digits = key.len();
        write!(values, "${digits}|{key}|")?;
    }
    Ok(values)
}

/// Sets all keys by one request, gets all by one, and removes all by one. Each such request has 64 Starts and, from
/// each group to each other one, a proposal. Its stamp is of the last group.
fn script(alloc: Global, keys: &[String]) -> Result<String, Trouble> {
    let pairs = pairs(alloc, keys)?;
    let names = names(alloc, keys)?;
    let values = values(alloc, keys)?;
    Ok(format!(in alloc;
        "open => opened 1\n\
         submit 1 MSET{pairs} => submitted 1.1\n\
         packets => 64\n\
         drain => 4096\n\
         take; run; settle => made; ran; made\n\
         collect 1 => 1.1 at 1.63 +OK|\n\
         ask 1 MGET{names} => 1.2 at 2.63 *64|{values}\n\
         ask 1 DEL{names} => 1.3 at 3.63 :64|"
    )?)
}

/// The script of 64 keys.
fn script_of_all(alloc: Global) -> Result<String, Trouble> {
    let keys = keys(alloc, &table_of(alloc, 64)?)?;
    if keys.len() != 64 {
        return Err("a shard without a key".into());
    }
    script(alloc, keys.as_slice())
}

/// Follows the script in a system of 64 shards.
fn runs<W: Workers>(rt: &impl Abort, alloc: Global, workers: &W) -> Result<(), Trouble> {
    let script = script_of_all(alloc)?;
    let mut system = system_of(alloc, 64, 100_000)?;
    follow(rt, alloc, &mut system, script.as_str(), workers)
}

#[test]
fn a_request_of_all_shards_in_turn(rt: HostRuntime) -> Result<(), Fail> {
    for number in [1, 2, 8] {
        let number = NonZeroUsize::new(number).ok_or("a number of workers")?;
        runs(&rt, rt.alloc(), &InTurn(number))?;
    }
    Ok(())
}

#[test]
fn a_request_of_all_shards_on_threads(rt: HostRuntime) -> Result<(), Fail> {
    for number in [1, 2, 8] {
        let number = NonZeroUsize::new(number).ok_or("a number of workers")?;
        runs(&rt, rt.alloc(), &Crew::new(&rt, number))?;
    }
    Ok(())
}
