//! Requests as a user writes them, read against the rows of the Redis command reference.

use crate::tests::store::Row;
use command_table::{Command, Condition, Refusal, StringCommand, keys_of, name, read};
use resp::{Reply, Request, write_reply};
use std::alloc::{AllocError, Global};
use std::test::Fail;
use test_support::{same, same_bytes, same_text};

pub(crate) type Read = Result<Command, Refusal>;

/// Reads the words that stand in the line, one space apart.
pub(crate) fn read_line(alloc: Global, line: &str) -> Result<Read, AllocError> {
    let mut words = Vec::new(alloc);
    for word in line.split(' ') {
        words.push(Vec::from_slice(alloc, word.as_bytes())?)?;
    }
    if words.is_empty() {
        return Ok(Err(Refusal::Unknown));
    }
    Ok(read(Request::from_words(words)))
}

/// Lets a value go. What that takes for each kind of command is seen here alone.
pub(crate) fn discard<T: Drop>(_value: T) {}

/// The refusal has this text, and its reply too.
fn says(alloc: Global, line: &str, refusal: &Refusal, want: &str) -> Result<(), Fail> {
    same_text(line, refusal.to_string(alloc)?.as_str(), want)?;
    let mut reply = Vec::new(alloc);
    write_reply(&Reply::Error(refusal.text()), &mut reply)?;
    let wanted = format!(in alloc; "-{want}\r\n")?;
    same_bytes(line, &reply, wanted.as_bytes())
}

/// It was refused with this text.
fn refused(alloc: Global, line: &str, read: &Read, want: &str) -> Result<(), Fail> {
    match read {
        Ok(_) => Err("it was read".into()),
        Err(refusal) => says(alloc, line, refusal, want),
    }
}

/// The line is refused with this text.
fn refuses(alloc: Global, line: &str, want: &str) -> Result<(), Fail> {
    let read = read_line(alloc, line)?;
    let checked = refused(alloc, line, &read, want);
    discard(read);
    checked
}

fn refuses_each(alloc: Global, rows: &[Row]) -> Result<(), Fail> {
    for row in rows {
        let (line, want) = *row;
        refuses(alloc, line, want)?;
    }
    Ok(())
}

/// Lines, and the text with which each is refused.
#[rattlefmt::skip]
const REFUSED: [Row; 17] = [
    ("FOO", "ERR unknown command"),
    ("", "ERR unknown command"),
    ("g\u{e9}t a", "ERR unknown command"),
    ("PING x y", "ERR wrong number of arguments for 'ping' command"),
    ("EchO", "ERR wrong number of arguments for 'echo' command"),
    ("ECHO x y", "ERR wrong number of arguments for 'echo' command"),
    ("GET", "ERR wrong number of arguments for 'get' command"),
    ("get a b", "ERR wrong number of arguments for 'get' command"),
    ("SET a", "ERR wrong number of arguments for 'set' command"),
    ("DEL", "ERR wrong number of arguments for 'del' command"),
    ("rename a", "ERR wrong number of arguments for 'rename' command"),
    ("SMOVE a b", "ERR wrong number of arguments for 'smove' command"),
    ("SETNX a 1 NX", "ERR wrong number of arguments for 'setnx' command"),
    ("SET a 1 NX XX", "ERR syntax error"),
    ("SET a 1 NX NX XX", "ERR syntax error"),
    ("SET a 1 EX 10", "ERR syntax error"),
    ("SET a 1 NX x", "ERR syntax error"),
];

#[test]
fn refuses_what_the_table_refuses(rt: HostRuntime) -> Result<(), Fail> {
    refuses_each(rt.alloc(), &REFUSED)
}

#[test]
fn says_why_a_request_is_refused(rt: HostRuntime) -> Result<(), Fail> {
    let want = "ERR value is not an integer or out of range";
    says(rt.alloc(), "no integer", &Refusal::NotInteger, want)?;
    says(
        rt.alloc(),
        "no memory",
        &Refusal::Memory,
        "ERR out of memory",
    )
}

#[test]
fn takes_no_name_that_is_no_text(rt: HostRuntime) -> Result<(), Fail> {
    let read = read(Request::copy_of(rt.alloc(), &[b"\xffget", b"a"])?);
    let want = "ERR unknown command";
    let checked = refused(rt.alloc(), "a name that is no text", &read, want);
    discard(read);
    checked
}

/// The name of the command and, behind it, its keys.
fn told(alloc: Global, command: &Command) -> Result<Vec<u8>, AllocError> {
    let mut told = name(command).as_bytes().to_vec(alloc)?;
    let keys = keys_of(command);
    for place in 0..keys.len() {
        told.push(b' ')?;
        told.extend_from_slice(keys.at(place))?;
    }
    Ok(told)
}

/// The line was read as a command with this name and these keys, which is none for all keys.
fn tells(alloc: Global, line: &str, read: &Read, want: &str) -> Result<(), Fail> {
    let Ok(command) = read else {
        return Err("it was refused".into());
    };
    same(line, &keys_of(command).is_all(), &false)?;
    same_bytes(line, &told(alloc, command)?, want.as_bytes())
}

fn tells_line(alloc: Global, line: &str, want: &str) -> Result<(), Fail> {
    let read = read_line(alloc, line)?;
    let checked = tells(alloc, line, &read, want);
    discard(read);
    checked
}

fn tells_each(alloc: Global, rows: &[Row]) -> Result<(), Fail> {
    for row in rows {
        let (line, want) = *row;
        tells_line(alloc, line, want)?;
    }
    Ok(())
}

/// Lines, and each command's name and keys.
#[rattlefmt::skip]
const TOLD: [Row; 14] = [
    ("PiNG", "ping"),
    ("ping hi", "ping"),
    ("ECHO ", "echo"),
    ("gEt a", "get a"),
    ("SET a 1", "set a"),
    ("SET a 1 nx NX", "set a"),
    ("DEL a b a", "del a b a"),
    ("DEL a b c d e f g h i", "del a b c d e f g h i"),
    ("Rename a b", "rename a b"),
    ("SETNX a 1", "setnx a"),
    ("SADD k a b", "sadd k"),
    ("smove a b m", "smove a b"),
    ("SUNION a b a", "sunion a b a"),
    ("SInterStore t a b", "sinterstore t a b"),
];

#[test]
fn tells_name_and_keys(rt: HostRuntime) -> Result<(), Fail> {
    tells_each(rt.alloc(), &TOLD)
}

/// The line was read as a SET with this condition.
fn sets(line: &str, read: &Read, want: Condition) -> Result<(), Fail> {
    match read {
        Ok(Command::Str(StringCommand::Set { condition, .. })) => same(line, condition, &want),
        _ => Err("no SET was read".into()),
    }
}

/// The line is read as a SET with this condition.
fn sets_line(alloc: Global, line: &str, want: Condition) -> Result<(), Fail> {
    let read = read_line(alloc, line)?;
    let checked = sets(line, &read, want);
    discard(read);
    checked
}

#[test]
fn reads_the_options_of_set(rt: HostRuntime) -> Result<(), Fail> {
    sets_line(rt.alloc(), "SET a 1", Condition::Always)?;
    sets_line(rt.alloc(), "SET a 1 nx NX", Condition::IfAbsent)?;
    sets_line(rt.alloc(), "set a 1 Xx", Condition::IfPresent)
}
