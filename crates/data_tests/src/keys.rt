//! Keys of one table, at a concrete hasher: they come and go, and the room of many that went is given back.

use hashed_texts::TextHasher;
use keyspace::{Keyspace, Plain};
use std::alloc::{AllocError, Global};
use std::hash::{BuildHasherDefault, FoldHasher};
use std::test::Fail;
use test_support::{holds, same_bytes, same_number};
use texts::Text;
use values::Value;

pub(crate) type Keys = Plain<BuildHasherDefault<FoldHasher>>;

pub(crate) fn no_keys(alloc: Global) -> Keys {
    let hasher = BuildHasherDefault::<FoldHasher>::new();
    Plain::new(alloc, hasher, TextHasher::Fixed)
}

pub(crate) fn put(alloc: Global, keys: &mut Keys, key: &[u8], value: Value) -> Result<(), Fail> {
    match keys.put(key.to_vec(alloc)?, value) {
        Ok(_) => Ok(()),
        Err(_) => Err(Fail::from(AllocError)),
    }
}

fn put_text(alloc: Global, keys: &mut Keys, key: &[u8], text: &[u8]) -> Result<(), Fail> {
    let value = Value::Str(Text::copy_of(alloc, text)?);
    put(alloc, keys, key, value)
}

/// The text of this name lies at the key.
fn has(line: &str, keys: &Keys, key: &[u8], want: &[u8]) -> Result<(), Fail> {
    match keys.look(key) {
        Some(Value::Str(text)) => same_bytes(line, text.as_slice(), want),
        _ => Err("no text lies there".into()),
    }
}

/// So many keys are there.
fn counts(line: &str, keys: &Keys, wanted: u64) -> Result<(), Fail> {
    same_number(line, keys.size() as u64, wanted)
}

/// The key was there, and goes.
fn goes(line: &str, keys: &mut Keys, key: &[u8]) -> Result<(), Fail> {
    holds(line, keys.take(key).is_some())?;
    holds(line, keys.look(key).is_none())
}

/// Keys are put, one of them again, and so many are there each time.
fn come(alloc: Global, keys: &mut Keys) -> Result<(), Fail> {
    put_text(alloc, keys, b"a", b"1")?;
    counts("a", keys, 1)?;
    put_text(alloc, keys, b"", b"2")?;
    counts("the empty key", keys, 2)?;
    put_text(alloc, keys, b"a", b"3")?;
    counts("a again", keys, 2)
}

/// What was put last lies there.
fn stay(keys: &Keys) -> Result<(), Fail> {
    has("a", keys, b"a", b"3")?;
    has("the empty key", keys, b"", b"2")?;
    holds("b is not there", keys.look(b"b").is_none())
}

/// One key goes, and then all.
fn go(keys: &mut Keys) -> Result<(), Fail> {
    goes("a", keys, b"a")?;
    keys.clear();
    counts("all are gone", keys, 0)
}

fn come_and_go(alloc: Global, keys: &mut Keys) -> Result<(), Fail> {
    come(alloc, keys)?;
    stay(keys)?;
    go(keys)
}

#[test]
fn keys_come_and_go(rt: HostRuntime) -> Result<(), Fail> {
    come_and_go(rt.alloc(), &mut no_keys(rt.alloc()))
}

/// The key of this number.
fn numbered(number: u32) -> [u8; 4] {
    number.to_be_bytes()
}

/// Puts keys of these numbers.
fn put_each(alloc: Global, keys: &mut Keys, end: u32) -> Result<(), Fail> {
    for number in 0..end {
        put_text(alloc, keys, &numbered(number), b"1")?;
    }
    Ok(())
}

/// All keys below this number go.
fn each_goes(keys: &mut Keys, end: u32) -> Result<(), Fail> {
    for number in 0..end {
        goes("a key of many", keys, &numbered(number))?;
    }
    Ok(())
}

/// The keys of these numbers are there.
fn has_each(keys: &Keys, first: u32, end: u32) -> Result<(), Fail> {
    for number in first..end {
        has("a key that stays", keys, &numbered(number), b"1")?;
    }
    Ok(())
}

/// All keys but the last ten go, and most of the room with them.
fn most_go(alloc: Global, keys: &mut Keys) -> Result<(), Fail> {
    put_each(alloc, keys, 5000)?;
    holds("room for all", keys.capacity() >= 5000)?;
    each_goes(keys, 4990)?;
    holds("room for few", keys.capacity() <= 1024)?;
    has_each(keys, 4990, 5000)
}

fn room_goes(alloc: Global, keys: &mut Keys) -> Result<(), Fail> {
    most_go(alloc, keys)?;
    keys.clear();
    holds("no room", keys.capacity() < 10)
}

#[test]
fn room_of_keys_that_went_is_given_back(rt: HostRuntime) -> Result<(), Fail> {
    room_goes(rt.alloc(), &mut no_keys(rt.alloc()))
}
