//! The text of a dump: keys in order, each kind of value, and the empty text.

use crate::keys::{Keys, no_keys, put};
use dumps::Dump;
use hashed_texts::TextHasher;
use std::alloc::Global;
use std::test::Fail;
use test_support::{same_bytes, same_count};
use texts::{End, Pairs, Text, Texts};
use values::{HashValue, ListValue, SetValue, Value};

fn texts(alloc: Global, words: &[&str]) -> Result<Vec<Vec<u8>>, Fail> {
    let mut texts = Vec::new(alloc);
    for word in words {
        texts.push(word.as_bytes().to_vec(alloc)?)?;
    }
    Ok(texts)
}

/// What lies at a key.
#[derive(Clone, Copy)]
enum Kind {
    One,
    EmptyText,
    List,
    Hash,
    Set,
}

const FILLED: [(&[u8], Kind); 5] = [
    (b"c", Kind::One),
    (b"", Kind::EmptyText),
    (b"bc", Kind::List),
    (b"b", Kind::Hash),
    (b"\xff", Kind::Set),
];

fn value_of(alloc: Global, kind: Kind) -> Result<Value, Fail> {
    match kind {
        Kind::One => Ok(Value::Str(Text::copy_of(alloc, b"1")?)),
        Kind::EmptyText => Ok(Value::Str(Text::empty(alloc))),
        Kind::List => list(alloc),
        Kind::Hash => hash(alloc),
        Kind::Set => set(alloc),
    }
}

/// Puts each kind of value.
fn fill(alloc: Global, keys: &mut Keys) -> Result<(), Fail> {
    for (key, kind) in FILLED {
        put(alloc, keys, key, value_of(alloc, kind)?)?;
    }
    Ok(())
}

fn list(alloc: Global) -> Result<Value, Fail> {
    let items = Texts::from(texts(alloc, &["b", "", "a"])?);
    let list = ListValue::from_pushes(End::Tail, items).ok_or("no list")?;
    Ok(Value::List(list))
}

fn hash(alloc: Global) -> Result<Value, Fail> {
    let turns = texts(alloc, &["g", "2", "f", "jk"])?;
    same_count("what is left over", turns.len() % 2, 0)?;
    let pairs = Pairs::from_turns(turns);
    let hash = HashValue::from_pairs(alloc, TextHasher::Fixed, pairs)?.ok_or("no hash")?;
    Ok(Value::Hash(hash))
}

fn set(alloc: Global) -> Result<Value, Fail> {
    let members = Texts::from(texts(alloc, &["n", "m", "n"])?);
    let set = SetValue::from_members(alloc, TextHasher::Fixed, members)?.ok_or("no set")?;
    Ok(Value::Set(set))
}

/// The dump is written behind what is there.
fn is_written(alloc: Global, dump: &Dump<'_>, want: &[u8]) -> Result<(), Fail> {
    let mut out = b"before ".to_vec(alloc)?;
    dump.write(&mut out)?;
    same_bytes("the dump", &out, want)
}

/// The dump of these keys is this text.
fn is_dumped(alloc: Global, keys: &Keys, want: &[u8]) -> Result<(), Fail> {
    let mut dump = Dump::new(alloc);
    dump.add_all(keys)?;
    is_written(alloc, &dump, want)
}

fn fill_and_dump(alloc: Global, keys: &mut Keys) -> Result<(), Fail> {
    fill(alloc, keys)?;
    let want =
        b"before key - string -\nkey 62 hash 67 32 66 6a6b\nkey 6263 list 62 - 61\nkey 63 string 31\nkey ff set 6d 6e\n";
    is_dumped(alloc, keys, want)
}

#[test]
fn each_kind_of_value(rt: HostRuntime) -> Result<(), Fail> {
    fill_and_dump(rt.alloc(), &mut no_keys(rt.alloc()))
}
