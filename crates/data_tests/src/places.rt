//! Places known from outside, and tables as a user writes them.

use placement::{Table, TableFault, hash_of, slot_of, tag_of};
use std::alloc::Global;
use std::test::Fail;
use test_support::{holds, same, same_bytes, same_count, same_number, same_text};

const TWO_SHARDS: &str = "shards = 2

[[range]]
from = 0
to = 511
shard = 0

[[range]]
from = 512
to = 1023
shard = 1
";

/// Texts and their hashes.
const HASHES: [(&str, u64); 4] = [
    ("", 0xcbf29ce484222325),
    ("a", 0xaf63dc4c8601ec8c),
    ("b", 0xaf63df4c8601f1a5),
    ("foobar", 0x85944171f73967e8),
];

fn each_has_hash(rows: &[(&str, u64)]) -> Result<(), Fail> {
    for row in rows {
        let (text, want) = *row;
        same_number(text, hash_of(text.as_bytes()), want)?;
    }
    Ok(())
}

#[test]
fn hashes_as_published() -> Result<(), Fail> {
    each_has_hash(&HASHES)
}

/// Keys and their tags.
const TAGS: [(&str, &str); 5] = [
    ("{user1000}.following", "user1000"),
    ("foo{}{bar}", "foo{}{bar}"),
    ("foo{{bar}}zap", "{bar"),
    ("foo{bar}{zap}", "bar"),
    ("}foo{bar", "}foo{bar"),
];

fn each_has_tag(rows: &[(&str, &str)]) -> Result<(), Fail> {
    for row in rows {
        let (key, tag) = *row;
        same_bytes(key, tag_of(key.as_bytes()), tag.as_bytes())?;
    }
    Ok(())
}

#[test]
fn tags_are_those_of_redis_cluster() -> Result<(), Fail> {
    each_has_tag(&TAGS)
}

/// Keys and their slots.
#[rattlefmt::skip]
const SLOTS: [(&str, usize); 12] = [
    ("", 805), ("a", 140), ("b", 421), ("c", 1010), ("d", 883), ("x", 775), ("y", 340), ("z", 621), ("{a}1", 140), ("x{a}", 140),
    ("{}a", 396), ("{a", 33),
];

fn each_lies_in_slot(rows: &[(&str, usize)]) -> Result<(), Fail> {
    for row in rows {
        let (key, slot) = *row;
        same_count(key, slot_of(key.as_bytes()), slot)?;
    }
    Ok(())
}

#[test]
fn keys_lie_in_their_slots() -> Result<(), Fail> {
    each_lies_in_slot(&SLOTS)
}

/// Keys, and the number of the shard of two where each lies.
#[rattlefmt::skip]
const IN_TWO: [(&str, u64); 8] = [
    ("a", 0), ("b", 0), ("y", 0), ("c", 1), ("d", 1), ("x", 1), ("z", 1), ("", 1),
];

fn each_lies_in_shard(table: &Table, rows: &[(&str, u64)]) -> Result<(), Fail> {
    for row in rows {
        let (key, shard) = *row;
        same_number(key, table.shard_of(key.as_bytes()).number().into(), shard)?;
    }
    Ok(())
}

#[test]
fn reads_a_table(rt: HostRuntime) -> Result<(), Fail> {
    let table = Table::from_toml(rt.alloc(), TWO_SHARDS)?;
    same_number("shards", table.shards().into(), 2)?;
    let copy = table;
    holds("a copy is the same", copy == table)?;
    each_lies_in_shard(&copy, &IN_TWO)
}

/// A line of `TWO_SHARDS`, what it is replaced by, and why the text is then refused.
type Refused = (&'static str, &'static str, TableFault);

#[rattlefmt::skip]
const REFUSED: [Refused; 28] = [
    ("from = 512", "from = 513", TableFault::Missing),
    ("from = 512", "from = 511", TableFault::Twice),
    ("shard = 1", "shard = 2", TableFault::Shard),
    ("shards = 2", "shards = \"2\"", TableFault::Toml),
    ("shards = 2", "shards = 0", TableFault::Shard),
    ("shards = 2", "shards = 65", TableFault::Shard),
    ("shards = 2", "shards = -1", TableFault::Shard),
    ("shards = 2", "shards = 9223372036854775807", TableFault::Shard),
    ("shards = 2", "shards = 9223372036854775808", TableFault::Toml),
    ("shards = 2", "shards =", TableFault::Toml),
    ("shards = 2", "shards = 2\nname = \"a\"", TableFault::Toml),
    ("shards = 2", "", TableFault::Toml),
    ("to = 1023", "to = 1024", TableFault::Toml),
    ("to = 1023", "to = 1023.0", TableFault::Toml),
    ("from = 0", "from = 512", TableFault::Toml),
    ("from = 0", "from = -1", TableFault::Toml),
    ("shard = 1", "shard = -9223372036854775809", TableFault::Toml),
    ("from = 0", "", TableFault::Toml),
    ("shard = 1", "shard = 1\nname = \"a\"", TableFault::Toml),
    ("shard = 1", "shard = -1", TableFault::Shard),
    // The first fault is told: Toml, Shard, Twice, Missing.
    ("from = 512\nto = 1023\nshard = 1", "from = 511\nto = 1024\nshard = 2", TableFault::Toml),
    ("from = 512\nto = 1023\nshard = 1", "from = 511\nto = 1023\nshard = 2", TableFault::Shard),
    ("from = 512\nto = 1023", "from = 511\nto = 1022", TableFault::Twice),
    (TWO_SHARDS, "", TableFault::Toml),
    (TWO_SHARDS, "shards = 2\nrange = []", TableFault::Missing),
    (TWO_SHARDS, "shards = 0\nrange = []", TableFault::Shard),
    (TWO_SHARDS, "shards = 2\nrange = [1]", TableFault::Toml),
    (TWO_SHARDS, "shards = 2\nrange = { from = 0, to = 1023, shard = 0 }", TableFault::Toml),
];

/// The text is refused by this fault.
fn refused(alloc: Global, line: &str, text: &str, want: &TableFault) -> Result<(), Fail> {
    match Table::from_toml(alloc, text) {
        Ok(_) => Err("it was read".into()),
        Err(fault) => same(line, &fault, want),
    }
}

/// The table with another line is refused so.
fn other_is_refused(alloc: Global, table: &str, row: &Refused) -> Result<(), Fail> {
    let (old, new, want) = row;
    let (before, behind) = table.split_once(*old).ok_or("no such line")?;
    let text = format!(in alloc; "{before}{new}{behind}")?;
    refused(alloc, text.as_str(), text.as_str(), want)
}

fn each_is_refused(alloc: Global, rows: &[Refused]) -> Result<(), Fail> {
    for row in rows {
        other_is_refused(alloc, TWO_SHARDS, row)?;
    }
    Ok(())
}

#[test]
fn refuses_what_is_no_table(rt: HostRuntime) -> Result<(), Fail> {
    each_is_refused(rt.alloc(), &REFUSED)
}

#[test]
fn reads_inline_tables_over_several_lines(rt: HostRuntime) -> Result<(), Fail> {
    let text = "shards = 1\nrange = [{\n  from = 0,\n  to = 1023,\n  shard = 0,\n}]";
    let table = Table::from_toml(rt.alloc(), text)?;
    same_number("shards", table.shards().into(), 1)
}

#[test]
fn reads_a_hundred_thousand_ranges(rt: HostRuntime) -> Result<(), Fail> {
    let mut text = String::from_str(rt.alloc(), "shards = 1\nrange = [\n")?;
    for number in 0..100_000u32 {
        let slot = number % 1024;
        write!(text, "{{ from = {slot}, to = {slot}, shard = 0 }},\n")?;
    }
    text.push(']')?;
    let line = "slots in many ranges";
    refused(rt.alloc(), line, text.as_str(), &TableFault::Twice)
}

/// Faults, and the text of each.
#[rattlefmt::skip]
const FAULTS: [(TableFault, &str); 5] = [
    (TableFault::Toml, "not a TOML document of `shards` and tables `range` of `from`, `to` and `shard`"),
    (TableFault::Missing, "a slot is in no range"),
    (TableFault::Twice, "a slot is in two ranges"),
    (TableFault::Shard, "`shards` is not 1 to 64, or a `shard` is not below it"),
    (TableFault::Memory, "out of memory"),
];

fn each_says(alloc: Global, rows: &[(TableFault, &str)]) -> Result<(), Fail> {
    for row in rows {
        let (fault, want) = row;
        same_text(want, fault.to_string(alloc)?.as_str(), want)?;
    }
    Ok(())
}

#[test]
fn says_why_a_text_is_refused(rt: HostRuntime) -> Result<(), Fail> {
    each_says(rt.alloc(), &FAULTS)
}
