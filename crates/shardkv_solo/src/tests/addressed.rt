//! The groups of requests in the words of a user: a table of 64 shards, and which of them each request addresses.

use crate::tests::rows::command;
use crate::tests::table::discard;
use placement::Table;
use std::alloc::Global;
use std::test::Fail;
use test_support::same_bytes;

/// A table of 64 shards, with 16 slots each.
fn table_of_64_shards(alloc: Global) -> Result<String, Fail> {
    let mut text = String::from_str(alloc, "shards = 64\n")?;
    for shard in 0..64u16 {
        let (from, to) = (16 * shard, 16 * shard + 15);
        write!(
            text,
            "[[range]]\nfrom = {from}\nto = {to}\nshard = {shard}\n"
        )?;
    }
    Ok(text)
}

/// The numbers of the groups that the words of this line address.
fn groups_addressed(alloc: Global, table: &Table, line: &str) -> Result<Vec<u8>, Fail> {
    let command = command(alloc, line)?;
    let groups = table.groups(&command);
    discard(command);
    let mut numbers = Vec::new(alloc);
    for group in groups.iter() {
        numbers.push(group.number())?;
    }
    Ok(numbers)
}

/// Requests, and the groups of 64 that each addresses.
#[rattlefmt::skip]
const ADDRESSED: [(&str, &[u8]); 6] = [
    ("GET ", &[50]), ("DEL c a", &[8, 63]), ("DEL z a b {a}1 z", &[8, 26, 38]), ("SET y a", &[21]), ("PING", &[]), ("ECHO a", &[]),
];

/// The words of this line address the groups of these numbers.
fn addresses(alloc: Global, table: &Table, line: &str, wanted: &[u8]) -> Result<(), Fail> {
    let numbers = groups_addressed(alloc, table, line)?;
    same_bytes(line, &numbers, wanted)
}

fn each_addresses(alloc: Global, table: &Table) -> Result<(), Fail> {
    for (line, wanted) in &ADDRESSED {
        addresses(alloc, table, line, wanted)?;
    }
    Ok(())
}

#[test]
fn requests_address_the_shards_of_their_keys(rt: HostRuntime) -> Result<(), Fail> {
    let text = table_of_64_shards(rt.alloc())?;
    let table = Table::from_toml(rt.alloc(), text.as_str())?;
    each_addresses(rt.alloc(), &table)
}
