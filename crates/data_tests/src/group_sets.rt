//! Sets of groups, whose elements come ascending and once.

ghost use Rattle.std.specs.Prelude.{◌≤◌};

use groups::{GroupId, Groups};
use std::alloc::Global;
use std::test::Fail;
use test_support::{same, same_bytes, same_count};

fn set(numbers: &[u8]) -> Groups {
    let mut groups = Groups::empty();
    for number in numbers {
        if *number < 64 {
            groups = groups.with(GroupId::new(*number));
        }
    }
    groups
}

/// The numbers of its elements, as they come.
fn numbers(alloc: Global, groups: Groups) -> Result<Vec<u8>, Fail> {
    let mut numbers = Vec::new(alloc);
    for group in groups.iter() {
        numbers.push(group.number())?;
    }
    Ok(numbers)
}

/// The set of these numbers, in any order and often, has those elements.
fn holds_just(alloc: Global, line: &str, put_in: &[u8], want: &[u8]) -> Result<(), Fail> {
    let groups = set(put_in);
    same_bytes(line, &numbers(alloc, groups)?, want)?;
    same_count(line, groups.len(), want.len())?;
    same(line, &groups.is_empty(), &want.is_empty())?;
    same(line, &groups, &set(want))
}

/// A case in words, the numbers, and the elements.
type Case = (&'static str, &'static [u8], &'static [u8]);

const CASES: [Case; 4] = [
    ("none", &[], &[]),
    ("the last", &[63], &[63]),
    ("one twice", &[5, 0, 63, 5, 1], &[0, 1, 5, 63]),
    ("about the middle", &[31, 32, 33, 32], &[31, 32, 33]),
];

fn each_holds_just(alloc: Global, cases: &[Case]) -> Result<(), Fail> {
    for case in cases {
        let (line, put_in, want) = *case;
        holds_just(alloc, line, put_in, want)?;
    }
    Ok(())
}

#[test]
fn sets_come_ascending_and_once(rt: HostRuntime) -> Result<(), Fail> {
    each_holds_just(rt.alloc(), &CASES)
}

/// The set of the first `count` groups has `len` elements, of which the least is this one.
fn holds_first(line: &str, count: u8, least: Option<u8>, len: usize) -> Result<(), Fail>
    requires { count ≤ 64 }
{
    let mut groups = Groups::all(count);
    same_count(line, groups.len(), len)?;
    same(line, &groups.contains(GroupId::new(63)), &(count == 64))?;
    same(line, &groups.pop_first().map(|g| g.number()), &least)
}

#[test]
fn first_groups() -> Result<(), Fail> {
    holds_first("none", 0, None, 0)?;
    holds_first("one", 1, Some(0), 1)?;
    holds_first("all but one", 63, Some(0), 63)?;
    holds_first("all", 64, Some(0), 64)
}
