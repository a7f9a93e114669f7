//! Integer texts and ranges as the Redis command reference has them.

use integers::{range_of, read_integer};
use std::test::Fail;
use test_support::{same, same_count};

/// A text, and the number that it is the text of.
type Integer = (&'static str, Option<i64>);

#[rattlefmt::skip]
const TEXTS: [Integer; 16] = [
    ("0", Some(0)),
    ("-1", Some(-1)),
    ("10", Some(10)),
    ("9223372036854775807", Some(i64::MAX)),
    ("-9223372036854775808", Some(i64::MIN)),
    ("9223372036854775808", None),
    ("-9223372036854775809", None),
    ("", None),
    ("-", None),
    ("-0", None),
    ("00", None),
    ("01", None),
    ("+1", None),
    (" 1", None),
    ("1 ", None),
    ("1a", None),
];

fn each_is_read(rows: &[Integer]) -> Result<(), Fail> {
    for row in rows {
        let (text, want) = *row;
        same(text, &read_integer(text.as_bytes()), &want)?;
    }
    Ok(())
}

#[test]
fn reads_canonical_decimals() -> Result<(), Fail> {
    each_is_read(&TEXTS)?;
    same("a byte of no text", &read_integer(b"\xff1"), &None)
}

/// A start, an end and a length, in words too, and the places from the one to the other.
type Range = (&'static str, i64, i64, usize, (usize, usize));

#[rattlefmt::skip]
const RANGES: [Range; 8] = [
    ("0 -1 of 5", 0, -1, 5, (0, 5)),
    ("1 3 of 5", 1, 3, 5, (1, 4)),
    ("-3 -2 of 5", -3, -2, 5, (2, 4)),
    ("-9 9 of 5", -9, 9, 5, (0, 5)),
    ("least to greatest of 5", i64::MIN, i64::MAX, 5, (0, 5)),
    ("0 -6 of 5", 0, -6, 5, (0, 0)),
    ("0 to least of 5", 0, i64::MIN, 5, (0, 0)),
    ("0 -1 of 0", 0, -1, 0, (0, 0)),
];

fn takes_each(rows: &[Range]) -> Result<(), Fail> {
    for row in rows {
        let (line, start, end, len, want) = *row;
        same(line, &range_of(start, end, len), &want)?;
    }
    Ok(())
}

#[test]
fn takes_the_places_of_a_range() -> Result<(), Fail> {
    takes_each(&RANGES)
}

/// Starts and ends of which no place of 5 lies between.
#[rattlefmt::skip]
const EMPTY: [(&str, i64, i64); 4] = [
    ("3 2", 3, 2), ("5 9", 5, 9), ("greatest to -1", i64::MAX, -1), ("greatest to least", i64::MAX, i64::MIN),
];

fn takes_none(rows: &[(&str, i64, i64)]) -> Result<(), Fail> {
    for row in rows {
        let (line, start, end) = *row;
        let (from, to) = range_of(start, end, 5);
        same_count(line, from, to)?;
    }
    Ok(())
}

#[test]
fn takes_no_place_of_an_empty_range() -> Result<(), Fail> {
    takes_none(&EMPTY)
}
