//! What clients that count together ask, and what they are to be told.

use std::alloc::{AllocError, Global};
use test_support::requests_of;

/// One round: an INCR of `a`, two more on `c`, the one member that `y` and `z` share put at `x`, the digit to `b` and `d`
/// at once, and both of these read.
fn round_of(alloc: Global, digit: usize) -> Result<Vec<u8>, AllocError> {
    let round = format!(in alloc;
        "INCR a; INCRBY c 2; SINTERSTORE x y z; MSET b {digit} d {digit}; MGET d b"
    )?;
    requests_of(alloc, round.as_str())
}

/// These bytes so many times.
fn often(alloc: Global, bytes: &[u8], times: usize) -> Result<Vec<u8>, AllocError> {
    let mut all = Vec::new(alloc);
    for _ in 0..times {
        all.extend_from_slice(bytes)?;
    }
    Ok(all)
}

/// So many rounds of this digit.
pub(crate) fn count_requests(
    alloc: Global,
    rounds: usize,
    digit: usize,
) -> Result<Vec<u8>, AllocError> {
    let round = round_of(alloc, digit)?;
    often(alloc, round.as_slice(), rounds)
}

/// Whether these are the replies to so many rounds: the sums rise, and `b` and `d` are one and the same each time.
pub(crate) fn are_counted(rounds: usize, replies: &[u8]) -> bool {
    let Ok(text) = str::from_utf8(replies) else {
        return false;
    };
    let mut lines = text.lines();
    let mut sums = (0, 0);
    for _ in 0..rounds {
        match (integer(lines.next()), integer(lines.next())) {
            (Some(ones), Some(twos)) if sums.0 < ones && sums.1 < twos => sums = (ones, twos),
            _ => return false,
        }
        for line in [":1", "+OK", "*2", "$1"] {
            if lines.next() != Some(line) {
                return false;
            }
        }
        let second = lines.next();
        if lines.next() != Some("$1") || second.is_none() || lines.next() != second {
            return false;
        }
    }
    lines.next().is_none()
}

/// The number of an integer's line.
fn integer(line: Option<&str>) -> Option<u64> {
    line?.strip_prefix(':')?.parse::<u64>().ok()
}
