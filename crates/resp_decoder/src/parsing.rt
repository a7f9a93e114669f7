//! Reading the parts of a request text from a slice: each function gives what the definition that its contract cites
//! gives, the value and the bytes behind it, and takes no memory. From the grammar of RESP2; the decoder calls them.

ghost use Rattle.std.specs.Prelude.{◌≡◌, ◌≤◌, ◌<◌, ◌^◌};
ghost use Rattle.resp_decoder.specs.declared.fault.Fault.TheVariants.{Memory};
ghost use Rattle.resp_decoder.specs.declared.parsing.Stop.TheVariants.{Bad};
ghost use Rattle.resp_decoder.specs.Parsing.{Gives, rest_only, byte_at, line_at, some_at, word_at};
ghost use Rattle.resp_decoder.specs.Parsing.{extended, number_on, number_at, minus_one_at, count_at, head_at};

use crate::fault::Fault;
use std::alloc::{AllocError, AllocFailed};

/// Why a text was not read to its end.
#[derive(Clone, Copy, Debug, PartialEq, Eq)]
pub enum Stop {
    /// The bytes are the beginning of a text.
    Open,
    /// The first byte that no text has there; or there was no memory.
    Bad(Fault),
}

impl From<AllocError> for Stop {
    ghost from_gives = { λ _ stop. stop ≡ Bad Memory };

    fn from(_e: AllocError) -> Stop {
        Stop::Bad(Fault::Memory)
    }
}

impl<T: Drop> From<AllocFailed<T>> for Stop {
    ghost from_gives = { λ _ stop. stop ≡ Bad Memory };

    fn from(_e: AllocFailed<T>) -> Stop {
        Stop::Bad(Fault::Memory)
    }
}

/// The bytes behind this one byte.
#[tactic(auto, unfolding(crate::specs::Parsing::byte_at))]
fn behind_byte(bytes: &[u8], byte: u8, fault: Fault) -> Result<&[u8], Stop>
    ensures { Gives (λ x. rest_only x.now) result (byte_at byte fault bytes.now) }
{
    match bytes {
        [] => Err(Stop::Open),
        [b, rest @ ..] => {
            if *b == byte {
                Ok(rest)
            } else {
                Err(Stop::Bad(fault))
            }
        }
    }
}

/// The bytes behind a line's end.
#[tactic(auto, unfolding(crate::specs::Parsing::line_at))]
fn behind_line(bytes: &[u8], fault: Fault) -> Result<&[u8], Stop>
    ensures { Gives (λ x. rest_only x.now) result (line_at fault bytes.now) }
{
    behind_byte(behind_byte(bytes, b'\r', fault)?, b'\n', fault)
}

/// The number that one more digit makes of `n`, if the byte is one that may follow.
fn extended(n: u64, b: u8, max: u64) -> Option<u64>
    requires within { n ≤ max }
    requires small { max < 2 ^ 32 }
    ensures { result ≡ extended n b max }
{
    if n > 0 && b'0' <= b && b <= b'9' && n * 10 + u64::from(b - b'0') <= max {
        return Some(n * 10 + u64::from(b - b'0'));
    }
    None
}

/// The number whose digits so far are `first`, up to the line's end.
#[tactic(auto, unfolding(crate::specs::Parsing::number_on))]
fn number_from(bytes: &[u8], max: u64, first: u64) -> Result<(u64, &[u8]), Stop>
    requires within { first ≤ max }
    requires small { max < 2 ^ 32 }
    ensures { Gives (λ x. (x.0, x.1.now)) result (number_on max first bytes.now) }
{
    let mut n = first;
    for (i, b) in bytes.iter().enumerate() {
        match extended(n, *b, max) {
            Some(more) => n = more,
            None => {
                let rest = behind_line(&bytes[i..], Fault::BadLength)?;
                return Ok((n, rest));
            }
        }
    }
    Err(Stop::Open)
}

/// A number in decimal up to the line's end, without leading zeros.
#[tactic(auto, unfolding(crate::specs::Parsing::number_at))]
fn number_of(bytes: &[u8], max: u64) -> Result<(u64, &[u8]), Stop>
    requires { max < 2 ^ 32 }
    ensures { Gives (λ x. (x.0, x.1.now)) result (number_at max bytes.now) }
{
    match bytes {
        [] => Err(Stop::Open),
        [b, rest @ ..] => {
            if b'0' <= *b && *b <= b'9' && u64::from(*b - b'0') <= max {
                number_from(rest, max, u64::from(*b - b'0'))
            } else {
                Err(Stop::Bad(Fault::BadLength))
            }
        }
    }
}

/// So many bytes.
#[tactic(auto, unfolding(crate::specs::Parsing::some_at))]
fn some_of(bytes: &[u8], n: usize) -> Result<(&[u8], &[u8]), Stop>
    ensures { Gives (λ x. (x.0.now, x.1.now)) result (some_at n bytes.now) }
{
    if bytes.len() < n {
        return Err(Stop::Open);
    }
    Ok(bytes.split_at(n))
}

/// A word: `$`, its length, and its bytes on a line of their own.
#[tactic(auto, unfolding(crate::specs::Parsing::word_at))]
pub fn word_of(bytes: &[u8], bulk: u32) -> Result<(&[u8], &[u8]), Stop>
    ensures { Gives (λ x. (x.0.now, x.1.now)) result (word_at bulk bytes.now) }
{
    let rest = behind_byte(bytes, b'$', Fault::ExpectedDollar)?;
    let (n, rest) = number_of(rest, u64::from(bulk))?;
    let (word, rest) = some_of(rest, n as usize)?;
    let rest = behind_line(rest, Fault::ExpectedCrlf)?;
    Ok((word, rest))
}

/// The bytes behind `-1` and the line's end.
#[tactic(auto, unfolding(crate::specs::Parsing::minus_one_at))]
fn behind_minus_one(bytes: &[u8]) -> Result<&[u8], Stop>
    ensures { Gives (λ x. rest_only x.now) result (minus_one_at bytes.now) }
{
    let rest = behind_byte(bytes, b'-', Fault::BadLength)?;
    let rest = behind_byte(rest, b'1', Fault::BadLength)?;
    behind_line(rest, Fault::BadLength)
}

/// A count, or none for `-1`.
#[tactic(auto, unfolding(crate::specs::Parsing::count_at))]
fn count_of(bytes: &[u8], max: u64) -> Result<(Option<u64>, &[u8]), Stop>
    requires { max < 2 ^ 32 }
    ensures { Gives (λ x. (x.0, x.1.now)) result (count_at max bytes.now) }
{
    match bytes {
        [] => Err(Stop::Open),
        [b'-', ..] => {
            let rest = behind_minus_one(bytes)?;
            Ok((None, rest))
        }
        [_, ..] => {
            let (n, rest) = number_of(bytes, max)?;
            Ok((Some(n), rest))
        }
    }
}

/// What a request begins with: `*` and its count.
#[tactic(auto, unfolding(crate::specs::Parsing::head_at))]
pub fn head_of(bytes: &[u8], words: u32) -> Result<(Option<u64>, &[u8]), Stop>
    ensures { Gives (λ x. (x.0, x.1.now)) result (head_at words bytes.now) }
{
    let rest = behind_byte(bytes, b'*', Fault::ExpectedStar)?;
    count_of(rest, u64::from(words))
}
