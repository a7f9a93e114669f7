//! Looking at the requests that a decoder holds before they are taken. Nothing is taken by that, and no clause says what
//! is seen: it is a hint for those who read ahead what the requests will need.

use crate::limits::Limits;
use crate::parsing::{head_of, word_of};

/// Requests of more words aren't looked at, so that looking costs little beside taking them.
const GREATEST_COUNT: u64 = 16;

/// The requests that a decoder holds, as far as they are whole and have few words.
#[derive(Clone, Copy)]
pub struct Ahead<'a> {
    limits: Limits,
    bytes: &'a [u8],
}

impl<'a> Ahead<'a> {
    /// The requests behind the open one, which lacks so many words that are to come at the front of these bytes.
    pub(crate) fn behind_open(bytes: &'a [u8], lacking: u64, limits: Limits) -> Self {
        let behind = if lacking <= GREATEST_COUNT {
            behind_words(bytes, lacking, limits.bulk)
        } else {
            None
        };
        Ahead {
            limits,
            bytes: behind.unwrap_or(&[]),
        }
    }

    /// The second word of the next request, or the empty one where it has no second; `None` where no more is seen. It
    /// takes no memory, and time for the lines of the request alone.
    #[allow(clippy::should_implement_trait)]
    pub fn next(&mut self) -> Option<&'a [u8]> {
        let bulk = self.limits.bulk;
        let Ok((Some(count), rest)) = head_of(self.bytes, self.limits.words) else {
            return None;
        };
        if count > GREATEST_COUNT {
            return None;
        }
        let (_, rest) = word_if(count > 0, rest, bulk)?;
        let (second, rest) = word_if(count > 1, rest, bulk)?;
        self.bytes = behind_words(rest, count.saturating_sub(2), bulk)?;
        Some(second)
    }
}

/// The word at the front of the bytes, and the bytes behind it; the empty word where there is to be none.
fn word_if(is_there: bool, bytes: &[u8], bulk: u32) -> Option<(&[u8], &[u8])> {
    if !is_there {
        return Some((&[], bytes));
    }
    match word_of(bytes, bulk) {
        Ok(word) => Some(word),
        Err(_) => None,
    }
}

/// The bytes behind so many words.
fn behind_words(bytes: &[u8], count: u64, bulk: u32) -> Option<&[u8]> {
    let mut rest = bytes;
    for _ in 0..count {
        let (_, behind) = word_if(true, rest, bulk)?;
        rest = behind;
    }
    Some(rest)
}
