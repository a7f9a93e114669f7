//! Reading from memory what the next requests of a connection will need.
//!
//! Of a request's time over many keys most goes into waiting for memory: for its key in the table, then for the value
//! there, then for the bytes of a string. What is looked for of several requests at once is waited for side by side.
//! Nothing is changed by that, and no clause speaks of it.

use keyspace::{Keyspace, Plain};
use resp_decoder::Ahead;
use serving::TOLD_AT_ONCE;
use std::hash::BuildHasher;
use std::sync::atomic::{AtomicU64, Ordering};
use values::Value;

/// The table of so few keys lies in the processor's cache, with what it holds.
const FEW_KEYS: i64 = 4096;

/// Where a longer word comes no more are looked for: to hash and to compare it takes as long as is won.
const LONGEST_KEY: usize = 32;

/// What was read ahead, at which no one looks: it is kept so that no reading is left out as needless.
#[derive(Drop)]
pub(crate) struct Sight {
    seen: AtomicU64,
}

impl Sight {
    pub fn new() -> Self {
        Sight {
            seen: AtomicU64::new(0),
        }
    }

    /// Reads what lies at the keys that come next: at the second words of the requests, where there are many keys.
    pub fn read_ahead<S: BuildHasher>(&self, keys: &Plain<S>, ahead: Ahead<'_>) {
        if keys.size() <= FEW_KEYS {
            return;
        }
        let values = values_at(keys, words_of(ahead));
        self.seen.store(seen_in(&values), Ordering::Relaxed);
    }
}

/// The second words of the requests that come next, as many as are told of at once, up to one that is long.
fn words_of(mut ahead: Ahead<'_>) -> [&[u8]; TOLD_AT_ONCE] {
    let mut words: [&[u8]; TOLD_AT_ONCE] = [&[]; TOLD_AT_ONCE];
    for place in 0..TOLD_AT_ONCE {
        let Some(word) = ahead.next() else {
            break;
        };
        if word.len() > LONGEST_KEY {
            break;
        }
        words[place] = word;
    }
    words
}

/// The values at these keys, of which nothing is read yet. An empty word may be no key, and isn't looked for.
fn values_at<'a, S: BuildHasher>(
    keys: &'a Plain<S>,
    words: [&[u8]; TOLD_AT_ONCE],
) -> [Option<&'a Value>; TOLD_AT_ONCE] {
    let mut values: [Option<&'a Value>; TOLD_AT_ONCE] = [None; TOLD_AT_ONCE];
    for place in 0..TOLD_AT_ONCE {
        if !words[place].is_empty() {
            values[place] = keys.look(words[place]);
        }
    }
    values
}

/// What is seen of these values together.
fn seen_in(values: &[Option<&Value>]) -> u64 {
    let mut seen = 0;
    for value in values {
        seen ^= match value {
            Some(Value::Str(text)) => seen_of(text.as_slice()),
            Some(Value::List(items)) => items.len() as u64,
            _ => 0,
        };
    }
    seen
}

/// What the first byte, the one in the middle and the last one are together.
fn seen_of(bytes: &[u8]) -> u64 {
    match (bytes.first(), bytes.get(bytes.len() / 2), bytes.last()) {
        (Some(first), Some(middle), Some(last)) => u64::from(*first ^ *middle ^ *last),
        _ => 0,
    }
}
