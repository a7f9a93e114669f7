//! How byte strings are hashed.
//!
//! It is one type for both kinds of seed, and no parameter of those above: what is moved into a thread may not rest on a
//! bound of a trait's impl, and a value that holds members or fields has no parameter for how they are hashed.

use std::hash::{BuildHasher, DefaultHasher, FoldHasher, Hasher, RandomState};

/// Makes the hashers of a table's texts. A table keeps the one that it was made with, and so does each copy of it.
#[derive(Clone, Copy)]
pub enum TextHasher {
    /// With a seed that is the same in every run: fast, and for those who may be trusted with the texts.
    Fixed,
    /// With keys that were drawn at random: for a server that strangers reach.
    Random(RandomState),
}

/// The hash of one text, as far as it was fed.
#[derive(Drop)]
pub enum TextHash {
    Fixed(FoldHasher),
    Random(DefaultHasher),
}

impl BuildHasher for TextHasher {
    type Hasher = TextHash;

    ghost use Rattle.hashed_texts.specs.Hasher.{hasher_of};

    ghost build_hasher = { hasher_of };

    fn build_hasher(&self) -> TextHash {
        match self {
            TextHasher::Fixed => TextHash::Fixed(FoldHasher::default()),
            TextHasher::Random(state) => TextHash::Random(state.build_hasher()),
        }
    }
}

impl Hasher for TextHash {
    ghost use Rattle.hashed_texts.specs.Hasher.{written, finished};

    ghost write = { written };

    ghost finish = { finished };

    fn finish(&self) -> u64 {
        match self {
            TextHash::Fixed(hasher) => hasher.finish(),
            TextHash::Random(hasher) => hasher.finish(),
        }
    }

    fn write(&mut self, bytes: &[u8]) {
        match self {
            TextHash::Fixed(hasher) => hasher.write(bytes),
            TextHash::Random(hasher) => hasher.write(bytes),
        }
    }
}
