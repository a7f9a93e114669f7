//! How large a request may be.

ghost use Rattle.std.specs.Prelude.{◌<◌, ◌^◌};

/// The greatest count of words that Redis allows by default.
pub const DEFAULT_WORDS: u32 = 1_048_576;

/// The greatest length of a word, in bytes, that Redis allows by default.
pub const DEFAULT_BULK: u32 = 536_870_912;

/// The largest count of words of a request, and the largest length of a word in bytes.
#[derive(Clone, Copy, Debug, PartialEq, Eq)]
pub struct Limits {
    pub words: u32,
    pub bulk: u32,
    ghost few_words: { words < 2 ^ 32 },
    ghost short_bulk: { bulk < 2 ^ 32 },
}

impl Limits {
    /// 1,048,576 words of 536,870,912 bytes, as Redis has by default.
    pub const DEFAULT: Limits = Limits {
        words: DEFAULT_WORDS,
        bulk: DEFAULT_BULK,
    };
}
