//! What is told of a command: its name, and which of its words are keys.

ghost use Rattle.std.specs.Prelude.{◌≡◌, ◌<◌, length, slice_get, Some};
ghost use Rattle.command_table.specs.Held.{keys_held};
ghost use Rattle.command_table.specs.Telling.{named, is_all};

use texts::{Pairs, Text, Texts};

/// The keys of a command, where it holds them, in order of its words. Contracts see by `keys_held` what is told of them.
#[derive(Clone, Copy)]
pub enum Keys<'a> {
    /// It has none.
    None,

    /// It is for all keys there are, and names none.
    All,

    /// This one.
    One(&'a Text),

    /// These two.
    Two(&'a Text, &'a Text),

    /// Each of these.
    Each(&'a Texts),

    /// This one, and each of these behind it.
    OneAnd(&'a Text, &'a Texts),

    /// The first of each pair.
    Firsts(&'a Pairs),
}

impl<'a> Keys<'a> {
    /// Whether they are all keys there are. Then it names none.
    pub fn is_all(self) -> bool
        ensures { result ≡ is_all (keys_held self.entry) }
    {
        matches!(self, Keys::All)
    }

    /// How many keys the command names: one that stands twice counts twice.
    pub fn len(self) -> usize
        ensures { result ≡ length (named (keys_held self.entry)) }
    {
        match self {
            Keys::None | Keys::All => 0,
            Keys::One(_) => 1,
            Keys::Two(_, _) => 2,
            Keys::Each(keys) => keys.len(),
            Keys::OneAnd(_, rest) => 1 + rest.as_slice().len(),
            Keys::Firsts(pairs) => pairs.len(),
        }
    }

    /// The key at this place, from 0.
    pub fn at(self, place: usize) -> &'a [u8]
        requires { place < length (named (keys_held self)) }
        ensures { slice_get (named (keys_held self.entry)) place ≡ Some result.now }
    {
        match self {
            Keys::None | Keys::All => unreachable!(),
            Keys::One(key) => key.as_slice(),
            Keys::Two(first, second) => if place == 0 {
                first.as_slice()
            } else {
                second.as_slice()
            },
            Keys::Each(keys) => keys.as_slice()[place].as_slice(),
            Keys::OneAnd(first, rest) => if place == 0 {
                first.as_slice()
            } else {
                rest.as_slice()[place - 1].as_slice()
            },
            Keys::Firsts(pairs) => pairs.first_at(place),
        }
    }
}

/// What is told of a command: its name, in lower case, and the keys that it names, or that it is for all keys.
#[derive(Clone, Copy)]
pub(crate) struct Told<'a> {
    pub(crate) name: &'static str,
    pub(crate) keys: Keys<'a>,
}
