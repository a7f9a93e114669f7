//! A list of byte strings.

ghost use Rattle.std.specs.Prelude.{◌≡◌, length};
ghost use Rattle.texts.specs.Texts.{texts_of};

use std::marker::Model;

/// One of the two ends of a list.
#[derive(Clone, Copy, Debug, PartialEq, Eq)]
pub enum End {
    /// Before the first item.
    Head,

    /// Behind the last item.
    Tail,
}

/// A list of byte strings, as the keys of a command. Contracts see the list of their bytes.
#[derive(Drop)]
pub struct Texts {
    texts: Vec<Vec<u8>>,
}

impl Model for Texts {
    ghost use Rattle.std.specs.Prelude.{List};
    ghost use Rattle.texts.specs.Texts.{Bytes, texts_of};

    ghost Value = { List Bytes };

    ghost view = { λ l. texts_of l.texts.items };
}

impl Texts {
    /// The strings, to be read one after another.
    pub fn as_slice(&self) -> &[Vec<u8>]
        ensures { texts_of result.now ≡ self.now }
    {
        self.texts.as_slice()
    }

    /// How many strings there are.
    pub fn len(&self) -> usize
        ensures { result ≡ length self.now }
    {
        self.texts.len()
    }

    /// The strings, given back with the memory that they lie in.
    pub fn into_vec(self) -> Vec<Vec<u8>>
        ensures { texts_of result.items ≡ self }
    {
        self.texts
    }
}

impl From<Vec<Vec<u8>>> for Texts {
    ghost from_gives = { λ texts l. l ≡ texts_of texts.items };

    fn from(texts: Vec<Vec<u8>>) -> Texts {
        Texts { texts }
    }
}
