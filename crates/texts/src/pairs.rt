//! A list of pairs of byte strings.

ghost use Rattle.std.specs.Prelude.{◌≡◌, ◌<◌, ◌%◌, length, slice_get, Some};
ghost use Rattle.texts.specs.Texts.{texts_of, pairs_of, firsts, by_turns};

use std::marker::Model;

/// A list of pairs of byte strings, as the keys and values of MSET. Contracts see the list of their bytes.
#[derive(Drop)]
pub struct Pairs {
    /// The first and the second of each pair by turns.
    texts: Vec<Vec<u8>>,
}

impl Model for Pairs {
    ghost use Rattle.std.specs.Prelude.{◌≡◌, ◌%◌, List, length};
    ghost use Rattle.texts.specs.Texts.{Bytes, pairs_of, texts_of};

    ghost Value = { List (Bytes × Bytes) };

    ghost view = { λ p. pairs_of (texts_of p.texts.items) };

    ghost invariant = { λ p. length p.texts.items % 2 ≡ 0 };
}

impl Pairs {
    /// The pairs of these strings, the first and the second of each by turns. No string is copied.
    pub fn from_turns(texts: Vec<Vec<u8>>) -> Self
        requires { length texts.items % 2 ≡ 0 }
        ensures { result ≡ pairs_of (texts_of texts.items) }
    {
        Pairs { texts }
    }

    /// How many pairs there are.
    pub fn len(&self) -> usize
        ensures { result ≡ length self.now }
    {
        self.texts.as_slice().len() / 2
    }

    /// The first of the pair at this place, from 0.
    pub fn first_at(&self, place: usize) -> &[u8]
        requires { place < length self.now }
        ensures { slice_get (firsts self.now) place ≡ Some result.now }
    {
        let texts = self.texts.as_slice();
        texts[2 * place].as_slice()
    }

    /// The strings, the first and the second of each pair by turns, given back with the memory that they lie in.
    pub fn into_turns(self) -> Vec<Vec<u8>>
        ensures { texts_of result.items ≡ by_turns self }
    {
        self.texts
    }
}
