//! The words of a request after the command's name, taken apart. No word is copied.

ghost use Rattle.std.specs.List.{list_any};
ghost use Rattle.std.specs.Char.{to_ascii_lowercase};
ghost use Rattle.std.specs.Prelude.{◌≡◌, ◌<◌, [], ◌∷◌, length, map};
ghost use Rattle.command_table.specs.Words.{has_letter, integer_word, is_word, texts_of};

use crate::refusal::Refusal;
use integers::read_integer;
use texts::{Text, Texts};

/// Whether the word is this one, which is in lower case, without regard to the case of ASCII letters.
pub(crate) fn is_word(word: &[u8], text: &[u8]) -> bool
    requires { map to_ascii_lowercase text.now ≡ text.now }
    ensures { result ≡ is_word text.now word.now }
{
    word.eq_ignore_ascii_case(text)
}

/// Whether the word has one of these letters at this place, counted from 0.
#[inline]
pub(crate) fn has_letter(word: &[u8], place: usize, letters: &[u8]) -> bool
    ensures { result ≡ has_letter place letters.now word.now }
{
    if place >= word.len() {
        return false;
    }
    let found = word[place];
    letters.iter().any(|letter| *letter == found)
}

/// Whether one of the words is this one, which is in lower case, without regard to the case of ASCII letters.
pub(crate) fn has_word(words: &[Vec<u8>], text: &[u8]) -> bool
    requires { map to_ascii_lowercase text.now ≡ text.now }
    ensures { result ≡ list_any (is_word text.now) (texts_of words.now) }
{
    words.iter().any(|w| is_word(w, text))
}

/// The only word.
pub(crate) fn only_word(mut words: Vec<Vec<u8>>) -> Text
    requires { length words.items ≡ 1 }
    ensures { texts_of words.items ≡ result ∷ [] }
{
    Text::from(words.pop().unwrap())
}

/// The two words.
pub(crate) fn two_words(mut words: Vec<Vec<u8>>) -> (Text, Text)
    requires { length words.items ≡ 2 }
    ensures { texts_of words.items ≡ result.0 ∷ result.1 ∷ [] }
{
    let second = words.pop().unwrap();
    let first = words.pop().unwrap();
    (Text::from(first), Text::from(second))
}

/// The three words.
pub(crate) fn three_words(mut words: Vec<Vec<u8>>) -> (Text, Text, Text)
    requires { length words.items ≡ 3 }
    ensures { texts_of words.items ≡ result.0 ∷ result.1 ∷ result.2 ∷ [] }
{
    let third = words.pop().unwrap();
    let second = words.pop().unwrap();
    let first = words.pop().unwrap();
    (Text::from(first), Text::from(second), Text::from(third))
}

/// The first word, and the others.
pub(crate) fn first_and_rest(mut words: Vec<Vec<u8>>) -> (Text, Texts)
    requires { 0 < length words.items }
    ensures { texts_of words.items ≡ result.0 ∷ result.1 }
{
    let first = words.remove(0);
    (Text::from(first), Texts::from(words))
}

/// The integer that the word should be.
pub(crate) fn integer_word(word: &[u8]) -> Result<i64, Refusal>
    ensures { result ≡ integer_word word.now }
{
    match read_integer(word) {
        Some(number) => Ok(number),
        None => Err(Refusal::NotInteger),
    }
}
