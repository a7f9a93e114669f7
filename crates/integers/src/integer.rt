//! Integers in words and in stored strings.

ghost use Rattle.std.specs.Prelude.{◌≡◌, ℤ, MatchOption};
ghost use Rattle.integers.specs.Integer.{integer_of, IsIntegerText};

use itoa::Buffer;

/// The number that this text is, where it is the text of an integer of 64 bits with sign, with no leading zero and no
/// plus sign.
///
/// It takes no memory, and its work is linear in the text.
pub fn read_integer(text: &[u8]) -> Option<i64>
    ensures value { result ≡ integer_of text.now }
    ensures text { MatchOption result ((n : ℤ) → ¬ IsIntegerText text.now n) (IsIntegerText text.now) }
{
    let Ok(ascii) = std::str::from_utf8(text) else {
        return None;
    };
    let Ok(number) = ascii.parse::<i64>() else {
        return None;
    };
    let mut buffer = Buffer::new();
    if buffer.format(number).as_bytes() == text {
        Some(number)
    } else {
        None
    }
}
