//! How many members a request has, by its words.

ghost use Rattle.std.specs.Prelude.{◌≡◌};
ghost use Rattle.layer_results.specs.Results.{member_count};

use packing::{PackedRequest, take_number, take_word};

/// How many members a request of these words has: an EXEC has one for each word behind its name, a command none.
pub fn member_count(words: &PackedRequest) -> usize
    ensures { result ≡ member_count words.now }
{
    let (count, rest) = take_number(words.as_bytes());
    if take_word(rest).0 == b"exec".as_slice() {
        count as usize - 1
    } else {
        0
    }
}
