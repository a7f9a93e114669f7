//! Adding to a number that is stored as its text.

ghost use Rattle.std.specs.Prelude.{◌≡◌, Some};
ghost use Rattle.integers.specs.Sum.{stored_sum};

use crate::integer::read_integer;

/// Why there is no sum.
#[derive(Clone, Copy, Debug, PartialEq, Eq)]
pub enum SumFault {
    /// The text is no integer.
    NotInteger,

    /// The sum doesn't fit 64 bits with sign.
    Overflow,
}

/// The number that the text is and `by` together; `NotInteger` where the text is no integer, `Overflow` where the sum
/// is none of 64 bits with sign.
///
/// It is for commands that count in a stored string. It takes no memory.
pub fn add_to(text: &[u8], by: i64) -> Result<i64, SumFault>
    ensures { result ≡ stored_sum (Some text.now) by }
{
    let Some(number) = read_integer(text) else {
        return Err(SumFault::NotInteger);
    };
    match number.checked_add(by) {
        Some(sum) => Ok(sum),
        None => Err(SumFault::Overflow),
    }
}
