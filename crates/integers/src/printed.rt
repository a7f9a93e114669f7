//! The text of a number.

ghost use Rattle.std.specs.Fmt.{signed_decimal};
ghost use Rattle.std.specs.Prelude.{◌≡◌, ◌≤◌, length, IfOk, IsOk, OnErr, OnOk};

use itoa::Buffer;
use std::alloc::{AllocError, Global};
use texts::Text;

/// The text of a number, the one that `read_integer` reads; `AllocError` where there is no memory for it.
pub fn number_text(alloc: Global, number: i64) -> Result<Text, AllocError>
    ensures { IfOk result (λ text. text ≡ signed_decimal number) }
{
    let mut text = Text::empty(alloc);
    set_number(&mut text, number)?;
    Ok(text)
}

/// Makes a string the text of a number. It takes memory only where that is longer than the string was.
///
/// `AllocError` where there is no memory for it; the string then stays as it was.
pub fn set_number(text: &mut Text, number: i64) -> Result<(), AllocError>
    ensures ok { OnOk result (text.new ≡ signed_decimal number) }
    ensures err { OnErr result (text.new ≡ text.old) }
    ensures succeeds { length (signed_decimal number) ≤ length text.old → IsOk result }
{
    let mut buffer = Buffer::new();
    text.set(buffer.format(number).as_bytes())
}
