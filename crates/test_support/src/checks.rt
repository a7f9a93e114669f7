//! What came beside what was wanted. A check that fails says both, and at which line of the test: the request, the row or
//! the step that it belongs to.

ghost use Rattle.std.specs.Prelude.{◌≡◌, IfOk, true};

use std::fmt::Debug;
use std::test::Fail;

/// How many bytes of a text are shown.
const SHOWN: usize = 150;

/// These bytes came.
pub fn same_bytes(line: &str, got: &[u8], want: &[u8]) -> Result<(), Fail>
    ensures { IfOk result (λ _. got.now ≡ want.now) }
{
    if got == want {
        return Ok(());
    }
    let equal = equal_beginning(got, want);
    let came = shown(got, equal).escape_ascii();
    let wanted = shown(want, equal).escape_ascii();
    Err(Fail::new(format_args!(
        "{line}: {} bytes came, and {} were wanted; behind {equal} came `{came}`, and `{wanted}` was wanted",
        got.len(),
        want.len()
    )))
}

/// This text came.
pub fn same_text(line: &str, got: &str, want: &str) -> Result<(), Fail>
    ensures { IfOk result (λ _. got.now ≡ want.now) }
{
    same_bytes(line, got.as_bytes(), want.as_bytes())
}

/// So many came.
pub fn same_count(line: &str, got: usize, want: usize) -> Result<(), Fail>
    ensures { IfOk result (λ _. got ≡ want) }
{
    if got == want {
        Ok(())
    } else {
        Err(Fail::new(format_args!("{line}: {got} came, and {want} were wanted")))
    }
}

/// This number came.
pub fn same_number(line: &str, got: u64, want: u64) -> Result<(), Fail>
    ensures { IfOk result (λ _. got ≡ want) }
{
    if got == want {
        Ok(())
    } else {
        Err(Fail::new(format_args!("{line}: {got} came, and {want} was wanted")))
    }
}

/// This value came, as its type compares.
pub fn same<T: PartialEq + Debug>(line: &str, got: &T, want: &T) -> Result<(), Fail> {
    if got == want {
        Ok(())
    } else {
        Err(Fail::new(format_args!("{line}: {got:?} came, and {want:?} was wanted")))
    }
}

/// It is so.
pub fn holds(line: &str, condition: bool) -> Result<(), Fail>
    ensures { IfOk result (λ _. condition ≡ true) }
{
    if condition {
        Ok(())
    } else {
        Err(Fail::new(format_args!("{line}: it is not so")))
    }
}

/// How many bytes stand at the beginning of both.
fn equal_beginning(got: &[u8], want: &[u8]) -> usize {
    let shorter = got.len().min(want.len());
    for place in 0..shorter {
        if got[place] != want[place] {
            return place;
        }
    }
    shorter
}

/// The bytes behind the first `from`, as many as are shown.
fn shown(bytes: &[u8], from: usize) -> &[u8] {
    let rest = &bytes[from.min(bytes.len())..];
    &rest[..rest.len().min(SHOWN)]
}

/// Fails with what came otherwise, if something did.
pub fn as_wanted(otherwise: Option<&String>) -> Result<(), Fail> {
    match otherwise {
        Some(text) => Err(Fail::new(format_args!("otherwise: {text}"))),
        None => Ok(()),
    }
}
