//! Growing by what is needed.

ghost use Rattle.std.specs.Prelude.{◌≡◌, ◌+◌, ◌≤◌, ◌<◌, vec_len, vec_capacity, IsOk, OnOk, OnErr};

use std::alloc::{AllocError, Global};

/// How many more are taken at once where memory is scarce.
const PIECE: usize = 4096;

/// Takes room for so many more: twice the room that is there, so that growing step by step takes few calls; where there is
/// no memory for that, a sixteenth of what is there, or a piece, since a step that is refused takes long; and where there
/// is none for that, as much as is needed. The only error is want of memory for what is needed, which changes nothing.
pub fn grow<T>(list: &mut Vec<T>, additional: usize) -> Result<(), AllocError>
    ensures items { list.new.items ≡ list.old.items }
    ensures len { vec_len list.new ≡ vec_len list.old }
    ensures ok { OnOk result (vec_len list.new + additional ≤ vec_capacity list.new) }
    ensures capacity { vec_capacity list.old ≤ vec_capacity list.new }
    ensures succeeds { vec_len list.old + additional ≤ vec_capacity list.old → IsOk result }
    ensures full { OnErr result (vec_capacity list.old < vec_len list.old + additional) }
    ensures err { OnErr result (vec_capacity list.new ≡ vec_capacity list.old) }
{
    let sixteenth = list.len() / 16;
    if list.reserve(additional).is_ok()
        || list.reserve_exact(additional.max(sixteenth)).is_ok()
        || list.reserve_exact(additional.max(PIECE)).is_ok()
    {
        return Ok(());
    }
    list.reserve_exact(additional)
}
