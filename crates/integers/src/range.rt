//! The range rule: which places lie between a start and an end, each of which may count from the end.

ghost use Rattle.std.specs.Prelude.{◌≡◌, ℕ, ◌≤◌, ◌<◌, nat_le, nat_lt, ◌&&◌, pos, int_le};
ghost use Rattle.integers.specs.Range.{place, is_in_range};

/// The places from `start` to `end`, both included, of something of this length: those from the first result to before
/// the second.
///
/// A start or an end below 0 has the length added once. Where no place lies between them the two results are equal.
pub fn range_of(start: i64, end: i64, len: usize) -> (usize, usize)
    ensures ordered { result.0 ≤ result.1 }
    ensures within { result.1 ≤ len }
    ensures places { (p : ℕ) → p < len
        → is_in_range start end len p ≡ (nat_le result.0 p && nat_lt p result.1) }
{
    let behind = behind_end(end, len);
    (from_start(start, len).min(behind), behind)
}

/// The first place at or behind this start; the length where there is none.
fn from_start(start: i64, len: usize) -> usize
    ensures { (p : ℕ) → p < len → int_le (place start len) (pos p) ≡ nat_le result p }
{
    match usize::try_from(start) {
        Ok(start) => start,
        Err(_) => len.saturating_sub(start.unsigned_abs() as usize),
    }
}

/// The place behind the last one at or before this end, the length at most; 0 where there is none.
fn behind_end(end: i64, len: usize) -> usize
    ensures within { result ≤ len }
    ensures places { (p : ℕ) → p < len → int_le (pos p) (place end len) ≡ nat_lt p result }
{
    match usize::try_from(end) {
        Ok(end) => len.min(end + 1),
        Err(_) => len.saturating_sub(end.unsigned_abs() as usize - 1),
    }
}
