//! Numbers below 2^64, in one, five or nine bytes.

ghost use Rattle.std.specs.Prelude.{◌≡◌, ◌+◌, ◌≤◌, ◌<◌, [], ◌∷◌, ◌++◌, length, take, vec_len, vec_capacity};
ghost use Rattle.packing.specs.declared.number.TheConstants.{FOUR_BYTES};
ghost use Rattle.packing.specs.Codes.{number_code, number_at};

/// The byte before a number of four bytes. Below it a number is its own one byte.
const FOUR_BYTES: u8 = 254;

/// The byte before a number of eight bytes.
const EIGHT_BYTES: u8 = 255;

/// How many bytes the number takes: at most nine.
#[tactic(auto, using(crate::specs::CodeLaws::number_codes))]
pub fn number_size(number: u64) -> usize
    ensures size { result ≡ length (number_code number) }
    ensures few { result ≤ 9 }
{
    if number < FOUR_BYTES as u64 {
        1
    } else if number <= u32::MAX as u64 {
        5
    } else {
        9
    }
}

/// Appends the number, for which there is room.
#[tactic(auto, using(crate::specs::CodeLaws::number_codes))]
// Inlined, since most numbers are of one byte.
#[inline(always)]
pub fn put_number(number: u64, out: &mut Vec<u8>)
    requires { vec_len out.old + length (number_code number) ≤ vec_capacity out.old }
    ensures items { out.new.items ≡ out.old.items ++ number_code number }
    ensures len { vec_len out.new ≡ vec_len out.old + length (number_code number) }
    ensures capacity { vec_capacity out.old ≤ vec_capacity out.new }
{
    if number < FOUR_BYTES as u64 {
        out.push_reserved(number as u8);
    } else if number <= u32::MAX as u64 {
        out.push_reserved(FOUR_BYTES);
        put_bytes(&(number as u32).to_le_bytes(), out);
    } else {
        out.push_reserved(EIGHT_BYTES);
        put_bytes(&number.to_le_bytes(), out);
    }
}

/// Appends these bytes, for which there is room, and says nothing of their length.
pub fn put_bytes(bytes: &[u8], out: &mut Vec<u8>)
    requires { vec_len out.old + length bytes.now ≤ vec_capacity out.old }
    ensures items { out.new.items ≡ out.old.items ++ bytes.now }
    ensures len { vec_len out.new ≡ vec_len out.old + length bytes.now }
    ensures capacity { vec_capacity out.old ≤ vec_capacity out.new }
{
    let _ = out.extend_from_slice(bytes);
}

/// Writes the number over the bytes at this place, and gives the place behind it.
#[tactic(auto, using(crate::specs::CodeLaws::number_codes))]
// Inlined, since most numbers are of one byte.
#[inline(always)]
pub(crate) fn write_number(number: u64, out: &mut [u8], at: usize) -> usize
    requires { at + length (number_code number) ≤ length out.old }
    ensures end { result ≡ at + length (number_code number) }
    ensures len { length out.new ≡ length out.old }
    ensures written { take result out.new ≡ take at out.old ++ number_code number }
{
    if number < FOUR_BYTES as u64 {
        return write_byte(number as u8, out, at);
    }
    write_large(number, out, at)
}

/// The same of a number that takes more than one byte.
#[tactic(auto, using(crate::specs::CodeLaws::number_codes))]
// A call, since few do.
#[inline(never)]
fn write_large(number: u64, out: &mut [u8], at: usize) -> usize
    requires large { FOUR_BYTES ≤ number }
    requires room { at + length (number_code number) ≤ length out.old }
    ensures end { result ≡ at + length (number_code number) }
    ensures len { length out.new ≡ length out.old }
    ensures written { take result out.new ≡ take at out.old ++ number_code number }
{
    if number <= u32::MAX as u64 {
        let behind = write_byte(FOUR_BYTES, out, at);
        return write_bytes(&(number as u32).to_le_bytes(), out, behind);
    }
    let behind = write_byte(EIGHT_BYTES, out, at);
    write_bytes(&number.to_le_bytes(), out, behind)
}

/// Writes a byte at this place, and gives the place behind it.
#[inline(always)]
fn write_byte(byte: u8, out: &mut [u8], at: usize) -> usize
    requires { at < length out.old }
    ensures end { result ≡ at + 1 }
    ensures len { length out.new ≡ length out.old }
    ensures written { take result out.new ≡ take at out.old ++ byte ∷ [] }
{
    out[at] = byte;
    at + 1
}

/// Writes these bytes over those at this place, and gives the place behind them.
#[inline(always)]
pub(crate) fn write_bytes(bytes: &[u8], out: &mut [u8], at: usize) -> usize
    requires { at + length bytes.now ≤ length out.old }
    ensures end { result ≡ at + length bytes.now }
    ensures len { length out.new ≡ length out.old }
    ensures written { take result out.new ≡ take at out.old ++ bytes.now }
{
    let end = at + bytes.len();
    out[at..end].copy_from_slice(bytes);
    end
}

/// The number at the front of the bytes, and the bytes behind it. Bytes that `put_number` didn't write give some
/// number too.
#[tactic(auto, unfolding(crate::specs::Codes::number_at))]
pub fn take_number(bytes: &[u8]) -> (u64, &[u8])
    ensures number { result.0 ≡ (number_at bytes.now).0 }
    ensures rest { result.1.now ≡ (number_at bytes.now).1 }
{
    match bytes {
        [EIGHT_BYTES, a, b, c, d, e, f, g, h, rest @ ..] => {
            (u64::from_le_bytes([*a, *b, *c, *d, *e, *f, *g, *h]), rest)
        }
        [FOUR_BYTES, a, b, c, d, rest @ ..] => (
            u64::from(u32::from_le_bytes([*a, *b, *c, *d])),
            rest,
        ),
        [byte, rest @ ..] => (u64::from(*byte), rest),
        [] => (0, bytes),
    }
}
