//! The long parts of rows, which lie beside the packed ones.

ghost use Rattle.std.specs.Prelude.{◌≡◌, ℕ};
ghost use Rattle.std.specs.Option.{option_copied};
ghost use Rattle.journal.specs.LongRows.{long_at, Ascend};

use packing::PackedRequest;

/// The greatest number of bytes of words that are packed.
pub(super) const LONG_WORDS: usize = 128;

/// The parts of a row with long words or a long reply: its place, its words, and the reply's text, or nothing where that
/// is packed.
#[derive(Drop)]
pub(super) struct LongRow {
    pub(super) place: usize,
    pub(super) words: PackedRequest,
    pub(super) text: Vec<u8>,
}

/// The long parts of the row at this place, if it has any. Their places ascend.
pub(super) fn long_at(longs: &[LongRow], place: usize) -> Option<&LongRow>
    requires { (count : ℕ) × Ascend longs.now 0 count }
    ensures { option_copied result ≡ long_at longs.now place }
{
    match longs.binary_search_by_key(&place, |long| long.place) {
        Ok(found) => Some(&longs[found]),
        Err(_) => None,
    }
}
