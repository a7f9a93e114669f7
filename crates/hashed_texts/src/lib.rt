//! Byte strings as the keys of hashed tables, handed to the hasher in one write.
//!
//! A `Vec<u8>` is hashed byte by byte, which for long keys costs more than all the rest of a look-up. `keyspace` keeps
//! its keys as these, and `values` the fields of a hash and the members of a set; both look them up by borrowed bytes. A
//! short key lies inside the table's entry, so that a look-up reads no memory behind it. `TextHasher` says whether the
//! seed is fixed or drawn at random.
#![tactic(auto)]

ghost use Rattle.std.specs.Prelude.{◌≡◌, [], ◌∷◌, Some};
ghost use Rattle.std.proofs.Common.{ap, refl};
ghost use Rattle.std.specs.Cmp.{on_equiv, on_per, partial_equiv_from_equiv};
ghost use Rattle.std.specs.Cmp.Lexicographic.{bytes_decides, nat_list_cmp_total, nat_list_eq_equiv, slice_cmp, texts_po, texts_ties};
ghost use Rattle.std.specs.Ordering.{nat_cmp};
ghost use Rattle.std.specs.Str.{bytes_eq};

mod hasher;

pub use hasher::{TextHash, TextHasher};
use indexmap::Equivalent;
use std::cmp::Ordering;
use std::hash::{Hash, Hasher};
use std::marker::Model;

/// So many bytes lie inside a key: as many as leave it 32 bytes long, two keys to a line of the cache.
pub const INLINE_BYTES: usize = 30;

const _: () = prove!(size_of::<HashedText>() == 32);

/// A byte string as a key of an `IndexMap`. Contracts see its bytes.
#[derive(Drop)]
pub struct HashedText {
    place: Place,
}

/// Where the bytes of a key lie.
#[derive(Drop)]
enum Place {
    /// Inside the key; what comes after the first `len` counts for nothing.
    Inline { len: u8, bytes: [u8; INLINE_BYTES] },

    /// In memory of their own.
    Heap(Vec<u8>),
}

impl Model for HashedText {
    ghost use Rattle.std.specs.Prelude.{ℕ, List};

    ghost Value = { List ℕ };

    ghost use Rattle.hashed_texts.specs.Places.{bytes_at, IsWithin};

    ghost view = { λ k. bytes_at k.place };

    ghost invariant = { λ k. IsWithin k.place };
}

impl HashedText {
    /// The bytes, to be read.
    pub fn as_slice(&self) -> &[u8]
        ensures { result.now ≡ self.now }
    {
        match &self.place {
            Place::Inline { len, bytes } => &bytes[..*len as usize],
            Place::Heap(bytes) => bytes.as_slice(),
        }
    }
}

impl From<Vec<u8>> for HashedText {
    ghost from_gives = { λ bytes k. k ≡ bytes.items };

    /// The key with these bytes. It takes no memory: that of a short string is given back, and that of a long one kept.
    fn from(bytes: Vec<u8>) -> HashedText {
        let len = bytes.len();
        if len > INLINE_BYTES {
            return HashedText {
                place: Place::Heap(bytes),
            };
        }
        let mut inside = [0; INLINE_BYTES];
        inside[..len].copy_from_slice(bytes.as_slice());
        HashedText {
            place: Place::Inline {
                len: len as u8,
                bytes: inside,
            },
        }
    }
}

/// Borrowed bytes by which such a key is looked up.
#[derive(Clone, Copy)]
pub struct HashedSlice<'a> {
    pub bytes: &'a [u8],
}

impl PartialEq for HashedText {
    ghost eq = { bytes_eq };

    ghost laws = { partial_equiv_from_equiv nat_list_eq_equiv };

    fn eq(&self, other: &HashedText) -> bool {
        self.as_slice() == other.as_slice()
    }
}

impl Eq for HashedText {
    ghost laws = { nat_list_eq_equiv };
}

impl PartialOrd for HashedText {
    ghost partial_cmp = { λ x y. Some (slice_cmp nat_cmp x y) };

    ghost laws = { texts_po };

    fn partial_cmp(&self, other: &HashedText) -> Option<Ordering> {
        Some(self.cmp(other))
    }
}

impl Ord for HashedText {
    ghost cmp = { slice_cmp nat_cmp };

    ghost total = { nat_list_cmp_total };

    ghost matches_partial_cmp = { λ x y. refl };

    ghost matches_eq = { texts_ties };

    fn cmp(&self, other: &HashedText) -> Ordering {
        self.as_slice().cmp(other.as_slice())
    }
}

impl Hash for HashedText {
    ghost hash_input = { λ k. k ∷ [] };

    ghost respects_eq = { λ x y h. ap (λ b. b ∷ []) ((bytes_decides x y).0 h) };

    fn hash<H: Hasher>(&self, state: &mut H) {
        state.write(self.as_slice());
    }
}

impl<'a> PartialEq for HashedSlice<'a> {
    ghost eq = { λ x y. bytes_eq x.bytes.now y.bytes.now };

    ghost laws = { on_per (λ x. x.bytes.now) (partial_equiv_from_equiv nat_list_eq_equiv) };

    fn eq(&self, other: &HashedSlice<'a>) -> bool {
        self.bytes == other.bytes
    }
}

impl<'a> Eq for HashedSlice<'a> {
    ghost laws = { on_equiv (λ x. x.bytes.now) nat_list_eq_equiv };
}

impl<'a> Hash for HashedSlice<'a> {
    ghost hash_input = { λ k. k.bytes.now ∷ [] };

    ghost respects_eq = { λ x y h. ap (λ b. b ∷ []) ((bytes_decides x.bytes.now y.bytes.now).0 h) };

    fn hash<H: Hasher>(&self, state: &mut H) {
        state.write(self.bytes);
    }
}

impl<'a> Equivalent<HashedText> for HashedSlice<'a> {
    ghost equivalent = { λ q k. bytes_eq q.bytes.now k };

    ghost respects_hash = { λ q k h. ap (λ b. b ∷ []) ((bytes_decides q.bytes.now k).0 h) };

    ghost respects_eq = { λ q x y. nat_list_eq_equiv.congr q.bytes.now x y };

    fn equivalent(&self, key: &HashedText) -> bool {
        self.bytes == key.as_slice()
    }
}
