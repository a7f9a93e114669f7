//! The slot of a key: the hash tag as in Redis Cluster's key names, and FNV-1a of 64 bits as its authors describe it.
//! A table asks for the slot of each key whose shard it is asked for.

ghost use Rattle.std.specs.Prelude.{◌≡◌, ◌<◌, ◌==◌, IfSome, position};
ghost use Rattle.placement.specs.Slot.{tag, fnv1a, fnv1a_step, opens, slot};

/// How many slots there are.
pub const SLOTS: usize = 1024;

const OFFSET_BASIS: u64 = 14695981039346656037;

const PRIME: u64 = 1099511628211;

/// The hash tag of a key: what stands between its first `{` and the first `}` behind that, where there are both and
/// something stands between them; else the whole key.
pub fn tag_of(key: &[u8]) -> &[u8]
    ensures { result.now ≡ tag key.now }
{
    let Some(opening) = index_of(key, b'{') else {
        return key;
    };
    let inside = &key[opening + 1..];
    match index_of(inside, b'}') {
        Some(closing) if closing > 0 => &inside[..closing],
        _ => key,
    }
}

// The index of the first such byte.
fn index_of(bytes: &[u8], byte: u8) -> Option<usize>
    ensures { result ≡ position (λ b. b == byte) bytes.now }
{
    bytes.iter().position(|b| *b == byte)
}

/// The FNV-1a hash of some bytes, of 64 bits.
pub fn hash_of(bytes: &[u8]) -> u64
    ensures { result ≡ fnv1a bytes.now }
{
    bytes
        .iter()
        .fold(OFFSET_BASIS, |hash, byte| with_byte(hash, *byte))
}

/// The slot of a key, from 0 to 1023: the hash of its tag, modulo 1024.
pub fn slot_of(key: &[u8]) -> usize
    ensures value { result ≡ slot key.now }
    ensures in_range { result < SLOTS }
{
    let hash = match hash_of_plain(key) {
        Some(hash) => hash,
        None => hash_of_tag(key),
    };
    (hash % SLOTS as u64) as usize
}

// The hash of a key's tag. A call, so that it takes no room where most keys have none.
#[inline(never)]
fn hash_of_tag(key: &[u8]) -> u64
    ensures { result ≡ fnv1a (tag key.now) }
{
    hash_of(tag_of(key))
}

// The same, if no byte of the key opens a tag: in one walk, by eight bytes a turn.
fn hash_of_plain(key: &[u8]) -> Option<u64>
    ensures { IfSome result (λ hash. hash ≡ fnv1a (tag key.now)) }
{
    let mut hash = OFFSET_BASIS;
    let mut rest = key;
    while let [a, b, c, d, e, f, g, h, behind @ ..] = rest {
        if opens(*a)
            | opens(*b)
            | opens(*c)
            | opens(*d)
            | opens(*e)
            | opens(*f)
            | opens(*g)
            | opens(*h)
        {
            return None;
        }
        hash = with_byte(with_byte(with_byte(with_byte(hash, *a), *b), *c), *d);
        hash = with_byte(with_byte(with_byte(with_byte(hash, *e), *f), *g), *h);
        rest = behind;
    }
    while let [byte, behind @ ..] = rest {
        if opens(*byte) {
            return None;
        }
        hash = with_byte(hash, *byte);
        rest = behind;
    }
    Some(hash)
}

// Whether the byte is `{`.
#[inline(always)]
fn opens(byte: u8) -> bool
    ensures { result ≡ opens byte }
{
    byte == b'{'
}

// The hash with one byte more.
#[inline(always)]
fn with_byte(hash: u64, byte: u8) -> u64
    ensures { result ≡ fnv1a_step hash byte }
{
    (hash ^ u64::from(byte)).wrapping_mul(PRIME)
}
