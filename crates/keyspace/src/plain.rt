//! A keyspace in one hashed table.

ghost use Rattle.std.specs.Prelude.{◌≡◌, ◌≤◌};
ghost use Rattle.std.specs.FinMap as map;

use crate::{Keyspace, Listed};
use hashed_texts::{HashedSlice, HashedText, TextHasher};
use indexmap::IndexMap;
use std::alloc::Global;
use std::hash::BuildHasher;
use values::Value;

/// A table for at most so many keys is never made smaller, but by `clear`.
const KEPT_ROOM: usize = 1024;

/// A keyspace that covers every key, in one table whose keys are hashed by `S`.
///
/// Each call takes constant time on average, wherever the hasher spreads the keys: a table is made twice as large where
/// it is full, and a quarter as large where less than an eighth of it is used. The room of a table that was cleared is
/// given back.
#[derive(Drop)]
pub struct Plain<S: BuildHasher> {
    entries: IndexMap<HashedText, Value, S>,
    of_values: TextHasher,
}

impl<S: BuildHasher> Plain<S> {
    /// No keys. It takes no memory. Keys are hashed by `hasher`, members and fields of their values by `of_values`.
    pub fn new(alloc: Global, hasher: S, of_values: TextHasher) -> Self
        ensures { ⟦<Plain<S> as Keyspace>⟧.contents result ≡ map.empty }
    {
        Plain {
            entries: IndexMap::with_hasher(alloc, hasher),
            of_values,
        }
    }

    /// For how many keys there is room: for those that are there, and perhaps for more.
    pub fn capacity(&self) -> usize
        ensures { map.len (⟦<Plain<S> as Keyspace>⟧.contents self.now) ≤ result }
    {
        // `len` is called for its clause that no key lies there twice, which the proof cites.
        let _len = self.entries.len();
        self.entries.capacity()
    }
}

/// Makes a large table smaller where little of it is used.
fn give_back<S: BuildHasher>(entries: &mut IndexMap<HashedText, Value, S>)
    ensures { entries.new.entries ≡ entries.old.entries }
{
    let room = entries.capacity();
    if room > KEPT_ROOM && entries.len() < room / 8 {
        entries.shrink_to(room / 4);
    }
}

impl<S: BuildHasher> Keyspace for Plain<S> {
    ghost use Rattle.std.specs.Prelude.{true};
    ghost use Rattle.keyspace.specs.Plain.{map_of};

    ghost contents = { λ p. map_of p.entries.entries };

    ghost covered = { λ _. true };

    fn covers(&self, _key: &[u8]) -> bool {
        true
    }

    fn look(&self, key: &[u8]) -> Option<&Value> {
        self.entries.get(HashedSlice { bytes: key })
    }

    fn look_mut(&mut self, key: &[u8]) -> Option<&mut Value> {
        self.entries.get_mut(HashedSlice { bytes: key })
    }

    fn take(&mut self, key: &[u8]) -> Option<Value> {
        let taken = self.entries.swap_remove(HashedSlice { bytes: key });
        give_back(&mut self.entries);
        taken
    }

    fn put(&mut self, key: Vec<u8>, value: Value) -> Result<Option<Value>, (Vec<u8>, Value)> {
        let bytes = key.as_slice();
        if let Some(there) = self.entries.get_mut(HashedSlice { bytes }) {
            return Ok(Some(std::mem::replace(there, value)));
        }
        if self.entries.reserve(1).is_err() {
            return Err((key, value));
        }
        let owned = HashedText::from(key);
        Ok(self.entries.insert(owned, value).unwrap())
    }

    fn replace(&mut self, key: &[u8], value: Value) -> Value {
        let there = self.entries.get_mut(HashedSlice { bytes: key }).unwrap();
        std::mem::replace(there, value)
    }

    fn size(&self) -> i64 {
        self.entries.len() as i64
    }

    fn hasher(&self) -> TextHasher {
        self.of_values
    }

    fn clear(&mut self) {
        self.entries.clear();
        self.entries.shrink_to_fit();
    }
}

impl<S: BuildHasher> Listed for Plain<S> {
    ghost listed = { λ p. p.entries.entries };

    fn entry(&self, place: usize) -> Option<(&[u8], &Value)> {
        if place < self.entries.len() {
            let (key, value) = self.entries.get_index(place)?;
            Some((key.as_slice(), value))
        } else {
            None
        }
    }
}
