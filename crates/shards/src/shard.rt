//! The map of one shard.

ghost use Rattle.std.specs.Prelude.{◌≡◌, OnOk};
ghost use Rattle.std.specs.FinMap as map;
ghost use Rattle.keyspace.specs.Map.{with_entries};

use dumps::Dump;
use hashed_texts::TextHasher;
use keyspace::{Keyspace, Plain};
use std::alloc::{AllocError, Global};
use std::marker::Model;
use values::Value;

/// The keys of one shard with their values. Contracts see the map.
#[derive(Drop)]
pub struct Shard {
    keys: Plain<TextHasher>,
}

impl Model for Shard {
    ghost use Rattle.std.specs.Coded.{coded_list, coded_ℕ};
    ghost use Rattle.std.specs.FinMap.{code};
    ghost use Rattle.keyspace.specs.Map.{Map};
    ghost use Rattle.keyspace.specs.Plain.{map_of};
    ghost use Rattle.values.specs.contracts.Value as value;

    ghost Value = { Map };

    ghost coded = { code (coded_list coded_ℕ) value.the_row.coded };

    ghost view = { λ s. map_of s.keys.entries.entries };
}

impl Shard {
    /// No keys. It takes no memory; keys, and the members and fields of their values, are hashed by `hasher`.
    pub fn new(alloc: Global, hasher: TextHasher) -> Self
        ensures { result ≡ map.empty }
    {
        Shard {
            keys: Plain::new(alloc, hasher, hasher),
        }
    }

    /// Adds all of its keys with their values to a dump. With `AllocError`, where there is no memory for the list of
    /// them, some have been added.
    pub fn add_to<'a>(&'a self, dump: &mut Dump<'a>) -> Result<(), AllocError>
        ensures { OnOk result (dump.new ≡ with_entries dump.old (map.entries self.now)) }
    {
        dump.add_all(&self.keys)
    }
}

impl Keyspace for Shard {
    ghost use Rattle.std.specs.Prelude.{true};

    ghost contents = { λ m. m };

    ghost covered = { λ _. true };

    fn covers(&self, key: &[u8]) -> bool {
        self.keys.covers(key)
    }

    fn look(&self, key: &[u8]) -> Option<&Value> {
        self.keys.look(key)
    }

    fn look_mut(&mut self, key: &[u8]) -> Option<&mut Value> {
        self.keys.look_mut(key)
    }

    fn take(&mut self, key: &[u8]) -> Option<Value> {
        self.keys.take(key)
    }

    fn put(&mut self, key: Vec<u8>, value: Value) -> Result<Option<Value>, (Vec<u8>, Value)> {
        self.keys.put(key, value)
    }

    fn replace(&mut self, key: &[u8], value: Value) -> Value {
        self.keys.replace(key, value)
    }

    fn size(&self) -> i64 {
        self.keys.size()
    }

    fn hasher(&self) -> TextHasher {
        self.keys.hasher()
    }

    fn clear(&mut self) {
        self.keys.clear();
    }
}
