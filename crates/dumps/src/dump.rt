//! The entries of a dump, put in order.

ghost use Rattle.std.specs.Prelude.{◌≡◌, ℕ, ◌++◌, List, OnOk, OnErr};
ghost use Rattle.std.specs.FinMap as map;
ghost use Rattle.std.specs.FinMap.{entries};
ghost use Rattle.dumps.specs.Dump.{dump_text};
ghost use Rattle.keyspace.specs.Map.{with_entries};

use crate::line::put_entry;
use keyspace::Listed;
use std::alloc::{AllocError, Global};
use std::collections::BTreeMap;
use std::marker::Model;
use values::Value;

/// Entries that are lent by keyspaces, in the order of their keys. Contracts see the map that they are.
///
/// An entry is added in logarithmic time, and nothing of it is copied.
#[derive(Drop)]
pub struct Dump<'a> {
    alloc: Global,
    entries: BTreeMap<&'a [u8], &'a Value>,
}

impl<'a> Model for Dump<'a> {
    ghost use Rattle.std.specs.Coded.{coded_list, coded_ℕ};
    ghost use Rattle.std.specs.FinMap.{code};
    ghost use Rattle.dumps.specs.Dump.{map_of_lent};
    ghost use Rattle.keyspace.specs.Map.{Map};
    ghost use Rattle.values.specs.contracts.Value as value;

    ghost Value = { Map };

    ghost coded = { code (coded_list coded_ℕ) value.the_row.coded };

    ghost view = { λ d. map_of_lent d.entries.entries };
}

impl<'a> Dump<'a> {
    /// No entries. It takes no memory.
    pub fn new(alloc: Global) -> Self
        ensures { result ≡ map.empty }
    {
        Dump {
            alloc,
            entries: BTreeMap::new(alloc),
        }
    }

    /// Adds all that a keyspace holds; at a key that is there already the new value stands.
    ///
    /// With `AllocError`, where there is no memory for the list of them, some have been added.
    pub fn add_all<K: Listed>(&mut self, keys: &'a K) -> Result<(), AllocError>
        ensures { OnOk result (self.new ≡ with_entries self.old (entries (K.contents keys.now))) }
    {
        for place in 0..usize::MAX {
            let Some((key, value)) = keys.entry(place) else {
                return Ok(());
            };
            self.add(key, value)?;
        }
        Err(AllocError)
    }

    /// Adds an entry. With `AllocError` there was no memory for it, and nothing has changed.
    fn add(&mut self, key: &'a [u8], value: &'a Value) -> Result<(), AllocError>
        ensures ok { OnOk result (self.new ≡ map.insert self.old key.now value.now) }
        ensures err { OnErr result (self.new ≡ self.old) }
    {
        let Ok(_) = self.entries.insert(key, value) else {
            return Err(AllocError);
        };
        Ok(())
    }

    /// Appends a line for each entry, ascending by the bytes of the keys.
    ///
    /// With `AllocError`, where there is no memory for all of it, `out` is as it was.
    pub fn write(&self, out: &mut Vec<u8>) -> Result<(), AllocError>
        ensures ok { OnOk result (out.new.items ≡ out.old.items ++ dump_text self.now) }
        ensures err { OnErr result (out.new.items ≡ out.old.items) }
    {
        let start = out.len();
        let written = self.put_all(out);
        if written.is_err() {
            out.truncate(start);
        }
        written
    }

    /// Appends the lines, or a part of them where there is no memory for all.
    fn put_all(&self, out: &mut Vec<u8>) -> Result<(), AllocError>
        ensures ok { OnOk result (out.new.items ≡ out.old.items ++ dump_text self.now) }
        ensures err { OnErr result ((more : List ℕ) × (out.new.items ≡ out.old.items ++ more)) }
    {
        let mut entries = self.entries.iter();
        while let Some((key, value)) = entries.next() {
            put_entry(self.alloc, key, value, out)?;
        }
        Ok(())
    }
}
