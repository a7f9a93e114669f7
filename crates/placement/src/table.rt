//! The table from slots to shards, which is read from a TOML text of this project's own format. Whoever has a key or a
//! command asks it for the shard.

ghost use Rattle.std.specs.Prelude.{◌≡◌, ℕ, ◌<◌, List, Any, Contains, true, false, IfOk, IfErr};
ghost use Rattle.command_table.specs.Command.{keys_of, is_whole};
ghost use Rattle.command_table.specs.Held.{keys_held};
ghost use Rattle.command_table.specs.Telling.{named};
ghost use Rattle.groups.specs.GroupSet.{chosen, has};
ghost use Rattle.placement.specs.Groups.{groups_of, has_key_on};
ghost use Rattle.placement.specs.Layout.{IsTable, IsTableOf, IsRefused, IsWrong, Gives, shard_of};

use crate::document::{Document, document_of};
use crate::fault::TableFault;
use crate::layout::{all_owned, known_shards, owners_of};
use crate::slots::{SLOTS, slot_of};
use command_table::{Command, Keys, keys_of};
use groups::{GroupId, Groups};
use std::alloc::Global;
use std::marker::Model;

/// Which of 1 to 64 shards has each of the 1024 slots.
///
/// Contracts see a `Layout`: the number of shards, and the shard of each slot. A shard may have no slot. The slots lie
/// inline, so a copy takes no memory.
#[derive(Clone, Copy, Debug, PartialEq, Eq)]
pub struct Table {
    shards: u8,
    slots: [GroupId; SLOTS],
}

impl Model for Table {
    ghost use Rattle.placement.specs.Layout.{Layout, IsTable};

    ghost Value = { Layout };

    ghost view = { λ t. record { shards = t.shards; slots = t.slots } };

    ghost invariant = { λ t. IsTable (record { shards = t.shards; slots = t.slots }) };

    ghost inverse = { λ t. record { shards = t.shards; slots = t.slots } };
}

impl Table {
    /// Reads a table from a TOML document, as a program does with the file that it is started with.
    ///
    /// The document has the integer `shards`, from 1 to 64, and the array `range` of tables, and no other key. Each
    /// table of `range` has the integers `from`, `to` and `shard`, with `0 <= from <= to <= 1023` and `0 <= shard <
    /// shards`, and no other key. Each slot is in one range. A negative `from` or `to` is another shape (`Toml`); a
    /// negative `shards` or `shard` has
    /// the shape and is `Shard`.
    /// [`TableFault`] says what a refused text breaks; `Memory` says nothing of the text.
    pub fn from_toml(alloc: Global, text: &str) -> Result<Self, TableFault>
        ensures ok { IfOk result (λ table. IsTableOf text.now table) }
        ensures refused { IfErr result (λ fault. IsRefused fault text.now) }
    {
        let data = match toml::table_from_str(alloc, text) {
            Ok(data) => data,
            Err(fault) if fault.is_memory() => return Err(TableFault::Memory),
            Err(_) => return Err(TableFault::Toml),
        };
        let document = document_of(alloc, &data)?.ok_or(TableFault::Toml)?;
        Table::from_document(&document)
    }

    // The table that a document gives.
    fn from_document(document: &Document) -> Result<Self, TableFault>
        ensures ok { IfOk result (λ table. Gives document.now table) }
        ensures refused { IfErr result (λ fault. IsWrong fault document.now) }
    {
        let shards = known_shards(document).ok_or(TableFault::Shard)?;
        let owners = owners_of(document.ranges()).ok_or(TableFault::Twice)?;
        let slots = all_owned(&owners).ok_or(TableFault::Missing)?;
        Ok(Table { shards, slots })
    }

    /// The number of shards, 1 to 64. Shards, and the groups that keep them, are numbered from 0.
    pub fn shards(&self) -> u8
        ensures value { result ≡ self.now.shards }
        ensures is_table { IsTable self.now }
    {
        self.shards
    }

    /// The shard on which a key lies: the one that has the key's slot. It takes no memory.
    ///
    /// The slot is the FNV-1a hash of 64 bits of the key's hash tag, modulo 1024. Keys that are to lie together share a
    /// tag, as `{user7}.name` and `{user7}.mail` do; the rule for tags is that of the Redis Cluster specification.
    pub fn shard_of(&self, key: &[u8]) -> GroupId
        ensures value { result ≡ shard_of self.now key.now }
        ensures in_range { result < self.now.shards }
    {
        self.slots[slot_of(key)]
    }

    /// The groups that a command addresses: the shards of its keys, every shard for a command that is for all keys, and
    /// none for one that has no key. They ascend, each once. It takes no memory.
    pub fn groups(&self, command: &Command) -> Groups
        ensures exact { result ≡ groups_of self.now command.now }
        ensures each_key { (key : List ℕ) → Contains (keys_of command.now) key
            → has result (shard_of self.now key) ≡ true }

        // A command that isn't whole addresses no group on which none of its keys lies.
        ensures no_other { is_whole command.now ≡ false → (group : ℕ) → has result group ≡ true
            → Any (λ key. shard_of self.now key ≡ group) (keys_of command.now) }
    {
        let shards = self.shards();
        let keys = keys_of(command);
        if keys.is_all() {
            return Groups::all(shards);
        }
        if keys.len() == 1 {
            return Groups::empty().with(self.shard_of(keys.at(0)));
        }
        self.groups_of_each(keys)
    }

    // The shards of each of these keys. A call, so that a key alone pays nothing for it.
    #[inline(never)]
    fn groups_of_each(&self, keys: Keys<'_>) -> Groups
        ensures { result ≡ chosen (λ shard. has_key_on self.now shard (named (keys_held keys.entry))) 0 self.now.shards }
    {
        let mut groups = Groups::empty();
        for index in 0..keys.len() {
            groups = groups.with(self.shard_of(keys.at(index)));
        }
        groups
    }
}
