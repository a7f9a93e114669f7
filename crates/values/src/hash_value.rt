//! The value of a key that is a hash.

ghost use Rattle.std.specs.Prelude.{◌≡◌, ◌+◌, ◌<◌, [], length, map, slice_get, is_some, None};
ghost use Rattle.std.specs.Prelude.{OnOk, OnErr, IfOk};
ghost use Rattle.std.specs.List.{IsDistinct};
ghost use Rattle.std.specs.Option.{option_map};
ghost use Rattle.std.specs.Str.{bytes_eq};
ghost use Rattle.texts.specs.Texts.{by_turns};
ghost use Rattle.values.specs.HashValue.{pairs_seen, field_value, with_field, with_fields, without_fields};
ghost use Rattle.values.specs.ListValue.{nonempty};

use crate::items::{Items, Rest};
use crate::pair_table::{PairTable, insert, insert_each, look_up, remove_each};
use hashed_texts::TextHasher;
use indexmap::IndexMap;
use std::alloc::{AllocError, Global};
use std::marker::Model;
use texts::{Pairs, Text, Texts};

/// A hash: at least one pair of a field and its value, no field twice. Contracts see the list of pairs in order of
/// insertion.
///
/// A field is looked up in constant time on average; a removal takes time for the whole hash, since the others keep
/// their order.
#[derive(Drop)]
pub struct HashValue {
    pairs: Box<PairTable>,
}

impl Model for HashValue {
    ghost use Rattle.std.specs.Prelude.{List, ◌<◌, length};
    ghost use Rattle.texts.specs.Texts.{Bytes};
    ghost use Rattle.values.specs.HashValue.{pairs_seen};

    ghost Value = { List (Bytes × Bytes) };

    ghost view = { λ h. pairs_seen h.pairs.value.entries };

    ghost invariant = { λ h. 0 < length h.pairs.value.entries };
}

impl HashValue {
    /// The hash that these pairs make, one after another, of no hash; `None` where there are none. It hashes its fields
    /// by `hasher`, whatever is done to it later.
    ///
    /// `AllocError` where there is no memory for it.
    #[tactic(auto, using(crate::proofs::PairsSeen::seen))]
    pub fn from_pairs(
        alloc: Global,
        hasher: TextHasher,
        pairs: Pairs,
    ) -> Result<Option<Self>, AllocError>
        ensures { IfOk result (λ hash. hash ≡ nonempty (with_fields [] pairs)) }
    {
        let turns = pairs.into_turns();
        let room = turns.len() / 2;
        let mut table: PairTable = IndexMap::with_capacity_and_hasher(alloc, room, hasher)?;
        insert_each(&mut table, turns);
        let Ok(pairs) = Box::new(alloc, table) else {
            return Err(AllocError);
        };
        Ok(at_least_one(pairs))
    }

    /// The number of fields.
    #[tactic(auto, using(crate::proofs::PairsSeen::seen))]
    pub fn len(&self) -> usize
        ensures len { result ≡ length self.now }
        ensures some { 0 < result }
        ensures distinct { IsDistinct bytes_eq (map (λ p. p.0) self.now) }
    {
        self.pairs.len()
    }

    /// The value of a field.
    pub fn get(&self, field: &[u8]) -> Option<&[u8]>
        ensures { option_map (λ value. value.now) result ≡ field_value self.now field.now }
    {
        look_up(&self.pairs, field)
    }

    /// Whether the field is there.
    pub fn has(&self, field: &[u8]) -> bool
        ensures { result ≡ is_some (field_value self.now field.now) }
    {
        self.get(field).is_some()
    }

    /// The pair at a place in order of insertion, counted from 0. It takes constant time.
    pub fn pair(&self, place: usize) -> Option<(&[u8], &[u8])>
        ensures { option_map (λ pair. (pair.0.now, pair.1.now)) result ≡ slice_get self.now place }
    {
        match self.pairs.get_index(place) {
            Some((field, value)) => Some((field.as_slice(), value.as_slice())),
            None => None,
        }
    }

    /// The fields in order of insertion, to be read one after another.
    pub fn fields(&self) -> Items<'_>
        ensures { result ≡ map (λ pair. pair.0) self.now }
    {
        Items {
            value: None,
            rest: Rest::Fields(self.pairs.iter()),
        }
    }

    /// The values in the order of their fields, to be read one after another.
    pub fn values(&self) -> Items<'_>
        ensures { result ≡ map (λ pair. pair.1) self.now }
    {
        Items {
            value: None,
            rest: Rest::Values(self.pairs.iter()),
        }
    }

    /// Each field and its value by turns, in order of insertion, to be read one after another.
    pub fn fields_and_values(&self) -> Items<'_>
        ensures { result ≡ by_turns self.now }
    {
        Items {
            value: None,
            rest: Rest::Both(self.pairs.iter()),
        }
    }

    /// Sets a field and gives the value that it had. A field that is there keeps its place, a new one goes last.
    ///
    /// `AllocError`, and no change, where there is no memory for a new field.
    pub fn insert(&mut self, field: Text, value: Text) -> Result<Option<Text>, AllocError>
        ensures before { IfOk result (λ before. before ≡ field_value self.old field) }
        ensures ok { OnOk result (self.new ≡ with_field self.old field value) }
        ensures some { 0 < length self.new }
        ensures absent { OnErr result (field_value self.old field ≡ None) }
        ensures err { OnErr result (self.new ≡ self.old) }
    {
        insert(&mut self.pairs, field.into_vec(), value.into_vec())
    }

    /// Sets the fields one after another, all of them, and gives how many were new; or sets none, and `AllocError`.
    #[tactic(auto, using(crate::proofs::PairsSeen::seen))]
    pub fn insert_all(&mut self, pairs: Pairs) -> Result<usize, AllocError>
        ensures ok { OnOk result (self.new ≡ with_fields self.old pairs) }
        ensures some { 0 < length self.new }
        ensures added { IfOk result (λ added. length self.new ≡ length self.old + added) }
        ensures err { OnErr result (self.new ≡ self.old) }
    {
        let turns = pairs.into_turns();
        let before = self.pairs.len();
        self.pairs.reserve(turns.len() / 2)?;
        insert_each(&mut self.pairs, turns);
        Ok(self.pairs.len() - before)
    }

    /// Removes these fields, and gives how many were there and what is left. It needs no memory, but where there is some
    /// it goes over the hash once where more than a few fields are named.
    pub fn remove_all(self, fields: Texts) -> (usize, Option<Self>)
        ensures left { result.1 ≡ nonempty (without_fields self fields) }
        ensures removed { result.0 + length (without_fields self fields) ≡ length self }
    {
        let HashValue { mut pairs } = self;
        let before = pairs.len();
        remove_each(&mut pairs, fields.into_vec());
        (before - pairs.len(), at_least_one(pairs))
    }
}

/// These pairs as a hash, if there are any.
fn at_least_one(pairs: Box<PairTable>) -> Option<HashValue>
    ensures { result ≡ nonempty (pairs_seen pairs.value.entries) }
{
    if pairs.is_empty() {
        None
    } else {
        Some(HashValue { pairs })
    }
}
