//! Some of the shards as one keyspace, over which a command is run that addresses them.

ghost use Rattle.std.specs.Prelude.{◌≡◌, ℕ, ◌<◌, IsTrue, List, MatchOption, false, length, slice_index};
ghost use Rattle.groups.specs.GroupSet.{has};
ghost use Rattle.placement.specs.Layout.{shard_of};
ghost use Rattle.shards.specs.Joined.{numbers};
ghost use Rattle.shards.specs.Spans.{IsSpan, lies_on};

use crate::Shard;
use groups::GroupId;
use hashed_texts::TextHasher;
use keyspace::Keyspace;
use placement::Table;
use std::marker::{Brand, Model, PhantomData};
use values::Value;

/// Which shards a span is of, and the table that places keys on them. It is for proofs alone, and stands in the type:
/// whatever is done to a span, it stays one of these shards. Whoever makes a span passes `Brand` and says there which
/// they are.
pub trait SpanFrame {
    ghost use Rattle.std.specs.Prelude.{ℕ, List};
    ghost use Rattle.placement.specs.Layout.{Layout};

    ghost layout: { Layout };

    ghost groups: { List ℕ };
}

impl SpanFrame for Brand {
    ghost use Rattle.std.specs.Prelude.{[]};

    ghost layout = { record { shards = 0; slots = [] } };

    ghost groups = { [] };
}

/// Shards that were moved out of the store, each with its number, as one keyspace.
///
/// Contracts see the list of their maps with their numbers. Its contents are the union of the maps, and it covers the
/// keys that the table places on one of the shards. The numbers ascend.
pub struct Span<F: SpanFrame> {
    table: Table,
    shards: Vec<(GroupId, Shard)>,
    frame: PhantomData<F>,
}

impl<F: SpanFrame> Model for Span<F> {
    ghost use Rattle.std.specs.Prelude.{◌≡◌};
    ghost use Rattle.std.specs.Coded.{coded_list, coded×, coded_ℕ};
    ghost use Rattle.std.specs.FinMap.{code};
    ghost use Rattle.shards.specs.Joined.{Span};
    ghost use Rattle.shards.specs.Spans.{IsSpan};
    ghost use Rattle.values.specs.contracts.Value as value;

    ghost Value = { Span };

    ghost coded = { coded_list (coded× coded_ℕ (code (coded_list coded_ℕ) value.the_row.coded)) };

    ghost view = { λ s. s.shards.items };

    ghost invariant = { λ s. (s.table ≡ F.layout) × IsSpan F.layout F.groups s.shards.items };
}

impl<F: SpanFrame> Span<F> {
    /// The span of these shards, which are those of its frame.
    // Inlined, so that the table is copied once.
    #[inline(always)]
    pub fn new(table: &Table, shards: Vec<(GroupId, Shard)>) -> Self
        requires table { table.now ≡ F.layout }
        requires shards { IsSpan F.layout F.groups shards.items }
        ensures { result ≡ shards.items }
    {
        Span {
            table: *table,
            shards,
            frame: PhantomData,
        }
    }

    /// The shards, to be put back where they were.
    pub fn into_shards(self) -> Vec<(GroupId, Shard)>
        ensures same { result.items ≡ self }
        ensures shards { IsSpan F.layout F.groups result.items }
    {
        let Span {
            table: _,
            shards,
            frame: _,
        } = self;
        shards
    }

    /// The place in the span of the shard on which the key lies.
    fn index_of(&self, key: &[u8]) -> usize
        requires { IsTrue (lies_on F.layout F.groups key.now) }
        ensures inside { result < length self.now }
        ensures there { slice_index (numbers self.now) result ≡ shard_of F.layout key.now }
    {
        if self.shards.len() == 1 {
            return 0;
        }
        self.index_of_shard(self.shard_of(key)).unwrap()
    }

    /// The shard on which the key lies.
    fn shard_of(&self, key: &[u8]) -> GroupId
        ensures { result ≡ shard_of F.layout key.now }
    {
        self.table.shard_of(key)
    }

    /// Whether the shard of this number is in the span.
    fn has_shard(&self, number: GroupId) -> bool
        ensures { result ≡ has F.groups number }
    {
        // A proof learns from a field's use what is true of each span.
        let _ = &self.shards;
        self.index_of_shard(number).is_some()
    }

    /// The place in the span of the shard of this number, if it is there.
    fn index_of_shard(&self, number: GroupId) -> Option<usize>
        ensures { MatchOption result (has F.groups number ≡ false)
            (λ index. (index < length self.now) × (slice_index (numbers self.now) index ≡ number)) }
    {
        for (index, shard) in self.shards.iter().enumerate() {
            if shard.0 == number {
                return Some(index);
            }
        }
        None
    }
}

impl<F: SpanFrame> Keyspace for Span<F> {
    ghost use Rattle.shards.specs.Joined.{union};
    ghost use Rattle.shards.specs.Spans.{lies_on};

    ghost contents = { union };

    ghost covered = { λ key. lies_on F.layout F.groups key };

    fn covers(&self, key: &[u8]) -> bool {
        self.has_shard(self.shard_of(key))
    }

    fn look(&self, key: &[u8]) -> Option<&Value> {
        let index = self.index_of(key);
        self.shards[index].1.look(key)
    }

    fn look_mut(&mut self, key: &[u8]) -> Option<&mut Value> {
        let index = self.index_of(key);
        let shard = &mut self.shards[index].1;
        // Told apart, since what a loan leaves is known just where something was lent.
        match shard.look_mut(key) {
            Some(value) => Some(value),
            None => None,
        }
    }

    fn take(&mut self, key: &[u8]) -> Option<Value> {
        let index = self.index_of(key);
        self.shards[index].1.take(key)
    }

    fn put(&mut self, key: Vec<u8>, value: Value) -> Result<Option<Value>, (Vec<u8>, Value)> {
        let index = self.index_of(key.as_slice());
        self.shards[index].1.put(key, value)
    }

    fn replace(&mut self, key: &[u8], value: Value) -> Value {
        let index = self.index_of(key);
        self.shards[index].1.replace(key, value)
    }

    fn size(&self) -> i64 {
        let mut size = 0i64;
        for (_, shard) in &self.shards {
            size = size.saturating_add(shard.size());
        }
        size
    }

    /// That of the first shard, since the shards of one store have the same. A span of none covers no key, so nobody
    /// makes a value for it.
    fn hasher(&self) -> TextHasher {
        match self.shards.first() {
            Some((_, shard)) => shard.hasher(),
            None => TextHasher::Fixed,
        }
    }

    fn clear(&mut self) {
        for index in 0..self.shards.len() {
            self.shards[index].1.clear();
        }
    }
}
