//! The row of shards: those of a request's groups are taken out of it and put back.

ghost use Rattle.std.specs.Prelude.{◌≡◌, ℕ, ◌<◌, ◌≤◌, [], length, slice_index_or, slice_set, true, vec_capacity};
ghost use Rattle.std.specs.FinMap.{empty};
ghost use Rattle.std.specs.List.{AllByRecursion};
ghost use Rattle.groups.specs.GroupSet.{has};
ghost use Rattle.shards.specs.Rows.{taken_out, emptied, put_span};
ghost use Rattle.shard_exec.specs.Stamps.{raise};

use groups::{GroupId, Groups, Stamp};
use hashed_texts::TextHasher;
use shards::Shard;
use std::alloc::Global;
use std::mem;

/// Takes the shards of these groups out of the row, each leaving an empty one, into `span`, which has the room. It
/// takes no memory.
pub fn take_shards(
    alloc: Global,
    hasher: TextHasher,
    row: &mut Vec<Shard>,
    groups: Groups,
    span: Vec<(GroupId, Shard)>,
) -> Vec<(GroupId, Shard)>
    requires inside { (g : ℕ) → has groups g ≡ true → g < length row.old.items }
    requires none { span.items ≡ [] }
    requires room { length groups ≤ vec_capacity span }
    ensures taken { result.items ≡ taken_out empty row.old.items groups }
    ensures left { row.new.items ≡ emptied empty row.old.items groups }
{
    let mut span = span;
    for group in groups.iter() {
        let shard = take_shard(alloc, hasher, row, group);
        let Ok(()) = span.push((group, shard)) else {
            unreachable!()
        };
    }
    span
}

/// Takes one shard out of the row and leaves an empty one.
fn take_shard(alloc: Global, hasher: TextHasher, row: &mut Vec<Shard>, group: GroupId) -> Shard
    requires { group < length row.old.items }
    ensures taken { result ≡ slice_index_or row.old.items group empty }
    ensures left { row.new.items ≡ slice_set row.old.items group empty }
{
    let there = &mut row[usize::from(group.number())];
    mem::replace(there, Shard::new(alloc, hasher))
}

/// Puts shards back where they were.
pub fn put_back(row: &mut Vec<Shard>, span: Vec<(GroupId, Shard)>)
    requires { AllByRecursion (λ s. s.0 < length row.old.items) span.items }
    ensures row { row.new.items ≡ put_span row.old.items span.items }
    ensures len { length row.new.items ≡ length row.old.items }
{
    for (number, shard) in span {
        let index = usize::from(number.number());
        row[index] = shard;
    }
}

/// Makes the stamp the last one of these shards.
pub fn raise(lasts: &mut Vec<Option<Stamp>>, groups: Groups, stamp: &Stamp)
    requires { (g : ℕ) → has groups g ≡ true → g < length lasts.old.items }
    ensures raised { lasts.new.items ≡ raise lasts.old.items groups stamp.now }
    ensures len { length lasts.new.items ≡ length lasts.old.items }
{
    for group in groups.iter() {
        lasts[usize::from(group.number())] = Some(Stamp { ..*stamp });
    }
}
