//! The shard of each slot, by the ranges of a placement document: the rules of this project's own format behind its
//! shape. A table is made of it.

ghost use Rattle.std.specs.Prelude.{◌≡◌, ◌<◌, pos, ◌≤ℤ◌, ◌<ℤ◌, All, MatchOption};
ghost use Rattle.std.specs.Bool.{OnTrue, OnFalse};
ghost use Rattle.placement.specs.Document.{IsRange};
ghost use Rattle.placement.specs.Layout.{KnowsShards, SomeTwice};
ghost use Rattle.placement.specs.Owners.{Owns, Claims, SomeTaken, SomeUnowned, OwnEach};

use crate::document::{Document, Range};
use crate::slots::SLOTS;
use groups::GroupId;

/// The number of shards, where it is 1 to 64 and each range names one of them.
pub fn known_shards(document: &Document) -> Option<u8>
    ensures { MatchOption result (¬ KnowsShards document.now)
        (λ n. KnowsShards document.now × (document.now.shards ≡ pos n)) }
{
    let shards = document.shards();
    if 1 <= shards
        && shards <= 64
        && document
            .ranges()
            .iter()
            .all(|range| 0 <= range.shard && range.shard < shards)
    {
        Some(shards as u8)
    } else {
        None
    }
}

/// The shard of each slot that is in a range, where no slot is in two.
pub fn owners_of(ranges: &[Range]) -> Option<[Option<GroupId>; SLOTS]>
    requires in_range { All IsRange ranges.now }
    requires below_64 { All (λ r. (pos 0 ≤ℤ r.shard) × (r.shard <ℤ pos 64)) ranges.now }
    ensures { MatchOption result (SomeTwice ranges.now) (λ owners. Owns ranges.now owners) }
{
    let mut owners = [None; SLOTS];
    for range in ranges {
        if !claim(&mut owners, *range, GroupId::new(range.shard as u8)) {
            return None;
        }
    }
    Some(owners)
}

// Gives the slots of a range to a shard, and tells whether they were free.
fn claim(owners: &mut [Option<GroupId>; SLOTS], range: Range, shard: GroupId) -> bool
    requires { IsRange range }
    ensures free { OnTrue result (Claims range shard owners.old owners.new) }
    ensures taken { OnFalse result (SomeTaken range owners.old) }
{
    for slot in range.from..range.to + 1 {
        if owners[slot].is_some() {
            return false;
        }
        owners[slot] = Some(shard);
    }
    true
}

/// The shard of each slot, where each has one.
pub fn all_owned(owners: &[Option<GroupId>; SLOTS]) -> Option<[GroupId; SLOTS]>
    ensures { MatchOption result (SomeUnowned owners.now) (λ shards. OwnEach owners.now shards) }
{
    let mut shards = [GroupId::new(0); SLOTS];
    for (slot, owner) in owners.iter().enumerate() {
        shards[slot] = (*owner)?;
    }
    Some(shards)
}
