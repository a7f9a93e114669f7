//! The table that a set keeps its members in, seen as the ascending list of their bytes.

ghost use Rattle.std.specs.Prelude.{◌≡◌, ◌+◌, ◌≤◌, ◌&&◌, [], ◌∷◌, length, map, not};
ghost use Rattle.std.specs.Prelude.{false, Some, IfOk, MatchOption, OnOk, OnErr};
ghost use Rattle.std.specs.List.{IsDistinct};
ghost use Rattle.std.specs.Str.{bytes_eq};
ghost use Rattle.indexmap.specs.IndexSet.{index_set_len, spare};
ghost use Rattle.texts.specs.Texts.{texts_of};
ghost use Rattle.values.specs.SetValue.{IsAscending, is_above, is_below, is_member, members_after, members_seen};
ghost use Rattle.values.specs.SetValue.{with_member, without_member, with_members, without_members};

use hashed_texts::{HashedSlice, HashedText, TextHasher};
use indexmap::IndexSet;
use std::alloc::{AllocError, Global};

/// The room that a table keeps, however few members are left.
const KEPT_ROOM: usize = 64;

/// Members in one hashed table, in any order. It keeps the hasher that it was made with.
pub(crate) type MemberTable = IndexSet<HashedText, TextHasher>;

/// Whether this is a member.
pub(crate) fn contains(there: &MemberTable, member: &[u8]) -> bool
    ensures { result ≡ is_member (members_seen there.now.keys) member.now }
{
    there.contains(HashedSlice { bytes: member })
}

/// Inserts a member, and says whether it was new; takes memory only for a new one.
pub(crate) fn insert(there: &mut MemberTable, member: Vec<u8>) -> Result<bool, AllocError>
    ensures added { IfOk result (λ new. new ≡ not (is_member (members_seen there.old.keys) member.items)) }
    ensures ok { OnOk result (members_seen there.new.keys ≡ with_member (members_seen there.old.keys) member.items) }
    ensures bound { index_set_len there.old ≤ index_set_len there.new }
    ensures spare { spare there.old ≤ spare there.new + 1 }
    ensures room { OnErr result (spare there.old ≡ 0) }
    ensures absent { OnErr result (is_member (members_seen there.old.keys) member.items ≡ false) }
    ensures err { OnErr result (members_seen there.new.keys ≡ members_seen there.old.keys) }
{
    let key = HashedText::from(member);
    let Ok(new) = there.insert(key) else {
        return Err(AllocError);
    };
    Ok(new)
}

/// Removes a member, where it is there. Another may take its place in the table.
pub(crate) fn remove(there: &mut MemberTable, member: &[u8])
    ensures left { members_seen there.new.keys ≡ without_member (members_seen there.old.keys) member.now }
    ensures bound { index_set_len there.new ≤ index_set_len there.old }
{
    // `len` is called for its clause that no member lies there twice, which the proof cites.
    let _len = there.len();
    there.swap_remove(HashedSlice { bytes: member });
}

/// Makes a large table smaller where little of it is used.
pub(crate) fn give_back(there: &mut MemberTable)
    ensures { there.new.keys ≡ there.old.keys }
{
    let room = there.capacity();
    if room > KEPT_ROOM && there.len() < room / 8 {
        there.shrink_to(room / 4);
    }
}

/// Inserts these members, for which there is room.
pub(crate) fn insert_each(there: &mut MemberTable, mut members: Vec<Vec<u8>>)
    requires { length members.items ≤ spare there.old }
    ensures joined { members_seen there.new.keys
        ≡ with_members (members_seen there.old.keys) (texts_of members.items) }
    ensures bound { index_set_len there.old ≤ index_set_len there.new }
{
    members.reverse();
    while let Some(member) = members.pop() {
        let Ok(_) = insert(there, member) else {
            return;
        };
    }
}

/// Removes these members, where they are there.
pub(crate) fn remove_each(there: &mut MemberTable, members: &[Vec<u8>])
    ensures left { members_seen there.new.keys ≡ without_members (members_seen there.old.keys) (texts_of members.now) }
    ensures bound { index_set_len there.new ≤ index_set_len there.old }
{
    for member in members {
        remove(there, member.as_slice());
    }
}

/// Puts the members in ascending order as they lie in the table. Where there is no memory for that they stay as they
/// lie.
pub(crate) fn order(there: &mut MemberTable) -> Result<(), AllocError>
    ensures ok { OnOk result (IsAscending there.new.keys) }
    ensures same { members_seen there.new.keys ≡ members_seen there.old.keys }
    ensures len { index_set_len there.new ≡ index_set_len there.old }
    ensures err { OnErr result (there.new.keys ≡ there.old.keys) }
{
    there.sort()?;
    Ok(())
}

/// The members in ascending order, borrowed, in a list of their own.
pub(crate) fn ascending(alloc: Global, there: &MemberTable) -> Result<Vec<&[u8]>, AllocError>
    ensures { IfOk result (λ members. map (λ member. member.now) members.items ≡ members_seen there.now.keys) }
{
    let mut members = borrowed(alloc, there)?;
    members.sort()?;
    Ok(members)
}

/// The members as they lie in the table, borrowed.
fn borrowed(alloc: Global, there: &MemberTable) -> Result<Vec<&[u8]>, AllocError>
    ensures lent { IfOk result (λ members. map (λ member. member.now) members.items
        ≡ there.now.keys) }
    ensures distinct { IsDistinct bytes_eq there.now.keys }
{
    let mut members = Vec::with_capacity(alloc, there.len())?;
    for member in there.as_slice() {
        members.push_reserved(member.as_slice());
    }
    Ok(members)
}

/// The least of these members above `after`, or of all of them where that is `None`. It takes time for one walk over
/// them, and no memory.
pub(crate) fn least_after<'a>(keys: &'a [HashedText], after: Option<&'a [u8]>) -> Option<&'a [u8]>
    ensures { MatchOption result
        (members_after after.entry (members_seen keys.now) ≡ [])
        (λ member. members_after after.entry (members_seen keys.now)
        ≡ member.now ∷ members_after (Some member) (members_seen keys.now)) }
{
    let mut least: Option<&'a [u8]> = None;
    for key in keys {
        let member = key.as_slice();
        if is_above(member, after) && is_below(member, least) {
            least = Some(member);
        }
    }
    least
}

/// Whether a member is above the other, if there is one.
fn is_above(member: &[u8], other: Option<&[u8]>) -> bool
    ensures { result ≡ is_above other.entry member.now }
{
    match other {
        Some(other) => other < member,
        None => true,
    }
}

/// Whether a member is below the other, if there is one.
fn is_below(member: &[u8], other: Option<&[u8]>) -> bool
    ensures { result ≡ is_below other.entry member.now }
{
    match other {
        Some(other) => member < other,
        None => true,
    }
}
