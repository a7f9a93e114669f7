//! The table that a hash keeps its pairs in, seen as the list of their bytes.

ghost use Rattle.std.specs.Prelude.{◌≡◌, ◌+◌, ◌≤◌, length, not, None};
ghost use Rattle.std.specs.Prelude.{false, IsTrue, IfOk, OnOk, OnErr};
ghost use Rattle.std.specs.List.{filter};
ghost use Rattle.std.specs.Option.{option_map};
ghost use Rattle.indexmap.specs.IndexMap.{index_map_len, spare};
ghost use Rattle.texts.specs.Texts.{texts_of, pairs_of};
ghost use Rattle.values.specs.HashValue.{pairs_seen, field_value, with_field, without_field, with_fields, without_fields};
ghost use Rattle.values.specs.SetValue.{is_member, members_seen};

use crate::member_table::{self, MemberTable};
use hashed_texts::{HashedSlice, HashedText, TextHasher};
use indexmap::IndexMap;
use std::alloc::AllocError;
use texts::Text;

/// Fields and their values in one hashed table, in order of insertion. It keeps the hasher that it was made with.
pub(crate) type PairTable = IndexMap<HashedText, Vec<u8>, TextHasher>;

/// So many fields are removed one after another, each by a walk over the pairs after it.
const FEW_FIELDS: usize = 8;

/// The value of a field.
pub(crate) fn look_up<'a>(pairs: &'a PairTable, field: &[u8]) -> Option<&'a [u8]>
    ensures { option_map (λ value. value.now) result ≡ field_value (pairs_seen pairs.now.entries) field.now }
{
    match pairs.get(HashedSlice { bytes: field }) {
        Some(value) => Some(value.as_slice()),
        None => None,
    }
}

/// Sets a field and gives the value that it had; takes memory only for a new field.
pub(crate) fn insert(
    pairs: &mut PairTable,
    field: Vec<u8>,
    value: Vec<u8>,
) -> Result<Option<Text>, AllocError>
    ensures before { IfOk result (λ before. before ≡ field_value (pairs_seen pairs.old.entries) field.items) }
    ensures ok { OnOk result
        (pairs_seen pairs.new.entries ≡ with_field (pairs_seen pairs.old.entries) field.items value.items) }
    ensures bound { index_map_len pairs.old ≤ index_map_len pairs.new }
    ensures spare { spare pairs.old ≤ spare pairs.new + 1 }
    ensures room { OnErr result (spare pairs.old ≡ 0) }
    ensures absent { OnErr result (field_value (pairs_seen pairs.old.entries) field.items ≡ None) }
    ensures err { OnErr result (pairs_seen pairs.new.entries ≡ pairs_seen pairs.old.entries) }
{
    let key = HashedText::from(field);
    match pairs.insert(key, value) {
        Ok(Some(before)) => Ok(Some(Text::from(before))),
        Ok(None) => Ok(None),
        Err(_) => Err(AllocError),
    }
}

/// Sets a field; takes memory only for a new one. A value as long as the one before is copied over it: so what was
/// handed in is free for what comes next while it lies in the cache, and the memory of the old one isn't waited for.
fn set(pairs: &mut PairTable, field: Vec<u8>, value: Vec<u8>) -> Result<(), AllocError>
    ensures ok { OnOk result
        (pairs_seen pairs.new.entries ≡ with_field (pairs_seen pairs.old.entries) field.items value.items) }
    ensures bound { index_map_len pairs.old ≤ index_map_len pairs.new }
    ensures spare { spare pairs.old ≤ spare pairs.new + 1 }
    ensures room { OnErr result (spare pairs.old ≡ 0) }
{
    if overwrite(pairs, field.as_slice(), value.as_slice()) {
        return Ok(());
    }
    insert(pairs, field, value)?;
    Ok(())
}

/// Copies a value over that of the field, where the field is there and has one as long.
fn overwrite(pairs: &mut PairTable, field: &[u8], value: &[u8]) -> bool
    ensures written { IsTrue result
        → pairs_seen pairs.new.entries ≡ with_field (pairs_seen pairs.old.entries) field.now value.now }
    ensures other { result ≡ false → pairs_seen pairs.new.entries ≡ pairs_seen pairs.old.entries }
    ensures bound { index_map_len pairs.new ≡ index_map_len pairs.old }
    ensures spare { spare pairs.new ≡ spare pairs.old }
{
    let Some(there) = pairs.get_mut(HashedSlice { bytes: field }) else {
        return false;
    };
    if there.len() != value.len() {
        return false;
    }
    there.as_mut_slice().copy_from_slice(value);
    true
}

/// Removes a field, where it is there. The others keep their order.
pub(crate) fn remove(pairs: &mut PairTable, field: &[u8])
    ensures left { pairs_seen pairs.new.entries ≡ without_field (pairs_seen pairs.old.entries) field.now }
    ensures bound { index_map_len pairs.new ≤ index_map_len pairs.old }
{
    pairs.shift_remove(HashedSlice { bytes: field });
}

/// Sets the fields of these pairs, the first and the second of each by turns, for which there is room.
pub(crate) fn insert_each(pairs: &mut PairTable, mut turns: Vec<Vec<u8>>)
    requires { length turns.items ≤ spare pairs.old + spare pairs.old + 1 }
    ensures set { pairs_seen pairs.new.entries
        ≡ with_fields (pairs_seen pairs.old.entries) (pairs_of (texts_of turns.items)) }
    ensures bound { index_map_len pairs.old ≤ index_map_len pairs.new }
{
    turns.reverse();
    while let (Some(field), Some(value)) = (turns.pop(), turns.pop()) {
        let Ok(()) = set(pairs, field, value) else {
            return;
        };
    }
}

/// Removes these fields, where they are there. The others keep their order, so a removal goes over the pairs after it:
/// where fields and pairs are many, and there is memory for a table of the fields, all of them go in one walk.
pub(crate) fn remove_each(pairs: &mut PairTable, fields: Vec<Vec<u8>>)
    ensures left { pairs_seen pairs.new.entries
        ≡ without_fields (pairs_seen pairs.old.entries) (texts_of fields.items) }
    ensures bound { index_map_len pairs.new ≤ index_map_len pairs.old }
{
    if fields.len() > FEW_FIELDS && pairs.len() > FEW_FIELDS {
        let (alloc, hasher) = (*fields.allocator(), *pairs.hasher());
        let table = MemberTable::with_capacity_and_hasher(alloc, fields.len(), hasher);
        if let Ok(mut gone) = table {
            member_table::insert_each(&mut gone, fields);
            return keep_others(pairs, &gone);
        }
    }
    remove_in_turn(pairs, fields.as_slice());
}

/// Keeps the pairs whose fields are not among these, in one walk.
fn keep_others(pairs: &mut PairTable, gone: &MemberTable)
    ensures kept { pairs.new.entries
        ≡ filter (λ e. not (is_member (members_seen gone.now.keys) e.0)) pairs.old.entries }
    ensures bound { index_map_len pairs.new ≤ index_map_len pairs.old }
{
    pairs.retain(
        |field: &HashedText, value: &mut Vec<u8>| -> bool
            ensures { (result ≡ not (is_member (members_seen gone.entry.now.keys) field.now)) × (value.new ≡ value.old) }
        { !member_table::contains(gone, field.as_slice()) },
    );
}

/// Removes these fields one after another, where they are there. It takes no memory.
fn remove_in_turn(pairs: &mut PairTable, fields: &[Vec<u8>])
    ensures left { pairs_seen pairs.new.entries
        ≡ without_fields (pairs_seen pairs.old.entries) (texts_of fields.now) }
    ensures bound { index_map_len pairs.new ≤ index_map_len pairs.old }
{
    for field in fields {
        remove(pairs, field.as_slice());
    }
}
