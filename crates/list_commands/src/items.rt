//! The commands that change items of a list: LSET, LTRIM, LREM and LINSERT.

ghost use Rattle.std.specs.Prelude.{◌≡◌, ◌-◌, ◌<◌, suc, false, length, insert, position, IsTrue, IsOk, IfSome, OnErr};
ghost use Rattle.std.specs.Str.{bytes_eq};
ghost use Rattle.std.specs.FinMap as map;
ghost use Rattle.command_cases.specs.Case.{Does, at_key};
ghost use Rattle.integers.specs.Range.{range_items};
ghost use Rattle.list_commands.specs.ListCommand.{at_list, is_list, set_step, trim_step, remove_step, insert_step};
ghost use Rattle.list_commands.specs.ListCommand.{beside, index_out_of_range, without_counted};
ghost use Rattle.resp.specs.Content.{content};
ghost use Rattle.values.specs.ListValue.{nonempty};

use crate::lists::{leave_list, take_list};
use crate::places::place_in;
use command_cases::{Starved, count_reply, no_such_key_reply, ok_reply, wrong_type_reply};
use command_table::Side;
use integers::range_of;
use keyspace::Keyspace;
use resp::{ErrorText, Reply};
use std::alloc::Global;
use texts::{End, Text};
use values::{ListValue, Value};

/// `LSET key place item`: puts the item in the place of the one that is there; an error where the key is missing or the
/// place is none of the list's.
///
/// It takes no memory. <https://redis.io/docs/latest/commands/lset/>
#[tactic(auto, using(keyspace::proofs::Changes::changes))]
pub(crate) fn lset<K: Keyspace>(
    alloc: Global,
    keyspace: &mut K,
    key: Text,
    place: i64,
    item: Text,
) -> Result<Reply, Starved>
    requires { IsTrue (K.covered key) }
    ensures done { Does (at_key key (at_list (set_step place item)))
        (K.contents keyspace.old) (K.contents keyspace.new) result }
    ensures answers { IsOk result }
{
    let length = match keyspace.look(key.as_slice()) {
        None => return Ok(no_such_key_reply()),
        Some(Value::List(list)) => list.len(),
        Some(_) => return Ok(wrong_type_reply()),
    };
    let Some(place) = place_in(place, length) else {
        return Ok(index_out_of_range_reply());
    };
    let mut list = take_list(alloc, keyspace, key.as_slice());
    list.set_item(place, item);
    keyspace.replace(key.as_slice(), Value::List(list));
    Ok(ok_reply())
}

/// That no item is at the place.
#[tactic(auto, using(resp::proofs::Contents::content_of))]
fn index_out_of_range_reply() -> Reply
    ensures { content result ≡ index_out_of_range }
{
    Reply::Error(ErrorText::Fixed("ERR index out of range"))
}

/// `LTRIM key start end`: keeps the items from the start to the end, both included; either counts from the end where it
/// is below 0.
///
/// It takes no memory. <https://redis.io/docs/latest/commands/ltrim/>
pub(crate) fn ltrim<K: Keyspace>(
    alloc: Global,
    keyspace: &mut K,
    key: Text,
    start: i64,
    end: i64,
) -> Result<Reply, Starved>
    requires { IsTrue (K.covered key) }
    ensures done { Does (at_key key (at_list (trim_step start end)))
        (K.contents keyspace.old) (K.contents keyspace.new) result }
    ensures answers { IsOk result }
{
    Ok(trim(alloc, keyspace, key.as_slice(), start, end))
}

/// Keeps the items from the start to the end of the list at a key.
#[tactic(auto, using(keyspace::proofs::Changes::changes))]
fn trim<K: Keyspace>(alloc: Global, keyspace: &mut K, key: &[u8], start: i64, end: i64) -> Reply
    requires { IsTrue (K.covered key.now) }
    ensures done { (K.contents keyspace.new, content result)
        ≡ at_key key.now (at_list (trim_step start end)) (K.contents keyspace.old) }
{
    match keyspace.look(key) {
        None => return ok_reply(),
        Some(Value::List(_)) => {}
        Some(_) => return wrong_type_reply(),
    }
    let list = take_list(alloc, keyspace, key);
    leave_list(keyspace, key, keep_range(list, start, end));
    ok_reply()
}

/// The list with the items from the start to the end alone, if there are any.
fn keep_range(list: ListValue, start: i64, end: i64) -> Option<ListValue>
    ensures { result ≡ nonempty (range_items start end list) }
{
    let (from, to) = range_of(start, end, list.len());
    list.keep(from, to)
}

/// `LREM key count item`: removes the items that are equal to this one, and says how many: the first so many from the
/// head, or from the tail for a count below 0, or all for 0.
///
/// It takes no memory. <https://redis.io/docs/latest/commands/lrem/>
#[tactic(auto, using(keyspace::proofs::Changes::changes))]
pub(crate) fn lrem<K: Keyspace>(
    alloc: Global,
    keyspace: &mut K,
    key: Text,
    count: i64,
    item: Text,
) -> Result<Reply, Starved>
    requires { IsTrue (K.covered key) }
    ensures done { Does (at_key key (at_list (remove_step count item)))
        (K.contents keyspace.old) (K.contents keyspace.new) result }
    ensures answers { IsOk result }
{
    match keyspace.look(key.as_slice()) {
        None => return Ok(count_reply(0)),
        Some(Value::List(_)) => {}
        Some(_) => return Ok(wrong_type_reply()),
    }
    let list = take_list(alloc, keyspace, key.as_slice());
    let (removed, left) = remove_counted(list, count, item.as_slice());
    leave_list(keyspace, key.as_slice(), left);
    Ok(count_reply(removed))
}

/// Takes out items that are equal to this one, as LREM counts them. It gives their number and what is left.
fn remove_counted(list: ListValue, count: i64, item: &[u8]) -> (usize, Option<ListValue>)
    ensures left { result.1 ≡ nonempty (without_counted count item.now list) }
    ensures removed { result.0 ≡ length list - length (without_counted count item.now list) }
{
    let most = count.unsigned_abs() as usize;
    if count == 0 {
        let all = list.len();
        list.remove_equal(End::Head, item, all)
    } else if count > 0 {
        list.remove_equal(End::Head, item, most)
    } else {
        list.remove_equal(End::Tail, item, most)
    }
}

/// `LINSERT key BEFORE|AFTER pivot item`: inserts the item beside the first one that is equal to the pivot, and says
/// the new length; -1 where there is none, 0 where the key is missing.
///
/// <https://redis.io/docs/latest/commands/linsert/>
#[tactic(auto, using(keyspace::proofs::Changes::changes, resp::proofs::Contents::content_of))]
pub(crate) fn linsert<K: Keyspace>(
    alloc: Global,
    keyspace: &mut K,
    key: Text,
    side: Side,
    pivot: Text,
    item: Text,
) -> Result<Reply, Starved>
    requires { IsTrue (K.covered key) }
    ensures done { Does (at_key key (at_list (insert_step side pivot item)))
        (K.contents keyspace.old) (K.contents keyspace.new) result }
    ensures starves { OnErr result (IsTrue (is_list (map.get (K.contents keyspace.old) key))) }
{
    let found = match keyspace.look(key.as_slice()) {
        None => return Ok(count_reply(0)),
        Some(Value::List(list)) => place_of(list, pivot.as_slice()),
        Some(_) => return Ok(wrong_type_reply()),
    };
    let Some(place) = found else {
        return Ok(Reply::Int(-1));
    };
    let mut list = take_list(alloc, keyspace, key.as_slice());
    let inserted = insert_beside(&mut list, side, place, item);
    let length = list.len();
    keyspace.replace(key.as_slice(), Value::List(list));
    if !inserted {
        return Err(Starved);
    }
    Ok(count_reply(length))
}

/// Inserts the item beside the one at a place, and says whether there was memory for it.
fn insert_beside(list: &mut ListValue, side: Side, place: usize, item: Text) -> bool
    requires { place < length list.old }
    ensures ok { IsTrue result → list.new ≡ insert list.old (beside side place) item }
    ensures long { IsTrue result → length list.new ≡ suc (length list.old) }
    ensures err { result ≡ false → list.new ≡ list.old }
{
    let last = list.len() - 1;
    prove!(place <= last);
    match side {
        Side::Before => list.insert(place, item).is_ok(),
        Side::After => list.insert(place + 1, item).is_ok(),
    }
}

/// The place of the first item that is equal to this one.
fn place_of(list: &ListValue, item: &[u8]) -> Option<usize>
    ensures place { result ≡ position (bytes_eq item.now) list.now }
    ensures within { IfSome result (λ p. p < length list.now) }
{
    list.find(item)
}
