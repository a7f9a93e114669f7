//! LMOVE and RPOPLPUSH.
//!
//! The item's copy, which one of list and reply needs, goes to the list, and the item itself to the reply. So all
//! memory is taken before the item leaves its list, and nothing has to be undone.

ghost use Rattle.std.specs.Prelude.{◌≡◌, [], ◌∷◌, true, false, IsTrue, IfOk, OnOk, OnErr};
ghost use Rattle.std.specs.FinMap as map;
ghost use Rattle.std.specs.Str.{bytes_eq};
ghost use Rattle.command_cases.specs.Case.{Does};
ghost use Rattle.command_cases.specs.Shapes.{at_two};
ghost use Rattle.list_commands.specs.ListCommand.{is_list, items_there, may_be_list, move_step};
ghost use Rattle.texts.specs.declared.text_list.End.TheVariants.{Head, Tail};
ghost use Rattle.values.specs.ListValue.{end_item, joined};
ghost use Rattle.values.specs.declared.Value.TheVariants as kind;

use crate::ends::pop;
use crate::lists::{copy_at, take_list};
use command_cases::{Starved, wrong_type_reply};
use keyspace::Keyspace;
use resp::Reply;
use std::alloc::{AllocError, Global};
use texts::{End, Text, Texts};
use values::{ListValue, Value};

/// `RPOPLPUSH source destination`: as LMOVE with RIGHT and LEFT.
///
/// <https://redis.io/docs/latest/commands/rpoplpush/>
pub(crate) fn rpoplpush<K: Keyspace>(
    alloc: Global,
    keyspace: &mut K,
    from: Text,
    to: Text,
) -> Result<Reply, Starved>
    requires from { IsTrue (K.covered from) }
    requires to { IsTrue (K.covered to) }
    ensures done { Does (at_two from to (move_step (bytes_eq from to) Tail Head))
        (K.contents keyspace.old) (K.contents keyspace.new) result }
    ensures starves { OnErr result (IsTrue (is_list (map.get (K.contents keyspace.old) from))) }
{
    lmove(alloc, keyspace, from, to, End::Tail, End::Head)
}

/// `LMOVE source destination LEFT|RIGHT LEFT|RIGHT`: moves the item at one end of the first list to an end of the
/// second, and answers it; null where the first is missing. Equal names turn the list.
///
/// <https://redis.io/docs/latest/commands/lmove/>
#[tactic(auto, using(keyspace::proofs::Changes::changes, resp::proofs::Contents::content_of))]
pub(crate) fn lmove<K: Keyspace>(
    alloc: Global,
    keyspace: &mut K,
    from: Text,
    to: Text,
    taken: End,
    put: End,
) -> Result<Reply, Starved>
    requires from { IsTrue (K.covered from) }
    requires to { IsTrue (K.covered to) }
    ensures done { Does (at_two from to (move_step (bytes_eq from to) taken put))
        (K.contents keyspace.old) (K.contents keyspace.new) result }
    ensures starves { OnErr result (IsTrue (is_list (map.get (K.contents keyspace.old) from))) }
{
    match keyspace.look(from.as_slice()) {
        None => return Ok(Reply::Null),
        Some(Value::List(_)) => {}
        Some(_) => return Ok(wrong_type_reply()),
    }
    if from.as_slice() == to.as_slice() {
        return turn(alloc, keyspace, from.as_slice(), taken, put);
    }
    match keyspace.look(to.as_slice()) {
        None | Some(Value::List(_)) => {}
        Some(_) => return Ok(wrong_type_reply()),
    }
    move_apart(alloc, keyspace, from.as_slice(), to, taken, put)
}

/// Moves an item of a list from one end to the other.
#[tactic(auto, using(keyspace::proofs::Changes::changes, resp::proofs::Contents::content_of))]
fn turn<K: Keyspace>(
    alloc: Global,
    keyspace: &mut K,
    key: &[u8],
    taken: End,
    put: End,
) -> Result<Reply, Starved>
    requires covered { IsTrue (K.covered key.now) }
    requires there { IsTrue (is_list (map.get (K.contents keyspace.old) key.now)) }
    ensures done { Does (at_two key.now key.now (move_step true taken put))
        (K.contents keyspace.old) (K.contents keyspace.new) result }
{
    let copy = end_copy(alloc, keyspace, key, taken)?;
    let mut list = take_list(alloc, keyspace, key);
    list.turn(taken, put);
    keyspace.replace(key, Value::List(list));
    Ok(Reply::Bulk(copy.into_vec()))
}

/// Moves an item from the list at one key to that at another, or to a new one.
fn move_apart<K: Keyspace>(
    alloc: Global,
    keyspace: &mut K,
    from: &[u8],
    to: Text,
    taken: End,
    put: End,
) -> Result<Reply, Starved>
    requires from { IsTrue (K.covered from.now) }
    requires to { IsTrue (K.covered to) }
    requires apart { bytes_eq from.now to ≡ false }
    requires there { IsTrue (is_list (map.get (K.contents keyspace.old) from.now)) }
    requires target { IsTrue (may_be_list (map.get (K.contents keyspace.old) to)) }
    ensures done { Does (at_two from.now to (move_step false taken put))
        (K.contents keyspace.old) (K.contents keyspace.new) result }
{
    let copy = end_copy(alloc, keyspace, from, taken)?;
    put_item(alloc, keyspace, to, put, copy)?;
    Ok(pop(alloc, keyspace, from, taken))
}

/// A copy of the item at this end of the list at a key.
#[tactic(auto, using(keyspace::proofs::Changes::changes))]
fn end_copy<K: Keyspace>(
    alloc: Global,
    keyspace: &K,
    key: &[u8],
    end: End,
) -> Result<Text, AllocError>
    requires covered { IsTrue (K.covered key.now) }
    requires there { IsTrue (is_list (map.get (K.contents keyspace.now) key.now)) }
    ensures { IfOk result (λ copy. copy ∷ [] ≡ end_item end (items_there (map.get (K.contents keyspace.now) key.now))) }
{
    let Some(Value::List(list)) = keyspace.look(key) else {
        unreachable!();
    };
    copy_of_end(alloc, list, end)
}

/// A copy of the item at this end of the list.
#[tactic(auto, using(crate::proofs::ListItems::ends))]
fn copy_of_end(alloc: Global, list: &ListValue, end: End) -> Result<Text, AllocError>
    ensures { IfOk result (λ copy. copy ∷ [] ≡ end_item end list.now) }
{
    let last = list.len() - 1;
    match end {
        End::Head => copy_at(alloc, list, 0),
        End::Tail => copy_at(alloc, list, last),
    }
}

/// Puts an item at this end of the list at a key, or of a new one where the key is missing.
#[tactic(auto, using(keyspace::proofs::Changes::changes))]
fn put_item<K: Keyspace>(
    alloc: Global,
    keyspace: &mut K,
    key: Text,
    end: End,
    item: Text,
) -> Result<(), Starved>
    requires covered { IsTrue (K.covered key) }
    requires target { IsTrue (may_be_list (map.get (K.contents keyspace.old) key)) }
    ensures ok { OnOk result (K.contents keyspace.new
        ≡ map.insert (K.contents keyspace.old) key
        (kind.List (joined end (items_there (map.get (K.contents keyspace.old) key)) (item ∷ [])))) }
    ensures err { OnErr result (K.contents keyspace.new ≡ K.contents keyspace.old) }
{
    if keyspace.look(key.as_slice()).is_none() {
        let list = list_of_one(alloc, item)?;
        return match keyspace.put(key.into_vec(), Value::List(list)) {
            Ok(_) => Ok(()),
            Err(_) => Err(Starved),
        };
    }
    let mut list = take_list(alloc, keyspace, key.as_slice());
    let joined = join_item(&mut list, end, item);
    keyspace.replace(key.as_slice(), Value::List(list));
    Ok(joined?)
}

/// The list of this item alone.
fn list_of_one(alloc: Global, item: Text) -> Result<ListValue, AllocError>
    ensures { IfOk result (λ list. list ≡ item ∷ []) }
{
    let mut items = Vec::with_capacity(alloc, 1)?;
    items.push(item.into_vec())?;
    let Some(list) = ListValue::from_pushes(End::Tail, Texts::from(items)) else {
        unreachable!();
    };
    Ok(list)
}

/// Puts an item at this end of the list; `AllocError`, and no change, where there is no memory.
#[tactic(auto, using(crate::proofs::ListItems::ends))]
fn join_item(list: &mut ListValue, end: End, item: Text) -> Result<(), AllocError>
    ensures ok { OnOk result (list.new ≡ joined end list.old (item ∷ [])) }
    ensures err { OnErr result (list.new ≡ list.old) }
{
    match end {
        End::Head => list.insert(0, item),
        End::Tail => {
            let behind = list.len();
            list.insert(behind, item)
        }
    }
}
