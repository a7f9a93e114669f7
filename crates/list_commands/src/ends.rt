//! The commands at the ends of a list: LPUSH, RPUSH, LPUSHX, RPUSHX, LPOP and RPOP.

ghost use Rattle.std.specs.Prelude.{◌≡◌, IsTrue, IsOk, OnErr, None, Some};
ghost use Rattle.std.specs.FinMap as map;
ghost use Rattle.command_cases.specs.Case.{Does, at_key};
ghost use Rattle.command_cases.specs.Changes.{Changes};
ghost use Rattle.list_commands.specs.ListCommand.{at_list, is_list, may_be_list, pop_step, push_step, push_there_step};
ghost use Rattle.resp.specs.Content.{content};
ghost use Rattle.texts.specs.declared.text_list.End.TheVariants.{Head, Tail};

use crate::lists::{leave_list, take_list};
use command_cases::{Starved, count_reply, wrong_type_reply};
use keyspace::Keyspace;
use resp::Reply;
use std::alloc::Global;
use texts::{End, Text, Texts};
use values::{ListValue, Value};

/// `LPOP key`: takes the item at the head, or null; an error where the key holds a value of another type.
///
/// It takes no memory: the reply is the item. <https://redis.io/docs/latest/commands/lpop/>
pub(crate) fn lpop<K: Keyspace>(
    alloc: Global,
    keyspace: &mut K,
    key: Text,
) -> Result<Reply, Starved>
    requires { IsTrue (K.covered key) }
    ensures done { Does (at_key key (at_list (pop_step Head)))
        (K.contents keyspace.old) (K.contents keyspace.new) result }
    ensures answers { IsOk result }
{
    Ok(pop(alloc, keyspace, key.as_slice(), End::Head))
}

/// `RPOP key`: takes the item at the tail, or null; an error where the key holds a value of another type.
///
/// It takes no memory: the reply is the item. <https://redis.io/docs/latest/commands/rpop/>
pub(crate) fn rpop<K: Keyspace>(
    alloc: Global,
    keyspace: &mut K,
    key: Text,
) -> Result<Reply, Starved>
    requires { IsTrue (K.covered key) }
    ensures done { Does (at_key key (at_list (pop_step Tail)))
        (K.contents keyspace.old) (K.contents keyspace.new) result }
    ensures answers { IsOk result }
{
    Ok(pop(alloc, keyspace, key.as_slice(), End::Tail))
}

/// Takes the item at this end of the list at a key, and answers it; null where the key is missing.
#[tactic(auto, using(keyspace::proofs::Changes::changes, resp::proofs::Contents::content_of))]
pub(crate) fn pop<K: Keyspace>(alloc: Global, keyspace: &mut K, key: &[u8], end: End) -> Reply
    requires { IsTrue (K.covered key.now) }
    ensures done { (K.contents keyspace.new, content result)
        ≡ at_key key.now (at_list (pop_step end)) (K.contents keyspace.old) }
{
    match keyspace.look(key) {
        None => return Reply::Null,
        Some(Value::List(_)) => {}
        Some(_) => return wrong_type_reply(),
    }
    let list = take_list(alloc, keyspace, key);
    let (item, left) = list.pop(end);
    leave_list(keyspace, key, left);
    Reply::Bulk(item.into_vec())
}

/// `LPUSH key item [item ..]`: pushes the items at the head in turn, and says the new length.
///
/// <https://redis.io/docs/latest/commands/lpush/>
pub(crate) fn lpush<K: Keyspace>(
    _alloc: Global,
    keyspace: &mut K,
    key: Text,
    items: Texts,
) -> Result<Reply, Starved>
    requires { IsTrue (K.covered key) }
    ensures done { Does (at_key key (at_list (push_step Head items)))
        (K.contents keyspace.old) (K.contents keyspace.new) result }
    ensures starves { OnErr result (IsTrue (may_be_list (map.get (K.contents keyspace.old) key))) }
{
    push(keyspace, key, End::Head, items)
}

/// `RPUSH key item [item ..]`: pushes the items at the tail in turn, and says the new length.
///
/// <https://redis.io/docs/latest/commands/rpush/>
pub(crate) fn rpush<K: Keyspace>(
    _alloc: Global,
    keyspace: &mut K,
    key: Text,
    items: Texts,
) -> Result<Reply, Starved>
    requires { IsTrue (K.covered key) }
    ensures done { Does (at_key key (at_list (push_step Tail items)))
        (K.contents keyspace.old) (K.contents keyspace.new) result }
    ensures starves { OnErr result (IsTrue (may_be_list (map.get (K.contents keyspace.old) key))) }
{
    push(keyspace, key, End::Tail, items)
}

/// `LPUSHX key item [item ..]`: as LPUSH where the key is there; 0 where it is missing.
///
/// <https://redis.io/docs/latest/commands/lpushx/>
pub(crate) fn lpushx<K: Keyspace>(
    _alloc: Global,
    keyspace: &mut K,
    key: Text,
    items: Texts,
) -> Result<Reply, Starved>
    requires { IsTrue (K.covered key) }
    ensures done { Does (at_key key (at_list (push_there_step Head items)))
        (K.contents keyspace.old) (K.contents keyspace.new) result }
    ensures starves { OnErr result (IsTrue (is_list (map.get (K.contents keyspace.old) key))) }
{
    push_there(keyspace, key.as_slice(), End::Head, items)
}

/// `RPUSHX key item [item ..]`: as RPUSH where the key is there; 0 where it is missing.
///
/// <https://redis.io/docs/latest/commands/rpushx/>
pub(crate) fn rpushx<K: Keyspace>(
    _alloc: Global,
    keyspace: &mut K,
    key: Text,
    items: Texts,
) -> Result<Reply, Starved>
    requires { IsTrue (K.covered key) }
    ensures done { Does (at_key key (at_list (push_there_step Tail items)))
        (K.contents keyspace.old) (K.contents keyspace.new) result }
    ensures starves { OnErr result (IsTrue (is_list (map.get (K.contents keyspace.old) key))) }
{
    push_there(keyspace, key.as_slice(), End::Tail, items)
}

/// Pushes the items at this end of the list at a key, all of them or none; a missing key gets a new list.
fn push<K: Keyspace>(keyspace: &mut K, key: Text, end: End, items: Texts) -> Result<Reply, Starved>
    requires { IsTrue (K.covered key) }
    ensures done { Does (at_key key (at_list (push_step end items)))
        (K.contents keyspace.old) (K.contents keyspace.new) result }
    ensures starves { OnErr result (IsTrue (may_be_list (map.get (K.contents keyspace.old) key))) }
{
    match keyspace.look_mut(key.as_slice()) {
        None => push_new(keyspace, key, end, items),
        Some(value) => push_on(value, end, items),
    }
}

/// Makes a new list of the items at a missing key.
#[tactic(auto, using(keyspace::proofs::Changes::changes))]
fn push_new<K: Keyspace>(
    keyspace: &mut K,
    key: Text,
    end: End,
    items: Texts,
) -> Result<Reply, Starved>
    requires covered { IsTrue (K.covered key) }
    requires absent { map.get (K.contents keyspace.old) key ≡ None }
    ensures done { Does (at_key key (at_list (push_step end items)))
        (K.contents keyspace.old) (K.contents keyspace.new) result }
{
    let Some(list) = ListValue::from_pushes(end, items) else {
        return Ok(count_reply(0));
    };
    let length = list.len();
    match keyspace.put(key.into_vec(), Value::List(list)) {
        Ok(_) => Ok(count_reply(length)),
        Err(_) => Err(Starved),
    }
}

/// Pushes the items at this end of the list at a key, all of them or none; 0 where the key is missing.
#[tactic(auto, using(keyspace::proofs::Changes::changes))]
fn push_there<K: Keyspace>(
    keyspace: &mut K,
    key: &[u8],
    end: End,
    items: Texts,
) -> Result<Reply, Starved>
    requires { IsTrue (K.covered key.now) }
    ensures done { Does (at_key key.now (at_list (push_there_step end items)))
        (K.contents keyspace.old) (K.contents keyspace.new) result }
    ensures starves { OnErr result (IsTrue (is_list (map.get (K.contents keyspace.old) key.now))) }
{
    match keyspace.look_mut(key) {
        None => Ok(count_reply(0)),
        Some(value) => push_on(value, end, items),
    }
}

/// Pushes the items at this end of a list where it lies, all of them or none.
fn push_on(value: &mut Value, end: End, items: Texts) -> Result<Reply, Starved>
    ensures done { Changes (at_list (push_step end items)) value.old value.new result }
    ensures there { Changes (at_list (push_there_step end items)) value.old value.new result }
    ensures starves { OnErr result (IsTrue (is_list (Some value.old))) }
{
    let Value::List(list) = value else {
        return Ok(wrong_type_reply());
    };
    list.push_all(end, items)?;
    Ok(count_reply(list.len()))
}
