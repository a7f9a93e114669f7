//! The commands that look at places of a list: LLEN, LINDEX and LRANGE.

ghost use Rattle.std.specs.Prelude.{◌≡◌, ◌≤◌, ◌<◌, length, map, slice_range, Some, IsTrue, IsOk, IfOk, IfSome, OnErr};
ghost use Rattle.std.specs.FinMap as map;
ghost use Rattle.command_cases.specs.Case.{Does, at_key};
ghost use Rattle.list_commands.specs.ListCommand.{at_list, is_list, length_step, index_step, range_step};
ghost use Rattle.list_commands.specs.ListCommand.{item_at, place_in, several};
ghost use Rattle.integers.specs.Range.{range_items};
ghost use Rattle.resp.specs.Content.{content, text_or_null};

use command_cases::{Starved, count_reply, wrong_type_reply};
use integers::range_of;
use keyspace::Keyspace;
use resp::{BulkTexts, Reply, bulk_size};
use std::alloc::{AllocError, Global};
use texts::Text;
use values::{ListValue, Value};

/// `LLEN key`: the number of items, 0 where the key is missing; an error where it holds a value of another type.
///
/// It takes no memory. <https://redis.io/docs/latest/commands/llen/>
#[tactic(auto, using(keyspace::proofs::Changes::changes))]
pub(crate) fn llen<K: Keyspace>(_alloc: Global, keyspace: &K, key: Text) -> Result<Reply, Starved>
    requires { IsTrue (K.covered key) }
    ensures done { Does (at_key key (at_list length_step))
        (K.contents keyspace.now) (K.contents keyspace.now) result }
    ensures answers { IsOk result }
{
    match keyspace.look(key.as_slice()) {
        None => Ok(count_reply(0)),
        Some(Value::List(list)) => Ok(count_reply(list.len())),
        Some(_) => Ok(wrong_type_reply()),
    }
}

/// `LINDEX key place`: the item at the place, or null; a place below 0 counts from the end.
///
/// The item is copied into the reply. <https://redis.io/docs/latest/commands/lindex/>
#[tactic(auto, using(keyspace::proofs::Changes::changes, resp::proofs::Contents::content_of))]
pub(crate) fn lindex<K: Keyspace>(
    alloc: Global,
    keyspace: &K,
    key: Text,
    place: i64,
) -> Result<Reply, Starved>
    requires { IsTrue (K.covered key) }
    ensures done { Does (at_key key (at_list (index_step place)))
        (K.contents keyspace.now) (K.contents keyspace.now) result }
    ensures starves { OnErr result (IsTrue (is_list (map.get (K.contents keyspace.now) key))) }
{
    match keyspace.look(key.as_slice()) {
        None => Ok(Reply::Null),
        Some(Value::List(list)) => Ok(item_reply(alloc, list, place)?),
        Some(_) => Ok(wrong_type_reply()),
    }
}

/// A copy of the item at a place, which may count from the end, or null where there is none.
#[tactic(auto, using(resp::proofs::Contents::content_of))]
fn item_reply(alloc: Global, list: &ListValue, place: i64) -> Result<Reply, AllocError>
    ensures { IfOk result (λ reply. content reply ≡ text_or_null (item_at list.now (place_in place (length list.now)))) }
{
    let Some(place) = place_in(place, list.len()) else {
        return Ok(Reply::Null);
    };
    match list.item(place) {
        None => Ok(Reply::Null),
        Some(item) => {
            let copy = Text::copy_of(alloc, item)?;
            Ok(Reply::Bulk(copy.into_vec()))
        }
    }
}

/// The place from the head that is meant in something of this length; one below 0 counts from the end.
pub(crate) fn place_in(place: i64, len: usize) -> Option<usize>
    ensures meant { result ≡ place_in place len }
    ensures within { IfSome result (λ p. p < len) }
{
    let from_head = match usize::try_from(place) {
        Ok(from_head) => from_head,
        Err(_) => len.checked_sub(place.unsigned_abs() as usize)?,
    };
    if from_head < len {
        Some(from_head)
    } else {
        None
    }
}

/// `LRANGE key start end`: the items from the start to the end, both included; either counts from the end where it is
/// below 0.
///
/// The items are copied into the reply. <https://redis.io/docs/latest/commands/lrange/>
#[tactic(auto, using(keyspace::proofs::Changes::changes, resp::proofs::Contents::content_of))]
pub(crate) fn lrange<K: Keyspace>(
    alloc: Global,
    keyspace: &K,
    key: Text,
    start: i64,
    end: i64,
) -> Result<Reply, Starved>
    requires { IsTrue (K.covered key) }
    ensures done { Does (at_key key (at_list (range_step start end)))
        (K.contents keyspace.now) (K.contents keyspace.now) result }
    ensures starves { OnErr result (IsTrue (is_list (map.get (K.contents keyspace.now) key))) }
{
    match keyspace.look(key.as_slice()) {
        None => Ok(Reply::Array(Vec::new(alloc))),
        Some(Value::List(list)) => Ok(range_reply(alloc, list, start, end)?),
        Some(_) => Ok(wrong_type_reply()),
    }
}

/// Copies of the items from the start to the end.
fn range_reply(alloc: Global, list: &ListValue, start: i64, end: i64) -> Result<Reply, AllocError>
    ensures { IfOk result (λ reply. content reply ≡ several (range_items start end list.now)) }
{
    let (from, to) = range_of(start, end, list.len());
    Ok(Reply::Bulks(copies(alloc, list, from, to)?))
}

/// Copies of the items from one place to before another.
fn copies(alloc: Global, list: &ListValue, from: usize, to: usize) -> Result<BulkTexts, AllocError>
    requires ordered { from ≤ to }
    requires within { to ≤ length list.now }
    ensures { IfOk result (λ texts. texts ≡ map Some (slice_range list.now from to)) }
{
    let (head, tail) = list.slices(from, to);
    let size = texts_size(head).saturating_add(texts_size(tail));
    let texts = BulkTexts::with_room(alloc, size)?.with_all(head)?;
    Ok(texts.with_all(tail)?)
}

/// The number of bytes of the texts of these as bulk strings, or the greatest number.
fn texts_size(items: &[Vec<u8>]) -> usize {
    let mut size: usize = 0;
    for item in items {
        size = size.saturating_add(bulk_size(item.as_slice()));
    }
    size
}
