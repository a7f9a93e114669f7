//! MSET and MSETNX: several keys at once, all or none.
//!
//! What stood at each key is kept until all have their values, so that it comes back where there is no memory for a key
//! that isn't there.

ghost use Rattle.std.specs.Prelude.{◌≡◌, ◌<◌, ◌≤◌, ℕ, List, [], true, false, length, is_some, All, IsTrue, IsSome};
ghost use Rattle.std.specs.Prelude.{None, IfOk, OnOk, OnErr, vec_capacity};
ghost use Rattle.std.specs.FinMap as map;
ghost use Rattle.std.specs.List.{AllByRecursion, list_any};
ghost use Rattle.command_cases.specs.Case.{Does};
ghost use Rattle.command_cases.specs.Shapes.{at_pairs, values_at, with_pairs};
ghost use Rattle.keyspace.specs.Map.{Map, among};
ghost use Rattle.string_commands.specs.Before.{LeadsTo};
ghost use Rattle.string_commands.specs.StringCommand.{mset_step, msetnx_step, missing_among};
ghost use Rattle.texts.specs.Texts.{firsts};
ghost use Rattle.values.specs.declared.Value.TheVariants as kind;

use command_cases::{Starved, ok_reply, truth_reply};
use keyspace::{Keyspace, leave};
use resp::Reply;
use std::alloc::Global;
use std::mem;
use texts::{Pairs, Text};
use values::Value;

/// `MSET key value [key value ..]`: puts each value at its key, in place of a value of any type; of a key that is named
/// twice, the last value. All are put, or none where there is no memory, which is taken only where one of the keys
/// isn't there. <https://redis.io/docs/latest/commands/mset/>
pub(crate) fn mset<K: Keyspace>(
    alloc: Global,
    keyspace: &mut K,
    pairs: Pairs,
) -> Result<Reply, Starved>
    requires { All (λ key. IsTrue (K.covered key)) (firsts pairs) }
    ensures done { Does (at_pairs pairs mset_step)
        (K.contents keyspace.old) (K.contents keyspace.new) result }
    ensures starves { OnErr result (0 < length (missing_among (K.contents keyspace.old) (firsts pairs))) }
{
    set_all(alloc, keyspace, pairs)?;
    Ok(ok_reply())
}

/// `MSETNX key value [key value ..]`: as MSET where none of the keys is there, and 1; else nothing, and 0.
/// <https://redis.io/docs/latest/commands/msetnx/>
pub(crate) fn msetnx<K: Keyspace>(
    alloc: Global,
    keyspace: &mut K,
    pairs: Pairs,
) -> Result<Reply, Starved>
    requires { All (λ key. IsTrue (K.covered key)) (firsts pairs) }
    ensures done { Does (at_pairs pairs msetnx_step)
        (K.contents keyspace.old) (K.contents keyspace.new) result }
    ensures starves { OnErr result (list_any is_some (values_at (K.contents keyspace.old) (firsts pairs)) ≡ false) }
{
    if is_one_there(keyspace, &pairs) {
        return Ok(truth_reply(false));
    }
    set_all(alloc, keyspace, pairs)?;
    Ok(truth_reply(true))
}

/// Whether one of the pairs' keys is there.
fn is_one_there<K: Keyspace>(keyspace: &K, pairs: &Pairs) -> bool
    requires { All (λ key. IsTrue (K.covered key)) (firsts pairs.now) }
    ensures { result ≡ list_any is_some (values_at (K.contents keyspace.now) (firsts pairs.now)) }
{
    for place in 0..pairs.len() {
        if keyspace.look(pairs.first_at(place)).is_some() {
            return true;
        }
    }
    false
}

/// Puts each value at its key, all or none. Where there is no memory for one, what stood at the others comes back.
fn set_all<K: Keyspace>(alloc: Global, keyspace: &mut K, pairs: Pairs) -> Result<(), Starved>
    requires { All (λ key. IsTrue (K.covered key)) (firsts pairs) }
    ensures ok { OnOk result (K.contents keyspace.new ≡ with_pairs (K.contents keyspace.old) pairs) }
    ensures err { OnErr result (K.contents keyspace.new ≡ K.contents keyspace.old) }
    ensures starves { OnErr result (0 < length (missing_among (K.contents keyspace.old) (firsts pairs))) }
{
    let Ok(mut before) = Vec::with_capacity(alloc, pairs.len()) else {
        return replace_all(keyspace, pairs);
    };
    match put_all(alloc, keyspace, pairs, &mut before) {
        Ok(()) => Ok(()),
        Err(starved) => {
            put_back(keyspace, before);
            Err(starved)
        }
    }
}

/// A key, and the value that stood there, if there was one.
type Before = (Vec<u8>, Option<Value>);

/// Puts each value at its key, up to the first one for which there is no memory, and adds what stood at the keys before, for which there
/// is room.
fn put_all<K: Keyspace>(
    alloc: Global,
    keyspace: &mut K,
    pairs: Pairs,
    before: &mut Vec<Before>,
) -> Result<(), Starved>
    requires covered { All (λ key. IsTrue (K.covered key)) (firsts pairs) }
    requires room { (before.old.items ≡ []) × (length pairs ≤ vec_capacity before.old) }
    ensures ok { OnOk result (K.contents keyspace.new ≡ with_pairs (K.contents keyspace.old) pairs) }
    ensures led { LeadsTo (K.contents keyspace.old) before.new.items (K.contents keyspace.new) }
    ensures covered { AllByRecursion (λ b. IsTrue (K.covered b.0.items)) before.new.items }
    ensures starves { OnErr result (0 < length (missing_among (K.contents keyspace.old) (firsts pairs))) }
{
    let mut turns = pairs.into_turns();
    turns.reverse();
    while let (Some(key), Some(value)) = (turns.pop(), turns.pop()) {
        let value = put(alloc, keyspace, key.as_slice(), Text::from(value))?;
        before.push_reserved((key, value));
    }
    Ok(())
}

/// Puts a string at a key, and gives the value that stood there, if there was one. Memory is taken only for a key that isn't there.
fn put<K: Keyspace>(
    alloc: Global,
    keyspace: &mut K,
    key: &[u8],
    text: Text,
) -> Result<Option<Value>, Starved>
    requires { IsTrue (K.covered key.now) }
    ensures before { IfOk result (λ before. map.get (K.contents keyspace.old) key.now ≡ before) }
    ensures ok { OnOk result (K.contents keyspace.new ≡ map.insert (K.contents keyspace.old) key.now (kind.Str text)) }
    ensures err { OnErr result (K.contents keyspace.new ≡ K.contents keyspace.old) }
    ensures absent { OnErr result (map.get (K.contents keyspace.old) key.now ≡ None) }
{
    if let Some(there) = keyspace.look_mut(key) {
        return Ok(Some(mem::replace(there, Value::Str(text))));
    }
    let copy = Text::copy_of(alloc, key)?;
    match keyspace.put(copy.into_vec(), Value::Str(text)) {
        Ok(_) => Ok(None),
        Err(_) => Err(Starved),
    }
}

/// Puts back what stood at the keys before, the last one first. It takes no memory.
fn put_back<K: Keyspace>(keyspace: &mut K, before: Vec<Before>)
    requires led { (m : Map) × LeadsTo m before.items (K.contents keyspace.old) }
    requires covered { AllByRecursion (λ b. IsTrue (K.covered b.0.items)) before.items }
    ensures { (m : Map) → LeadsTo m before.items (K.contents keyspace.old) → K.contents keyspace.new ≡ m }
{
    let mut before = before;
    while let Some((key, value)) = before.pop() {
        leave(keyspace, key.as_slice(), value);
    }
}

/// Puts each value at its key, where each is there. It takes no memory.
fn replace_all<K: Keyspace>(keyspace: &mut K, pairs: Pairs) -> Result<(), Starved>
    requires { All (λ key. IsTrue (K.covered key)) (firsts pairs) }
    ensures ok { OnOk result (K.contents keyspace.new ≡ with_pairs (K.contents keyspace.old) pairs) }
    ensures err { OnErr result (K.contents keyspace.new ≡ K.contents keyspace.old) }
    ensures starves { OnErr result (0 < length (missing_among (K.contents keyspace.old) (firsts pairs))) }
{
    if is_one_missing(keyspace, &pairs) {
        return Err(Starved);
    }
    replace_each(keyspace, pairs);
    Ok(())
}

/// Whether one of the pairs' keys isn't there.
fn is_one_missing<K: Keyspace>(keyspace: &K, pairs: &Pairs) -> bool
    requires { All (λ key. IsTrue (K.covered key)) (firsts pairs.now) }
    ensures missing { result ≡ true → 0 < length (missing_among (K.contents keyspace.now) (firsts pairs.now)) }
    ensures there { result ≡ false → missing_among (K.contents keyspace.now) (firsts pairs.now) ≡ [] }
{
    for place in 0..pairs.len() {
        if keyspace.look(pairs.first_at(place)).is_none() {
            return true;
        }
    }
    false
}

/// Puts each value at its key, each of which is there.
fn replace_each<K: Keyspace>(keyspace: &mut K, pairs: Pairs)
    requires covered { (key : List ℕ) → among (firsts pairs) key ≡ true → IsTrue (K.covered key) }
    requires there { (key : List ℕ) → among (firsts pairs) key ≡ true
        → IsSome (map.get (K.contents keyspace.old) key) }
    ensures put { K.contents keyspace.new ≡ with_pairs (K.contents keyspace.old) pairs }
{
    let mut turns = pairs.into_turns();
    turns.reverse();
    while let (Some(key), Some(value)) = (turns.pop(), turns.pop()) {
        keyspace.replace(key.as_slice(), Value::Str(Text::from(value)));
    }
}
