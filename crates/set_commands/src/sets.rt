//! The sets at some keys.

ghost use Rattle.std.specs.Prelude.{◌≡◌, All, IsTrue, IfOk, MatchResult, Some, None};
ghost use Rattle.std.specs.FinMap as map;
ghost use Rattle.std.specs.Option.{option_copied, option_map};
ghost use Rattle.command_cases.specs.Shapes.{values_at};
ghost use Rattle.set_commands.specs.Combination.{found_members, found_sets};
ghost use Rattle.set_commands.specs.SetCommand.{members_there, sets_at};

use crate::combine::{Combination, smallest};
use keyspace::Keyspace;
use std::alloc::{AllocError, Global};
use texts::{Text, Texts};
use values::{SetValue, Value};

/// The number of members from which a set is put in order as it lies in memory before all of it is read. A smaller one
/// is sorted as fast as it is taken out of the map and put back.
const ORDERED_FROM: usize = 32;

/// A key holds a value of another type.
#[derive(Drop)]
struct WrongType;

/// The set at each of these keys, none where the key is missing; `None` where a key holds a value of another type.
///
/// `AllocError` where there is no memory for the list.
pub(crate) fn find_sets<'a, K: Keyspace>(
    alloc: Global,
    keyspace: &'a K,
    keys: &Texts,
) -> Result<Option<Vec<Option<&'a SetValue>>>, AllocError>
    requires { All (λ key. IsTrue (K.covered key)) keys.now }
    ensures { IfOk result (λ found. option_map (λ sets. found_sets sets.items) found
        ≡ sets_at (values_at (K.contents keyspace.now) keys.now)) }
{
    let mut sets = Vec::with_capacity(alloc, keys.len())?;
    for key in keys.as_slice() {
        let Ok(set) = set_at(keyspace, key.as_slice()) else {
            return Ok(None);
        };
        sets.push(set)?;
    }
    Ok(Some(sets))
}

/// The set at a key, if the key is there.
fn set_at<'a, K: Keyspace>(keyspace: &'a K, key: &[u8]) -> Result<Option<&'a SetValue>, WrongType>
    requires { IsTrue (K.covered key.now) }
    ensures { MatchResult result
        (λ set. members_there (map.get (K.contents keyspace.now) key.now) ≡ Some (found_members (option_copied set)))
        (λ wrong. members_there (map.get (K.contents keyspace.now) key.now) ≡ None) }
{
    match keyspace.look(key) {
        None => Ok(None),
        Some(Value::Set(set)) => Ok(Some(set)),
        Some(_) => Err(WrongType),
    }
}

/// Puts the set at a key in order as it lies in memory, if there is a large one: what is read of it needs no sorting
/// then, until it changes. Where there is no memory for that it stays as it lies.
#[tactic(auto, using(keyspace::proofs::Changes::changes))]
pub(crate) fn order_set<K: Keyspace>(alloc: Global, keyspace: &mut K, key: &[u8])
    requires { IsTrue (K.covered key.now) }
    ensures same { K.contents keyspace.new ≡ K.contents keyspace.old }
{
    match keyspace.look(key) {
        Some(Value::Set(set)) => {
            if set.len() < ORDERED_FROM {
                return;
            }
        }
        _ => return,
    }
    let Value::Set(mut set) = keyspace.replace(key, Value::Str(Text::empty(alloc))) else {
        unreachable!();
    };
    let _ordered = set.order();
    keyspace.replace(key, Value::Set(set));
}

/// Puts those of the sets at these keys in order as they lie in memory that a combination of them walks through.
pub(crate) fn order_walked<K: Keyspace>(
    alloc: Global,
    keyspace: &mut K,
    how: Combination,
    keys: &Texts,
)
    requires { All (λ key. IsTrue (K.covered key)) keys.now }
    ensures same { K.contents keyspace.new ≡ K.contents keyspace.old }
{
    let smallest = place_of_smallest(alloc, keyspace, keys);
    for i in 0..keys.len() {
        if walks(how, i, smallest) {
            order_set(alloc, keyspace, keys.as_slice()[i].as_slice());
        }
    }
}

/// The place of the smallest of the sets at these keys; 0 where a key holds a value of another type, or there is no
/// memory.
fn place_of_smallest<K: Keyspace>(alloc: Global, keyspace: &K, keys: &Texts) -> usize
    requires { All (λ key. IsTrue (K.covered key)) keys.now }
{
    match find_sets(alloc, keyspace, keys) {
        Ok(Some(sets)) => smallest(sets.as_slice()),
        _ => 0,
    }
}

/// Whether a combination walks through the set at this place, where the smallest is at that one.
fn walks(how: Combination, place: usize, smallest: usize) -> bool {
    match how {
        Combination::Intersection => place == smallest,
        Combination::Union => true,
        Combination::Difference => place == 0,
    }
}
